//! What the program writes where its source or its sink fails.

use io_edge::{MemSink, MemSource, PlainSource};
use std::alloc::Global;
use std::test::*;
use tj_app::*;

fn owned(alloc: Global, words: &[&str]) -> Result<Vec<String>, Fail> {
    let mut all = Vec::new(alloc);
    for word in words {
        all.push(String::from_str(alloc, word)?)?;
    }
    Ok(all)
}

#[test]
fn failed_reads_and_writes_end_with_their_status(rt: HostRuntime) -> Result<(), Fail> {
    for word in ["run", "check"] {
        let words = owned(rt.alloc(), &[word])?;
        let mut src = MemSource::new(
            Vec::from_slice(rt.alloc(), b"%loop L\n")?,
            3,
            Vec::from_slice(rt.alloc(), &[1])?,
        );
        let mut sink = MemSink::new(rt.alloc(), 100, Vec::new(rt.alloc()))?;
        sink.reserve(100)?;
        let status = serve(rt.alloc(), &words, &mut src, &mut sink);
        assert_eq!(rt; status, Status::ReadFault);
        assert_eq!(rt; sink.bytes(), b"error read\n".as_slice());
    }
    let table: [(&str, &[u8]); 2] = [("run", b"%opt"), ("check", b"ok t")];
    for (word, taken) in table {
        let words = owned(rt.alloc(), &[word])?;
        let mut src = PlainSource::new(Vec::new(rt.alloc()));
        let mut sink = MemSink::new(rt.alloc(), 4, Vec::from_slice(rt.alloc(), &[1])?)?;
        sink.reserve(100)?;
        let status = serve(rt.alloc(), &words, &mut src, &mut sink);
        assert_eq!(rt; status, Status::WriteFault);
        assert_eq!(rt; sink.bytes(), taken);
    }
    Ok(())
}
