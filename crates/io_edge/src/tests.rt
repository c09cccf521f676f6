ghost use Rattle.std.specs.Prelude.{◌<◌};

use super::*;
use std::io::Cursor;
use std::test::*;

fn fed(rt: &HostRuntime, piece: usize, fails: &[u64]) -> Result<MemSource, Fail>
    requires { 0 < piece }
{
    let bytes = Vec::from_slice(rt.alloc(), b"two words")?;
    Ok(MemSource::new(bytes, piece, Vec::from_slice(rt.alloc(), fails)?))
}

#[test]
fn a_source_is_read_to_its_end_or_its_fault(rt: HostRuntime) -> Result<(), Fail> {
    let table: [(usize, &[u64], usize, Result<&[u8], ReadEnd>); 5] = [
        (4, &[], 9, Ok(b"two words")),
        (100, &[9], 100, Ok(b"two words")),
        (4, &[0], 9, Err(ReadEnd::ReadFault)),
        (4, &[2], 9, Err(ReadEnd::ReadFault)),
        (4, &[], 8, Err(ReadEnd::TooLong { limit: 8 })),
    ];
    for (piece, fails, limit, want) in table {
        let got = read_all(
            rt.alloc(),
            &mut fed(&rt, piece.max(1), fails)?,
            limit.min(1000),
        );
        match (got, want) {
            (Ok(bytes), Ok(text)) => assert_eq!(rt; bytes.as_slice(), text),
            (Err(end), Err(other)) => assert!(rt; end == other, "{end:?}"),
            _ => return Err(Fail::from("another kind of end")),
        }
    }
    let mut plain = PlainSource::new(Vec::from_slice(rt.alloc(), b"plain")?);
    let all = read_all(rt.alloc(), &mut plain, 5)?;
    assert_eq!(rt; all.as_slice(), b"plain".as_slice());
    Ok(())
}

#[test]
fn a_sink_takes_all_or_tells_how_much(rt: HostRuntime) -> Result<(), Fail> {
    let table: [(usize, &[u64], usize, usize); 4] = [
        (4, &[], 9, 9),
        (4, &[1], 9, 4),
        (100, &[0], 9, 0),
        (4, &[], 8, 8),
    ];
    for (piece, fails, room, want) in table {
        let fails = Vec::from_slice(rt.alloc(), fails)?;
        let mut sink = MemSink::new(rt.alloc(), piece.max(1), fails)?;
        sink.reserve(room)?;
        match write_all(&mut sink, b"two words") {
            Ok(()) => assert_eq!(rt; want, 9),
            Err(fault) => assert_eq!(rt; fault.written, want),
        }
        assert_eq!(rt; sink.bytes(), &b"two words"[..want.min(9)]);
    }
    Ok(())
}

#[test]
fn a_reader_of_std_is_a_source(rt: HostRuntime) -> Result<(), Fail> {
    let mut source = StdSource::new(b"from a reader".as_slice());
    let all = read_all(rt.alloc(), &mut source, 100)?;
    assert_eq!(rt; all.as_slice(), b"from a reader".as_slice());
    Ok(())
}

#[test]
fn a_writer_of_std_is_a_sink(rt: HostRuntime) -> Result<(), Fail> {
    let mut kept = [0u8; 4];
    let mut sink = StdSink::new(Cursor::new(kept.as_mut_slice()));
    match write_all(&mut sink, b"12345") {
        Ok(()) => return Err(Fail::from("five bytes in four")),
        Err(fault) => assert_eq!(rt; fault.written, 4),
    }
    Ok(())
}
