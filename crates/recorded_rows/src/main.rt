//! What is seen of recorded traces, for each worked case of the input.
#![tactic(auto)]

mod cases;
mod seen;

use cases::all_seen;
use io_edge::{StdSink, StdSource, read_all, write_all};
use std::io;
use std::process::ExitCode;

// A megabyte of cases.
const LIMIT: usize = 1_048_576;

fn main(rt: HostRuntime) -> ExitCode {
    let alloc = rt.alloc();
    let Ok(text) = read_all(alloc, &mut StdSource::new(rt.reader()), LIMIT) else {
        return ExitCode::from(1);
    };
    let Ok(out) = all_seen(alloc, text.as_slice()) else {
        return ExitCode::from(2);
    };
    match write_all(&mut StdSink::new(io::writer(&rt)), out.as_slice()) {
        Ok(()) => ExitCode::from(0),
        Err(_) => ExitCode::from(3),
    }
}
