ghost use Rattle.std.specs.Prelude.{◌≡◌, ◌≤◌, ◌<◌, ◌+◌, ◌-◌, ◌^◌, ℕ, List, length, take, IfOk, OnOk, IfErr, OnErr, Ok, Err};
ghost use Rattle.std.specs.Io.KnownBytes.{Consumes, Appends, IsAtEnd};
ghost use Rattle.io_edge.specs.Causes.{Rose};

use crate::{Failed, Sink, Source};
use std::alloc::{AllocError, Global};

/// Why a source was not read to its end.
#[derive(Debug, Drop, PartialEq, Eq)]
pub enum ReadEnd {
    ReadFault,
    TooLong { limit: usize },
    OutOfMemory,
}

/// Reads the source to its end.
pub fn read_all<S: Source>(alloc: Global, src: &mut S, limit: usize) -> Result<Vec<u8>, ReadEnd>
    requires { limit + 1 < 2 ^ 64 }
    ensures later { S.faults src.old ≤ S.faults src.new }
    ensures fault { result ≡ Err ReadEnd.ReadFault → Rose (S.faults src.old) (S.faults src.new) }
    // the end of the source was read
    ensures read { IfOk result (λ v. Consumes (S.left src.old) (S.left src.new) v.items × IsAtEnd (S.left src.new)) }
    ensures within { IfOk result (λ v. length v.items ≤ limit) }
    // one byte more than the limit was read
    ensures long { (most : ℕ) → result ≡ Err (ReadEnd.TooLong most) → (most ≡ limit) × ((bytes : List ℕ) × (length bytes ≡ limit + 1) × Consumes (S.left src.old) (S.left src.new) bytes) }
{
    let mut out = Vec::new(alloc);
    let mut piece = [0u8; 4096];
    while out.len() <= limit {
        let room = piece.len().min(limit + 1 - out.len());
        match src.read_some(&mut piece[..room]) {
            Ok(0) => return Ok(out),
            Ok(count) => {
                if out.extend_from_slice(&piece[..count]).is_err() {
                    return Err(ReadEnd::OutOfMemory);
                }
            }
            Err(_) => return Err(ReadEnd::ReadFault),
        }
    }
    Err(ReadEnd::TooLong { limit })
}

/// A write that failed, and how many bytes were taken before it.
#[derive(Clone, Copy, Debug, PartialEq, Eq)]
pub struct WriteFault {
    pub written: usize,
}

/// Writes all bytes.
pub fn write_all<K: Sink>(sink: &mut K, bytes: &[u8]) -> Result<(), WriteFault>
    ensures later { K.faults sink.old ≤ K.faults sink.new }
    ensures fault { OnErr result (Rose (K.faults sink.old) (K.faults sink.new)) }
    ensures all { OnOk result (Appends (K.taken sink.old) (K.taken sink.new) bytes.now) }
    ensures some { IfErr result (λ f. (f.written ≤ length bytes.now) × Appends (K.taken sink.old) (K.taken sink.new) (take f.written bytes.now)) }
{
    let mut written = 0;
    while written < bytes.len() {
        match sink.write_some(&bytes[written..]) {
            Ok(count) => written += count,
            Err(_) => return Err(WriteFault { written }),
        }
    }
    Ok(())
}
