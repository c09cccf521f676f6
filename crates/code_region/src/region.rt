// The code, as a list of bytes with room for more.
ghost use Rattle.std.specs.Prelude.{◌≡◌, ℕ, ◌+◌, ◌*◌, ◌≤◌, ◌<◌, ◌^◌, [], ◌++◌, length, replicate, IfOk, OnOk, OnErr, slice_set, take, drop, min, ◌-◌};
ghost use Rattle.std.specs.Int.{to_le_bytes, cast_unsigned, w32};

use crate::chunk::{CHUNK, Chunk};
use std::alloc::{AllocError, Global};
use std::marker::Model;
use target_base::Fetch;

/// How many chunks the index has room for at first.
const FIRST_CHUNKS: usize = 16;

/// Code that grows at its end. Its chunks stay where they are, and an index finds each by division.
#[derive(Drop)]
pub struct Region {
    alloc: Global,
    chunks: Vec<Chunk>,
    len: u32,
    spare: u32,
}

impl Model for Region {
    ghost use Rattle.std.specs.Prelude.{◌+◌, ◌*◌, ◌<◌, ◌≤◌, ◌^◌, length};
    ghost use Rattle.code_region.specs.Code.{Code};
    ghost use Rattle.code_region.specs.Chunks.{joined, IsFilled};

    ghost Value = { Code };

    ghost view = { λ r. record { bytes = joined r.chunks.items; spare = r.spare } };

    ghost invariant = { λ r. record {
      filled : IsFilled r.len r.chunks.items;
      room : r.len + r.spare ≤ 65536 * length r.chunks.items;
      few : r.len + r.spare < 2 ^ 32;
    } };
}

// A place in the code: the chunk that it lies in, and where in that chunk.
#[derive(Drop, Clone, Copy)]
struct Spot {
    chunk: usize,
    at: usize,
}

fn spot_of(at: usize) -> Spot
    ensures at { at ≡ 65536 * result.chunk + result.at }
    ensures within { result.at < 65536 }
{
    Spot {
        chunk: at / CHUNK,
        at: at % CHUNK,
    }
}

// Writes a run at the buffer's start. A whole buffer is one move of sixteen bytes.
fn put_first(buf: &mut [u8; 16], run: &[u8])
    requires { length run.now ≤ 16 }
    ensures { take (length run.now) buf.new ≡ run.now }
{
    match run.first_chunk() {
        Some(whole) => *buf = *whole,
        None => buf[..run.len()].copy_from_slice(run),
    }
}

// Writes a run into the buffer.
fn put_run(buf: &mut [u8; 16], from: usize, run: &[u8])
    requires { from + length run.now ≤ 16 }
    ensures { take (from + length run.now) buf.new ≡ take from buf.old ++ run.now }
{
    buf[from..from + run.len()].copy_from_slice(run);
}

// So many chunks with no bytes yet, or none where one is refused.
fn make_empty(alloc: Global, count: usize) -> Result<Vec<Chunk>, AllocError>
    ensures { IfOk result (λ made. made.items ≡ replicate count []) }
{
    let mut made = Vec::with_capacity(alloc, count)?;
    for _k in 0..count {
        made.push(Chunk::make(alloc)?)?;
    }
    Ok(made)
}

impl Region {
    /// No code, with no room for any.
    pub fn new(alloc: Global) -> Result<Region, AllocError>
        ensures bytes { IfOk result (λ r. r.bytes ≡ []) }
        ensures spare { IfOk result (λ r. r.spare ≡ 0) }
    {
        Ok(Region {
            alloc,
            chunks: Vec::with_capacity(alloc, FIRST_CHUNKS)?,
            len: 0,
            spare: 0,
        })
    }

    /// The number of bytes. With the spare ones they are fewer than 2^32.
    pub fn len(&self) -> u32
        ensures len { result ≡ length self.now.bytes }
        ensures few { length self.now.bytes + self.now.spare < 2 ^ 32 }
    {
        self.len
    }

    /// Makes room for so many more bytes. Where memory is refused, all is as before.
    pub fn reserve(&mut self, n: u32) -> Result<(), AllocError>
        requires { length self.old.bytes + n < 2 ^ 32 }
        ensures bytes { self.new.bytes ≡ self.old.bytes }
        ensures ok { OnOk result (n ≤ self.new.spare) }
        ensures err { OnErr result (self.new ≡ self.old) }
        ensures kept { self.old.spare ≤ self.new.spare }
        ensures few { length self.new.bytes + self.new.spare < 2 ^ 32 }
    {
        if n <= self.spare {
            return Ok(());
        }
        let wanted = (self.len as usize + n as usize).div_ceil(CHUNK);
        let missing = wanted.saturating_sub(self.chunks.len());
        let mut more = make_empty(self.alloc, missing)?;
        self.chunks.append(&mut more)?;
        self.spare = n;
        Ok(())
    }

    /// Adds bytes, and gives the place of the first.
    pub fn append(&mut self, bytes: &[u8]) -> u32
        requires { length bytes.now ≤ self.old.spare }
        ensures place { result ≡ length self.old.bytes }
        ensures bytes { self.new.bytes ≡ self.old.bytes ++ bytes.now }
        ensures spare { self.new.spare + length bytes.now ≡ self.old.spare }
    {
        let place = self.len();
        let mut done = 0;
        while done < bytes.len() {
            let end = spot_of(self.len() as usize);
            let run = (CHUNK - end.at).min(bytes.len() - done);
            self.add_run(end, &bytes[done..done + run]);
            done += run;
        }
        place
    }

    // Adds bytes that fit into the chunk at the end.
    fn add_run(&mut self, end: Spot, run: &[u8])
        requires end { length self.old.bytes ≡ 65536 * end.chunk + end.at }
        requires some { 0 < length run.now }
        requires fits { end.at + length run.now ≤ 65536 }
        requires spare { length run.now ≤ self.old.spare }
        ensures bytes { self.new.bytes ≡ self.old.bytes ++ run.now }
        ensures spare { self.new.spare + length run.now ≡ self.old.spare }
    {
        self.chunks[end.chunk].add(run);
        self.len += run.len() as u32;
        self.spare -= run.len() as u32;
    }

    // Writes the byte at a place.
    fn set(&mut self, at: u32, byte: u8)
        requires { at < length self.old.bytes }
        ensures bytes { self.new.bytes ≡ slice_set self.old.bytes at byte }
        ensures spare { self.new.spare ≡ self.old.spare }
    {
        let place = spot_of(at as usize);
        self.chunks[place.chunk].set(place.at, byte);
    }

    /// Writes four bytes at a place, the lowest first.
    pub fn patch4(&mut self, at: u32, value: i32)
        requires { at + 4 ≤ length self.old.bytes }
        ensures bytes { self.new.bytes ≡ take at self.old.bytes ++ to_le_bytes w32 (cast_unsigned w32 value) ++ drop (at + 4) self.old.bytes }
        ensures spare { self.new.spare ≡ self.old.spare }
    {
        let _ = &self.len;
        let bytes = value.to_le_bytes();
        self.set(at, bytes[0]);
        self.set(at + 1, bytes[1]);
        self.set(at + 2, bytes[2]);
        self.set(at + 3, bytes[3]);
    }

    // The bytes from a place on that stand in its chunk, at most so many.
    fn run(&self, place: Spot, most: usize) -> &[u8]
        requires place { 65536 * place.chunk + place.at < length self.now.bytes }
        requires within { place.at < 65536 }
        ensures { result.now ≡ take (min most (65536 - place.at)) (drop (65536 * place.chunk + place.at) self.now.bytes) }
    {
        let bytes = self.chunks[place.chunk].bytes();
        let most = most.min(bytes.len() - place.at);
        &bytes[place.at..place.at + most]
    }
}

impl Fetch for Region {
    ghost code = { λ r. r.bytes };

    fn fetch(&self, at: u32, buf: &mut [u8; 16]) -> usize {
        let at = at as usize;
        let len = self.len() as usize;
        if len <= at {
            return 0;
        }
        let place = spot_of(at);
        let first = self.run(place, 16);
        let n = first.len();
        put_first(buf, first);
        if n == 16 || len <= at + n {
            return n;
        }
        let next = Spot {
            chunk: place.chunk + 1,
            at: 0,
        };
        let second = self.run(next, 16 - n);
        put_run(buf, n, second);
        n + second.len()
    }
}
