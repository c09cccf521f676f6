// Code bytes as the machine reads them.
#![tactic(auto)]

ghost use Rattle.std.specs.Prelude.{◌≡◌, ◌-◌, ◌^◌, ◌<◌, ◌≤◌, ℕ, List, length, take, drop, min};

use std::marker::Model;

/// The code, of which sixteen bytes are read at a time.
pub trait Fetch {
    ghost code: { Self → List ℕ };

    /// The bytes from a place on, at most sixteen, and how many they are.
    fn fetch(&self, at: u32, buf: &mut [u8; 16]) -> usize
        ensures count { result ≡ min 16 (length (code self.now) - at) }
        ensures bytes { take result buf.new ≡ take 16 (drop at (code self.now)) }
        ensures few { length (code self.now) < 2 ^ 32 };
}

/// Code that never changes.
#[derive(Drop)]
pub struct PlainCode {
    bytes: Vec<u8>,
}

impl Model for PlainCode {
    ghost Value = { List ℕ };

    ghost view = { λ c. c.bytes.items };

    ghost invariant = { λ c. length c.bytes.items < 2 ^ 32 };
}

impl PlainCode {
    pub fn new(bytes: Vec<u8>) -> Self
        requires { length bytes.items < 2 ^ 32 }
        ensures { result ≡ bytes.items }
    {
        PlainCode { bytes }
    }
}

impl Fetch for PlainCode {
    ghost code = { λ bytes. bytes };

    fn fetch(&self, at: u32, buf: &mut [u8; 16]) -> usize {
        let at = at as usize;
        if self.bytes.len() <= at {
            return 0;
        }
        let n = 16.min(self.bytes.len() - at);
        put_first(buf, &self.bytes[at..at + n]);
        n
    }
}

// Writes a run at the buffer's start. A whole buffer is one move of sixteen bytes.
fn put_first(buf: &mut [u8; 16], run: &[u8])
    requires { length run.now ≤ 16 }
    ensures { take (length run.now) buf.new ≡ run.now }
{
    match run.first_chunk() {
        Some(whole) => *buf = *whole,
        None => buf[..run.len()].copy_from_slice(run),
    }
}
