//! What the host knows of a table.

ghost use Rattle.std.specs.Prelude.{◌≡◌, ◌*◌, ◌≤◌, map, sum_by, IfOk};
ghost use Rattle.trace_ops.specs.InRange.{IsTableInRange, prebuilt_bytes};
ghost use Rattle.trace_meaning.specs.Recorded.{prebuilt_object};
ghost use Rattle.arena_objects.specs.Headers.{header_in};
ghost use Rattle.arena_objects.specs.Layout.{words_in};
ghost use Rattle.arena_world.specs.Prebuilt.{addresses_from, word_at as listed_at, last_of as last_listed, IsHostOf};

use arena_objects::{Headers, words_ahead};
use std::alloc::{AllocError, Global};
use std::marker::Model;
use trace_ops::{PrebuiltRow, ShapeOf, Table, Word};

/// The header numbers of a table's shapes, and the words of the addresses of its prebuilt objects.
#[derive(Drop)]
pub struct Host {
    headers: Headers,
    prebuilts: Vec<Word>,
}

impl Model for Host {
    ghost use Rattle.arena_world.specs.Prebuilt.{HostKnows};

    ghost Value = { HostKnows };

    ghost view = { λ h. record { headers = h.headers; prebuilts = h.prebuilts.items } };
}

// The bytes of a prebuilt object.
fn bytes_of(row: &PrebuiltRow) -> u64
    requires { prebuilt_bytes row.now ≤ 32768 }
    ensures value { result ≡ prebuilt_bytes row.now }
    ensures words { result ≡ 8 * words_in (prebuilt_object row.now) }
{
    8 * (words_ahead(row.of) + row.parts.items().len() as u64)
}

// The words of the addresses of prebuilt objects.
fn addresses(alloc: Global, rows: &[PrebuiltRow]) -> Result<Vec<Word>, AllocError>
    requires { sum_by prebuilt_bytes rows.now ≤ 32768 }
    ensures { IfOk result (λ xs. xs.items ≡ addresses_from 0x1000_0000 (map prebuilt_object rows.now)) }
{
    let mut words = Vec::new(alloc);
    let mut at = 0x1000_0000u64;
    for row in rows {
        words.push(at as Word)?;
        at += bytes_of(row);
    }
    Ok(words)
}

// A word of a list, or 0.
pub(crate) fn word_at(words: &[Word], k: usize) -> Word
    ensures { result ≡ listed_at words.now k }
{
    match words.get(k) {
        None => 0,
        Some(word) => *word,
    }
}

impl Host {
    /// What is to be known of a table in range.
    pub fn new(alloc: Global, table: &Table) -> Result<Host, AllocError>
        requires { IsTableInRange table.now }
        ensures { IfOk result (λ h. IsHostOf table.now h) }
    {
        let headers = Headers::new(alloc, table)?;
        let prebuilts = addresses(alloc, table.prebuilts.items())?;
        Ok(Host { headers, prebuilts })
    }

    /// The header number of a shape.
    pub fn header_of(&self, shape: ShapeOf) -> u32
        ensures { result ≡ header_in self.now.headers shape }
    {
        self.headers.of(shape)
    }

    /// The word of the address of a prebuilt object, by its number.
    pub fn prebuilt(&self, k: u32) -> Word
        ensures { result ≡ listed_at self.now.prebuilts k }
    {
        word_at(self.prebuilts.as_slice(), k as usize)
    }

    // The word of the address of the last prebuilt object, or 0.
    pub(crate) fn last_prebuilt(&self) -> Word
        ensures { result ≡ last_listed self.now.prebuilts }
    {
        word_at(
            self.prebuilts.as_slice(),
            self.prebuilts.len().saturating_sub(1),
        )
    }
}
