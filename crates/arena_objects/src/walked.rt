// The objects of an arena, found by one walk and looked up by their addresses.

ghost use Rattle.std.specs.Prelude.{◌≡◌, ◌≤◌, ◌<◌, ◌+◌, ◌*◌, ◌/◌, ◌^◌, [], length, vec_capacity, IfOk};
ghost use Rattle.arena_objects.specs.Walked.{Addresses, Rise, addresses_found, place_from, number_in};

use crate::walk::{begins_at, words_ahead};
use std::alloc::{AllocError, Global};
use std::marker::Model;
use target_base::ArenaWords;
use trace_ops::Table;

/// The addresses of the objects of an arena, in the order of the walk, and room for more.
#[derive(Drop)]
pub struct Walked {
    addresses: Vec<u64>,
}

impl Model for Walked {
    ghost use Rattle.std.specs.Prelude.{◌≤◌, ◌^◌, vec_capacity, length};
    ghost use Rattle.arena_objects.specs.Walked.{Addresses, Rise};

    ghost Value = { Addresses };

    ghost view = { λ w. record { found = w.addresses.items; room = vec_capacity w.addresses } };

    ghost invariant = { λ w. record { rise : Rise w.addresses.items; few : length w.addresses.items ≤ 2 ^ 21 } };
}

impl Walked {
    /// No objects yet, and room for those of an arena of so many bytes.
    pub fn new(alloc: Global, bytes: u64) -> Result<Walked, AllocError>
        requires { bytes ≤ 2 ^ 24 }
        ensures found { IfOk result (λ w. w.found ≡ []) }
        ensures room { IfOk result (λ w. bytes / 8 ≤ w.room) }
    {
        let addresses = Vec::with_capacity(alloc, (bytes / 8) as usize)?;
        Ok(Walked { addresses })
    }

    /// Finds the objects of an arena, for all of whose words there is room. It takes no memory.
    pub fn walk(&mut self, table: &Table, arena: &ArenaWords)
        requires { length arena.now.words ≤ self.old.room }
        ensures found { self.new.found ≡ addresses_found table.now arena.now }
        ensures room { self.new.room ≡ self.old.room }
    {
        self.addresses.clear();
        find_all(&mut self.addresses, table, arena);
    }

    /// The number of the object of which a word is the address.
    pub fn number_of(&self, word: i64) -> Option<u32>
        ensures { result ≡ number_in word self.now.found }
    {
        if word < 0 {
            None
        } else {
            number_at(&self.addresses, word as u64)
        }
    }
}

// Adds the addresses of all objects of an arena, for which there is room.
fn find_all(addresses: &mut Vec<u64>, table: &Table, arena: &ArenaWords)
    requires none { addresses.old.items ≡ [] }
    requires room { length arena.now.words ≤ vec_capacity addresses.old }
    ensures found { addresses.new.items ≡ addresses_found table.now arena.now }
    ensures room { vec_capacity addresses.new ≡ vec_capacity addresses.old }
    ensures rise { Rise addresses.new.items }
    ensures few { length addresses.new.items ≤ 2 ^ 21 }
{
    let taken = arena.taken();
    let mut at = 0x1000_0000u64;
    for _ in 0..taken {
        match begins_at(table, arena, at) {
            None => return,
            Some(found) => {
                addresses.push_reserved(found.at);
                at = found.at + 8 * (words_ahead(found.of) + found.parts);
            }
        }
    }
}

// The place of an address among addresses that rise.
fn number_at(addresses: &[u64], address: u64) -> Option<u32>
    requires rise { Rise addresses.now }
    requires few { length addresses.now ≤ 2 ^ 21 }
    ensures { result ≡ place_from 0 address addresses.now }
{
    let mut low = 0;
    let mut high = addresses.len();
    while low < high {
        let middle = low + (high - low) / 2;
        let here = addresses[middle];
        if here == address {
            return Some(middle as u32);
        }
        if here < address {
            low = middle + 1;
        } else {
            high = middle;
        }
    }
    None
}
