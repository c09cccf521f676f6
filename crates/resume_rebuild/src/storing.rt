//! Pending stores.

ghost use Rattle.std.specs.Prelude.{◌≡◌, ◌*◌, ◌+◌, ◌==◌, ◌^◌, ◌≤◌, ℕ, pos, map, length, position, slice_get, IfSome, IfNone};
ghost use Rattle.target_base.specs.Arena.{arena_word};
ghost use Rattle.trace_meaning.specs.Objects.{fields_of};
ghost use Rattle.arena_objects.specs.Spots.{or_first as first_or, spot_offset as offset_meant, field_offset as field_meant, item_offset as item_meant};
ghost use Rattle.resume_rebuild.specs.Noted.{AreNoted};
ghost use Rattle.resume_rebuild.specs.Read.{sources_read};
ghost use Rattle.resume_rebuild.specs.Rebuilding.{put_word as word_put, stored_at as stored, stored_all as all_stored};
ghost use Rattle.resume_rebuild.specs.Rows.{row_stored};
ghost use Rattle.resume_rebuild.specs.Storing.{IsOffset, stored_by};

use crate::words::{Read, tag_word};
use resume_numbering::PendingRow;
use target_base::ArenaWords;
use trace_ops::{Spot, Table, Word};

// So many words in bytes, where that isn't beyond each arena.
fn words_in_bytes(words: u64) -> Option<u64>
    ensures { IsOffset result (8 * words) }
{
    if words > 0x400_0000 {
        None
    } else {
        Some(8 * words)
    }
}

fn index_of(fields: &[u32], field: u32) -> Option<usize>
    ensures { result ≡ position (λ g. g == field) fields.now }
{
    fields.iter().position(|g| *g == field)
}

fn or_first(index: Option<usize>) -> usize
    ensures { result ≡ first_or index }
{
    match index {
        None => 0,
        Some(i) => i,
    }
}

fn place_in_size(table: &Table, size: u32, field: u32) -> usize
    ensures { result ≡ first_or (position (λ g. g == field) (fields_of table.now size)) }
{
    match table.sizes.items().get(size as usize) {
        None => 0,
        Some(row) => or_first(index_of(row.fields.items(), field)),
    }
}

fn field_offset(table: &Table, field: u32) -> Option<u64>
    ensures { IsOffset result (field_meant table.now field (slice_get table.now.fields field)) }
{
    match table.fields.items().get(field as usize) {
        None => Some(8),
        Some(row) => {
            let place = place_in_size(table, row.size, field);
            words_in_bytes((place as u64).saturating_add(1))
        }
    }
}

fn item_offset(index: Word) -> Option<u64>
    ensures { IsOffset result (item_meant index) }
{
    if index < 0 {
        Some(16)
    } else {
        words_in_bytes(index as u64 + 2)
    }
}

// How many bytes behind an object's address a spot lies, where that isn't beyond each arena.
fn spot_offset(table: &Table, spot: Spot) -> Option<u64>
    ensures { IsOffset result (offset_meant table.now spot) }
{
    match spot {
        Spot::Field(f) => field_offset(table, f),
        Spot::Item(_, i) => item_offset(i),
    }
}

fn put_word(arena: &mut ArenaWords, at: u64, word: Word)
    ensures { arena.new ≡ word_put at word arena.old }
{
    let _written = arena.write(at, word);
}

fn store_at(arena: &mut ArenaWords, base: Word, offset: u64, word: Word)
    requires { offset ≤ 2 ^ 30 }
    ensures { arena.new ≡ stored base offset word arena.old }
{
    if base >= 0 {
        put_word(arena, base as u64 + offset, word);
    }
}

// Stores a word; nothing, where it is too far.
fn store_word(arena: &mut ArenaWords, base: Word, offset: Option<u64>, word: Word)
    requires { IfSome offset (λ o. o ≤ 2 ^ 30) }
    ensures { (n : ℕ) → IsOffset offset n → arena.new ≡ stored base n word arena.old }
{
    let _bound = arena.size();
    match offset {
        None => {}
        Some(o) => store_at(arena, base, o, word),
    }
}

fn store_one(table: &Table, read: &Read, row: &PendingRow, arena: &mut ArenaWords)
    requires noted { AreNoted read.now.places.now read.now.noted.now }
    ensures { arena.new ≡ stored_by (row_stored table.now (sources_read read.now) read.now.words.now row.now) arena.old }
{
    let base = tag_word(read, row.base);
    let word = tag_word(read, row.value);
    store_word(arena, base, spot_offset(table, row.spot), word);
}

/// Does pending stores, in order.
pub(crate) fn store_all(table: &Table, read: &Read, rows: &[PendingRow], arena: &mut ArenaWords)
    requires noted { AreNoted read.now.places.now read.now.noted.now }
    ensures { arena.new ≡ all_stored (map (row_stored table.now (sources_read read.now) read.now.words.now) rows.now) arena.old }
{
    for row in rows {
        store_one(table, read, row, arena);
    }
}
