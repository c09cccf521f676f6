//! New objects for the virtual ones: their bytes, their beginnings, and their parts.

ghost use Rattle.std.specs.Prelude.{◌≡◌, [], ◌∷◌, ◌++◌, ◌+◌, ◌*◌, ◌%◌, ◌-◌, ◌^◌, ◌≤◌, ◌<◌, pos, true, is_some, length, map, All, min};
ghost use Rattle.std.specs.Vec.{vec_capacity, vec_len};
ghost use Rattle.target_base.specs.Arena.{arena_word, with_arena_word};
ghost use Rattle.arena_objects.specs.Layout.{part_offset};
ghost use Rattle.arena_objects.specs.Making.{arena_begun};
ghost use Rattle.arena_objects.specs.Headers.{header_in};
ghost use Rattle.arena_objects.specs.Laws.{arena_filled};
ghost use Rattle.resume_rebuild.specs.Noted.{AreNoted};
ghost use Rattle.resume_rebuild.specs.Read.{sources_read};
ghost use Rattle.resume_rebuild.specs.Rebuilding.{words_of_extent, bytes_of_all, addresses_from, made_with, filled_all as all_filled, first_new};
ghost use Rattle.resume_rebuild.specs.Rows.{row_extent, row_filled, rows_at, tag_word as word_tagged};

use crate::words::{Read, tag_word};
use arena_objects::{Headers, allocate, bytes_asked, words_ahead};
use resume_numbering::VirtualRow;
use target_base::ArenaWords;
use trace_ops::Word;

fn size_of(row: &VirtualRow) -> u64
    ensures { result ≡ min (8 * words_of_extent (row_extent row.now)) (2 ^ 64 - 1) }
{
    bytes_asked(row.of, row.parts.items().len() as u64)
}

/// The bytes of all virtual objects, or all that can be said.
pub(crate) fn bytes_of(rows: &[VirtualRow], numbers: &[u32]) -> u64
    requires { All (λ k. k < length rows.now) numbers.now }
    ensures { result ≡ min (bytes_of_all (map row_extent (rows_at rows.now numbers.now))) (2 ^ 64 - 1) }
{
    let mut asked = 0u64;
    for k in numbers {
        asked = asked.saturating_add(size_of(&rows[*k as usize]));
    }
    asked
}

fn next_word(arena: &ArenaWords) -> Word
    ensures { result ≡ pos (first_new arena.now) }
{
    0x1000_0000 + arena.taken() as Word
}

// Keeps the word of the next object's address.
fn push_next(arena: &ArenaWords, made: &mut Vec<Word>)
    requires { vec_len made.old < vec_capacity made.old }
    ensures items { made.new.items ≡ made.old.items ++ pos (first_new arena.now) ∷ [] }
    ensures len { vec_len made.new ≡ vec_len made.old + 1 }
    ensures capacity { vec_capacity made.new ≡ vec_capacity made.old }
{
    made.push_reserved(next_word(arena));
}

// Makes one object behind the others.
fn make_one(headers: &Headers, row: &VirtualRow, arena: &mut ArenaWords)
    requires room { 8 * words_of_extent (row_extent row.now) + arena.old.taken ≤ 8 * length arena.old.words }
    ensures arena { arena.new ≡ arena_begun row.now.of (header_in headers.now row.now.of) (length row.now.parts) arena.old }
    ensures taken { arena.new.taken ≡ arena.old.taken + 8 * words_of_extent (row_extent row.now) }
    ensures size { length arena.new.words ≡ length arena.old.words }
{
    let parts = row.parts.items().len() as u64;
    let Ok(_address) = allocate(arena, row.of, headers.of(row.of), parts) else {
        unreachable!()
    };
}

/// Makes all objects, in order, and keeps the words of their addresses.
pub(crate) fn make_all(
    headers: &Headers,
    rows: &[VirtualRow],
    numbers: &[u32],
    arena: &mut ArenaWords,
    made: &mut Vec<Word>,
)
    requires rows { All (λ k. k < length rows.now) numbers.now }
    requires room { bytes_of_all (map row_extent (rows_at rows.now numbers.now)) + arena.old.taken ≤ 8 * length arena.old.words }
    requires empty { made.old.items ≡ [] }
    requires space { length numbers.now ≤ vec_capacity made.old }
    ensures made { made.new.items ≡ addresses_from (first_new arena.old) (map row_extent (rows_at rows.now numbers.now)) }
    ensures arena { arena.new ≡ made_with (header_in headers.now) (map row_extent (rows_at rows.now numbers.now)) arena.old }
    ensures taken { arena.new.taken ≡ arena.old.taken + bytes_of_all (map row_extent (rows_at rows.now numbers.now)) }
    ensures size { length arena.new.words ≡ length arena.old.words }
{
    for k in numbers {
        push_next(arena, made);
        make_one(headers, &rows[*k as usize], arena);
    }
}

// Writes a word where one lies.
fn put(arena: &mut ArenaWords, at: u64, word: Word)
    requires { is_some (arena_word arena.old at) ≡ true }
    ensures { arena.new ≡ with_arena_word at word arena.old }
{
    let _written = arena.write(at, word);
}

// Writes a word at an address inside.
fn put_inside(arena: &mut ArenaWords, at: u64, word: Word)
    requires whole { at % 8 ≡ 0 }
    requires low { 0x1000_0000 ≤ at }
    requires high { at + 8 ≤ 0x1000_0000 + 8 * length arena.old.words }
    ensures arena { arena.new ≡ with_arena_word at word arena.old }
    ensures taken { arena.new.taken ≡ arena.old.taken }
    ensures size { length arena.new.words ≡ length arena.old.words }
{
    put(arena, at, word);
}

// Writes the words of parts one behind the other.
fn fill_one(read: &Read, numbers: &[u32], at: u64, arena: &mut ArenaWords)
    requires noted { AreNoted read.now.places.now read.now.noted.now }
    requires whole { at % 8 ≡ 0 }
    requires low { 0x1000_0000 ≤ at }
    requires high { at + 8 * length numbers.now ≤ 0x1000_0000 + 8 * length arena.old.words }
    requires few { length arena.old.words ≤ 2 ^ 21 }
    ensures arena { arena.new ≡ arena_filled at (map (word_tagged (sources_read read.now) read.now.words.now) numbers.now) arena.old }
    ensures taken { arena.new.taken ≡ arena.old.taken }
    ensures size { length arena.new.words ≡ length arena.old.words }
{
    let mut a = at;
    for number in numbers {
        put_inside(arena, a, tag_word(read, *number));
        a += 8;
    }
}

// Fills the parts of one object, and answers the address behind it.
fn fill_row(read: &Read, row: &VirtualRow, at: u64, arena: &mut ArenaWords) -> u64
    requires noted { AreNoted read.now.places.now read.now.noted.now }
    requires whole { at % 8 ≡ 0 }
    requires low { 0x1000_0000 ≤ at }
    requires high { at + 8 * words_of_extent (row_extent row.now) ≤ 0x1000_0000 + 8 * length arena.old.words }
    requires few { length arena.old.words ≤ 2 ^ 21 }
    ensures next { result ≡ at + 8 * words_of_extent (row_extent row.now) }
    ensures arena { arena.new ≡ arena_filled (at + part_offset row.now.of 0) (map (word_tagged (sources_read read.now) read.now.words.now) row.now.parts) arena.old }
    ensures size { length arena.new.words ≡ length arena.old.words }
{
    let parts = row.parts.items();
    let first = at + 8 * words_ahead(row.of);
    fill_one(read, parts, first, arena);
    first + 8 * parts.len() as u64
}

/// Fills the parts of all objects, the first of which is at an address.
pub(crate) fn fill_all(
    read: &Read,
    rows: &[VirtualRow],
    numbers: &[u32],
    at: u64,
    arena: &mut ArenaWords,
)
    requires noted { AreNoted read.now.places.now read.now.noted.now }
    requires rows { All (λ k. k < length rows.now) numbers.now }
    requires whole { at % 8 ≡ 0 }
    requires low { 0x1000_0000 ≤ at }
    requires high { at + bytes_of_all (map row_extent (rows_at rows.now numbers.now)) ≤ 0x1000_0000 + 8 * length arena.old.words }
    requires few { length arena.old.words ≤ 2 ^ 21 }
    ensures arena { arena.new ≡ all_filled at (map (row_filled (sources_read read.now) read.now.words.now) (rows_at rows.now numbers.now)) arena.old }
    ensures size { length arena.new.words ≡ length arena.old.words }
{
    let mut a = at;
    for k in numbers {
        a = fill_row(read, &rows[*k as usize], a, arena);
    }
}
