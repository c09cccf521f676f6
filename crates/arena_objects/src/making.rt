// New objects at the end of what is taken of an arena.

ghost use Rattle.std.specs.Prelude.{◌≡◌, ◌↔◌, ℕ, ◌+◌, ◌*◌, ◌%◌, ◌-◌, ◌^◌, ◌≤◌, ◌<◌, length, min, is_some, true, IsErr, IfOk, IfErr, OnOk, OnErr};
ghost use Rattle.trace_ops.specs.declared.table.ShapeOf.TheVariants.{Size, Array};
ghost use Rattle.target_base.specs.Arena.{arena_word, with_arena_word};
ghost use Rattle.arena_objects.specs.Layout.{bytes_for};
ghost use Rattle.arena_objects.specs.Making.{bytes_left, arena_begun};

use crate::walk::words_ahead;
use target_base::ArenaWords;
use trace_ops::ShapeOf;

/// An object that isn't made: the bytes that are asked for, at most 2^64 - 1, are over those that are left.
#[derive(Clone, Copy, Debug, PartialEq, Eq)]
pub struct Full {
    pub asked: u64,
    pub left: u64,
}

/// The bytes of an object of so many parts, or 2^64 - 1 where they are more.
pub fn bytes_asked(shape: ShapeOf, parts: u64) -> u64
    ensures { result ≡ min (bytes_for shape parts) (2 ^ 64 - 1) }
{
    words_ahead(shape).saturating_add(parts).saturating_mul(8)
}

/// The bytes of an arena that aren't taken.
pub fn bytes_left(arena: &ArenaWords) -> u64
    ensures value { result ≡ bytes_left arena.now }
    ensures all { result + arena.now.taken ≡ 8 * length arena.now.words }
    ensures few { result ≤ 2 ^ 24 }
{
    arena.size() - arena.taken()
}

/// Makes an object of so many parts behind the others and answers its address, or is full exactly where the bytes that
/// are asked for are over those that are left. What lies there already are its parts.
pub fn allocate(
    arena: &mut ArenaWords,
    shape: ShapeOf,
    header: u32,
    parts: u64,
) -> Result<u64, Full>
    ensures full { IsErr result ↔ (bytes_left arena.old < bytes_for shape parts) }
    ensures asked { IfErr result (λ f. f ≡ record { asked = min (bytes_for shape parts) (2 ^ 64 - 1); left = bytes_left arena.old }) }
    ensures at { IfOk result (λ a. a ≡ 0x1000_0000 + arena.old.taken) }
    ensures ok { OnOk result (arena.new ≡ arena_begun shape header parts arena.old) }
    ensures err { OnErr result (arena.new ≡ arena.old) }
{
    let asked = bytes_asked(shape, parts);
    let left = bytes_left(arena);
    if left < asked {
        return Err(Full { asked, left });
    }
    Ok(begin(arena, shape, header, parts))
}

// Makes an object for which there is room.
fn begin(arena: &mut ArenaWords, shape: ShapeOf, header: u32, parts: u64) -> u64
    requires few { parts ≤ 2 ^ 21 }
    requires room { bytes_for shape parts + arena.old.taken ≤ 8 * length arena.old.words }
    ensures at { result ≡ 0x1000_0000 + arena.old.taken }
    ensures arena { arena.new ≡ arena_begun shape header parts arena.old }
{
    match shape {
        ShapeOf::Size(size) => begin_size(arena, size, header, parts),
        ShapeOf::Array(array) => begin_array(arena, array, header, parts),
    }
}

fn begin_size(arena: &mut ArenaWords, size: u32, header: u32, parts: u64) -> u64
    requires few { parts ≤ 2 ^ 21 }
    requires room { 8 * (1 + parts) + arena.old.taken ≤ 8 * length arena.old.words }
    ensures at { result ≡ 0x1000_0000 + arena.old.taken }
    ensures arena { arena.new ≡ arena_begun (Size size) header parts arena.old }
{
    let at = 0x1000_0000 + arena.taken();
    let _address = arena.take(8 * (1 + parts));
    put(arena, at, i64::from(header));
    at
}

fn begin_array(arena: &mut ArenaWords, array: u32, header: u32, parts: u64) -> u64
    requires few { parts ≤ 2 ^ 21 }
    requires room { 8 * (2 + parts) + arena.old.taken ≤ 8 * length arena.old.words }
    ensures at { result ≡ 0x1000_0000 + arena.old.taken }
    ensures arena { arena.new ≡ arena_begun (Array array) header parts arena.old }
{
    let first = 0x1000_0000 + arena.taken();
    let _address = arena.take(8 * (2 + parts));
    put(arena, first, i64::from(header));
    put(arena, first + 8, parts as i64);
    first
}

fn put(arena: &mut ArenaWords, at: u64, word: i64)
    requires { is_some (arena_word arena.old at) ≡ true }
    ensures { arena.new ≡ with_arena_word at word arena.old }
{
    let _written = arena.write(at, word);
}
