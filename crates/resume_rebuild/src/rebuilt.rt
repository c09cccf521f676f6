//! What was rebuilt, and the room for it.

ghost use Rattle.std.specs.Prelude.{◌≡◌, ◌↔◌, ◌+◌, ◌-◌, ◌*◌, ◌%◌, ◌^◌, ◌<◌, ◌≤◌, [], map, reverse, length, min, All, IsErr, IfOk, IfErr, OnOk, OnErr};
ghost use Rattle.std.specs.Vec.{vec_capacity, vec_len};
ghost use Rattle.arena_objects.specs.Headers.{HaveHeaders};
ghost use Rattle.arena_objects.specs.Walk.{object_at as number_is};
ghost use Rattle.arena_objects.specs.Walked.{addresses_found, number_in};
ghost use Rattle.resume_numbering.specs.Standing.{HasLowerParents};
ghost use Rattle.resume_numbering.specs.declared.rows.FrameRow.{FrameRow as OneRow};
ghost use Rattle.resume_numbering.specs.declared.rows.ResumeTable.{ResumeTable as OneTable};
ghost use Rattle.resume_numbering.specs.Lawful.{IsLawful};
ghost use Rattle.resume_numbering.specs.Reading.{HasRow, place_of as row_place};
ghost use Rattle.resume_rebuild.specs.Firsts.{IsBelow};
ghost use Rattle.resume_rebuild.specs.Known.{RowsAreKnown, ShapesAreKnown};
ghost use Rattle.resume_rebuild.specs.Noted.{AreNoted};
ghost use Rattle.resume_rebuild.specs.Read.{sources_read};
ghost use Rattle.resume_rebuild.specs.Rebuilding.{bytes_of_all, first_new, made_all, addresses_from, filled_all, stored_all};
ghost use Rattle.resume_rebuild.specs.Reserved.{IsReserved, IsReservedFor, RebuildsRow};
ghost use Rattle.resume_rebuild.specs.Guarding.{RebuildsAt};
ghost use Rattle.resume_rebuild.specs.Room.{HasSpace};
ghost use Rattle.resume_rebuild.specs.Rows.{row_filled, row_stored, row_frame, rows_at, frames_from, extents_at, words_at, arena_at, frames_at};

use crate::firsts::{Before, const_words, find_firsts, reach_of};
use crate::framing::push_frames;
use crate::making::{bytes_of, fill_all, make_all};
use crate::places::note_places;
use crate::reserving::{boxes_of, deepest, larger, made_pool, most_virtuals, no_table, widest};
use crate::storing::store_all;
use crate::words::Read;
use arena_objects::{Full, Headers, Walked, bytes_left, object_at};
use resume_numbering::{GuardRow, ResumeTable};
use std::alloc::{AllocError, Global};
use std::marker::Model;
use target_base::{ArenaWords, Place};
use trace_meaning::{RecFrame, Value};
use trace_ops::{BoxId, Table, Word};

/// The frames that were rebuilt, the objects that were found, and room for the next rebuild.
#[derive(Drop)]
pub struct Rebuilt {
    alloc: Global,
    table: Table,
    headers: Headers,
    walked: Walked,
    frames: Vec<RecFrame>,
    room: Room,
}

// Room: places by box number, the first objects that constants name, words of constants and of new objects, and lists for
// slots, each of a width.
#[derive(Drop)]
struct Room {
    noted: Vec<usize>,
    most: usize,
    firsts: Vec<Word>,
    words: Vec<Word>,
    made: Vec<Word>,
    width: usize,
    pool: Vec<Vec<Value>>,
}

impl Model for Rebuilt {
    ghost use Rattle.std.specs.Prelude.{◌≡◌, ◌≤◌, ◌^◌, [], min, All};
    ghost use Rattle.std.specs.Vec.{vec_capacity, vec_len};
    ghost use Rattle.arena_objects.specs.Headers.{HaveHeaders};
    ghost use Rattle.resume_rebuild.specs.Room.{HasSpace};
    ghost use Rattle.resume_rebuild.specs.Reserved.{Holding};

    ghost Value = { Holding };

    ghost view = { λ r. record { table = r.table; frames = r.frames.items; found = r.walked.found; room = record { firsts = r.room.most; consts = vec_capacity r.room.words; virtuals = vec_capacity r.room.made; frames = vec_capacity r.frames; lists = vec_len r.room.pool; width = r.room.width } } };

    ghost invariant = { λ r. record { headers : HaveHeaders r.table r.headers; walk : 2 ^ 21 ≤ r.walked.room; no_firsts : r.room.firsts.items ≡ []; reach : min r.room.most (2 ^ 21) ≤ vec_capacity r.room.firsts; no_words : r.room.words.items ≡ []; no_made : r.room.made.items ≡ []; each : All (HasSpace r.room.width) r.room.pool.items } };
}

// Where a piece is left: by the row of a guard, with boxes at these places and in these frame words.
#[derive(Clone, Copy)]
struct Exit<'a> {
    table: &'a ResumeTable,
    row: &'a GuardRow,
    places: &'a [(BoxId, Place)],
    frame: &'a [Word],
}

// Makes the new objects, with the words of constants and of new objects.
fn make(t: &Table, headers: &Headers, exit: &Exit, arena: &mut ArenaWords, room: &mut Room)
    requires headers { HaveHeaders t.now headers.now }
    requires known { RowsAreKnown t.now (rows_at exit.now.table.now.virtuals exit.now.row.now.virtuals) }
    requires rows { All (λ k. k < length exit.now.table.now.virtuals) exit.now.row.now.virtuals }
    requires bytes { bytes_of_all (extents_at exit.now.table.now exit.now.row.now) + arena.old.taken ≤ 8 * length arena.old.words }
    requires below { All (IsBelow room.old.most) exit.now.table.now.consts }
    requires no_firsts { room.old.firsts.items ≡ [] }
    requires no_words { room.old.words.items ≡ [] }
    requires no_made { room.old.made.items ≡ [] }
    requires firsts { min room.old.most (2 ^ 21) ≤ vec_capacity room.old.firsts }
    requires consts { length exit.now.table.now.consts ≤ vec_capacity room.old.words }
    requires virtuals { length exit.now.row.now.virtuals ≤ vec_capacity room.old.made }
    ensures noted { AreNoted exit.now.places.now room.new.noted.items }
    ensures words { room.new.words.items ≡ words_at t.now exit.now.table.now exit.now.row.now exit.now.places.now exit.now.frame.now arena.old }
    ensures made { room.new.made.items ≡ addresses_from (first_new arena.old) (extents_at exit.now.table.now exit.now.row.now) }
    ensures arena { arena.new ≡ made_all t.now (extents_at exit.now.table.now exit.now.row.now) arena.old }
    ensures size { length arena.new.words ≡ length arena.old.words }
    ensures pool { room.new.pool ≡ room.old.pool }
    ensures width { room.new.width ≡ room.old.width }
    ensures most { room.new.most ≡ room.old.most }
    ensures reach { vec_capacity room.new.firsts ≡ vec_capacity room.old.firsts }
{
    note_places(exit.places, &mut room.noted);
    find_firsts(t, arena, room.most, &mut room.firsts);
    let before = Before {
        places: exit.places,
        noted: room.noted.as_slice(),
        frame: exit.frame,
        firsts: room.firsts.as_slice(),
    };
    const_words(&before, exit.table.consts.items(), &mut room.words);
    make_all(
        headers,
        exit.table.virtuals.items(),
        exit.row.virtuals.items(),
        arena,
        &mut room.made,
    );
}

// Fills the new objects, does the stores, finds all objects, and reads the frames.
fn finish(
    t: &Table,
    exit: &Exit,
    read: &Read,
    first: u64,
    arena: &mut ArenaWords,
    walked: &mut Walked,
    pool: &mut Vec<Vec<Value>>,
    frames: &mut Vec<RecFrame>,
)
    requires noted { AreNoted read.now.places.now read.now.noted.now }
    requires rows { All (λ k. k < length exit.now.table.now.virtuals) exit.now.row.now.virtuals }
    requires whole { first % 8 ≡ 0 }
    requires low { 0x1000_0000 ≤ first }
    requires high { first + bytes_of_all (extents_at exit.now.table.now exit.now.row.now) ≤ 0x1000_0000 + 8 * length arena.old.words }
    requires walk { 2 ^ 21 ≤ walked.old.room }
    requires lower { HasLowerParents exit.now.table.now.frames }
    requires innermost { exit.now.row.now.frame < length exit.now.table.now.frames }
    requires no_frames { frames.old.items ≡ [] }
    requires space { length (frames_from exit.now.table.now.frames exit.now.row.now.frame) ≤ vec_capacity frames.old }
    requires pool { length (frames_from exit.now.table.now.frames exit.now.row.now.frame) ≤ vec_len pool.old }
    requires wide { All (λ (r : OneRow). All (HasSpace (length r.slots)) pool.old.items) exit.now.table.now.frames }
    ensures arena { arena.new ≡ stored_all (map (row_stored t.now (sources_read read.now) read.now.words.now) exit.now.row.now.pending) (filled_all first (map (row_filled (sources_read read.now) read.now.words.now) (rows_at exit.now.table.now.virtuals exit.now.row.now.virtuals)) arena.old) }
    ensures found { walked.new.found ≡ addresses_found t.now arena.new }
    ensures walk { walked.new.room ≡ walked.old.room }
    ensures frames { frames.new.items ≡ reverse (map (row_frame walked.new.found (sources_read read.now) read.now.consts.now read.now.words.now) (frames_from exit.now.table.now.frames exit.now.row.now.frame)) }
{
    let _bound = arena.size();
    let rows = exit.table.virtuals.items();
    fill_all(read, rows, exit.row.virtuals.items(), first, arena);
    store_all(t, read, exit.row.pending.items(), arena);
    let _bound = arena.size();
    walked.walk(t, arena);
    let rows = exit.table.frames.items();
    push_frames(walked, read, rows, exit.row.frame, pool, frames);
}

// Empties what is only used inside of a rebuild.
fn clear(room: &mut Room)
    ensures firsts { room.new.firsts.items ≡ [] }
    ensures words { room.new.words.items ≡ [] }
    ensures made { room.new.made.items ≡ [] }
    ensures pool { room.new.pool.items ≡ [] }
    ensures most { room.new.most ≡ room.old.most }
    ensures reach { vec_capacity room.new.firsts ≡ vec_capacity room.old.firsts }
{
    room.firsts.clear();
    room.words.clear();
    room.made.clear();
    room.pool.clear();
}

// The place of the row of a guard.
fn place_of(rows: &[GuardRow], guard: u32) -> Option<usize>
    ensures { result ≡ row_place guard rows.now }
{
    rows.iter().position(|row| row.guard == guard)
}

impl Rebuilt {
    /// Nothing, and no room but for finding objects.
    pub fn new(alloc: Global) -> Result<Rebuilt, AllocError>
        ensures frames { IfOk result (λ r. r.frames ≡ []) }
        ensures shapes { IfOk result (λ r. r.table.shapes ≡ []) }
        ensures found { IfOk result (λ r. r.found ≡ []) }
    {
        let table = no_table(alloc);
        let headers = Headers::new(alloc, &table)?;
        let walked = Walked::new(alloc, 0x100_0000)?;
        Ok(Rebuilt {
            alloc,
            table,
            headers,
            walked,
            frames: Vec::new(alloc),
            room: Room {
                noted: Vec::new(alloc),
                most: 0,
                firsts: Vec::new(alloc),
                words: Vec::new(alloc),
                made: Vec::new(alloc),
                width: 0,
                pool: Vec::new(alloc),
            },
        })
    }

    /// Keeps what is to be known of the shapes of a table. For 2^32 shapes there are no header numbers: that is want of memory.
    pub fn adopt(&mut self, table: &Table) -> Result<(), AllocError>
        ensures ok { OnOk result (self.new ≡ record self.old { table = table.now }) }
        ensures few { OnOk result (length table.now.shapes < 2 ^ 32) }
        ensures err { OnErr result (self.new ≡ self.old) }
    {
        if table.shapes.items().len() >= 0x1_0000_0000 {
            return Err(AllocError);
        }
        let headers = Headers::new(self.alloc, table)?;
        let copy = table.copy()?;
        self.table = copy;
        self.headers = headers;
        Ok(())
    }

    /// Takes room for one rebuild by a table, and keeps that for other tables. What was rebuilt is let go.
    pub fn reserve(&mut self, table: &ResumeTable) -> Result<(), AllocError>
        requires { IsLawful table.now }
        ensures reserved { OnOk result (IsReserved table.now self.new) }
        ensures others { OnOk result ((other : OneTable) → IsReserved other self.old → IsReserved other self.new) }
        ensures table { self.new.table ≡ self.old.table }
        ensures found { self.new.found ≡ self.old.found }
        ensures err { OnErr result (self.new ≡ self.old) }
    {
        let alloc = self.alloc;
        let depth = deepest(table.frames.items(), table.guards.items());
        let count = larger(depth, self.room.pool.len());
        let width = larger(widest(table.frames.items()), self.room.width);
        let virtuals = larger(
            most_virtuals(table.guards.items()),
            self.room.made.capacity(),
        );
        let consts = larger(table.consts.items().len(), self.room.words.capacity());
        let most = larger(reach_of(table.consts.items()), self.room.most);
        let boxes = larger(boxes_of(table), self.room.noted.len());
        let frames = Vec::with_capacity(alloc, larger(depth, self.frames.capacity()))?;
        let room = Room {
            noted: vec![in alloc; 0usize; boxes]?,
            most,
            firsts: Vec::with_capacity(alloc, most.min(0x20_0000))?,
            words: Vec::with_capacity(alloc, consts)?,
            made: Vec::with_capacity(alloc, virtuals)?,
            width,
            pool: made_pool(alloc, count, width)?,
        };
        self.frames = frames;
        self.room = room;
        Ok(())
    }

    /// The frames that were rebuilt, outermost first.
    pub fn frames(&self) -> &[RecFrame]
        ensures { result.now ≡ self.now.frames }
    {
        self.frames.as_slice()
    }

    /// The number of the object of which a word is the address, by a walk over the arena.
    pub fn object_at(&self, arena: &ArenaWords, word: Word) -> Option<u32>
        ensures { result ≡ number_is self.now.table arena.now word }
    {
        object_at(&self.table, arena, word)
    }

    /// Finds the objects of an arena once, for look-ups by [`Rebuilt::number_of`]. It takes no memory.
    pub fn walk(&mut self, arena: &ArenaWords)
        ensures { self.new ≡ record self.old { found = addresses_found self.old.table arena.now } }
    {
        let _bound = arena.size();
        self.walked.walk(&self.table, arena);
    }

    /// The number of the object of which a word is the address, among those that were found last: by a walk, or at the end
    /// of a rebuild.
    pub fn number_of(&self, word: Word) -> Option<u32>
        ensures { result ≡ number_in word self.now.found }
    {
        self.walked.number_of(word)
    }

    // Rebuilds where there is room.
    fn rebuild_all(&mut self, exit: &Exit, arena: &mut ArenaWords)
        requires reserved { IsReservedFor exit.now.table.now exit.now.row.now self.old }
        requires known { RowsAreKnown self.old.table (rows_at exit.now.table.now.virtuals exit.now.row.now.virtuals) }
        requires rows { All (λ k. k < length exit.now.table.now.virtuals) exit.now.row.now.virtuals }
        requires bytes { bytes_of_all (extents_at exit.now.table.now exit.now.row.now) + arena.old.taken ≤ 8 * length arena.old.words }
        requires lower { HasLowerParents exit.now.table.now.frames }
        requires innermost { exit.now.row.now.frame < length exit.now.table.now.frames }
        ensures arena { arena.new ≡ arena_at self.old.table exit.now.table.now exit.now.row.now exit.now.places.now exit.now.frame.now arena.old }
        ensures frames { self.new.frames ≡ frames_at self.old.table exit.now.table.now exit.now.row.now exit.now.places.now exit.now.frame.now arena.old }
        ensures table { self.new.table ≡ self.old.table }
        ensures found { self.new.found ≡ addresses_found self.old.table arena.new }
    {
        let first = 0x1000_0000 + arena.taken();
        make(&self.table, &self.headers, exit, arena, &mut self.room);
        let read = Read {
            consts: exit.table.consts.items(),
            places: exit.places,
            noted: self.room.noted.as_slice(),
            frame: exit.frame,
            words: self.room.words.as_slice(),
            made: self.room.made.as_slice(),
        };
        finish(
            &self.table,
            exit,
            &read,
            first,
            arena,
            &mut self.walked,
            &mut self.room.pool,
            &mut self.frames,
        );
        clear(&mut self.room);
    }

    // Rebuilds what a row stands for.
    fn rebuild_row(&mut self, exit: &Exit, arena: &mut ArenaWords) -> Result<(), Full>
        requires reserved { IsReservedFor exit.now.table.now exit.now.row.now self.old }
        requires known { RowsAreKnown self.old.table (rows_at exit.now.table.now.virtuals exit.now.row.now.virtuals) }
        requires rows { All (λ k. k < length exit.now.table.now.virtuals) exit.now.row.now.virtuals }
        requires lower { HasLowerParents exit.now.table.now.frames }
        requires innermost { exit.now.row.now.frame < length exit.now.table.now.frames }
        ensures { RebuildsRow exit.now.table.now exit.now.row.now exit.now.places.now exit.now.frame.now arena.old arena.new self.old self.new result }
    {
        let asked = bytes_of(exit.table.virtuals.items(), exit.row.virtuals.items());
        let left = bytes_left(arena);
        if left < asked {
            return Err(Full { asked, left });
        }
        self.rebuild_all(exit, arena);
        Ok(())
    }
}

/// Rebuilds at a guard what the snapshot says for which the table stands there, and keeps the frames.
///
/// Where the new objects need more bytes than are left, nothing changes. It takes no memory.
pub fn rebuild(
    table: &ResumeTable,
    guard: u32,
    places: &[(BoxId, Place)],
    frame: &[Word],
    arena: &mut ArenaWords,
    out: &mut Rebuilt,
) -> Result<(), Full>
    requires lawful { IsLawful table.now }
    requires row { HasRow table.now guard }
    requires reserved { IsReserved table.now out.old }
    requires shapes { ShapesAreKnown out.old.table table.now guard }
    ensures { RebuildsAt table.now guard places.now frame.now arena.old arena.new out.old out.new result }
{
    let rows = table.guards.items();
    let Some(k) = place_of(rows, guard) else {
        unreachable!()
    };
    let exit = Exit {
        table,
        row: &rows[k],
        places,
        frame,
    };
    out.rebuild_row(&exit, arena)
}
