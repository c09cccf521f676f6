//! Frames, from rows of slots.

ghost use Rattle.std.specs.Prelude.{◌≡◌, ◌≤◌, ◌<◌, ◌+◌, [], ◌∷◌, ◌++◌, map, length, reverse, All, Some};
ghost use Rattle.std.specs.Vec.{vec_capacity, vec_len};
ghost use Rattle.resume_numbering.specs.Standing.{HasLowerParents};
ghost use Rattle.resume_numbering.specs.declared.rows.FrameRow.{FrameRow as OneRow};
ghost use Rattle.resume_rebuild.specs.Noted.{AreNoted};
ghost use Rattle.resume_rebuild.specs.Read.{sources_read};
ghost use Rattle.resume_rebuild.specs.Rows.{tag_value as value_tagged, row_frame, frames_from};
ghost use Rattle.resume_rebuild.specs.Room.{HasSpace};

use crate::words::{Read, tag_value};
use arena_objects::Walked;
use resume_numbering::FrameRow;
use trace_meaning::{RecFrame, Value};
use trace_ops::List;

fn push_slots(walked: &Walked, read: &Read, numbers: &[u32], slots: &mut Vec<Value>)
    requires noted { AreNoted read.now.places.now read.now.noted.now }
    requires empty { slots.old.items ≡ [] }
    requires room { length numbers.now ≤ vec_capacity slots.old }
    ensures items { slots.new.items ≡ map (value_tagged walked.now.found (sources_read read.now) read.now.consts.now read.now.words.now) numbers.now }
{
    for number in numbers {
        slots.push_reserved(tag_value(walked, read, *number));
    }
}

fn push_frame(
    walked: &Walked,
    read: &Read,
    row: &FrameRow,
    slots: Vec<Value>,
    frames: &mut Vec<RecFrame>,
)
    requires noted { AreNoted read.now.places.now read.now.noted.now }
    requires empty { slots.items ≡ [] }
    requires room { length row.now.slots ≤ vec_capacity slots }
    requires space { vec_len frames.old < vec_capacity frames.old }
    ensures items { frames.new.items ≡ frames.old.items ++ row_frame walked.now.found (sources_read read.now) read.now.consts.now read.now.words.now row.now ∷ [] }
    ensures len { vec_len frames.new ≡ vec_len frames.old + 1 }
    ensures capacity { vec_capacity frames.new ≡ vec_capacity frames.old }
{
    let mut slots = slots;
    push_slots(walked, read, row.slots.items(), &mut slots);
    frames.push_reserved(RecFrame {
        name: row.name,
        pc: row.pc,
        slots: List::of(slots),
    });
}

/// The frames from a row on by parents, outermost first. Each takes one list of the pool.
pub(crate) fn push_frames(
    walked: &Walked,
    read: &Read,
    rows: &[FrameRow],
    first: u32,
    pool: &mut Vec<Vec<Value>>,
    frames: &mut Vec<RecFrame>,
)
    requires lower { HasLowerParents rows.now }
    requires first { first < length rows.now }
    requires noted { AreNoted read.now.places.now read.now.noted.now }
    requires empty { frames.old.items ≡ [] }
    requires space { length (frames_from rows.now first) ≤ vec_capacity frames.old }
    requires pool { length (frames_from rows.now first) ≤ vec_len pool.old }
    requires wide { All (λ (row : OneRow). All (HasSpace (length row.slots)) pool.old.items) rows.now }
    ensures { frames.new.items ≡ reverse (map (row_frame walked.now.found (sources_read read.now) read.now.consts.now read.now.words.now) (frames_from rows.now first)) }
{
    let mut at = Some(first);
    while let Some(k) = at {
        let row = &rows[k as usize];
        let Some(slots) = pool.pop() else {
            unreachable!()
        };
        push_frame(walked, read, row, slots, frames);
        at = row.parent;
    }
    frames.reverse();
}
