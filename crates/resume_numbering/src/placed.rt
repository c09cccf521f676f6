//! The rows of a guard, read without taking memory.

ghost use Rattle.std.specs.Prelude.{◌≡◌, IfSome, IfNone};
ghost use Rattle.resume_numbering.specs.Boxes.{kind_among, kind_or_integer};
ghost use Rattle.resume_numbering.specs.Placed.{boxes_among, or_null as or_none, placed_box as box_placed, placed_value};
ghost use Rattle.resume_numbering.specs.Reading.{IsRowOf, HasRow};

use crate::reading::{place_of, small_integer};
use crate::rows::{GuardRow, ResumeTable};
use target_base::Place;
use trace_ops::{Arg, BoxId, Kind, Val};

/// The row of a guard, if it has one.
pub fn row_of<'a>(table: &'a ResumeTable, guard: u32) -> Option<&'a GuardRow>
    ensures some { IfSome result (λ row. IsRowOf table.now guard row.now) }
    ensures none { IfNone result (HasRow table.now guard → ⊥) }
{
    let rows = table.guards.items();
    match place_of(rows, guard) {
        None => None,
        Some(k) => Some(&rows[k]),
    }
}

// The kind of the first box with this number; a number that no box has is read as an integer's.
fn kind_at(places: &[(BoxId, Place)], number: u32) -> Kind
    ensures { result ≡ kind_or_integer (kind_among (boxes_among places.now) number) }
{
    for place in places {
        if place.0.number == number {
            return place.0.kind;
        }
    }
    Kind::Int
}

fn placed_box(places: &[(BoxId, Place)], number: u32) -> BoxId
    ensures { result ≡ box_placed (boxes_among places.now) number }
{
    BoxId {
        kind: kind_at(places, number),
        number,
    }
}

// A constant, or null.
fn or_null(arg: Option<Arg>) -> Arg
    ensures { result ≡ or_none arg }
{
    match arg {
        None => Arg::Null,
        Some(arg) => arg,
    }
}

/// The value of a tagged number of a row, a box being of the kind of the first of these boxes that has its number.
pub fn value_of(table: &ResumeTable, places: &[(BoxId, Place)], number: u32) -> Val
    ensures { result ≡ placed_value table.now.consts (boxes_among places.now) number }
{
    let index = number / 4;
    let tag = number % 4;
    if tag == 0 {
        Val::Known(Arg::Of(placed_box(places, index)))
    } else if tag == 1 {
        Val::Known(Arg::Const(small_integer(index)))
    } else if tag == 2 {
        Val::Known(or_null(table.consts.items().get(index as usize).copied()))
    } else {
        Val::Virtual(index)
    }
}
