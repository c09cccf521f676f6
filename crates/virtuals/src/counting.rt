//! How many parts name each virtual object. The greatest count stands for all that are greater.

ghost use Rattle.std.specs.Prelude.{◌≡◌, ℕ, ◌+◌, ◌<◌, [], ◌∷◌, ◌++◌, Some, length, map, slice_index, IfOk, OnOk, OnErr};
ghost use Rattle.trace_ops.specs.declared.piece.Val.TheVariants.{Virtual};
ghost use Rattle.virtuals.specs.Order.{IsBelow, AreBelow};
ghost use Rattle.virtuals.specs.Namings.{namings_in, namings_of, IsAtLeast, Raises, Lowers, AreCounted, lowered_count, counts_without, counts_without_all, counts_without_shape};
ghost use Rattle.virtuals.specs.Shapes.{AreShapes};

use std::alloc::{AllocError, Global};
use trace_ops::{Shape, Val};

// The count of one more.
fn raised(count: u32) -> u32
    ensures { (n : ℕ) → IsAtLeast count n → IsAtLeast result (n + 1) }
{
    if count < u32::MAX { count + 1 } else { count }
}

// The count of one fewer.
fn lowered(count: u32) -> u32
    ensures least { (n : ℕ) → IsAtLeast count (n + 1) → IsAtLeast result n }
    ensures exactly { result ≡ lowered_count count }
{
    if 0 < count && count < u32::MAX {
        count - 1
    } else {
        count
    }
}

fn raise(counts: &mut Vec<u32>, id: u32)
    requires { id < length counts.old.items }
    ensures raises { Raises counts.old.items counts.new.items (Virtual id) }
    ensures len { length counts.new.items ≡ length counts.old.items }
{
    counts[id as usize] = raised(counts[id as usize]);
}

fn lower(counts: &mut Vec<u32>, id: u32)
    requires { id < length counts.old.items }
    ensures lowers { Lowers counts.old.items counts.new.items (Virtual id ∷ []) }
    ensures exactly { counts.new.items ≡ counts_without (Virtual id) counts.old.items }
    ensures len { length counts.new.items ≡ length counts.old.items }
{
    counts[id as usize] = lowered(counts[id as usize]);
}

/// There is one more such part.
pub fn more(counts: &mut Vec<u32>, part: Val)
    requires { IsBelow (length counts.old.items) part }
    ensures raises { Raises counts.old.items counts.new.items part }
    ensures len { length counts.new.items ≡ length counts.old.items }
{
    match part {
        Val::Known(_) => {}
        Val::Virtual(n) => raise(counts, n),
    }
}

/// There is one fewer such part.
pub fn fewer(counts: &mut Vec<u32>, part: Val)
    requires { IsBelow (length counts.old.items) part }
    ensures lowers { Lowers counts.old.items counts.new.items (part ∷ []) }
    ensures exactly { counts.new.items ≡ counts_without part counts.old.items }
    ensures len { length counts.new.items ≡ length counts.old.items }
{
    match part {
        Val::Known(_) => {}
        Val::Virtual(n) => lower(counts, n),
    }
}

// There are these parts more.
fn more_each(counts: &mut Vec<u32>, parts: &[Val])
    requires { AreBelow (length counts.old.items) parts.now }
    ensures raises { (m n : ℕ) → m < length counts.old.items → IsAtLeast (slice_index counts.old.items m) n
        → IsAtLeast (slice_index counts.new.items m) (n + namings_in m parts.now) }
    ensures len { length counts.new.items ≡ length counts.old.items }
{
    for part in parts {
        more(counts, *part);
    }
}

// There are these parts fewer.
fn fewer_each(counts: &mut Vec<u32>, parts: &[Val])
    requires { AreBelow (length counts.old.items) parts.now }
    ensures lowers { Lowers counts.old.items counts.new.items parts.now }
    ensures exactly { counts.new.items ≡ counts_without_all parts.now counts.old.items }
    ensures len { length counts.new.items ≡ length counts.old.items }
{
    for part in parts {
        fewer(counts, *part);
    }
}

/// The parts of the shape are gone.
pub fn without(counts: &mut Vec<u32>, shape: &Option<Shape>)
    requires { (s : _) → shape.now ≡ Some s → AreBelow (length counts.old.items) s.parts }
    ensures lowers { (m n : ℕ) → m < length counts.old.items → IsAtLeast (slice_index counts.old.items m) (n + namings_of m shape.now)
        → IsAtLeast (slice_index counts.new.items m) n }
    ensures exactly { counts.new.items ≡ counts_without_shape shape.now counts.old.items }
    ensures len { length counts.new.items ≡ length counts.old.items }
{
    match shape {
        None => {}
        Some(shape) => fewer_each(counts, shape.parts.items()),
    }
}

/// The counts of these shapes.
pub fn counted(alloc: Global, shapes: &[Shape]) -> Result<Vec<u32>, AllocError>
    requires { AreShapes shapes.now }
    ensures { IfOk result (λ counts. AreCounted (map Some shapes.now) counts.items) }
{
    let mut counts = Vec::from_elem(alloc, 0, shapes.len())?;
    for k in 0..shapes.len() {
        more_each(&mut counts, shapes[k].parts.items());
    }
    Ok(counts)
}

/// One more shape, which no part names. After an error the counts may have room for it.
pub fn add(
    shapes: &mut Vec<Option<Shape>>,
    counts: &mut Vec<u32>,
    shape: Shape,
) -> Result<(), AllocError>
    ensures shapes { OnOk result (shapes.new.items ≡ shapes.old.items ++ Some shape ∷ []) }
    ensures counts { OnOk result (counts.new.items ≡ counts.old.items ++ 0 ∷ []) }
    ensures same { OnErr result (shapes.new.items ≡ shapes.old.items) }
    ensures room { OnErr result (AreCounted shapes.old.items counts.old.items → AreCounted shapes.old.items counts.new.items) }
{
    counts.push(0)?;
    shapes.push(Some(shape))?;
    Ok(())
}
