//! The pairs that are still to be planned. Places have numbers, and each pair reads its source where the word of that
//! place is now.
ghost use Rattle.std.specs.Prelude.{◌≡◌, ℕ, ◌+◌, ◌-◌, ◌<◌, ◌≤◌, [], ◌∷◌, length, map, replicate, slice_index, slice_set, IfOk, OnOk, IfSome, IfNone};
ghost use Rattle.std.specs.List.{AllByRecursion, IsDistinct};
ghost use Rattle.target_base.specs.declared.place.Place.{Place as OnePlace};
ghost use Rattle.parallel_move.specs.Moving.{same, is_target as is_target_of, is_source as is_source_of, exchanged_pair};
ghost use Rattle.parallel_move.specs.Resting.{name, named, pairs_of, IsBelow, CountTargets, CountSources};

use indexmap::IndexSet;
use std::alloc::{AllocError, Global};
use std::marker::Model;
use target_base::Place;

/// Places, each once, and the pairs of a target and a source that are left, by their numbers.
#[derive(Drop)]
pub struct Rest {
    names: IndexSet<Place>,
    // as they were at first, and the place of the first that is left
    pairs: Vec<(usize, usize)>,
    next: usize,
    // how many of those that are left have each target, and each source
    targets: Vec<usize>,
    sources: Vec<usize>,
    // where the word of each place is now, and whose word each place has
    at: Vec<usize>,
    holds: Vec<usize>,
}

impl Model for Rest {
    ghost use Rattle.std.specs.Prelude.{drop};
    ghost use Rattle.parallel_move.specs.Resting.{Numbered, located, IsRest};

    ghost Value = { Numbered };

    ghost view = { λ r. record { names = r.names.keys; pairs = located r.at.items (drop r.next r.pairs.items) } };

    ghost invariant = { λ r. IsRest r.names.keys (drop r.next r.pairs.items) r.targets.items r.sources.items r.at.items r.holds.items };
}

// The number of a place, which is the next where it has none.
fn number(names: &mut IndexSet<Place>, place: Place) -> Result<usize, AllocError>
    ensures more { OnOk result (length names.old.keys ≤ length names.new.keys) }
    ensures kept { OnOk result ((k : ℕ) → k < length names.old.keys → name names.new.keys k ≡ name names.old.keys k) }
    ensures below { IfOk result (λ k. k < length names.new.keys) }
    ensures is { IfOk result (λ k. name names.new.keys k ≡ place) }
    ensures once { OnOk result (IsDistinct same names.new.keys) }
{
    let found = names.insert_full(place)?;
    Ok(found.0)
}

// The pairs by number.
fn numbered(
    alloc: Global,
    names: &mut IndexSet<Place>,
    pairs: &[(Place, Place)],
) -> Result<Vec<(usize, usize)>, AllocError>
    requires { IsDistinct same names.old.keys }
    ensures named { IfOk result (λ out. map (named names.new.keys) out.items ≡ pairs.now) }
    ensures below { IfOk result (λ out. AllByRecursion (IsBelow (length names.new.keys)) out.items) }
    ensures once { OnOk result (IsDistinct same names.new.keys) }
{
    let mut out = Vec::with_capacity(alloc, pairs.len())?;
    for k in 0..pairs.len() {
        let target = number(names, pairs[k].0)?;
        let source = number(names, pairs[k].1)?;
        out.push((target, source))?;
    }
    Ok(out)
}

// The numbers up to a count.
fn numbers(alloc: Global, count: usize) -> Result<Vec<usize>, AllocError>
    ensures each { IfOk result (λ out. (k : ℕ) → k < count → slice_index out.items k ≡ k) }
    ensures len { IfOk result (λ out. length out.items ≡ count) }
{
    let mut out = Vec::with_capacity(alloc, count)?;
    for k in 0..count {
        out.push(k)?;
    }
    Ok(out)
}

// One more of a number, of which there are at most so many.
fn raise(counts: &mut Vec<usize>, k: usize, _most: usize)
    requires number { k < length counts.old.items }
    requires few { slice_index counts.old.items k < _most }
    ensures { counts.new.items ≡ slice_set counts.old.items k (slice_index counts.old.items k + 1) }
{
    counts[k] += 1;
}

// One fewer of a number.
fn lower(counts: &mut Vec<usize>, k: usize)
    requires number { k < length counts.old.items }
    requires some { 0 < slice_index counts.old.items k }
    ensures { counts.new.items ≡ slice_set counts.old.items k (slice_index counts.old.items k - 1) }
{
    counts[k] -= 1;
}

// How many pairs have each target.
fn count_targets(
    alloc: Global,
    pairs: &[(usize, usize)],
    count: usize,
) -> Result<Vec<usize>, AllocError>
    requires { AllByRecursion (IsBelow count) pairs.now }
    ensures counts { IfOk result (λ out. CountTargets out.items pairs.now) }
    ensures len { IfOk result (λ out. length out.items ≡ count) }
{
    let mut out = zeros(alloc, count)?;
    for k in 0..pairs.len() {
        raise(&mut out, pairs[k].0, pairs.len());
    }
    Ok(out)
}

// How many pairs have each source.
fn count_sources(
    alloc: Global,
    pairs: &[(usize, usize)],
    count: usize,
) -> Result<Vec<usize>, AllocError>
    requires { AllByRecursion (IsBelow count) pairs.now }
    ensures counts { IfOk result (λ out. CountSources out.items pairs.now) }
    ensures len { IfOk result (λ out. length out.items ≡ count) }
{
    let mut out = zeros(alloc, count)?;
    for k in 0..pairs.len() {
        raise(&mut out, pairs[k].1, pairs.len());
    }
    Ok(out)
}

fn zeros(alloc: Global, count: usize) -> Result<Vec<usize>, AllocError>
    ensures { IfOk result (λ out. out.items ≡ replicate count 0) }
{
    Vec::from_elem(alloc, 0, count)
}

// Exchanges two numbers of a list.
fn swap(list: &mut Vec<usize>, i: usize, j: usize)
    requires first { i < length list.old.items }
    requires second { j < length list.old.items }
    ensures { list.new.items ≡ slice_set (slice_set list.old.items i (slice_index list.old.items j)) j (slice_index list.old.items i) }
{
    let first = list[i];
    let second = list[j];
    list[i] = second;
    list[j] = first;
}

impl Rest {
    /// All of the pairs.
    pub fn new(alloc: Global, pairs: &[(Place, Place)]) -> Result<Rest, AllocError>
        ensures { IfOk result (λ rest. pairs_of rest ≡ pairs.now) }
    {
        let mut names = IndexSet::new(alloc);
        let pairs = numbered(alloc, &mut names, pairs)?;
        let count = names.len();
        let targets = count_targets(alloc, &pairs, count)?;
        let sources = count_sources(alloc, &pairs, count)?;
        let at = numbers(alloc, count)?;
        let holds = numbers(alloc, count)?;
        Ok(Rest {
            names,
            pairs,
            next: 0,
            targets,
            sources,
            at,
            holds,
        })
    }

    /// The place of a number.
    pub fn place(&self, k: usize) -> Place
        requires { k < length self.now.names }
        ensures { result ≡ name self.now.names k }
    {
        *self.names.get_index(k).unwrap()
    }

    /// Whether two numbers are of one place.
    pub fn are_one(&self, a: usize, b: usize) -> bool
        requires first { a < length self.now.names }
        requires second { b < length self.now.names }
        ensures { result ≡ same (name self.now.names a) (name self.now.names b) }
    {
        let _ = &self.names;
        a == b
    }

    /// Whether some pair has that target.
    pub fn is_target(&self, k: usize) -> bool
        requires { k < length self.now.names }
        ensures { result ≡ is_target_of (name self.now.names k) (pairs_of self.now) }
    {
        self.targets[k] > 0
    }

    /// Whether some pair has that source.
    pub fn is_source(&self, k: usize) -> bool
        requires { k < length self.now.names }
        ensures { result ≡ is_source_of (name self.now.names k) (pairs_of self.now) }
    {
        self.sources[self.holds[k]] > 0
    }

    /// The first pair, which is no longer left.
    pub fn take_next(&mut self) -> Option<(usize, usize)>
        ensures some { IfSome result (λ p. self.old.pairs ≡ p ∷ self.new.pairs) }
        ensures below { IfSome result (IsBelow (length self.new.names)) }
        ensures none { IfNone result (self.old.pairs ≡ []) }
        ensures names { self.new.names ≡ self.old.names }
    {
        if self.next >= self.pairs.len() {
            return None;
        }
        let (target, source) = self.pairs[self.next];
        self.next += 1;
        lower(&mut self.targets, target);
        lower(&mut self.sources, source);
        Some((target, self.at[source]))
    }

    /// The pairs read their sources where these are once two places have exchanged their words.
    pub fn exchange(&mut self, one: usize, other: usize)
        requires first { one < length self.old.names }
        requires second { other < length self.old.names }
        ensures exchanged { pairs_of self.new ≡ map (exchanged_pair (name self.old.names one) (name self.old.names other)) (pairs_of self.old) }
        ensures names { self.new.names ≡ self.old.names }
        ensures len { length self.new.pairs ≡ length self.old.pairs }
    {
        let first = self.holds[one];
        let second = self.holds[other];
        swap(&mut self.holds, one, other);
        swap(&mut self.at, first, second);
    }
}
