//! What refuses a line that has a form.

ghost use Rattle.std.specs.Prelude.{◌≡◌, ◌≤◌, ◌+◌, ◌*◌, ◌||◌, not, [], map, IfOk, ◌<◌, ◌^◌, length};
ghost use Rattle.std.specs.List.{list_any};
ghost use Rattle.text_lines.specs.Names.{has_name, number_of};
ghost use Rattle.descr_table.specs.Known.{repeats};
ghost use Rattle.descr_table.specs.Meaning.{is_misplaced, is_twice, is_undefined, is_unknown, is_of, is_bad_field, is_bad_part, is_bad_item, is_bad_initial, full, over, over_bytes, or_else, fields_of, limit_at, refusal_at, row_at, place};
ghost use Rattle.descr_table.specs.Draft.{table_of};

use crate::draft::Draft;
use crate::fault::Refusal;
use crate::form::{Form, Given, Part};
use crate::known::repeats;
use std::alloc::AllocError;
use text_lines::Names;
use trace_ops::{ArrayRow, FieldRow, Kind, List, Text, What};

fn is_undefined(defined: &Names, value: &Given) -> bool
    ensures { result ≡ is_undefined defined.now value.now }
{
    match value {
        Given::Int(_) => false,
        Given::Null => false,
        Given::Name(name) => !defined.has(name),
    }
}

fn is_of(value: &Given, kind: Kind) -> bool
    ensures { result ≡ is_of value.now kind }
{
    match (value, kind) {
        (Given::Int(_), Kind::Int) => true,
        (Given::Int(_), Kind::Ref) => false,
        (Given::Null, Kind::Int) => false,
        (Given::Null, Kind::Ref) => true,
        (Given::Name(_), Kind::Int) => false,
        (Given::Name(_), Kind::Ref) => true,
    }
}

fn is_bad_field(size: usize, value: &Given, row: Option<FieldRow>) -> bool
    ensures { result ≡ is_bad_field size value.now row }
{
    match row {
        None => true,
        Some(row) => !(row.size as usize == size) || !is_of(value, row.kind),
    }
}

fn is_bad_item(row: &Option<ArrayRow>, value: &Given) -> bool
    ensures { result ≡ is_bad_item row.now value.now }
{
    match row {
        None => true,
        Some(row) => !is_of(value, row.kind),
    }
}

fn full(what: What, limit: usize, n: usize) -> Option<Refusal>
    requires { limit < 2 ^ 32 }
    ensures { result ≡ full what limit n }
{
    if n < limit {
        return None;
    }
    Some(Refusal::Limit {
        what,
        count: limit as u64 + 1,
    })
}

fn over(what: What, limit: usize, n: usize) -> Option<Refusal>
    requires { limit < 2 ^ 32 }
    ensures { result ≡ over what limit n }
{
    if n <= limit {
        return None;
    }
    Some(Refusal::Limit {
        what,
        count: limit as u64 + 1,
    })
}

fn over_bytes(n: u64) -> Option<Refusal>
    ensures { result ≡ over_bytes n }
{
    if n <= 32768 {
        return None;
    }
    Some(Refusal::Limit {
        what: What::Prebuilt,
        count: n,
    })
}

// The sum of bytes with an object of so many words, if memory could hold it.
fn bytes_with(bytes: u64, head: u64, words: usize) -> Result<u64, AllocError>
    requires { (bytes ≤ 32768) × (head ≤ 16) }
    ensures { IfOk result (λ n. n ≡ bytes + (head + 8 * words)) }
{
    if words > 1 << 60 {
        return Err(AllocError);
    }
    Ok(bytes + (head + 8 * words as u64))
}

fn lacks_object(defined: &Names, parts: &List<Part>) -> bool
    ensures { result ≡ list_any (λ p. is_undefined defined.now p.value) parts.now }
{
    parts
        .items()
        .iter()
        .any(|p| is_undefined(defined, &p.value))
}

fn lacks_item(defined: &Names, items: &List<Given>) -> bool
    ensures { result ≡ list_any (λ v. is_undefined defined.now v) items.now }
{
    items.items().iter().any(|v| is_undefined(defined, v))
}

impl Draft {
    #[tactic(auto, unfolding(crate::specs::Meaning::is_misplaced))]
    fn is_misplaced(&self, form: &Form) -> bool
        ensures { result ≡ is_misplaced form.now (table_of self.now) }
    {
        match form {
            Form::Size { .. } => false,
            Form::Field { .. } => !(self.prebuilts.len() == 0),
            Form::Array { .. } => false,
            Form::Call { .. } => false,
            Form::Function { .. } => false,
            Form::Object { .. } => false,
            Form::Items { .. } => false,
        }
    }

    #[tactic(auto, unfolding(crate::specs::Meaning::is_twice))]
    fn is_twice(&self, form: &Form) -> Result<bool, AllocError>
        ensures { IfOk result (λ b. b ≡ is_twice form.now self.now.known) }
    {
        match form {
            Form::Size { name, vtable } => {
                Ok(self.known.is_named(name) || self.known.is_class_if(vtable))
            }
            Form::Field { name, .. } => Ok(self.known.is_named(name)),
            Form::Array { name, .. } => Ok(self.known.is_named(name)),
            Form::Call { name, .. } => Ok(self.known.is_named(name)),
            Form::Function { name } => Ok(self.known.is_class(name)),
            Form::Object { name, fields, .. } => self.is_twice_object(name, fields),
            Form::Items { name, .. } => Ok(self.known.prebuilts.has(name)),
        }
    }

    fn is_twice_object(&self, name: &Text, fields: &List<Part>) -> Result<bool, AllocError>
        ensures { IfOk result (λ b. b ≡ (has_name name.now self.now.known.prebuilts || repeats [] (map (λ p. p.name) fields.now))) }
    {
        if self.known.prebuilts.has(name) {
            return Ok(true);
        }
        repeats(self.alloc, fields.items())
    }

    fn is_bad_part(&self, size: usize, part: &Part) -> bool
        ensures { result ≡ is_bad_part self.now.known (table_of self.now) size part.now }
    {
        is_bad_field(size, &part.value, self.field_named(&part.name))
    }

    fn field_named(&self, name: &Text) -> Option<FieldRow>
        ensures { result ≡ row_at self.now.fields.items (number_of name.now self.now.known.fields) }
    {
        match self.known.fields.number(name) {
            None => None,
            Some(n) => self.fields.get(n).copied(),
        }
    }

    fn array_named(&self, name: &Text) -> Option<ArrayRow>
        ensures { result ≡ row_at self.now.arrays.items (number_of name.now self.now.known.arrays) }
    {
        match self.known.arrays.number(name) {
            None => None,
            Some(n) => self.arrays.get(n).copied(),
        }
    }

    fn lacks_field(&self, names: &List<Text>) -> bool
        ensures { result ≡ list_any (λ n. not (has_name n self.now.known.fields)) names.now }
    {
        names.items().iter().any(|n| !self.known.fields.has(n))
    }

    fn lacks_part(&self, parts: &List<Part>) -> bool
        ensures { result ≡ list_any (λ p. not (has_name p.name self.now.known.fields)) parts.now }
    {
        parts
            .items()
            .iter()
            .any(|p| !self.known.fields.has(&p.name))
    }

    #[tactic(auto, unfolding(crate::specs::Meaning::is_unknown))]
    fn is_unknown(&self, form: &Form, defined: &Names) -> bool
        ensures { result ≡ is_unknown form.now self.now.known defined.now }
    {
        match form {
            Form::Size { .. } => false,
            Form::Field { size, .. } => !self.known.sizes.has(size),
            Form::Array { .. } => false,
            Form::Call { reads, writes, .. } => self.lacks_field(reads) || self.lacks_field(writes),
            Form::Function { .. } => false,
            Form::Object { size, fields, .. } => {
                (!self.known.sizes.has(size) || self.lacks_part(fields))
                    || lacks_object(defined, fields)
            }
            Form::Items { array, items, .. } => {
                !self.known.arrays.has(array) || lacks_item(defined, items)
            }
        }
    }

    pub fn place_of_size(&self, size: &Text) -> usize
        ensures { result ≡ place size.now self.now.known.sizes }
    {
        self.known.sizes.number(size).unwrap_or(0)
    }

    fn has_bad_part(&self, size: &Text, parts: &List<Part>) -> bool
        ensures { result ≡ list_any (λ p. is_bad_part self.now.known (table_of self.now) (place size.now self.now.known.sizes) p) parts.now }
    {
        let size = self.place_of_size(size);
        parts.items().iter().any(|p| self.is_bad_part(size, p))
    }

    fn has_bad_item(&self, array: &Text, items: &List<Given>) -> bool
        ensures { result ≡ list_any (λ v. is_bad_item (row_at self.now.arrays.items (number_of array.now self.now.known.arrays)) v) items.now }
    {
        let row = self.array_named(array);
        items.items().iter().any(|v| is_bad_item(&row, v))
    }

    #[tactic(auto, unfolding(crate::specs::Meaning::is_bad_initial))]
    fn is_bad_initial(&self, form: &Form) -> bool
        ensures { result ≡ is_bad_initial form.now self.now.known (table_of self.now) }
    {
        match form {
            Form::Size { .. } => false,
            Form::Field { .. } => false,
            Form::Array { .. } => false,
            Form::Call { .. } => false,
            Form::Function { .. } => false,
            Form::Object { size, fields, .. } => self.has_bad_part(size, fields),
            Form::Items { array, items, .. } => self.has_bad_item(array, items),
        }
    }

    fn field_count(&self, size: &Text) -> usize
        ensures { result ≡ length (fields_of size.now self.now.known (table_of self.now)) }
    {
        match self.sizes.get(self.place_of_size(size)) {
            None => 0,
            Some(row) => row.fields.items().len(),
        }
    }

    fn call_limit(
        &self,
        args: &List<Kind>,
        reads: &List<Text>,
        writes: &List<Text>,
    ) -> Option<Refusal>
        ensures { result ≡ or_else (full What.Calls 1024 (length self.now.calls.items)) (or_else (over What.Arguments 6 (length args.now)) (or_else (over What.Reads 16 (length reads.now)) (over What.Writes 16 (length writes.now)))) }
    {
        if let Some(why) = full(What::Calls, 1024, self.calls.len()) {
            return Some(why);
        }
        if let Some(why) = over(What::Arguments, 6, args.items().len()) {
            return Some(why);
        }
        if let Some(why) = over(What::Reads, 16, reads.items().len()) {
            return Some(why);
        }
        over(What::Writes, 16, writes.items().len())
    }

    fn bytes_limit(&self, head: u64, words: usize) -> Result<Option<Refusal>, AllocError>
        requires { (self.now.bytes ≤ 32768) × (head ≤ 16) }
        ensures { IfOk result (λ o. o ≡ over_bytes (self.now.bytes + (head + 8 * words))) }
    {
        Ok(over_bytes(bytes_with(self.bytes, head, words)?))
    }

    #[tactic(auto, unfolding(crate::specs::Meaning::limit_at))]
    fn limit(&self, form: &Form) -> Result<Option<Refusal>, AllocError>
        requires { self.now.bytes ≤ 32768 }
        ensures { IfOk result (λ o. o ≡ limit_at form.now self.now.known (table_of self.now) self.now.bytes) }
    {
        match form {
            Form::Size { .. } => Ok(full(What::Shapes, 1024, self.shapes.len())),
            Form::Field { size, .. } => Ok(full(What::Fields, 64, self.field_count(size))),
            Form::Array { .. } => Ok(full(What::Shapes, 1024, self.shapes.len())),
            Form::Call {
                args,
                reads,
                writes,
                ..
            } => Ok(self.call_limit(args, reads, writes)),
            Form::Function { .. } => Ok(full(What::Functions, 1024, self.functions.len())),
            Form::Object { size, .. } => self.bytes_limit(8, self.field_count(size)),
            Form::Items { items, .. } => self.bytes_limit(16, items.items().len()),
        }
    }

    /// The first refusal of a line over the earlier ones.
    #[tactic(auto, unfolding(crate::specs::Meaning::refusal_at))]
    pub fn refusal(&self, form: &Form, defined: &Names) -> Result<Option<Refusal>, AllocError>
        requires { self.now.bytes ≤ 32768 }
        ensures { IfOk result (λ o. o ≡ refusal_at form.now self.now.known defined.now (table_of self.now) self.now.bytes) }
    {
        if self.is_misplaced(form) {
            return Ok(Some(Refusal::Syntax));
        }
        if self.is_twice(form)? {
            return Ok(Some(Refusal::Twice));
        }
        if self.is_unknown(form, defined) {
            return Ok(Some(Refusal::UnknownName));
        }
        if self.is_bad_initial(form) {
            return Ok(Some(Refusal::BadInitial));
        }
        self.limit(form)
    }
}
