//! What a line adds that is not refused.

ghost use Rattle.std.specs.Prelude.{◌≡◌, ◌≤◌, ◌<◌, ◌^◌, ◌-◌, ◌+◌, ◌*◌, ◌++◌, ◌∷◌, [], map, length, OnOk, IfOk, slice_get};
ghost use Rattle.text_lines.specs.Names.{with_name};
ghost use Rattle.descr_table.specs.Meaning.{place, with_field, given_for, initial_of, default_of, initial_or, field_initial, fields_of, put_at, form_bytes};
ghost use Rattle.descr_table.specs.Draft.{table_of, with_name_if, noted, Puts, HasRoom};

use crate::draft::Draft;
use crate::form::{Form, Given, Part};
use crate::known::Known;
use std::alloc::{AllocError, Global};
use text_lines::Names;
use trace_ops::{
    ArrayRow, CallRow, FieldRow, Initial, Kind, List, PrebuiltRow, ShapeOf, SizeRow, Text,
};

fn add_field(sizes: &mut [SizeRow], at: usize, number: u32) -> Result<(), AllocError>
    ensures { OnOk result (sizes.new ≡ with_field at number sizes.old) }
{
    if at >= sizes.len() {
        return Ok(());
    }
    let row = &mut sizes[at];
    row.fields.push(number)
}

fn place(name: &Text, names: &Names) -> u32
    requires { length names.now < 2 ^ 32 }
    ensures { result ≡ place name.now names.now }
{
    match names.number(name) {
        None => 0,
        Some(n) => n as u32,
    }
}

fn places(alloc: Global, list: &List<Text>, names: &Names) -> Result<List<u32>, AllocError>
    requires { length names.now < 2 ^ 32 }
    ensures { IfOk result (λ v. v ≡ map (λ n. place n names.now) list.now) }
{
    let mut out = Vec::new(alloc);
    for name in list.items() {
        out.push(place(name, names))?;
    }
    Ok(List::of(out))
}

fn given_for(name: &Text, parts: &[Part]) -> Option<Given>
    ensures { result ≡ given_for name.now parts.now }
{
    for part in parts {
        if part.name.is(name.bytes()) {
            return Some(part.value);
        }
    }
    None
}

fn initial_of(defined: &Names, value: &Given) -> Initial
    requires { length defined.now < 2 ^ 32 }
    ensures { result ≡ initial_of defined.now value.now }
{
    match value {
        Given::Int(z) => Initial::Int(*z),
        Given::Null => Initial::Null,
        Given::Name(name) => Initial::Ptr(place(name, defined)),
    }
}

fn default_of(kind: Kind) -> Initial
    ensures { result ≡ default_of kind }
{
    match kind {
        Kind::Int => Initial::Int(0),
        Kind::Ref => Initial::Null,
    }
}

fn initial_or(defined: &Names, kind: Kind, value: Option<Given>) -> Initial
    requires { length defined.now < 2 ^ 32 }
    ensures { result ≡ initial_or defined.now kind value }
{
    match value {
        None => default_of(kind),
        Some(value) => initial_of(defined, &value),
    }
}

fn field_initial(defined: &Names, parts: &[Part], row: Option<FieldRow>) -> Initial
    requires { length defined.now < 2 ^ 32 }
    ensures { result ≡ field_initial defined.now parts.now row }
{
    match row {
        None => Initial::Null,
        Some(row) => initial_or(defined, row.kind, given_for(&row.name, parts)),
    }
}

fn initials(
    alloc: Global,
    items: &List<Given>,
    defined: &Names,
) -> Result<List<Initial>, AllocError>
    requires { length defined.now < 2 ^ 32 }
    ensures { IfOk result (λ v. v ≡ map (λ g. initial_of defined.now g) items.now) }
{
    let mut out = Vec::new(alloc);
    for item in items.items() {
        out.push(initial_of(defined, item))?;
    }
    Ok(List::of(out))
}

fn initial_at(defined: &Names, parts: &[Part], fields: &[FieldRow], j: u32) -> Initial
    requires { length defined.now < 2 ^ 32 }
    ensures { result ≡ field_initial defined.now parts.now (slice_get fields.now j) }
{
    field_initial(defined, parts, fields.get(j as usize).copied())
}

fn field_initials(
    alloc: Global,
    numbers: &[u32],
    fields: &[FieldRow],
    parts: &[Part],
    defined: &Names,
) -> Result<List<Initial>, AllocError>
    requires { length defined.now < 2 ^ 32 }
    ensures { IfOk result (λ v. v ≡ map (λ j. field_initial defined.now parts.now (slice_get fields.now j)) numbers.now) }
{
    let mut out = Vec::new(alloc);
    for j in numbers {
        out.push(initial_at(defined, parts, fields, *j))?;
    }
    Ok(List::of(out))
}

impl Known {
    fn note_vtable(&mut self, vtable: &Option<Text>) -> Result<(), AllocError>
        ensures { OnOk result (self.new ≡ record self.old { vtables = with_name_if vtable.now self.old.vtables }) }
    {
        match vtable {
            None => Ok(()),
            Some(name) => self.vtables.add(*name),
        }
    }

    fn note_size(&mut self, name: &Text, vtable: &Option<Text>) -> Result<(), AllocError>
        ensures { OnOk result (self.new ≡ record self.old { sizes = with_name name.now self.old.sizes; vtables = with_name_if vtable.now self.old.vtables }) }
    {
        self.sizes.add(*name)?;
        self.note_vtable(vtable)
    }
}

impl Draft {
    #[tactic(auto, unfolding(crate::specs::Meaning::put_at, crate::specs::Meaning::form_bytes, crate::specs::Draft::noted))]
    fn put_size(&mut self, name: &Text, vtable: &Option<Text>) -> Result<(), AllocError>
        requires { HasRoom self.old (2 ^ 32 - 2) }
        ensures { (defined : _) → OnOk result (Puts (Form.Size name.now vtable.now) defined self.old self.new) }
    {
        self.shapes.push(ShapeOf::Size(self.sizes.len() as u32))?;
        self.sizes.push(SizeRow {
            name: *name,
            vtable: *vtable,
            fields: List::of(Vec::new(self.alloc)),
        })?;
        self.known.note_size(name, vtable)
    }

    #[tactic(auto, unfolding(crate::specs::Meaning::put_at, crate::specs::Meaning::form_bytes, crate::specs::Draft::noted))]
    fn put_field(
        &mut self,
        name: &Text,
        size: &Text,
        kind: Kind,
        immutable: bool,
    ) -> Result<(), AllocError>
        requires { HasRoom self.old (2 ^ 32 - 2) }
        ensures { (defined : _) → OnOk result (Puts (Form.Field name.now size.now kind immutable) defined self.old self.new) }
    {
        let at = place(size, &self.known.sizes);
        let number = self.fields.len() as u32;
        add_field(&mut self.sizes, at as usize, number)?;
        self.fields.push(FieldRow {
            name: *name,
            size: at,
            kind,
            immutable,
        })?;
        self.known.fields.add(*name)
    }

    #[tactic(auto, unfolding(crate::specs::Meaning::put_at, crate::specs::Meaning::form_bytes, crate::specs::Draft::noted))]
    fn put_array(&mut self, name: &Text, kind: Kind) -> Result<(), AllocError>
        requires { HasRoom self.old (2 ^ 32 - 2) }
        ensures { (defined : _) → OnOk result (Puts (Form.Array name.now kind) defined self.old self.new) }
    {
        self.shapes.push(ShapeOf::Array(self.arrays.len() as u32))?;
        self.arrays.push(ArrayRow { name: *name, kind })?;
        self.known.arrays.add(*name)
    }

    #[tactic(auto, unfolding(crate::specs::Meaning::put_at, crate::specs::Meaning::form_bytes, crate::specs::Draft::noted))]
    fn put_call(
        &mut self,
        name: &Text,
        args: &List<Kind>,
        gives: Option<Kind>,
        reads: &List<Text>,
        writes: &List<Text>,
    ) -> Result<(), AllocError>
        requires { HasRoom self.old (2 ^ 32 - 2) }
        ensures { (defined : _) → OnOk result (Puts (Form.Call name.now args.now gives reads.now writes.now) defined self.old self.new) }
    {
        let row = CallRow {
            name: *name,
            args: args.copy()?,
            result: gives,
            reads: places(self.alloc, reads, &self.known.fields)?,
            writes: places(self.alloc, writes, &self.known.fields)?,
        };
        self.calls.push(row)?;
        self.known.calls.add(*name)
    }

    #[tactic(auto, unfolding(crate::specs::Meaning::put_at, crate::specs::Meaning::form_bytes, crate::specs::Draft::noted))]
    fn put_function(&mut self, name: &Text) -> Result<(), AllocError>
        ensures { (defined : _) → OnOk result (Puts (Form.Function name.now) defined self.old self.new) }
    {
        self.functions.push(*name)?;
        self.known.functions.add(*name)
    }

    fn fields_of(&self, size: &Text) -> &[u32]
        ensures { result.now ≡ fields_of size.now self.now.known (table_of self.now) }
    {
        match self.sizes.get(self.place_of_size(size)) {
            None => &[],
            Some(row) => row.fields.items(),
        }
    }

    fn object_parts(
        &self,
        size: &Text,
        parts: &List<Part>,
        defined: &Names,
    ) -> Result<List<Initial>, AllocError>
        requires { length defined.now < 2 ^ 32 }
        ensures { IfOk result (λ v. v ≡ map (λ j. field_initial defined.now parts.now (slice_get self.now.fields.items j)) (fields_of size.now self.now.known (table_of self.now))) }
    {
        let numbers = self.fields_of(size);
        field_initials(self.alloc, numbers, &self.fields, parts.items(), defined)
    }

    fn object_bytes(&self, size: &Text) -> u64
        requires { 8 + 8 * length (fields_of size.now self.now.known (table_of self.now)) ≤ 32768 }
        ensures { result ≡ 8 + 8 * length (fields_of size.now self.now.known (table_of self.now)) }
    {
        8 + 8 * self.fields_of(size).len() as u64
    }

    fn put_row(&mut self, row: PrebuiltRow, name: &Text, more: u64) -> Result<(), AllocError>
        requires { self.old.bytes + more ≤ 32768 }
        ensures table { OnOk result (table_of self.new ≡ record (table_of self.old) { prebuilts = self.old.prebuilts.items ++ row ∷ [] }) }
        ensures known { OnOk result (self.new.known ≡ record self.old.known { prebuilts = with_name name.now self.old.known.prebuilts }) }
        ensures bytes { OnOk result (self.new.bytes ≡ self.old.bytes + more) }
    {
        self.prebuilts.push(row)?;
        self.known.prebuilts.add(*name)?;
        self.bytes += more;
        Ok(())
    }

    #[tactic(auto, unfolding(crate::specs::Meaning::put_at, crate::specs::Meaning::form_bytes, crate::specs::Draft::noted))]
    fn put_object(
        &mut self,
        name: &Text,
        size: &Text,
        fields: &List<Part>,
        defined: &Names,
    ) -> Result<(), AllocError>
        requires room { HasRoom self.old (2 ^ 32 - 2) }
        requires small { length defined.now < 2 ^ 32 }
        requires fits { self.old.bytes + (8 + 8 * length (fields_of size.now self.old.known (table_of self.old))) ≤ 32768 }
        ensures { OnOk result (Puts (Form.Object name.now size.now fields.now) defined.now self.old self.new) }
    {
        let more = self.object_bytes(size);
        let row = PrebuiltRow {
            name: *name,
            of: ShapeOf::Size(place(size, &self.known.sizes)),
            parts: self.object_parts(size, fields, defined)?,
        };
        self.put_row(row, name, more)?;
        Ok(())
    }

    #[tactic(auto, unfolding(crate::specs::Meaning::put_at, crate::specs::Meaning::form_bytes, crate::specs::Draft::noted))]
    fn put_items(
        &mut self,
        name: &Text,
        array: &Text,
        items: &List<Given>,
        defined: &Names,
    ) -> Result<(), AllocError>
        requires room { HasRoom self.old (2 ^ 32 - 2) }
        requires small { length defined.now < 2 ^ 32 }
        requires fits { self.old.bytes + (16 + 8 * length items.now) ≤ 32768 }
        ensures { OnOk result (Puts (Form.Items name.now array.now items.now) defined.now self.old self.new) }
    {
        let more = 16 + 8 * items.items().len() as u64;
        let row = PrebuiltRow {
            name: *name,
            of: ShapeOf::Array(place(array, &self.known.arrays)),
            parts: initials(self.alloc, items, defined)?,
        };
        self.put_row(row, name, more)?;
        Ok(())
    }

    /// Adds what a line says that is not refused.
    pub fn put(&mut self, form: &Form, defined: &Names) -> Result<(), AllocError>
        requires room { HasRoom self.old (2 ^ 32 - 2) }
        requires small { length defined.now < 2 ^ 32 }
        requires fits { self.old.bytes + form_bytes form.now self.old.known (table_of self.old) ≤ 32768 }
        ensures { OnOk result (Puts form.now defined.now self.old self.new) }
    {
        match form {
            Form::Size { name, vtable } => self.put_size(name, vtable),
            Form::Field {
                name,
                size,
                kind,
                immutable,
            } => self.put_field(name, size, *kind, *immutable),
            Form::Array { name, kind } => self.put_array(name, *kind),
            Form::Call {
                name,
                args,
                result: gives,
                reads,
                writes,
            } => self.put_call(name, args, *gives, reads, writes),
            Form::Function { name } => self.put_function(name),
            Form::Object { name, size, fields } => self.put_object(name, size, fields, defined),
            Form::Items { name, array, items } => self.put_items(name, array, items, defined),
        }
    }
}
