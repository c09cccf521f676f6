//! The names of rows by their numbers; nothing for what isn't there.
ghost use Rattle.std.specs.Prelude.{◌≡◌};
ghost use Rattle.descr_table.specs.Names.{size_name, field_name, array_name, prebuilt_name, vtable_name, call_name, function_name, fields_of};

use trace_ops::Table;

/// The name of a size; nothing where there is none, as below.
pub fn size_name(table: &Table, k: u32) -> &[u8]
    ensures { result.now ≡ size_name table.now k }
{
    match table.sizes.items().get(k as usize) {
        None => &[],
        Some(row) => row.name.bytes(),
    }
}

/// The name of a field.
pub fn field_name(table: &Table, k: u32) -> &[u8]
    ensures { result.now ≡ field_name table.now k }
{
    match table.fields.items().get(k as usize) {
        None => &[],
        Some(row) => row.name.bytes(),
    }
}

/// The name of an array.
pub fn array_name(table: &Table, k: u32) -> &[u8]
    ensures { result.now ≡ array_name table.now k }
{
    match table.arrays.items().get(k as usize) {
        None => &[],
        Some(row) => row.name.bytes(),
    }
}

/// The name of a prebuilt object.
pub fn prebuilt_name(table: &Table, k: u32) -> &[u8]
    ensures { result.now ≡ prebuilt_name table.now k }
{
    match table.prebuilts.items().get(k as usize) {
        None => &[],
        Some(row) => row.name.bytes(),
    }
}

/// The name of a size's vtable.
pub fn vtable_name(table: &Table, k: u32) -> &[u8]
    ensures { result.now ≡ vtable_name table.now k }
{
    match table.sizes.items().get(k as usize) {
        None => &[],
        Some(row) => match &row.vtable {
            None => &[],
            Some(name) => name.bytes(),
        },
    }
}

/// The name of a call descr.
pub fn call_name(table: &Table, k: u32) -> &[u8]
    ensures { result.now ≡ call_name table.now k }
{
    match table.calls.items().get(k as usize) {
        None => &[],
        Some(row) => row.name.bytes(),
    }
}

/// The name of a function.
pub fn function_name(table: &Table, k: u32) -> &[u8]
    ensures { result.now ≡ function_name table.now k }
{
    match table.functions.items().get(k as usize) {
        None => &[],
        Some(name) => name.bytes(),
    }
}

/// The fields of a size, in order.
pub fn fields_of(table: &Table, k: u32) -> &[u32]
    ensures { result.now ≡ fields_of table.now k }
{
    match table.sizes.items().get(k as usize) {
        None => &[],
        Some(row) => row.fields.items(),
    }
}
