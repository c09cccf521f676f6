//! Descriptions of structures, arrays, calls, functions and prebuilt objects, as text and as a table.
#![tactic(auto)]

mod checks;
mod draft;
mod fault;
mod form;
mod known;
mod laws;
mod line;
mod names;
mod puts;
mod reading;
mod values;
mod words;
mod writing;

pub use fault::{Refusal, TableFault};
pub use form::{Form, Given, Part};
pub use laws::{table_laws, tables_are_read_back, tables_have_words};
pub use names::{
    array_name, call_name, field_name, fields_of, function_name, prebuilt_name, size_name,
    vtable_name,
};
pub use reading::read_table;
pub use writing::write_table;
