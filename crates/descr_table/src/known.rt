//! The names of a table's rows, found fast.

ghost use Rattle.std.specs.Prelude.{◌≡◌, [], IfOk, map};
ghost use Rattle.descr_table.specs.Known.{is_named, is_class, is_class_if, repeats};

use crate::form::Part;
use std::alloc::{AllocError, Global};
use text_lines::Names;
use trace_ops::Text;

/// The names of the rows of each kind, in row order.
#[derive(Drop)]
pub struct Known {
    pub sizes: Names,
    pub vtables: Names,
    pub fields: Names,
    pub arrays: Names,
    pub calls: Names,
    pub functions: Names,
    pub prebuilts: Names,
}

impl Known {
    /// No names.
    pub fn new(alloc: Global) -> Known
        ensures { result ≡ record { sizes = []; vtables = []; fields = []; arrays = []; calls = []; functions = []; prebuilts = [] } }
    {
        Known {
            sizes: Names::new(alloc),
            vtables: Names::new(alloc),
            fields: Names::new(alloc),
            arrays: Names::new(alloc),
            calls: Names::new(alloc),
            functions: Names::new(alloc),
            prebuilts: Names::new(alloc),
        }
    }

    /// Whether a size, field, array or call descr has this name.
    pub fn is_named(&self, name: &Text) -> bool
        ensures { result ≡ is_named name.now self.now }
    {
        (self.sizes.has(name) || self.fields.has(name))
            || (self.arrays.has(name) || self.calls.has(name))
    }

    /// Whether a vtable or a function has this name.
    pub fn is_class(&self, name: &Text) -> bool
        ensures { result ≡ is_class name.now self.now }
    {
        self.vtables.has(name) || self.functions.has(name)
    }

    /// The same of a name that may be missing.
    pub fn is_class_if(&self, name: &Option<Text>) -> bool
        ensures { result ≡ is_class_if name.now self.now }
    {
        match name {
            None => false,
            Some(name) => self.is_class(name),
        }
    }
}

/// Whether a field is named twice.
#[tactic(auto, unfolding(crate::specs::Known::repeats))]
pub fn repeats(alloc: Global, parts: &[Part]) -> Result<bool, AllocError>
    ensures { IfOk result (λ b. b ≡ repeats [] (map (λ p. p.name) parts.now)) }
{
    let mut seen = Names::new(alloc);
    for part in parts {
        if seen.has(&part.name) {
            return Ok(true);
        }
        seen.add(part.name)?;
    }
    Ok(false)
}
