//! Distinct names, found fast.

ghost use Rattle.std.specs.Prelude.{◌≡◌, ◌<◌, [], length, IfSome, OnOk, OnErr};
ghost use Rattle.text_lines.specs.Names.{has_name, number_of, with_name};

use indexmap::IndexSet;
use std::alloc::{AllocError, Global};
use std::marker::Model;
use trace_ops::Text;

/// Distinct names in the order in which they were added.
#[derive(Drop)]
pub struct Names {
    kept: IndexSet<Text>,
}

impl Model for Names {
    ghost use Rattle.std.specs.Prelude.{ℕ, List};

    ghost Value = { List (List ℕ) };

    ghost view = { λ n. n.kept.keys };
}

impl Names {
    /// No names.
    pub fn new(alloc: Global) -> Names
        ensures { result ≡ [] }
    {
        Names {
            kept: IndexSet::new(alloc),
        }
    }

    /// The number of a name, counted from 0 in the order of adding.
    pub fn number(&self, name: &Text) -> Option<usize>
        ensures value { result ≡ number_of name.now self.now }
        ensures within { IfSome result (λ n. n < length self.now) }
    {
        self.kept.get_index_of(name)
    }

    /// Whether the name is there.
    pub fn has(&self, name: &Text) -> bool
        ensures { result ≡ has_name name.now self.now }
    {
        self.kept.contains(name)
    }

    /// Adds a name at the end, unless it is there.
    pub fn add(&mut self, name: Text) -> Result<(), AllocError>
        ensures ok { OnOk result (self.new ≡ with_name name self.old) }
        ensures err { OnErr result (self.new ≡ self.old) }
    {
        self.kept.insert(name)?;
        Ok(())
    }
}
