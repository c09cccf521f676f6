//! Short texts that are copied like numbers.
ghost use Rattle.std.specs.Prelude.{◌≡◌, ◌≤◌, length, ◌==◌};
ghost use Rattle.std.specs.Str.{bytes_eq};
ghost use Rattle.std.specs.Prelude.{ℕ, nat_eq};
ghost use Rattle.std.specs.Cmp.{on_equiv, on_per, partial_equiv_from_equiv};
ghost use Rattle.std.specs.Cmp.Lexicographic.{pointwise, nat_list_eq_equiv};
ghost use Rattle.std.specs.Cmp.Rules.{hashing};
ghost use Rattle.std.specs.Hash as fed;
ghost use Rattle.std.proofs.Common.{rules};

use std::hash::{Hash, Hasher};
use std::marker::Model;

/// At most 64 bytes, kept in place.
#[derive(Clone, Copy, Debug)]
pub struct Text {
    cells: [u8; 64],
    len: usize,
}

impl Model for Text {
    ghost use Rattle.std.specs.Prelude.{◌≡◌, ◌-◌, ◌≤◌, ◌++◌, ℕ, List, length, take, replicate};
    ghost use Rattle.std.proofs.Common.{arith, sym, length-take-le};

    ghost Value = { List ℕ };

    ghost view = { λ t. take t.len t.cells };

    ghost invariant = { λ t. (t.len ≤ 64) × (length t.cells ≡ 64) × (t.cells ≡ take t.len t.cells ++ replicate (64 - t.len) 0) };

    ghost inverse = { λ v. record { cells = v ++ replicate (64 - length v) 0; len = length v } };

    ghost inverse_ok = { λ t h. Prim.rw (length-take-le t.len t.cells (Prim.omega (arith, h.0, h.1))) (λ i. record { cells = sym h.2 i; len = t.len }) };
}

impl Text {
    /// The text with these bytes.
    pub fn new(bytes: &[u8]) -> Text
        requires { length bytes.now ≤ 64 }
        ensures { result ≡ bytes.now }
    {
        let mut cells = [0u8; 64];
        cells[..bytes.len()].copy_from_slice(bytes);
        Text {
            cells,
            len: bytes.len(),
        }
    }

    /// Its bytes, of which there are at most 64.
    pub fn bytes(&self) -> &[u8]
        ensures value { result.now ≡ self.now }
        ensures len { length self.now ≤ 64 }
    {
        &self.cells[..self.len]
    }

    /// Whether the text is these bytes.
    pub fn is(&self, bytes: &[u8]) -> bool
        ensures { result ≡ bytes_eq self.now bytes.now }
    {
        self.bytes() == bytes
    }
}

impl PartialEq for Text {
    ghost eq = { λ s t. pointwise nat_eq s t };

    ghost laws = { partial_equiv_from_equiv nat_list_eq_equiv };

    fn eq(&self, other: &Self) -> bool {
        self.bytes() == other.bytes()
    }
}

impl Eq for Text {
    ghost laws = { nat_list_eq_equiv };
}

impl Hash for Text {
    ghost hash_input = { λ s. fed.slice fed.u8 s };

    ghost respects_eq = { Prim.search (hashing, rules) };

    fn hash<H: Hasher>(&self, state: &mut H) {
        self.bytes().hash(state);
    }
}
