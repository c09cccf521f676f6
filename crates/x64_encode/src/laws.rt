// What holds of spellings and listings. A caller calls a law for its clause.
#![tactic(auto)]

ghost use Rattle.std.specs.Prelude.{◌≡◌, ◌≤◌, ◌+◌, ◌++◌, ℕ, List, length, map};
ghost use Rattle.x64_encode.specs.declared.instr.Instr.{Instr};
ghost use Rattle.x64_encode.specs.Form.{InstrForm, spelling};
ghost use Rattle.x64_encode.specs.Listing.{Stands, Leads, Listing, IsWhole};

/// No spelling begins another, and each stands for one instruction.
pub fn one_instruction()
    ensures { (i j : Instr) (a b x y : List ℕ) → InstrForm i a → InstrForm j b → a ++ x ≡ b ++ y → (i ≡ j) × (a ≡ b) }
{}

/// A spelling has from one to sixteen bytes.
pub fn spellings_are_short()
    ensures most { (i : Instr) → length (spelling i) ≤ 16 }
    ensures least { (i : Instr) → 1 ≤ length (spelling i) }
{}

/// A code has at most one listing.
pub fn one_listing()
    ensures { (code a b : List ℕ) → Listing code a → Listing code b → a ≡ b }
{}

/// Bytes that are appended change nothing at the places that decoding reaches before.
pub fn appending_keeps_places()
    ensures stands { (code more : List ℕ) (place : ℕ) (i : Instr) → Stands code place i → Stands (code ++ more) place i }
    ensures leads { (code more places : List ℕ) (from to : ℕ) → Leads code from places to → Leads (code ++ more) from places to }
{}

/// Behind a whole code the listing of what is appended follows, and what is whole stays whole.
pub fn appending_to_whole()
    ensures listing { (code more a b : List ℕ) → IsWhole code → Listing code a → Listing more b → Listing (code ++ more) (a ++ map (λ place. length code + place) b) }
    ensures whole { (code more : List ℕ) → IsWhole code → IsWhole more → IsWhole (code ++ more) }
{}
