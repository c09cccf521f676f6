//! Laws of well-formed sets.
ghost use Rattle.std.specs.Prelude.{◌≡◌, ℕ};
ghost use Rattle.trace_ops.specs.declared.trace.TraceSet.{TraceSet};
ghost use Rattle.trace_ops.specs.WellFormed.{IsWellFormed};
ghost use Rattle.trace_check.specs.Faults.{IsLeastFault};

/// What the check says of a set: where a rule fails the set isn't well formed, and the least trace,
/// operation and rule are determined.
pub fn check_laws()
    ensures refused { (set : TraceSet) (i k r : ℕ) → IsLeastFault set i k r → IsWellFormed set → ⊥ }
    ensures one { (set : TraceSet) (i k r j h q : ℕ) → IsLeastFault set i k r → IsLeastFault set j h q → (i ≡ j) × (k ≡ h) × (r ≡ q) }
{}
