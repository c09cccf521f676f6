//! What is answered.
ghost use Rattle.std.specs.Prelude.{◌≡◌, ℕ, List};
ghost use Rattle.tj_app.specs.declared.refusal.Fault.{Fault};
ghost use Rattle.tj_app.specs.declared.words.Command.{Command};
ghost use Rattle.tj_app.specs.Top.{IsAnswerable, IsRefusedBy};

use trace_check::check_laws;

/// An input that is right, and for which nothing that isn't built is needed, is refused for want of memory alone.
pub fn right_inputs_are_answered()
    ensures { (command : Command) (input : List ℕ) (why : Fault) → IsAnswerable command input → IsRefusedBy command input why → why ≡ Fault.Memory }
{
    check_laws();
}
