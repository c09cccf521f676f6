//! What names stand for, what lines are read as, and which line decides.

ghost use Rattle.std.specs.Prelude.{◌≡◌, ℕ, List, Some, Err, map};
ghost use Rattle.text_lines.specs.Lines.{lines};
ghost use Rattle.lists.specs.Refused.{IsFirstBad};
ghost use Rattle.trace_ops.specs.declared.trace.TraceSet.{TraceSet};
ghost use Rattle.session_text.specs.declared.fault.SessionFault.{SessionFault};
ghost use Rattle.session_text.specs.declared.form.Form.{Form};
ghost use Rattle.session_text.specs.Form.{form_at};
ghost use Rattle.session_text.specs.Spelling.{SpellsLine, IsSame};
ghost use Rattle.session_text.specs.Names.{Names, look, first_from, loop_name, bridge_name, names_of};
ghost use Rattle.session_text.specs.Reading.{nothing, read_line, session_at};

/// A name stands for the first loop, bridge, prebuilt object, size or field that has it.
pub fn name_laws()
    ensures loops { (set : TraceSet) (name : List ℕ) → look name (names_of set).loops ≡ first_from 0 name (map loop_name set.traces) }
    ensures bridges { (set : TraceSet) (name : List ℕ) → look name (names_of set).bridges ≡ first_from 0 name (map bridge_name set.traces) }
    ensures prebuilts { (set : TraceSet) (name : List ℕ) → look name (names_of set).prebuilts ≡ first_from 0 name (map (λ r. Some r.name) set.table.prebuilts) }
    ensures sizes { (set : TraceSet) (name : List ℕ) → look name (names_of set).sizes ≡ first_from 0 name (map (λ r. Some r.name) set.table.sizes) }
    ensures fields { (set : TraceSet) (name : List ℕ) → look name (names_of set).fields ≡ first_from 0 name (map (λ r. Some r.name) set.table.fields) }
{}

/// What a line is read as is spelled so, what is spelled so is read, and a refusal is that of the first bad line: the lines in front of it are read.
pub fn session_laws()
    ensures read { (names : Names) (ws : List (List ℕ)) (f : Form) → form_at names ws ≡ Some f → SpellsLine names ws f }
    ensures spelled { (names : Names) (ws : List (List ℕ)) (f : Form) → SpellsLine names ws f → (g : Form) × (form_at names ws ≡ Some g) × IsSame f g }
    ensures first_bad { (set : TraceSet) (first : ℕ) (text : List ℕ) (e : SessionFault) → session_at set first text ≡ Err e → IsFirstBad (read_line (names_of set) set) (lines text) first nothing e }
{}
