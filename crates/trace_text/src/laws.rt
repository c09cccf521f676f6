//! What lines are read as, and which line decides.

ghost use Rattle.std.specs.Prelude.{◌≡◌, ℕ, List, Some, Ok, Err, true};
ghost use Rattle.text_lines.specs.Lines.{lines};
ghost use Rattle.lists.specs.Refused.{IsFirstBad};
ghost use Rattle.trace_ops.specs.declared.trace.TraceSet.{TraceSet};
ghost use Rattle.trace_ops.specs.Constants.{HasWords};
ghost use Rattle.trace_ops.specs.InRange.{IsInRange};
ghost use Rattle.trace_text.specs.declared.heading.Heading.{Heading};
ghost use Rattle.trace_text.specs.declared.line.Line.{Line};
ghost use Rattle.trace_text.specs.declared.line.Slots.{Slots};
ghost use Rattle.trace_text.specs.declared.fault.TextFault.{TextFault};
ghost use Rattle.trace_text.specs.Names.{Names};
ghost use Rattle.trace_text.specs.Line.{op_at, inputs_at};
ghost use Rattle.trace_text.specs.Heading.{heading_at, is_merge};
ghost use Rattle.trace_text.specs.Merging.{SpellsMerge};
ghost use Rattle.trace_text.specs.Spelling.{Parts, parts_of, SpellsLine, SpellsSnapshot, SpellsHeading};
ghost use Rattle.trace_text.specs.Draft.{nothing, read_line, lines_at};
ghost use Rattle.trace_text.specs.Sections.{set_at, IsTableOfText};

use descr_table::{table_laws, tables_are_read_back, tables_have_words};
use text_lines::lines_are_spelled;

/// What the line of an operation or a label is read as is spelled so, and what is spelled so is read.
pub fn line_laws()
    ensures read { (names : Names) (ws : List (List ℕ)) (l : Line) → op_at names ws ≡ Some l → SpellsLine names ws (parts_of l) }
    ensures spelled { (names : Names) (ws : List (List ℕ)) (p : Parts) → SpellsLine names ws p → (l : Line) × (op_at names ws ≡ Some l) × (parts_of l ≡ p) }
{}

/// The same of the line of inputs, which is spelled as a snapshot, of merge points, and of headings.
pub fn opening_laws()
    ensures inputs_read { (names : Names) (ws : List (List ℕ)) (l : Line) → inputs_at names ws ≡ Some l → SpellsSnapshot names ws l.frames }
    ensures inputs_spelled { (names : Names) (ws : List (List ℕ)) (fs : List Slots) → SpellsSnapshot names ws fs → (l : Line) × (inputs_at names ws ≡ Some l) × (l.frames ≡ fs) }
    ensures merge_read { (ws : List (List ℕ)) → is_merge ws ≡ true → SpellsMerge ws }
    ensures merge_spelled { (ws : List (List ℕ)) → SpellsMerge ws → is_merge ws ≡ true }
    ensures heading_read { (ws : List (List ℕ)) (h : Heading) → heading_at ws ≡ Some h → SpellsHeading ws h }
    ensures heading_spelled { (ws : List (List ℕ)) (h : Heading) → SpellsHeading ws h → heading_at ws ≡ Some h }
{}

/// A text stands for at most one set. Its table is the one that lines of the text stand for, or empty, the set is in
/// range, and its constants are words. A refusal of the lines of traces is that of the first bad line: the lines in front of it are read.
pub fn text_laws()
    ensures one_set { (text : List ℕ) (a b : TraceSet × ℕ) → set_at text ≡ Ok a → set_at text ≡ Ok b → a ≡ b }
    ensures table { (text : List ℕ) (x : TraceSet × ℕ) → set_at text ≡ Ok x → IsTableOfText x.0.table }
    ensures in_range { (text : List ℕ) (x : TraceSet × ℕ) → set_at text ≡ Ok x → IsInRange x.0 }
    ensures words { (text : List ℕ) (x : TraceSet × ℕ) → set_at text ≡ Ok x → HasWords x.0 }
    ensures first_bad { (names : Names) (first : ℕ) (text : List ℕ) (e : TextFault) → lines_at names first text ≡ Err e → IsFirstBad (read_line names) (lines text) first nothing e }
{
    lines_are_spelled();
    table_laws();
    tables_are_read_back();
    tables_have_words();
}
