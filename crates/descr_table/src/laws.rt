//! What a line that is read says, and which line decides.

ghost use Rattle.std.specs.Prelude.{◌≡◌, ℕ, List, Some, Err};
ghost use Rattle.text_lines.specs.Lines.{lines};
ghost use Rattle.lists.specs.Refused.{IsFirstBad};
ghost use Rattle.descr_table.specs.declared.form.Form.{Form};
ghost use Rattle.descr_table.specs.declared.fault.TableFault.{TableFault};
ghost use Rattle.descr_table.specs.Form.{form_at};
ghost use Rattle.descr_table.specs.Spelling.{Spells, IsForm};
ghost use Rattle.descr_table.specs.Meaning.{nothing};
ghost use Rattle.descr_table.specs.Initials.{TablesHaveWords};
ghost use Rattle.descr_table.specs.Laws.{TablesAreInRange, TablesAreReadBack};
ghost use Rattle.descr_table.specs.Reading.{defined_in, read_line, table_at};

use text_lines::lines_are_spelled;

/// What a line is read as is spelled so, what is spelled so is read, and a refusal is that of the first bad line: the lines in front of it are read.
pub fn table_laws()
    ensures read { (ws : List (List ℕ)) (f : Form) → form_at ws ≡ Some f → Spells ws f × IsForm f }
    ensures spelled { (ws : List (List ℕ)) (f : Form) → Spells ws f → IsForm f → form_at ws ≡ Some f }
    ensures first_bad { (first : ℕ) (text : List ℕ) (e : TableFault) → table_at first text ≡ Err e → IsFirstBad (read_line (defined_in text)) (lines text) first nothing e }
{}

/// A table that some text stands for is in range, and its own text is read back to it.
pub fn tables_are_read_back()
    ensures in_range { TablesAreInRange }
    ensures read_back { TablesAreReadBack }
{
    lines_are_spelled();
}

/// The integers of the prebuilt objects of a table that lines stand for are words.
pub fn tables_have_words()
    ensures { TablesHaveWords }
{
    lines_are_spelled();
}
