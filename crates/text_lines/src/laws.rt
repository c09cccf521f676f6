//! What is written is read back.

ghost use Rattle.std.specs.Prelude.{◌≡◌, ◌==◌, ◌⊎◌, ◌++◌, ◌∷◌, [], ℕ, ℤ, List, Some, true, not, filter};
ghost use Rattle.std.specs.Fmt.{signed_decimal};
ghost use Rattle.std.specs.List.{AllByRecursion, flat_map};
ghost use Rattle.std.specs.Int.{w64};
ghost use Rattle.std.specs.Int.RustNames.{FitsSigned};
ghost use Rattle.text_lines.specs.Cut.{joined, HasNoFeed, IsToken};
ghost use Rattle.text_lines.specs.Laws.{LinesAreFew, LinesAreSpelled};
ghost use Rattle.text_lines.specs.Lines.{lines};
ghost use Rattle.text_lines.specs.Numbers.{integer_of};
ghost use Rattle.text_lines.specs.Words.{is_name, is_plain, words};
ghost use Rattle.text_lines.specs.Written.{IsWord, spaced};

/// The lines of a text, each with its line feed, are the text, but for a line feed that its last line may lack; no
/// line has one. The words of a line are its bytes but for the spaces, and each is a mark or bytes of a word.
/// An integer that is read is a word of 64 bits, and one that is written is read back. Words that are written
/// with single spaces are the words of the line, which has no byte that may not stand there; a line that is
/// written is the line that is read. Names and integers are such words.
pub fn text_laws()
    ensures lines_joined { (text : List ℕ) → (joined (lines text) ≡ text) ⊎ (joined (lines text) ≡ text ++ 10 ∷ []) }
    ensures lines_without_feed { (text : List ℕ) → AllByRecursion HasNoFeed (lines text) }
    ensures words_keep { (line : List ℕ) → flat_map (λ w. w) (words line) ≡ filter (λ c. not (c == 32)) line }
    ensures words_are_tokens { (line : List ℕ) → AllByRecursion IsToken (words line) }
    ensures integer_fits { (word : List ℕ) (z : ℤ) → integer_of word ≡ Some z → FitsSigned w64 z }
    ensures integer_again { (z : ℤ) → FitsSigned w64 z → integer_of (signed_decimal z) ≡ Some z }
    ensures integer_is_word { (z : ℤ) → FitsSigned w64 z → IsWord (signed_decimal z) }
    ensures name_is_word { (name : List ℕ) → is_name name ≡ true → IsWord name }
    ensures words_again { (ws : List (List ℕ)) → AllByRecursion IsWord ws → words (spaced ws) ≡ ws }
    ensures plain { (ws : List (List ℕ)) → AllByRecursion IsWord ws → is_plain (spaced ws) ≡ true }
    ensures line_again { (line rest : List ℕ) → is_plain line ≡ true → lines (line ++ 10 ∷ rest) ≡ line ∷ lines rest }
{}

/// A text has at most as many lines as bytes.
pub fn lines_are_few()
    ensures { LinesAreFew }
{}

/// For a caller that reads: integers are words of 64 bits and decimal numbers keep their limit; for one that writes:
/// names and numbers are words, numbers are read back, and lines that are put together of pieces say their words.
pub fn lines_are_spelled()
    ensures { LinesAreSpelled }
{}
