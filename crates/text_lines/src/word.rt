//! The words of a line.

ghost use Rattle.std.specs.Prelude.{◌≡◌, ◌<◌, ◌≤◌, [], ◌∷◌, length, MatchOption, IfSome, IsTrue, not, ◌==◌, position};
ghost use Rattle.std.specs.List.{list_all};
ghost use Rattle.text_lines.specs.Words.{words, is_mark, is_word_byte, is_letter, is_name_byte, begins_name, is_name, is_plain, after_spaces, word_len};

#[tactic(auto, unfolding(crate::specs::Words::is_mark))]
fn is_mark(c: u8) -> bool
    ensures { result ≡ is_mark c }
{
    c == b'('
        || c == b')'
        || c == b','
        || c == b';'
        || c == b'='
        || c == b'['
        || c == b']'
        || c == b'{'
        || c == b'}'
}

#[tactic(auto, unfolding(crate::specs::Words::is_word_byte))]
fn is_word_byte(c: u8) -> bool
    ensures { result ≡ is_word_byte c }
{
    !(c == b' ' || is_mark(c))
}

fn space_end(line: &[u8]) -> Option<usize>
    ensures { result ≡ position (λ c. not (c == 32)) line.now }
{
    line.iter().position(|c| !(*c == b' '))
}

fn word_end(line: &[u8]) -> Option<usize>
    ensures { result ≡ position (λ c. not (is_word_byte c)) line.now }
{
    line.iter().position(|c| !is_word_byte(*c))
}

fn after_spaces(line: &[u8]) -> &[u8]
    ensures { result.now ≡ after_spaces line.now }
{
    match space_end(line) {
        None => &[],
        Some(i) => &line[i..],
    }
}

/// The length of the word in front.
#[tactic(auto, using(crate::proofs::WordLaws::position_or))]
fn word_len(line: &[u8]) -> usize
    requires { 0 < length line.now }
    ensures { result ≡ word_len line.now }
{
    if is_mark(line[0]) {
        return 1;
    }
    word_end(line).unwrap_or(line.len())
}

/// The first word, and what follows it.
#[tactic(auto, using(crate::proofs::WordLaws::takes_word, crate::proofs::WordLaws::words_none))]
pub fn next_word(line: &[u8]) -> Option<(&[u8], &[u8])>
    ensures cases { MatchOption result (words line.now ≡ []) (λ x. words line.now ≡ x.0.now ∷ words x.1.now) }
    ensures shorter { IfSome result (λ x. length x.1.now < length line.now) }
{
    let rest = after_spaces(line);
    if rest.is_empty() {
        return None;
    }
    Some(rest.split_at(word_len(rest)))
}

#[tactic(auto, unfolding(crate::specs::Words::is_letter))]
fn is_letter(c: u8) -> bool
    ensures { result ≡ is_letter c }
{
    (b'A' <= c && c <= b'Z') || (b'a' <= c && c <= b'z') || c == b'_'
}

#[tactic(auto, unfolding(crate::specs::Words::is_name_byte))]
fn is_name_byte(c: u8) -> bool
    ensures { result ≡ is_name_byte c }
{
    is_letter(c) || (b'0' <= c && c <= b'9') || c == b'.'
}

fn begins_name(word: &[u8]) -> bool
    ensures { result ≡ begins_name word.now }
{
    match word {
        [] => false,
        [first, ..] => is_letter(*first),
    }
}

fn has_name_bytes(word: &[u8]) -> bool
    ensures { result ≡ list_all is_name_byte word.now }
{
    word.iter().all(|c| is_name_byte(*c))
}

/// Whether the word is a name.
#[tactic(auto, unfolding(crate::specs::Words::is_name))]
pub fn is_name(word: &[u8]) -> bool
    ensures value { result ≡ is_name word.now }
    ensures short { IsTrue result → length word.now ≤ 64 }
{
    (begins_name(word) && has_name_bytes(word)) && word.len() <= 64
}

/// Whether the line has no byte that may not stand in a text.
pub fn is_plain(line: &[u8]) -> bool
    ensures { result ≡ is_plain line.now }
{
    line.iter().all(|c| 32 <= *c && *c <= 126)
}
