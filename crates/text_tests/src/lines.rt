//! Words, lines, integers, boxes and names, as they are cut, read and written.

use std::alloc::{AllocError, Global};
use std::test::*;
use text_lines::{
    Letter, Names, box_of, decimal_of, integer_of, is_end, is_name, is_plain, is_skipped, key_at,
    name_at, next_line, next_word, put_integer, put_line, put_word,
};
use trace_ops::Text;

// Whether a cut gives these two parts.
fn cuts(parts: (&[u8], &[u8]), first: &[u8], rest: &[u8]) -> bool {
    parts.0 == first && parts.1 == rest
}

fn word_is(line: &[u8], first: &[u8], rest: &[u8]) -> bool {
    match next_word(line) {
        None => false,
        Some(parts) => cuts(parts, first, rest),
    }
}

fn line_is(text: &[u8], first: &[u8], rest: &[u8]) -> bool {
    if text.is_empty() {
        return false;
    }
    cuts(next_line(text), first, rest)
}

// A line, its first word, and what follows.
const WORDS: [(&[u8], &[u8], &[u8]); 7] = [
    (b"size a", b"size", b" a"),
    (b"  a ", b"a", b" "),
    (b"x=1", b"x", b"=1"),
    (b"=1", b"=", b"1"),
    (b"[p0, i1]", b"[", b"p0, i1]"),
    (b"@main:12[p0", b"@main:12", b"[p0"),
    (b"from main/3", b"from", b" main/3"),
];

#[test]
fn a_line_is_cut_into_words(rt: HostRuntime) -> Result<(), Fail> {
    for (line, first, rest) in WORDS {
        assert!(rt; word_is(line, first, rest));
    }
    assert!(rt; is_end(b"   "));
    assert!(rt; is_skipped(b"  # any (text"));
    assert!(rt; !is_skipped(b"a # b"));
    assert!(rt; !is_plain(b"a\x7f"));
    Ok(())
}

#[test]
fn the_last_line_may_lack_its_line_feed(rt: HostRuntime) -> Result<(), Fail> {
    assert!(rt; line_is(b"ab\ncd", b"ab", b"cd"));
    assert!(rt; line_is(b"\nx", b"", b"x"));
    assert!(rt; line_is(b"ab", b"ab", b""));
    Ok(())
}

// A word, and the integer that it is.
const INTEGERS: [(&[u8], Option<i64>); 10] = [
    (b"0", Some(0)),
    (b"-0", Some(0)),
    (b"007", Some(7)),
    (b"9223372036854775807", Some(9223372036854775807)),
    (b"-9223372036854775808", Some(-9223372036854775808)),
    (b"9223372036854775808", None),
    (b"-9223372036854775809", None),
    (b"", None),
    (b"-", None),
    (b"+1", None),
];

#[test]
fn integers_are_words_of_64_bits(rt: HostRuntime) -> Result<(), Fail> {
    for (word, want) in INTEGERS {
        assert_eq!(rt; integer_of(word), want);
    }
    assert_eq!(rt; decimal_of(10, b"010"), Some(10));
    assert_eq!(rt; decimal_of(9, b"10"), None);
    Ok(())
}

// A word, and the box that it is.
const BOXES: [(&[u8], Option<(Letter, u32)>); 8] = [
    (b"i5", Some((Letter::Int, 5))),
    (b"r5", Some((Letter::Ref, 5))),
    (b"p4294967295", Some((Letter::Ref, 4294967295))),
    (b"f0", Some((Letter::Float, 0))),
    (b"i4294967296", None),
    (b"i05", None),
    (b"i", None),
    (b"x1", None),
];

#[test]
fn boxes_have_a_letter_and_a_short_number(rt: HostRuntime) -> Result<(), Fail> {
    for (word, want) in BOXES {
        assert_eq!(rt; box_of(word), want);
    }
    Ok(())
}

#[test]
fn names_have_at_most_64_letters(rt: HostRuntime) -> Result<(), Fail> {
    let long = b"aaaaaaaaaaaaaaaaaaaaaaaaaaaaaaaaaaaaaaaaaaaaaaaaaaaaaaaaaaaaaaaaa";
    assert!(rt; is_name(&long[..64]));
    assert!(rt; !is_name(long));
    assert!(rt; is_name(b"_.9"));
    assert!(rt; !is_name(b"9a"));
    assert!(rt; name_at(b" 9a").is_none());
    assert!(rt; name_at(b" NULL").is_some());
    assert!(rt; key_at(b"of", b" of s").is_some());
    assert!(rt; key_at(b"of", b" off").is_none());
    Ok(())
}

fn written(alloc: Global) -> Result<Vec<u8>, AllocError> {
    let mut out = Vec::new(alloc);
    put_line(&mut out, b"size", &[b"a".as_slice(), b"vtable".as_slice()])?;
    put_integer(&mut out, -9223372036854775808)?;
    put_word(&mut out, b"x")?;
    Ok(out)
}

#[test]
fn words_are_written_with_single_spaces(rt: HostRuntime) -> Result<(), Fail> {
    assert_eq!(rt;
        written(rt.alloc())?.as_slice(),
        b"size a vtable\n-9223372036854775808 x".as_slice()
    );
    Ok(())
}

fn added(alloc: Global) -> Result<Names, AllocError> {
    let mut names = Names::new(alloc);
    names.add(Text::new(b"a"))?;
    names.add(Text::new(b"b"))?;
    names.add(Text::new(b"a"))?;
    Ok(names)
}

#[test]
fn a_name_keeps_its_first_number(rt: HostRuntime) -> Result<(), Fail> {
    let names = added(rt.alloc())?;
    assert_eq!(rt; names.number(&Text::new(b"a")), Some(0));
    assert_eq!(rt; names.number(&Text::new(b"b")), Some(1));
    assert_eq!(rt; names.number(&Text::new(b"c")), None);
    assert!(rt; names.has(&Text::new(b"b")));
    Ok(())
}
