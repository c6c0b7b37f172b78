//! Scanning the first segment of a text.
ghost use Rattle.std.specs.Prelude.{◌≡◌, [], MatchOption};
ghost use Rattle.std.specs.Option.{option_copied};
ghost use Rattle.lam_token.specs.Shape.{is_digit, is_continuing, beginning_of};
ghost use Rattle.lam_token.specs.inner.Reading.{FirstIs, RunIs, IsBehind, SegmentIs};

use crate::characters::{
    beginning_of, is_closing, is_continuing, is_digit, is_opening, split_first,
};
use crate::kind::Kind;
use crate::segment::{Beginning, Segment};
use crate::words::word_kind;

/// The text after the longest run of characters that may continue an identifier.
fn behind_word(text: &str) -> &str
    ensures { RunIs is_continuing text.now result.now }
{
    let mut rest = text;
    while let Some((c, after)) = split_first(rest) {
        if !is_continuing(c) {
            return rest;
        }
        rest = after;
    }
    rest
}

/// The text after the longest run of digits.
fn behind_digits(text: &str) -> &str
    ensures { RunIs is_digit text.now result.now }
{
    let mut rest = text;
    while let Some((c, after)) = split_first(rest) {
        if !is_digit(c) {
            return rest;
        }
        rest = after;
    }
    rest
}

/// The text after a comment whose opening mark precedes `text`, or `None` if the comment is not closed.
fn behind_comment(text: &str) -> Option<&str>
    ensures { IsBehind 1 32 text.now (option_copied result) }
{
    let mut rest = text;
    let mut depth: usize = 1;
    // The previous character, or a space if it was already part of a mark.
    let mut before = ' ';
    while let Some((c, after)) = split_first(rest) {
        rest = after;
        if is_opening(before, c) {
            depth += 1;
            before = ' ';
        } else if is_closing(before, c) {
            if depth == 1 {
                return Some(rest);
            }
            depth -= 1;
            before = ' ';
        } else {
            before = c;
        }
    }
    None
}

/// Scans a comment or a stray slash.
fn slash_segment<'a>(text: &'a str, first: char, rest: &'a str) -> (Segment, &'a str)
    requires first { FirstIs text.now first rest.now }
    requires beginning { beginning_of first ≡ Beginning.Slash }
    ensures { SegmentIs text.now result.0 result.1.now }
{
    let Some((second, inside)) = split_first(rest) else {
        return (Segment::Token(Kind::BadCharacter), rest);
    };
    if second != '*' {
        return (Segment::Token(Kind::BadCharacter), rest);
    }
    match behind_comment(inside) {
        Some(after) => (Segment::Comment, after),
        None => (Segment::Token(Kind::BadComment), ""),
    }
}

/// Scans a numeral.
fn digit_segment<'a>(text: &'a str, first: char, rest: &'a str) -> (Segment, &'a str)
    requires first { FirstIs text.now first rest.now }
    requires beginning { beginning_of first ≡ Beginning.Digit }
    ensures { SegmentIs text.now result.0 result.1.now }
{
    (Segment::Token(Kind::Numeral), behind_digits(rest))
}

/// Scans a keyword, a name or a type name.
fn letter_segment<'a>(text: &'a str, first: char, rest: &'a str) -> (Segment, &'a str)
    requires first { FirstIs text.now first rest.now }
    requires beginning { beginning_of first ≡ Beginning.Letter }
    ensures { SegmentIs text.now result.0 result.1.now }
{
    let after = behind_word(rest);
    let (word, _) = text.split_at(text.len() - after.len());
    (Segment::Token(word_kind(first, word)), after)
}

/// Scans a name or a lone underscore.
fn underscore_segment<'a>(text: &'a str, first: char, rest: &'a str) -> (Segment, &'a str)
    requires first { FirstIs text.now first rest.now }
    requires beginning { beginning_of first ≡ Beginning.Underscore }
    ensures { SegmentIs text.now result.0 result.1.now }
{
    let after = behind_word(rest);
    if after.len() == rest.len() {
        (Segment::Token(Kind::Underscore), after)
    } else {
        (Segment::Token(Kind::Name), after)
    }
}

/// Scans an arrow or a stray dash.
fn dash_segment<'a>(text: &'a str, first: char, rest: &'a str) -> (Segment, &'a str)
    requires first { FirstIs text.now first rest.now }
    requires beginning { beginning_of first ≡ Beginning.Dash }
    ensures { SegmentIs text.now result.0 result.1.now }
{
    let Some((second, after)) = split_first(rest) else {
        return (Segment::Token(Kind::BadCharacter), rest);
    };
    if second != '>' {
        return (Segment::Token(Kind::BadCharacter), rest);
    }
    (Segment::Token(Kind::Arrow), after)
}

/// Returns the first segment and the text after it, or `None` if the text is empty.
pub(crate) fn next_segment(text: &str) -> Option<(Segment, &str)>
    ensures { MatchOption result (text.now ≡ []) (λ found. SegmentIs text.now found.0 found.1.now) }
{
    let (first, rest) = split_first(text)?;
    match beginning_of(first) {
        Beginning::Blank => Some((Segment::Blank, rest)),
        Beginning::Slash => Some(slash_segment(text, first, rest)),
        Beginning::Digit => Some(digit_segment(text, first, rest)),
        Beginning::Letter => Some(letter_segment(text, first, rest)),
        Beginning::Underscore => Some(underscore_segment(text, first, rest)),
        Beginning::Dash => Some(dash_segment(text, first, rest)),
        Beginning::Mark(kind) => Some((Segment::Token(kind), rest)),
        Beginning::Stray => Some((Segment::Token(Kind::BadCharacter), rest)),
    }
}
