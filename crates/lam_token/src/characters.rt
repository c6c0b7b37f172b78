//! Splitting a text into characters, and classifying characters.
ghost use Rattle.std.specs.Prelude.{◌≡◌, [], MatchOption};
ghost use Rattle.std.specs.Str.{chars};
ghost use Rattle.lam_token.specs.Shape.{is_blank, is_digit, is_continuing, is_opening, is_closing, mark_of, beginning_of};
ghost use Rattle.lam_token.specs.inner.Reading.{FirstIs};
ghost use Rattle.unicode_ident.specs.Ident.{is_xid_start, is_xid_continue};

use crate::kind::Kind;
use crate::segment::Beginning;

/// Returns the first character and the text after it, or `None` if the text is empty.
pub(crate) fn split_first(text: &str) -> Option<(char, &str)>
    ensures { MatchOption result (text.now ≡ []) (λ found. FirstIs text.now found.0 found.1.now) }
{
    let mut characters = text.chars();
    let first = characters.next()?;
    Some((first, characters.as_str()))
}

#[tactic(auto, unfolding(crate::specs::Shape::is_blank))]
fn is_blank(c: char) -> bool
    ensures { result ≡ is_blank c }
{
    c == ' ' || c == '\t' || c == '\n' || c == '\r'
}

/// Whether a character is an ASCII digit.
#[tactic(auto, unfolding(crate::specs::Shape::is_digit))]
pub(crate) fn is_digit(c: char) -> bool
    ensures { result ≡ is_digit c }
{
    c >= '0' && c <= '9'
}

/// Whether a character is `XID_Start`. ASCII letters are recognized without the table.
#[tactic(auto, using(crate::proofs::AsciiNames::ascii_names))]
fn is_xid_start(c: char) -> bool
    ensures { result ≡ is_xid_start c }
{
    if c.is_ascii() {
        c.is_ascii_alphabetic()
    } else {
        unicode_ident::is_xid_start(c)
    }
}

/// Whether a character is `XID_Continue`. ASCII letters, digits and `_` are recognized without the table.
#[tactic(auto, using(crate::proofs::AsciiNames::ascii_names))]
fn is_xid_continue(c: char) -> bool
    ensures { result ≡ is_xid_continue c }
{
    if !c.is_ascii() {
        return unicode_ident::is_xid_continue(c);
    }
    c.is_ascii_alphanumeric() || c == '_'
}

/// Whether a character may continue a name: `'` or any `XID_Continue` character.
#[tactic(auto, unfolding(crate::specs::Shape::is_continuing))]
pub(crate) fn is_continuing(c: char) -> bool
    ensures { result ≡ is_continuing c }
{
    c == '\'' || is_xid_continue(c)
}

/// Whether two adjacent characters open a comment.
#[tactic(auto, unfolding(crate::specs::Shape::is_opening))]
pub(crate) fn is_opening(before: char, c: char) -> bool
    ensures { result ≡ is_opening before c }
{
    before == '/' && c == '*'
}

/// Whether two adjacent characters close a comment.
#[tactic(auto, unfolding(crate::specs::Shape::is_closing))]
pub(crate) fn is_closing(before: char, c: char) -> bool
    ensures { result ≡ is_closing before c }
{
    before == '*' && c == '/'
}

#[tactic(auto, unfolding(crate::specs::Shape::mark_of))]
fn mark_of(c: char) -> Beginning
    ensures { result ≡ mark_of c }
{
    match c {
        '/' => Beginning::Slash,
        '_' => Beginning::Underscore,
        '-' => Beginning::Dash,
        ';' => Beginning::Mark(Kind::Semicolon),
        '=' => Beginning::Mark(Kind::Equals),
        ':' => Beginning::Mark(Kind::Colon),
        '.' => Beginning::Mark(Kind::Dot),
        ',' => Beginning::Mark(Kind::Comma),
        '(' => Beginning::Mark(Kind::OpenParen),
        ')' => Beginning::Mark(Kind::CloseParen),
        '{' => Beginning::Mark(Kind::OpenBrace),
        '}' => Beginning::Mark(Kind::CloseBrace),
        _ => Beginning::Stray,
    }
}

/// What kind of segment may begin with the character.
#[tactic(auto, unfolding(crate::specs::Shape::beginning_of))]
pub(crate) fn beginning_of(c: char) -> Beginning
    ensures { result ≡ beginning_of c }
{
    if is_blank(c) {
        Beginning::Blank
    } else if is_digit(c) {
        Beginning::Digit
    } else if is_xid_start(c) {
        Beginning::Letter
    } else {
        mark_of(c)
    }
}
