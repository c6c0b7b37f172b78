//! The dot before the cursor, and the word that the cursor touches.
ghost use Rattle.std.specs.Prelude.{◌≡◌, ◌+◌, ◌<◌, ◌^◌, List, length, Some, None, IfSome};
ghost use Rattle.std.specs.Option.{option_map};
ghost use Rattle.lam_token.specs.Lexeme.{Lexeme, start_of};
ghost use Rattle.lam_token.specs.Cut.{AreTokensFrom};
ghost use Rattle.lam_query.specs.Completions.{is_word_kind, reaches, is_touched, is_around, is_in_front, is_behind, touched_word, if_dot, dot_before};

use lam_token::{Kind, Token, first_token};

/// Returns the offset of the dot that is the last token of a piece before the cursor and before the word it touches, or `None`
/// if another token is there or contains the cursor. The piece starts at `from`. The offset after the dot fits in a `usize`.
pub(crate) fn dot_before(piece: &str, from: usize, offset: usize) -> Option<usize>
    requires { from + length piece.now < 2 ^ 64 }
    ensures dot { (tokens : List Lexeme) → AreTokensFrom from piece.now tokens → result ≡ option_map start_of (dot_before offset tokens) }
    ensures fits { IfSome result (λ start. start + 1 < 2 ^ 64) }
{
    let mut dot = None;
    let mut rest = piece;
    let mut start = from;
    while let Some((token, after)) = first_token(rest, start) {
        if is_around(&token, offset) {
            return None;
        }
        if is_in_front(&token, offset) {
            dot = start_of_dot(&token);
        }
        rest = after;
        start = token.end();
    }
    dot
}

/// Returns the offset at which the word that the cursor touches starts, if it touches one. The piece starts at `from`.
pub(crate) fn touched_word(piece: &str, from: usize, offset: usize) -> Option<usize>
    requires { from + length piece.now < 2 ^ 64 }
    ensures { (tokens : List Lexeme) → AreTokensFrom from piece.now tokens → result ≡ option_map start_of (touched_word offset tokens) }
{
    let mut rest = piece;
    let mut start = from;
    while let Some((token, after)) = first_token(rest, start) {
        if is_touched(&token, offset) {
            return Some(token.start());
        }
        rest = after;
        start = token.end();
    }
    None
}

/// Whether the token is not a word that the cursor touches, and ends before the cursor or at it.
pub(crate) fn is_in_front(token: &Token<'_>, offset: usize) -> bool
    ensures { result ≡ is_in_front offset token.now }
{
    !is_touched(token, offset) && token.end() <= offset
}

/// Whether the token is not a word that the cursor touches, and starts after the cursor or at it.
pub(crate) fn is_behind(token: &Token<'_>, offset: usize) -> bool
    ensures { result ≡ is_behind offset token.now }
{
    !is_touched(token, offset) && offset <= token.start()
}

/// Whether the token is not a word that the cursor touches, and has the cursor strictly inside.
fn is_around(token: &Token<'_>, offset: usize) -> bool
    ensures { result ≡ is_around offset token.now }
{
    !is_touched(token, offset) && token.start() < offset && offset < token.end()
}

/// Whether the token is a word with the cursor inside, or at its start or end.
fn is_touched(token: &Token<'_>, offset: usize) -> bool
    ensures { result ≡ is_touched offset token.now }
{
    is_word(token.kind()) && reaches(token, offset)
}

/// Whether the offset is inside the token, or just after it.
fn reaches(token: &Token<'_>, offset: usize) -> bool
    ensures { result ≡ reaches offset token.now }
{
    token.start() <= offset && offset <= token.end()
}

/// Returns the offset of the token, if it is a dot.
fn start_of_dot(token: &Token<'_>) -> Option<usize>
    ensures { result ≡ option_map start_of (if_dot token.now) }
{
    match token.kind() {
        Kind::Dot => Some(token.start()),
        _ => None,
    }
}

/// Whether tokens of this kind are words: names, type names and keywords.
fn is_word(kind: Kind) -> bool
    ensures { result ≡ is_word_kind kind }
{
    match kind {
        Kind::Numeral => false,
        Kind::Semicolon => false,
        Kind::Equals => false,
        Kind::Colon => false,
        Kind::Dot => false,
        Kind::Comma => false,
        Kind::OpenParen => false,
        Kind::CloseParen => false,
        Kind::OpenBrace => false,
        Kind::CloseBrace => false,
        Kind::Arrow => false,
        Kind::Underscore => false,
        Kind::BadCharacter => false,
        Kind::BadComment => false,
        _ => true,
    }
}
