//! Lexing a text into tokens.
ghost use Rattle.std.specs.Prelude.{◌≡◌, ◌+◌, ◌-◌, ◌<◌, ◌^◌, List, [], ◌∷◌, length, drop, Some, IfOk, IfSome, IfNone, All, map};
ghost use Rattle.std.specs.List.{slice_range};
ghost use Rattle.std.specs.List.Sorted.{IsStrictlyIncreasing};
ghost use Rattle.lam_token.specs.Lexeme.{Lexeme, text_of, start_of, end_of};
ghost use Rattle.lam_token.specs.Cut.{AreTokensFrom, AreTokensOf, StandsIn};

use crate::scan::next_segment;
use crate::segment::Segment;
use crate::token::{Token, token_at};
use std::alloc::{AllocError, Global};

/// Returns the first token of a text and the text after it, or `None` if there is no token. `start` is the byte offset of
/// `text` in the source. The tokens of `text` are this one followed by those of the returned rest.
pub fn first_token<'a>(text: &'a str, start: usize) -> Option<(Token<'a>, &'a str)>
    requires { start + length text.now < 2 ^ 64 }
    ensures first { IfSome result (λ found. (others : List Lexeme) → AreTokensFrom (end_of found.0) found.1.now others → AreTokensFrom start text.now (found.0 ∷ others)) }
    ensures rest { IfSome result (λ found. found.1.now ≡ drop (end_of found.0 - start) text.now) }
    ensures behind { IfSome result (λ found. end_of found.0 + length found.1.now ≡ start + length text.now) }
    ensures shorter { IfSome result (λ found. length found.1.now < length text.now) }
    ensures none { IfNone result (AreTokensFrom start text.now []) }
{
    let mut rest = text;
    let mut offset = start;
    while let Some((segment, after)) = next_segment(rest) {
        let bytes = rest.len() - after.len();
        if let Segment::Token(kind) = segment {
            let (front, _) = rest.split_at(bytes);
            return Some((token_at(kind, front, offset), after));
        }
        offset += bytes;
        rest = after;
    }
    None
}

/// Returns the tokens of a text, in order. Fails only if allocation fails.
pub fn lex<'a>(alloc: Global, text: &'a str) -> Result<Vec<Token<'a>>, AllocError>
    ensures tokens { IfOk result (λ found. AreTokensOf text.now found.items) }
    ensures only { IfOk result (λ found. (others : List Lexeme) → AreTokensOf text.now others → others ≡ found.items) }
    ensures slices { IfOk result (λ found. All (λ t. slice_range text.now (start_of t) (end_of t) ≡ text_of t) found.items) }
    ensures whole_characters { IfOk result (λ found. All (StandsIn text.now) found.items) }
    ensures ascend { IfOk result (λ found. IsStrictlyIncreasing (map start_of found.items)) }
{
    let mut tokens = Vec::new(alloc);
    let mut rest = text;
    let mut start = 0;
    while let Some((token, after)) = first_token(rest, start) {
        rest = after;
        start = token.end();
        tokens.push(token)?;
    }
    Ok(tokens)
}
