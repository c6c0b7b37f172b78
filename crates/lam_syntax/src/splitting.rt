//! Splitting the tokens of a document into pieces.
ghost use Rattle.std.specs.Prelude.{◌≡◌, ◌<◌, ◌≤◌, length, drop, map, IfOk, All};
ghost use Rattle.lam_syntax.specs.Answers.{is_semicolon, pieces_of};
ghost use Rattle.lam_syntax.specs.inner.Reads.{run_len};

use lam_token::{Kind, Token};
use std::alloc::{AllocError, Global};

/// Returns the nonempty slices of tokens between semicolons, in order. Fails if allocation fails.
pub fn pieces<'a, 'b>(
    alloc: Global,
    tokens: &'a [Token<'b>],
) -> Result<Vec<&'a [Token<'b>]>, AllocError>
    ensures pieces { IfOk result (λ found. map (λ p. p.now) found.items ≡ pieces_of tokens.now) }
    ensures none_empty { IfOk result (λ found. All (λ p. 0 < length p.now) found.items) }
{
    let mut found = Vec::new(alloc);
    let mut left = tokens;
    while !left.is_empty() {
        let (piece, rest) = left.split_at(run_len(left));
        if !piece.is_empty() {
            found.push(piece)?;
        }
        left = behind_first(rest);
    }
    Ok(found)
}

/// Whether the token is a semicolon, which ends a piece.
pub fn is_semicolon(token: &Token<'_>) -> bool
    ensures { result ≡ is_semicolon token.now }
{
    match token.kind() {
        Kind::Semicolon => true,
        _ => false,
    }
}

/// The number of tokens before the first semicolon.
fn run_len(tokens: &[Token<'_>]) -> usize
    ensures within { result ≤ length tokens.now }
    ensures run { result ≡ run_len tokens.now }
{
    for (n, token) in tokens.iter().enumerate() {
        if is_semicolon(token) {
            return n;
        }
    }
    tokens.len()
}

/// The tokens after the first one.
fn behind_first<'a, 'b>(tokens: &'a [Token<'b>]) -> &'a [Token<'b>]
    ensures { result.now ≡ drop 1 tokens.now }
{
    let (_, rest) = tokens.split_at(tokens.len().min(1));
    rest
}
