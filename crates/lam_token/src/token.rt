//! A token, which borrows its text.
ghost use Rattle.std.specs.Prelude.{◌≡◌, ◌+◌, ◌^◌, ◌<◌, length, Some};
ghost use Rattle.std.specs.Str.{chars};
ghost use Rattle.lam_token.specs.Lexeme.{kind_of, text_of, span_of, start_of, end_of, lexeme_at};
ghost use Rattle.lam_token.specs.Cut.{IsWholeKind};

use crate::kind::Kind;
use crate::span::Span;
use std::marker::Model;

/// A lexeme of a text, or an error token where no lexeme begins. Contracts see it as a `Lexeme`.
#[derive(Drop, Debug)]
pub struct Token<'a> {
    kind: Kind,
    text: &'a str,
    span: Span,
}

impl<'a> Model for Token<'a> {
    ghost use Rattle.lam_token.specs.Lexeme.{Lexeme, lexeme};
    ghost use Rattle.lam_token.specs.Cut.{IsToken};

    ghost Value = { Lexeme };

    ghost view = { λ t. lexeme t.kind t.text.now t.span };

    ghost invariant = { λ t. IsToken (lexeme t.kind t.text.now t.span) };
}

impl<'a> Token<'a> {
    /// Returns the kind of the token.
    pub fn kind(&self) -> Kind
        ensures { result ≡ kind_of self.now }
    {
        self.kind
    }

    /// Returns the slice of the source that the token covers.
    pub fn text(&self) -> &'a str
        ensures text { result.now ≡ text_of self.now }
        ensures whole { end_of self.now ≡ start_of self.now + length result.now }
        ensures kind { IsWholeKind (chars result.now) (Some (kind_of self.now)) }
    {
        self.text
    }

    /// Returns the byte offset in the source at which the token begins.
    pub fn start(&self) -> usize
        ensures { result ≡ start_of self.now }
    {
        self.span().start
    }

    /// Returns the byte offset in the source just after the token.
    pub fn end(&self) -> usize
        ensures { result ≡ end_of self.now }
    {
        self.span().end
    }

    /// Its span in the source.
    pub fn span(&self) -> Span
        ensures { result ≡ span_of self.now }
    {
        self.span
    }
}

/// The token of this kind and text that begins at byte offset `start`.
pub(crate) fn token_at<'a>(kind: Kind, text: &'a str, start: usize) -> Token<'a>
    requires place { start + length text.now < 2 ^ 64 }
    requires kind { IsWholeKind (chars text.now) (Some kind) }
    ensures { result ≡ lexeme_at kind text.now start }
{
    let end = start + text.len();
    Token {
        kind,
        text,
        span: Span { start, end },
    }
}
