//! Reading single tokens from the start of a list.
ghost use Rattle.std.specs.Prelude.{◌≡◌, IfOk};
ghost use Rattle.lam_token.specs.Lexeme.{text_of, span_of};
ghost use Rattle.lam_syntax.specs.Trees.{word};
ghost use Rattle.lam_syntax.specs.Views.{word_of};
ghost use Rattle.lam_syntax.specs.inner.Reads.{Takes, Expects, Names};

use crate::identifier::Identifier;
use crate::stop::Stop;
use crate::text::Text;
use lam_token::{Kind, Span, Token};
use std::alloc::{AllocError, Global};

/// Returns the span of the first token and the tokens after it, if the first token is of this kind.
pub(crate) fn take<'a, 'b>(tokens: &'a [Token<'b>], kind: Kind) -> Option<(Span, &'a [Token<'b>])>
    ensures takes { Takes kind tokens.now result }
{
    let (first, rest) = tokens.split_first()?;
    if first.kind() == kind {
        Some((first.span(), rest))
    } else {
        None
    }
}

/// Like `take`, but stops if the first token is not of this kind.
pub(crate) fn expect<'a, 'b>(
    tokens: &'a [Token<'b>],
    kind: Kind,
) -> Result<(Span, &'a [Token<'b>]), Stop<'a, 'b>>
    ensures expects { Expects kind tokens.now result }
{
    match take(tokens, kind) {
        Some(taken) => Ok(taken),
        None => Err(Stop::At(tokens)),
    }
}

/// The text and span of the token.
pub(crate) fn identifier_of(alloc: Global, token: &Token<'_>) -> Result<Identifier, AllocError>
    ensures { IfOk result (λ i. word_of i ≡ word (text_of token.now) (span_of token.now)) }
{
    Ok(Identifier {
        text: Text::new(alloc, token.text())?,
        span: token.span(),
    })
}

/// Reads a name, and stops at any other token.
pub(crate) fn expect_name<'a, 'b>(
    alloc: Global,
    tokens: &'a [Token<'b>],
) -> Result<(Identifier, &'a [Token<'b>]), Stop<'a, 'b>>
    ensures named { Names tokens.now result }
{
    let Some((first, rest)) = tokens.split_first() else {
        return Err(Stop::At(tokens));
    };
    if first.kind() != Kind::Name {
        return Err(Stop::At(tokens));
    }
    let name = identifier_of(alloc, first)?;
    Ok((name, rest))
}
