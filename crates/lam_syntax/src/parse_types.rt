//! Parsing types.
//!
//! Each function parses a construct at the start of the tokens, with one token of lookahead, and returns it with the
//! tokens after it. It stops at the first token that does not fit.
ghost use Rattle.std.specs.Prelude.{◌<◌, length, IfOk};
ghost use Rattle.lam_token.specs.declared.span.Span.{Span as TokenSpan};
ghost use Rattle.lam_syntax.specs.inner.Run.{InType, in_type_parens, need_type, need_type_field, next_type_field, run};
ghost use Rattle.lam_syntax.specs.Trees.{TypeFields};
ghost use Rattle.lam_syntax.specs.inner.Reads.{Reads, behind_type, behind_atype, behind_type_field};

use crate::stop::Stop;
use crate::tokens::{expect, expect_name, identifier_of, take};
use crate::types::{TyField, TyNode, WrittenTy, make_arrow, make_record_type};
use lam_token::{Kind, Span, Token};
use std::alloc::Global;

/// Parses a type.
#[cycle(types)]
pub(crate) fn parse_type<'a, 'b>(
    alloc: Global,
    tokens: &'a [Token<'b>],
) -> Result<(WrittenTy, &'a [Token<'b>]), Stop<'a, 'b>>
    ensures read { (k : InType) → Reads result (run tokens.now (need_type k)) (behind_type k) }
    ensures shorter { IfOk result (λ r. length r.1.now < length tokens.now) }
{
    let (left, rest) = parse_atype(alloc, tokens)?;
    let Some((_, rest)) = take(rest, Kind::Arrow) else {
        return Ok((left, rest));
    };
    let (right, rest) = parse_type(alloc, rest)?;
    let ty = make_arrow(alloc, left, right)?;
    Ok((ty, rest))
}

/// Parses an atomic type: any type but an unparenthesized arrow.
#[cycle(types)]
#[tactic(auto, using(crate::proofs::Shapes::type_shapes))]
fn parse_atype<'a, 'b>(
    alloc: Global,
    tokens: &'a [Token<'b>],
) -> Result<(WrittenTy, &'a [Token<'b>]), Stop<'a, 'b>>
    ensures read { (k : InType) → Reads result (run tokens.now (need_type k)) (behind_atype k) }
    ensures shorter { IfOk result (λ r. length r.1.now < length tokens.now) }
{
    let Some((first, rest)) = tokens.split_first() else {
        return Err(Stop::At(tokens));
    };
    let span = first.span();
    let node = match first.kind() {
        Kind::OpenParen => return parse_type_parens(alloc, span, rest),
        Kind::OpenBrace => return parse_record_type(alloc, span, rest),
        Kind::TypeName => TyNode::Named(identifier_of(alloc, first)?),
        Kind::BoolType => TyNode::Bool,
        Kind::NatType => TyNode::Nat,
        Kind::UnitType => TyNode::Unit,
        Kind::TopType => TyNode::Top,
        _ => return Err(Stop::At(tokens)),
    };
    Ok((WrittenTy { span, node }, rest))
}

/// Parses the rest of a parenthesized type, after the opening parenthesis.
#[cycle(types)]
fn parse_type_parens<'a, 'b>(
    alloc: Global,
    first: Span,
    tokens: &'a [Token<'b>],
) -> Result<(WrittenTy, &'a [Token<'b>]), Stop<'a, 'b>>
    ensures read { (k : InType) → Reads result (run tokens.now (need_type (in_type_parens first k))) (behind_atype k) }
    ensures shorter { IfOk result (λ r. length r.1.now < length tokens.now) }
{
    let (ty, rest) = parse_type(alloc, tokens)?;
    let (last, rest) = expect(rest, Kind::CloseParen)?;
    Ok((ty.spanning(first, last), rest))
}

/// Parses the rest of a record type, after its opening brace.
#[cycle(types)]
#[tactic(auto, using(crate::proofs::Shapes::type_shapes))]
fn parse_record_type<'a, 'b>(
    alloc: Global,
    first: Span,
    tokens: &'a [Token<'b>],
) -> Result<(WrittenTy, &'a [Token<'b>]), Stop<'a, 'b>>
    ensures read { (k : InType) → Reads result (run tokens.now (need_type_field first k)) (behind_atype k) }
    ensures shorter { IfOk result (λ r. length r.1.now < length tokens.now) }
{
    if let Some((last, rest)) = take(tokens, Kind::CloseBrace) {
        return Ok((make_record_type(first, last, Vec::new(alloc)), rest));
    }
    let (field, mut rest) = parse_type_field(alloc, tokens)?;
    let mut fields = Vec::new(alloc);
    fields.push(field)?;
    while let Some((_, next)) = take(rest, Kind::Comma) {
        let (field, after) = parse_type_field(alloc, next)?;
        fields.push(field)?;
        rest = after;
    }
    let (last, rest) = expect(rest, Kind::CloseBrace)?;
    Ok((make_record_type(first, last, fields), rest))
}

/// Parses a field of a record type: a label, a colon and a type.
#[cycle(types)]
fn parse_type_field<'a, 'b>(
    alloc: Global,
    tokens: &'a [Token<'b>],
) -> Result<(TyField, &'a [Token<'b>]), Stop<'a, 'b>>
    ensures read { (s : TokenSpan) (before : TypeFields) (k : InType) → Reads result (run tokens.now (next_type_field s before k)) (behind_type_field s before k) }
    ensures shorter { IfOk result (λ r. length r.1.now < length tokens.now) }
{
    let (label, rest) = expect_name(alloc, tokens)?;
    let (_, rest) = expect(rest, Kind::Colon)?;
    let (ty, rest) = parse_type(alloc, rest)?;
    Ok((TyField { label, ty }, rest))
}
