//! Parsing terms.
//!
//! Each function parses a construct at the start of the tokens, with one token of lookahead, and returns it with the
//! tokens after it. It stops at the first token that does not fit.
ghost use Rattle.std.specs.Prelude.{◌≡◌, ◌<◌, ◌≤◌, length, IfOk, MatchBool};
ghost use Rattle.lam_token.specs.declared.span.Span.{Span as TokenSpan};
ghost use Rattle.lam_syntax.specs.inner.Run.{Purpose, for_lambda, for_let, for_letrec, of_lambda, of_letrec, InTerm, InPath, need_binder, need_term, in_condition, in_parens, after_atom, need_field, next_field, begin_app, begin_atom, run, look};
ghost use Rattle.lam_syntax.specs.Trees.{FieldTrees};
ghost use Rattle.lam_syntax.specs.Views.{term_of};
ghost use Rattle.lam_syntax.specs.inner.Reads.{Reads, ReadsBehind, Starts, behind_binder, behind_typed_binder, behind_atom, behind_asc, behind_path, behind_term, behind_field, placed};

use crate::identifier::Binder;
use crate::parse_types::parse_type;
use crate::stop::Stop;
use crate::terms::{
    Prefix, Tm, TmField, TmNode, make_apply, make_ascribe, make_if, make_lambda, make_let,
    make_letrec, make_project, make_record, with_prefix,
};
use crate::text::Text;
use crate::tokens::{expect, expect_name, identifier_of, take};
use crate::types::WrittenTy;
use lam_token::{Kind, Span, Token};
use std::alloc::Global;

/// Parses a term.
#[cycle(terms)]
pub(crate) fn parse_term<'a, 'b>(
    alloc: Global,
    tokens: &'a [Token<'b>],
) -> Result<(Tm, &'a [Token<'b>]), Stop<'a, 'b>>
    ensures read { (k : InTerm) → Reads result (run tokens.now (need_term k)) (behind_term k) }
    ensures shorter { IfOk result (λ r. length r.1.now < length tokens.now) }
{
    let Some((first, rest)) = tokens.split_first() else {
        return Err(Stop::At(tokens));
    };
    let span = first.span();
    match first.kind() {
        Kind::Lambda => parse_lambda(alloc, span, rest),
        Kind::If => parse_if(alloc, span, rest),
        Kind::Let => parse_let(alloc, span, rest),
        Kind::Letrec => parse_letrec(alloc, span, rest),
        _ => parse_app(alloc, tokens),
    }
}

/// Parses a token of this kind and then a term.
#[cycle(terms)]
fn parse_term_behind<'a, 'b>(
    alloc: Global,
    kind: Kind,
    tokens: &'a [Token<'b>],
) -> Result<(Tm, &'a [Token<'b>]), Stop<'a, 'b>>
    ensures read { ReadsBehind kind tokens.now result }
    ensures shorter { IfOk result (λ r. length r.1.now < length tokens.now) }
{
    let (_, rest) = expect(tokens, kind)?;
    parse_term(alloc, rest)
}

/// Parses the rest of a lambda, after the keyword, whose span is `first`.
#[cycle(terms)]
fn parse_lambda<'a, 'b>(
    alloc: Global,
    first: Span,
    tokens: &'a [Token<'b>],
) -> Result<(Tm, &'a [Token<'b>]), Stop<'a, 'b>>
    ensures read { (k : InTerm) → Reads result (run tokens.now (need_binder for_lambda first k)) (behind_term k) }
    ensures shorter { IfOk result (λ r. length r.1.now < length tokens.now) }
{
    let ((binder, ty), rest) = parse_typed_binder(alloc, tokens)?;
    let (body, rest) = parse_term_behind(alloc, Kind::Dot, rest)?;
    let term = make_lambda(alloc, first, binder, ty, body)?;
    Ok((term, rest))
}

/// Parses the rest of an `if`, after the keyword, whose span is `first`.
#[cycle(terms)]
fn parse_if<'a, 'b>(
    alloc: Global,
    first: Span,
    tokens: &'a [Token<'b>],
) -> Result<(Tm, &'a [Token<'b>]), Stop<'a, 'b>>
    ensures read { (k : InTerm) → Reads result (run tokens.now (need_term (in_condition first k))) (behind_term k) }
    ensures shorter { IfOk result (λ r. length r.1.now < length tokens.now) }
{
    let (condition, rest) = parse_term(alloc, tokens)?;
    let (then_term, rest) = parse_term_behind(alloc, Kind::Then, rest)?;
    let (else_term, rest) = parse_term_behind(alloc, Kind::Else, rest)?;
    let term = make_if(alloc, first, condition, then_term, else_term)?;
    Ok((term, rest))
}

/// Parses the rest of a `let`, after the keyword, whose span is `first`.
#[cycle(terms)]
fn parse_let<'a, 'b>(
    alloc: Global,
    first: Span,
    tokens: &'a [Token<'b>],
) -> Result<(Tm, &'a [Token<'b>]), Stop<'a, 'b>>
    ensures read { (k : InTerm) → Reads result (run tokens.now (need_binder for_let first k)) (behind_term k) }
    ensures shorter { IfOk result (λ r. length r.1.now < length tokens.now) }
{
    let (binder, rest) = parse_binder(alloc, tokens)?;
    let (bound, rest) = parse_term_behind(alloc, Kind::Equals, rest)?;
    let (body, rest) = parse_term_behind(alloc, Kind::In, rest)?;
    let term = make_let(alloc, first, binder, bound, body)?;
    Ok((term, rest))
}

/// Parses the rest of a `letrec`, after the keyword, whose span is `first`.
#[cycle(terms)]
fn parse_letrec<'a, 'b>(
    alloc: Global,
    first: Span,
    tokens: &'a [Token<'b>],
) -> Result<(Tm, &'a [Token<'b>]), Stop<'a, 'b>>
    ensures read { (k : InTerm) → Reads result (run tokens.now (need_binder for_letrec first k)) (behind_term k) }
    ensures shorter { IfOk result (λ r. length r.1.now < length tokens.now) }
{
    let ((binder, ty), rest) = parse_typed_binder(alloc, tokens)?;
    let (bound, rest) = parse_term_behind(alloc, Kind::Equals, rest)?;
    let (body, rest) = parse_term_behind(alloc, Kind::In, rest)?;
    let term = make_letrec(alloc, first, binder, ty, bound, body)?;
    Ok((term, rest))
}

/// Parses an application: a path with an optional prefix, and its arguments, which are paths.
#[cycle(terms)]
fn parse_app<'a, 'b>(
    alloc: Global,
    tokens: &'a [Token<'b>],
) -> Result<(Tm, &'a [Token<'b>]), Stop<'a, 'b>>
    ensures read { (k : InTerm) → Reads result (look tokens.now (λ o. begin_app o k)) (behind_term k) }
    ensures shorter { IfOk result (λ r. length r.1.now < length tokens.now) }
{
    let (prefix, rest) = take_prefix(tokens);
    let (path, mut rest) = parse_path(alloc, rest)?;
    let mut head = with_prefix(alloc, prefix, path)?;
    while starts_atom(rest) {
        let (argument, after) = parse_path(alloc, rest)?;
        head = make_apply(alloc, head, argument)?;
        rest = after;
    }
    Ok((head, rest))
}

/// Parses a path: an atom, an optional ascription, and any projections.
#[cycle(terms)]
fn parse_path<'a, 'b>(
    alloc: Global,
    tokens: &'a [Token<'b>],
) -> Result<(Tm, &'a [Token<'b>]), Stop<'a, 'b>>
    ensures read { (k : InPath) → Reads result (look tokens.now (λ o. begin_atom o k)) (behind_path k) }
    ensures shorter { IfOk result (λ r. length r.1.now < length tokens.now) }
{
    let (atom, rest) = parse_atom(alloc, tokens)?;
    parse_suffixes(alloc, atom, rest)
}

/// Parses an atom: a single token, a parenthesized term or a record.
#[cycle(terms)]
#[tactic(auto, using(crate::proofs::Shapes::term_shapes))]
fn parse_atom<'a, 'b>(
    alloc: Global,
    tokens: &'a [Token<'b>],
) -> Result<(Tm, &'a [Token<'b>]), Stop<'a, 'b>>
    ensures read { (k : InPath) → Reads result (look tokens.now (λ o. begin_atom o k)) (behind_atom k) }
    ensures shorter { IfOk result (λ r. length r.1.now < length tokens.now) }
{
    let Some((first, rest)) = tokens.split_first() else {
        return Err(Stop::At(tokens));
    };
    let span = first.span();
    let node = match first.kind() {
        Kind::OpenParen => return parse_parens(alloc, span, rest),
        Kind::OpenBrace => return parse_record(alloc, span, rest),
        Kind::Name => TmNode::Variable(identifier_of(alloc, first)?),
        Kind::Numeral => TmNode::Numeral(identifier_of(alloc, first)?),
        Kind::True => TmNode::True,
        Kind::False => TmNode::False,
        Kind::UnitTerm => TmNode::Unit,
        _ => return Err(Stop::At(tokens)),
    };
    Ok((Tm { span, node }, rest))
}

/// Parses the rest of a parenthesized term, after the opening parenthesis.
#[cycle(terms)]
fn parse_parens<'a, 'b>(
    alloc: Global,
    first: Span,
    tokens: &'a [Token<'b>],
) -> Result<(Tm, &'a [Token<'b>]), Stop<'a, 'b>>
    ensures read { (k : InPath) → Reads result (run tokens.now (need_term (in_parens first k))) (behind_atom k) }
    ensures shorter { IfOk result (λ r. length r.1.now < length tokens.now) }
{
    let (term, rest) = parse_term(alloc, tokens)?;
    let (last, rest) = expect(rest, Kind::CloseParen)?;
    Ok((term.spanning(first, last), rest))
}

/// Parses the rest of a record, after its opening brace.
#[cycle(terms)]
#[tactic(auto, using(crate::proofs::Shapes::term_shapes))]
fn parse_record<'a, 'b>(
    alloc: Global,
    first: Span,
    tokens: &'a [Token<'b>],
) -> Result<(Tm, &'a [Token<'b>]), Stop<'a, 'b>>
    ensures read { (k : InPath) → Reads result (run tokens.now (need_field first k)) (behind_atom k) }
    ensures shorter { IfOk result (λ r. length r.1.now < length tokens.now) }
{
    if let Some((last, rest)) = take(tokens, Kind::CloseBrace) {
        return Ok((make_record(first, last, Vec::new(alloc)), rest));
    }
    let (field, mut rest) = parse_field(alloc, tokens)?;
    let mut fields = Vec::new(alloc);
    fields.push(field)?;
    while let Some((_, next)) = take(rest, Kind::Comma) {
        let (field, after) = parse_field(alloc, next)?;
        fields.push(field)?;
        rest = after;
    }
    let (last, rest) = expect(rest, Kind::CloseBrace)?;
    Ok((make_record(first, last, fields), rest))
}

/// Parses a field of a record: a label, an equals sign and a term.
#[cycle(terms)]
fn parse_field<'a, 'b>(
    alloc: Global,
    tokens: &'a [Token<'b>],
) -> Result<(TmField, &'a [Token<'b>]), Stop<'a, 'b>>
    ensures read { (s : TokenSpan) (before : FieldTrees) (k : InPath) → Reads result (run tokens.now (next_field s before k)) (behind_field s before k) }
    ensures shorter { IfOk result (λ r. length r.1.now < length tokens.now) }
{
    let (label, rest) = expect_name(alloc, tokens)?;
    let (term, rest) = parse_term_behind(alloc, Kind::Equals, rest)?;
    Ok((TmField { label, term }, rest))
}

/// Parses a binder: a name or `_`.
fn parse_binder<'a, 'b>(
    alloc: Global,
    tokens: &'a [Token<'b>],
) -> Result<(Binder, &'a [Token<'b>]), Stop<'a, 'b>>
    ensures read { (p : Purpose) (s : TokenSpan) (k : InTerm) → Reads result (run tokens.now (need_binder p s k)) (behind_binder p s k) }
    ensures shorter { IfOk result (λ r. length r.1.now < length tokens.now) }
{
    let Some((first, rest)) = tokens.split_first() else {
        return Err(Stop::At(tokens));
    };
    let span = first.span();
    match first.kind() {
        Kind::Name => {
            let name = Some(Text::new(alloc, first.text())?);
            Ok((Binder { name, span }, rest))
        }
        Kind::Underscore => Ok((Binder { name: None, span }, rest)),
        _ => Err(Stop::At(tokens)),
    }
}

/// Parses a binder, a colon and a type.
fn parse_typed_binder<'a, 'b>(
    alloc: Global,
    tokens: &'a [Token<'b>],
) -> Result<((Binder, WrittenTy), &'a [Token<'b>]), Stop<'a, 'b>>
    ensures lambda { (s : TokenSpan) (k : InTerm) → Reads result (run tokens.now (need_binder for_lambda s k)) (behind_typed_binder of_lambda s k) }
    ensures letrec { (s : TokenSpan) (k : InTerm) → Reads result (run tokens.now (need_binder for_letrec s k)) (behind_typed_binder of_letrec s k) }
    ensures shorter { IfOk result (λ r. length r.1.now < length tokens.now) }
{
    let (binder, rest) = parse_binder(alloc, tokens)?;
    let (_, rest) = expect(rest, Kind::Colon)?;
    let (ty, rest) = parse_type(alloc, rest)?;
    Ok(((binder, ty), rest))
}

/// Reads the prefix of a path, if there is one, and returns it with the tokens after it.
fn take_prefix<'a, 'b>(tokens: &'a [Token<'b>]) -> (Option<(Prefix, Span)>, &'a [Token<'b>])
    ensures begun { (k : InTerm) → look tokens.now (λ o. begin_app o k) ≡ look result.1.now (λ o. begin_atom o (placed result.0 k)) }
    ensures shorter { length result.1.now ≤ length tokens.now }
{
    let Some((first, rest)) = tokens.split_first() else {
        return (None, tokens);
    };
    let span = first.span();
    match first.kind() {
        Kind::Fix => (Some((Prefix::Fix, span)), rest),
        Kind::Succ => (Some((Prefix::Succ, span)), rest),
        Kind::Pred => (Some((Prefix::Pred, span)), rest),
        Kind::IsZero => (Some((Prefix::IsZero, span)), rest),
        _ => (None, tokens),
    }
}

/// Whether the first token may begin an atom.
fn starts_atom(tokens: &[Token<'_>]) -> bool
    ensures { MatchBool result (Starts tokens.now) (Starts tokens.now → ⊥) }
{
    let Some((first, _)) = tokens.split_first() else {
        return false;
    };
    match first.kind() {
        Kind::OpenParen => true,
        Kind::OpenBrace => true,
        Kind::Name => true,
        Kind::Numeral => true,
        Kind::True => true,
        Kind::False => true,
        Kind::UnitTerm => true,
        _ => false,
    }
}

/// Parses an optional ascription of the atom.
fn parse_ascription<'a, 'b>(
    alloc: Global,
    atom: Tm,
    tokens: &'a [Token<'b>],
) -> Result<(Tm, &'a [Token<'b>]), Stop<'a, 'b>>
    ensures read { (k : InPath) → Reads result (run tokens.now (after_atom (term_of atom) k)) (behind_asc k) }
    ensures shorter { IfOk result (λ r. length r.1.now ≤ length tokens.now) }
{
    let Some((_, rest)) = take(tokens, Kind::As) else {
        return Ok((atom, tokens));
    };
    let (ty, rest) = parse_type(alloc, rest)?;
    let term = make_ascribe(alloc, atom, ty)?;
    Ok((term, rest))
}

/// Parses an optional ascription of the atom and any projections.
fn parse_suffixes<'a, 'b>(
    alloc: Global,
    atom: Tm,
    tokens: &'a [Token<'b>],
) -> Result<(Tm, &'a [Token<'b>]), Stop<'a, 'b>>
    ensures read { (k : InPath) → Reads result (run tokens.now (after_atom (term_of atom) k)) (behind_path k) }
    ensures shorter { IfOk result (λ r. length r.1.now ≤ length tokens.now) }
{
    let (mut path, mut rest) = parse_ascription(alloc, atom, tokens)?;
    while let Some((_, after)) = take(rest, Kind::Dot) {
        let (label, after) = expect_name(alloc, after)?;
        path = make_project(alloc, path, label)?;
        rest = after;
    }
    Ok((path, rest))
}
