//! The texts of terms in a drawing. The terms that a `letrec` is short for are shown in full.
ghost use Rattle.std.specs.Prelude.{◌≡◌, ◌+◌, ◌<◌, ◌++◌, ◌^◌, ◌==◌, IfOk, OnOk, chars, encode_utf8_all, map, option_map, string_bytes};
ghost use Rattle.std.specs.List.{before_first, after_first};
ghost use Rattle.std.specs.Option.{option_copied};
ghost use Rattle.lam_query.specs.Views.{step_of};
ghost use Rattle.lam_query.specs.Within.{IsSpanOfText};
ghost use Rattle.lam_check.specs.Terms.{flat, term_text, is_opening, is_closing, next_before, next_depth, outside, kept, uncommented, header, binder_behind, binder_in, binder_of, opening, closing, shown_term, under_fix, role_under, first_role};
ghost use Rattle.lam_check.specs.inner.Roles.{RoleStandsIn};

use lam_query::answers::Step;
use lam_rules::TypeRule;
use lam_token::Span;
use std::alloc::{AllocError, Global};

/// What a term is to the `let` or `letrec` with this span.
#[derive(Clone, Copy, Debug, PartialEq, Eq)]
pub enum Role {
    /// Neither of the others.
    Other,
    /// The term that is bound: in a `letrec` a derived `fix`.
    Bound(Span),
    /// The term that a bound `fix` is applied to: in a `letrec` a derived `lambda`.
    Fixed(Span),
}

impl Role {
    /// What comes before the binder.
    fn opening(self) -> &'static str
        ensures { result.now ≡ opening self }
    {
        match self {
            Role::Other => "",
            Role::Bound(_) => "fix (lambda ",
            Role::Fixed(_) => "lambda ",
        }
    }

    /// What comes after the term.
    fn closing(self) -> &'static str
        ensures { result.now ≡ closing self }
    {
        match self {
            Role::Other => "",
            Role::Bound(_) => ")",
            Role::Fixed(_) => "",
        }
    }

    /// The role of the term that a `fix` with this role is applied to.
    fn under_fix(self) -> Role
        ensures { result ≡ under_fix self }
    {
        match self {
            Role::Other => Role::Other,
            Role::Bound(whole) => Role::Fixed(whole),
            Role::Fixed(_) => Role::Other,
        }
    }

    /// The role of the term of the first premise of a step by this rule, about a term with this span and this role.
    fn under(self, rule: TypeRule, span: Span) -> Role
        ensures { result ≡ role_under rule span self }
    {
        match rule {
            TypeRule::Let => Role::Bound(span),
            TypeRule::Sub => self,
            TypeRule::Fix => self.under_fix(),
            _ => Role::Other,
        }
    }
}

/// The role of the term of the first premise of a step about a term with this role.
pub fn first_role(role: Role, step: &Step) -> Role
    ensures { result ≡ first_role role (step_of step.now).conclusion }
{
    match step {
        Step::Typing { rule, span, .. } => role.under(*rule, *span),
        Step::Sub { .. } => Role::Other,
    }
}

/// Appends the term with this role at a span, on one line.
pub fn push_shown_term(
    alloc: Global,
    out: &mut String,
    text: &str,
    role: Role,
    span: Span,
) -> Result<(), AllocError>
    requires term { IsSpanOfText text.now span }
    requires role { RoleStandsIn text.now role }
    ensures { OnOk result (string_bytes out.new ≡ string_bytes out.old ++ shown_term text.now role span) }
{
    let Some(binder) = binder_of(alloc, text, role, span)? else {
        return push_term(out, text, span);
    };
    out.push_str(role.opening())?;
    out.push_str(&binder)?;
    out.push_str(". ")?;
    push_term(out, text, span)?;
    out.push_str(role.closing())
}

/// Returns the `x:T` of the `letrec` whose derived term has this role and this span.
fn binder_of(
    alloc: Global,
    text: &str,
    role: Role,
    span: Span,
) -> Result<Option<String>, AllocError>
    requires term { IsSpanOfText text.now span }
    requires role { RoleStandsIn text.now role }
    ensures { IfOk result (λ found. option_map (λ s. string_bytes s) found ≡ binder_of text.now role span) }
{
    match role {
        Role::Other => Ok(None),
        Role::Bound(whole) => binder_between(alloc, text, whole, span),
        Role::Fixed(whole) => binder_between(alloc, text, whole, span),
    }
}

/// Returns the `x:T` of a `letrec` with this span and a first term with this span.
fn binder_between(
    alloc: Global,
    text: &str,
    whole: Span,
    first: Span,
) -> Result<Option<String>, AllocError>
    requires whole { IsSpanOfText text.now whole }
    requires first { IsSpanOfText text.now first }
    ensures { IfOk result (λ found. option_map (λ s. string_bytes s) found ≡ binder_in (header text.now whole first)) }
{
    let header = header(alloc, text, whole, first)?;
    let Some(binder) = binder_in(&header) else {
        return Ok(None);
    };
    Ok(Some(String::from_str(alloc, binder)?))
}

/// Returns the text of a `let` or `letrec` with this span up to its first term, on one line and without comments.
fn header(alloc: Global, text: &str, whole: Span, first: Span) -> Result<String, AllocError>
    requires whole { IsSpanOfText text.now whole }
    requires first { IsSpanOfText text.now first }
    ensures { IfOk result (λ found. string_bytes found ≡ header text.now whole first) }
{
    if first.start < whole.start {
        return Ok(String::new(alloc));
    }
    uncommented(alloc, &text[whole.start..first.start])
}

fn binder_in(header: &str) -> Option<&str>
    ensures { option_copied result ≡ binder_in header.now }
{
    let (_, rest) = around(header, 'l');
    binder_behind(rest)
}

/// Returns the `x:T` of a `letrec`, from the text after its first letter; `None` for a `let`.
fn binder_behind(rest: &str) -> Option<&str>
    ensures { option_copied result ≡ binder_behind rest.now }
{
    let (word, rest) = around(rest, 'c');
    if word != "etre" {
        return None;
    }
    let (binder, _) = around(rest, '=');
    Some(binder.trim())
}

/// Splits a text at the first such character; without one, all is before it.
fn around(text: &str, mark: char) -> (&str, &str)
    requires { mark < 128 }
    ensures before { result.0.now ≡ before_first (λ b. b == mark) text.now }
    ensures after { result.1.now ≡ after_first (λ b. b == mark) text.now }
{
    match text.split_once(mark) {
        Some(parts) => parts,
        None => (text, ""),
    }
}

/// Returns a text without its comments, on one line.
fn uncommented(alloc: Global, text: &str) -> Result<String, AllocError>
    ensures { IfOk result (λ found. string_bytes found ≡ uncommented 0 32 (chars text.now)) }
{
    let mut out = String::new(alloc);
    let mut depth: usize = 0;
    let mut before = ' ';
    for c in text.chars() {
        push_kept(&mut out, depth, before, c)?;
        depth = next_depth(depth, before, c);
        before = next_before(before, c);
    }
    Ok(out)
}

/// Appends what is kept of a character when this many comments are open.
fn push_kept(out: &mut String, depth: usize, before: char, c: char) -> Result<(), AllocError>
    ensures { OnOk result (string_bytes out.new ≡ string_bytes out.old ++ kept depth before c) }
{
    if is_opening(before, c) || is_closing(before, c) || depth > 0 {
        return Ok(());
    }
    out.push(outside(c))
}

/// A character outside of comments, on one line.
fn outside(c: char) -> char
    ensures { result ≡ outside c }
{
    if c == '/' { ' ' } else { flat(c) }
}

/// The number of comments that are open after a character.
fn next_depth(depth: usize, before: char, c: char) -> usize
    requires { depth + 1 < 2 ^ 64 }
    ensures { result ≡ next_depth depth before c }
{
    if is_opening(before, c) {
        return depth + 1;
    }
    if is_closing(before, c) {
        return depth.saturating_sub(1);
    }
    depth
}

/// The previous character for the next one, or a blank if it was part of a mark.
fn next_before(before: char, c: char) -> char
    ensures { result ≡ next_before before c }
{
    if is_opening(before, c) || is_closing(before, c) {
        ' '
    } else {
        c
    }
}

/// Whether two adjacent characters open a comment.
fn is_opening(before: char, c: char) -> bool
    ensures { result ≡ is_opening before c }
{
    before == '/' && c == '*'
}

/// Whether two adjacent characters close a comment.
fn is_closing(before: char, c: char) -> bool
    ensures { result ≡ is_closing before c }
{
    before == '*' && c == '/'
}

/// Appends the term at a span as it is written, on one line.
fn push_term(out: &mut String, text: &str, span: Span) -> Result<(), AllocError>
    requires { IsSpanOfText text.now span }
    ensures { OnOk result (string_bytes out.new ≡ string_bytes out.old ++ term_text text.now span) }
{
    if span.end < span.start {
        return Ok(());
    }
    push_flat(out, &text[span.start..span.end])
}

fn push_flat(out: &mut String, line: &str) -> Result<(), AllocError>
    ensures { OnOk result (string_bytes out.new ≡ string_bytes out.old ++ encode_utf8_all (map flat (chars line.now))) }
{
    for c in line.chars() {
        out.push(flat(c))?;
    }
    Ok(())
}

fn flat(c: char) -> char
    ensures { result ≡ flat c }
{
    if c.is_control() { ' ' } else { c }
}
