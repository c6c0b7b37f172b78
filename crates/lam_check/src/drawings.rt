//! Derivations drawn as trees.
ghost use Rattle.std.specs.Prelude.{◌≡◌, ◌+◌, ◌*◌, ◌^◌, ◌<◌, ◌≤◌, ◌++◌, ℕ, All, IfOk, IfSome, OnOk, length, map, option_map, replicate, string_bytes};
ghost use Rattle.std.specs.List.{repeat};
ghost use Rattle.lam_query.specs.Steps.{Proof, Proofs, steps_of, steps_before, number_of_steps, last_steps};
ghost use Rattle.lam_query.specs.Views.{step_of, derivation_of, StepStandsIn};
ghost use Rattle.lam_check.specs.Drawings.{claim_text, rule_text, before, behind, html_head, latex_claim, drawn, drawn_each, IsDerivedAt, IsDrawnAt, latex_step, arity, axiom_text, pack_text};
ghost use Rattle.lam_check.specs.Terms.{first_role};
ghost use Rattle.lam_query.specs.Verified.{IsVerified};
ghost use Rattle.lam_check.specs.inner.Drawing.{Stands, AllStand};
ghost use Rattle.lam_check.specs.inner.Roles.{RoleStandsIn};

use crate::forms::{Form, Markup, push_written};
use crate::positions::offset_at;
use crate::terms::{Role, first_role, push_shown_term};
use lam_query::answers::{Derivation, Step};
use lam_query::derivation;
use lam_rules::{Dialect, plain_text_of};
use lam_text::{Doc, Encoding, Position};
use std::alloc::{AllocError, Global};

/// Draws a derivation of the type of the innermost term around a position, each step once; `None` where no type is shown, or the
/// text has no such position. Columns count characters.
pub fn drawing(
    alloc: Global,
    text: &str,
    place: Position,
    dialect: Dialect,
    form: Form,
) -> Result<Option<String>, AllocError>
    ensures { IfOk result (λ found. IsDrawnAt form text.now place (option_map (λ s. string_bytes s) found) dialect) }
{
    let Some(derived) = derivation_at(alloc, text, place, dialect)? else {
        return Ok(None);
    };
    let picture = Picture {
        alloc,
        form,
        text,
        steps: &derived.steps,
    };
    let mut out = String::new(alloc);
    out.push_str(form.head())?;
    picture.push_proof(&mut out)?;
    out.push_str(form.tail())?;
    Ok(Some(out))
}

/// Returns a derivation of the type of the innermost term around a position; `None` where no type is shown, or the text has no
/// such position. Columns count characters.
pub fn derivation_at(
    alloc: Global,
    text: &str,
    place: Position,
    dialect: Dialect,
) -> Result<Option<Derivation>, AllocError>
    ensures derived { IfOk result (λ found. IsDerivedAt text.now place (option_map derivation_of found) dialect) }
    ensures whole_characters { IfOk result (λ found. IfSome found (λ d. All (StepStandsIn text.now) d.steps.items)) }
    ensures verified { IfOk result (λ found. IfSome found (λ x. IsVerified text.now (derivation_of x) dialect)) }
{
    let doc = Doc::new(alloc, text, Encoding::Utf32)?;
    let Some(offset) = offset_at(&doc, place) else {
        return Ok(None);
    };
    derivation(alloc, text, offset, dialect)
}

/// A proof to be drawn: its steps, the text that they are about, and the form of the drawing.
#[derive(Drop)]
struct Picture<'a> {
    alloc: Global,
    form: Form,
    text: &'a str,
    steps: &'a [Step],
}

impl Picture<'_> {
    /// Draws the proof.
    fn push_proof(&self, out: &mut String) -> Result<(), AllocError>
        requires { All (StepStandsIn self.now.text.now) self.now.steps.now }
        ensures { OnOk result ((p : Proof) → map step_of self.now.steps.now ≡ steps_of 0 p → string_bytes out.new ≡ string_bytes out.old ++ drawn self.now.form self.now.text.now 0 Role.Other p) }
    {
        if self.steps.is_empty() {
            return Ok(());
        }
        self.push_tree(out, self.steps.len() - 1, 0, Role::Other)
    }

    /// Draws the proof that ends in the step with this index, about a term with this role.
    #[cycle(tree)]
    fn push_tree(
        &self,
        out: &mut String,
        number: usize,
        depth: usize,
        role: Role,
    ) -> Result<(), AllocError>
        requires inside { number < length self.now.steps.now }
        requires deep { depth + number < 2 ^ 62 }
        requires whole_characters { All (StepStandsIn self.now.text.now) self.now.steps.now }
        requires role { RoleStandsIn self.now.text.now role }
        ensures { OnOk result ((start : ℕ) (p : Proof) → Stands (map step_of self.now.steps.now) start p → number ≡ start + steps_before p
            → string_bytes out.new ≡ string_bytes out.old ++ drawn self.now.form self.now.text.now depth role p) }
    {
        let steps = self.steps;
        let step = &steps[number];
        let premises = premises_of(step);
        let first = first_role(role, step);
        self.push_before(out, step, depth, role)?;
        self.push_trees(out, premises, number, depth + 1, first)?;
        self.push_behind(out, step, premises.len(), role)
    }

    /// Draws the proofs that end in the steps with these indices, all less than `end`; the first one is about a term with
    /// this role.
    #[cycle(tree)]
    fn push_trees(
        &self,
        out: &mut String,
        numbers: &[usize],
        end: usize,
        depth: usize,
        first: Role,
    ) -> Result<(), AllocError>
        requires inside { end ≤ length self.now.steps.now }
        requires deep { depth + end ≤ 2 ^ 62 }
        requires whole_characters { All (StepStandsIn self.now.text.now) self.now.steps.now }
        requires role { RoleStandsIn self.now.text.now first }
        ensures { OnOk result ((start : ℕ) (ps : Proofs) → AllStand (map step_of self.now.steps.now) start ps → numbers.now ≡ last_steps start ps → start + number_of_steps ps ≤ end
            → string_bytes out.new ≡ string_bytes out.old ++ drawn_each self.now.form self.now.text.now depth first ps) }
    {
        let mut role = first;
        for i in 0..numbers.len() {
            let number = numbers[i];
            if number < end {
                self.push_tree(out, number, depth, role)?;
            }
            role = Role::Other;
        }
        Ok(())
    }

    /// Writes what comes before the premises of a step.
    fn push_before(
        &self,
        out: &mut String,
        step: &Step,
        depth: usize,
        role: Role,
    ) -> Result<(), AllocError>
        requires deep { 2 * depth < 2 ^ 64 }
        requires whole_characters { StepStandsIn self.now.text.now step.now }
        requires role { RoleStandsIn self.now.text.now role }
        ensures { OnOk result (string_bytes out.new ≡ string_bytes out.old ++ before self.now.form self.now.text.now depth role (step_of step.now).conclusion) }
    {
        match self.form {
            Form::Text => {
                push_indent(out, 2 * depth)?;
                out.push_str(&claim_as(self.alloc, self.text, step, role)?)?;
                out.push_str("  (")?;
                out.push_str(rule_of(step))?;
                out.push_str(")\n")
            }
            Form::Html => self.push_html_head(out, step, role),
            Form::Latex => Ok(()),
        }
    }

    /// Writes the opening of a collapsible section.
    fn push_html_head(&self, out: &mut String, step: &Step, role: Role) -> Result<(), AllocError>
        requires whole_characters { StepStandsIn self.now.text.now step.now }
        requires role { RoleStandsIn self.now.text.now role }
        ensures { OnOk result (string_bytes out.new ≡ string_bytes out.old ++ html_head self.now.text.now role (step_of step.now).conclusion) }
    {
        out.push_str(Markup::HtmlOpen.text())?;
        let claim = claim_as(self.alloc, self.text, step, role)?;
        push_written(out, Form::Html, &claim)?;
        out.push_str(Markup::HtmlRule.text())?;
        out.push_str(rule_of(step))?;
        out.push_str(Markup::HtmlLine.text())
    }

    /// Writes what comes after the premises.
    fn push_behind(
        &self,
        out: &mut String,
        step: &Step,
        count: usize,
        role: Role,
    ) -> Result<(), AllocError>
        requires whole_characters { StepStandsIn self.now.text.now step.now }
        requires role { RoleStandsIn self.now.text.now role }
        ensures { OnOk result (string_bytes out.new ≡ string_bytes out.old ++ behind self.now.form self.now.text.now count role (step_of step.now).conclusion) }
    {
        match self.form {
            Form::Text => Ok(()),
            Form::Html => out.push_str(Markup::HtmlEnd.text()),
            Form::Latex => self.push_latex_step(out, step, count, role),
        }
    }

    fn push_latex_step(
        &self,
        out: &mut String,
        step: &Step,
        count: usize,
        role: Role,
    ) -> Result<(), AllocError>
        requires whole_characters { StepStandsIn self.now.text.now step.now }
        requires role { RoleStandsIn self.now.text.now role }
        ensures { OnOk result (string_bytes out.new ≡ string_bytes out.old ++ latex_step self.now.text.now count role (step_of step.now).conclusion) }
    {
        push_axiom(out, count)?;
        let packs = count.saturating_sub(2) / 4;
        push_packs(out, packs)?;
        self.push_latex_claim(out, step, count - 4 * packs, role)
    }

    /// Writes the conclusion of a step with this many premises, with the name of its rule next to the line.
    fn push_latex_claim(
        &self,
        out: &mut String,
        step: &Step,
        count: usize,
        role: Role,
    ) -> Result<(), AllocError>
        requires whole_characters { StepStandsIn self.now.text.now step.now }
        requires role { RoleStandsIn self.now.text.now role }
        ensures { OnOk result (string_bytes out.new ≡ string_bytes out.old ++ latex_claim self.now.text.now count role (step_of step.now).conclusion) }
    {
        out.push_str(Markup::LatexRule.text())?;
        out.push_str(rule_of(step))?;
        out.push_str(Markup::LatexLine.text())?;
        out.push_str(arity(count))?;
        out.push_str(Markup::LatexTerm.text())?;
        let claim = claim_as(self.alloc, self.text, step, role)?;
        push_written(out, Form::Latex, &claim)?;
        out.push_str(Markup::LatexEnd.text())
    }
}

fn premises_of(step: &Step) -> &[usize]
    ensures { result.now ≡ (step_of step.now).premises }
{
    match step {
        Step::Typing { premises, .. } => premises,
        Step::Sub { premises, .. } => premises,
    }
}

fn push_indent(out: &mut String, count: usize) -> Result<(), AllocError>
    ensures { OnOk result (string_bytes out.new ≡ string_bytes out.old ++ replicate count 32) }
{
    for i in 0..count {
        out.push(' ')?;
    }
    Ok(())
}

/// Writes an empty premise for a step that has none.
fn push_axiom(out: &mut String, count: usize) -> Result<(), AllocError>
    ensures { OnOk result (string_bytes out.new ≡ string_bytes out.old ++ axiom_text count) }
{
    if count == 0 {
        return out.push_str(Markup::LatexAxiom.text());
    }
    Ok(())
}

/// Writes the command that combines five premises into one, this many times.
fn push_packs(out: &mut String, count: usize) -> Result<(), AllocError>
    ensures { OnOk result (string_bytes out.new ≡ string_bytes out.old ++ repeat count pack_text) }
{
    for i in 0..count {
        out.push_str(Markup::LatexPack.text())?;
    }
    Ok(())
}

/// The prefix of the bussproofs command for a step with this many premises.
fn arity(count: usize) -> &'static str
    ensures { result.now ≡ arity count }
{
    match count {
        2 => "Binary",
        3 => "Trinary",
        4 => "Quaternary",
        5 => "Quinary",
        _ => "Unary",
    }
}

/// Returns the conclusion of a step as text, with its term as it is written.
pub fn claim_of(alloc: Global, text: &str, step: &Step) -> Result<String, AllocError>
    requires { StepStandsIn text.now step.now }
    ensures { IfOk result (λ claim. string_bytes claim ≡ claim_text text.now Role.Other (step_of step.now).conclusion) }
{
    claim_as(alloc, text, step, Role::Other)
}

/// Returns the conclusion of a step about a term with this role as text.
fn claim_as(alloc: Global, text: &str, step: &Step, role: Role) -> Result<String, AllocError>
    requires whole_characters { StepStandsIn text.now step.now }
    requires role { RoleStandsIn text.now role }
    ensures { IfOk result (λ claim. string_bytes claim ≡ claim_text text.now role (step_of step.now).conclusion) }
{
    let mut claim = String::new(alloc);
    match step {
        Step::Typing { span, ty, .. } => {
            push_shown_term(alloc, &mut claim, text, role, *span)?;
            claim.push_str(" : ")?;
            claim.push_str(&plain_text_of(alloc, ty)?)?;
        }
        Step::Sub { lower, upper, .. } => {
            claim.push_str(&plain_text_of(alloc, lower)?)?;
            claim.push_str(" <: ")?;
            claim.push_str(&plain_text_of(alloc, upper)?)?;
        }
    }
    Ok(claim)
}

/// The name of the rule of a step.
fn rule_of(step: &Step) -> &'static str
    ensures { result.now ≡ rule_text (step_of step.now).conclusion }
{
    match step {
        Step::Typing { rule, .. } => rule.name(),
        Step::Sub { rule, .. } => rule.name(),
    }
}
