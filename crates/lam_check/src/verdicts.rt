//! The results of verifying derivations.
ghost use Rattle.std.specs.Prelude.{◌≡◌, ◌↔◌, ◌++◌, All, IfOk, OnOk, flat_map, map, option_map, string_bytes};
ghost use Rattle.serde_json.specs.View.{view};
ghost use Rattle.lam_query.specs.Views.{StepStandsIn, derivation_of, entry_of, step_of};
ghost use Rattle.lam_check.specs.Readable.{HasReadableTypes};
ghost use Rattle.lam_check.specs.Verdicts.{IsSent, IsVerdict, accepted_line, claim_in, context_text, entry_text, message, next_entry, refused_line, unread_text};
ghost use Rattle.lam_check.specs.Verified.{IsVerifiedValue};
ghost use Rattle.lam_check.specs.declared.read_derivations.Unread.TheVariants.{Memory};
ghost use Rattle.lam_query.specs.Steps.{last_conclusion};

use crate::drawings::claim_of;
use crate::lines::push_shown;
use crate::read_derivations::{Unread, derivation_in};
use crate::read_values::two_members;
use crate::reports::Checked;
use lam_query::answers::{Derivation, FirstFault, Step};
use lam_query::first_fault;
use lam_rules::{Dialect, Ty, plain_text_of};
use lam_text::{Doc, Encoding};
use serde_json::Value;
use std::alloc::{AllocError, Global};

/// Splits a value into the derivation and the name of the file that it is about, if given.
pub fn sent_of(value: &Value) -> (&Value, Option<&str>)
    ensures { IsSent (view value.now) (view result.0.now) (option_map (λ s. s.now) result.1) }
{
    match two_members(value, "derivation", "file") {
        Some((derivation, file)) => (derivation, file.as_str()),
        None => (value, None),
    }
}

/// Verifies that a value is a derivation of a term of the text, with columns in the units of this encoding and with readable types.
/// The report says so, or names the first error.
pub fn verdict(
    alloc: Global,
    name: &str,
    encoding: Encoding,
    text: &str,
    value: &Value,
    dialect: Dialect,
) -> Result<Checked, AllocError>
    ensures accepted { IfOk result (λ verdict. (verdict.count ≡ 0) ↔ ((sent : IsVerifiedValue encoding text.now (view value.now) dialect) × HasReadableTypes sent.derivation)) }
    ensures report { IfOk result (λ verdict. IsVerdict name.now encoding text.now (view value.now) dialect (string_bytes verdict.report) verdict.count) }
{
    let doc = Doc::new(alloc, text, encoding)?;
    let derivation = match derivation_in(alloc, &doc, value) {
        Ok(derivation) => derivation,
        Err(fault) => return refused(alloc, name, &unread_message(alloc, fault)?),
    };
    match first_fault(alloc, text, &derivation, dialect)? {
        None => accepted(alloc, name, text, &derivation),
        Some(fault) => refused(alloc, name, &message_of(alloc, fault)?),
    }
}

/// The message that says why a value cannot be read. `Unread::Memory` has none.
#[tactic(auto, unfolding(crate::specs::Verdicts::unread_text))]
fn unread_message(alloc: Global, fault: Unread) -> Result<String, AllocError>
    ensures not_memory { IfOk result (λ _. fault ≡ Memory → ⊥) }
    ensures text { IfOk result (λ text. string_bytes text ≡ unread_text fault) }
{
    let mut out = String::new(alloc);
    match fault {
        Unread::Derivation => {
            out.push_str(
                "it is not an object with exactly the members `context` and `steps`, both lists",
            )?;
        }
        Unread::Entry(entry) => write!(
            out,
            "entry {entry} is not an object with exactly the members `name`, a string, and `type`"
        )?,
        Unread::EntryType(entry) => write!(
            out,
            "entry {entry} has an unreadable type, or one of over 4,096 levels"
        )?,
        Unread::Step(step) => {
            write!(
                out,
                "step {step} is not an object with exactly the members `from`, `range`, `rule` and `type`, or `from`, `lower`, `rule` and `upper`"
            )?;
        }
        Unread::Rule(step) => write!(out, "step {step} does not name a rule of its kind")?,
        Unread::Type(step) => write!(
            out,
            "step {step} has an unreadable type, or one of over 4,096 levels"
        )?,
        Unread::Range(step) => write!(
            out,
            "step {step} does not have a range of characters of the text"
        )?,
        Unread::From(step) => {
            write!(out, "`from` of step {step} is not a list of step numbers")?;
        }
        Unread::Memory => return Err(AllocError),
    }
    Ok(out)
}

fn refused(alloc: Global, name: &str, message: &str) -> Result<Checked, AllocError>
    ensures count { IfOk result (λ verdict. verdict.count ≡ 1) }
    ensures report { IfOk result (λ verdict. string_bytes verdict.report ≡ refused_line name.now message.now) }
{
    let mut report = String::new(alloc);
    push_shown(&mut report, name)?;
    report.push_str(": ")?;
    report.push_str(message)?;
    report.push_str("\n")?;
    Ok(Checked { report, count: 1 })
}

/// The message of an error in a derivation.
#[tactic(auto, unfolding(crate::specs::Verdicts::message))]
fn message_of(alloc: Global, fault: FirstFault) -> Result<String, AllocError>
    ensures { IfOk result (λ text. string_bytes text ≡ message fault) }
{
    let mut out = String::new(alloc);
    match fault {
        FirstFault::NoStep => out.push_str("it has no steps")?,
        FirstFault::Premises(step) => {
            write!(
                out,
                "the premises of step {step} are not the last steps of the proofs directly before it"
            )?;
        }
        FirstFault::Loose(step) => {
            write!(
                out,
                "the steps do not form one proof of typing that ends in step {step}"
            )?;
        }
        FirstFault::TooLarge => out.push_str("the text has a type of more than 4,096 nodes")?,
        FirstFault::NoTerm(step) => write!(out, "step {step} is not about a term of the text")?,
        FirstFault::Names => {
            out.push_str("the names of the context are not those that the term sees")?;
        }
        FirstFault::Entry(entry) => {
            write!(
                out,
                "entry {entry} of the context does not fit its name in the text"
            )?;
        }
        FirstFault::Step(step) => {
            write!(
                out,
                "step {step} does not follow by its rule from its premises"
            )?;
        }
        FirstFault::Range(step) => {
            write!(out, "step {step} does not have the range of its term")?;
        }
    }
    Ok(out)
}

/// Reports the accepted context, if not empty, and the conclusion of the last step, on one line.
fn accepted(
    alloc: Global,
    name: &str,
    text: &str,
    derivation: &Derivation,
) -> Result<Checked, AllocError>
    requires { All (StepStandsIn text.now) derivation.now.steps.items }
    ensures count { IfOk result (λ verdict. verdict.count ≡ 0) }
    ensures report { IfOk result (λ verdict. string_bytes verdict.report ≡ accepted_line name.now text.now (derivation_of derivation.now)) }
{
    let mut said = String::new(alloc);
    push_context(alloc, &mut said, &derivation.context)?;
    push_claim(alloc, &mut said, text, &derivation.steps)?;
    let mut report = String::new(alloc);
    push_shown(&mut report, name)?;
    report.push_str(": accepted: ")?;
    push_shown(&mut report, &said)?;
    report.push_str("\n")?;
    Ok(Checked { report, count: 0 })
}

/// Writes the conclusion of the last step.
fn push_claim(alloc: Global, out: &mut String, text: &str, steps: &[Step]) -> Result<(), AllocError>
    requires { All (StepStandsIn text.now) steps.now }
    ensures { OnOk result (string_bytes out.new ≡ string_bytes out.old ++ claim_in text.now (last_conclusion (map step_of steps.now))) }
{
    match steps.last() {
        Some(last) => {
            let claim = claim_of(alloc, text, last)?;
            out.push_str(&claim)?;
            Ok(())
        }
        None => Ok(()),
    }
}

/// Writes a context before its conclusion, as in `x:Nat, y |- `.
fn push_context(
    alloc: Global,
    out: &mut String,
    context: &[(String, Option<Ty>)],
) -> Result<(), AllocError>
    ensures { OnOk result (string_bytes out.new ≡ string_bytes out.old ++ context_text (map entry_of context.now)) }
{
    let Some((first, others)) = context.split_first() else {
        return Ok(());
    };
    push_entry(alloc, out, first)?;
    push_others(alloc, out, others)?;
    out.push_str(" |- ")
}

fn push_others(
    alloc: Global,
    out: &mut String,
    entries: &[(String, Option<Ty>)],
) -> Result<(), AllocError>
    ensures { OnOk result (string_bytes out.new ≡ string_bytes out.old ++ flat_map next_entry (map entry_of entries.now)) }
{
    for entry in entries {
        push_next(alloc, out, entry)?;
    }
    Ok(())
}

fn push_next(
    alloc: Global,
    out: &mut String,
    entry: &(String, Option<Ty>),
) -> Result<(), AllocError>
    ensures { OnOk result (string_bytes out.new ≡ string_bytes out.old ++ next_entry (entry_of entry.now)) }
{
    out.push_str(", ")?;
    push_entry(alloc, out, entry)
}

fn push_entry(
    alloc: Global,
    out: &mut String,
    entry: &(String, Option<Ty>),
) -> Result<(), AllocError>
    ensures { OnOk result (string_bytes out.new ≡ string_bytes out.old ++ entry_text (entry_of entry.now)) }
{
    out.push_str(&entry.0)?;
    let Some(ty) = &entry.1 else {
        return Ok(());
    };
    out.push_str(":")?;
    out.push_str(&plain_text_of(alloc, ty)?)
}
