//! Derivations read back from JSON values.
ghost use Rattle.std.specs.Prelude.{◌≡◌, ◌≢◌, ◌≤◌, ℕ, List, Option, map, All, IfOk, IfSome, IfNone};
ghost use Rattle.std.specs.Str.{IsUtf8};
ghost use Rattle.serde_json.specs.Data.{null, string};
ghost use Rattle.serde_json.specs.View.{view};
ghost use Rattle.lam_rules.specs.ReadableLabels.{HasReadableLabels};
ghost use Rattle.lam_rules.specs.Types.{Typ, nodes};
ghost use Rattle.lam_rules.specs.TypeViews.{typ_of};
ghost use Rattle.lam_rules.specs.TermViews.{written_of};
ghost use Rattle.lam_rules.specs.Texts.{plain_text};
ghost use Rattle.lam_rules.specs.Rules.{name_of_sub_rule, name_of_type_rule};
ghost use Rattle.lam_text.specs.Positions.{position_of};
ghost use Rattle.lam_text.specs.declared.units.Encoding.{Encoding};
ghost use Rattle.lam_query.specs.Views.{derivation_of, entry_of, step_of};
ghost use Rattle.lam_query.specs.Derivations.{Derivation as DerivationTree};
ghost use Rattle.lam_session.specs.Derivations.{derivation_value, entry_value, premises_value, step_value, type_value};
ghost use Rattle.lam_session.specs.Ranges.{position_value, range_value};
ghost use Rattle.lam_check.specs.Readable.{HasNamesAsLabels, IsReadable, IsReadableConclusion, IsReadableOffset, IsReadableSpan, IsReadableType, depth};
ghost use Rattle.lam_check.specs.Unreadable.{AreNoPremises, IsReadableEntry, IsFirstWrong, IsNoReadableRange, IsNoSubRule, IsNoReadableType, IsNoTypeRule, IsReadableStep, IsWrongEntry, IsWrongFor, IsWrongStep, IsWrongSubtyping, IsWrongTyping, subtyping_members, typing_members};
ghost use Rattle.lam_check.specs.declared.read_derivations.Unread.{Unread};
ghost use Rattle.lam_check.specs.declared.read_derivations.Unread.TheVariants.{Memory};
ghost use Rattle.lam_check.specs.inner.Read.{IfUnread, number_value};

use crate::plain_types::type_of_text;
use crate::positions::offset_at;
use crate::read_values::{four_members, two_members};
use lam_query::answers::{Derivation, Step};
use lam_rules::{SubRule, Ty, TypeRule};
use lam_text::{Doc, Position};
use lam_token::Span;
use serde_json::Value;
use std::alloc::{AllocError, AllocFailed, Global};

/// Why a value cannot be read as a derivation of a text. Entries and steps are counted from 0.
#[derive(Clone, Copy, Debug, PartialEq, Eq)]
pub enum Unread {
    /// The value is not an object with exactly the members `context` and `steps`, both lists.
    Derivation,
    /// This entry of the context is not an object with exactly the members `name`, a string, and `type`.
    Entry(usize),
    /// The type of this entry is neither null nor the text of a readable type.
    EntryType(usize),
    /// This step is not an object with exactly the members of a typing or of a subtyping step.
    Step(usize),
    /// The rule of this step is not the name of a typing rule or, in a subtyping step, of a subtyping rule.
    Rule(usize),
    /// A type in this step is not the text of a readable type.
    Type(usize),
    /// The range of this step is not that of a readable span of the text.
    Range(usize),
    /// The premises of this step are not a list of natural numbers.
    From(usize),
    /// An allocation failed.
    Memory,
}

impl From<AllocError> for Unread {
    ghost from_gives = { λ _ fault. fault ≡ Memory };

    fn from(_refused: AllocError) -> Unread {
        Unread::Memory
    }
}

impl<T: Drop> From<AllocFailed<T>> for Unread {
    ghost from_gives = { λ _ fault. fault ≡ Memory };

    fn from(_refused: AllocFailed<T>) -> Unread {
        Unread::Memory
    }
}

/// Reads a value as a derivation of the text. The error is about the first entry of the context, or else the first step, that
/// cannot be read.
pub fn derivation_in(alloc: Global, doc: &Doc, value: &Value) -> Result<Derivation, Unread>
    requires { IsUtf8 doc.now.text }
    ensures read { IfOk result (λ d. view value.now ≡ derivation_value doc.now.encoding doc.now.text (Some (derivation_of d))) }
    ensures readable { IfOk result (λ d. IsReadable doc.now.text (derivation_of d)) }
    ensures unread { IfUnread result (IsWrongFor doc.now.encoding doc.now.text (view value.now)) }
{
    let Some((context, steps)) = two_members(value, "context", "steps") else {
        return Err(Unread::Derivation);
    };
    let Some(context) = context.as_array() else {
        return Err(Unread::Derivation);
    };
    let Some(steps) = steps.as_array() else {
        return Err(Unread::Derivation);
    };
    let context = context_in(alloc, context)?;
    let steps = steps_in(alloc, doc, steps)?;
    Ok(Derivation { context, steps })
}

/// A value is that of at most one readable derivation of a text.
pub fn one_derivation(text: &str)
    ensures { (encoding : Encoding) (one other : DerivationTree) → IsReadable text.now one → IsReadable text.now other
        → derivation_value encoding text.now (Some one) ≡ derivation_value encoding text.now (Some other) → one ≡ other }
{}

/// A type whose labels are names of the language is readable unless it has more than 4,096 levels, and so more than 4,096 nodes.
pub fn language_types()
    ensures labels { (t : Typ) → HasNamesAsLabels t → HasReadableLabels t }
    ensures levels { (t : Typ) → depth t ≤ nodes t }
{}

fn context_in(alloc: Global, values: &[Value]) -> Result<Vec<(String, Option<Ty>)>, Unread>
    ensures read { IfOk result (λ context. map view values.now ≡ map entry_value (map entry_of context.items)) }
    ensures readable { IfOk result (λ context. All (λ e. IfSome e.type IsReadableType) (map entry_of context.items)) }
    ensures unread { IfUnread result (IsFirstWrong IsReadableEntry IsWrongEntry (map view values.now)) }
{
    let mut context = Vec::new(alloc);
    for i in 0..values.len() {
        let value = &values[i];
        let entry = entry_in(alloc, i, value)?;
        context.push(entry)?;
    }
    Ok(context)
}

/// Reads the context entry with this index.
fn entry_in(alloc: Global, number: usize, value: &Value) -> Result<(String, Option<Ty>), Unread>
    ensures read { IfOk result (λ entry. view value.now ≡ entry_value (entry_of entry)) }
    ensures readable { IfOk result (λ entry. IfSome (entry_of entry).type IsReadableType) }
    ensures unread { IfUnread result (IsWrongEntry (view value.now) number) }
{
    let Some((name, ty)) = two_members(value, "name", "type") else {
        return Err(Unread::Entry(number));
    };
    let Some(name) = name.as_str() else {
        return Err(Unread::Entry(number));
    };
    let ty = entry_type_in(alloc, number, ty)?;
    let name = String::from_str(alloc, name)?;
    Ok((name, ty))
}

/// Reads the type of the context entry with this index; `None` if it has no type.
fn entry_type_in(alloc: Global, number: usize, value: &Value) -> Result<Option<Ty>, Unread>
    ensures read { IfOk result (λ ty. view value.now ≡ type_value (written_of ty)) }
    ensures readable { IfOk result (λ ty. IfSome (written_of ty) IsReadableType) }
    ensures unread { IfUnread result (λ reason. (reason ≡ Unread.EntryType number) × (view value.now ≢ null) × IsNoReadableType (view value.now)) }
{
    if value.is_null() {
        return Ok(None);
    }
    match type_in(alloc, value)? {
        Some(ty) => Ok(Some(ty)),
        None => Err(Unread::EntryType(number)),
    }
}

/// Reads a value as the text of a type.
fn type_in(alloc: Global, value: &Value) -> Result<Option<Ty>, AllocError>
    ensures some { IfOk result (λ found. IfSome found (λ ty. view value.now ≡ string (plain_text (typ_of ty)))) }
    ensures readable { IfOk result (λ found. IfSome found (λ ty. IsReadableType (typ_of ty))) }
    ensures none { IfOk result (λ found. IfNone found (IsNoReadableType (view value.now))) }
{
    match value.as_str() {
        Some(text) => type_of_text(alloc, text),
        None => Ok(None),
    }
}

fn steps_in(alloc: Global, doc: &Doc, values: &[Value]) -> Result<Vec<Step>, Unread>
    requires { IsUtf8 doc.now.text }
    ensures read { IfOk result (λ steps. map view values.now ≡ map (step_value doc.now.encoding doc.now.text) (map step_of steps.items)) }
    ensures readable { IfOk result (λ steps. All (λ s. IsReadableConclusion doc.now.text s.conclusion) (map step_of steps.items)) }
    ensures unread { IfUnread result (IsFirstWrong (IsReadableStep doc.now.encoding doc.now.text) (IsWrongStep doc.now.encoding doc.now.text) (map view values.now)) }
{
    let mut steps = Vec::new(alloc);
    for i in 0..values.len() {
        let value = &values[i];
        let step = step_in(alloc, doc, i, value)?;
        steps.push(step)?;
    }
    Ok(steps)
}

/// Reads the step with this index.
fn step_in(alloc: Global, doc: &Doc, number: usize, value: &Value) -> Result<Step, Unread>
    requires { IsUtf8 doc.now.text }
    ensures read { IfOk result (λ step. view value.now ≡ step_value doc.now.encoding doc.now.text (step_of step)) }
    ensures readable { IfOk result (λ step. IsReadableConclusion doc.now.text (step_of step).conclusion) }
    ensures unread { IfUnread result (IsWrongStep doc.now.encoding doc.now.text (view value.now) number) }
{
    if let Some((from, range, rule, ty)) = four_members(value, "from", "range", "rule", "type") {
        return typing_in(alloc, doc, number, from, range, rule, ty);
    }
    let Some((from, lower, rule, upper)) = four_members(value, "from", "lower", "rule", "upper")
    else {
        return Err(Unread::Step(number));
    };
    subtyping_in(alloc, number, from, lower, rule, upper)
}

/// Reads a typing step from its members.
fn typing_in(
    alloc: Global,
    doc: &Doc,
    number: usize,
    from: &Value,
    range: &Value,
    rule: &Value,
    ty: &Value,
) -> Result<Step, Unread>
    requires { IsUtf8 doc.now.text }
    ensures read { IfOk result (λ step. typing_members (view from.now) (view range.now) (view rule.now) (view ty.now) ≡ step_value doc.now.encoding doc.now.text (step_of step)) }
    ensures readable { IfOk result (λ step. IsReadableConclusion doc.now.text (step_of step).conclusion) }
    ensures unread { IfUnread result (IsWrongTyping doc.now.encoding doc.now.text (view from.now) (view range.now) (view rule.now) (view ty.now) number) }
{
    let Some(rule) = type_rule_in(rule) else {
        return Err(Unread::Rule(number));
    };
    let premises = premises_in(alloc, number, from)?;
    let Some(span) = span_in(doc, range) else {
        return Err(Unread::Range(number));
    };
    let ty = step_type_in(alloc, number, ty)?;
    Ok(Step::Typing {
        rule,
        span,
        ty,
        premises,
    })
}

/// Reads a subtyping step from its members.
fn subtyping_in(
    alloc: Global,
    number: usize,
    from: &Value,
    lower: &Value,
    rule: &Value,
    upper: &Value,
) -> Result<Step, Unread>
    ensures read { IfOk result (λ step. (encoding : Encoding) (text : List ℕ)
        → subtyping_members (view from.now) (view lower.now) (view rule.now) (view upper.now) ≡ step_value encoding text (step_of step)) }
    ensures readable { (text : List ℕ) → IfOk result (λ step. IsReadableConclusion text (step_of step).conclusion) }
    ensures unread { IfUnread result (IsWrongSubtyping (view from.now) (view lower.now) (view rule.now) (view upper.now) number) }
{
    let Some(rule) = sub_rule_in(rule) else {
        return Err(Unread::Rule(number));
    };
    let premises = premises_in(alloc, number, from)?;
    let lower = step_type_in(alloc, number, lower)?;
    let upper = step_type_in(alloc, number, upper)?;
    Ok(Step::Sub {
        rule,
        lower,
        upper,
        premises,
    })
}

/// Reads a type in the step with this index.
fn step_type_in(alloc: Global, number: usize, value: &Value) -> Result<Ty, Unread>
    ensures read { IfOk result (λ ty. view value.now ≡ string (plain_text (typ_of ty))) }
    ensures readable { IfOk result (λ ty. IsReadableType (typ_of ty)) }
    ensures unread { IfUnread result (λ reason. (reason ≡ Unread.Type number) × IsNoReadableType (view value.now)) }
{
    match type_in(alloc, value)? {
        Some(ty) => Ok(ty),
        None => Err(Unread::Type(number)),
    }
}

/// Reads the indices of the premises of the step with this index.
fn premises_in(alloc: Global, number: usize, value: &Value) -> Result<Vec<usize>, Unread>
    ensures read { IfOk result (λ numbers. view value.now ≡ premises_value numbers.items) }
    ensures unread { IfUnread result (λ reason. (reason ≡ Unread.From number) × AreNoPremises (view value.now)) }
{
    match value.as_array() {
        Some(values) => numbers_in(alloc, number, values),
        None => Err(Unread::From(number)),
    }
}

fn numbers_in(alloc: Global, number: usize, values: &[Value]) -> Result<Vec<usize>, Unread>
    ensures read { IfOk result (λ numbers. map view values.now ≡ map number_value numbers.items) }
    ensures unread { IfUnread result (λ reason. (reason ≡ Unread.From number) × ((numbers : List ℕ) → map view values.now ≢ map number_value numbers)) }
{
    let mut numbers = Vec::new(alloc);
    for i in 0..values.len() {
        let value = &values[i];
        let Some(premise) = value.as_u64() else {
            return Err(Unread::From(number));
        };
        numbers.push(premise as usize)?;
    }
    Ok(numbers)
}

/// Reads a range as a span of the text.
fn span_in(doc: &Doc, value: &Value) -> Option<Span>
    requires { IsUtf8 doc.now.text }
    ensures some { IfSome result (λ span. view value.now ≡ range_value doc.now.encoding doc.now.text span) }
    ensures readable { IfSome result (IsReadableSpan doc.now.text) }
    ensures none { IfNone result (IsNoReadableRange doc.now.encoding doc.now.text (view value.now)) }
{
    let Some((end, start)) = two_members(value, "end", "start") else {
        return None;
    };
    let end = offset_in(doc, end)?;
    let start = offset_in(doc, start)?;
    Some(Span { start, end })
}

/// Reads a position as an offset.
fn offset_in(doc: &Doc, value: &Value) -> Option<usize>
    requires { IsUtf8 doc.now.text }
    ensures some { IfSome result (λ offset. view value.now ≡ position_value (position_of doc.now.encoding doc.now.text offset)) }
    ensures readable { IfSome result (IsReadableOffset doc.now.text) }
    ensures none { IfNone result ((offset : ℕ) → IsReadableOffset doc.now.text offset → view value.now ≡ position_value (position_of doc.now.encoding doc.now.text offset) → ⊥) }
{
    let position = position_in(value)?;
    offset_at(doc, position)
}

fn position_in(value: &Value) -> Option<Position>
    ensures some { IfSome result (λ position. view value.now ≡ position_value position) }
    ensures none { IfNone result ((position : Position) → view value.now ≡ position_value position → ⊥) }
{
    let Some((character, line)) = two_members(value, "character", "line") else {
        return None;
    };
    let line = line.as_u64()?;
    let character = character.as_u64()?;
    Some(Position { line, character })
}

/// Reads the name of a typing rule.
fn type_rule_in(value: &Value) -> Option<TypeRule>
    ensures some { IfSome result (λ rule. view value.now ≡ string (name_of_type_rule rule)) }
    ensures none { IfNone result (IsNoTypeRule (view value.now)) }
{
    match value.as_str() {
        Some(name) => type_rule_named(name),
        None => None,
    }
}

fn type_rule_named(name: &str) -> Option<TypeRule>
    ensures some { IfSome result (λ rule. name.now ≡ name_of_type_rule rule) }
    ensures none { IfNone result ((rule : TypeRule) → name.now ≡ name_of_type_rule rule → ⊥) }
{
    match name {
        "T-True" => Some(TypeRule::True),
        "T-False" => Some(TypeRule::False),
        "T-If" => Some(TypeRule::If),
        "T-Num" => Some(TypeRule::Num),
        "T-Succ" => Some(TypeRule::Succ),
        "T-Pred" => Some(TypeRule::Pred),
        "T-IsZero" => Some(TypeRule::IsZero),
        "T-Var" => Some(TypeRule::Var),
        "T-Abs" => Some(TypeRule::Abs),
        "T-App" => Some(TypeRule::App),
        "T-Unit" => Some(TypeRule::Unit),
        "T-Ascribe" => Some(TypeRule::Ascribe),
        "T-Let" => Some(TypeRule::Let),
        "T-Rcd" => Some(TypeRule::Rcd),
        "T-Proj" => Some(TypeRule::Proj),
        "T-Fix" => Some(TypeRule::Fix),
        "T-Sub" => Some(TypeRule::Sub),
        _ => None,
    }
}

/// Reads the name of a subtyping rule.
fn sub_rule_in(value: &Value) -> Option<SubRule>
    ensures some { IfSome result (λ rule. view value.now ≡ string (name_of_sub_rule rule)) }
    ensures none { IfNone result (IsNoSubRule (view value.now)) }
{
    match value.as_str() {
        Some(name) => sub_rule_named(name),
        None => None,
    }
}

fn sub_rule_named(name: &str) -> Option<SubRule>
    ensures some { IfSome result (λ rule. name.now ≡ name_of_sub_rule rule) }
    ensures none { IfNone result ((rule : SubRule) → name.now ≡ name_of_sub_rule rule → ⊥) }
{
    match name {
        "S-Refl" => Some(SubRule::Refl),
        "S-Trans" => Some(SubRule::Trans),
        "S-Top" => Some(SubRule::Top),
        "S-Arrow" => Some(SubRule::Arrow),
        "S-RcdWidth" => Some(SubRule::RcdWidth),
        "S-RcdDepth" => Some(SubRule::RcdDepth),
        "S-RcdPerm" => Some(SubRule::RcdPerm),
        "S-BoolNat" => Some(SubRule::BoolNat),
        _ => None,
    }
}
