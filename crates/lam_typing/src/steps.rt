//! Applies each typing rule to the types of a term's parts, as type ids (TAPL chapter 16: no rule of subsumption, a join at
//! `if`). A part without a type has no id, and neither has a term whose rule fails.

ghost use Rattle.std.specs.Prelude.{◌≡◌, IfOk, IfSome, IfNone, List, length};
ghost use Rattle.lam_rules.specs.Types.{Typ, arrow, bool, nat};
ghost use Rattle.lam_rules.specs.TermViews.{written_of};
ghost use Rattle.lam_rules.specs.Typing.{IsWellFormedEntry};
ghost use Rattle.lam_rules.specs.Numbers.{type_of, Stands, IsNumberOf, Keeps, AreEarlier, fields_over};
ghost use Rattle.lam_sub.specs.Remembered.{AreRight};
ghost use Rattle.lam_typing.specs.Answers.{answer, StandsWhereFound};
ghost use Rattle.lam_typing.specs.Progress.{if_all};
ghost use Rattle.lam_typing.specs.inner.Steps.{NatRule, LambdaRule, ApplyRule, AscribeRule, LetRule, IfRule, FixRule, ProjectRule, RecordRule};

use lam_lattice::join_no;
use lam_rules::{Shape, Ty, TyNo, TyTable, labels_differ};
use lam_sub::{Verdicts, is_sub_no};
use std::alloc::AllocError;

/// Returns the two sides of an arrow.
fn sides(table: &TyTable, number: TyNo) -> Option<(TyNo, TyNo)>
    requires { Stands table.now number }
    ensures stand { IfSome result (λ found. Stands table.now found.0 × Stands table.now found.1) }
    ensures some { IfSome result (λ found. type_of table.now number ≡ arrow (type_of table.now found.0) (type_of table.now found.1)) }
    ensures none { IfNone result ((s t : Typ) → type_of table.now number ≡ arrow s t → ⊥) }
{
    match table.shape(number) {
        Shape::Arrow(parameter, outcome) => Some((*parameter, *outcome)),
        _ => None,
    }
}

/// Returns the type id of a written type, if it stands for a type.
pub(crate) fn number_of_written(
    table: &mut TyTable,
    written: &Option<Ty>,
) -> Result<Option<TyNo>, AllocError>
    requires wf { IsWellFormedEntry (written_of written.now) }
    ensures keeps { Keeps table.old table.new }
    ensures stands { IfOk result (λ entry. StandsWhereFound table.new entry) }
    ensures entry { IfOk result (λ entry. answer table.new entry ≡ written_of written.now) }
{
    match written {
        Some(ty) => {
            let number = table.add(ty)?;
            Ok(Some(number))
        }
        None => Ok(None),
    }
}

/// T-Succ, T-Pred and T-IsZero: an operand below Nat.
pub(crate) fn type_of_numeric(
    table: &TyTable,
    verdicts: &mut Verdicts,
    operand: Option<TyNo>,
    nat_number: TyNo,
    outcome: TyNo,
) -> Result<Option<TyNo>, AllocError>
    requires operand { StandsWhereFound table.now operand }
    requires nat_number { IsNumberOf table.now nat_number nat }
    requires outcome { Stands table.now outcome }
    requires right { AreRight table.now verdicts.old }
    ensures dialect { verdicts.new.dialect ≡ verdicts.old.dialect }
    ensures right { AreRight table.now verdicts.new }
    ensures stands { IfOk result (λ found. StandsWhereFound table.now found) }
    ensures rule { IfOk result (λ found. NatRule (type_of table.now outcome) (answer table.now operand) (answer table.now found) verdicts.old.dialect) }
{
    let Some(number) = operand else {
        return Ok(None);
    };
    if is_sub_no(table, verdicts, number, nat_number)? {
        Ok(Some(outcome))
    } else {
        Ok(None)
    }
}

/// T-Abs.
pub(crate) fn type_of_lambda(
    table: &mut TyTable,
    written: Option<TyNo>,
    body: Option<TyNo>,
) -> Result<Option<TyNo>, AllocError>
    requires written { StandsWhereFound table.old written }
    requires body { StandsWhereFound table.old body }
    ensures keeps { Keeps table.old table.new }
    ensures stands { IfOk result (λ found. StandsWhereFound table.new found) }
    ensures rule { IfOk result (λ found. LambdaRule (answer table.old written) (answer table.old body) (answer table.new found)) }
{
    let Some(parameter) = written else {
        return Ok(None);
    };
    let Some(outcome) = body else {
        return Ok(None);
    };
    let number = table.arrow(parameter, outcome)?;
    Ok(Some(number))
}

/// T-App: an argument below the parameter.
pub(crate) fn type_of_apply(
    table: &TyTable,
    verdicts: &mut Verdicts,
    function: Option<TyNo>,
    argument: Option<TyNo>,
) -> Result<Option<TyNo>, AllocError>
    requires function { StandsWhereFound table.now function }
    requires argument { StandsWhereFound table.now argument }
    requires right { AreRight table.now verdicts.old }
    ensures dialect { verdicts.new.dialect ≡ verdicts.old.dialect }
    ensures right { AreRight table.now verdicts.new }
    ensures stands { IfOk result (λ found. StandsWhereFound table.now found) }
    ensures rule { IfOk result (λ found. ApplyRule (answer table.now function) (answer table.now argument) (answer table.now found) verdicts.old.dialect) }
{
    let Some(function_number) = function else {
        return Ok(None);
    };
    let Some(argument_number) = argument else {
        return Ok(None);
    };
    let Some((parameter, outcome)) = sides(table, function_number) else {
        return Ok(None);
    };
    if is_sub_no(table, verdicts, argument_number, parameter)? {
        Ok(Some(outcome))
    } else {
        Ok(None)
    }
}

/// T-Ascribe: a term below the ascribed type.
pub(crate) fn type_of_ascribe(
    table: &TyTable,
    verdicts: &mut Verdicts,
    written: Option<TyNo>,
    operand: Option<TyNo>,
) -> Result<Option<TyNo>, AllocError>
    requires written { StandsWhereFound table.now written }
    requires operand { StandsWhereFound table.now operand }
    requires right { AreRight table.now verdicts.old }
    ensures dialect { verdicts.new.dialect ≡ verdicts.old.dialect }
    ensures right { AreRight table.now verdicts.new }
    ensures stands { IfOk result (λ found. StandsWhereFound table.now found) }
    ensures rule { IfOk result (λ found. AscribeRule (answer table.now written) (answer table.now operand) (answer table.now found) verdicts.old.dialect) }
{
    let Some(written_number) = written else {
        return Ok(None);
    };
    let Some(number) = operand else {
        return Ok(None);
    };
    if is_sub_no(table, verdicts, number, written_number)? {
        Ok(Some(written_number))
    } else {
        Ok(None)
    }
}

/// T-Let.
pub(crate) fn type_of_let(bound: Option<TyNo>, body: Option<TyNo>) -> Option<TyNo>
    ensures { (ts : List Typ) → (StandsWhereFound ts body → StandsWhereFound ts result) × LetRule (answer ts bound) (answer ts body) (answer ts result) }
{
    match bound {
        Some(_) => body,
        None => None,
    }
}

/// T-If: a condition below Bool, and the join of the branches.
pub(crate) fn type_of_if(
    table: &mut TyTable,
    verdicts: &mut Verdicts,
    condition: Option<TyNo>,
    then_term: Option<TyNo>,
    else_term: Option<TyNo>,
    bool_number: TyNo,
) -> Result<Option<TyNo>, AllocError>
    requires condition { StandsWhereFound table.old condition }
    requires then_term { StandsWhereFound table.old then_term }
    requires else_term { StandsWhereFound table.old else_term }
    requires bool_number { IsNumberOf table.old bool_number bool }
    requires right { AreRight table.old verdicts.old }
    ensures keeps { Keeps table.old table.new }
    ensures dialect { verdicts.new.dialect ≡ verdicts.old.dialect }
    ensures right { AreRight table.new verdicts.new }
    ensures stands { IfOk result (λ found. StandsWhereFound table.new found) }
    ensures rule { IfOk result (λ found. IfRule (answer table.old condition) (answer table.old then_term) (answer table.old else_term) (answer table.new found) verdicts.old.dialect) }
{
    let Some(condition_number) = condition else {
        return Ok(None);
    };
    let Some(then_number) = then_term else {
        return Ok(None);
    };
    let Some(else_number) = else_term else {
        return Ok(None);
    };
    if !is_sub_no(table, verdicts, condition_number, bool_number)? {
        return Ok(None);
    }
    let number = join_no(table, verdicts, then_number, else_number)?;
    Ok(Some(number))
}

/// T-Fix: a function whose result is below its parameter.
pub(crate) fn type_of_fix(
    table: &TyTable,
    verdicts: &mut Verdicts,
    operand: Option<TyNo>,
) -> Result<Option<TyNo>, AllocError>
    requires operand { StandsWhereFound table.now operand }
    requires right { AreRight table.now verdicts.old }
    ensures dialect { verdicts.new.dialect ≡ verdicts.old.dialect }
    ensures right { AreRight table.now verdicts.new }
    ensures stands { IfOk result (λ found. StandsWhereFound table.now found) }
    ensures rule { IfOk result (λ found. FixRule (answer table.now operand) (answer table.now found) verdicts.old.dialect) }
{
    let Some(number) = operand else {
        return Ok(None);
    };
    let Some((parameter, outcome)) = sides(table, number) else {
        return Ok(None);
    };
    if is_sub_no(table, verdicts, outcome, parameter)? {
        Ok(Some(outcome))
    } else {
        Ok(None)
    }
}

/// T-Proj.
pub(crate) fn type_of_project(table: &TyTable, operand: Option<TyNo>, label: &str) -> Option<TyNo>
    requires { StandsWhereFound table.now operand }
    ensures stands { StandsWhereFound table.now result }
    ensures rule { ProjectRule label.now (answer table.now operand) (answer table.now result) }
{
    let Some(number) = operand else {
        return None;
    };
    let Some(found) = table.field(number, label) else {
        return None;
    };
    Some(found)
}

/// T-Rcd: every term has a type, and no label is repeated.
pub(crate) fn type_of_record(
    table: &mut TyTable,
    all: bool,
    fields: Vec<(String, TyNo)>,
) -> Result<Option<TyNo>, AllocError>
    requires { AreEarlier (length table.old) fields.items }
    ensures keeps { Keeps table.old table.new }
    ensures stands { IfOk result (λ found. StandsWhereFound table.new found) }
    ensures rule { IfOk result (λ found. RecordRule (if_all all (fields_over table.old fields.items)) (answer table.new found)) }
{
    if !all {
        return Ok(None);
    }
    if !labels_differ(&fields) {
        return Ok(None);
    }
    let number = table.intern(Shape::Record(fields))?;
    // The types of the table have distinct labels: the rule wants the new one well formed.
    table.types_differ();
    Ok(Some(number))
}
