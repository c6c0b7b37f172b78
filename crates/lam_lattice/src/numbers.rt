//! Joins and meets of types in a table, by simultaneous recursion on both types. Results are memoized by pairs of ids, so
//! shared types are processed only once.

ghost use Rattle.std.specs.Prelude.{◌≡◌, List, String, length, IfOk, IfSome, IfNone};
ghost use Rattle.std.specs.declared.alloc.Global.{Global};
ghost use Rattle.lam_rules.specs.Types.{record_of};
ghost use Rattle.lam_rules.specs.Numbers.{type_of, Stands, Keeps, fields_over, AreEarlier};
ghost use Rattle.lam_rules.specs.declared.numbers.TyNo.{TyNo};
ghost use Rattle.lam_sub.specs.Remembered.{AreRight};
ghost use Rattle.lam_lattice.specs.inner.Bounds.{IsJoin, IsMeet, HaveNoMeet, JoinsInOrder, MeetsInOrder};
ghost use Rattle.lam_lattice.specs.inner.Matches.{AreMatches, AreMatchesBelow};
ghost use Rattle.lam_lattice.specs.inner.Records.{AreUnlike, OrderlyJoins, OrderlyMeets, AreJoined, AreMet};

use crate::matching::{Match, matched, others};
use lam_rules::{Shape, TyNo, TyTable};
use lam_sub::{Verdicts, is_sub_no};
use std::alloc::AllocError;

/// Returns the id of the least common supertype of two types.
#[cycle(bounds)]
pub fn join_no(
    table: &mut TyTable,
    verdicts: &mut Verdicts,
    left: TyNo,
    right: TyNo,
) -> Result<TyNo, AllocError>
    requires left { Stands table.old left }
    requires right { Stands table.old right }
    requires verdicts_right { AreRight table.old verdicts.old }
    ensures keeps { Keeps table.old table.new }
    ensures dialect { verdicts.new.dialect ≡ verdicts.old.dialect }
    ensures verdicts_right { AreRight table.new verdicts.new }
    ensures stands { IfOk result (λ number. Stands table.new number) }
    ensures join { IfOk result (λ number. IsJoin (type_of table.old left) (type_of table.old right) (type_of table.new number) verdicts.old.dialect) }
    ensures order { IfOk result (λ number. JoinsInOrder (type_of table.old left) (type_of table.old right) (type_of table.new number)) }
{
    // The types of a table have distinct labels, so each is a subtype of itself.
    table.types_differ();
    if left.index == right.index {
        return Ok(left);
    }
    if let Some(known) = verdicts.known_join(left, right) {
        return Ok(known);
    }
    let number = join_by_shape(table, verdicts, left, right)?;
    verdicts.keep_join(left, right, number)?;
    Ok(number)
}

#[cycle(bounds)]
fn join_by_shape(
    table: &mut TyTable,
    verdicts: &mut Verdicts,
    left: TyNo,
    right: TyNo,
) -> Result<TyNo, AllocError>
    requires left { Stands table.old left }
    requires right { Stands table.old right }
    requires verdicts_right { AreRight table.old verdicts.old }
    ensures keeps { Keeps table.old table.new }
    ensures dialect { verdicts.new.dialect ≡ verdicts.old.dialect }
    ensures verdicts_right { AreRight table.new verdicts.new }
    ensures stands { IfOk result (λ number. Stands table.new number) }
    ensures join { IfOk result (λ number. IsJoin (type_of table.old left) (type_of table.old right) (type_of table.new number) verdicts.old.dialect) }
    ensures order { IfOk result (λ number. JoinsInOrder (type_of table.old left) (type_of table.old right) (type_of table.new number)) }
{
    match table.shape(left) {
        &Shape::Arrow(left_parameter, left_outcome) => {
            let &Shape::Arrow(right_parameter, right_outcome) = table.shape(right) else {
                return join_unlike(table, verdicts, left, right);
            };
            let Some(parameter) = meet_no(table, verdicts, left_parameter, right_parameter)? else {
                return table.intern(Shape::Top);
            };
            let outcome = join_no(table, verdicts, left_outcome, right_outcome)?;
            table.arrow(parameter, outcome)
        }
        Shape::Record(left_fields) => {
            let Shape::Record(right_fields) = table.shape(right) else {
                return join_unlike(table, verdicts, left, right);
            };
            let matches = matched(verdicts.alloc, left_fields, right_fields)?;
            let items = join_fields(table, verdicts, &matches)?;
            table.intern(Shape::Record(items))
        }
        _ => join_unlike(table, verdicts, left, right),
    }
}

/// The fields whose labels both types have, with the joins of their types.
#[cycle(bounds)]
fn join_fields(
    table: &mut TyTable,
    verdicts: &mut Verdicts,
    matches: &[Match],
) -> Result<Vec<(String, TyNo)>, AllocError>
    requires stand { AreMatchesBelow (length table.old) matches.now }
    requires verdicts_right { AreRight table.old verdicts.old }
    ensures keeps { Keeps table.old table.new }
    ensures dialect { verdicts.new.dialect ≡ verdicts.old.dialect }
    ensures verdicts_right { AreRight table.new verdicts.new }
    ensures stand { IfOk result (λ made. AreEarlier (length table.new) made.items) }
    ensures joined { IfOk result (λ made. (left right : List (String Global × TyNo)) → AreMatches right left matches.now → AreJoined (OrderlyJoins verdicts.old.dialect) (fields_over table.old right) (fields_over table.old left) (fields_over table.new made.items)) }
{
    let mut made = Vec::new(verdicts.alloc);
    for i in 0..matches.len() {
        let field = &matches[i];
        let Some(right) = field.right else {
            continue;
        };
        let number = join_no(table, verdicts, field.left, right)?;
        let label = field.label.clone()?;
        made.push((label, number))?;
    }
    Ok(made)
}

/// The join of two types that are not both arrows or both records: one that is a supertype of the other, or else Top.
fn join_unlike(
    table: &mut TyTable,
    verdicts: &mut Verdicts,
    left: TyNo,
    right: TyNo,
) -> Result<TyNo, AllocError>
    requires left { Stands table.old left }
    requires right { Stands table.old right }
    requires verdicts_right { AreRight table.old verdicts.old }
    requires unlike { AreUnlike (type_of table.old left) (type_of table.old right) }
    ensures keeps { Keeps table.old table.new }
    ensures dialect { verdicts.new.dialect ≡ verdicts.old.dialect }
    ensures verdicts_right { AreRight table.new verdicts.new }
    ensures stands { IfOk result (λ number. Stands table.new number) }
    ensures join { IfOk result (λ number. IsJoin (type_of table.old left) (type_of table.old right) (type_of table.new number) verdicts.old.dialect) }
    ensures order { IfOk result (λ number. JoinsInOrder (type_of table.old left) (type_of table.old right) (type_of table.new number)) }
{
    if is_sub_no(table, verdicts, left, right)? {
        return Ok(right);
    }
    if is_sub_no(table, verdicts, right, left)? {
        return Ok(left);
    }
    table.types_differ();
    table.intern(Shape::Top)
}

/// Returns the id of the greatest common subtype of two types, or `None` if no type is a subtype of both.
#[cycle(bounds)]
pub fn meet_no(
    table: &mut TyTable,
    verdicts: &mut Verdicts,
    left: TyNo,
    right: TyNo,
) -> Result<Option<TyNo>, AllocError>
    requires left { Stands table.old left }
    requires right { Stands table.old right }
    requires verdicts_right { AreRight table.old verdicts.old }
    ensures keeps { Keeps table.old table.new }
    ensures dialect { verdicts.new.dialect ≡ verdicts.old.dialect }
    ensures verdicts_right { AreRight table.new verdicts.new }
    ensures stands { IfOk result (λ found. IfSome found (λ number. Stands table.new number)) }
    ensures some { IfOk result (λ found. IfSome found (λ number. IsMeet (type_of table.old left) (type_of table.old right) (type_of table.new number) verdicts.old.dialect)) }
    ensures order { IfOk result (λ found. IfSome found (λ number. MeetsInOrder (type_of table.old left) (type_of table.old right) (type_of table.new number))) }
    ensures none { IfOk result (λ found. IfNone found (HaveNoMeet (type_of table.old left) (type_of table.old right) verdicts.old.dialect)) }
{
    table.types_differ();
    if left.index == right.index {
        return Ok(Some(left));
    }
    if let Some(known) = verdicts.known_meet(left, right) {
        return Ok(known);
    }
    let found = meet_by_shape(table, verdicts, left, right)?;
    verdicts.keep_meet(left, right, found)?;
    Ok(found)
}

#[cycle(bounds)]
fn meet_by_shape(
    table: &mut TyTable,
    verdicts: &mut Verdicts,
    left: TyNo,
    right: TyNo,
) -> Result<Option<TyNo>, AllocError>
    requires left { Stands table.old left }
    requires right { Stands table.old right }
    requires verdicts_right { AreRight table.old verdicts.old }
    ensures keeps { Keeps table.old table.new }
    ensures dialect { verdicts.new.dialect ≡ verdicts.old.dialect }
    ensures verdicts_right { AreRight table.new verdicts.new }
    ensures stands { IfOk result (λ found. IfSome found (λ number. Stands table.new number)) }
    ensures some { IfOk result (λ found. IfSome found (λ number. IsMeet (type_of table.old left) (type_of table.old right) (type_of table.new number) verdicts.old.dialect)) }
    ensures order { IfOk result (λ found. IfSome found (λ number. MeetsInOrder (type_of table.old left) (type_of table.old right) (type_of table.new number))) }
    ensures none { IfOk result (λ found. IfNone found (HaveNoMeet (type_of table.old left) (type_of table.old right) verdicts.old.dialect)) }
{
    match table.shape(left) {
        &Shape::Arrow(left_parameter, left_outcome) => {
            let &Shape::Arrow(right_parameter, right_outcome) = table.shape(right) else {
                return meet_unlike(table, verdicts, left, right);
            };
            let Some(outcome) = meet_no(table, verdicts, left_outcome, right_outcome)? else {
                return Ok(None);
            };
            let parameter = join_no(table, verdicts, left_parameter, right_parameter)?;
            let number = table.arrow(parameter, outcome)?;
            Ok(Some(number))
        }
        Shape::Record(left_fields) => {
            let Shape::Record(right_fields) = table.shape(right) else {
                return meet_unlike(table, verdicts, left, right);
            };
            let matches = matched(verdicts.alloc, left_fields, right_fields)?;
            let mut more = others(verdicts.alloc, left_fields, right_fields)?;
            let Some(met) = meet_fields(table, verdicts, &matches)? else {
                return Ok(None);
            };
            let mut items = met;
            items.append(&mut more)?;
            let number = table.intern(Shape::Record(items))?;
            Ok(Some(number))
        }
        _ => meet_unlike(table, verdicts, left, right),
    }
}

/// The fields of the first type, with the meets of their types where the second has the label too, or `None` if one of
/// these meets does not exist.
#[cycle(bounds)]
fn meet_fields(
    table: &mut TyTable,
    verdicts: &mut Verdicts,
    matches: &[Match],
) -> Result<Option<Vec<(String, TyNo)>>, AllocError>
    requires stand { AreMatchesBelow (length table.old) matches.now }
    requires verdicts_right { AreRight table.old verdicts.old }
    ensures keeps { Keeps table.old table.new }
    ensures dialect { verdicts.new.dialect ≡ verdicts.old.dialect }
    ensures verdicts_right { AreRight table.new verdicts.new }
    ensures stand { IfOk result (λ found. IfSome found (λ made. AreEarlier (length table.new) made.items)) }
    ensures some { IfOk result (λ found. IfSome found (λ made. (left right : List (String Global × TyNo)) → AreMatches right left matches.now → AreMet (OrderlyMeets verdicts.old.dialect) (fields_over table.old right) (fields_over table.old left) (fields_over table.new made.items))) }
    ensures none { IfOk result (λ found. IfNone found ((left right : List (String Global × TyNo)) → AreMatches right left matches.now → HaveNoMeet (record_of (fields_over table.old left)) (record_of (fields_over table.old right)) verdicts.old.dialect)) }
{
    let mut made = Vec::new(verdicts.alloc);
    for i in 0..matches.len() {
        let field = &matches[i];
        let label = field.label.clone()?;
        let Some(right) = field.right else {
            made.push((label, field.left))?;
            continue;
        };
        let Some(number) = meet_no(table, verdicts, field.left, right)? else {
            return Ok(None);
        };
        made.push((label, number))?;
    }
    Ok(Some(made))
}

/// The meet of two types that are not both arrows or both records: one that is a subtype of the other, if any.
fn meet_unlike(
    table: &TyTable,
    verdicts: &mut Verdicts,
    left: TyNo,
    right: TyNo,
) -> Result<Option<TyNo>, AllocError>
    requires left { Stands table.now left }
    requires right { Stands table.now right }
    requires verdicts_right { AreRight table.now verdicts.old }
    requires unlike { AreUnlike (type_of table.now left) (type_of table.now right) }
    ensures dialect { verdicts.new.dialect ≡ verdicts.old.dialect }
    ensures verdicts_right { AreRight table.now verdicts.new }
    ensures stands { IfOk result (λ found. IfSome found (λ number. Stands table.now number)) }
    ensures some { IfOk result (λ found. IfSome found (λ number. IsMeet (type_of table.now left) (type_of table.now right) (type_of table.now number) verdicts.old.dialect)) }
    ensures order { IfOk result (λ found. IfSome found (λ number. MeetsInOrder (type_of table.now left) (type_of table.now right) (type_of table.now number))) }
    ensures none { IfOk result (λ found. IfNone found (HaveNoMeet (type_of table.now left) (type_of table.now right) verdicts.old.dialect)) }
{
    table.types_differ();
    if is_sub_no(table, verdicts, left, right)? {
        return Ok(Some(left));
    }
    if is_sub_no(table, verdicts, right, left)? {
        return Ok(Some(right));
    }
    Ok(None)
}
