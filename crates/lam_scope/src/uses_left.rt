//! The uses that a walk over the commands has not reached yet.
ghost use Rattle.std.specs.Prelude.{◌≡◌, map};
ghost use Rattle.lam_syntax.specs.Views.{type_of, type_fields_of};
ghost use Rattle.lam_scope.specs.Indexed.{first_between, past_first, past_type, past_type_fields};
ghost use Rattle.lam_scope.specs.TableViews.{text_use};

use crate::rows::UseRow;
use lam_syntax::{TyField, TyNode, WrittenTy};
use std::marker::Model;

/// The uses left, in text order. Contracts see them as a list.
#[derive(Drop)]
pub(crate) struct UsesLeft<'a> {
    rows: &'a [UseRow],
}

impl<'a> Model for UsesLeft<'a> {
    ghost use Rattle.std.specs.Prelude.{List, map};
    ghost use Rattle.lam_scope.specs.Tables.{TextUse};
    ghost use Rattle.lam_scope.specs.TableViews.{text_use};

    ghost Value = { List TextUse };

    ghost view = { λ u. map text_use u.rows.now };
}

impl<'a> UsesLeft<'a> {
    /// All of these uses are left.
    pub(crate) fn new(rows: &'a [UseRow]) -> UsesLeft<'a>
        ensures { result ≡ map text_use rows.now }
    {
        UsesLeft { rows }
    }

    /// Consumes the first use and returns its de Bruijn index, or `None` if it is unbound.
    pub(crate) fn pass(&mut self) -> Option<usize>
        ensures between { result ≡ first_between self.old }
        ensures left { self.new ≡ past_first self.old }
    {
        let (row, behind) = self.rows.split_first()?;
        self.rows = behind;
        let bound = row.bound?;
        Some(bound.between)
    }
}

/// Consumes the uses of type names in a written type.
#[cycle(pass_type)]
#[tactic(auto, using(crate::proofs::IndexedForms::passing))]
pub(crate) fn pass_type(uses: &mut UsesLeft<'_>, ty: &WrittenTy)
    ensures { uses.new ≡ past_type (type_of ty.now) uses.old }
{
    match &ty.node {
        TyNode::Bool => {}
        TyNode::Nat => {}
        TyNode::Unit => {}
        TyNode::Top => {}
        TyNode::Named(_) => {
            uses.pass();
        }
        TyNode::Arrow(arrow) => {
            pass_type(uses, &arrow.parameter);
            pass_type(uses, &arrow.outcome);
        }
        TyNode::Record(fields) => pass_type_fields(uses, fields),
    }
}

#[cycle(pass_type)]
#[tactic(auto, using(crate::proofs::IndexedForms::passing))]
fn pass_type_fields(uses: &mut UsesLeft<'_>, fields: &[TyField])
    ensures { uses.new ≡ past_type_fields (type_fields_of fields.now) uses.old }
{
    for i in 0..fields.len() {
        let field = &fields[i];
        pass_type(uses, &field.ty);
    }
}
