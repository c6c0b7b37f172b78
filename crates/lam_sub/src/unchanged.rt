//! Whether a step of subtyping changes a record type, told by its labels and premises, without a comparison of types.

ghost use Rattle.std.specs.Prelude.{◌↔◌, IsTrue};
ghost use Rattle.lam_rules.specs.SubViews.{sub_trees_of};
ghost use Rattle.lam_rules.specs.TypeViews.{fields_of};
ghost use Rattle.lam_sub.specs.inner.Unchanged.{AreByRefl, HaveSameLabels};

use lam_rules::{SubProof, SubRule, Ty};

/// Whether two lists of fields have equal labels in the same order.
pub(crate) fn have_same_labels(left: &[(String, Ty)], right: &[(String, Ty)]) -> bool
    ensures { IsTrue result ↔ HaveSameLabels (fields_of left.now) (fields_of right.now) }
{
    if left.len() != right.len() {
        return false;
    }
    for i in 0..left.len() {
        let field = &left[i];
        let other = &right[i];
        if field.0.as_str() != other.0.as_str() {
            return false;
        }
    }
    true
}

/// Whether the last step of each proof is by S-Refl.
pub(crate) fn are_by_refl(proofs: &[SubProof]) -> bool
    ensures { IsTrue result ↔ AreByRefl (sub_trees_of proofs.now) }
{
    for proof in proofs {
        if proof.rule != SubRule::Refl {
            return false;
        }
    }
    true
}
