//! Properties of all types, stated as contracts of functions that do nothing.

ghost use Rattle.std.specs.Prelude.{◌≡◌, ◌↔◌, Option};
ghost use Rattle.lam_rules.specs.Types.{Typ, IsWellFormed, nodes};
ghost use Rattle.lam_rules.specs.Texts.{text};
ghost use Rattle.lam_rules.specs.ReadableLabels.{HasReadableLabels};
ghost use Rattle.lam_rules.specs.Subtyping.{AreSubProofs, IsBelow, IsSubProof, SubTree, SubTrees, sub_step};
ghost use Rattle.lam_rules.specs.SubSteps.{IsSubStep};
ghost use Rattle.lam_rules.specs.Terms.{Term};
ghost use Rattle.lam_rules.specs.Typing.{Context, IsTyping, IsWellFormedContext, TypingTrees, typing_step};
ghost use Rattle.lam_rules.specs.TypingSteps.{AreTypings, IsSideProof, IsTypingStep, first_type, subjects};
ghost use Rattle.lam_rules.specs.declared.rules.Dialect.{Dialect};
ghost use Rattle.lam_rules.specs.declared.rules.SubRule.{SubRule};
ghost use Rattle.lam_rules.specs.declared.rules.TypeRule.{TypeRule as Rule};

/// Types that are subtypes of each other have the same size, so a size limit does not depend on the order of fields.
pub fn types_below_each_other_have_one_size()
    ensures { (s t : Typ) (d : Dialect) → IsBelow s t d → IsBelow t s d → nodes s ≡ nodes t }
{}

/// Types that are subtypes of each other have the same text. Conversely, well-formed types with readable labels and the
/// same text are subtypes of each other, so the text determines a type up to the order of its fields.
pub fn one_text()
    ensures one { (s t : Typ) (d : Dialect) → IsBelow s t d → IsBelow t s d → text s ≡ text t }
    ensures told { (s t : Typ) (d : Dialect) → HasReadableLabels s → HasReadableLabels t → IsWellFormed s → IsWellFormed t → text s ≡ text t → IsBelow s t d × IsBelow t s d }
{}

/// A tree is a proof exactly if its last step follows, as the checkers of single steps say, and its premises are proofs: of typing
/// about the parts of the term, in a context with distinct labels, and of subtyping.
pub fn steps_make_a_proof()
    ensures typing { (rule : Rule) (side : Option SubTree) (g : Context) (e : Term) (t : Typ) (premises : TypingTrees) (d : Dialect)
        → IsTyping g e (typing_step rule t premises side) d
        ↔ (IsWellFormedContext g × IsTypingStep g e (typing_step rule t premises side) × IsSideProof side d × AreTypings (subjects rule g e (first_type premises)) premises d) }
    ensures subtyping { (rule : SubRule) (s t : Typ) (premises : SubTrees) (d : Dialect)
        → IsSubProof (sub_step rule s t premises) d ↔ (IsSubStep (sub_step rule s t premises) d × AreSubProofs premises d) }
{}
