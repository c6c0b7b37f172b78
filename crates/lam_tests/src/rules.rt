//! Types that no text contains: those that are too large, and one that has a label twice. And the checker of proofs of subtyping;
//! that of proofs of typing is tested by `derivations.rt`, those of single steps by `rows/check.py`.

use crate::written::{check_rows, equal, fields, type_of};
use Dialect::One;
use lam_rules::{
    Core, Dialect, SubProof, SubRule, Ty, TypeProof, TypeRule, check_sub, check_type, copy_of,
    make_arrow, make_record, plain_text_of, same, size, text_of, wf,
};
use std::alloc::{AllocError, Global};
use std::test::Fail;

/// The size of a type, the lengths of its texts, and whether its copy is the same.
fn described(alloc: Global, ty: &Ty) -> Result<String, AllocError> {
    let plain = plain_text_of(alloc, ty)?;
    let sorted = text_of(alloc, ty)?;
    let copy = copy_of(ty)?;
    format!(in alloc;
        "{} {} {} {}",
        size(ty),
        plain.len(),
        sorted.len(),
        same(ty, &copy)
    )
}

/// The same for `Nat->Nat->..->{l0:Nat, l1:Nat, ..}` with this many arrows and fields.
fn large(alloc: Global, (depth, labels): (usize, u32)) -> Result<String, AllocError> {
    let mut ty = make_record(alloc, fields(alloc, 0, labels, &Ty::Nat)?)?;
    for _ in 0..depth {
        ty = make_arrow(alloc, Ty::Nat, ty)?;
    }
    described(alloc, &ty)
}

/// The labels are an `l` and digits, each with `:Nat`, separated by `, `.
static LARGE: [((usize, u32), &str); 10] = [
    ((0, 0), "1 2 2 true"),
    ((1, 0), "3 7 7 true"),
    ((2_047, 0), "4095 10237 10237 true"),
    ((2_048, 0), "4097 10242 10242 true"),
    ((0, 1_000), "1001 9890 9890 true"),
    ((0, 4_095), "4096 43935 43935 true"),
    ((0, 4_096), "4097 43946 43946 true"),
    ((0, 5_000), "4097 53890 53890 true"),
    ((2_000, 95), "4096 10845 10845 true"),
    ((2_000, 96), "4097 10854 10854 true"),
];

#[test]
fn large_types(rt: HostRuntime) -> Result<(), AllocError> {
    check_rows(&rt, rt.alloc(), large, &LARGE)
}

/// `{l0:Nat, l1:Nat, l0:Bool}`, which no document can contain.
fn labelled_twice(alloc: Global) -> Result<Ty, AllocError> {
    let mut items = fields(alloc, 0, 2, &Ty::Nat)?;
    items.push((String::from_str(alloc, "l0")?, Ty::Bool))?;
    make_record(alloc, items)
}

/// The texts of that type.
fn texts_of_twice(alloc: Global) -> Result<String, AllocError> {
    let twice = labelled_twice(alloc)?;
    let mut shown = plain_text_of(alloc, &twice)?;
    shown.push_str(&text_of(alloc, &twice)?)?;
    Ok(shown)
}

/// Whether that type is a subtype of itself by reflexivity.
fn twice_below_itself(alloc: Global) -> Result<bool, AllocError> {
    let proof = SubProof {
        rule: SubRule::Refl,
        lower: labelled_twice(alloc)?,
        upper: labelled_twice(alloc)?,
        premises: Vec::new(alloc),
    };
    Ok(check_sub(&proof, One))
}

/// Whether `unit` has its type under a binder of that type.
fn unit_under_twice(alloc: Global) -> Result<bool, AllocError> {
    let proof = TypeProof {
        rule: TypeRule::Unit,
        ty: Ty::Unit,
        typing: Vec::new(alloc),
        sub: None,
    };
    let context = [Some(labelled_twice(alloc)?)];
    Ok(check_type(&context, &Core::Unit, &proof, One))
}

#[test]
fn a_type_that_repeats_a_label(rt: HostRuntime) -> Result<(), AllocError> {
    equal(
        &rt,
        &texts_of_twice(rt.alloc())?,
        "{l0:Nat, l1:Nat, l0:Bool}{l0:Nat, l0:Bool, l1:Nat}",
    );
    assert!(rt; !wf(&labelled_twice(rt.alloc())?));
    assert!(rt; !twice_below_itself(rt.alloc())?);
    assert!(rt; !unit_under_twice(rt.alloc())?);
    Ok(())
}

/// The rule of a step of subtyping, and its two types.
type Claim = (SubRule, &'static str, &'static str);

/// The proof with this last step that follows from these.
fn proof_from(
    alloc: Global,
    (rule, lower, upper): Claim,
    premises: Vec<SubProof>,
) -> Result<SubProof, Fail> {
    Ok(SubProof {
        rule,
        lower: type_of(alloc, lower)?,
        upper: type_of(alloc, upper)?,
        premises,
    })
}

/// Whether the checker accepts the proof with this last step that follows from the others.
fn accepted(alloc: Global, (last, others): (Claim, &'static [Claim])) -> Result<String, Fail> {
    let mut premises = Vec::new(alloc);
    for claim in others {
        premises.push(proof_from(alloc, *claim, Vec::new(alloc))?)?;
    }
    let proof = proof_from(alloc, last, premises)?;
    Ok(format!(in alloc; "{}", check_sub(&proof, One))?)
}

const WIDER: Claim = (SubRule::RcdWidth, "{a:Nat, b:Bool}", "{a:Nat}");

static STEPS: [((Claim, &[Claim]), &str); 11] = [
    ((WIDER, &[]), "true"),
    (
        ((SubRule::RcdWidth, "{a:Nat, b:Bool}", "{b:Bool}"), &[]),
        "false",
    ),
    (
        (
            (SubRule::RcdDepth, "{a:Nat, b:Bool}", "{a:Nat, b:Top}"),
            &[(SubRule::Refl, "Nat", "Nat"), (SubRule::Top, "Bool", "Top")],
        ),
        "true",
    ),
    (
        (
            (SubRule::RcdDepth, "{a:Nat, b:Bool}", "{b:Bool, a:Nat}"),
            &[
                (SubRule::Refl, "Nat", "Nat"),
                (SubRule::Refl, "Bool", "Bool"),
            ],
        ),
        "false",
    ),
    (
        (
            (SubRule::Trans, "{a:Nat, b:Bool}", "Top"),
            &[WIDER, (SubRule::Top, "{a:Nat}", "Top")],
        ),
        "true",
    ),
    (
        (
            (SubRule::Trans, "{a:Nat, b:Bool}", "Top"),
            &[WIDER, (SubRule::Top, "{b:Bool}", "Top")],
        ),
        "false",
    ),
    (
        (
            (SubRule::Arrow, "Top->Nat", "Nat->Top"),
            &[(SubRule::Top, "Nat", "Top"), (SubRule::Top, "Nat", "Top")],
        ),
        "true",
    ),
    (
        (
            (SubRule::Arrow, "Nat->Nat", "Top->Top"),
            &[(SubRule::Top, "Nat", "Top"), (SubRule::Top, "Nat", "Top")],
        ),
        "false",
    ),
    (
        (
            (SubRule::RcdPerm, "{a:Nat, b:Bool}", "{b:Bool, a:Nat}"),
            &[],
        ),
        "true",
    ),
    (
        ((SubRule::RcdPerm, "{a:Nat, b:Bool}", "{a:Nat}"), &[]),
        "false",
    ),
    (((SubRule::BoolNat, "Bool", "Nat"), &[]), "false"),
];

#[test]
fn proofs_of_subtyping_by_each_kind_of_step(rt: HostRuntime) -> Result<(), Fail> {
    check_rows(&rt, rt.alloc(), accepted, &STEPS)
}
