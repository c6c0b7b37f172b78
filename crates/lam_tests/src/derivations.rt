//! Derivations as trees, made of the steps of an answer: the checker of whole proofs accepts each for the term that it is about, and
//! for no other, and none with a step left out.

use crate::written::{check_rows, command_of};
use Dialect::One;
use lam_query::answers::{Derivation, Step};
use lam_query::derivation;
use lam_rules::{Dialect, SubProof, SubRule, Ty, TypeProof, TypeRule, check_type, text_of};
use lam_scope::{bind, resolve};
use std::alloc::{AllocError, Global};
use std::test::Fail;

/// The proof that ends in a step.
#[derive(Drop)]
enum Tree {
    Typing(TypeProof),
    Sub(SubProof),
}

/// Takes the proof that ends in the step with this number out of the list, for the one step that has it as a premise.
fn taken(trees: &mut Vec<Option<Tree>>, number: usize) -> Result<Tree, Fail> {
    match trees.get_mut(number) {
        Some(tree) => match tree.take() {
            Some(tree) => Ok(tree),
            None => Err(Fail::new("a step is a premise twice")),
        },
        None => Err(Fail::new("a premise is no earlier step")),
    }
}

/// The proof that ends in a step of typing with this rule and type.
fn typing_from(
    alloc: Global,
    rule: TypeRule,
    ty: Ty,
    premises: &[usize],
    trees: &mut Vec<Option<Tree>>,
) -> Result<TypeProof, Fail> {
    let mut typing = Vec::new(alloc);
    let mut sub = None;
    for number in premises {
        match taken(trees, *number)? {
            Tree::Typing(proof) => typing.push(proof)?,
            Tree::Sub(proof) => sub = Some(Box::new(alloc, proof)?),
        }
    }
    Ok(TypeProof {
        rule,
        ty,
        typing,
        sub,
    })
}

/// The proof that ends in a step of subtyping with this rule and these types.
fn sub_from(
    alloc: Global,
    rule: SubRule,
    lower: Ty,
    upper: Ty,
    numbers: &[usize],
    trees: &mut Vec<Option<Tree>>,
) -> Result<SubProof, Fail> {
    let mut premises = Vec::new(alloc);
    for number in numbers {
        match taken(trees, *number)? {
            Tree::Sub(proof) => premises.push(proof)?,
            Tree::Typing(_) => return Err(Fail::new("a typing is a premise of a subtyping")),
        }
    }
    Ok(SubProof {
        rule,
        lower,
        upper,
        premises,
    })
}

/// The proof that ends in a step.
fn tree_from(alloc: Global, step: Step, trees: &mut Vec<Option<Tree>>) -> Result<Tree, Fail> {
    match step {
        Step::Typing {
            rule,
            ty,
            premises,
            ..
        } => Ok(Tree::Typing(typing_from(alloc, rule, ty, &premises, trees)?)),
        Step::Sub {
            rule,
            lower,
            upper,
            premises,
        } => Ok(Tree::Sub(sub_from(alloc, rule, lower, upper, &premises, trees)?)),
    }
}

/// The proof that ends in the last step. Each other step must be a premise of a later one.
fn proof_of(alloc: Global, steps: Vec<Step>) -> Result<TypeProof, Fail> {
    let mut trees = Vec::new(alloc);
    for step in steps {
        let tree = tree_from(alloc, step, &mut trees)?;
        trees.push(Some(tree))?;
    }
    let Some(Some(Tree::Typing(proof))) = trees.pop() else {
        return Err(Fail::new("the last step is no typing"));
    };
    if trees.iter().any(|tree| tree.is_some()) {
        return Err(Fail::new("a step is no premise"));
    }
    Ok(proof)
}

/// The types of a context, without its names.
fn entries_of(
    alloc: Global,
    context: Vec<(String, Option<Ty>)>,
) -> Result<Vec<Option<Ty>>, AllocError> {
    let mut entries = Vec::new(alloc);
    for (_, entry) in context {
        entries.push(entry)?;
    }
    Ok(entries)
}

/// Whether the checker accepts a proof for the term at an offset of a text with one command.
fn is_accepted(
    alloc: Global,
    (text, offset): (&str, usize),
    context: &[Option<Ty>],
    proof: &TypeProof,
) -> Result<bool, Fail> {
    let mut commands = Vec::new(alloc);
    commands.push(command_of(alloc, text)?)?;
    let scopes = bind(alloc, &commands)?;
    let resolved = resolve(alloc, &commands, &scopes)?;
    let Some(place) = scopes.place_at(offset) else {
        return Err(Fail::new("no term"));
    };
    if place.0 >= resolved.place_count() {
        return Err(Fail::new("no such term"));
    }
    Ok(check_type(context, resolved.core_at(place), proof, One))
}

/// The type of the derivation at the first offset, and whether the checker accepts its proof for the term at the second.
fn derived(alloc: Global, (text, offset, other): (&str, usize, usize)) -> Result<String, Fail> {
    let Some(found) = derivation(alloc, text, offset, One)? else {
        return Err(Fail::new("no derivation"));
    };
    let Derivation { context, steps } = found;
    let entries = entries_of(alloc, context)?;
    let proof = proof_of(alloc, steps)?;
    let accepted = is_accepted(alloc, (text, other), &entries, &proof)?;
    Ok(format!(in alloc; "{} {accepted}", text_of(alloc, &proof.ty)?)?)
}

const APPLIED: &str = "(lambda r:{x:Nat}. r.x) {y=true, x=0}";

const JOINED: &str = "let y = {b=0, a=true} in if y.a then y else {a=false}";

const RECURSIVE: &str = "letrec f:Nat->Nat = lambda n:Nat. f n in f";

static DERIVED: [((&str, usize, usize), &str); 7] = [
    ((APPLIED, 23, 23), "Nat true"),
    ((APPLIED, 23, 19), "Nat false"),
    ((APPLIED, 19, 19), "{x:Nat} true"),
    ((APPLIED, 24, 23), "{x:Nat, y:Bool} false"),
    ((JOINED, 0, 0), "{a:Bool} true"),
    ((JOINED, 25, 25), "{a:Bool} true"),
    ((RECURSIVE, 0, 0), "Nat->Nat true"),
];

/// Leaves out the last step of each premise that ends with the use of a subtype.
fn without_subsumption(alloc: Global, proof: TypeProof) -> Result<TypeProof, AllocError> {
    let TypeProof {
        rule,
        ty,
        typing: premises,
        sub,
    } = proof;
    let mut typing = Vec::new(alloc);
    for premise in premises {
        if premise.rule == TypeRule::Sub {
            typing.append(&mut own_premises(premise))?;
        } else {
            typing.push(premise)?;
        }
    }
    Ok(TypeProof {
        rule,
        ty,
        typing,
        sub,
    })
}

fn own_premises(proof: TypeProof) -> Vec<TypeProof> {
    let TypeProof { typing, .. } = proof;
    typing
}

/// The same as `derived` for one offset, with the uses of a subtype in the premises of the last step left out.
fn cut(alloc: Global, (text, offset): (&str, usize)) -> Result<String, Fail> {
    let Some(found) = derivation(alloc, text, offset, One)? else {
        return Err(Fail::new("no derivation"));
    };
    let Derivation { context, steps } = found;
    let entries = entries_of(alloc, context)?;
    let proof = without_subsumption(alloc, proof_of(alloc, steps)?)?;
    let accepted = is_accepted(alloc, (text, offset), &entries, &proof)?;
    Ok(format!(in alloc; "{} {accepted}", text_of(alloc, &proof.ty)?)?)
}

static CUT: [((&str, usize), &str); 3] = [
    ((APPLIED, 23), "Nat false"),
    (("if true then 0 else false", 0), "Top false"),
    (("if true then 0 else 1", 0), "Nat true"),
];

#[test]
fn the_checker_rejects_a_proof_without_its_subsumption_steps(rt: HostRuntime) -> Result<(), Fail> {
    check_rows(&rt, rt.alloc(), cut, &CUT)
}

#[test]
fn the_checker_accepts_derivations(rt: HostRuntime) -> Result<(), Fail> {
    check_rows(&rt, rt.alloc(), derived, &DERIVED)
}
