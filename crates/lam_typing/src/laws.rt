//! Laws of all terms and documents, each the contract of an empty function.

ghost use Rattle.std.specs.Prelude.{◌≡◌, ℕ, ◌+◌, ◌<◌, length, List, Option, Some, codes};
ghost use Rattle.lam_rules.specs.Types.{Label, Typ, bool, nat, arrow, record_of, Fields, Has};
ghost use Rattle.lam_rules.specs.Terms.{Term, true_term, false_term, unit_term, numeral, lambda, let_in, if_then_else, variable, succ, pred, is_zero, apply, ascribe, project, fix, record_term, TermFields};
ghost use Rattle.lam_rules.specs.Subtyping.{IsBelow};
ghost use Rattle.lam_rules.specs.Texts.{text};
ghost use Rattle.lam_rules.specs.Typing.{Context, HasField, IsWellFormedContext, TypingTree, IsTyping};
ghost use Rattle.lam_rules.specs.declared.rules.Dialect.{Dialect};
ghost use Rattle.lam_scope.specs.Trees.{CommandTree};
ghost use Rattle.lam_scope.specs.Labels.{place_in};
ghost use Rattle.lam_scope.specs.Places.{Scope, Place, Statement, places};
ghost use Rattle.lam_typing.specs.LeastTypes.{IsTypeAt, IsTyped, IsLeastAt, AreLeastEntries};
ghost use Rattle.lam_scope.specs.Alike.{AreAlike};
ghost use Rattle.lam_typing.specs.Blaming.{IsBlamed, IsBlamedFor, DifferInLabels, Blamed, AreBlamed, renumbered};
ghost use Rattle.lam_typing.specs.Causes.{HasCause};
ghost use Rattle.lam_typing.specs.Contexts.{IsContext};
ghost use Rattle.lam_typing.specs.Narrowing.{Narrows};
ghost use Rattle.lam_typing.specs.Progress.{IsLowest, Shown, Cause, ShownFront};
ghost use Rattle.lam_scope.specs.WellFormed.{IsWellFormedScope, IsWellFormedTerm, AreWellFormedStatements};
ghost use Rattle.lam_typing.specs.WellTyped.{IsTypedWhereUnblamed};

/// If the entries of one context are below those of another, a term has in the first each type that it has in the second.
pub fn narrowing()
    ensures { (g h : Context) (d : Dialect) → Narrows g h d }
{}

/// Over all contexts of its scope, a term has a type that is below all its others, or it has no type (TAPL 16.2).
pub fn least_types_exist()
    ensures { (s : Scope) (e : Term) (d : Dialect) → IsWellFormedScope s → IsWellFormedTerm e → (o : Option Typ) × IsLeastAt s e o d }
{}

/// Two least types differ at most in the order of fields, and are displayed as the same text.
pub fn least_types_have_one_text()
    ensures { (s : Scope) (e : Term) (t u : Typ) (d : Dialect) → IsLeastAt s e (Some t) d → IsLeastAt s e (Some u) d → text t ≡ text u }
{}

/// Constants, numerals, lambdas and lets are never at fault, and an if only for its condition.
pub fn never_blamed()
    ensures a_true { (s : Scope) (d : Dialect) → IsWellFormedScope s → IsBlamed s true_term d → ⊥ }
    ensures a_false { (s : Scope) (d : Dialect) → IsWellFormedScope s → IsBlamed s false_term d → ⊥ }
    ensures a_unit { (s : Scope) (d : Dialect) → IsWellFormedScope s → IsBlamed s unit_term d → ⊥ }
    ensures a_numeral { (s : Scope) (digits : List ℕ) (d : Dialect) → IsWellFormedScope s → IsBlamed s (numeral digits) d → ⊥ }
    ensures a_lambda { (s : Scope) (w : Option Typ) (e : Term) (d : Dialect) → IsBlamed s (lambda w e) d → ⊥ }
    ensures a_let { (s : Scope) (a b : Term) (d : Dialect) → IsWellFormedScope s → IsWellFormedTerm (let_in a b) → IsBlamed s (let_in a b) d → ⊥ }
    ensures an_if { (s : Scope) (c a b : Term) (d : Dialect) → IsWellFormedScope s → IsTypeAt s c bool d → IsBlamed s (if_then_else c a b) d → ⊥ }
{}

/// If each written type stands for a type, no subterm is at fault if and only if each definition and each evaluation has a type.
pub fn typed_where_unblamed()
    ensures { (statements : List Statement) (d : Dialect) → AreWellFormedStatements statements → IsTypedWhereUnblamed statements d }
{}

/// Every well-formed scope has a context.
pub fn scopes_have_contexts()
    ensures { (s : Scope) (d : Dialect) → IsWellFormedScope s → (g : Context) × IsContext s g d }
{}

/// The least entries of a scope form one of its contexts, and every scope has them; so has each subterm of any document, along
/// with a least type or none. So no statement about the least entries and types of a subterm holds vacuously.
pub fn least_entries_are_a_context()
    ensures context { (s : Scope) (g : Context) (d : Dialect) → IsWellFormedScope s → AreLeastEntries s g d → IsContext s g d }
    ensures least { (s : Scope) (d : Dialect) → IsWellFormedScope s → (g : Context) × AreLeastEntries s g d }
    ensures document { (cs : List CommandTree) (n : ℕ) (d : Dialect) → (g : Context) × AreLeastEntries (place_in cs n).scope g d × IsContext (place_in cs n).scope g d }
    ensures types { (cs : List CommandTree) (n : ℕ) (d : Dialect) → (o : Option Typ) × IsLeastAt (place_in cs n).scope (place_in cs n).here o d }
{}

/// A term without a type has a cause: it or a term in it has no type, and is at fault or is excused, as the use of a binder
/// without a type is. So a faulty written type hides no other fault.
pub fn untyped_has_a_cause()
    ensures term { (s : Scope) (e : Term) (d : Dialect) → IsWellFormedScope s → IsWellFormedTerm e → (IsTyped s e d → ⊥) → HasCause (places s e) d }
    ensures document { (cs : List CommandTree) (n : ℕ) (d : Dialect) → (IsTyped (place_in cs n).scope (place_in cs n).here d → ⊥) → HasCause (places (place_in cs n).scope (place_in cs n).here) d }
{}

/// What is reported of a subterm at fault is true: a name has no binder, a condition is not below Bool, an operand not below Nat,
/// an argument not below the parameter, a term not below what is ascribed, a field is missing, the outcome of a fix's function is
/// not below its parameter, or a record repeats a label. The least types of its parts show this, and so do all others: what is
/// reported to be no function has no arrow among its types, what is taken for a function has one, and the rules give the
/// application, projection or fix no type, whichever types of its parts are taken.
pub fn blame_is_just()
    ensures a_name { (s : Scope) (n : ℕ) (d : Dialect) → IsWellFormedScope s → n < length s → IsBlamed s (variable n) d → ⊥ }
    ensures a_condition { (s : Scope) (c a b : Term) (t : Typ) (d : Dialect) → IsWellFormedScope s → IsBlamed s (if_then_else c a b) d → IsLeastAt s c (Some t) d → IsBelow t bool d → ⊥ }
    ensures of_succ { (s : Scope) (e : Term) (t : Typ) (d : Dialect) → IsWellFormedScope s → IsBlamed s (succ e) d → IsLeastAt s e (Some t) d → IsBelow t nat d → ⊥ }
    ensures of_pred { (s : Scope) (e : Term) (t : Typ) (d : Dialect) → IsWellFormedScope s → IsBlamed s (pred e) d → IsLeastAt s e (Some t) d → IsBelow t nat d → ⊥ }
    ensures of_is_zero { (s : Scope) (e : Term) (t : Typ) (d : Dialect) → IsWellFormedScope s → IsBlamed s (is_zero e) d → IsLeastAt s e (Some t) d → IsBelow t nat d → ⊥ }
    ensures an_argument { (s : Scope) (f a : Term) (p r t : Typ) (d : Dialect) → IsWellFormedScope s → IsBlamed s (apply f a) d → IsLeastAt s f (Some (arrow p r)) d → IsLeastAt s a (Some t) d → IsBelow t p d → ⊥ }
    ensures an_ascription { (s : Scope) (e : Term) (w t : Typ) (d : Dialect) → IsWellFormedScope s → IsBlamed s (ascribe e (Some w)) d → IsLeastAt s e (Some t) d → IsBelow t w d → ⊥ }
    ensures a_field { (s : Scope) (e : Term) (l : Label) (fs : Fields) (t : Typ) (d : Dialect) → IsWellFormedScope s → IsBlamed s (project e l) d → IsLeastAt s e (Some (record_of fs)) d → Has l t fs → ⊥ }
    ensures a_fix { (s : Scope) (e : Term) (p r : Typ) (d : Dialect) → IsWellFormedScope s → IsBlamed s (fix e) d → IsLeastAt s e (Some (arrow p r)) d → IsBelow r p d → ⊥ }
    ensures a_record { (s : Scope) (es : TermFields) (d : Dialect) → IsWellFormedScope s → DifferInLabels es → IsBlamed s (record_term es) d → ⊥ }
    ensures no_function { (s : Scope) (f a : Term) (p r : Typ) (d : Dialect) → IsBlamedFor s (apply f a) (codes "E2") d → IsTypeAt s f (arrow p r) d → ⊥ }
    ensures a_function { (s : Scope) (f a : Term) (d : Dialect) → IsBlamedFor s (apply f a) (codes "E3") d → (p : Typ) × (r : Typ) × IsTypeAt s f (arrow p r) d }
    ensures an_application { (s : Scope) (f a : Term) (p r : Typ) (d : Dialect) → IsWellFormedScope s → IsBlamed s (apply f a) d → IsTypeAt s f (arrow p r) d → IsTypeAt s a p d → ⊥ }
    ensures a_projection { (s : Scope) (e : Term) (l : Label) (fs : Fields) (t : Typ) (d : Dialect) → IsBlamed s (project e l) d → IsTypeAt s e (record_of fs) d → Has l t fs → ⊥ }
    ensures a_fixed_point { (s : Scope) (e : Term) (p : Typ) (d : Dialect) → IsBlamed s (fix e) d → IsTypeAt s e (arrow p p) d → ⊥ }
{}

/// A projection has a type if and only if the least type of the term before the dot is a record type with that label; the field's
/// type is then the least type of the projection (TAPL 16.2).
pub fn projections_are_fields()
    ensures field { (s : Scope) (e : Term) (l : Label) (fs : Fields) (t : Typ) (d : Dialect) → IsLeastAt s e (Some (record_of fs)) d → Has l t fs → IsLeastAt s (project e l) (Some t) d }
    ensures of_record { (s : Scope) (e : Term) (l : Label) (u t : Typ) (d : Dialect) → IsLeastAt s e (Some u) d → IsTypeAt s (project e l) t d → (v : Typ) × HasField u l v }
    ensures of_typed { (s : Scope) (e : Term) (l : Label) (t : Typ) (d : Dialect) → IsLeastAt s e None d → IsTypeAt s (project e l) t d → ⊥ }
{}

/// Only the free names of a term matter. If two terms are alike, each in the lowest context of its own scope, then they have the
/// same least type, and so have their subterms, one by one: what is found for them, which is over the size limit, which are at
/// fault and for what. A proof of a type of one is a proof of it of the other. So a command may be checked under just the binders
/// that it uses.
pub fn only_free_names_count()
    ensures symmetric { (g h : Context) (e f : Term) → AreAlike g e h f → AreAlike h f g e }
    ensures least { (s r : Scope) (g h : Context) (e f : Term) (o : Option Typ) (d : Dialect) → IsLowest s g d → IsLowest r h d → AreAlike g e h f → IsLeastAt s e o d → IsLeastAt r f o d }
    ensures proof { (g h : Context) (e f : Term) (p : TypingTree) (d : Dialect) → AreAlike g e h f → IsWellFormedContext h → IsTyping g e p d → IsTyping h f p d }
    ensures shown { (s r : Scope) (g h : Context) (e f : Term) (n : ℕ) (found : List (Option Typ)) (blames : List Blamed) (d : Dialect) → IsWellFormedTerm e → IsLowest s g d → IsLowest r h d → AreAlike g e h f → Shown (places s e) n found blames d → Shown (places r f) n found blames d }
    ensures stopped { (s r : Scope) (g h : Context) (e f : Term) (n : ℕ) (found : List (Option Typ)) (blames : List Blamed) (cause : Cause) (d : Dialect) → IsWellFormedTerm e → IsLowest s g d → IsLowest r h d → AreAlike g e h f → ShownFront (places s e) n found blames cause d → ShownFront (places r f) n found blames cause d }
{}

/// Indices of subterms may start anywhere: those at fault are the same, with shifted indices. So what is reported of a command by
/// itself, whose subterms start at 0, holds in a document too, where other subterms come before.
pub fn blames_move_with_places()
    ensures blamed { (n k : ℕ) (ps : List Place) (blames : List Blamed) (d : Dialect) → AreBlamed n ps blames d → AreBlamed (n + k) ps (renumbered k blames) d }
    ensures shown { (ps : List Place) (k : ℕ) (found : List (Option Typ)) (blames : List Blamed) (d : Dialect) → Shown ps 0 found blames d → Shown ps k found (renumbered k blames) d }
    ensures stopped { (ps : List Place) (k : ℕ) (found : List (Option Typ)) (blames : List Blamed) (cause : Cause) (d : Dialect) → ShownFront ps 0 found blames cause d → ShownFront ps k found (renumbered k blames) cause d }
{}
