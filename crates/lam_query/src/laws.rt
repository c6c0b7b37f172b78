//! Laws of the answers. Each is a theorem, which the toolchain needs as the contract of an empty function.
ghost use Rattle.std.specs.Prelude.{◌≡◌, ◌↔◌, ℕ, Bool, true, List, [], Option, Some, Result, Ok, Err, All, Contains};
ghost use Rattle.std.specs.Str.{IsUtf8};
ghost use Rattle.lam_token.specs.declared.span.Span.{Span};
ghost use Rattle.lam_token.specs.Lexeme.{Lexeme, span_of};
ghost use Rattle.lam_token.specs.Cut.{AreTokensOf};
ghost use Rattle.lam_rules.specs.Types.{Label};
ghost use Rattle.lam_rules.specs.Typing.{TypingTree};
ghost use Rattle.lam_rules.specs.declared.rules.Dialect.{Dialect};
ghost use Rattle.lam_syntax.specs.Trees.{CommandTree};
ghost use Rattle.lam_scope.specs.PlacedTerms.{PlacedTree, document_terms};
ghost use Rattle.lam_query.specs.Commands.{AreCommandsOfText};
ghost use Rattle.lam_query.specs.Faults.{Fault, HasKnownCode};
ghost use Rattle.lam_query.specs.TextFaults.{AreTypeFaults, AreFaults};
ghost use Rattle.lam_query.specs.WellTypedDocuments.{IsWellTyped};
ghost use Rattle.lam_query.specs.Hovers.{Shown, innermost_at, IsShownIn};
ghost use Rattle.lam_query.specs.Innermost.{IsInnermost};
ghost use Rattle.lam_query.specs.Derivations.{Derivation, IsDerivedIn};
ghost use Rattle.lam_query.specs.Steps.{Proof, steps_of, typing_proof};
ghost use Rattle.lam_query.specs.ProofTrees.{typing_tree_in};
ghost use Rattle.lam_query.specs.Touched.{touched};
ghost use Rattle.lam_query.specs.Completions.{IsProjected, IsSmallUpTo, Item, AreCompletions};
ghost use Rattle.lam_query.specs.Definitions.{IsDefinitionIn, AreReferencesIn, AreApart};
ghost use Rattle.lam_query.specs.declared.renames.RenameFault.{RenameFault};
ghost use Rattle.lam_query.specs.declared.renames.RenameFault.TheVariants.{ChangesBinding};
ghost use Rattle.lam_query.specs.Renames.{IsRenameIn, IsRenamedText, IsOtherText};

/// The commands, diagnostics, hover, definition, references, rename and completions of a text are unique.
pub fn one_answer()
    ensures commands { (text : List ℕ) (commands others : List CommandTree) → AreCommandsOfText text commands → AreCommandsOfText text others → commands ≡ others }
    ensures faults { (text : List ℕ) (faults others : List Fault) (d : Dialect) → AreFaults text faults d → AreFaults text others d → faults ≡ others }
    ensures shown { (text : List ℕ) (offset : ℕ) (shown other : Option Shown) (d : Dialect) → IsShownIn text offset shown d → IsShownIn text offset other d → shown ≡ other }
    ensures definition { (text : List ℕ) (offset : ℕ) (found other : Option Span) → IsDefinitionIn text offset found → IsDefinitionIn text offset other → found ≡ other }
    ensures references { (text : List ℕ) (offset : ℕ) (declared : Bool) (found others : Option (List Span)) → AreReferencesIn text offset declared found → AreReferencesIn text offset declared others → found ≡ others }
    ensures rename { (text : List ℕ) (offset : ℕ) (new : List ℕ) (found other : Result (List Span) RenameFault) → IsRenameIn text offset new found → IsRenameIn text offset new other → found ≡ other }
    ensures completions { (text : List ℕ) (offset : ℕ) (items others : List Item) (d : Dialect) → AreCompletions text offset items d → AreCompletions text offset others d → items ≡ others }
{}

/// It does not matter which label is put after a dot: if with one label the dot is that of a projection, so it is with every other;
/// and if with one label no type up to the projection is over the size limit, none is with any other.
pub fn one_label_stands_for_all()
    ensures projected { (text : List ℕ) (tokens : List Lexeme) (offset : ℕ) (l m : Label) → AreTokensOf text tokens → IsProjected tokens offset l → IsProjected tokens offset m }
    ensures small { (text : List ℕ) (tokens : List Lexeme) (offset : ℕ) (l m : Label) (h : IsProjected tokens offset l) (k : IsProjected tokens offset m) (d : Dialect) → AreTokensOf text tokens
        → IsSmallUpTo h.commands h.number d → IsSmallUpTo k.commands k.number d }
{}

/// A hover is about the innermost term: every term of the text that contains the byte encloses it.
pub fn shown_is_innermost()
    ensures { (text : List ℕ) (commands : List CommandTree) (offset : ℕ) (term : PlacedTree) → AreCommandsOfText text commands → innermost_at offset (document_terms commands) ≡ Some term → IsInnermost offset (document_terms commands) term }
{}

/// Every request has an answer. Every text has a list of diagnostics. At every offset there is a hover or none, and a derivation
/// exactly where there is a hover; a definition with its references, or none; and a list of completions, possibly empty. A rename
/// gives the spans that change, or one of five refusals.
pub fn some_answer()
    ensures faults { (text : List ℕ) (d : Dialect) → (faults : List Fault) × AreFaults text faults d }
    ensures shown { (text : List ℕ) (offset : ℕ) (d : Dialect) → (shown : Option Shown) × IsShownIn text offset shown d }
    ensures derived { (text : List ℕ) (offset : ℕ) (d : Dialect) → (derived : Option Derivation) × IsDerivedIn text offset derived d }
    ensures as_shown { (text : List ℕ) (offset : ℕ) (derived : Derivation) (d : Dialect) → IsDerivedIn text offset (Some derived) d → (shown : Shown) × IsShownIn text offset (Some shown) d }
    ensures definition { (text : List ℕ) (offset : ℕ) → (found : Option Span) × IsDefinitionIn text offset found }
    ensures references { (text : List ℕ) (offset : ℕ) (declared : Bool) → (found : Option (List Span)) × AreReferencesIn text offset declared found }
    ensures rename { (text : List ℕ) (offset : ℕ) (new : List ℕ) → (found : Result (List Span) RenameFault) × IsRenameIn text offset new found }
    ensures completions { (text : List ℕ) (offset : ℕ) (d : Dialect) → (items : List Item) × AreCompletions text offset items d }
{}

/// Where there are references there is a definition, and looking it up at the start of each reference gives the same one. If the
/// binder is included, the name under the cursor is among the references. References of names with different binders share no
/// span.
pub fn references_share_a_definition()
    ensures definition { (text : List ℕ) (offset : ℕ) (declared : Bool) (spans : List Span) → AreReferencesIn text offset declared (Some spans) → (binder : Span) × IsDefinitionIn text offset (Some binder) × All (λ s. IsDefinitionIn text s.start (Some binder)) spans }
    ensures among { (text : List ℕ) (offset : ℕ) (spans : List Span) (tokens : List Lexeme) (name : Lexeme) → AreTokensOf text tokens → touched offset tokens ≡ Some name → AreReferencesIn text offset true (Some spans) → Contains spans (span_of name) }
    ensures apart { (text : List ℕ) (offset other : ℕ) (declared also : Bool) (spans others : List Span) → AreReferencesIn text offset declared (Some spans) → AreReferencesIn text other also (Some others) → AreApart text offset other spans others }
{}

/// What a rename does to a text. Replacing the returned spans, from last to first, leaves all other tokens as they were, each
/// piece is still a command, and names and type names are bound as before: the commands have the same nameless form. If the
/// rename is refused because binding would change, renaming the binder and its uses gives a different nameless form.
pub fn renames_keep_binding()
    ensures renamed { (text : List ℕ) (offset : ℕ) (new : List ℕ) (spans : List Span) → IsUtf8 text → IsUtf8 new → IsRenameIn text offset new (Ok spans) → IsRenamedText text spans new }
    ensures changed { (text : List ℕ) (offset : ℕ) (new : List ℕ) → IsUtf8 text → IsUtf8 new → IsRenameIn text offset new (Err ChangesBinding) → (spans : List Span) × AreReferencesIn text offset true (Some spans) × IsOtherText text spans new }
{}

/// A document has no type diagnostics if and only if each written type in it stands for a type, each definition and evaluation
/// has a type, and none is over the size limit.
pub fn no_fault_is_well_typed()
    ensures { (commands : List CommandTree) (found : List Fault) (d : Dialect) → AreTypeFaults commands found d → ((found ≡ []) ↔ IsWellTyped commands d) }
{}

/// Each diagnostic of a text has one of seventeen codes.
pub fn known_codes()
    ensures { (text : List ℕ) (found : List Fault) (d : Dialect) → AreFaults text found d → All HasKnownCode found }
{}

/// The steps determine the proof, and those of a typing proof determine its tree, whatever terms it is about. The tree of a
/// typing proof is the one that it was made from.
pub fn steps_tell_the_proof()
    ensures proof { (p q : Proof) → steps_of 0 p ≡ steps_of 0 q → p ≡ q }
    ensures tree { (term other : PlacedTree) (tree also : TypingTree) → steps_of 0 (typing_proof term tree) ≡ steps_of 0 (typing_proof other also) → tree ≡ also }
    ensures read { (term : PlacedTree) (tree : TypingTree) → typing_tree_in (typing_proof term tree) ≡ Some tree }
{}
