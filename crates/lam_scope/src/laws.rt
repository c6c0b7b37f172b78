//! Laws of the table and the nameless form of any commands. Each law is the contract of an empty function.
ghost use Rattle.std.specs.Prelude.{◌≡◌, ◌≢◌, ◌⊎◌, ◌↔◌, ℕ, [], ◌∷◌, ◌++◌, List, Option, None, Some, map, length, get_or, reverse, Contains};
ghost use Rattle.std.specs.Option.{option_map};
ghost use Rattle.std.specs.List.{AllByRecursion};
ghost use Rattle.lam_token.specs.declared.span.Span.{Span};
ghost use Rattle.lam_token.specs.Edits.{renaming};
ghost use Rattle.lam_rules.specs.Types.{Label};
ghost use Rattle.lam_rules.specs.Typing.{Context};
ghost use Rattle.lam_syntax.specs.Trees.{TypeTree, TermTree, CommandTree};
ghost use Rattle.lam_syntax.specs.Respelled.{Letters, respelled_command};
ghost use Rattle.lam_scope.specs.declared.rename_fault.RenameFault.{RenameFault};
ghost use Rattle.lam_scope.specs.declared.rename_fault.RenameFault.TheVariants.{Memory};
ghost use Rattle.lam_scope.specs.declared.type_fault.TypeFault.TheVariants.{UnboundTypeName};
ghost use Rattle.lam_scope.specs.Indexed.{statements_indexed, past_commands};
ghost use Rattle.lam_scope.specs.Names.{Name, index_of};
ghost use Rattle.lam_scope.specs.Forms.{forms};
ghost use Rattle.lam_scope.specs.Expansions.{Abbreviation, expansion, type_faults};
ghost use Rattle.lam_scope.specs.Nameless.{nameless, statement, statements, written_in, written_in_command, faults_in, faults, first_over_limit};
ghost use Rattle.lam_scope.specs.Bindings.{binding_from, AreOriginsOf};
ghost use Rattle.lam_scope.specs.TypeNames.{IsTypeNameIn, abbreviations_seen_after, meant_after, binders_seen_after, IsLastAbbreviation, IsNotAbbreviated};
ghost use Rattle.lam_scope.specs.FreeNames.{free_in, free_type_names_in, free_type_names_in_types, free_in_command, free_type_names_in_command};
ghost use Rattle.lam_scope.specs.Meanings.{MeanTheSame, StandForTheSame};
ghost use Rattle.lam_scope.specs.Alike.{AreAlike, AreAlikeStatements};
ghost use Rattle.lam_scope.specs.Expanded.{IsExpanded};
ghost use Rattle.lam_scope.specs.PlacedTerms.{document_terms, term_of, tree_in, projection_at};
ghost use Rattle.lam_scope.specs.Labels.{labelled, AreLabelled};
ghost use Rattle.lam_scope.specs.PlacedRows.{IsRowOf};
ghost use Rattle.lam_scope.specs.Places.{places_of, place_numbered, statement_numbered};
ghost use Rattle.lam_scope.specs.Sights.{sight_numbered};
ghost use Rattle.lam_scope.specs.Mentions.{binder_of, kind_of, mentions, bound_at, uses_of, Ascend, IsBehindBinder};
ghost use Rattle.lam_scope.specs.Renames.{HasName, AreRenamed, IsRefused, answer_for, kind_of_binder, renamed};
ghost use Rattle.lam_scope.specs.Nesting.{AreNested, AreSpelledFrom, AreNamedFrom, IsInnermost};
ghost use Rattle.lam_scope.specs.Tables.{Table, table, Entry, entry_names, bound_to, binder_numbered, place_row_numbered, visible_at, place_at, binder_at, use_tokens};

/// The table of commands and their nameless form have equally many subterms, and the binders in scope at a subterm by the table
/// have the origins that the nameless form gives, outermost first.
pub fn one_sight()
    ensures places { (cs : List CommandTree) → length (table cs).places ≡ length (places_of [] (statements [] [] cs)) }
    ensures sights { (cs : List CommandTree) (n : ℕ) → map (λ b. (binder_numbered (table cs) b).origin) (visible_at (table cs) n) ≡ reverse (sight_numbered (statements [] [] cs) n) }
{}

/// The names and the types in scope for a term belong together. Of the binders that the table puts in scope at a subterm,
/// outermost first, the names are those in scope for its term, and the bindings are those of its scope, one by one. The lambda or
/// the term that gives a binder its type has just the outer binders in scope.
pub fn one_scope()
    ensures names { (cs : List CommandTree) (n : ℕ) → map (λ b. (binder_numbered (table cs) b).name) (visible_at (table cs) n) ≡ reverse (term_of (tree_in (document_terms cs) n)).names }
    ensures bindings { (cs : List CommandTree) (n : ℕ) → map (λ b. binding_from (statements [] [] cs) (binder_numbered (table cs) b).origin) (visible_at (table cs) n) ≡ reverse (place_numbered (statements [] [] cs) n).scope }
    ensures origins { (cs : List CommandTree) (n : ℕ) → AreOriginsOf (statements [] [] cs) (sight_numbered (statements [] [] cs) n) (place_numbered (statements [] [] cs) n).scope }
{}

/// The first subterm that contains a byte is the innermost: every other one that contains it encloses it. This requires that of
/// two subterms the earlier lies within the later or ends before it begins, which holds for any text: for commands derived from
/// tokens that come one after another.
pub fn innermost_place()
    ensures spelled { (cs : List CommandTree) → AreSpelledFrom 0 cs → AreNested (table cs).places }
    ensures innermost { (t : Table) (offset p : ℕ) → AreNested t.places → place_at t offset ≡ Some p → IsInnermost offset t p }
{}

/// The table and the nameless form are both about the list of a document's terms: there are as many rows as terms, each row
/// describes the term with the same index, and the subterms of the statements are those of the terms.
pub fn one_term()
    ensures rows { (cs : List CommandTree) (n : ℕ) → IsRowOf (table cs) (document_terms cs) (place_row_numbered (table cs) n) (tree_in (document_terms cs) n) }
    ensures as_many { (cs : List CommandTree) → length (table cs).places ≡ length (document_terms cs) }
    ensures places { (cs : List CommandTree) → places_of [] (statements [] [] cs) ≡ map (λ t. (term_of t).place) (document_terms cs) }
{}

/// Given the binders of names in scope for a term, a use is reported to be bound to the binder that its de Bruijn index selects,
/// and to be unbound where it has no index.
pub fn one_binder()
    ensures bound { (x : Name) (seen : List Entry) (n : ℕ) (e : Entry) → index_of x (entry_names seen) ≡ Some n → get_or seen n e ≡ e → bound_to x seen ≡ Some e.answer }
    ensures unbound { (x : Name) (seen : List Entry) → index_of x (entry_names seen) ≡ None → bound_to x seen ≡ None }
{}

/// A type name stands for the abbreviation that it is reported to be bound to: the last one of that name in the commands before,
/// expanded with the abbreviations before that one. If it is reported to be unbound, it gets a diagnostic and stands for no type.
/// A command is resolved with the abbreviations of the commands before it.
pub fn one_abbreviation()
    ensures stated { (before after : List CommandTree) (c : CommandTree) → statement_numbered (statements [] [] (before ++ c ∷ after)) (length before) ≡ statement (abbreviations_seen_after before) (binders_seen_after before) c }
    ensures bound { (cs before : List CommandTree) (x : Name) (s : Span) (high n : ℕ) → Ascend 0 (mentions cs) high → IsTypeNameIn cs before x s → binder_at (table cs) s.start ≡ Some n → IsLastAbbreviation before x (binder_numbered (table cs) n).token (meant_after before x s) }
    ensures unbound { (cs before : List CommandTree) (x : Name) (s : Span) (high : ℕ) → Ascend 0 (mentions cs) high → IsTypeNameIn cs before x s → binder_at (table cs) s.start ≡ None → IsNotAbbreviated before x (meant_after before x s) }
    ensures faults { (cs before : List CommandTree) (x : Name) (s : Span) (high : ℕ) → Ascend 0 (mentions cs) high → IsTypeNameIn cs before x s → (Contains (faults [] cs) (UnboundTypeName s) ↔ (binder_at (table cs) s.start ≡ None)) }
{}

/// The uses of a table give the de Bruijn indices of the nameless form, one after another in text order, and none is left after
/// the last command.
pub fn one_index()
    ensures indices { (cs : List CommandTree) → statements_indexed [] cs (table cs).uses ≡ statements [] [] cs }
    ensures left { (cs : List CommandTree) → past_commands cs (table cs).uses ≡ [] }
{}

/// No written type gets a diagnostic if and only if each of them stands for a type.
pub fn faultless_is_expanded()
    ensures { (cs : List CommandTree) → ((faults [] cs ≡ []) ↔ IsExpanded (statements [] [] cs)) }
{}

/// The names, type names and labels of a text come one after another and are not empty: so at most one begins at a byte, and each
/// use comes after its binder. This holds for commands derived from tokens if the names among these come one after another, as
/// they do where all tokens do.
pub fn mentions_ascend()
    ensures spelled { (cs : List CommandTree) → AreSpelledFrom 0 cs → AreNamedFrom 0 cs }
    ensures ascend { (cs : List CommandTree) → AreNamedFrom 0 cs → (high : ℕ) × Ascend 0 (mentions cs) high }
    ensures behind { (cs : List CommandTree) (high : ℕ) → Ascend 0 (mentions cs) high → AllByRecursion IsBehindBinder (mentions cs) }
{}

/// The table and the mentions of a text agree if the mentions, labels included, come one after another: on what the name that
/// starts at a byte is bound to (a label is bound to nothing), and on the uses of a binder that some name is bound to. Such a
/// binder has a name and is the one reported for itself; and all that is bound to it is of its kind, names or type names.
pub fn mentions_are_rows()
    ensures bound { (cs : List CommandTree) (high o : ℕ) → Ascend 0 (mentions cs) high → option_map (λ n. (binder_numbered (table cs) n).token) (binder_at (table cs) o) ≡ bound_at o (mentions cs) }
    ensures uses { (cs : List CommandTree) (high o n : ℕ) → Ascend 0 (mentions cs) high → binder_at (table cs) o ≡ Some n → use_tokens n (table cs).uses ≡ uses_of (binder_numbered (table cs) n).token (mentions cs) }
    ensures answer { (cs : List CommandTree) (o n : ℕ) → binder_at (table cs) o ≡ Some n → HasName cs n × (answer_for cs n ≡ n) }
    ensures kinds { (cs : List CommandTree) (high o n : ℕ) → Ascend 0 (mentions cs) high → binder_at (table cs) o ≡ Some n → AllByRecursion (λ m. binder_of m ≡ Some (binder_numbered (table cs) n).token → kind_of m ≡ kind_of_binder cs n) (mentions cs) }
{}

/// The nameless form of commands does not depend on byte offsets.
pub fn forms_have_no_places()
    ensures { (cs : List CommandTree) (place : ℕ → ℕ) (letters : Letters) → forms (map (respelled_command place letters) cs) ≡ forms (map (respelled_command (λ o. o) letters) cs) }
{}

/// To rename a binder of a text and its uses is to replace their tokens and no others, so no label changes.
pub fn renamed_at_tokens()
    ensures { (cs : List CommandTree) (o n : ℕ) (new : Name) → AreSpelledFrom 0 cs → binder_at (table cs) o ≡ Some n → map (respelled_command (λ o. o) (renaming ((binder_numbered (table cs) n).token ∷ use_tokens n (table cs).uses) new)) cs ≡ renamed n new cs }
{}

/// A request to rename a binder has just one answer: the tokens to replace, or one of the three refusals. An error of allocation
/// says nothing about the new name.
pub fn one_answer_to_a_rename()
    ensures some { (cs : List CommandTree) (n : ℕ) (new : Name) → ((spans : List Span) × AreRenamed cs n new spans) ⊎ ((fault : RenameFault) × (fault ≢ Memory) × IsRefused cs n new fault) }
    ensures tokens { (cs : List CommandTree) (n : ℕ) (new : Name) (spans others : List Span) → AreRenamed cs n new spans → AreRenamed cs n new others → spans ≡ others }
    ensures fault { (cs : List CommandTree) (n : ℕ) (new : Name) (fault other : RenameFault) → fault ≢ Memory → other ≢ Memory → IsRefused cs n new fault → IsRefused cs n new other → fault ≡ other }
    ensures apart { (cs : List CommandTree) (n : ℕ) (new : Name) (spans : List Span) (fault : RenameFault) → AreRenamed cs n new spans → IsRefused cs n new fault → fault ≡ Memory }
{}

/// Replaces a projection's label, at its byte offset and nowhere else. The projection then asks the same term for the new label;
/// all terms before it, and the first written type over the size limit, stay as they were.
pub fn a_label_is_free()
    ensures number { (cs : List CommandTree) (o : ℕ) (l : Label) → projection_at o (labelled o l cs) ≡ projection_at o cs }
    ensures labelled { (cs : List CommandTree) (high o n : ℕ) (l : Label) → Ascend 0 (mentions cs) high → projection_at o cs ≡ Some n → AreLabelled cs (labelled o l cs) n l }
{}

/// What a command means depends only on what its free names and its type names mean. If the type names of a written type stand
/// for the same in two environments, its expansion and its diagnostics are the same in both, and so are a command's diagnostics
/// of written types and its first written type over the size limit. If also the free names of a term mean the same under other
/// binders, in a context of their own, then the term's two forms are alike, and so is what a command states.
pub fn free_names_decide()
    ensures expansions { (bs cs : List Abbreviation) (u : TypeTree) → StandForTheSame (free_type_names_in u) bs cs → expansion bs u ≡ expansion cs u }
    ensures faults { (bs cs : List Abbreviation) (u : TypeTree) → StandForTheSame (free_type_names_in u) bs cs → type_faults bs u ≡ type_faults cs u }
    ensures command_faults { (bs cs : List Abbreviation) (c : CommandTree) → StandForTheSame (free_type_names_in_command c) bs cs → faults_in bs (written_in_command c) ≡ faults_in cs (written_in_command c) }
    ensures command_limits { (bs cs : List Abbreviation) (c : CommandTree) → StandForTheSame (free_type_names_in_command c) bs cs → first_over_limit bs (written_in_command c) ≡ first_over_limit cs (written_in_command c) }
    ensures forms { (bs cs : List Abbreviation) (xs : List (Option Name)) (g : Context) (ys : List (Option Name)) (h : Context) (t : TermTree) → length xs ≡ length g → length ys ≡ length h → MeanTheSame (free_in t) xs g ys h → StandForTheSame (free_type_names_in_types (written_in t)) bs cs → AreAlike g (nameless bs xs t) h (nameless cs ys t) }
    ensures statements { (bs cs : List Abbreviation) (xs : List (Option Name)) (g : Context) (ys : List (Option Name)) (h : Context) (c : CommandTree) → length xs ≡ length g → length ys ≡ length h → MeanTheSame (free_in_command c) xs g ys h → StandForTheSame (free_type_names_in_command c) bs cs → AreAlikeStatements g (statement bs xs c) h (statement cs ys c) }
{}
