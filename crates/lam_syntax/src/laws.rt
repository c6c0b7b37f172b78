//! Properties of the grammar that hold for all lists of tokens.
//! Each is stated as the contract of a function that does nothing.
ghost use Rattle.std.specs.Prelude.{◌≡◌, ◌⊎◌, ◌↔◌, ℕ, List, [], ◌∷◌, ◌++◌, map, take};
ghost use Rattle.std.specs.Str.{IsUtf8};
ghost use Rattle.lam_token.specs.Lexeme.{Lexeme, start_of};
ghost use Rattle.lam_token.specs.Cut.{AreTokensOf};
ghost use Rattle.lam_token.specs.Edits.{respelled};
ghost use Rattle.lam_syntax.specs.Trees.{CommandTree};
ghost use Rattle.lam_syntax.specs.Grammar.{Spells, Begins};
ghost use Rattle.lam_syntax.specs.Answers.{GoesWrongAt, EndsEarly, IsLexed, pieces_of};
ghost use Rattle.lam_syntax.specs.Continued.{IsContinued};
ghost use Rattle.lam_syntax.specs.Respelled.{Letters, respelled_command};

/// Tokens form a command, go wrong at a token, or end early. Exactly one of these holds, and the wrong token is unique.
pub fn one_answer()
    ensures some { (ts : List Lexeme) → ((c : CommandTree) × Spells ts c) ⊎ (((k : ℕ) × GoesWrongAt ts k) ⊎ EndsEarly ts) }
    ensures one_place { (ts : List Lexeme) (j k : ℕ) → GoesWrongAt ts j → GoesWrongAt ts k → j ≡ k }
    ensures not_wrong { (ts : List Lexeme) (k : ℕ) → Begins ts → GoesWrongAt ts k → ⊥ }
    ensures command_begins { (ts : List Lexeme) (c : CommandTree) → Spells ts c → Begins ts }
{}

/// Changing the spellings and spans of tokens, but not their kinds, changes only the spellings and spans in the tree that
/// they derive. The division into pieces stays the same, and so does whether `parse` accepts the tokens for parsing.
pub fn letters_and_places_are_free()
    ensures commands { (place : ℕ → ℕ) (letters : Letters) (ts : List Lexeme) (c : CommandTree) → Spells ts c → Spells (map (respelled place letters) ts) (respelled_command place letters c) }
    ensures pieces { (place : ℕ → ℕ) (letters : Letters) (ts : List Lexeme) → pieces_of (map (respelled place letters) ts) ≡ map (map (respelled place letters)) (pieces_of ts) }
    ensures taken { (place : ℕ → ℕ) (letters : Letters) (ts : List Lexeme) → IsLexed (map (respelled place letters) ts) ↔ IsLexed ts }
{}

/// If consecutive tokens of a text begin a command, the text up to the next token, or to its end, can be continued so
/// that they do begin one. So the first wrong token would be the same if `Begins` considered only tokens of texts.
pub fn some_text_goes_on()
    ensures whole { (text : List ℕ) (tokens : List Lexeme) → IsUtf8 text → AreTokensOf text tokens → Begins tokens → IsContinued text [] tokens }
    ensures last { (text : List ℕ) (before : List Lexeme) (t : Lexeme) (ts : List Lexeme) → IsUtf8 text → AreTokensOf text (before ++ (t ∷ ts)) → Begins (t ∷ ts) → IsContinued text before (t ∷ ts) }
    ensures inside { (text : List ℕ) (before tokens : List Lexeme) (t : Lexeme) (behind : List Lexeme) → IsUtf8 text → AreTokensOf text (before ++ (tokens ++ (t ∷ behind))) → Begins tokens → IsContinued (take (start_of t) text) before tokens }
    ensures only { (front : List ℕ) (before tokens : List Lexeme) → IsContinued front before tokens → Begins tokens }
{}
