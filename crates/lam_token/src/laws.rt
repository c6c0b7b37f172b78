//! Properties of the lexer that hold for all texts.
//! Each is stated as the contract of a function that does nothing.
ghost use Rattle.std.specs.Prelude.{◌≡◌, ◌↔◌, ℕ, ◌+◌, List, ◌∷◌, ◌++◌, Some, length, map, All};
ghost use Rattle.std.specs.Str.{IsUtf8};
ghost use Rattle.lam_token.specs.declared.kind.Kind.{Kind};
ghost use Rattle.lam_token.specs.declared.kind.Kind.TheVariants.{Semicolon};
ghost use Rattle.lam_token.specs.declared.span.Span.{Span};
ghost use Rattle.lam_token.specs.Lexeme.{Lexeme, kind_of};
ghost use Rattle.lam_token.specs.Shape.{rest_of_comment};
ghost use Rattle.lam_token.specs.Comment.{Inside};
ghost use Rattle.lam_token.specs.Cut.{Part, IsCut, AreTokensFrom, AreTokensOf, KeepsLineEnds};
ghost use Rattle.lam_token.specs.Edits.{edited, retold, IsNewName};
ghost use Rattle.lam_token.specs.Divided.{SemicolonEndsAt, EndsInSemicolon, IsDividedAfter};
ghost use Rattle.lam_token.specs.MovedTokens.{moved_by, moved_from};

/// Comments nest: scanning marks from the left while counting the open ones agrees with the grammar of comments.
pub fn comments_nest()
    ensures { (text rest : List ℕ) → (rest_of_comment 1 32 text ≡ Some rest) ↔ Inside text rest }
{}

/// Every list of characters can be cut into segments. That the cut is unique is stated by `lex`.
pub fn some_cut()
    ensures { (text : List ℕ) → (parts : List Part) × IsCut text parts }
{}

/// No token begins or ends between a CR and an LF.
pub fn line_ends_stay_whole(text: &str)
    ensures { (tokens : List Lexeme) → AreTokensOf text.now tokens → All (KeepsLineEnds text.now) tokens }
{}

/// Replacing names by a name, or type names by a type name, leaves all other tokens of the text unchanged, except that
/// their offsets shift by the change in length of the text before them.
pub fn names_change_alone()
    ensures tokens { (kind : Kind) (text new : List ℕ) (tokens : List Lexeme) (spans : List Span) → IsNewName kind text new tokens spans → AreTokensOf (edited text spans new) (map (retold spans new) tokens) }
    ensures text { (kind : Kind) (text new : List ℕ) (tokens : List Lexeme) (spans : List Span) → IsNewName kind text new tokens spans → IsUtf8 (edited text spans new) }
{}

/// A semicolon divides a text. If the last token of a prefix is a semicolon that ends at the last byte of the prefix, the
/// tokens of the whole text are those of the prefix followed by those of the rest, and no others. Parts of a text can be
/// joined in this way too, and a text can be divided in this way after each semicolon among its tokens.
pub fn a_semicolon_divides()
    ensures joined { (front rest : List ℕ) (before behind : List Lexeme) → IsUtf8 front → AreTokensOf front before → EndsInSemicolon front before → AreTokensFrom (length front) rest behind → AreTokensOf (front ++ rest) (before ++ behind) }
    ensures only { (front rest : List ℕ) (before all : List Lexeme) → IsUtf8 front → AreTokensOf front before → EndsInSemicolon front before → AreTokensOf (front ++ rest) all → (behind : List Lexeme) × (all ≡ before ++ behind) × AreTokensFrom (length front) rest behind }
    ensures part { (start : ℕ) (front rest : List ℕ) (before behind : List Lexeme) → IsUtf8 front → AreTokensFrom start front before → SemicolonEndsAt (start + length front) before → AreTokensFrom (start + length front) rest behind → AreTokensFrom start (front ++ rest) (before ++ behind) }
    ensures after { (text : List ℕ) (before : List Lexeme) (t : Lexeme) (behind : List Lexeme) → IsUtf8 text → AreTokensOf text (before ++ (t ∷ behind)) → kind_of t ≡ Semicolon → IsDividedAfter text before t behind }
{}

/// The tokens of a text that starts at a byte offset are those of the text alone, moved forward by that offset. They can
/// be moved from any starting offset to any other. Tokens that end in a semicolon still do when moved.
pub fn places_move()
    ensures further { (count : ℕ) (text : List ℕ) (tokens : List Lexeme) → AreTokensOf text tokens → AreTokensFrom count text (map (moved_by count) tokens) }
    ensures back { (count : ℕ) (text : List ℕ) (tokens : List Lexeme) → AreTokensFrom count text tokens → (others : List Lexeme) × AreTokensOf text others × (tokens ≡ map (moved_by count) others) }
    ensures anywhere { (start other : ℕ) (text : List ℕ) (tokens : List Lexeme) → AreTokensFrom start text tokens → AreTokensFrom other text (map (moved_from start other) tokens) }
    ensures ends { (count end : ℕ) (tokens : List Lexeme) → SemicolonEndsAt end tokens → SemicolonEndsAt (end + count) (map (moved_by count) tokens) }
{}
