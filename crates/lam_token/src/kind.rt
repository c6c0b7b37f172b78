//! The kinds of tokens.

/// The kind of a token.
#[derive(Clone, Copy, Debug, PartialEq, Eq)]
pub enum Kind {
    /// An identifier whose first character is `_` or a letter other than `A` to `Z`.
    Name,
    /// An identifier whose first character is `A` to `Z`.
    TypeName,
    /// One or more decimal digits.
    Numeral,
    Lambda,
    If,
    Then,
    Else,
    Let,
    Letrec,
    In,
    Fix,
    Succ,
    Pred,
    IsZero,
    True,
    False,
    /// The keyword `unit`.
    UnitTerm,
    As,
    BoolType,
    NatType,
    /// The keyword `Unit`.
    UnitType,
    TopType,
    Semicolon,
    Equals,
    Colon,
    Dot,
    Comma,
    OpenParen,
    CloseParen,
    OpenBrace,
    CloseBrace,
    /// The two characters `->`.
    Arrow,
    /// A `_` by itself.
    Underscore,
    /// A character at which no lexeme begins.
    BadCharacter,
    /// An unclosed comment, which extends to the end of the text.
    BadComment,
}
