//! The keywords of the language.
ghost use Rattle.std.specs.Prelude.{◌≡◌};
ghost use Rattle.lam_token.specs.Words.{words, kind_among, is_capital, kind_of_name, word_kind};

use crate::kind::Kind;

/// The kind of a word whose first character is `first`: a keyword, or else a name or type name.
#[tactic(auto, unfolding(crate::specs::Words::word_kind))]
pub(crate) fn word_kind(first: char, word: &str) -> Kind
    ensures { result ≡ word_kind first word.now }
{
    match language_word(word) {
        Some(kind) => kind,
        None => kind_of_name(first),
    }
}

fn kind_of_name(first: char) -> Kind
    ensures { result ≡ kind_of_name first }
{
    if is_capital(first) {
        Kind::TypeName
    } else {
        Kind::Name
    }
}

#[tactic(auto, unfolding(crate::specs::Words::is_capital))]
fn is_capital(c: char) -> bool
    ensures { result ≡ is_capital c }
{
    c >= 'A' && c <= 'Z'
}

/// The kind of a keyword. Matching on bytes avoids comparing the whole `str` with each keyword in turn.
#[tactic(auto, unfolding(crate::specs::Words::words))]
fn language_word(word: &str) -> Option<Kind>
    ensures { result ≡ kind_among words word.now }
{
    match word.as_bytes() {
        b"lambda" => Some(Kind::Lambda),
        b"if" => Some(Kind::If),
        b"then" => Some(Kind::Then),
        b"else" => Some(Kind::Else),
        b"let" => Some(Kind::Let),
        b"letrec" => Some(Kind::Letrec),
        b"in" => Some(Kind::In),
        b"fix" => Some(Kind::Fix),
        b"succ" => Some(Kind::Succ),
        b"pred" => Some(Kind::Pred),
        b"iszero" => Some(Kind::IsZero),
        b"true" => Some(Kind::True),
        b"false" => Some(Kind::False),
        b"unit" => Some(Kind::UnitTerm),
        b"as" => Some(Kind::As),
        b"Bool" => Some(Kind::BoolType),
        b"Nat" => Some(Kind::NatType),
        b"Unit" => Some(Kind::UnitType),
        b"Top" => Some(Kind::TopType),
        _ => None,
    }
}
