//! The name under the cursor.
ghost use Rattle.std.specs.Prelude.{◌≡◌, List, Some, None, if◌then◌else◌};
ghost use Rattle.std.specs.Option.{option_map};
ghost use Rattle.lam_token.specs.Lexeme.{Lexeme, start_of};
ghost use Rattle.lam_token.specs.Cut.{AreTokensOf};
ghost use Rattle.lam_token.specs.Edits.{is_name_kind};
ghost use Rattle.lam_query.specs.Touched.{is_name_over, is_name_before, touched};

use lam_token::{Kind, Token, first_token};

/// Returns the byte offset at which the name or type name under the cursor starts: the one that contains the byte at the offset,
/// or else the one that ends there.
pub(crate) fn touched(text: &str, offset: usize) -> Option<usize>
    ensures { (tokens : List Lexeme) → AreTokensOf text.now tokens → result ≡ option_map start_of (touched offset tokens) }
{
    let mut before = None;
    let mut rest = text;
    let mut start = 0;
    while let Some((token, after)) = first_token(rest, start) {
        if is_name_over(&token, offset) {
            return Some(token.start());
        }
        if before.is_none() {
            before = name_before(&token, offset);
        }
        rest = after;
        start = token.end();
    }
    before
}

/// Whether the token is a name or a type name that contains the byte at the offset.
fn is_name_over(token: &Token<'_>, offset: usize) -> bool
    ensures { result ≡ is_name_over offset token.now }
{
    is_name(token.kind()) && token.start() <= offset && offset < token.end()
}

/// Returns the start of the token, if it is a name or a type name that ends at the offset.
fn name_before(token: &Token<'_>, offset: usize) -> Option<usize>
    ensures { result ≡ if is_name_before offset token.now then Some (start_of token.now) else None }
{
    if !is_name(token.kind()) {
        return None;
    }
    if token.end() != offset {
        return None;
    }
    Some(token.start())
}

fn is_name(kind: Kind) -> bool
    ensures { result ≡ is_name_kind kind }
{
    matches!(kind, Kind::Name | Kind::TypeName)
}
