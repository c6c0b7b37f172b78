//! The grammar of the language, and a parser for its commands.
//!
//! Semicolons divide the tokens of a document into pieces, and an error in one piece does not affect the others. `parse`
//! returns the unique syntax tree of a piece, or the token at which it stops being the start of a command. Trees keep the
//! span of each term, type, name and binder, and do not borrow the text.
//!
//! This crate does not resolve names or check types, and knows nothing of documents or columns.
#![tactic(auto)]

mod fault;
mod identifier;
mod laws;
mod parse_terms;
mod parse_types;
mod parser;
mod spans;
mod splitting;
mod stop;
mod terms;
mod text;
mod tokens;
mod types;

pub use fault::ParseFault;
pub use identifier::{Binder, Identifier};
pub use laws::{letters_and_places_are_free, one_answer, some_text_goes_on};
pub use parser::parse;
pub use splitting::{is_semicolon, pieces};
pub use terms::{
    Application, Ascription, Command, Conditional, Lambda, Let, Letrec, Prefix, Projection, Tm,
    TmField, TmNode,
};
pub use text::Text;
pub use types::{ArrowTy, TyField, TyNode, WrittenTy};
