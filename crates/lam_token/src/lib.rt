//! The lexer of the language: cuts a text into tokens, always taking the longest match.
//!
//! Each segment is the longest prefix of the remaining text that is one white-space character, a closed comment or a
//! lexeme. Without such a prefix it is an error token: an unclosed comment, which takes the rest of the text, or a single
//! character. White space and closed comments are dropped; each remaining token has its kind and its span in bytes.
//!
//! This crate does not parse.
#![tactic(auto)]

mod characters;
mod kind;
mod laws;
mod lexer;
mod names;
mod scan;
mod segment;
mod span;
mod token;
mod words;

pub use kind::Kind;
pub use laws::{a_semicolon_divides, comments_nest, names_change_alone, places_move, some_cut};
pub use lexer::{first_token, lex};
pub use names::{is_name, is_type_name, placeholder};
pub use span::Span;
pub use token::Token;
