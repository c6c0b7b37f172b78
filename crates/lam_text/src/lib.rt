//! Texts as an editor sees them: lines, positions in the units that the client chose, and edits.
//!
//! A [`Doc`] holds a text. It converts between positions and byte offsets, and applies lists of changes. In contracts a document
//! is its text and its encoding. Internally it also keeps, for each line, where it starts and whether it is all ASCII. This index
//! is built with `memchr` when the text is set as a whole, and only updated by a change to a range.
//!
//! This crate does not deal with JSON, URIs or versions, or the meaning of the text.
#![tactic(auto)]

mod changes;
mod document;
mod index;
mod laws;
mod places;
mod splice;
mod units;

pub use changes::Change;
pub use document::Doc;
pub use laws::{line_counts_ends, longest_front, one_cut, position_comes_back, range_is_unordered};
pub use places::{Position, Range};
pub use units::Encoding;
