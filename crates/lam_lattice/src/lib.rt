//! Joins (least common supertypes) and meets (greatest common subtypes) of types (TAPL 16.3). Every two types have a
//! join, since Top is a supertype of all types; they have a meet exactly if some type is a subtype of both.
#![tactic(auto)]

mod bounds;
mod laws;
mod matching;
mod numbers;

pub use bounds::{join, meet};
pub use laws::{
    bounds_in_order_are_one, each_pair_has_a_meet_or_nothing_below, every_pair_has_a_join,
};
pub use numbers::{join_no, meet_no};
