//! Decides subtyping by the declarative rules of TAPL 15.2, and proves it by those rules where it holds. The algorithm
//! follows the shapes of the two types, without reflexivity or transitivity as rules (TAPL 16.1).
#![tactic(auto)]

mod deciding;
mod fields;
mod kept_bounds;
mod numbers;
mod proving;
mod unchanged;
mod verdicts;

pub use deciding::is_sub;
pub use fields::field_type;
pub use numbers::{field_number, is_sub_no};
pub use proving::prove_sub;
pub use verdicts::{Verdicts, verdicts_stay_right};
