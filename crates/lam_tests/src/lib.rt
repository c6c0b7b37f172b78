//! Tests of the library crates through their public functions: tables of inputs with the expected results.
//!
//! A crate with tests is proved a second time, so the library crates have none, and this crate has nothing else. What a client of
//! the programs can see is tested by the files in `rows/` at the top of the repository, which are played through the programs.
#![tactic(auto)]

#[cfg(test)]
mod answers;
#[cfg(test)]
mod bounds;
#[cfg(test)]
mod changes;
#[cfg(test)]
mod derivations;
#[cfg(test)]
mod frames;
#[cfg(test)]
mod rules;
#[cfg(test)]
mod subtyping;
#[cfg(test)]
mod table;
#[cfg(test)]
mod texts;
#[cfg(test)]
mod tokens;
#[cfg(test)]
mod written;
