//! Tests of `zarrs_array_plan`, over its public calls. Without tests the crate is empty.
//!
//! What a contract says of a call, with its errors, is proved. Here are the texts of keys, and each call
//! once at least. Answers are written by hand. A lack of memory ends a test with that error and is never
//! compared, so a run in which an allocation fails shows each answer that changes otherwise.
#![tactic(auto)]

#[cfg(test)]
mod checks;
#[cfg(test)]
mod elements;
#[cfg(test)]
mod grids;
#[cfg(test)]
mod keys;
#[cfg(test)]
mod plans;
