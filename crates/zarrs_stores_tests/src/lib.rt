//! Tests of stores, over the public calls of `zarrs_stores`: values in memory, a key as a handle, and a
//! store that fails. Without tests the crate is empty.
//!
//! Answers are written by hand. A lack of memory ends a test with that error and is never compared.
#![tactic(auto)]

#[cfg(test)]
mod checks;
#[cfg(test)]
mod handles;
#[cfg(test)]
mod values;
#[cfg(test)]
mod watched_store;
