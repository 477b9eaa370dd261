//! Tests of what the array-to-bytes codecs are built on, over its public calls: shapes, types,
//! metadata, containers and grids (`base`), and the array-to-array codecs. Without tests the crate is
//! empty.
//!
//! What a contract says of a call, with its errors, is proved, and what the line tool shows stands in the
//! transcripts of `zarrs_transcripts`. Here are calls that the tool doesn't make, each once at least.
//! Answers are written by hand. A lack of memory ends a test with that error and is never compared,
//! so a run in which an allocation fails shows each answer that changes otherwise.
#![tactic(auto)]

#[cfg(test)]
mod array_to_array;
#[cfg(test)]
mod base;
#[cfg(test)]
mod checks;
