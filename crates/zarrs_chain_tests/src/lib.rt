//! Tests of chains, and of each array-to-bytes codec: how many bytes a value has, encoding, decoding, also
//! into a target, making a value shorter, and the metadata that is written of it; and of the line tool's
//! `run` over readers and writers that fail. Without tests the crate is empty.
//!
//! What the line tool shows of chains stands in `zarrs_transcripts`. Here is the rest: sizes,
//! containers with bytes that no element has, what an error carries, and calls that the tool
//! doesn't make. Chains and chunks are given as in the tool's headers. Answers are written by hand.
//! Out of memory ends a test with that error and is never compared.
#![tactic(auto)]

#[cfg(test)]
mod checks;
#[cfg(test)]
mod codecs;
#[cfg(test)]
mod forms;
#[cfg(test)]
mod lists;
#[cfg(test)]
mod nested;
#[cfg(test)]
mod nested_rows;
#[cfg(test)]
mod plain_rows;
#[cfg(test)]
mod refusals;
#[cfg(test)]
mod targets;
#[cfg(test)]
mod tool;
#[cfg(test)]
mod whole;
#[cfg(test)]
mod whole_rows;
