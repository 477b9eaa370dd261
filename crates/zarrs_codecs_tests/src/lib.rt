//! Tests of chunks that are read and written in part through chains, over the public calls. Without
//! tests the crate is empty.
//!
//! What is read, what is written, what is stored afterwards and why a line fails stands in the
//! transcripts of `zarrs_transcripts`. Here is what no line of the tool shows: which bytes are
//! planned and how many are kept, which bytes a read asks for, what a failed construction hands back,
//! edits and reads over handles that fail, tear their value or hold back bytes, the decoder of a
//! `vlen` codec by itself, and the traits of coders.
//!
//! Chunks, values, indexers and elements are the texts that the tool takes. Answers are written by
//! hand. Out of memory ends a test with that error and is never compared.
#![tactic(auto)]

#[cfg(test)]
mod checks;
#[cfg(test)]
mod chunks;
#[cfg(test)]
mod coder_rows;
#[cfg(test)]
mod coders;
#[cfg(test)]
mod edits;
#[cfg(test)]
mod fenced;
#[cfg(test)]
mod handles;
#[cfg(test)]
mod kept_indexes;
#[cfg(test)]
mod reads;
#[cfg(test)]
mod rounds;
#[cfg(test)]
mod rows;
#[cfg(test)]
mod shards;
#[cfg(test)]
mod uses;
