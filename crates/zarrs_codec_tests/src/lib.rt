//! Tests of handles and of single codecs, over the public calls of `zarrs_codec`, `zarrs_bytes`,
//! `zarrs_packbits`, `zarrs_crc32c` and `zarrs_pairs`. Without tests the crate is empty.
//!
//! What codecs write and read stands in the transcripts of `zarrs_transcripts`, and whole chunks by
//! the traits in `zarrs_chain_tests`. Here is what no line of the tool shows: planned ranges, sizes held,
//! the lengths of values, handles that are lent, that fail and that keep a record, and known checksums.
//! Answers are written by hand. A lack of memory ends a test with that error and is never compared.
#![tactic(auto)]

#[cfg(test)]
mod bytes;
#[cfg(test)]
mod checks;
#[cfg(test)]
mod crc32c;
#[cfg(test)]
mod forms;
#[cfg(test)]
mod packbits;
#[cfg(test)]
mod pairs;
