//! Tests of the calls for C, over the public calls of `zarrs_c_calls`. Without tests the crate is
//! empty.
//!
//! What a call answers is proved, where there is memory. Here is what no clause says: that each call
//! succeeds then, and the meaning of codes, buffers and selections, by worked values. What the codecs make
//! of elements stands in the transcripts of `zarrs_transcripts`. A lack of memory ends a test with that
//! error and is never compared.
#![tactic(auto)]

#[cfg(test)]
mod calls;
#[cfg(test)]
mod kept_calls;
#[cfg(test)]
mod part_rows;
#[cfg(test)]
mod round_rows;
#[cfg(test)]
mod rows;
#[cfg(test)]
mod short_calls;
#[cfg(test)]
mod whole_rows;
#[cfg(test)]
mod write_rows;
