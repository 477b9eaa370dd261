//! Tests of the calls over arrays for C, over the public calls of `zarrs_array_calls`. Without tests the
//! crate is empty.
//!
//! What a call answers is proved, where there is memory. Here is what no clause says: that each call
//! succeeds then, and the meaning of codes, buffers and numbers, by worked values. A lack of memory ends a
//! test with that error and is never compared.
#![tactic(auto)]

#[cfg(test)]
mod calls;
#[cfg(test)]
mod parts;
#[cfg(test)]
mod plans;
