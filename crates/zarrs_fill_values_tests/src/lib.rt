//! Tests of names of element types and of fill values, over the public calls of `zarrs_fill_values`.
//! Without tests the crate is empty.
//!
//! The bytes are those of the Zarr v3 core specification's rules, worked out by hand, and written again
//! each value has the text that stands there. A lack of memory ends a test with that error and is never
//! compared.
#![tactic(auto)]

#[cfg(test)]
mod fills;
#[cfg(test)]
mod names;
