//! Tests of `zarrs_array_metadata`, over its public calls. Without tests the crate is empty.
//!
//! Texts are as the Zarr v3 core specification has them, and as zarr-python 3 writes them; what is
//! written again is worked out by hand. A lack of memory ends a test with that error and is never
//! compared.
#![tactic(auto)]

#[cfg(test)]
mod checks;
#[cfg(test)]
mod errors;
#[cfg(test)]
mod texts;
