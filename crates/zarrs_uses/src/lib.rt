//! Programs of a caller who proves something of their own by the contracts of the library.
//!
//! Each module is one such program. What it rests on are public clauses, by their labels, and the laws
//! of `zarrs_codecs`; `docs/CALLING.md` goes through them. Their tests are in
//! `zarrs_codecs_tests`.
#![tactic(auto)]

pub mod array_region;
pub mod cache;
pub mod own_codec;
pub mod reencoding;
pub mod windows;
