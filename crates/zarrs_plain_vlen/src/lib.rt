//! A plain `vlen` read in part: its index whole, and of the data the bytes of the elements that are
//! selected alone.
//!
//! A codec `vlen` is plain where its index chain is `bytes` with a byte order, and its data chain is
//! `bytes`, both alone ([`PlainVlen`]). [`read_runs`] reads elements by runs of places over a lent
//! handle, and the [`laws`] say what such a read has to do with the whole value.
//!
//! [`PlainVlen`]: zarrs_chain_meaning::vlen::plain_vlen::PlainVlen
#![tactic(auto)]

mod elements;
mod handle_reads;
mod index;
pub mod laws;
mod layout;
mod offsets;
mod runs;

pub use runs::read_runs;
