//! Runs of places of a shard, by inner chunks: which inner chunks have any of them, and in which order
//! what is read of these is the answer ([`group_runs`]); an indexer of places ([`runs_indexer`]); and
//! a window of a shard as one of the inner chunk in which it lies ([`inner_box`]). What the parts of a
//! window in the inner chunks that it touches are, and that they make it again, is in [`laws`].
#![tactic(auto)]

mod block_rows;
mod cut_runs;
mod grouped_runs;
mod inner_boxes;
pub mod laws;
mod one_inner_chunk;
mod reading_order;
mod run_selection;

pub use grouped_runs::{GroupedRuns, InnerRuns, group_runs};
pub use inner_boxes::{InnerBox, inner_box};
pub use run_selection::runs_indexer;
