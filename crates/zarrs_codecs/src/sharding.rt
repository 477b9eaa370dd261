//! Reading a chunk of `sharding_indexed` in part.
pub(crate) mod box_reads;
mod index_read;
mod inner_reads;
mod joint_reads;
pub(crate) mod kept_index;
mod leaf_reads;
mod part_reads;
pub(crate) mod shard_index;
pub(crate) mod shard_runs;
mod span_bytes;
mod taken_chain;
mod taken_parts;
mod value_span;
