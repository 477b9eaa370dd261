//! What `sharding_indexed` is made of: its configuration, its inner chunks, the parts of its values.
pub mod configuration;
pub mod inner_chunks;
pub mod shard_parts;
