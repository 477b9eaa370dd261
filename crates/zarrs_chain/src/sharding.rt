//! The codec `sharding_indexed`: chunks divided into inner chunks.
pub(crate) mod chunk_room;
pub(crate) mod create;
pub(crate) mod kept_bytes;
pub(crate) mod kept_inner_chunk;
pub(crate) mod left_out;
pub(crate) mod normal_form;
pub(crate) mod shard_bands;
pub(crate) mod shard_decode;
pub(crate) mod shard_encode;
pub(crate) mod shard_form;
pub(crate) mod shard_index;
pub(crate) mod shard_rows;
pub(crate) mod sharding_codec;
pub(crate) mod sharding_codec_traits;
pub(crate) mod sharding_parts;
