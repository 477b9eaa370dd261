//! What a partial decoder keeps of the stored value.
use crate::sharding::shard_index::ShardIndex;
use zarrs_array_bytes::ArrayBytes;

/// Where the cache stands: nowhere; at the bytes above so many of the first bytes-to-bytes codecs;
/// at the chunk that the array-to-bytes codec reads.
#[derive(Clone, Copy, Debug, PartialEq, Eq)]
pub(crate) enum CacheStage {
    Nowhere,
    Bytes(usize),
    Chunk,
}

/// What is kept: nothing, so that the handle is asked; the index of a shard, so that the handle is
/// asked for inner chunks alone; the bytes above so many of the first bytes-to-bytes codecs; the chunk
/// that the array-to-bytes codec reads. `None` inside says that nothing is stored.
#[derive(Drop)]
pub(crate) enum Cache {
    Handle,
    Index(Option<ShardIndex>),
    Bytes(usize, Option<Vec<u8>>),
    Chunk(Option<ArrayBytes<'static>>),
}
