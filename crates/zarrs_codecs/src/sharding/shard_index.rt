//! What is kept of a shard.
ghost use Rattle.std.specs.Prelude.{◌≡◌, ◌*◌, length};
ghost use Rattle.zarrs_chain_meaning.specs.sharding.Sharding.{spans_of};

/// What is kept of a shard: how many bytes it has, and the numbers of its index, two for each inner
/// chunk.
#[derive(Drop)]
pub(crate) struct ShardIndex {
    pub(crate) len: u64,
    pub(crate) numbers: Vec<usize>,
    ghost count: { length numbers.items ≡ length (spans_of numbers.items) * 2 },
}
