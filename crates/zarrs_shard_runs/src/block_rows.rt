//! Places of a shard that follow one another in an inner chunk, too.
ghost use Rattle.std.specs.Prelude.{◌≡◌, ◌<◌, ◌^◌, All, true};
ghost use Rattle.zarrs_chain_meaning.specs.sharding.InnerChunks.{is_divided};
ghost use Rattle.zarrs_chunk.specs.ChunkShape.{product};
ghost use Rattle.zarrs_shard_runs.specs.BlockRows.{AreBlocks};

/// How places of a shard follow one another in its inner chunks.
#[derive(Clone, Copy)]
pub(crate) struct Blocks {
    /// So many places, from each multiple of that number on, are places of one inner chunk that follow
    /// one another: the last axes that inner chunks cover whole are one with that before.
    pub(crate) block: u64,
    /// So many places behind a place of the shard is the one a row below, along the axis before those.
    pub(crate) row: u64,
    /// So many places, from each multiple of that number on, are rows along which no inner chunk ends.
    pub(crate) band: u64,
}

/// How places of a shard of these sizes follow one another in inner chunks of these.
pub(crate) fn blocks_of(parts: &[u64], sizes: &[u64]) -> Blocks
    requires divided { is_divided parts.now sizes.now ≡ true }
    requires positive { All (λ part. 0 < part) parts.now }
    requires sizes_positive { All (λ size. 0 < size) sizes.now }
    requires fits { product sizes.now < 2 ^ 64 }
    ensures blocks { AreBlocks parts.now sizes.now result }
{
    let mut axis = parts.len();
    let mut block = 1;
    let mut row = 1;
    let mut whole = true;
    while whole && axis > 0 {
        axis -= 1;
        block *= parts[axis];
        row *= sizes[axis];
        whole = parts[axis] == sizes[axis];
    }
    if axis == 0 {
        return Blocks {
            block,
            row,
            band: row,
        };
    }
    let band = row * parts[axis - 1];
    Blocks { block, row, band }
}
