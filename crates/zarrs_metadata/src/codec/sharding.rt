//! Settings of the codec `sharding_indexed`.
ghost use Rattle.std.specs.Prelude.{◌≡◌};

/// Where the index of codec `sharding_indexed` stands (Zarr v3 codecs, its key `index_location`).
#[derive(Clone, Copy, Debug, PartialEq, Eq)]
pub enum ShardingIndexLocation {
    /// Before the values of the inner chunks.
    Start,
    /// Behind the values of the inner chunks.
    End,
}

impl Default for ShardingIndexLocation {
    /// Behind the values of the inner chunks.
    fn default() -> ShardingIndexLocation
        ensures value { result ≡ ShardingIndexLocation.End }
    {
        ShardingIndexLocation::End
    }
}
