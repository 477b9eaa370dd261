//! Settings of the codec `vlen`.
ghost use Rattle.std.specs.Prelude.{◌≡◌};

/// Which type the offsets of codec `vlen` are stored as (codec.zarrs.dev, its key
/// `index_data_type`).
#[derive(Clone, Copy, Debug, PartialEq, Eq)]
pub enum VlenIndexDataType {
    /// Unsigned numbers of 32 bits.
    UInt32,
    /// Unsigned numbers of 64 bits.
    UInt64,
}

/// Where the offsets of codec `vlen` stand, and their length with them (codec.zarrs.dev, its key
/// `index_location`).
#[derive(Clone, Copy, Debug, PartialEq, Eq)]
pub enum VlenIndexLocation {
    /// Before the elements' bytes.
    Start,
    /// Behind the elements' bytes.
    End,
}

impl Default for VlenIndexLocation {
    /// Before the elements' bytes.
    fn default() -> VlenIndexLocation
        ensures value { result ≡ VlenIndexLocation.Start }
    {
        VlenIndexLocation::Start
    }
}
