//! Byte orders.
ghost use Rattle.std.specs.Prelude.{◌≡◌};

/// The order of the bytes of a component (Zarr v3 codec `bytes`, its key `endian`).
#[derive(Clone, Copy, Debug, PartialEq, Eq)]
pub enum Endianness {
    /// The lowest byte first.
    Little,
    /// The highest byte first.
    Big,
}

impl Endianness {
    /// The order of elements in memory: the lowest byte first, on every machine.
    pub fn native() -> Endianness
        ensures value { result ≡ Endianness.Little }
    {
        Endianness::Little
    }
}
