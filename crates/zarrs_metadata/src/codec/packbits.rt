//! Settings of the codec `packbits`.
ghost use Rattle.std.specs.Prelude.{◌≡◌};

/// Where the padding byte of codec `packbits` stands (zarr-extensions, its key `padding_encoding`).
/// The byte is how many bits of the last packed byte hold nothing.
#[derive(Clone, Copy, Debug, PartialEq, Eq)]
pub enum PackBitsPaddingEncoding {
    /// There is none.
    None,
    /// It is the first byte of the value.
    FirstByte,
    /// It is the last byte of the value.
    LastByte,
}

impl Default for PackBitsPaddingEncoding {
    /// No padding byte.
    fn default() -> PackBitsPaddingEncoding
        ensures value { result ≡ PackBitsPaddingEncoding.None }
    {
        PackBitsPaddingEncoding::None
    }
}
