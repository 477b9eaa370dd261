//! What codecs can do in part.

/// What a codec can read of a chunk without the rest.
#[derive(Clone, Copy, Debug, PartialEq, Eq)]
pub struct PartialDecoderCapability {
    /// Whether it reads a part of its input, and not all of it.
    pub partial_read: bool,
    /// Whether it decodes a part of its input.
    pub partial_decode: bool,
}

/// What a codec can write of a chunk without the rest.
#[derive(Clone, Copy, Debug, PartialEq, Eq)]
pub struct PartialEncoderCapability {
    /// Whether it writes a part of its output, and not all of it.
    pub partial_encode: bool,
}
