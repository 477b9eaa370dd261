//! Pairs of decoded and encoded bytes.

/// Some bytes, and what a codec encodes them as.
#[derive(Clone, Copy, Debug)]
pub struct Pair<'a> {
    /// The bytes.
    pub decoded: &'a [u8],
    /// What they are encoded as.
    pub encoded: &'a [u8],
}
