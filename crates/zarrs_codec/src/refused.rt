//! The error of a constructor that was given a handle.
use zarrs_chunk::CodecError;

/// Why a partial coder wasn't made, and the handle that was handed in, as it stands.
#[derive(Debug, Drop)]
pub struct Refused<H> {
    /// The error.
    pub error: CodecError,
    /// The handle that was handed in.
    pub handle: H,
}
