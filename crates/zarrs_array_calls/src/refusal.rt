//! Why a call fails, and the number that says so.
ghost use Rattle.std.specs.Prelude.{◌≡◌};
ghost use Rattle.zarrs_chunk.specs.declared.codec_error.CodecError.TheVariants.{OutOfMemory};
ghost use Rattle.zarrs_array_calls.specs.Refusals.{error_number as number_of_error, refusal_number as number_of_refusal};
ghost use Rattle.zarrs_array_calls.specs.declared.refusal.ArrayRefusal.TheVariants.{Codec};

use std::alloc::{AllocError, AllocFailed};
use zarrs_chunk::CodecError;

/// Why a call fails.
#[derive(Clone, Copy, Debug)]
pub enum ArrayRefusal {
    /// An argument is out of its form: no key encoding, no box, no part, or elements without a byte.
    Argument,
    /// A size of a chunk is zero, or a length of a region that a part is of.
    ZeroSize,
    /// An error of the library.
    Codec(CodecError),
}

impl From<CodecError> for ArrayRefusal {
    ghost from_gives = { λ error refusal. refusal ≡ Codec error };

    fn from(error: CodecError) -> ArrayRefusal {
        ArrayRefusal::Codec(error)
    }
}

impl From<AllocError> for ArrayRefusal {
    ghost from_gives = { λ _ refusal. refusal ≡ Codec OutOfMemory };

    fn from(_error: AllocError) -> ArrayRefusal {
        ArrayRefusal::Codec(CodecError::OutOfMemory)
    }
}

impl<T: Drop> From<AllocFailed<T>> for ArrayRefusal {
    ghost from_gives = { λ _ refusal. refusal ≡ Codec OutOfMemory };

    fn from(_error: AllocFailed<T>) -> ArrayRefusal {
        ArrayRefusal::Codec(CodecError::OutOfMemory)
    }
}

/// The number of an error that these calls have.
fn error_number(error: &CodecError) -> u32
    ensures value { result ≡ number_of_error error.now }
{
    match error {
        CodecError::OutOfMemory => 10,
        CodecError::InvalidBytesLength {
            len: _,
            expected: _,
        } => 15,
        CodecError::IncompatibleDimensionality => 16,
        CodecError::OutOfBounds => 17,
        CodecError::Overflow => 18,
        CodecError::TargetMismatch => 34,
        CodecError::Storage(_)
        | CodecError::UnsupportedDataType(_)
        | CodecError::EndiannessMissing
        | CodecError::ArrayBytesKind
        | CodecError::InvalidFillValue
        | CodecError::ReshapeDimension
        | CodecError::ReshapeElements
        | CodecError::BitRange
        | CodecError::PaddingByte
        | CodecError::IndexLength
        | CodecError::InvalidOffsets
        | CodecError::OffsetTooLarge
        | CodecError::OffsetNotKept
        | CodecError::MaskValue
        | CodecError::HeaderOverflow
        | CodecError::InvalidByteRange
        | CodecError::BytesCodec(_)
        | CodecError::DataMismatch
        | CodecError::UnsupportedTarget
        | CodecError::ReversedRange
        | CodecError::ElementCount
        | CodecError::IndivisibleShape
        | CodecError::IndexNotFixed => 3,
    }
}

/// The number of what a call fails for.
pub(crate) fn refusal_number(refusal: &ArrayRefusal) -> u32
    ensures value { result ≡ number_of_refusal refusal.now }
{
    match refusal {
        ArrayRefusal::Argument => 3,
        ArrayRefusal::ZeroSize => 56,
        ArrayRefusal::Codec(error) => error_number(error),
    }
}
