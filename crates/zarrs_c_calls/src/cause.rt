//! Why a call fails, and the number that says so.
ghost use Rattle.std.specs.Prelude.{◌≡◌};
ghost use Rattle.zarrs_json.specs.declared.refusal.Refusal.TheVariants.{Codec};
ghost use Rattle.zarrs_chunk.specs.declared.codec_error.CodecError.TheVariants.{OutOfMemory};
ghost use Rattle.zarrs_c_calls.specs.declared.cause.Cause.TheVariants.{Refused};
ghost use Rattle.zarrs_c_calls.specs.Codes.{codec_code as code_of_codec, making_code as code_of_making, refusal_code as code_of_refusal, cause_code as code_of_cause};

use std::alloc::{AllocError, AllocFailed};
use zarrs_chunk::CodecError;
use zarrs_json::Refusal;
use zarrs_metadata::PluginCreateError;

/// Why a call fails.
#[derive(Clone, Copy, Debug)]
pub enum Cause {
    /// An argument is out of its form: masks that aren't of one length, or numbers that are no
    /// selection.
    Argument,
    /// Edits aren't written where the value stands.
    NotInPlace,
    /// An error of the library.
    Refused(Refusal),
}

impl From<Refusal> for Cause {
    ghost from_gives = { λ refusal cause. cause ≡ Refused refusal };

    fn from(refusal: Refusal) -> Cause {
        Cause::Refused(refusal)
    }
}

impl From<CodecError> for Cause {
    ghost from_gives = { λ error cause. cause ≡ Refused (Codec error) };

    fn from(error: CodecError) -> Cause {
        Cause::Refused(Refusal::Codec(error))
    }
}

impl From<AllocError> for Cause {
    ghost from_gives = { λ _ cause. cause ≡ Refused (Codec OutOfMemory) };

    fn from(_error: AllocError) -> Cause {
        Cause::Refused(Refusal::Codec(CodecError::OutOfMemory))
    }
}

impl<T: Drop> From<AllocFailed<T>> for Cause {
    ghost from_gives = { λ _ cause. cause ≡ Refused (Codec OutOfMemory) };

    fn from(_error: AllocFailed<T>) -> Cause {
        Cause::Refused(Refusal::Codec(CodecError::OutOfMemory))
    }
}

fn codec_code(error: &CodecError) -> u32
    ensures value { result ≡ code_of_codec error.now }
{
    match error {
        CodecError::OutOfMemory => 10,
        CodecError::Storage(_) => 11,
        CodecError::UnsupportedDataType(_) => 12,
        CodecError::EndiannessMissing => 13,
        CodecError::ArrayBytesKind => 14,
        CodecError::InvalidBytesLength {
            len: _,
            expected: _,
        } => 15,
        CodecError::IncompatibleDimensionality => 16,
        CodecError::OutOfBounds => 17,
        CodecError::Overflow => 18,
        CodecError::InvalidFillValue => 19,
        CodecError::ReshapeDimension => 20,
        CodecError::ReshapeElements => 21,
        CodecError::BitRange => 22,
        CodecError::PaddingByte => 23,
        CodecError::IndexLength => 24,
        CodecError::InvalidOffsets => 25,
        CodecError::OffsetTooLarge => 26,
        CodecError::OffsetNotKept => 27,
        CodecError::MaskValue => 28,
        CodecError::HeaderOverflow => 29,
        CodecError::InvalidByteRange => 30,
        CodecError::BytesCodec(_) => 31,
        CodecError::DataMismatch => 32,
        CodecError::UnsupportedTarget => 33,
        CodecError::TargetMismatch => 34,
        CodecError::ReversedRange => 35,
        CodecError::ElementCount => 36,
        CodecError::IndivisibleShape => 37,
        CodecError::IndexNotFixed => 38,
    }
}

fn making_code(error: &PluginCreateError) -> u32
    ensures value { result ≡ code_of_making error.now }
{
    match error {
        PluginCreateError::OutOfMemory => 10,
        PluginCreateError::UnknownName => 50,
        PluginCreateError::InvalidConfiguration => 51,
        PluginCreateError::MissingArrayToBytes => 52,
        PluginCreateError::MultipleArrayToBytes => 53,
        PluginCreateError::BitOrder => 54,
        PluginCreateError::MultipleAuto => 55,
        PluginCreateError::ZeroSize => 56,
        PluginCreateError::NotAPermutation => 57,
    }
}

fn refusal_code(refusal: &Refusal) -> u32
    ensures value { result ≡ code_of_refusal refusal.now }
{
    match refusal {
        Refusal::Syntax => 2,
        Refusal::Codec(error) => codec_code(error),
        Refusal::Making(error) => making_code(error),
    }
}

/// The number of a cause.
pub(crate) fn cause_code(cause: &Cause) -> u32
    ensures value { result ≡ code_of_cause cause.now }
{
    match cause {
        Cause::Argument => 3,
        Cause::NotInPlace => 4,
        Cause::Refused(refusal) => refusal_code(refusal),
    }
}
