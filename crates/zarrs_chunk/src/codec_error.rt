//! The one error of all layers.
ghost use Rattle.std.specs.Prelude.{◌≡◌};
ghost use Rattle.zarrs_chunk.specs.CodecError.{name_of};
ghost use Rattle.zarrs_chunk.specs.declared.codec_error.CodecError.TheVariants.{OutOfMemory};

use std::alloc::{AllocError, AllocFailed};
use std::error::Error;
use std::fmt;

/// The error of a storage handle: a number of its own.
#[derive(Clone, Copy, Debug, PartialEq, Eq)]
pub struct StorageError {
    /// The number, whose meaning the handle defines.
    pub code: u32,
}

/// The name of a codec, as an error of a data type shows it: each codec's crate has its own.
#[derive(Clone, Copy, PartialEq, Eq)]
pub struct CodecName {
    /// The letters, and zeros behind them.
    pub letters: [u8; 16],
}

const _: () = prove!(size_of::<CodecError>() <= 24);

/// The error of a call of any layer. Nothing in it is on the heap.
///
/// Where several errors hold, each call's contract states which one it returns. `OutOfMemory` may
/// come in place of any of them where a call allocates; that an allocation failed is no clause.
/// Clauses fix the name of an error, and not the text that `Display` writes of it.
#[derive(Clone, Copy, Debug, PartialEq, Eq)]
pub enum CodecError {
    /// An allocation failed.
    OutOfMemory,
    /// The storage handle failed in this call.
    Storage(StorageError),
    /// The codec doesn't accept this data type.
    UnsupportedDataType(CodecName),
    /// No byte order is given, and a component has more than one byte.
    EndiannessMissing,
    /// Fixed, variable or optional elements don't match the data type.
    ArrayBytesKind,
    /// The length or count found, `len`, isn't the one that is due, `expected`.
    InvalidBytesLength { len: u64, expected: u64 },
    /// The axes of an indexer, an order or a tuple differ from those of the shape.
    IncompatibleDimensionality,
    /// A tuple or a range lies outside the shape.
    OutOfBounds,
    /// A product or a sum passes `2^64 - 1`.
    Overflow,
    /// The fill value's bytes don't fit the data type.
    InvalidFillValue,
    /// A reshape names an input axis that isn't there.
    ReshapeDimension,
    /// A reshape changes the number of elements, or its automatic size leaves a rest.
    ReshapeElements,
    /// Bits outside the component, or a width or count of zero.
    BitRange,
    /// The padding byte isn't the number of spare bits.
    PaddingByte,
    /// The length of a `vlen` index passes the bytes that are left beside it.
    IndexLength,
    /// Offsets are missing, fall, or don't end at the bytes' end.
    InvalidOffsets,
    /// An offset doesn't fit 32 bits.
    OffsetTooLarge,
    /// The index codecs don't give back an offset unchanged.
    OffsetNotKept,
    /// A mask byte is neither 0 nor 1.
    MaskValue,
    /// The two lengths of an `optional` value pass `2^64 - 1` with their 16 bytes.
    HeaderOverflow,
    /// A range ends past its bytes: the stored value, what its bytes-to-bytes codecs returned, or the
    /// data part of a `vlen`.
    InvalidByteRange,
    /// The caller's bytes-to-bytes codec failed, with its number.
    BytesCodec(u32),
    /// There isn't one element of data for each place.
    DataMismatch,
    /// Elements of a variable length can't be decoded into a target.
    UnsupportedTarget,
    /// A target's levels, counts or sizes differ from the chunk's, or an element size is zero.
    TargetMismatch,
    /// A range ends before it starts.
    ReversedRange,
    /// A value's count of elements isn't the chunk's.
    ElementCount,
    /// An inner chunk's size doesn't divide the chunk's.
    IndivisibleShape,
    /// The encoded index isn't of a fixed size.
    IndexNotFixed,
}

impl CodecError {
    /// The variant's name, without what it carries.
    pub fn name(&self) -> &'static str
        ensures value { result.now ≡ name_of self.now }
    {
        match self {
            CodecError::OutOfMemory => "OutOfMemory",
            CodecError::Storage(_) => "Storage",
            CodecError::UnsupportedDataType(_) => "UnsupportedDataType",
            CodecError::EndiannessMissing => "EndiannessMissing",
            CodecError::ArrayBytesKind => "ArrayBytesKind",
            CodecError::InvalidBytesLength {
                len: _,
                expected: _,
            } => "InvalidBytesLength",
            CodecError::IncompatibleDimensionality => "IncompatibleDimensionality",
            CodecError::OutOfBounds => "OutOfBounds",
            CodecError::Overflow => "Overflow",
            CodecError::InvalidFillValue => "InvalidFillValue",
            CodecError::ReshapeDimension => "ReshapeDimension",
            CodecError::ReshapeElements => "ReshapeElements",
            CodecError::BitRange => "BitRange",
            CodecError::PaddingByte => "PaddingByte",
            CodecError::IndexLength => "IndexLength",
            CodecError::InvalidOffsets => "InvalidOffsets",
            CodecError::OffsetTooLarge => "OffsetTooLarge",
            CodecError::OffsetNotKept => "OffsetNotKept",
            CodecError::MaskValue => "MaskValue",
            CodecError::HeaderOverflow => "HeaderOverflow",
            CodecError::InvalidByteRange => "InvalidByteRange",
            CodecError::BytesCodec(_) => "BytesCodec",
            CodecError::DataMismatch => "DataMismatch",
            CodecError::UnsupportedTarget => "UnsupportedTarget",
            CodecError::TargetMismatch => "TargetMismatch",
            CodecError::ReversedRange => "ReversedRange",
            CodecError::ElementCount => "ElementCount",
            CodecError::IndivisibleShape => "IndivisibleShape",
            CodecError::IndexNotFixed => "IndexNotFixed",
        }
    }
}

impl fmt::Display for StorageError {
    fn fmt<W: fmt::Write>(&self, f: &mut fmt::Formatter<W>) -> fmt::Result {
        write!(f, "code {}", self.code)
    }
}

impl Error for StorageError {}

impl fmt::Display for CodecName {
    fn fmt<W: fmt::Write>(&self, f: &mut fmt::Formatter<W>) -> fmt::Result {
        for letter in self.letters.iter().filter(|letter| **letter != 0) {
            f.write_char(*letter as char)?;
        }
        Ok(())
    }
}

impl fmt::Debug for CodecName {
    fn fmt<W: fmt::Write>(&self, f: &mut fmt::Formatter<W>) -> fmt::Result {
        fmt::Display::fmt(self, f)
    }
}

impl fmt::Display for CodecError {
    fn fmt<W: fmt::Write>(&self, f: &mut fmt::Formatter<W>) -> fmt::Result {
        match self {
            CodecError::Storage(error) => write!(f, "Storage: {error}"),
            CodecError::UnsupportedDataType(codec) => {
                write!(f, "UnsupportedDataType: the codec {codec}")
            }
            CodecError::InvalidBytesLength { len, expected } => {
                write!(f, "InvalidBytesLength: {len} found, {expected} expected")
            }
            CodecError::BytesCodec(code) => write!(f, "BytesCodec: code {code}"),
            other => f.write_str(other.name()),
        }
    }
}

impl Error for CodecError {}

impl From<AllocError> for CodecError {
    ghost from_gives = { λ _ e. e ≡ OutOfMemory };

    fn from(_error: AllocError) -> CodecError {
        CodecError::OutOfMemory
    }
}

impl<T: Drop> From<AllocFailed<T>> for CodecError {
    ghost from_gives = { λ _ e. e ≡ OutOfMemory };

    fn from(_error: AllocFailed<T>) -> CodecError {
        CodecError::OutOfMemory
    }
}
