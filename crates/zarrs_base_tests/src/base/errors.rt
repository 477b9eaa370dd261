//! Names and texts of errors.

use crate::checks::is;
use std::alloc::{AllocError, Global};
use std::fmt::Display;
use std::process::Abort;
use zarrs_array_to_array::{RESHAPE, SQUEEZE, TRANSPOSE};
use zarrs_bytes::BYTES;
use zarrs_chunk::{CodecError, CodecName, StorageError};
use zarrs_metadata::PluginCreateError;

/// A name of sixteen letters, which leaves no zeros behind it.
const SHARDING: CodecName = CodecName {
    letters: *b"sharding_indexed",
};

/// An error and its text, which begins with its name.
struct Row<E: 'static> {
    error: E,
    text: &'static str,
}

const REFUSALS: &'static [Row<CodecError>] = &[
    Row {
        error: CodecError::OutOfMemory,
        text: "OutOfMemory",
    },
    Row {
        error: CodecError::Storage(StorageError { code: 7 }),
        text: "Storage: code 7",
    },
    Row {
        error: CodecError::Storage(StorageError { code: 17 }),
        text: "Storage: code 17",
    },
    Row {
        error: CodecError::UnsupportedDataType(TRANSPOSE),
        text: "UnsupportedDataType: the codec transpose",
    },
    Row {
        error: CodecError::UnsupportedDataType(RESHAPE),
        text: "UnsupportedDataType: the codec reshape",
    },
    Row {
        error: CodecError::UnsupportedDataType(SQUEEZE),
        text: "UnsupportedDataType: the codec squeeze",
    },
    Row {
        error: CodecError::UnsupportedDataType(BYTES),
        text: "UnsupportedDataType: the codec bytes",
    },
    Row {
        error: CodecError::UnsupportedDataType(SHARDING),
        text: "UnsupportedDataType: the codec sharding_indexed",
    },
    Row {
        error: CodecError::EndiannessMissing,
        text: "EndiannessMissing",
    },
    Row {
        error: CodecError::ArrayBytesKind,
        text: "ArrayBytesKind",
    },
    Row {
        error: CodecError::InvalidBytesLength {
            len: 3,
            expected: 40,
        },
        text: "InvalidBytesLength: 3 found, 40 expected",
    },
    Row {
        error: CodecError::InvalidBytesLength {
            len: 40,
            expected: 3,
        },
        text: "InvalidBytesLength: 40 found, 3 expected",
    },
    Row {
        error: CodecError::IncompatibleDimensionality,
        text: "IncompatibleDimensionality",
    },
    Row {
        error: CodecError::OutOfBounds,
        text: "OutOfBounds",
    },
    Row {
        error: CodecError::Overflow,
        text: "Overflow",
    },
    Row {
        error: CodecError::InvalidFillValue,
        text: "InvalidFillValue",
    },
    Row {
        error: CodecError::ReshapeDimension,
        text: "ReshapeDimension",
    },
    Row {
        error: CodecError::ReshapeElements,
        text: "ReshapeElements",
    },
    Row {
        error: CodecError::BitRange,
        text: "BitRange",
    },
    Row {
        error: CodecError::PaddingByte,
        text: "PaddingByte",
    },
    Row {
        error: CodecError::IndexLength,
        text: "IndexLength",
    },
    Row {
        error: CodecError::InvalidOffsets,
        text: "InvalidOffsets",
    },
    Row {
        error: CodecError::OffsetTooLarge,
        text: "OffsetTooLarge",
    },
    Row {
        error: CodecError::OffsetNotKept,
        text: "OffsetNotKept",
    },
    Row {
        error: CodecError::MaskValue,
        text: "MaskValue",
    },
    Row {
        error: CodecError::HeaderOverflow,
        text: "HeaderOverflow",
    },
    Row {
        error: CodecError::InvalidByteRange,
        text: "InvalidByteRange",
    },
    Row {
        error: CodecError::BytesCodec(9),
        text: "BytesCodec: code 9",
    },
    Row {
        error: CodecError::BytesCodec(29),
        text: "BytesCodec: code 29",
    },
    Row {
        error: CodecError::DataMismatch,
        text: "DataMismatch",
    },
    Row {
        error: CodecError::UnsupportedTarget,
        text: "UnsupportedTarget",
    },
    Row {
        error: CodecError::TargetMismatch,
        text: "TargetMismatch",
    },
    Row {
        error: CodecError::ReversedRange,
        text: "ReversedRange",
    },
    Row {
        error: CodecError::ElementCount,
        text: "ElementCount",
    },
    Row {
        error: CodecError::IndivisibleShape,
        text: "IndivisibleShape",
    },
    Row {
        error: CodecError::IndexNotFixed,
        text: "IndexNotFixed",
    },
];

const FAULTS: &'static [Row<PluginCreateError>] = &[
    Row {
        error: PluginCreateError::OutOfMemory,
        text: "OutOfMemory",
    },
    Row {
        error: PluginCreateError::UnknownName,
        text: "UnknownName",
    },
    Row {
        error: PluginCreateError::InvalidConfiguration,
        text: "InvalidConfiguration",
    },
    Row {
        error: PluginCreateError::MissingArrayToBytes,
        text: "MissingArrayToBytes",
    },
    Row {
        error: PluginCreateError::MultipleArrayToBytes,
        text: "MultipleArrayToBytes",
    },
    Row {
        error: PluginCreateError::BitOrder,
        text: "BitOrder",
    },
    Row {
        error: PluginCreateError::MultipleAuto,
        text: "MultipleAuto",
    },
    Row {
        error: PluginCreateError::ZeroSize,
        text: "ZeroSize",
    },
    Row {
        error: PluginCreateError::NotAPermutation,
        text: "NotAPermutation",
    },
];

/// The error has this text, which begins with its name.
fn has_text<E: Display>(
    rt: &impl Abort,
    alloc: Global,
    row: &Row<E>,
    name: &str,
) -> Result<(), AllocError> {
    let error = &row.error;
    let text = format!(in alloc; "{error}")?;
    is(rt, row.text, &text.as_str(), &row.text);
    is(rt, row.text, &row.text.starts_with(name), &true);
    Ok(())
}

fn refusal_has_text(
    rt: &impl Abort,
    alloc: Global,
    row: &Row<CodecError>,
) -> Result<(), AllocError> {
    has_text(rt, alloc, row, row.error.name())
}

#[test]
fn of_codecs_have_names_and_texts(rt: HostRuntime) -> Result<(), AllocError> {
    for row in REFUSALS.iter() {
        refusal_has_text(&rt, rt.alloc(), row)?;
    }
    Ok(())
}

fn fault_has_text(
    rt: &impl Abort,
    alloc: Global,
    row: &Row<PluginCreateError>,
) -> Result<(), AllocError> {
    has_text(rt, alloc, row, row.error.name())
}

#[test]
fn of_metadata_have_names_and_texts(rt: HostRuntime) -> Result<(), AllocError> {
    for row in FAULTS.iter() {
        fault_has_text(&rt, rt.alloc(), row)?;
    }
    Ok(())
}
