//! The one error of arrays' metadata.
ghost use Rattle.std.specs.Prelude.{◌≡◌, Some, string_bytes};
ghost use Rattle.std.specs.Option.{option_map};
ghost use Rattle.zarrs_array_metadata.specs.ArrayMetadataError.{key_text, array_error_name, array_error_key, element_error};
ghost use Rattle.zarrs_array_metadata.specs.declared.array_metadata_error.ArrayMetadataError.TheVariants.{OutOfMemory};

use std::alloc::{AllocError, AllocFailed};
use std::error::Error;
use std::fmt;
use std::marker::Model;
use zarrs_fill_values::ElementError;

/// A key that the metadata of an array has to have.
#[derive(Clone, Copy, Debug, PartialEq, Eq)]
pub enum ArrayKey {
    /// `shape`: the array's sizes.
    Shape,
    /// `data_type`: the name of its elements' type.
    DataType,
    /// `chunk_grid`: how it is divided into chunks.
    ChunkGrid,
    /// `chunk_key_encoding`: under which keys these are stored.
    ChunkKeyEncoding,
    /// `fill_value`: the element that stands where nothing is stored.
    FillValue,
    /// `codecs`: how chunks are encoded.
    Codecs,
}

impl ArrayKey {
    /// The key's text.
    pub fn as_str(self) -> &'static str
        ensures value { result.now ≡ key_text self }
    {
        match self {
            ArrayKey::Shape => "shape",
            ArrayKey::DataType => "data_type",
            ArrayKey::ChunkGrid => "chunk_grid",
            ArrayKey::ChunkKeyEncoding => "chunk_key_encoding",
            ArrayKey::FillValue => "fill_value",
            ArrayKey::Codecs => "codecs",
        }
    }
}

/// A key that an array's metadata has, by its text.
#[derive(Debug, Drop)]
pub struct KeyName {
    text: String,
}

impl Model for KeyName {
    ghost use Rattle.std.specs.Prelude.{List, ℕ, string_bytes};

    ghost Value = { List ℕ };

    ghost view = { λ name. string_bytes name.text };
}

impl KeyName {
    pub(crate) fn new(text: String) -> KeyName
        ensures made { result ≡ string_bytes text }
    {
        KeyName { text }
    }

    /// The key's text.
    pub fn as_str(&self) -> &str
        ensures value { result.now ≡ self.now }
    {
        self.text.as_str()
    }
}

/// Why the metadata of an array can't be read or written.
///
/// Where several errors hold, each call's contract states which one it returns. `OutOfMemory` may
/// come in place of any of them where a call allocates. Clauses fix the name of an error and the key
/// that it is about, and not the text that `Display` writes of it.
#[derive(Debug, Drop)]
pub enum ArrayMetadataError {
    /// An allocation failed.
    OutOfMemory,
    /// The text isn't JSON.
    NotJson,
    /// The JSON isn't an object.
    NotAnObject,
    /// `zarr_format` isn't 3.
    UnsupportedFormat,
    /// `node_type` isn't `"array"`.
    NotAnArray,
    /// A key that has to be there is missing.
    MissingKey(ArrayKey),
    /// `shape` isn't a list of whole numbers below 2^64.
    InvalidShape,
    /// `data_type` names no type of elements that is known.
    UnsupportedDataType,
    /// `chunk_grid` isn't a regular grid.
    UnsupportedChunkGrid,
    /// The `chunk_shape` of `chunk_grid` isn't a list of whole numbers below 2^64.
    InvalidChunkShape,
    /// A size of a chunk is zero.
    ZeroSize,
    /// A chunk has more or fewer axes than the array.
    IncompatibleDimensionality,
    /// `chunk_key_encoding` is neither `default` nor `v2`.
    UnsupportedChunkKeyEncoding,
    /// The `separator` of `chunk_key_encoding` is neither `"/"` nor `"."`.
    InvalidSeparator,
    /// `fill_value` isn't one of the type of elements.
    InvalidFillValue,
    /// `codecs` isn't a list, or an entry of it isn't a codec's metadata.
    InvalidCodecs,
    /// `attributes` isn't an object.
    InvalidAttributes,
    /// `storage_transformers` isn't an empty list.
    UnsupportedStorageTransformers,
    /// `dimension_names` isn't a list of as many names, or nulls, as the array has axes.
    InvalidDimensionNames,
    /// A key isn't known, and has to be understood.
    UnknownKey(KeyName),
}

impl ArrayMetadataError {
    /// The variant's name, without what it carries.
    pub fn name(&self) -> &'static str
        ensures value { result.now ≡ array_error_name self.now }
    {
        match self {
            ArrayMetadataError::OutOfMemory => "OutOfMemory",
            ArrayMetadataError::NotJson => "NotJson",
            ArrayMetadataError::NotAnObject => "NotAnObject",
            ArrayMetadataError::UnsupportedFormat => "UnsupportedFormat",
            ArrayMetadataError::NotAnArray => "NotAnArray",
            ArrayMetadataError::MissingKey(_) => "MissingKey",
            ArrayMetadataError::InvalidShape => "InvalidShape",
            ArrayMetadataError::UnsupportedDataType => "UnsupportedDataType",
            ArrayMetadataError::UnsupportedChunkGrid => "UnsupportedChunkGrid",
            ArrayMetadataError::InvalidChunkShape => "InvalidChunkShape",
            ArrayMetadataError::ZeroSize => "ZeroSize",
            ArrayMetadataError::IncompatibleDimensionality => "IncompatibleDimensionality",
            ArrayMetadataError::UnsupportedChunkKeyEncoding => "UnsupportedChunkKeyEncoding",
            ArrayMetadataError::InvalidSeparator => "InvalidSeparator",
            ArrayMetadataError::InvalidFillValue => "InvalidFillValue",
            ArrayMetadataError::InvalidCodecs => "InvalidCodecs",
            ArrayMetadataError::InvalidAttributes => "InvalidAttributes",
            ArrayMetadataError::UnsupportedStorageTransformers => "UnsupportedStorageTransformers",
            ArrayMetadataError::InvalidDimensionNames => "InvalidDimensionNames",
            ArrayMetadataError::UnknownKey(_) => "UnknownKey",
        }
    }

    /// The key of `zarr.json` that the error is about, where it is about one.
    pub fn key(&self) -> Option<&str>
        ensures value { option_map (λ key. key.now) result ≡ array_error_key self.now }
    {
        match self {
            ArrayMetadataError::OutOfMemory => None,
            ArrayMetadataError::NotJson => None,
            ArrayMetadataError::NotAnObject => None,
            ArrayMetadataError::UnsupportedFormat => Some("zarr_format"),
            ArrayMetadataError::NotAnArray => Some("node_type"),
            ArrayMetadataError::MissingKey(key) => Some(key.as_str()),
            ArrayMetadataError::InvalidShape => Some("shape"),
            ArrayMetadataError::UnsupportedDataType => Some("data_type"),
            ArrayMetadataError::UnsupportedChunkGrid => Some("chunk_grid"),
            ArrayMetadataError::InvalidChunkShape => Some("chunk_grid"),
            ArrayMetadataError::ZeroSize => Some("chunk_grid"),
            ArrayMetadataError::IncompatibleDimensionality => Some("chunk_grid"),
            ArrayMetadataError::UnsupportedChunkKeyEncoding => Some("chunk_key_encoding"),
            ArrayMetadataError::InvalidSeparator => Some("chunk_key_encoding"),
            ArrayMetadataError::InvalidFillValue => Some("fill_value"),
            ArrayMetadataError::InvalidCodecs => Some("codecs"),
            ArrayMetadataError::InvalidAttributes => Some("attributes"),
            ArrayMetadataError::UnsupportedStorageTransformers => Some("storage_transformers"),
            ArrayMetadataError::InvalidDimensionNames => Some("dimension_names"),
            ArrayMetadataError::UnknownKey(name) => Some(name.as_str()),
        }
    }
}

impl fmt::Display for ArrayMetadataError {
    fn fmt<W: fmt::Write>(&self, f: &mut fmt::Formatter<W>) -> fmt::Result {
        f.write_str(self.name())?;
        match self.key() {
            Some(key) => write!(f, " ({key})"),
            None => Ok(()),
        }
    }
}

impl Error for ArrayMetadataError {}

impl From<ElementError> for ArrayMetadataError {
    ghost from_gives = { λ cause error. error ≡ element_error cause };

    fn from(cause: ElementError) -> ArrayMetadataError {
        match cause {
            ElementError::OutOfMemory => ArrayMetadataError::OutOfMemory,
            ElementError::UnsupportedDataType => ArrayMetadataError::UnsupportedDataType,
            ElementError::InvalidFillValue => ArrayMetadataError::InvalidFillValue,
        }
    }
}

impl From<AllocError> for ArrayMetadataError {
    ghost from_gives = { λ _ e. e ≡ OutOfMemory };

    fn from(_error: AllocError) -> ArrayMetadataError {
        ArrayMetadataError::OutOfMemory
    }
}

impl<T: Drop> From<AllocFailed<T>> for ArrayMetadataError {
    ghost from_gives = { λ _ e. e ≡ OutOfMemory };

    fn from(_error: AllocFailed<T>) -> ArrayMetadataError {
        ArrayMetadataError::OutOfMemory
    }
}
