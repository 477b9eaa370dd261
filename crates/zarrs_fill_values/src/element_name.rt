//! The types of elements by their names.
ghost use Rattle.std.specs.Prelude.{◌≡◌};
ghost use Rattle.zarrs_fill_values.specs.ElementName.{integer_bits as bits_of_integer, is_signed as has_sign, float_bits as bits_of_float, plain_type, plain_name, type_of};
ghost use Rattle.zarrs_fill_values.specs.ElementError.{ElementAnswers};
ghost use Rattle.zarrs_data_type.specs.ElementType.{optional};
ghost use Rattle.std.specs.Prelude.{Ok};

use crate::element_error::ElementError;
use std::alloc::{AllocError, Global};
use zarrs_data_type::DataType;

/// Whole numbers (Zarr v3 core specification, "Data types"; zarr-extensions for 2 and 4 bits).
#[derive(Clone, Copy, Debug, PartialEq, Eq)]
pub enum IntegerName {
    /// From -2 to 1.
    Int2,
    /// From -8 to 7.
    Int4,
    /// A signed number of one byte.
    Int8,
    /// A signed number of two bytes.
    Int16,
    /// A signed number of four bytes.
    Int32,
    /// A signed number of eight bytes.
    Int64,
    /// From 0 to 3.
    Uint2,
    /// From 0 to 15.
    Uint4,
    /// An unsigned number of one byte.
    Uint8,
    /// An unsigned number of two bytes.
    Uint16,
    /// An unsigned number of four bytes.
    Uint32,
    /// An unsigned number of eight bytes.
    Uint64,
}

/// Floats (Zarr v3 core specification, "Data types"; zarr-extensions for `bfloat16`).
#[derive(Clone, Copy, Debug, PartialEq, Eq)]
pub enum FloatName {
    /// IEEE 754's binary16.
    Float16,
    /// The upper half of a binary32.
    Bfloat16,
    /// IEEE 754's binary32.
    Float32,
    /// IEEE 754's binary64.
    Float64,
}

/// A type whose elements are all there.
#[derive(Clone, Copy, Debug, PartialEq, Eq)]
pub enum PlainName {
    /// `bool`.
    Bool,
    /// `int2` to `uint64`.
    Integer(IntegerName),
    /// `float16` to `float64`, and `bfloat16`.
    Float(FloatName),
    /// Two floats: `complex64` has two of 32 bits, `complex128` two of 64.
    Complex(FloatName),
    /// `r8`, `r16` and so on: bytes of one length, by the number of their bits, a positive multiple
    /// of 8.
    Raw(u64),
    /// `string`: text.
    String,
    /// `bytes`, or `variable_length_bytes`: bytes of any length.
    Bytes,
}

/// A type of elements as `zarr.json` names it.
///
/// Chunks don't know all of a name: those of `float32` have the components of `uint32`
/// ([`data_type`](ElementName::data_type)). Fill values are read and written by the name.
#[derive(Clone, Copy, Debug, PartialEq, Eq)]
pub struct ElementName {
    /// The type of the elements that are there.
    pub plain: PlainName,
    /// How many optional types stand round it, one in another: of none, each element is there.
    pub levels: u8,
}

impl IntegerName {
    /// How many bits a number has.
    pub fn bits(self) -> u64
        ensures value { result ≡ bits_of_integer self }
    {
        match self {
            IntegerName::Int2 | IntegerName::Uint2 => 2,
            IntegerName::Int4 | IntegerName::Uint4 => 4,
            IntegerName::Int8 | IntegerName::Uint8 => 8,
            IntegerName::Int16 | IntegerName::Uint16 => 16,
            IntegerName::Int32 | IntegerName::Uint32 => 32,
            IntegerName::Int64 | IntegerName::Uint64 => 64,
        }
    }

    /// Whether numbers may be negative.
    pub fn is_signed(self) -> bool
        ensures value { result ≡ has_sign self }
    {
        match self {
            IntegerName::Int2 | IntegerName::Int4 | IntegerName::Int8 => true,
            IntegerName::Int16 | IntegerName::Int32 | IntegerName::Int64 => true,
            _ => false,
        }
    }
}

impl FloatName {
    /// How many bits a float has.
    pub fn bits(self) -> u64
        ensures value { result ≡ bits_of_float self }
    {
        match self {
            FloatName::Float16 | FloatName::Bfloat16 => 16,
            FloatName::Float32 => 32,
            FloatName::Float64 => 64,
        }
    }
}

impl PlainName {
    /// The type of chunks of such elements: a float's component is one of the unsigned number of as
    /// many bits, a complex number has two such, and raw bits have bytes. Errors:
    /// `UnsupportedDataType` for raw bits that are none, or no multiple of 8.
    pub fn data_type(self) -> Result<DataType, ElementError>
        ensures answer { result ≡ plain_type self }
    {
        let (bits, count, signed) = match self {
            PlainName::String => return Ok(DataType::string()),
            PlainName::Bytes => return Ok(DataType::bytes()),
            PlainName::Bool => (1, 1, false),
            PlainName::Integer(integer) => (integer.bits(), 1, integer.is_signed()),
            PlainName::Float(float) => (float.bits(), 1, false),
            PlainName::Complex(float) => (float.bits(), 2, false),
            PlainName::Raw(bits) if bits % 8 == 0 => (8, bits / 8, false),
            PlainName::Raw(_) => return Err(ElementError::UnsupportedDataType),
        };
        match DataType::components(bits, count, signed) {
            Ok(data_type) => Ok(data_type),
            Err(_) => Err(ElementError::UnsupportedDataType),
        }
    }
}

fn optional_of(alloc: Global, inner: DataType) -> Result<DataType, ElementError>
    ensures answer { ElementAnswers (λ data_type. data_type) result (Ok (optional inner)) }
{
    match DataType::optional(alloc, inner) {
        Ok(data_type) => Ok(data_type),
        Err(_) => Err(AllocError.into()),
    }
}

impl ElementName {
    /// The type of elements that are all there.
    pub fn new(plain: PlainName) -> ElementName
        ensures made { result ≡ plain_name plain }
    {
        ElementName { plain, levels: 0 }
    }

    /// The type of chunks of such elements, with which codecs are asked. Errors:
    /// `UnsupportedDataType` for raw bits that are none, or no multiple of 8; `OutOfMemory`, of
    /// optional types alone.
    pub fn data_type(self, alloc: Global) -> Result<DataType, ElementError>
        ensures answer { ElementAnswers (λ data_type. data_type) result (type_of self) }
    {
        let mut data_type = self.plain.data_type()?;
        for level in 0..self.levels {
            data_type = optional_of(alloc, data_type)?;
        }
        Ok(data_type)
    }
}
