//! The codec `bytes`, of whole chunks.
ghost use Rattle.std.specs.Prelude.{◌≡◌, ◌<◌, Some, None, IfOk, IfSome, false};
ghost use Rattle.zarrs_chunk.specs.Answer.{is_fault, seen};
ghost use Rattle.zarrs_chunk.specs.ChunkShape.{product};
ghost use Rattle.zarrs_array_bytes.specs.Held.{items_of};
ghost use Rattle.zarrs_bytes.specs.ByteOrder.{has_order};
ghost use Rattle.zarrs_data_type.specs.Form.{form_of};
ghost use Rattle.zarrs_bytes.specs.BytesGrammar.{bytes_grammar};
ghost use Rattle.zarrs_codec.specs.Grammar.{Encodes, Decodes};
ghost use Rattle.zarrs_bytes.specs.BytesCodec.{bytes_length, turn_size as turn_size_of, RepresentsNow, EncodedNow, DecodedNow};
ghost use Rattle.zarrs_bytes.specs.GivenBytes.{IsGiven, HoldsGiven};

use std::alloc::Global;
use std::marker::Model;
use zarrs_array_bytes::{ArrayBytes, ArrayBytesRaw, turn};
use zarrs_chunk::{ChunkShape, CodecError, CodecName};
use zarrs_codec::BytesRepresentation;
use zarrs_data_type::{DataType, Endianness, FillValue, HasComponents};

/// The name of `bytes` in errors.
pub const BYTES: CodecName = CodecName {
    letters: *b"bytes\0\0\0\0\0\0\0\0\0\0\0",
};

/// The codec `bytes`: a chunk's value is its elements in row-major order, each component in
/// the byte order that was asked for (Zarr v3 codec `bytes`). It accepts every fixed data type.
#[derive(Clone, Copy, Debug, PartialEq, Eq)]
pub struct BytesCodec {
    pub(crate) endianness: Option<Endianness>,
}

impl Model for BytesCodec {
    ghost use Rattle.std.specs.Prelude.{Option};
    ghost use Rattle.zarrs_data_type.specs.declared.endianness.Endianness.{Endianness};

    ghost Value = { Option Endianness };

    ghost view = { λ codec. codec.endianness };

    ghost inverse = { λ order. record { endianness = order } };
}

/// How many elements a chunk has, and how many bytes its value.
#[derive(Clone, Copy)]
pub(crate) struct ChunkLengths {
    pub(crate) elements: u64,
    pub(crate) bytes: u64,
}

impl BytesCodec {
    /// The codec with this byte order. Without one it accepts only components of one byte.
    pub fn new(endianness: Option<Endianness>) -> BytesCodec
        ensures made { result ≡ endianness }
    {
        BytesCodec { endianness }
    }

    /// The codec that writes the lowest byte of each component first.
    pub fn little() -> BytesCodec
        ensures made { result ≡ Some Endianness.Little }
    {
        BytesCodec::new(Some(Endianness::Little))
    }

    /// The codec that writes the highest byte of each component first.
    pub fn big() -> BytesCodec
        ensures made { result ≡ Some Endianness.Big }
    {
        BytesCodec::new(Some(Endianness::Big))
    }

    /// The byte order of the codec, or `None` where it has none.
    pub fn endianness(&self) -> Option<Endianness>
        ensures value { result ≡ self.now }
    {
        self.endianness
    }

    /// Whether the codec accepts components of so many bits.
    fn takes(&self, component_size_bits: u64) -> bool
        ensures value { result ≡ has_order self.now component_size_bits }
    {
        match self.endianness {
            None => component_size_bits <= 8,
            Some(_) => true,
        }
    }

    /// How many bytes the components have that are turned round, or `None` where all bytes stay in
    /// their places.
    pub fn turn_size(&self, data_type: &DataType) -> Option<usize>
        ensures size { result ≡ turn_size_of self.now data_type.now }
        ensures positive { IfSome result (λ size. 0 < size) }
    {
        if self.endianness != Some(Endianness::Big) {
            return None;
        }
        let components = HasComponents::components(data_type)?;
        if components.component_size_bits <= 8 {
            return None;
        }
        Some(components.component_size_bits.div_ceil(8) as usize)
    }

    /// How long a chunk of this form is. Errors are those of `encoded_representation`.
    pub(crate) fn lengths(
        &self,
        shape: &ChunkShape,
        data_type: &DataType,
        fill_value: &FillValue,
    ) -> Result<ChunkLengths, CodecError>
        ensures answer { seen (λ lengths. lengths.bytes) result
            ≡ bytes_length self.now (form_of shape.now data_type.now fill_value.now) }
        ensures elements { IfOk result (λ lengths. lengths.elements ≡ product shape.now) }
        ensures no_fault { is_fault result ≡ false }
    {
        let Some(components) = HasComponents::components(data_type) else {
            return Err(CodecError::UnsupportedDataType(BYTES));
        };
        if !fill_value.fits(data_type) {
            return Err(CodecError::InvalidFillValue);
        }
        let elements = shape.num_elements()?;
        let size = components.num_components * components.component_size_bits.div_ceil(8);
        let Some(bytes) = elements.checked_mul(size) else {
            return Err(CodecError::Overflow);
        };
        if !self.takes(components.component_size_bits) {
            return Err(CodecError::EndiannessMissing);
        }
        Ok(ChunkLengths { elements, bytes })
    }

    /// How many bytes the value of such a chunk has. Errors, the first that holds:
    /// `UnsupportedDataType` for a type that isn't fixed; `InvalidFillValue`; `Overflow` where 64
    /// bits don't count the elements, or their bytes; `EndiannessMissing` where a component has more
    /// than one byte and there is no byte order.
    pub fn encoded_representation(
        &self,
        shape: &ChunkShape,
        data_type: &DataType,
        fill_value: &FillValue,
    ) -> Result<BytesRepresentation, CodecError>
        ensures answer { RepresentsNow self.now shape.now data_type.now fill_value.now result }
    {
        let lengths = self.lengths(shape, data_type, fill_value)?;
        Ok(BytesRepresentation::FixedSize(lengths.bytes))
    }

    /// The value that is written for the chunk that `elements` hold. Errors, the first that
    /// holds: those of `encoded_representation`, those of `ArrayBytes::validate`; `OutOfMemory`.
    ///
    /// Only borrowed bytes that are turned round take memory. Where no byte changes its place, the
    /// answer is what was given.
    pub fn encode<'a>(
        &self,
        alloc: Global,
        elements: ArrayBytes<'a>,
        shape: &ChunkShape,
        data_type: &DataType,
        fill_value: &FillValue,
    ) -> Result<ArrayBytesRaw<'a>, CodecError>
        ensures encodes { Encodes (bytes_grammar self.now)
            (form_of shape.now data_type.now fill_value.now) elements.entry result }
        ensures in_place { EncodedNow self.now
            shape.now data_type.now fill_value.now elements.entry result }
        ensures kept { turn_size_of self.now data_type.now ≡ None → IsGiven elements.entry result }
    {
        let lengths = self.lengths(shape, data_type, fill_value)?;
        elements.validate(lengths.elements, data_type)?;
        let raw = elements.into_fixed()?;
        turn(alloc, raw, self.turn_size(data_type))
    }

    /// The chunk that a value stands for. Errors, the first that holds: those of
    /// `encoded_representation`; `InvalidBytesLength` where the value has another length;
    /// `OutOfMemory`.
    ///
    /// Only borrowed bytes that are turned round take memory. Where no byte changes its place, the
    /// answer holds what was given.
    pub fn decode<'a>(
        &self,
        alloc: Global,
        value: ArrayBytesRaw<'a>,
        shape: &ChunkShape,
        data_type: &DataType,
        fill_value: &FillValue,
    ) -> Result<ArrayBytes<'a>, CodecError>
        ensures decodes { Decodes (bytes_grammar self.now)
            (form_of shape.now data_type.now fill_value.now) (items_of value.entry) result }
        ensures in_place { DecodedNow self.now shape.now data_type.now fill_value.now value.entry result }
        ensures kept { turn_size_of self.now data_type.now ≡ None → HoldsGiven value.entry result }
    {
        let lengths = self.lengths(shape, data_type, fill_value)?;
        let found = value.len() as u64;
        if found != lengths.bytes {
            return Err(CodecError::InvalidBytesLength {
                len: found,
                expected: lengths.bytes,
            });
        }
        let elements = turn(alloc, value, self.turn_size(data_type))?;
        Ok(ArrayBytes::new_flen(elements))
    }
}

impl Default for BytesCodec {
    /// The codec in the native byte order, which is little.
    fn default() -> BytesCodec
        ensures made { result ≡ Some Endianness.Little }
    {
        BytesCodec::new(Some(Endianness::native()))
    }
}
