//! The codecs `vlen-utf8` and `vlen-bytes` over whole chunks.
ghost use Rattle.std.specs.Prelude.{◌≡◌, Some, Ok, false};
ghost use Rattle.zarrs_metadata.specs.MetadataV3.{configuration_seen, MakesConfiguration};
ghost use Rattle.zarrs_data_type.specs.Form.{form_of};
ghost use Rattle.zarrs_array_bytes.specs.Held.{items_of};
ghost use Rattle.zarrs_array_bytes.specs.Tight.{GivesFlush};
ghost use Rattle.zarrs_codec.specs.Grammar.{Encodes, Decodes};
ghost use Rattle.zarrs_codec.specs.MadeAgain.{MadeAgain};
ghost use Rattle.zarrs_codec.specs.declared.capabilities.PartialDecoderCapability.{PartialDecoderCapability};
ghost use Rattle.zarrs_codec.specs.declared.capabilities.PartialEncoderCapability.{PartialEncoderCapability};
ghost use Rattle.zarrs_vlen_v2.specs.VlenV2Codec.{accepts as accepts_type, error_name as error_name_of, VlenV2RepresentsNow};
ghost use Rattle.zarrs_vlen_v2.specs.VlenV2Grammar.{vlen_v2_grammar};
ghost use Rattle.zarrs_vlen_v2.specs.VlenV2Metadata.{vlen_v2_made, vlen_v2_name, write_vlen_v2};

use crate::prefixed_values::{
    NUMBER_SIZE, prefixed_parts, prefixed_value, read_number, wrong_length,
};
use std::alloc::Global;
use std::borrow::CowSlice;
use zarrs_array_bytes::{ArrayBytes, ArrayBytesOffsets, ArrayBytesRaw};
use zarrs_chunk::{ChunkShape, CodecError, CodecName};
use zarrs_codec::{
    ArrayCodecTraits, BytesRepresentation, CodecTraits, PartialDecoderCapability,
    PartialEncoderCapability,
};
use zarrs_data_type::{DataType, FillValue};
use zarrs_metadata::{
    Configuration, PluginCreateError, SqueezeCodecConfiguration, SqueezeCodecConfigurationV0,
};

/// The name of `vlen-utf8` in errors.
pub const VLEN_UTF8: CodecName = CodecName {
    letters: *b"vlen-utf8\0\0\0\0\0\0\0",
};

/// The name of `vlen-bytes` in errors.
pub const VLEN_BYTES: CodecName = CodecName {
    letters: *b"vlen-bytes\0\0\0\0\0\0",
};

/// The array-to-bytes codecs `vlen-utf8` and `vlen-bytes`: a value is the number of the chunk's
/// elements and then, before the bytes of each, their number, all as four bytes, the lowest first.
/// Both write alike; they differ in the data type that they accept.
#[derive(Clone, Copy, Debug, PartialEq, Eq)]
pub enum VlenV2Codec {
    /// The codec of the data type `string` (zarr-extensions codec `vlen-utf8`). That texts are UTF-8
    /// isn't checked.
    Utf8,
    /// The codec of the data type `bytes` (zarr-extensions codec `vlen-bytes`).
    Bytes,
}

impl VlenV2Codec {
    /// The codec's name in errors.
    fn error_name(&self) -> CodecName
        ensures value { result ≡ error_name_of self.now }
    {
        match self {
            VlenV2Codec::Utf8 => VLEN_UTF8,
            VlenV2Codec::Bytes => VLEN_BYTES,
        }
    }

    /// Whether the codec accepts elements of this type.
    #[tactic(auto, using(crate::proofs::Accepted::text_is_same, crate::proofs::Accepted::bytes_is_same))]
    fn accepts(&self, data_type: &DataType) -> bool
        ensures value { result ≡ accepts_type self.now data_type.now }
    {
        match self {
            VlenV2Codec::Utf8 => *data_type == DataType::string(),
            VlenV2Codec::Bytes => *data_type == DataType::bytes(),
        }
    }

    /// How many bytes the value of such a chunk has: any number. Errors, the first that holds:
    /// `UnsupportedDataType` for another type than the codec's; `Overflow` where 64 bits don't count
    /// the elements.
    pub fn encoded_representation(
        &self,
        shape: &ChunkShape,
        data_type: &DataType,
        _fill_value: &FillValue,
    ) -> Result<BytesRepresentation, CodecError>
        ensures answer { VlenV2RepresentsNow self.now shape.now data_type.now _fill_value.now result }
    {
        if !self.accepts(data_type) {
            return Err(CodecError::UnsupportedDataType(self.error_name()));
        }
        shape.num_elements()?;
        Ok(BytesRepresentation::UnboundedSize)
    }

    /// The value that is written for the chunk that `elements` hold. Errors, the first that holds,
    /// `OutOfMemory` aside: those of `encoded_representation`, those of `ArrayBytes::validate`;
    /// `OffsetTooLarge` where the number of elements, or that of an element's bytes, doesn't have
    /// four bytes.
    pub fn encode<'a>(
        &self,
        alloc: Global,
        elements: ArrayBytes<'a>,
        shape: &ChunkShape,
        data_type: &DataType,
        fill_value: &FillValue,
    ) -> Result<ArrayBytesRaw<'a>, CodecError>
        ensures encodes { Encodes (vlen_v2_grammar self.now)
            (form_of shape.now data_type.now fill_value.now) elements.entry result }
    {
        self.encoded_representation(shape, data_type, fill_value)?;
        elements.validate(shape.num_elements()?, data_type)?;
        let (bytes, offsets) = elements.as_variable()?;
        let value = prefixed_value(alloc, bytes, offsets.as_slice())?;
        Ok(CowSlice::Owned(value))
    }

    /// The chunk that a value stands for. Errors, the first that holds, `OutOfMemory` aside: those
    /// of `encoded_representation`; `InvalidBytesLength` where there are fewer than four bytes;
    /// `ElementCount` where they don't spell the number of the chunk's elements;
    /// `InvalidBytesLength` where the value ends before the last element, or behind it.
    ///
    /// The container's offsets begin at 0, and its bytes are those of the elements alone.
    pub fn decode<'a>(
        &self,
        alloc: Global,
        value: ArrayBytesRaw<'a>,
        shape: &ChunkShape,
        data_type: &DataType,
        fill_value: &FillValue,
    ) -> Result<ArrayBytes<'a>, CodecError>
        ensures decodes { Decodes (vlen_v2_grammar self.now)
            (form_of shape.now data_type.now fill_value.now) (items_of value.entry) result }
        ensures flush { GivesFlush result }
    {
        self.encoded_representation(shape, data_type, fill_value)?;
        let count = shape.num_elements()?;
        let items = value.as_slice();
        if items.len() < NUMBER_SIZE {
            return Err(wrong_length(items, NUMBER_SIZE));
        }
        if read_number(items) as u64 != count {
            return Err(CodecError::ElementCount);
        }
        let (bytes, offsets) = prefixed_parts(alloc, items, count as usize)?;
        let offsets = ArrayBytesOffsets::new(offsets)?;
        ArrayBytes::new_flush(CowSlice::Owned(bytes), offsets)
    }
}

impl CodecTraits for VlenV2Codec {
    ghost reads_in_part = { λ _. record { partial_read = false; partial_decode = false } };

    ghost writes_in_part = { λ _. record { partial_encode = false } };

    ghost named = { λ codec. Some (vlen_v2_name codec) };

    ghost written = { λ _. Some write_vlen_v2 };

    /// The codec's name in metadata, `vlen-utf8` or `vlen-bytes`.
    fn name_v3(&self) -> Option<&'static str> {
        match self {
            VlenV2Codec::Utf8 => Some("vlen-utf8"),
            VlenV2Codec::Bytes => Some("vlen-bytes"),
        }
    }

    /// The codec's configuration, which has no members. With its name it makes an equal codec.
    /// It never fails.
    fn configuration(&self, alloc: Global) -> Result<Option<Configuration>, PluginCreateError>
        ensures answer { MakesConfiguration result (Ok (Some write_vlen_v2)) }
        ensures made_again { MadeAgain
            configuration_seen result vlen_v2_made (vlen_v2_name self.now) self.now }
    {
        let configuration = SqueezeCodecConfiguration::V0(SqueezeCodecConfigurationV0 {});
        Ok(Some(configuration.to_configuration(alloc)))
    }

    fn partial_decoder_capability(&self) -> PartialDecoderCapability {
        PartialDecoderCapability {
            partial_read: false,
            partial_decode: false,
        }
    }

    fn partial_encoder_capability(&self) -> PartialEncoderCapability {
        PartialEncoderCapability {
            partial_encode: false,
        }
    }
}

impl ArrayCodecTraits for VlenV2Codec {}
