//! The codec `packbits` over whole chunks.
ghost use Rattle.zarrs_data_type.specs.Form.{form_of};
ghost use Rattle.zarrs_data_type.specs.ElementType.{fixed_size_of};
ghost use Rattle.zarrs_array_bytes.specs.Held.{items_of};
ghost use Rattle.zarrs_codec.specs.Grammar.{Encodes, Decodes};
ghost use Rattle.zarrs_packbits.specs.PackBitsGrammar.{packbits_grammar};
ghost use Rattle.std.specs.Prelude.{◌≡◌, ℕ, ◌+◌, ◌*◌, ◌^◌, ◌<◌, length, IfOk, None, Ok, OnErr, Some, true, false};
ghost use Rattle.zarrs_chunk.specs.Answer.{is_fault};
ghost use Rattle.zarrs_chunk.specs.ChunkShape.{product};
ghost use Rattle.zarrs_metadata.specs.CodecMetadata.{packbits_name};
ghost use Rattle.zarrs_metadata.specs.MetadataV3.{configuration_seen, MakesConfiguration};
ghost use Rattle.zarrs_metadata.specs.declared.codec.packbits.PackBitsPaddingEncoding.TheVariants as padding;
ghost use Rattle.zarrs_codec.specs.MadeAgain.{MadeAgain};
ghost use Rattle.zarrs_codec.specs.declared.capabilities.PartialDecoderCapability.{PartialDecoderCapability};
ghost use Rattle.zarrs_codec.specs.declared.capabilities.PartialEncoderCapability.{PartialEncoderCapability};
ghost use Rattle.zarrs_bytes.specs.GivenBytes.{DecodesNow, EncodesNow, IsGiven, HoldsGiven};
ghost use Rattle.zarrs_packbits.specs.PackBitsCodec.{packbits_value, packbits_chunk, PackBitsEncodesInPlace, PackBitsDecodesInPlace, PackBitsPutsElements, Keeps, KeepsIn, value_checked};
ghost use Rattle.zarrs_packbits.specs.PackBitsSettings.{is_reversed, packbits_settings, packed_layout, first_of, last_bit_of, padding_for, KeepsAllBytes, PackBitsRepresentsNow};
ghost use Rattle.zarrs_packbits.specs.PackedLayout.{IsPackedLayout};
ghost use Rattle.zarrs_packbits.specs.SettingsMetadata.{settings_made, write_settings};

use crate::layout::PackedLayout;
use crate::packed_values::{packed_raw, unpack_into, unpacked_raw};
use std::alloc::Global;
use std::marker::Model;
use zarrs_array_bytes::{ArrayBytes, ArrayBytesRaw};
use zarrs_bytes::BytesCodec;
use zarrs_chunk::{ChunkShape, CodecError, CodecName};
use zarrs_codec::{
    ArrayCodecTraits, BytesRepresentation, CodecTraits, PartialDecoderCapability,
    PartialEncoderCapability, bytes_are,
};
use zarrs_data_type::{DataType, FillValue, HasComponents};
use zarrs_metadata::{
    Configuration, PackBitsCodecConfiguration, PackBitsCodecConfigurationV1,
    PackBitsPaddingEncoding, PluginCreateError,
};

/// The name of `packbits` in errors.
pub const PACKBITS: CodecName = CodecName {
    letters: *b"packbits\0\0\0\0\0\0\0\0",
};

/// The array-to-bytes codec `packbits`: of each component of a chunk's elements some bits are kept,
/// and these are packed one behind another, the lowest first (zarr-extensions codec `packbits`). It
/// accepts every fixed data type.
///
/// Where all bits of whole bytes are kept, a value is the elements' bytes, as of the codec `bytes` in
/// little order, and there is no padding byte.
#[derive(Clone, Copy, Debug, PartialEq, Eq)]
pub struct PackBitsCodec {
    padding_encoding: PackBitsPaddingEncoding,
    first_bit: Option<u64>,
    last_bit: Option<u64>,
}

impl Model for PackBitsCodec {
    ghost use Rattle.std.specs.Prelude.{◌≡◌, false};
    ghost use Rattle.zarrs_packbits.specs.PackBitsSettings.{PackBitsSettings, is_reversed};

    ghost Value = { PackBitsSettings };

    ghost view = { λ codec. record { padding = codec.padding_encoding; first_bit = codec.first_bit; last_bit = codec.last_bit } };

    ghost invariant = { λ codec. is_reversed codec.first_bit codec.last_bit ≡ false };

    ghost inverse = { λ settings. record { padding_encoding = settings.padding; first_bit = settings.first_bit; last_bit = settings.last_bit } };
}

/// Whether a value has the length and the padding byte of those of such chunks. Errors:
/// `InvalidBytesLength`, `PaddingByte`.
fn check_value(layout: &PackedLayout, value: &[u8]) -> Result<(), CodecError>
    requires layout { IsPackedLayout layout.now }
    ensures answer { result ≡ value_checked layout.now value.now }
    ensures no_fault { is_fault result ≡ false }
{
    let expected = layout.value_len();
    let found = value.len() as u64;
    if found != expected {
        return Err(CodecError::InvalidBytesLength {
            len: found,
            expected,
        });
    }
    if !layout.padding_holds(value) {
        return Err(CodecError::PaddingByte);
    }
    Ok(())
}

impl PackBitsCodec {
    /// The codec that keeps the bits `first_bit` to `last_bit` of each component, by default all of
    /// them. Errors: `BitOrder` where both are given and the last is below the first.
    pub fn new(
        padding_encoding: PackBitsPaddingEncoding,
        first_bit: Option<u64>,
        last_bit: Option<u64>,
    ) -> Result<PackBitsCodec, PluginCreateError>
        ensures made { result ≡ packbits_settings padding_encoding first_bit last_bit }
    {
        if let (Some(first), Some(last)) = (first_bit, last_bit) {
            if last < first {
                return Err(PluginCreateError::BitOrder);
            }
        }
        Ok(PackBitsCodec {
            padding_encoding,
            first_bit,
            last_bit,
        })
    }

    /// Where both bits are given, the last isn't below the first, by the type. It does nothing when it
    /// runs.
    pub fn is_sound(&self)
        ensures sound { is_reversed self.now.first_bit self.now.last_bit ≡ false }
    {
        let _ = &self.first_bit;
    }

    /// The first bit of a component that is kept.
    fn first(&self) -> u64
        ensures value { result ≡ first_of self.now }
    {
        self.first_bit.unwrap_or(0)
    }

    /// The last bit that is kept of a component of so many bits.
    fn last(&self, bits: u64) -> u64
        requires some { 0 < bits }
        ensures value { result ≡ last_bit_of self.now bits }
    {
        match self.last_bit {
            Some(bit) => bit,
            None => bits - 1,
        }
    }

    /// Where the padding byte stands: nowhere where all bits of whole bytes are kept.
    fn padding(&self, first: u64, above: u64) -> PackBitsPaddingEncoding
        ensures value { result ≡ padding_for self.now first above }
    {
        if first == 0 && above == 0 {
            PackBitsPaddingEncoding::None
        } else {
            self.padding_encoding
        }
    }

    /// How a chunk of this form is packed. Errors are those of `encoded_representation`.
    pub(crate) fn layout(
        &self,
        shape: &ChunkShape,
        data_type: &DataType,
        fill_value: &FillValue,
    ) -> Result<PackedLayout, CodecError>
        ensures answer { result
            ≡ packed_layout self.now (form_of shape.now data_type.now fill_value.now) }
        ensures sound { IfOk result IsPackedLayout }
        ensures last_fits { IfOk result (λ layout. layout.first + layout.count < 2 ^ 64) }
        ensures elements { IfOk result (λ layout. layout.elements ≡ product shape.now) }
        ensures no_fault { is_fault result ≡ false }
    {
        let Some(components) = HasComponents::components(data_type) else {
            return Err(CodecError::UnsupportedDataType(PACKBITS));
        };
        if !fill_value.fits(data_type) {
            return Err(CodecError::InvalidFillValue);
        }
        let bits = components.component_size_bits;
        let first = self.first();
        let last = self.last(bits);
        if last < first || bits <= last {
            return Err(CodecError::BitRange);
        }
        let elements = shape.num_elements()?;
        let above = (bits - 1 - last) + (8 - bits % 8) % 8;
        let layout = PackedLayout {
            elements,
            group: components.num_components,
            size: bits.div_ceil(8),
            first,
            count: last - first + 1,
            above,
            sign: components.sign_extension,
            padding: self.padding(first, above),
        };
        if layout.is_in_reach() {
            Ok(layout)
        } else {
            Err(CodecError::Overflow)
        }
    }

    /// How many bytes the value of such a chunk has. Errors, the first that holds:
    /// `UnsupportedDataType` for a type that isn't fixed; `InvalidFillValue`; `BitRange` where a
    /// component doesn't have the bits that are kept, or the last is below the first; `Overflow`
    /// where 64 bits don't count the elements' bytes or, but where all bits of whole bytes are kept,
    /// the kept bits.
    pub fn encoded_representation(
        &self,
        shape: &ChunkShape,
        data_type: &DataType,
        fill_value: &FillValue,
    ) -> Result<BytesRepresentation, CodecError>
        ensures answer { PackBitsRepresentsNow self.now shape.now data_type.now fill_value.now result }
    {
        let layout = self.layout(shape, data_type, fill_value)?;
        Ok(BytesRepresentation::FixedSize(layout.value_len()))
    }

    /// The value of a chunk of which all bits of whole bytes are kept: the codec `bytes` in little
    /// order writes it.
    fn encode_whole<'a>(
        &self,
        alloc: Global,
        elements: ArrayBytes<'a>,
        shape: &ChunkShape,
        data_type: &DataType,
        fill: &FillValue,
    ) -> Result<ArrayBytesRaw<'a>, CodecError>
        requires whole { KeepsAllBytes self.now (form_of shape.now data_type.now fill.now) }
        ensures exact { EncodesNow (packbits_value self.now)
            (form_of shape.now data_type.now fill.now) elements.entry result }
        ensures kept { IsGiven elements.entry result }
        ensures no_fault { is_fault result ≡ false }
    {
        let value = BytesCodec::little().encode(alloc, elements, shape, data_type, fill)?;
        bytes_are(&value);
        Ok(value)
    }

    /// The chunk that a value stands for of which all bits of whole bytes are kept: the codec `bytes`
    /// in little order reads it.
    fn decode_whole<'a>(
        &self,
        alloc: Global,
        value: ArrayBytesRaw<'a>,
        shape: &ChunkShape,
        data_type: &DataType,
        fill: &FillValue,
    ) -> Result<ArrayBytes<'a>, CodecError>
        requires whole { KeepsAllBytes self.now (form_of shape.now data_type.now fill.now) }
        ensures exact { DecodesNow (packbits_chunk self.now)
            (form_of shape.now data_type.now fill.now) (items_of value.entry) result }
        ensures kept { HoldsGiven value.entry result }
        ensures no_fault { is_fault result ≡ false }
    {
        bytes_are(&value);
        BytesCodec::little().decode(alloc, value, shape, data_type, fill)
    }

    /// The value that is written for the chunk that `elements` hold. Errors, the first that
    /// holds: those of `encoded_representation`, those of `ArrayBytes::validate`; `OutOfMemory`.
    ///
    /// Where all bits of whole bytes are kept, the answer is what was given, and takes no memory.
    pub fn encode<'a>(
        &self,
        alloc: Global,
        elements: ArrayBytes<'a>,
        shape: &ChunkShape,
        data_type: &DataType,
        fill_value: &FillValue,
    ) -> Result<ArrayBytesRaw<'a>, CodecError>
        ensures encodes { Encodes (packbits_grammar self.now)
            (form_of shape.now data_type.now fill_value.now) elements.entry result }
        ensures in_place { PackBitsEncodesInPlace self.now
            (form_of shape.now data_type.now fill_value.now) elements.entry result }
        ensures kept { Keeps self.now shape.now data_type.now fill_value.now elements.entry result }
    {
        let layout = self.layout(shape, data_type, fill_value)?;
        if layout.is_whole() {
            return self.encode_whole(alloc, elements, shape, data_type, fill_value);
        }
        elements.validate(layout.elements, data_type)?;
        let raw = elements.into_fixed()?;
        packed_raw(alloc, &layout, raw)
    }

    /// The chunk that a value stands for. Errors, the first that holds: those of
    /// `encoded_representation`; `InvalidBytesLength` where the value has another length;
    /// `PaddingByte` where its padding byte isn't the number of spare bits; `OutOfMemory`.
    ///
    /// Where all bits of whole bytes are kept, the answer holds what was given, and takes no memory.
    pub fn decode<'a>(
        &self,
        alloc: Global,
        value: ArrayBytesRaw<'a>,
        shape: &ChunkShape,
        data_type: &DataType,
        fill_value: &FillValue,
    ) -> Result<ArrayBytes<'a>, CodecError>
        ensures decodes { Decodes (packbits_grammar self.now)
            (form_of shape.now data_type.now fill_value.now) (items_of value.entry) result }
        ensures in_place { PackBitsDecodesInPlace self.now
            (form_of shape.now data_type.now fill_value.now) value.entry result }
        ensures kept { KeepsIn self.now shape.now data_type.now fill_value.now value.entry result }
    {
        let layout = self.layout(shape, data_type, fill_value)?;
        if layout.is_whole() {
            return self.decode_whole(alloc, value, shape, data_type, fill_value);
        }
        check_value(&layout, &value)?;
        let elements = unpacked_raw(alloc, &layout, value)?;
        Ok(ArrayBytes::new_flen(elements))
    }

    /// Writes the elements of the chunk that a value stands for, all of `size` bytes, into `elements`.
    /// Errors: those of `decode`, which leave what was there.
    ///
    /// Where all bits of whole bytes are kept, and where components of one byte keep one bit, two or
    /// four, it takes no memory.
    pub fn decode_elements_into(
        &self,
        alloc: Global,
        value: ArrayBytesRaw<'_>,
        shape: &ChunkShape,
        data_type: &DataType,
        fill_value: &FillValue,
        size: usize,
        elements: &mut [u8],
    ) -> Result<(), CodecError>
        requires some { 0 < size }
        requires sized { fixed_size_of data_type.now ≡ Some size }
        requires len { length elements.old ≡ product shape.now * size }
        ensures decoded { PackBitsPutsElements self.now
            (form_of shape.now data_type.now fill_value.now) (items_of value.entry) elements.new result }
        ensures left { OnErr result (elements.new ≡ elements.old) }
    {
        let layout = self.layout(shape, data_type, fill_value)?;
        check_value(&layout, &value)?;
        unpack_into(alloc, &layout, &value, elements)?;
        Ok(())
    }
}

impl Default for PackBitsCodec {
    /// The codec that keeps all bits, without a padding byte.
    fn default() -> PackBitsCodec
        ensures made { result
            ≡ record { padding = padding.None; first_bit = None; last_bit = None } }
    {
        PackBitsCodec {
            padding_encoding: PackBitsPaddingEncoding::None,
            first_bit: None,
            last_bit: None,
        }
    }
}

impl CodecTraits for PackBitsCodec {
    ghost reads_in_part = { λ _. record { partial_read = true; partial_decode = true } };

    ghost writes_in_part = { λ _. record { partial_encode = false } };

    ghost named = { λ _. Some packbits_name };

    ghost written = { λ settings. Some (write_settings settings) };

    /// The codec's name in metadata, `packbits`.
    fn name_v3(&self) -> Option<&'static str> {
        Some("packbits")
    }

    /// The codec's configuration, always by its three keys. With its name it makes an equal
    /// codec. Errors: `OutOfMemory`.
    #[tactic(auto, using(crate::proofs::MadeAgain::settings_made_again))]
    fn configuration(&self, alloc: Global) -> Result<Option<Configuration>, PluginCreateError>
        ensures answer { MakesConfiguration result (Ok (Some (write_settings self.now))) }
        ensures made_again { MadeAgain
            configuration_seen result settings_made packbits_name self.now }
    {
        let configuration = PackBitsCodecConfiguration::V1(PackBitsCodecConfigurationV1 {
            padding_encoding: Some(self.padding_encoding),
            first_bit: self.first_bit,
            last_bit: self.last_bit,
        });
        Ok(Some(configuration.to_configuration(alloc)?))
    }

    fn partial_decoder_capability(&self) -> PartialDecoderCapability {
        PartialDecoderCapability {
            partial_read: true,
            partial_decode: true,
        }
    }

    fn partial_encoder_capability(&self) -> PartialEncoderCapability {
        PartialEncoderCapability {
            partial_encode: false,
        }
    }
}

impl ArrayCodecTraits for PackBitsCodec {}
