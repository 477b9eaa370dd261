//! What `vlen` says of itself, and does, as every codec of chunks to bytes.
use crate::vlen::plain_form::vlen_reads;
use crate::vlen::vlen_codec::{VlenCodec, vlen_is_sound, vlen_written};
use std::alloc::Global;
use zarrs_array_bytes::{ArrayBytes, ArrayBytesRaw};
use zarrs_chain_meaning::machine_bytes::elements_are_bytes;
use zarrs_chunk::{ChunkShape, CodecError};
use zarrs_codec::{
    ArrayCodecTraits, ArrayToBytesCodecTraits, BytesRepresentation, BytesToBytesCodecTraits,
    CodecTraits, PartialDecoderCapability, PartialEncoderCapability,
};
use zarrs_data_type::{DataType, FillValue};
use zarrs_metadata::{Configuration, PluginCreateError};

impl<B: BytesToBytesCodecTraits> ArrayToBytesCodecTraits for VlenCodec<B> {
    ghost use Rattle.zarrs_chain_meaning.specs.Chain.{codec_held_value, taken_chunk};
    ghost use Rattle.zarrs_chain.specs.ChainView.{plain_vlen};
    ghost use Rattle.zarrs_chain.specs.Compact.{codec_opened};
    ghost use Rattle.zarrs_chain_meaning.specs.CodecMeaning.{normal_form, codec_representation};

    ghost represented = { λ codec form. codec_representation B.functions (plain_vlen codec) form.sizes form.type form.fill };

    ghost encoded = { λ codec form held. codec_held_value B.functions (plain_vlen codec) form.sizes form.type form.fill held };

    ghost decoded = { λ codec form value. taken_chunk B.functions (plain_vlen codec) form.sizes form.type form.fill value };

    ghost normal = { λ codec type chunk. normal_form (plain_vlen codec) type chunk };

    ghost opened = { λ codec form _. codec_opened B.functions (plain_vlen codec) form.sizes form.type form.fill };

    ghost use Rattle.zarrs_chain.specs.MemberLaws.{codec_fits};

    ghost fits = { λ codec. codec_fits B.functions (plain_vlen codec) };

    fn encoded_representation(
        &self,
        _alloc: Global,
        shape: &ChunkShape,
        data_type: &DataType,
        fill_value: &FillValue,
    ) -> Result<BytesRepresentation, CodecError> {
        VlenCodec::encoded_representation(self, shape, data_type, fill_value)
    }

    fn encode<'a>(
        &self,
        alloc: Global,
        elements: ArrayBytes<'a>,
        shape: &ChunkShape,
        data_type: &DataType,
        fill_value: &FillValue,
    ) -> Result<ArrayBytesRaw<'a>, CodecError> {
        vlen_is_sound(self);
        elements_are_bytes(&elements);
        shape.as_slice();
        VlenCodec::encode(self, alloc, elements, shape, data_type, fill_value)
    }

    #[tactic(auto, using(crate::proofs::Counted::codec_valid))]
    fn decode<'a>(
        &self,
        alloc: Global,
        value: ArrayBytesRaw<'a>,
        shape: &ChunkShape,
        data_type: &DataType,
        fill_value: &FillValue,
    ) -> Result<ArrayBytes<'a>, CodecError> {
        VlenCodec::decode(self, alloc, value, shape, data_type, fill_value)
    }

    fn compact<'a>(
        &self,
        _alloc: Global,
        _value: ArrayBytesRaw<'a>,
        shape: &ChunkShape,
        data_type: &DataType,
        fill_value: &FillValue,
    ) -> Result<Option<ArrayBytesRaw<'a>>, CodecError> {
        VlenCodec::encoded_representation(self, shape, data_type, fill_value)?;
        Ok(None)
    }
}

impl<B: BytesToBytesCodecTraits> CodecTraits for VlenCodec<B> {
    ghost use Rattle.std.specs.Prelude.{Some, false};
    ghost use Rattle.zarrs_chain_meaning.specs.Chain.{codec_reads};
    ghost use Rattle.zarrs_chain.specs.ChainView.{plain_vlen};
    ghost use Rattle.zarrs_chain_meaning.specs.CodecNames.{vlen_name};
    ghost use Rattle.zarrs_chain_meaning.specs.WrittenMetadata.{codec_configuration};

    ghost reads_in_part = { λ codec. codec_reads (plain_vlen codec) };

    ghost writes_in_part = { λ _. record { partial_encode = false } };

    ghost named = { λ _. Some vlen_name };

    ghost written = { λ codec. Some (codec_configuration B.described (plain_vlen codec)) };

    /// The codec's name in metadata, `zarrs.vlen`.
    fn name_v3(&self) -> Option<&'static str> {
        Some("zarrs.vlen")
    }

    /// The codec's configuration, by its four keys. Errors: `OutOfMemory`.
    fn configuration(&self, alloc: Global) -> Result<Option<Configuration>, PluginCreateError> {
        Ok(Some(vlen_written(alloc, self)?))
    }

    /// All where the codec is plain, else nothing.
    fn partial_decoder_capability(&self) -> PartialDecoderCapability {
        vlen_reads(self)
    }

    fn partial_encoder_capability(&self) -> PartialEncoderCapability {
        PartialEncoderCapability {
            partial_encode: false,
        }
    }
}

impl<B: BytesToBytesCodecTraits> ArrayCodecTraits for VlenCodec<B> {}
