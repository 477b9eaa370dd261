//! What `sharding_indexed` says of itself, and does, as every codec of chunks to bytes.
use crate::sharding::sharding_codec::{ShardingCodec, sharding_is_sound, sharding_written};
use std::alloc::Global;
use zarrs_array_bytes::{ArrayBytes, ArrayBytesRaw};
use zarrs_chain_meaning::machine_bytes::elements_are_bytes;
use zarrs_chunk::{ChunkShape, CodecError};
use zarrs_codec::{
    ArrayCodecTraits, ArrayToBytesCodecTraits, BytesRepresentation, BytesToBytesCodecTraits,
    CodecTraits, PartialDecoderCapability, PartialEncoderCapability,
};
use zarrs_data_type::{DataType, FillValue};
use zarrs_metadata::{Configuration, PluginCreateError};

impl<B: BytesToBytesCodecTraits> ArrayToBytesCodecTraits for ShardingCodec<B> {
    ghost use Rattle.zarrs_chain_meaning.specs.Chain.{codec_held_value, taken_chunk};
    ghost use Rattle.zarrs_chain.specs.ChainView.{plain_sharding};
    ghost use Rattle.zarrs_chain.specs.Compact.{codec_opened};
    ghost use Rattle.zarrs_chain_meaning.specs.CodecMeaning.{normal_form, codec_representation};

    ghost represented = { λ codec form. codec_representation B.functions (plain_sharding codec) form.sizes form.type form.fill };

    ghost encoded = { λ codec form held. codec_held_value B.functions (plain_sharding codec) form.sizes form.type form.fill held };

    ghost decoded = { λ codec form value. taken_chunk B.functions (plain_sharding codec) form.sizes form.type form.fill value };

    ghost normal = { λ codec type chunk. normal_form (plain_sharding codec) type chunk };

    ghost opened = { λ codec form _. codec_opened B.functions (plain_sharding codec) form.sizes form.type form.fill };

    ghost use Rattle.zarrs_chain.specs.MemberLaws.{codec_fits};

    ghost fits = { λ codec. codec_fits B.functions (plain_sharding codec) };

    fn encoded_representation(
        &self,
        alloc: Global,
        shape: &ChunkShape,
        data_type: &DataType,
        fill_value: &FillValue,
    ) -> Result<BytesRepresentation, CodecError> {
        ShardingCodec::encoded_representation(self, alloc, shape, data_type, fill_value)
    }

    fn encode<'a>(
        &self,
        alloc: Global,
        elements: ArrayBytes<'a>,
        shape: &ChunkShape,
        data_type: &DataType,
        fill_value: &FillValue,
    ) -> Result<ArrayBytesRaw<'a>, CodecError> {
        sharding_is_sound(self);
        elements_are_bytes(&elements);
        shape.as_slice();
        ShardingCodec::encode(self, alloc, elements, shape, data_type, fill_value)
    }

    #[tactic(auto, using(crate::proofs::Counted::codec_valid))]
    fn decode<'a>(
        &self,
        alloc: Global,
        value: ArrayBytesRaw<'a>,
        shape: &ChunkShape,
        data_type: &DataType,
        fill_value: &FillValue,
    ) -> Result<ArrayBytes<'a>, CodecError> {
        ShardingCodec::decode(self, alloc, value, shape, data_type, fill_value)
    }

    fn compact<'a>(
        &self,
        alloc: Global,
        _value: ArrayBytesRaw<'a>,
        shape: &ChunkShape,
        data_type: &DataType,
        fill_value: &FillValue,
    ) -> Result<Option<ArrayBytesRaw<'a>>, CodecError> {
        ShardingCodec::encoded_representation(self, alloc, shape, data_type, fill_value)?;
        Ok(None)
    }
}

impl<B: BytesToBytesCodecTraits> CodecTraits for ShardingCodec<B> {
    ghost use Rattle.std.specs.Prelude.{Some, false, true};
    ghost use Rattle.zarrs_chain.specs.ChainView.{plain_sharding};
    ghost use Rattle.zarrs_chain_meaning.specs.CodecNames.{sharding_name};
    ghost use Rattle.zarrs_chain_meaning.specs.WrittenMetadata.{codec_configuration};

    ghost reads_in_part = { λ _. record { partial_read = true; partial_decode = true } };

    ghost writes_in_part = { λ _. record { partial_encode = false } };

    ghost named = { λ _. Some sharding_name };

    ghost written = { λ codec. Some (codec_configuration B.described (plain_sharding codec)) };

    /// The codec's name in metadata, `sharding_indexed`.
    fn name_v3(&self) -> Option<&'static str> {
        Some("sharding_indexed")
    }

    /// The codec's configuration, by its four keys. Errors: `OutOfMemory`.
    fn configuration(&self, alloc: Global) -> Result<Option<Configuration>, PluginCreateError> {
        Ok(Some(sharding_written(alloc, self)?))
    }

    fn partial_decoder_capability(&self) -> PartialDecoderCapability {
        PartialDecoderCapability {
            partial_read: true,
            partial_decode: true,
        }
    }

    fn partial_encoder_capability(&self) -> PartialEncoderCapability {
        PartialEncoderCapability {
            partial_encode: false,
        }
    }
}

impl<B: BytesToBytesCodecTraits> ArrayCodecTraits for ShardingCodec<B> {}
