//! Chains and their array-to-bytes codecs as every codec of chunks to bytes.
use crate::array_to_bytes_codec::{
    ArrayToBytesCodec, codec_decode, codec_is_sound, codec_representation, codec_taken_encode,
};
use crate::codec_chain::{CodecChain, chain_is_sound};
use crate::form::Form;
use crate::representation::taken_form;
use std::alloc::Global;
use zarrs_array_bytes::{ArrayBytes, ArrayBytesRaw};
use zarrs_chain_meaning::bytes_stages::decode_bytes;
use zarrs_chain_meaning::machine_bytes::elements_are_bytes;
use zarrs_chunk::{ChunkShape, CodecError};
use zarrs_codec::{ArrayToBytesCodecTraits, BytesRepresentation, BytesToBytesCodecTraits};
use zarrs_data_type::{DataType, FillValue};

impl<B: BytesToBytesCodecTraits> ArrayToBytesCodecTraits for CodecChain<B> {
    ghost use Rattle.zarrs_chain_meaning.specs.Chain.{held_value};
    ghost use Rattle.zarrs_chain.specs.ChainView.{plain_chain};
    ghost use Rattle.zarrs_chain.specs.Compact.{chain_opened};
    ghost use Rattle.zarrs_chain_meaning.specs.CodecMeaning.{chain_chunk, chain_representation, normal_form};

    ghost represented = { λ chain form. chain_representation B.functions (plain_chain chain) form.sizes form.type form.fill };

    ghost encoded = { λ chain form held. held_value B.functions (plain_chain chain) form.sizes form.type form.fill held };

    ghost decoded = { λ chain form value. chain_chunk B.functions (plain_chain chain) form.sizes form.type form.fill value };

    ghost normal = { λ chain type chunk. normal_form (plain_chain chain).array_to_bytes type chunk };

    ghost opened = { λ chain form value. chain_opened B.functions (plain_chain chain) form.sizes form.type form.fill value };

    ghost use Rattle.zarrs_chain.specs.MemberLaws.{chain_fits};

    ghost fits = { λ chain. chain_fits B.functions (plain_chain chain) };

    fn encoded_representation(
        &self,
        alloc: Global,
        shape: &ChunkShape,
        data_type: &DataType,
        fill_value: &FillValue,
    ) -> Result<BytesRepresentation, CodecError> {
        CodecChain::encoded_representation(self, alloc, shape, data_type, fill_value)
    }

    fn encode<'a>(
        &self,
        alloc: Global,
        elements: ArrayBytes<'a>,
        shape: &ChunkShape,
        data_type: &DataType,
        fill_value: &FillValue,
    ) -> Result<ArrayBytesRaw<'a>, CodecError> {
        chain_is_sound(self);
        elements_are_bytes(&elements);
        shape.as_slice();
        CodecChain::encode(self, alloc, elements, shape, data_type, fill_value)
    }

    #[tactic(auto, using(crate::proofs::Counted::chain_valid))]
    fn decode<'a>(
        &self,
        alloc: Global,
        value: ArrayBytesRaw<'a>,
        shape: &ChunkShape,
        data_type: &DataType,
        fill_value: &FillValue,
    ) -> Result<ArrayBytes<'a>, CodecError> {
        CodecChain::decode(self, alloc, value, shape, data_type, fill_value)
    }

    fn compact<'a>(
        &self,
        alloc: Global,
        value: ArrayBytesRaw<'a>,
        shape: &ChunkShape,
        data_type: &DataType,
        fill_value: &FillValue,
    ) -> Result<Option<ArrayBytesRaw<'a>>, CodecError> {
        let form = Form {
            shape,
            data_type,
            fill_value,
        };
        let taken = taken_form(alloc, self, form)?;
        decode_bytes(alloc, &self.bytes_to_bytes, &taken.representation, value)?;
        Ok(None)
    }
}

impl<B: BytesToBytesCodecTraits> ArrayToBytesCodecTraits for ArrayToBytesCodec<B> {
    ghost use Rattle.zarrs_chain_meaning.specs.Chain.{codec_held_value, taken_chunk};
    ghost use Rattle.zarrs_chain_meaning.specs.CodecMeaning.{codec_representation, normal_form};
    ghost use Rattle.zarrs_chain.specs.ChainView.{plain_codec};
    ghost use Rattle.zarrs_chain.specs.Compact.{codec_opened};

    ghost represented = { λ codec form. codec_representation B.functions (plain_codec codec) form.sizes form.type form.fill };

    ghost encoded = { λ codec form held. codec_held_value B.functions (plain_codec codec) form.sizes form.type form.fill held };

    ghost decoded = { λ codec form value. taken_chunk B.functions (plain_codec codec) form.sizes form.type form.fill value };

    ghost normal = { λ codec type chunk. normal_form (plain_codec codec) type chunk };

    ghost opened = { λ codec form _. codec_opened B.functions (plain_codec codec) form.sizes form.type form.fill };

    ghost use Rattle.zarrs_chain.specs.MemberLaws.{codec_fits};

    ghost fits = { λ codec. codec_fits B.functions (plain_codec codec) };

    fn encoded_representation(
        &self,
        alloc: Global,
        shape: &ChunkShape,
        data_type: &DataType,
        fill_value: &FillValue,
    ) -> Result<BytesRepresentation, CodecError> {
        let form = Form {
            shape,
            data_type,
            fill_value,
        };
        codec_representation(alloc, self, form)
    }

    fn encode<'a>(
        &self,
        alloc: Global,
        elements: ArrayBytes<'a>,
        shape: &ChunkShape,
        data_type: &DataType,
        fill_value: &FillValue,
    ) -> Result<ArrayBytesRaw<'a>, CodecError> {
        codec_is_sound(self);
        elements_are_bytes(&elements);
        shape.as_slice();
        let form = Form {
            shape,
            data_type,
            fill_value,
        };
        codec_taken_encode(alloc, self, elements, form)
    }

    #[tactic(auto, using(crate::proofs::Counted::content_valid))]
    fn decode<'a>(
        &self,
        alloc: Global,
        value: ArrayBytesRaw<'a>,
        shape: &ChunkShape,
        data_type: &DataType,
        fill_value: &FillValue,
    ) -> Result<ArrayBytes<'a>, CodecError> {
        let form = Form {
            shape,
            data_type,
            fill_value,
        };
        codec_representation(alloc, self, form)?;
        codec_decode(alloc, self, value, shape, data_type, fill_value)
    }

    fn compact<'a>(
        &self,
        alloc: Global,
        _value: ArrayBytesRaw<'a>,
        shape: &ChunkShape,
        data_type: &DataType,
        fill_value: &FillValue,
    ) -> Result<Option<ArrayBytesRaw<'a>>, CodecError> {
        let form = Form {
            shape,
            data_type,
            fill_value,
        };
        codec_representation(alloc, self, form)?;
        Ok(None)
    }
}
