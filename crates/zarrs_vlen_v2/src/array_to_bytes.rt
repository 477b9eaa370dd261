//! The codecs `vlen-utf8` and `vlen-bytes` as every codec of chunks to bytes.
use crate::vlen_v2_codec::VlenV2Codec;
use std::alloc::Global;
use zarrs_array_bytes::{ArrayBytes, ArrayBytesRaw};
use zarrs_chunk::{ChunkShape, CodecError};
use zarrs_codec::{ArrayToBytesCodecTraits, BytesRepresentation};
use zarrs_data_type::{DataType, FillValue};

impl ArrayToBytesCodecTraits for VlenV2Codec {
    ghost use Rattle.std.specs.Prelude.{◌≡◌, IfOk, None};
    ghost use Rattle.zarrs_chunk.specs.Answer.{seen};
    ghost use Rattle.zarrs_data_type.specs.Form.{form_of};
    ghost use Rattle.zarrs_array_bytes.specs.Held.{items_of};
    ghost use Rattle.zarrs_array_bytes.specs.Tight.{IsTight};
    ghost use Rattle.zarrs_codec.specs.ChunkCodec.{CompactsNone, DecodesBy, EncodesBy, GivesValid, RepresentsBy};
    ghost use Rattle.zarrs_codec.specs.CodecMembers.{DecodesAgain};
    ghost use Rattle.zarrs_vlen_v2.specs.VlenV2Codec.{vlen_v2_represented, vlen_v2_value, vlen_v2_chunk, VlenV2RepresentsNow};

    ghost represented = { λ codec form. vlen_v2_represented codec form };

    ghost encoded = { λ codec form held. vlen_v2_value codec form held };

    ghost decoded = { λ codec form value. vlen_v2_chunk codec form value };

    ghost opened = { λ codec form _. seen (λ _. tt) (vlen_v2_represented codec form) };

    ghost use Rattle.zarrs_vlen_v2.specs.MemberLaws.{vlen_v2_fits};

    ghost fits = { vlen_v2_fits };

    fn encoded_representation(
        &self,
        _alloc: Global,
        shape: &ChunkShape,
        data_type: &DataType,
        fill_value: &FillValue,
    ) -> Result<BytesRepresentation, CodecError>
        ensures answer { RepresentsBy (vlen_v2_represented self.now)
            (form_of shape.now data_type.now fill_value.now) result }
        ensures in_place { VlenV2RepresentsNow self.now shape.now data_type.now fill_value.now result }
    {
        VlenV2Codec::encoded_representation(self, shape, data_type, fill_value)
    }

    fn encode<'a>(
        &self,
        alloc: Global,
        given: ArrayBytes<'a>,
        shape: &ChunkShape,
        data_type: &DataType,
        fill: &FillValue,
    ) -> Result<ArrayBytesRaw<'a>, CodecError>
        ensures answer { EncodesBy (vlen_v2_value self.now)
            (form_of shape.now data_type.now fill.now) given.entry result }
        ensures decoded_again { DecodesAgain (vlen_v2_chunk self.now) (λ _ chunk. chunk)
            (form_of shape.now data_type.now fill.now) given.entry result }
    {
        VlenV2Codec::encode(self, alloc, given, shape, data_type, fill)
    }

    #[tactic(auto, using(crate::proofs::Counted::found_valid, crate::proofs::Counted::found_tight))]
    fn decode<'a>(
        &self,
        alloc: Global,
        value: ArrayBytesRaw<'a>,
        shape: &ChunkShape,
        data_type: &DataType,
        fill: &FillValue,
    ) -> Result<ArrayBytes<'a>, CodecError>
        ensures answer { DecodesBy (vlen_v2_chunk self.now)
            (form_of shape.now data_type.now fill.now) (items_of value.entry) result }
        ensures valid { GivesValid data_type.now shape.now result }
        ensures tight { IfOk result (IsTight data_type.now) }
    {
        VlenV2Codec::decode(self, alloc, value, shape, data_type, fill)
    }

    /// A value of fewer bytes for the same chunk: `None`, since there is none. It takes no memory.
    /// Errors: those of `encoded_representation`.
    fn compact<'a>(
        &self,
        _alloc: Global,
        value: ArrayBytesRaw<'a>,
        shape: &ChunkShape,
        data_type: &DataType,
        fill_value: &FillValue,
    ) -> Result<Option<ArrayBytesRaw<'a>>, CodecError>
        ensures answer { CompactsNone (λ form _. seen (λ _. tt) (vlen_v2_represented self.now form))
            (form_of shape.now data_type.now fill_value.now) (items_of value.entry) result }
        ensures in_place { result ≡ seen (λ _. None)
            (vlen_v2_represented self.now (form_of shape.now data_type.now fill_value.now)) }
    {
        VlenV2Codec::encoded_representation(self, shape, data_type, fill_value)?;
        Ok(None)
    }
}
