//! The codec `bytes` as an array-to-bytes codec.
use crate::bytes_codec::BytesCodec;
use std::alloc::Global;
use zarrs_array_bytes::{ArrayBytes, ArrayBytesRaw};
use zarrs_chunk::{ChunkShape, CodecError};
use zarrs_codec::{ArrayToBytesCodecTraits, BytesRepresentation};
use zarrs_data_type::{DataType, FillValue};

impl ArrayToBytesCodecTraits for BytesCodec {
    ghost use Rattle.std.specs.Prelude.{◌≡◌, None, IfOk};
    ghost use Rattle.zarrs_chunk.specs.Answer.{seen};
    ghost use Rattle.zarrs_data_type.specs.Form.{form_of};
    ghost use Rattle.zarrs_array_bytes.specs.Held.{items_of};
    ghost use Rattle.zarrs_array_bytes.specs.Tight.{IsTight};
    ghost use Rattle.zarrs_bytes.specs.BytesCodec.{bytes_represented, bytes_length, bytes_value, bytes_chunk, turn_size, RepresentsNow, EncodedNow, DecodedNow};
    ghost use Rattle.zarrs_codec.specs.ChunkCodec.{GivesValid, RepresentsBy, EncodesBy, DecodesBy, CompactsNone};
    ghost use Rattle.zarrs_codec.specs.CodecMembers.{DecodesAgain};
    ghost use Rattle.zarrs_bytes.specs.GivenBytes.{IsGiven, HoldsGiven};

    ghost represented = { λ order form. bytes_represented order form };

    ghost encoded = { λ order form held. bytes_value order form held };

    ghost decoded = { λ order form value. bytes_chunk order form value };

    ghost opened = { λ order form _. seen (λ _. tt) (bytes_length order form) };

    ghost use Rattle.zarrs_bytes.specs.MemberLaws.{bytes_fits};

    ghost fits = { bytes_fits };

    fn encoded_representation(
        &self,
        _alloc: Global,
        shape: &ChunkShape,
        data_type: &DataType,
        fill_value: &FillValue,
    ) -> Result<BytesRepresentation, CodecError>
        ensures answer { RepresentsBy (bytes_represented self.now)
            (form_of shape.now data_type.now fill_value.now) result }
        ensures in_place { RepresentsNow self.now shape.now data_type.now fill_value.now result }
    {
        let lengths = self.lengths(shape, data_type, fill_value)?;
        Ok(BytesRepresentation::FixedSize(lengths.bytes))
    }

    fn encode<'a>(
        &self,
        alloc: Global,
        given: ArrayBytes<'a>,
        shape: &ChunkShape,
        data_type: &DataType,
        fill: &FillValue,
    ) -> Result<ArrayBytesRaw<'a>, CodecError>
        ensures answer { EncodesBy (bytes_value self.now)
            (form_of shape.now data_type.now fill.now) given.entry result }
        ensures in_place { EncodedNow self.now shape.now data_type.now fill.now given.entry result }
        ensures kept { turn_size self.now data_type.now ≡ None → IsGiven given.entry result }
        ensures decoded_again { DecodesAgain (bytes_chunk self.now) (λ t chunk. chunk)
            (form_of shape.now data_type.now fill.now) given.entry result }
    {
        BytesCodec::encode(self, alloc, given, shape, data_type, fill)
    }

    #[tactic(auto, using(crate::proofs::Counted::found_valid, crate::proofs::Counted::found_tight))]
    fn decode<'a>(
        &self,
        alloc: Global,
        value: ArrayBytesRaw<'a>,
        shape: &ChunkShape,
        data_type: &DataType,
        fill: &FillValue,
    ) -> Result<ArrayBytes<'a>, CodecError>
        ensures answer { DecodesBy (bytes_chunk self.now)
            (form_of shape.now data_type.now fill.now) (items_of value.entry) result }
        ensures valid { GivesValid data_type.now shape.now result }
        ensures in_place { DecodedNow self.now shape.now data_type.now fill.now value.entry result }
        ensures kept { turn_size self.now data_type.now ≡ None → HoldsGiven value.entry result }
        ensures tight { IfOk result (IsTight data_type.now) }
    {
        BytesCodec::decode(self, alloc, value, shape, data_type, fill)
    }

    /// A value of fewer bytes for the same chunk: `None`, since there is none. It takes no memory.
    /// Errors: those of `encoded_representation`.
    fn compact<'a>(
        &self,
        _alloc: Global,
        value: ArrayBytesRaw<'a>,
        shape: &ChunkShape,
        data_type: &DataType,
        fill_value: &FillValue,
    ) -> Result<Option<ArrayBytesRaw<'a>>, CodecError>
        ensures answer { CompactsNone (λ form _. seen (λ _. tt) (bytes_length self.now form))
            (form_of shape.now data_type.now fill_value.now) (items_of value.entry) result }
        ensures in_place { result ≡ seen (λ _. None)
            (bytes_length self.now (form_of shape.now data_type.now fill_value.now)) }
    {
        self.lengths(shape, data_type, fill_value)?;
        Ok(None)
    }
}
