//! The codec `packbits` as every codec of chunks to bytes.
use crate::packbits_codec::PackBitsCodec;
use std::alloc::Global;
use zarrs_array_bytes::{ArrayBytes, ArrayBytesRaw};
use zarrs_chunk::{ChunkShape, CodecError};
use zarrs_codec::{ArrayToBytesCodecTraits, BytesRepresentation};
use zarrs_data_type::{DataType, FillValue};

impl ArrayToBytesCodecTraits for PackBitsCodec {
    ghost use Rattle.std.specs.Prelude.{◌≡◌, IfOk, None};
    ghost use Rattle.zarrs_chunk.specs.Answer.{seen};
    ghost use Rattle.zarrs_data_type.specs.Form.{form_of};
    ghost use Rattle.zarrs_array_bytes.specs.Held.{items_of};
    ghost use Rattle.zarrs_array_bytes.specs.Tight.{IsTight};
    ghost use Rattle.zarrs_codec.specs.ChunkCodec.{CompactsNone, DecodesBy, EncodesBy, GivesValid, RepresentsBy};
    ghost use Rattle.zarrs_codec.specs.CodecMembers.{DecodesAgain};
    ghost use Rattle.zarrs_packbits.specs.NormalForm.{normal_chunk};
    ghost use Rattle.zarrs_packbits.specs.PackBitsCodec.{packbits_value, packbits_chunk, PackBitsDecodesInPlace, PackBitsEncodesInPlace, Keeps, KeepsIn};
    ghost use Rattle.zarrs_packbits.specs.PackBitsSettings.{packbits_length, packbits_represented, PackBitsRepresentsNow};

    ghost represented = { λ settings form. packbits_represented settings form };

    ghost encoded = { λ settings form held. packbits_value settings form held };

    ghost decoded = { λ settings form value. packbits_chunk settings form value };

    ghost normal = { λ settings type chunk. normal_chunk settings type chunk };

    ghost opened = { λ settings form _. seen (λ _. tt) (packbits_length settings form) };

    ghost use Rattle.zarrs_packbits.specs.MemberLaws.{packbits_fits};

    ghost fits = { packbits_fits };

    fn encoded_representation(
        &self,
        _alloc: Global,
        shape: &ChunkShape,
        data_type: &DataType,
        fill_value: &FillValue,
    ) -> Result<BytesRepresentation, CodecError>
        ensures answer { RepresentsBy (packbits_represented self.now)
            (form_of shape.now data_type.now fill_value.now) result }
        ensures in_place { PackBitsRepresentsNow self.now shape.now data_type.now fill_value.now result }
    {
        let layout = self.layout(shape, data_type, fill_value)?;
        Ok(BytesRepresentation::FixedSize(layout.value_len()))
    }

    fn encode<'a>(
        &self,
        alloc: Global,
        given: ArrayBytes<'a>,
        shape: &ChunkShape,
        data_type: &DataType,
        fill: &FillValue,
    ) -> Result<ArrayBytesRaw<'a>, CodecError>
        ensures answer { EncodesBy (packbits_value self.now)
            (form_of shape.now data_type.now fill.now) given.entry result }
        ensures in_place { PackBitsEncodesInPlace self.now
            (form_of shape.now data_type.now fill.now) given.entry result }
        ensures kept { Keeps self.now shape.now data_type.now fill.now given.entry result }
        ensures decoded_again { DecodesAgain (packbits_chunk self.now) (normal_chunk self.now)
            (form_of shape.now data_type.now fill.now) given.entry result }
    {
        PackBitsCodec::encode(self, alloc, given, shape, data_type, fill)
    }

    #[tactic(auto, using(crate::proofs::Counted::found_valid, crate::proofs::Counted::found_tight))]
    fn decode<'a>(
        &self,
        alloc: Global,
        value: ArrayBytesRaw<'a>,
        shape: &ChunkShape,
        data_type: &DataType,
        fill: &FillValue,
    ) -> Result<ArrayBytes<'a>, CodecError>
        ensures answer { DecodesBy (packbits_chunk self.now)
            (form_of shape.now data_type.now fill.now) (items_of value.entry) result }
        ensures valid { GivesValid data_type.now shape.now result }
        ensures in_place { PackBitsDecodesInPlace self.now
            (form_of shape.now data_type.now fill.now) value.entry result }
        ensures kept { KeepsIn self.now shape.now data_type.now fill.now value.entry result }
        ensures tight { IfOk result (IsTight data_type.now) }
    {
        PackBitsCodec::decode(self, alloc, value, shape, data_type, fill)
    }

    /// A value of fewer bytes for the same chunk: `None`, since there is none. It takes no memory.
    /// Errors: those of `encoded_representation`.
    fn compact<'a>(
        &self,
        _alloc: Global,
        value: ArrayBytesRaw<'a>,
        shape: &ChunkShape,
        data_type: &DataType,
        fill_value: &FillValue,
    ) -> Result<Option<ArrayBytesRaw<'a>>, CodecError>
        ensures answer { CompactsNone (λ form _. seen (λ _. tt) (packbits_length self.now form))
            (form_of shape.now data_type.now fill_value.now) (items_of value.entry) result }
        ensures in_place { result ≡ seen (λ _. None)
            (packbits_length self.now (form_of shape.now data_type.now fill_value.now)) }
    {
        self.layout(shape, data_type, fill_value)?;
        Ok(None)
    }
}
