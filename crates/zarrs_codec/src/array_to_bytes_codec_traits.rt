//! Codecs that make the value of a chunk.
ghost use Rattle.std.specs.Prelude.{◌≡◌, ℕ, List, Result, Ok, IfOk, OnErr, false};
ghost use Rattle.zarrs_chunk.specs.Answer.{is_fault};
ghost use Rattle.zarrs_chunk.specs.declared.codec_error.CodecError.{CodecError};
ghost use Rattle.zarrs_data_type.specs.Element.{Chunk};
ghost use Rattle.zarrs_data_type.specs.ElementType.{ElementType};
ghost use Rattle.zarrs_data_type.specs.Form.{Form, form_of};
ghost use Rattle.zarrs_array_bytes.specs.ArrayBytesDecodeIntoTarget.{target_of, target_names};
ghost use Rattle.zarrs_array_bytes.specs.Tight.{IsTight};
ghost use Rattle.zarrs_array_bytes.specs.Held.{Held, items_of};
ghost use Rattle.zarrs_codec.specs.ChunkCodec.{RepresentsBy, EncodesBy, DecodesBy, GivesValid, CompactsNone};
ghost use Rattle.zarrs_codec.specs.CodecMembers.{FitsForm, DecodesAgain};
ghost use Rattle.zarrs_codec.specs.DecodeInto.{DecodesInto};
ghost use Rattle.zarrs_codec.specs.declared.bytes_representation.BytesRepresentation.{BytesRepresentation};

use crate::bytes_representation::BytesRepresentation;
use crate::codec_traits::ArrayCodecTraits;
use std::alloc::Global;
use zarrs_array_bytes::{ArrayBytes, ArrayBytesDecodeIntoTarget, ArrayBytesRaw};
use zarrs_chunk::{ChunkShape, CodecError};
use zarrs_data_type::{DataType, FillValue};

/// An array-to-bytes codec: the codec of a chain that makes a chunk's value, or a whole chain.
///
/// What it computes is a function of the chunk's shape, type and fill value, and of what is given.
pub trait ArrayToBytesCodecTraits: ArrayCodecTraits {
    // How many bytes a value has, or the first error.
    ghost represented: { Self → Form → Result BytesRepresentation CodecError };

    // The value of the chunk that a container holds, or the first error.
    ghost encoded: { Self → Form → Held → Result (List ℕ) CodecError };

    // The chunk that a value stands for, or the first error.
    ghost decoded: { Self → Form → List ℕ → Result Chunk CodecError };

    // What the codec keeps of a chunk of such elements, which is decoded again of its value. All of it, where nothing else is declared.
    ghost normal: { Self → ElementType → Chunk → Chunk } = { λ codec type chunk. chunk };

    // That the codec accepts such chunks and the bytes-to-bytes codecs, where it has some, decode a value, or the first error.
    ghost opened: { Self → Form → List ℕ → Result (Unit {0}) CodecError };

    /// How many bytes the value of such a chunk has. Errors: those of chunks that the codec doesn't
    /// accept; `OutOfMemory`.
    fn encoded_representation(
        &self,
        alloc: Global,
        shape: &ChunkShape,
        data_type: &DataType,
        fill_value: &FillValue,
    ) -> Result<BytesRepresentation, CodecError>
        ensures answer { RepresentsBy (represented self.now)
            (form_of shape.now data_type.now fill_value.now) result };

    /// The value of the chunk that `elements` hold: `decode` gives of it what the codec keeps of the
    /// chunk. Errors, the first that holds, `OutOfMemory` aside: those of `encoded_representation`;
    /// those of `ArrayBytes::validate`; the codec's own, which its `encode` names.
    fn encode<'a>(
        &self,
        alloc: Global,
        elements: ArrayBytes<'a>,
        shape: &ChunkShape,
        data_type: &DataType,
        fill_value: &FillValue,
    ) -> Result<ArrayBytesRaw<'a>, CodecError>
        ensures answer { EncodesBy (encoded self.now)
            (form_of shape.now data_type.now fill_value.now) elements.entry result }
        ensures decoded_again { DecodesAgain (decoded self.now) (normal self.now)
            (form_of shape.now data_type.now fill_value.now) elements.entry result };

    /// The chunk that a value stands for, in a container that it fixes: offsets begin at 0, mask bytes
    /// are 0 or 1, and blank elements stand under absent ones. Errors, the first that holds,
    /// `OutOfMemory` aside: those of `encoded_representation`; the codec's own, which its `decode`
    /// names.
    fn decode<'a>(
        &self,
        alloc: Global,
        value: ArrayBytesRaw<'a>,
        shape: &ChunkShape,
        data_type: &DataType,
        fill_value: &FillValue,
    ) -> Result<ArrayBytes<'a>, CodecError>
        ensures answer { DecodesBy (decoded self.now)
            (form_of shape.now data_type.now fill_value.now) (items_of value.entry) result }
        ensures valid { GivesValid data_type.now shape.now result }
        ensures tight { IfOk result (IsTight data_type.now) };

    /// Writes the chunk that a value stands for at the target's places, in row-major order; all other
    /// bytes of the target stay. It takes no memory for the elements beyond that of `decode`. Errors,
    /// the first that holds, `OutOfMemory` aside, which all leave the target: those of
    /// `encoded_representation`; those of `ArrayBytesDecodeIntoTarget::check`, `UnsupportedTarget` and
    /// `TargetMismatch`; those of `decode`.
    #[tactic(auto, using(zarrs_array_bytes::proofs::TargetLemmas::taken_filled, crate::proofs::DecodeInto::written_after))]
    fn decode_into<'a>(
        &self,
        alloc: Global,
        value: ArrayBytesRaw<'a>,
        shape: &ChunkShape,
        data_type: &DataType,
        fill_value: &FillValue,
        target: &mut ArrayBytesDecodeIntoTarget<'_>,
    ) -> Result<(), CodecError>
        ensures answer { DecodesInto (represented self.now) (decoded self.now) target.old target.new
            (form_of shape.now data_type.now fill_value.now) (items_of value.entry) result }
        ensures kept { OnErr result (target_of target.new ≡ target_of target.old) }
        ensures same_reference { target_names target.new ≡ target_names target.old }
        ensures no_fault { is_fault result ≡ false }
    {
        self.encoded_representation(alloc, shape, data_type, fill_value)?;
        target.check(shape, data_type)?;
        let elements = self.decode(alloc, value, shape, data_type, fill_value)?;
        target.write(&elements);
        Ok(())
    }

    /// A value of fewer bytes for the same chunk, where the codec can make one: `None`, since no codec
    /// here can. Errors, the first that holds, `OutOfMemory` aside: those of
    /// `encoded_representation`; `BytesCodec` of the last bytes-to-bytes codec, then of the one before.
    fn compact<'a>(
        &self,
        alloc: Global,
        value: ArrayBytesRaw<'a>,
        shape: &ChunkShape,
        data_type: &DataType,
        fill_value: &FillValue,
    ) -> Result<Option<ArrayBytesRaw<'a>>, CodecError>
        ensures answer { CompactsNone (opened self.now)
            (form_of shape.now data_type.now fill_value.now) (items_of value.entry) result };

    // What is decoded is of chunks that the codec accepts, and has as many elements as they have.
    ghost fits: { (codec : Self) (form : Form) (value : List ℕ) (chunk : Chunk) → decoded codec form value ≡ Ok chunk → FitsForm (represented codec form) form chunk };
}
