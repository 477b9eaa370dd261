//! The array-to-array codecs of a chain, the last of which puts elements where they are wanted.
ghost use Rattle.std.specs.Prelude.{◌≡◌, ◌<◌, ◌*◌, Some, Ok, IfOk, length};
ghost use Rattle.zarrs_array_bytes.specs.Turned.{WholeComponents};
ghost use Rattle.zarrs_array_to_array.specs.WrittenElements.{WritesHeld};
ghost use Rattle.zarrs_chain_meaning.specs.ArrayStages.{map_through, IsMapThrough};
ghost use Rattle.zarrs_chunk.specs.ChunkShape.{product};
ghost use Rattle.zarrs_codec.specs.MappedChunk.{EncodesMoved, DecodesMoved};
ghost use Rattle.zarrs_data_type.specs.ElementType.{fixed_size_of};

use crate::array_stages::decode_arrays;
use std::alloc::Global;
use zarrs_array_bytes::ArrayBytes;
use zarrs_array_to_array::{ArrayToArrayCodec, copy_elements};
use zarrs_chunk::{ChunkShape, CodecError};
use zarrs_codec::ArrayToArrayCodecTraits;
use zarrs_data_type::{DataType, FillValue};

/// Writes the elements, all of one size, of the chunk that `encode_arrays` makes of this one, each
/// component of `turn` bytes turned round. The last codec moves them to where they belong. Errors as
/// `encode_arrays`, which leave what was there.
pub fn encode_arrays_into(
    alloc: Global,
    codecs: &[ArrayToArrayCodec],
    chunk: ArrayBytes<'_>,
    shape: &ChunkShape,
    data_type: &DataType,
    fill_value: &FillValue,
    size: usize,
    turn: Option<usize>,
    moved: &mut [u8],
) -> Result<(), CodecError>
    requires some { 0 < size }
    requires sized { fixed_size_of data_type.now ≡ Some size }
    requires turn { WholeComponents size turn }
    requires len { length moved.old ≡ product shape.now * size }
    // Wide: what is written is what a codec list makes.
    ensures moved { WritesHeld turn moved.old moved.new result (EncodesMoved (λ _. Ok tt)
        (map_through data_type.now codecs.now) data_type.now shape.now chunk.entry) }
    ensures map { IfOk result (λ _. IsMapThrough data_type.now codecs.now shape.now) }
{
    match codecs {
        [] => copy_elements(&chunk, data_type, size, turn, moved),
        [last] => {
            last.encoded_shape(alloc, shape)?;
            last.encode_into(alloc, &chunk, shape, data_type, size, turn, moved)
        }
        [first, rest @ ..] => {
            let next = first.encoded_shape(alloc, shape)?;
            let chunk = first.encode(alloc, chunk, shape, data_type, fill_value)?;
            encode_arrays_into(
                alloc, rest, chunk, &next, data_type, fill_value, size, turn, moved,
            )
        }
    }
}

/// Writes the elements, all of one size, of the chunk that `decode_arrays` makes of this one, each
/// component of `turn` bytes turned round. The first codec moves them to where they belong. Errors as
/// `decode_arrays`, which leave what was there.
pub fn decode_arrays_into(
    alloc: Global,
    codecs: &[ArrayToArrayCodec],
    chunk: ArrayBytes<'_>,
    shape: &ChunkShape,
    data_type: &DataType,
    fill_value: &FillValue,
    size: usize,
    turn: Option<usize>,
    moved: &mut [u8],
) -> Result<(), CodecError>
    requires some { 0 < size }
    requires sized { fixed_size_of data_type.now ≡ Some size }
    requires turn { WholeComponents size turn }
    requires len { length moved.old ≡ product shape.now * size }
    // Wide: what is written is what a codec list makes.
    ensures moved { WritesHeld turn moved.old moved.new result (DecodesMoved (λ _. Ok tt)
        (map_through data_type.now codecs.now) data_type.now shape.now chunk.entry) }
    ensures map { IfOk result (λ _. IsMapThrough data_type.now codecs.now shape.now) }
{
    match codecs {
        [] => copy_elements(&chunk, data_type, size, turn, moved),
        [first, rest @ ..] => {
            shape.as_slice();
            let next = first.encoded_shape(alloc, shape)?;
            let chunk = decode_arrays(alloc, rest, chunk, &next, data_type, fill_value)?;
            first.decode_into(alloc, &chunk, shape, data_type, size, turn, moved)
        }
    }
}
