//! The array-to-array codecs of a chain, one after another.
ghost use Rattle.std.specs.Prelude.{◌≡◌, IfOk, Ok, false};
ghost use Rattle.zarrs_chunk.specs.Answer.{is_fault};
ghost use Rattle.zarrs_array_bytes.specs.Tight.{KeepsTight};
ghost use Rattle.zarrs_codec.specs.CoordinateMap.{MapsSizes};
ghost use Rattle.zarrs_codec.specs.MappedChunk.{GivesSizes, EncodesMoved, DecodesMoved};
ghost use Rattle.zarrs_array_to_array.specs.ArrayToArrayCodec.{coordinates};
ghost use Rattle.zarrs_array_to_array.specs.Mapping.{mapping_of};
ghost use Rattle.zarrs_chain_meaning.specs.ArrayStages.{codec_map, map_through, IsMapThrough};
ghost use Rattle.zarrs_chain_meaning.specs.KeptBytes.{HandsOn};

use std::alloc::Global;
use zarrs_array_bytes::ArrayBytes;
use zarrs_array_to_array::ArrayToArrayCodec;
use zarrs_chunk::{ChunkShape, CodecError};
use zarrs_codec::ArrayToArrayCodecTraits;
use zarrs_data_type::{DataType, FillValue};

/// The shape that a codec makes of this one. Errors: that it doesn't take the type, and then that
/// it doesn't take the shape.
#[tactic(auto, using(crate::proofs::ArraySteps::shape_of_taken, crate::proofs::ArraySteps::shape_refused))]
fn next_shape(
    alloc: Global,
    codec: &ArrayToArrayCodec,
    shape: &ChunkShape,
    data_type: &DataType,
) -> Result<ChunkShape, CodecError>
    ensures answer { GivesSizes result (codec_map data_type.now (mapping_of codec.now) shape.now) }
    ensures map { MapsSizes (coordinates (mapping_of codec.now)) shape.now result }
{
    codec.encoded_data_type(alloc, data_type)?;
    codec.encoded_shape(alloc, shape)
}

/// The shape that the codecs make of this one. Errors, of each codec in order: that it doesn't take
/// the type, and then that it doesn't take the shape.
pub fn shape_through(
    alloc: Global,
    codecs: &[ArrayToArrayCodec],
    shape: &ChunkShape,
    data_type: &DataType,
) -> Result<ChunkShape, CodecError>
    ensures answer { GivesSizes result (map_through data_type.now codecs.now shape.now) }
    ensures map { IfOk result (λ _. IsMapThrough data_type.now codecs.now shape.now) }
{
    match codecs {
        [] => shape.clone(),
        [first, rest @ ..] => {
            let next = next_shape(alloc, first, shape, data_type)?;
            shape_through(alloc, rest, &next, data_type)
        }
    }
}

/// The chunk that the codecs make of this one, where they take it. Errors, the first that holds, of
/// each codec in order: those of its `encoded_shape`; those of its `encode`; `OutOfMemory`.
pub fn encode_arrays<'a>(
    alloc: Global,
    codecs: &[ArrayToArrayCodec],
    chunk: ArrayBytes<'a>,
    shape: &ChunkShape,
    data_type: &DataType,
    fill_value: &FillValue,
) -> Result<ArrayBytes<'a>, CodecError>
    ensures moved { EncodesMoved (λ _. Ok tt) (map_through data_type.now codecs.now)
        data_type.now shape.now chunk.entry result }
    ensures kept { HandsOn codecs.now chunk.entry result }
    ensures map { IfOk result (λ _. IsMapThrough data_type.now codecs.now shape.now) }
    ensures no_fault { is_fault result ≡ false }
{
    match codecs {
        [] => Ok(chunk),
        [first, rest @ ..] => {
            let next = first.encoded_shape(alloc, shape)?;
            let chunk = first.encode(alloc, chunk, shape, data_type, fill_value)?;
            encode_arrays(alloc, rest, chunk, &next, data_type, fill_value)
        }
    }
}

/// The chunk of this shape that the codecs make the given one of, where they take such chunks. What
/// is made of a tight container is tight. Errors, of each codec: those of its `encoded_shape`;
/// those of its `decode`; `OutOfMemory`.
pub fn decode_arrays<'a>(
    alloc: Global,
    codecs: &[ArrayToArrayCodec],
    chunk: ArrayBytes<'a>,
    shape: &ChunkShape,
    data_type: &DataType,
    fill_value: &FillValue,
) -> Result<ArrayBytes<'a>, CodecError>
    ensures moved { DecodesMoved (λ _. Ok tt) (map_through data_type.now codecs.now)
        data_type.now shape.now chunk.entry result }
    ensures kept { HandsOn codecs.now chunk.entry result }
    ensures tight { KeepsTight data_type.now chunk.entry result }
    ensures map { IfOk result (λ _. IsMapThrough data_type.now codecs.now shape.now) }
    ensures no_fault { is_fault result ≡ false }
{
    match codecs {
        [] => Ok(chunk),
        [first, rest @ ..] => {
            shape.as_slice();
            let next = first.encoded_shape(alloc, shape)?;
            let chunk = decode_arrays(alloc, rest, chunk, &next, data_type, fill_value)?;
            first.decode(alloc, chunk, shape, data_type, fill_value)
        }
    }
}
