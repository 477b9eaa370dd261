//! The elements of a region from those of its last window.
ghost use Rattle.std.specs.Prelude.{◌≡◌, ◌<◌, ◌^◌, Ok, map};
ghost use Rattle.zarrs_chunk.specs.Answer.{GivesBy, GivesValue};
ghost use Rattle.zarrs_chunk.specs.ChunkShape.{product};
ghost use Rattle.zarrs_array_bytes.specs.Tight.{KeepsTight};
ghost use Rattle.zarrs_array_bytes.specs.Validity.{validity, Holds};
ghost use Rattle.zarrs_array_to_array.specs.CodecAnswers.{type_taken};
ghost use Rattle.zarrs_array_to_array.specs.Mapping.{mapping_of};
ghost use Rattle.zarrs_array_regions.specs.Windows.{decoded_of, window_of, TakesRegion, TakeType};
ghost use Rattle.zarrs_array_regions.specs.Parts.{part_decoded, FitsRegion};

use crate::next::next_window;
use std::alloc::Global;
use zarrs_array_bytes::ArrayBytes;
use zarrs_array_to_array::ArrayToArrayCodec;
use zarrs_chunk::{ArraySubset, ChunkShape, CodecError};
use zarrs_codec::ArrayToArrayCodecTraits;
use zarrs_data_type::{DataType, FillValue};

/// The shape that a region with elements has as a chunk. Errors: `OutOfMemory`.
fn region_shape(alloc: Global, region: &ArraySubset) -> Result<ChunkShape, CodecError>
    requires filled { 0 < product region.now.lengths }
    ensures answer { GivesValue result (Ok region.now.lengths) }
{
    let lengths = Vec::from_slice(alloc, region.shape())?;
    Ok(ChunkShape::new(lengths).unwrap())
}

/// The elements of a part, decoded at its own lengths from those of the window behind one codec.
fn decoded_part<'a>(
    alloc: Global,
    codec: &ArrayToArrayCodec,
    part: &ArraySubset,
    held: ArrayBytes<'a>,
    data_type: &DataType,
    fill_value: &FillValue,
) -> Result<ArrayBytes<'a>, CodecError>
    requires axes { FitsRegion (mapping_of codec.now) part.now }
    requires filled { 0 < product part.now.lengths }
    requires counted { product part.now.lengths < 2 ^ 64 }
    requires takes { type_taken (mapping_of codec.now) data_type.now ≡ Ok tt }
    requires valid { validity data_type.now (product part.now.lengths) held ≡ Ok tt }
    ensures decoded { GivesBy (Holds data_type.now) result
        (Ok (part_decoded (mapping_of codec.now) data_type.now part.now held.entry)) }
    ensures tight { KeepsTight data_type.now held.entry result }
{
    if codec.keeps_places() {
        return Ok(held);
    }
    // Not `?`: a call to `drop` is one step of the proof, and a drop at the end is many.
    let shape = match region_shape(alloc, part) {
        Ok(shape) => shape,
        Err(error) => {
            drop(held);
            return Err(error);
        }
    };
    codec.decode(alloc, held, &shape, data_type, fill_value)
}

/// The elements of a region of a chunk of this shape from those of the window that the codecs take it
/// to, decoded codec by codec, each at the region's lengths before it: a codec that keeps places leaves
/// them as they are. The codecs accept the chunk and its type, the region has elements,
/// and there is one in `held` for each. Where `held` is fixed by its elements, so is what is made.
/// Errors: `OutOfMemory`.
pub fn decoded_window<'a>(
    alloc: Global,
    codecs: &[ArrayToArrayCodec],
    shape: &ChunkShape,
    region: &ArraySubset,
    held: ArrayBytes<'a>,
    data_type: &DataType,
    fill_value: &FillValue,
) -> Result<ArrayBytes<'a>, CodecError>
    requires region { TakesRegion (map mapping_of codecs.now) shape.now region.now }
    requires takes { TakeType (map mapping_of codecs.now) data_type.now }
    requires filled { 0 < product region.now.lengths }
    requires valid { validity data_type.now (product region.now.lengths) held ≡ Ok tt }
    ensures decoded { GivesBy (Holds data_type.now) result (Ok (decoded_of
        (map mapping_of codecs.now) data_type.now (window_of shape.now region.now) held.entry)) }
    ensures tight { KeepsTight data_type.now held.entry result }
{
    match codecs {
        [] => Ok(held),
        [last] => decoded_part(alloc, last, region, held, data_type, fill_value),
        [first, rest @ ..] => {
            first.is_sound();
            let next = match next_window(alloc, first, shape, region) {
                Ok(next) => next,
                Err(error) => {
                    drop(held);
                    return Err(error);
                }
            };
            match next {
                None => Ok(held),
                Some(next) => {
                    let held = decoded_window(
                        alloc,
                        rest,
                        &next.sizes,
                        &next.region,
                        held,
                        data_type,
                        fill_value,
                    )?;
                    decoded_part(alloc, first, region, held, data_type, fill_value)
                }
            }
        }
    }
}
