//! The runs of a region where codecs take it with its elements there, from those of the region.
ghost use Rattle.std.specs.Prelude.{◌≡◌, ◌<◌, ◌^◌, [], Ok, true, length, map, IfOk};
ghost use Rattle.zarrs_chunk.specs.Answer.{seen};
ghost use Rattle.zarrs_chunk.specs.ChunkShape.{product};
ghost use Rattle.zarrs_chunk.specs.Runs.{AreFilled, EndWithin, AreApart};
ghost use Rattle.zarrs_chunk.specs.Tuples.{is_box_inside};
ghost use Rattle.zarrs_array_bytes.specs.Tight.{KeepsTight};
ghost use Rattle.zarrs_array_bytes.specs.Validity.{validity};
ghost use Rattle.zarrs_codec.specs.CoordinateMap.{IsCoordinateMap};
ghost use Rattle.zarrs_array_to_array.specs.ArrayToArrayCodec.{transpose};
ghost use Rattle.zarrs_array_to_array.specs.CodecAnswers.{type_taken};
ghost use Rattle.zarrs_array_to_array.specs.Mapping.{mapping_of};
ghost use Rattle.zarrs_array_regions.specs.Windows.{region_map, window_of, TakesRegion, TakeType, GivesRegionRuns, EncodesRegion};
ghost use Rattle.zarrs_array_regions.specs.Parts.{FitsRegion, EncodesPart};
ghost use Rattle.zarrs_array_regions.specs.FewRuns.{FitsOne, EncodesFirst};

use crate::next::next_window;
use crate::window::own_runs;
use std::alloc::Global;
use zarrs_array_bytes::ArrayBytes;
use zarrs_array_to_array::{ArrayToArrayCodec, TransposeCodec, transpose_elements};
use zarrs_chunk::{ArraySubset, ChunkShape, CodecError};
use zarrs_data_type::DataType;

/// The elements of a part with the axes of both in the codec's order, at the part's own lengths.
#[inline(always)]
pub(crate) fn transposed_part<'b>(
    alloc: Global,
    codec: &TransposeCodec,
    part: &ArraySubset,
    held: &ArrayBytes<'_>,
    data_type: &DataType,
) -> Result<ArrayBytes<'b>, CodecError>
    requires axes { length codec.now ≡ length part.now.lengths }
    requires filled { 0 < product part.now.lengths }
    requires counted { product part.now.lengths < 2 ^ 64 }
    requires valid { validity data_type.now (product part.now.lengths) held.now ≡ Ok tt }
    ensures encoded { EncodesPart (transpose codec.now) data_type.now part.now held.now result }
    ensures tight { KeepsTight data_type.now held.now result }
{
    let count = part.num_elements()?;
    transpose_elements(alloc, held, codec.order(), part.shape(), count, data_type)
}

/// The elements of the window behind one codec, encoded at a part's own lengths from those of the
/// part.
#[inline(always)]
fn encoded_part<'a>(
    alloc: Global,
    codec: &ArrayToArrayCodec,
    part: &ArraySubset,
    held: ArrayBytes<'a>,
    data_type: &DataType,
) -> Result<ArrayBytes<'a>, CodecError>
    requires axes { FitsRegion (mapping_of codec.now) part.now }
    requires filled { 0 < product part.now.lengths }
    requires counted { product part.now.lengths < 2 ^ 64 }
    requires takes { type_taken (mapping_of codec.now) data_type.now ≡ Ok tt }
    requires valid { validity data_type.now (product part.now.lengths) held ≡ Ok tt }
    ensures encoded { EncodesPart (mapping_of codec.now) data_type.now part.now held.entry result }
    ensures tight { KeepsTight data_type.now held.entry result }
{
    let count = part.num_elements()?;
    codec.encode_part(alloc, held, part.shape(), count, data_type)
}

/// The elements of a region as they stand where no codec or the one that there is takes it, from those
/// of the region, at its own lengths. The codec accepts the type, the region has elements, and there is
/// one in `held` for each. Where `held` is fixed by its elements, so is what is made. Errors:
/// `OutOfMemory`.
#[inline(always)]
pub fn encode_first<'a>(
    alloc: Global,
    codecs: &[ArrayToArrayCodec],
    region: &ArraySubset,
    held: ArrayBytes<'a>,
    data_type: &DataType,
) -> Result<ArrayBytes<'a>, CodecError>
    requires fits { FitsOne (map mapping_of codecs.now) region.now }
    requires filled { 0 < product region.now.lengths }
    requires counted { product region.now.lengths < 2 ^ 64 }
    requires takes { TakeType (map mapping_of codecs.now) data_type.now }
    requires valid { validity data_type.now (product region.now.lengths) held ≡ Ok tt }
    ensures encoded { EncodesFirst (map mapping_of codecs.now)
        data_type.now region.now held.entry result }
    ensures tight { KeepsTight data_type.now held.entry result }
{
    match codecs {
        [] => Ok(held),
        [first, ..] => encoded_part(alloc, first, region, held, data_type),
    }
}

/// The runs of a region of a chunk of this shape, and its elements, which stay as they are.
fn with_own_runs<'a>(
    alloc: Global,
    shape: &ChunkShape,
    region: &ArraySubset,
    held: ArrayBytes<'a>,
) -> Result<(Vec<(u64, u64)>, ArrayBytes<'a>), CodecError>
    requires inside { is_box_inside shape.now region.now.starts region.now.lengths ≡ true }
    requires counted { product shape.now < 2 ^ 64 }
    ensures places { GivesRegionRuns [] shape.now region.now (seen (λ answer. answer.0) result) }
    ensures held { IfOk result (λ answer. answer.1 ≡ held.entry) }
    ensures filled { IfOk result (λ answer. AreFilled answer.0.items) }
    ensures below { IfOk result (λ answer. EndWithin (product shape.now) answer.0.items) }
    ensures apart { IfOk result (λ answer. AreApart answer.0.items) }
{
    match own_runs(alloc, shape, region) {
        Ok(runs) => Ok((runs, held)),
        Err(error) => {
            drop(held);
            Err(error)
        }
    }
}

/// The runs of a region of a chunk of this shape where the codecs take it, and its elements as they
/// stand there, encoded from those of the region codec by codec, each at the region's lengths before
/// it. The codecs accept the chunk and its type, the region has elements, and there is one in `held`
/// for each. Where `held` is fixed by its elements, so is what is made. Errors: `OutOfMemory`.
pub(crate) fn encoded_runs<'a>(
    alloc: Global,
    codecs: &[ArrayToArrayCodec],
    shape: &ChunkShape,
    region: &ArraySubset,
    held: ArrayBytes<'a>,
    data_type: &DataType,
) -> Result<(Vec<(u64, u64)>, ArrayBytes<'a>), CodecError>
    requires region { TakesRegion (map mapping_of codecs.now) shape.now region.now }
    requires takes { TakeType (map mapping_of codecs.now) data_type.now }
    requires filled { 0 < product region.now.lengths }
    requires valid { validity data_type.now (product region.now.lengths) held ≡ Ok tt }
    ensures encoded { EncodesRegion codecs.now data_type.now shape.now region.now held.entry result }
    ensures tight { KeepsTight data_type.now held.entry (seen (λ answer. answer.1) result) }
    ensures filled { IfOk result (λ answer. AreFilled answer.0.items) }
    ensures below { IfOk result (λ answer. EndWithin (product shape.now) answer.0.items) }
    ensures apart { IfOk result (λ answer. AreApart answer.0.items) }
    ensures map { IfOk result (λ _. IsCoordinateMap region.now.lengths
        (region_map (map mapping_of codecs.now) (window_of shape.now region.now))) }
{
    match codecs {
        [] => with_own_runs(alloc, shape, region, held),
        [first, rest @ ..] => {
            first.is_sound();
            let next = match next_window(alloc, first, shape, region) {
                Ok(next) => next,
                Err(error) => {
                    drop(held);
                    return Err(error);
                }
            };
            match next {
                None => with_own_runs(alloc, shape, region, held),
                Some(next) => {
                    let held = encoded_part(alloc, first, region, held, data_type)?;
                    let made = encoded_runs(
                        alloc,
                        rest,
                        &next.sizes,
                        &next.region,
                        held,
                        data_type,
                    );
                    drop(next);
                    made
                }
            }
        }
    }
}
