//! The elements of a region, put together part by part, and cut into parts.
ghost use Rattle.std.specs.Prelude.{IfOk};
ghost use Rattle.zarrs_array_bytes.specs.Chunks.{chunk_update, selected_chunk};
ghost use Rattle.zarrs_array_bytes.specs.Tight.{ExtractsTight, GivesFlush, IsTight, UpdatesTight};
ghost use Rattle.zarrs_array_bytes.specs.Validity.{Holds};
ghost use Rattle.zarrs_array_plan.specs.Joined.{BeginsRegion, CutsPart, JoinsPart, region_fill};
ghost use Rattle.zarrs_chunk.specs.Answer.{Gives, GivesBy};
ghost use Rattle.zarrs_chunk.specs.ChunkShape.{product};
ghost use Rattle.zarrs_chunk.specs.Runs.{places_in, EndWithin};
ghost use Rattle.zarrs_chunk.specs.Selection.{subset as subset_of, places_of};

use crate::plan::check_box;
use std::alloc::Global;
use zarrs_array_bytes::{ArrayBytes, update_runs};
use zarrs_chunk::{ArraySubset, ChunkShape, CodecError, subset_runs};
use zarrs_data_type::{DataType, FillValue};
use zarrs_grid::ChunkPart;

/// The places of a box among the elements of a region of these lengths, as runs. A region without
/// elements has boxes without places.
fn box_runs(
    alloc: Global,
    lengths: &[u64],
    part: &ArraySubset,
) -> Result<Vec<(u64, u64)>, CodecError>
    ensures places { Gives places_in result (places_of (subset_of part.now) lengths.now) }
    ensures below { IfOk result (λ v. EndWithin (product lengths.now) v.items) }
{
    match ChunkShape::new(Vec::from_slice(alloc, lengths)?) {
        Some(shape) => subset_runs(alloc, &shape, part),
        None => {
            check_box(lengths, part)?;
            Ok(Vec::new(alloc))
        }
    }
}

/// As many fill elements as a region has elements: what to begin an answer with. Errors, the first that
/// holds, `OutOfMemory` aside: `Overflow` where the region has `2^64` elements or more; those of
/// `ArrayBytes::new_fill_value`.
pub fn fill_region<'a>(
    alloc: Global,
    region: &ArraySubset,
    data_type: &DataType,
    fill_value: &FillValue,
) -> Result<ArrayBytes<'a>, CodecError>
    ensures exact { GivesBy (Holds data_type.now) result
        (region_fill data_type.now region.now fill_value.now) }
    ensures tight { IfOk result (IsTight data_type.now) }
    ensures region_begun { BeginsRegion data_type.now region.now result }
{
    let count = region.num_elements()?;
    ArrayBytes::new_fill_value(alloc, data_type, count, fill_value)
}

/// The elements of a region, with those of a part put in their places.
fn put_part<'b>(
    alloc: Global,
    answer: ArrayBytes<'_>,
    region: &ArraySubset,
    part: &ArraySubset,
    elements: &ArrayBytes<'_>,
    data_type: &DataType,
) -> Result<ArrayBytes<'b>, CodecError>
    ensures exact { GivesBy (Holds data_type.now) result (chunk_update data_type.now
        region.now.lengths (subset_of part.now) answer.entry elements.now) }
    ensures flush { GivesFlush result }
    ensures tight { UpdatesTight data_type.now answer.entry elements.now result }
{
    let runs = box_runs(alloc, region.shape(), part)?;
    let count = region.num_elements()?;
    update_runs(alloc, answer, count, &runs, elements, data_type)
}

/// Those of a region's elements that are a part's.
fn take_part<'b>(
    alloc: Global,
    elements: &ArrayBytes<'_>,
    region: &ArraySubset,
    part: &ArraySubset,
    data_type: &DataType,
) -> Result<ArrayBytes<'b>, CodecError>
    ensures exact { GivesBy (Holds data_type.now) result (selected_chunk data_type.now
        region.now.lengths (subset_of part.now) elements.now) }
    ensures flush { GivesFlush result }
    ensures tight { ExtractsTight data_type.now elements.now result }
{
    let runs = box_runs(alloc, region.shape(), part)?;
    let count = region.num_elements()?;
    elements.extract_runs(alloc, &runs, count, data_type)
}

/// The elements of a region, with those of a part put in their places: the part's come in row-major
/// order, as a read of the part's box of its chunk gives them. Elements of one size are put into the
/// answer's own bytes, where it owns them, a copy a row; of others the answer is made anew. Parts may
/// come in any order.
///
/// Errors, the first that holds, `OutOfMemory` aside: `IncompatibleDimensionality`, `OutOfBounds` where
/// the part isn't one of the region; `Overflow` where the region has `2^64` elements or more; those of
/// `validate` where the answer isn't the region's elements of the type; `ArrayBytesKind`, `DataMismatch`
/// where the part's elements aren't of the type, or there are more or fewer. Of what is planned and read
/// as it should none is due.
pub fn join_part<'b>(
    alloc: Global,
    answer: ArrayBytes<'_>,
    region: &ArraySubset,
    part: &ChunkPart,
    elements: &ArrayBytes<'_>,
    data_type: &DataType,
) -> Result<ArrayBytes<'b>, CodecError>
    ensures exact { GivesBy (Holds data_type.now) result (chunk_update data_type.now
        region.now.lengths (subset_of part.now.in_region) answer.entry elements.now) }
    ensures chunk_joined { JoinsPart data_type.now region.now part.now answer.entry elements.now result }
    ensures flush { GivesFlush result }
    ensures tight { UpdatesTight data_type.now answer.entry elements.now result }
{
    put_part(alloc, answer, region, &part.in_region, elements, data_type)
}

/// Those of a region's new elements that are a part's, in row-major order: what a write into the part's
/// box of its chunk takes.
///
/// Errors, the first that holds, `OutOfMemory` aside: `IncompatibleDimensionality`, `OutOfBounds` where
/// the part isn't one of the region; `Overflow` where the region has `2^64` elements or more; those of
/// `validate` where the new elements aren't the region's, of the type.
pub fn part_of<'b>(
    alloc: Global,
    elements: &ArrayBytes<'_>,
    region: &ArraySubset,
    part: &ChunkPart,
    data_type: &DataType,
) -> Result<ArrayBytes<'b>, CodecError>
    ensures exact { GivesBy (Holds data_type.now) result (selected_chunk data_type.now
        region.now.lengths (subset_of part.now.in_region) elements.now) }
    ensures part_cut { CutsPart data_type.now region.now part.now elements.now result }
    ensures flush { GivesFlush result }
    ensures tight { ExtractsTight data_type.now elements.now result }
{
    take_part(alloc, elements, region, &part.in_region, data_type)
}
