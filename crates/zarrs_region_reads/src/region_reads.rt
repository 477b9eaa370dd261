//! A region of an array, read chunk by chunk.
ghost use Rattle.std.specs.Prelude.{◌≡◌, Err, IfErr, map, string_bytes};
ghost use Rattle.zarrs_array_bytes.specs.Validity.{Holds};
ghost use Rattle.zarrs_chunk.specs.Answer.{AnswersBy, memory, memory_or_fault};
ghost use Rattle.zarrs_region_reads.specs.JoinedRead.{JoinsRead, JoinsReads, planned_read};
ghost use Rattle.zarrs_region_reads.specs.RegionRead.{AsksAmong, AnswersRegion, region_checked, region_read, touched_keys};
ghost use Rattle.zarrs_stores.specs.StoreState.{AsksOnly, after_get};

use crate::chunk_part_reader::ChunkPartReader;
use std::alloc::Global;
use zarrs_array_bytes::ArrayBytes;
use zarrs_array_plan::laws::{parts_make_the_region, plans_cut_the_region};
use zarrs_array_plan::{ArrayGrid, PlannedChunk, fill_region, join_part};
use zarrs_chunk::{ArraySubset, CodecError};
use zarrs_data_type::{DataType, FillValue};
use zarrs_stores::ReadableStore;

/// The elements of a region, with those of a planned chunk put in their places, as they are read.
fn join_chunk<S: ReadableStore, R: ChunkPartReader<S>>(
    alloc: Global,
    reader: &R,
    store: &mut S,
    planned: &PlannedChunk,
    region: &ArraySubset,
    data_type: &DataType,
    answer: ArrayBytes<'static>,
) -> Result<ArrayBytes<'static>, CodecError>
    requires alike { R.element_type reader.now ≡ data_type.now }
    // Wide: what is read, and where it is put.
    ensures joined { JoinsRead
        (planned_read (R.reads reader.now) (S.state store.old).values planned.now)
        data_type.now region.now planned.now.part answer.entry result }
    ensures left { S.state store.new ≡ after_get result (S.state store.old) }
    ensures asked { AsksOnly (string_bytes planned.now.key) (S.asked store.old) (S.asked store.new) }
{
    let part = &planned.part;
    let elements = reader.read_part(alloc, store, planned.key.as_str(), &part.in_chunk)?;
    join_part(alloc, answer, region, part, &elements, data_type)
}

/// The same with all of these planned chunks, one after another.
fn join_chunks<S: ReadableStore, R: ChunkPartReader<S>>(
    alloc: Global,
    reader: &R,
    store: &mut S,
    planned: &[PlannedChunk],
    region: &ArraySubset,
    data_type: &DataType,
    begun: ArrayBytes<'static>,
) -> Result<ArrayBytes<'static>, CodecError>
    requires alike { R.element_type reader.now ≡ data_type.now }
    ensures joined { JoinsReads (planned_read (R.reads reader.now) (S.state store.old).values)
        data_type.now region.now planned.now begun.entry result }
    ensures left { S.state store.new ≡ after_get result (S.state store.old) }
    ensures asked { AsksAmong (map (λ it. string_bytes it.key) planned.now)
        (S.asked store.old) (S.asked store.new) }
{
    let mut answer = begun;
    for it in planned {
        answer = join_chunk(alloc, reader, store, it, region, data_type, answer)?;
    }
    Ok(answer)
}

/// The elements of a region of an array, in row-major order: of each chunk that the region touches, its
/// part as the reader reads it of the store. The chunks come one after another, in row-major order, and
/// the keys of others aren't asked for. Of the store all stays as it was, but for the failure that is
/// answered.
///
/// Errors, the first that holds, `OutOfMemory` aside: `IncompatibleDimensionality` where the region has
/// more or fewer axes than the array; `OutOfBounds` where it doesn't lie inside; `Overflow` where it has
/// `2^64` elements or more; those of `ArrayBytes::new_fill_value`, and all these before the store is
/// asked; then chunk by chunk the reader's, and `Storage`.
pub fn read_region<S: ReadableStore, R: ChunkPartReader<S>>(
    alloc: Global,
    reader: &R,
    store: &mut S,
    grid: &ArrayGrid,
    region: &ArraySubset,
    data_type: &DataType,
    fill_value: &FillValue,
) -> Result<ArrayBytes<'static>, CodecError>
    requires alike { R.element_type reader.now ≡ data_type.now }
    ensures found { AnswersRegion (R.reads reader.now) (S.state store.old).values data_type.now grid.now
        region.now fill_value.now result }
    // Wide: what is read and stored, and the array's form.
    ensures exact { AnswersBy memory_or_fault (Holds data_type.now) result
        (region_read (R.reads reader.now) (S.state store.old).values data_type.now grid.now region.now
        fill_value.now) }
    ensures checked_first { IfErr (region_checked data_type.now grid.now region.now fill_value.now)
        (λ cause. AnswersBy memory (Holds data_type.now) result (Err cause)) }
    ensures left { S.state store.new ≡ after_get result (S.state store.old) }
    ensures asked { AsksAmong (touched_keys grid.now region.now) (S.asked store.old) (S.asked store.new) }
{
    plans_cut_the_region();
    parts_make_the_region();
    let planned = grid.plan(alloc, region)?;
    let begun = fill_region(alloc, region, data_type, fill_value)?;
    let parts = planned.as_slice();
    join_chunks(alloc, reader, store, parts, region, data_type, begun)
}
