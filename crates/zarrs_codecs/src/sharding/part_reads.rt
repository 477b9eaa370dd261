//! Reading a box of a shard part by part: each part is a box of one inner chunk, and a box of the answer.
ghost use Rattle.std.specs.Prelude.{◌≡◌, ◌*◌, ◌<◌, ◌^◌, get_or, IfErr, IfOk, Ok, length, map, true, false};
ghost use Rattle.zarrs_array_bytes.specs.Tight.{IsTight, UpdatesTight};
ghost use Rattle.zarrs_array_bytes.specs.Validity.{validity};
ghost use Rattle.zarrs_chain_meaning.specs.sharding.Sharding.{spans_of};
ghost use Rattle.zarrs_chunk.specs.Answer.{is_fault, memory_or_fault};
ghost use Rattle.zarrs_chunk.specs.ChunkShape.{product};
ghost use Rattle.zarrs_chunk.specs.Tuples.{is_box_inside, is_tuple_inside, row_major};
ghost use Rattle.zarrs_codecs.specs.BoxReads.{AreShardParts, PutsPart, ReadsParts, SureParts, part_group};
ghost use Rattle.zarrs_codecs.specs.HandleReads.{HandleReads};
ghost use Rattle.zarrs_codecs.specs.SpanReads.{AreInnerRuns, StandsIn, seen_state};
ghost use Rattle.zarrs_codecs.specs.TakenChain.{inner_form};
ghost use Rattle.zarrs_shard_runs.specs.GroupedRuns.{group};

use crate::partial_decoder::fill_runs::fill_runs;
use crate::sharding::box_reads::{box_runs, place_of, read_inner_box};
use crate::sharding::joint_reads::read_groups_ahead;
use crate::sharding::taken_chain::TakenChain;
use crate::sharding::value_span::ValueSpan;
use std::alloc::Global;
use zarrs_array_bytes::{ArrayBytes, update_runs};
use zarrs_chain::stages::Form;
use zarrs_chunk::{ArraySubset, ChunkShape, CodecError, ravel_indices};
use zarrs_codec::BytesToBytesCodecTraits;
use zarrs_data_type::DataType;
use zarrs_grid::ChunkPart;
use zarrs_lent_handles::ReadAheadTraits;
use zarrs_shard_runs::InnerRuns;

/// The number of the inner chunk of these indices in the grid.
fn number_of(grid: &ChunkShape, chunk: &[u64]) -> u64
    requires inside { is_tuple_inside grid.now chunk.now ≡ true }
    requires grid { product grid.now < 2 ^ 64 }
    ensures value { result ≡ row_major grid.now chunk.now }
{
    match ravel_indices(chunk, grid) {
        Some(number) => number,
        None => unreachable!(),
    }
}

/// The two numbers of an index for the inner chunk of these indices in the grid.
fn place_at(numbers: &[usize], grid: &ChunkShape, chunk: &[u64]) -> (usize, usize)
    requires inside { is_tuple_inside grid.now chunk.now ≡ true }
    requires grid { product grid.now < 2 ^ 64 }
    requires count { product grid.now ≡ length (spans_of numbers.now) }
    requires numbers { length numbers.now ≡ length (spans_of numbers.now) * 2 }
    ensures value { result ≡ get_or (spans_of numbers.now) (row_major grid.now chunk.now) (0, 0) }
{
    place_of(numbers, number_of(grid, chunk))
}

/// The places of parts in their inner chunks, as runs. Errors: `OutOfMemory`.
fn part_groups(
    alloc: Global,
    shape: &ChunkShape,
    grid: &ChunkShape,
    lengths: &ChunkShape,
    parts: &[ChunkPart],
) -> Result<Vec<InnerRuns>, CodecError>
    requires counted { product shape.now < 2 ^ 64 }
    requires grid { product grid.now < 2 ^ 64 }
    requires parts { AreShardParts shape.now grid.now lengths.now parts.now }
    ensures groups { IfOk result
        (λ groups. map group groups.items ≡ map (part_group shape.now grid.now) parts.now) }
    ensures runs { IfOk result
        (λ groups. AreInnerRuns shape.now (product grid.now) groups.items) }
    ensures refused { IfErr result (λ error. memory_or_fault error ≡ true) }
    ensures no_fault { is_fault result ≡ false }
{
    let mut groups = Vec::with_capacity(alloc, parts.len())?;
    for part in parts {
        let number = number_of(grid, part.chunk.as_slice());
        let runs = box_runs(alloc, shape, &part.in_chunk)?;
        groups.push(InnerRuns { number, runs })?;
    }
    Ok(groups)
}

/// Reads ahead what reads of parts ask for, where it is known of all of them, and the value isn't in
/// memory. Errors: `OutOfMemory`; `Storage`, but never where all bytes are sure that these reads rest
/// on.
fn read_parts_ahead<H: ReadAheadTraits, B: BytesToBytesCodecTraits>(
    alloc: Global,
    taken: &TakenChain<'_, B>,
    handle: &mut H,
    span: &ValueSpan<'_>,
    numbers: &[usize],
    grid: &ChunkShape,
    lengths: &ChunkShape,
    parts: &[ChunkPart],
) -> Result<(), CodecError>
    requires stands { StandsIn span.now (H.state handle.old) }
    requires parts { AreShardParts (inner_form taken.now).sizes grid.now lengths.now parts.now }
    requires count { product grid.now ≡ length (spans_of numbers.now) }
    requires numbers { length numbers.now ≡ length (spans_of numbers.now) * 2 }
    ensures refused { IfErr result (λ error. memory_or_fault error ≡ true) }
    ensures sure { SureParts taken.now (seen_state span.now (H.state handle.old)) numbers.now
        grid.now parts.now result }
    ensures left { HandleReads H.state H.lent handle.old handle.new result }
{
    if handle.value_in_memory().is_some() {
        return Ok(());
    }
    let groups = part_groups(alloc, taken.form.shape, grid, lengths, parts)?;
    read_groups_ahead(alloc, taken, handle, span, numbers, groups.as_slice())
}

/// The elements of a box of these lengths with those of a part replaced. Errors: `OutOfMemory`.
fn put_part(
    alloc: Global,
    elements: ArrayBytes<'static>,
    lengths: &ChunkShape,
    part: &ArraySubset,
    content: &ArrayBytes<'_>,
    data_type: &DataType,
) -> Result<ArrayBytes<'static>, CodecError>
    requires counted { product lengths.now < 2 ^ 64 }
    requires inside { is_box_inside lengths.now part.now.starts part.now.lengths ≡ true }
    requires filled { 0 < product part.now.lengths }
    requires valid { validity data_type.now (product lengths.now) elements ≡ Ok tt }
    requires content_valid { validity data_type.now (product part.now.lengths) content.now ≡ Ok tt }
    ensures answer { PutsPart data_type.now lengths.now part.now elements.entry content.now result }
    ensures tight { UpdatesTight data_type.now elements.entry content.now result }
{
    let runs = box_runs(alloc, lengths, part)?;
    let count = lengths.num_elements()?;
    update_runs(alloc, elements, count, &runs, content, data_type)
}

/// The elements of a box of these lengths, read part by part. Where it is known what is read of each, a
/// handle whose value isn't in memory gets all of it by one call.
pub(crate) fn read_parts<H: ReadAheadTraits, B: BytesToBytesCodecTraits>(
    alloc: Global,
    taken: &TakenChain<'_, B>,
    handle: &mut H,
    span: &ValueSpan<'_>,
    numbers: &[usize],
    grid: &ChunkShape,
    lengths: &ChunkShape,
    parts: &[ChunkPart],
) -> Result<ArrayBytes<'static>, CodecError>
    requires stands { StandsIn span.now (H.state handle.old) }
    requires lengths { product lengths.now < 2 ^ 64 }
    requires parts { AreShardParts (inner_form taken.now).sizes grid.now lengths.now parts.now }
    requires count { product grid.now ≡ length (spans_of numbers.now) }
    requires numbers { length numbers.now ≡ length (spans_of numbers.now) * 2 }
    ensures answer { ReadsParts taken.now (seen_state span.now (H.state handle.old)) numbers.now
        grid.now lengths.now parts.now result }
    ensures tight { IfOk result (IsTight (inner_form taken.now).type) }
    ensures sure { SureParts taken.now (seen_state span.now (H.state handle.old)) numbers.now
        grid.now parts.now result }
    ensures left { HandleReads H.state H.lent handle.old handle.new result }
{
    let Form {
        data_type,
        fill_value,
        ..
    } = taken.form;
    read_parts_ahead(alloc, taken, handle, span, numbers, grid, lengths, parts)?;
    let count = lengths.num_elements()?;
    let mut elements = fill_runs(alloc, data_type, fill_value, &[(0, count)])?;
    for part in parts {
        let place = place_at(numbers, grid, part.chunk.as_slice());
        let from = &part.in_chunk;
        let content = read_inner_box(alloc, taken, handle, span, place, from)?;
        let to = &part.in_region;
        elements = put_part(alloc, elements, lengths, to, &content, data_type)?;
    }
    Ok(elements)
}
