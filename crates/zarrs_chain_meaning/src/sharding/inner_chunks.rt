//! The inner chunks of a chunk: how many there are, and where their elements stand.
ghost use Rattle.std.specs.Prelude.{◌≡◌, ◌<◌, ◌^◌, Ok, IfOk, All, length, true, false};
ghost use Rattle.zarrs_chunk.specs.Answer.{AnswersValue, Gives, is_fault, memory};
ghost use Rattle.zarrs_chunk.specs.ChunkShape.{product};
ghost use Rattle.zarrs_chunk.specs.Runs.{places_in, EndWithin};
ghost use Rattle.zarrs_chunk.specs.Tuples.{is_tuple_inside};
ghost use Rattle.zarrs_array_bytes.specs.Validity.{sizes_fit};
ghost use Rattle.zarrs_chain_meaning.specs.sharding.InnerChunks.{is_divided, grid as grid_of, inner_chunk_count, inner_chunk_places};
ghost use Rattle.zarrs_grid.specs.ChunkTuples.{quotients as quotients_of};
ghost use Rattle.zarrs_chain_meaning.specs.sharding.ShardSteps.{IsDivided, divided_grid, inner_start as inner_start_of, inner_region, GivesIndexShape};

use std::alloc::{AllocError, Global};
use zarrs_chunk::{ArraySubset, ChunkShape, CodecError, Indexer, unravel_index};
use zarrs_data_type::DataType;

/// How often each part goes into its size, or `None` where one leaves a rest.
fn quotients(alloc: Global, sizes: &[u64], parts: &[u64]) -> Result<Option<Vec<u64>>, AllocError>
    requires len { length parts.now ≡ length sizes.now }
    requires positive { All (λ part. 0 < part) parts.now }
    ensures value { IfOk result (IsDivided parts.now sizes.now) }
{
    let mut counts = Vec::with_capacity(alloc, sizes.len())?;
    for axis in 0..sizes.len() {
        if sizes[axis] % parts[axis] != 0 {
            return Ok(None);
        }
        counts.push(sizes[axis] / parts[axis])?;
    }
    Ok(Some(counts))
}

/// How many inner chunks there are along each axis. Errors, the first that holds:
/// `IncompatibleDimensionality` where an inner chunk has another number of axes;
/// `IndivisibleShape` where one of its sizes doesn't divide the chunk's; `OutOfMemory`.
pub fn inner_chunk_grid(
    alloc: Global,
    shape: &ChunkShape,
    inner: &ChunkShape,
) -> Result<ChunkShape, CodecError>
    ensures answer { Gives (λ grid. grid) result (divided_grid inner.now shape.now) }
{
    let sizes = shape.as_slice();
    let parts = inner.as_slice();
    if parts.len() != sizes.len() {
        return Err(CodecError::IncompatibleDimensionality);
    }
    match quotients(alloc, sizes, parts)? {
        Some(counts) => match ChunkShape::new(counts) {
            Some(grid) => Ok(grid),
            None => unreachable!(),
        },
        None => Err(CodecError::IndivisibleShape),
    }
}

/// Whether 64 bits count the bytes of so many elements, or their offsets. Errors: `Overflow`.
pub fn check_room(count: u64, data_type: &DataType) -> Result<(), CodecError>
    ensures answer { result ≡ sizes_fit data_type.now count }
    ensures no_fault { is_fault result ≡ false }
{
    if let Some(inner) = data_type.as_optional() {
        return check_room(count, inner);
    }
    let fits = match data_type.fixed_size() {
        Some(size) => count.checked_mul(size as u64).is_some(),
        None => count.checked_add(1).is_some(),
    };
    if fits {
        Ok(())
    } else {
        Err(CodecError::Overflow)
    }
}

/// The shape of the index of such a grid: two numbers for each inner chunk. Errors: `OutOfMemory`.
pub fn index_shape(alloc: Global, grid: &ChunkShape) -> Result<ChunkShape, CodecError>
    ensures answer { GivesIndexShape grid.now result }
{
    let counts = grid.as_slice();
    let mut sizes = Vec::with_capacity(alloc, counts.len().saturating_add(1))?;
    sizes.extend_from_slice(counts)?;
    sizes.push(2)?;
    match ChunkShape::new(sizes) {
        Some(shape) => Ok(shape),
        None => unreachable!(),
    }
}

/// Where the inner chunk begins that has these numbers along the axes.
fn inner_start(
    alloc: Global,
    sizes: &[u64],
    parts: &[u64],
    numbers: &[u64],
) -> Result<Vec<u64>, AllocError>
    requires divided { is_divided parts.now sizes.now ≡ true }
    requires inside { is_tuple_inside (quotients_of parts.now sizes.now) numbers.now ≡ true }
    ensures value { IfOk result (λ v. v.items ≡ inner_start_of parts.now numbers.now) }
{
    let mut start = Vec::with_capacity(alloc, parts.len())?;
    for axis in 0..parts.len() {
        start.push(numbers[axis] * parts[axis])?;
    }
    Ok(start)
}

/// The box of the inner chunk that has these numbers along the axes. Errors: `OutOfMemory`.
fn inner_box(
    alloc: Global,
    sizes: &[u64],
    parts: &[u64],
    numbers: &[u64],
) -> Result<ArraySubset, CodecError>
    requires divided { is_divided parts.now sizes.now ≡ true }
    requires inside { is_tuple_inside (quotients_of parts.now sizes.now) numbers.now ≡ true }
    ensures answer { AnswersValue memory result (Ok (inner_region parts.now numbers.now)) }
{
    let start = inner_start(alloc, sizes, parts, numbers)?;
    let lengths = Vec::from_slice(alloc, parts)?;
    ArraySubset::new_with_start_shape(start, lengths)
}

/// The runs of the elements of the inner chunk of a number. Errors: `OutOfMemory`.
pub fn inner_chunk_runs(
    alloc: Global,
    shape: &ChunkShape,
    inner: &ChunkShape,
    grid: &ChunkShape,
    number: u64,
) -> Result<Vec<(u64, u64)>, CodecError>
    requires divided { is_divided inner.now shape.now ≡ true }
    requires grid { grid.now ≡ grid_of inner.now shape.now }
    requires below { number < inner_chunk_count inner.now shape.now }
    requires fits { product shape.now < 2 ^ 64 }
    ensures places { Gives places_in result (Ok (inner_chunk_places inner.now shape.now number)) }
    ensures inside { IfOk result (λ v. EndWithin (product shape.now) v.items) }
{
    let Some(numbers) = unravel_index(alloc, number, grid)? else {
        unreachable!();
    };
    let sizes = shape.as_slice();
    let subset = inner_box(alloc, sizes, inner.as_slice(), numbers.as_slice())?;
    Indexer::Subset(subset).runs(alloc, shape)
}
