//! How much room the value of a shard is given before it is written.
ghost use Rattle.std.specs.Prelude.{◌≡◌, ◌<◌, ◌^◌, true};
ghost use Rattle.zarrs_chunk.specs.ChunkShape.{product};
ghost use Rattle.zarrs_chain_meaning.specs.sharding.InnerChunks.{grid as grid_of, is_divided};

use crate::fill_elements::repeats;
use crate::inner_places::{first_place, first_runs};
use std::alloc::Global;
use zarrs_array_bytes::ArrayBytes;
use zarrs_chunk::{ChunkShape, CodecError};
use zarrs_data_type::FillValue;

/// Whether the bytes from `from` to `to` are `count` times the item.
fn are_copies(bytes: &[u8], from: usize, to: usize, count: usize, item: &[u8]) -> bool {
    if from > to || to > bytes.len() || to - from != count.wrapping_mul(item.len()) {
        return false;
    }
    if item.is_empty() {
        return true;
    }
    repeats(&bytes[from..to], item)
}

/// Whether the `count` elements from `first` on are about all the item: those between the offsets, or,
/// where there are none, those of the item's size.
fn are_fill(
    bytes: &[u8],
    offsets: Option<&[usize]>,
    first: usize,
    count: usize,
    item: &[u8],
) -> bool {
    match offsets {
        Some(offsets) => {
            let end = first.wrapping_add(count);
            if first >= offsets.len() || end >= offsets.len() {
                return false;
            }
            are_copies(bytes, offsets[first], offsets[end], count, item)
        }
        None => {
            let from = first.wrapping_mul(item.len());
            let to = from.wrapping_add(count.wrapping_mul(item.len()));
            are_copies(bytes, from, to, count, item)
        }
    }
}

/// How many elements of a run are looked at.
const LOOKED_AT: u64 = 64;

/// Whether this is so of the first elements of one of the runs, which is further on by so many.
fn run_is_fill(
    bytes: &[u8],
    offsets: Option<&[usize]>,
    start: u64,
    runs: &[(u64, u64)],
    index: usize,
    item: &[u8],
) -> bool {
    match runs.get(index) {
        Some(run) => {
            let first = start.wrapping_add(run.0) as usize;
            are_fill(bytes, offsets, first, run.1.min(LOOKED_AT) as usize, item)
        }
        None => true,
    }
}

/// Whether this is so of the first run, of one in the middle and of the last one. Which inner chunks are
/// left out is found as they are written, and a value that has more than was guessed grows: so it is
/// enough that few inner chunks begin, go on and end as blank ones do and aren't, and no blank one is
/// compared as a whole twice.
fn seems_blank(
    bytes: &[u8],
    offsets: Option<&[usize]>,
    start: u64,
    runs: &[(u64, u64)],
    item: &[u8],
) -> bool {
    let last = runs.len().saturating_sub(1);
    run_is_fill(bytes, offsets, start, runs, 0, item)
        && run_is_fill(bytes, offsets, start, runs, last / 2, item)
        && run_is_fill(bytes, offsets, start, runs, last, item)
}

/// How many inner chunks seem to have the fill element alone. Errors: `OutOfMemory`.
fn blank_count(
    alloc: Global,
    bytes: &[u8],
    offsets: Option<&[usize]>,
    inner: &ChunkShape,
    shape: &ChunkShape,
    grid: &ChunkShape,
    item: &[u8],
) -> Result<usize, CodecError>
    requires divided { is_divided inner.now shape.now ≡ true }
    requires fits { product shape.now < 2 ^ 64 }
    requires grid { grid.now ≡ grid_of inner.now shape.now }
{
    let sizes = shape.as_slice();
    let parts = inner.as_slice();
    let counts = grid.as_slice();
    let runs = first_runs(alloc, shape, inner)?;
    let mut blank = 0usize;
    for number in 0..grid.num_elements()? {
        let start = first_place(sizes, parts, counts, number);
        if seems_blank(bytes, offsets, start, runs.as_slice(), item) {
            blank = blank.saturating_add(1);
        }
    }
    Ok(blank)
}

/// The bytes and the offsets of elements without a mask; those of one size have no offsets.
fn bytes_and_offsets<'r>(held: &'r ArrayBytes<'_>) -> Option<(&'r [u8], Option<&'r [usize]>)> {
    match held.as_fixed() {
        Ok(bytes) => Some((bytes, None)),
        Err(_) => match held.as_variable() {
            Ok((bytes, offsets)) => Some((bytes, Some(offsets.as_slice()))),
            Err(_) => None,
        },
    }
}

/// About how many bytes the value has without its index: as many as the elements, without those of inner
/// chunks that are left out, since each element of them is the fill element. Elements under a mask aren't
/// looked at. A value that has more grows.
pub fn value_room(
    alloc: Global,
    held: &ArrayBytes<'_>,
    inner: &ChunkShape,
    shape: &ChunkShape,
    grid: &ChunkShape,
    fill: &FillValue,
) -> usize
    requires divided { is_divided inner.now shape.now ≡ true }
    requires fits { product shape.now < 2 ^ 64 }
    requires grid { grid.now ≡ grid_of inner.now shape.now }
{
    let all = held.size();
    let Some((bytes, offsets)) = bytes_and_offsets(held) else {
        return all;
    };
    let item = fill.as_ne_bytes();
    let size = match offsets {
        Some(_) => item.len().saturating_add(8),
        None => item.len(),
    };
    let blank = match blank_count(alloc, bytes, offsets, inner, shape, grid, item) {
        Ok(blank) => blank,
        Err(_) => 0,
    };
    let each = match inner.num_elements() {
        Ok(each) => each as usize,
        Err(_) => 0,
    };
    all.saturating_sub(blank.saturating_mul(each).saturating_mul(size))
}
