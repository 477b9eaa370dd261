//! A window of a shard that lies in one inner chunk.
ghost use Rattle.std.specs.Prelude.{◌≡◌, ◌<◌, ◌^◌, All, IfOk, IfSome, is_some, true};
ghost use Rattle.zarrs_chain_meaning.specs.sharding.InnerChunks.{grid, is_divided};
ghost use Rattle.zarrs_grid.specs.ChunkTuples.{quotients, remainders};
ghost use Rattle.zarrs_chunk.specs.ChunkShape.{product};
ghost use Rattle.zarrs_chunk.specs.Tuples.{is_box_inside, row_major};
ghost use Rattle.zarrs_shard_runs.specs.InnerBox.{IsInnerBox, lies_in_one};

use std::alloc::{AllocError, Global};
use zarrs_chunk::{ArraySubset, ChunkShape};

/// A window of a shard, as a box of the one inner chunk in which it lies.
#[derive(Debug, Drop)]
pub struct InnerBox {
    /// The inner chunk's number, row by row.
    pub number: u64,
    /// The window in the inner chunk.
    pub region: ArraySubset,
}

/// The number of the inner chunk in which a box lies, and where the box starts in it; `None` where
/// it lies in several.
fn inner_start(
    alloc: Global,
    parts: &[u64],
    sizes: &[u64],
    starts: &[u64],
    lengths: &[u64],
) -> Result<Option<(u64, Vec<u64>)>, AllocError>
    requires divided { is_divided parts.now sizes.now ≡ true }
    requires positive { All (λ part. 0 < part) parts.now }
    requires sizes_positive { All (λ size. 0 < size) sizes.now }
    requires fits { product sizes.now < 2 ^ 64 }
    requires inside { is_box_inside sizes.now starts.now lengths.now ≡ true }
    requires filled { 0 < product lengths.now }
    ensures found { IfOk result (λ found. is_some found ≡ lies_in_one parts.now starts.now lengths.now) }
    ensures number { IfOk result (λ found. IfSome found
        (λ it. it.0 ≡ row_major (grid parts.now sizes.now) (quotients parts.now starts.now))) }
    ensures start { IfOk result (λ found. IfSome found
        (λ it. it.1.items ≡ remainders parts.now starts.now)) }
{
    let mut number = 0;
    let mut inside = Vec::with_capacity(alloc, parts.len())?;
    for axis in 0..parts.len() {
        let part = parts[axis];
        let start = starts[axis];
        let low = start % part;
        if lengths[axis] > part - low {
            return Ok(None);
        }
        number = number * (sizes[axis] / part) + start / part;
        inside.push(low)?;
    }
    Ok(Some((number, inside)))
}

/// The box that starts there, inside these sizes.
fn box_from(
    alloc: Global,
    sizes: &[u64],
    starts: Vec<u64>,
    lengths: &[u64],
) -> Result<ArraySubset, AllocError>
    requires inside { is_box_inside sizes.now starts.items lengths.now ≡ true }
    ensures made { IfOk result (λ it. it ≡ record { starts = starts.items; lengths = lengths.now }) }
{
    let lengths = Vec::from_slice(alloc, lengths)?;
    match ArraySubset::new_with_start_shape(starts, lengths) {
        Ok(subset) => Ok(subset),
        Err(_) => unreachable!(),
    }
}

/// The window as a box of the inner chunk of the shape `inner`, which divides `shape`, in which it
/// lies; `None` where it lies in several. Errors: `AllocError`.
pub fn inner_box(
    alloc: Global,
    inner: &ChunkShape,
    shape: &ChunkShape,
    region: &ArraySubset,
) -> Result<Option<InnerBox>, AllocError>
    requires divided { is_divided inner.now shape.now ≡ true }
    requires counted { product shape.now < 2 ^ 64 }
    requires inside { is_box_inside shape.now region.now.starts region.now.lengths ≡ true }
    requires filled { 0 < product region.now.lengths }
    ensures found { IfOk result (λ found. is_some found
        ≡ lies_in_one inner.now region.now.starts region.now.lengths) }
    ensures one { IfOk result (λ found. IfSome found (IsInnerBox inner.now shape.now region.now)) }
{
    let parts = inner.as_slice();
    let sizes = shape.as_slice();
    let lengths = region.shape();
    let (number, starts) = match inner_start(alloc, parts, sizes, region.start(), lengths)? {
        Some(found) => found,
        None => return Ok(None),
    };
    let region = box_from(alloc, parts, starts, lengths)?;
    Ok(Some(InnerBox { number, region }))
}
