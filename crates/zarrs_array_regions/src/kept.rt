//! Where a region goes through array-to-array codecs as a region.
ghost use Rattle.std.specs.Prelude.{◌≡◌, [], map, IfSome, Some, option_map};
ghost use Rattle.zarrs_chunk.specs.Indexer.{selection_of};
ghost use Rattle.zarrs_chunk.specs.Region.{Region};
ghost use Rattle.zarrs_array_to_array.specs.Mapping.{mapping_of};
ghost use Rattle.zarrs_array_regions.specs.KeptRegions.{keeps_regions as keeps_regions_of, is_filled as is_filled_of, kept_region as kept_region_of, IsKept};

use zarrs_array_to_array::{ArrayToArrayCodec, keep_places};
use zarrs_chunk::{ArraySubset, ChunkShape, Indexer};

/// Whether the codecs take every region to a region: no transposition stands behind a reshape. Without
/// codecs each stays.
pub fn keeps_regions(codecs: &[ArrayToArrayCodec]) -> bool
    ensures value { result ≡ keeps_regions_of (map mapping_of codecs.now) }
{
    match codecs {
        [] => true,
        [first, rest @ ..] if first.keeps_boxes() => keeps_regions(rest),
        [_, rest @ ..] => keep_places(rest),
    }
}

/// Whether no length of the box is zero.
pub(crate) fn is_filled(region: &ArraySubset) -> bool
    ensures value { result ≡ is_filled_of region.now }
{
    !region.shape().contains(&0)
}

/// The box that the indexer selects, where it goes through the codecs as a box: it lies inside a chunk
/// of this shape and has elements, and there are codecs, with no `transpose` behind a `reshape`. It
/// never fails: what isn't such a box goes place by place.
#[inline(always)]
pub fn kept_region<'i>(
    codecs: &[ArrayToArrayCodec],
    shape: &ChunkShape,
    indexer: &'i Indexer,
) -> Option<&'i ArraySubset>
    ensures region { option_map (λ region. region.now) result
        ≡ kept_region_of (map mapping_of codecs.now) shape.now (selection_of indexer.now) }
    ensures region_kept { IfSome result (λ region.
        IsKept (map mapping_of codecs.now) shape.now (selection_of indexer.now) region.now) }
{
    let Indexer::Subset(region) = indexer else {
        return None;
    };
    if codecs.is_empty() || indexer.check(shape).is_err() {
        return None;
    }
    if is_filled(region) && keeps_regions(codecs) {
        return Some(region);
    }
    None
}

/// The box that the indexer selects, where it lies inside a chunk of this shape and has elements.
#[inline(always)]
pub fn filled_box<'i>(shape: &ChunkShape, indexer: &'i Indexer) -> Option<&'i ArraySubset>
    ensures filled { IfSome result
        (λ region. IsKept [] shape.now (selection_of indexer.now) region.now) }
    ensures only { (region : Region) → IsKept [] shape.now (selection_of indexer.now) region
        → option_map (λ found. found.now) result ≡ Some region }
{
    let Indexer::Subset(region) = indexer else {
        return None;
    };
    if indexer.check(shape).is_err() {
        return None;
    }
    if is_filled(region) {
        return Some(region);
    }
    None
}
