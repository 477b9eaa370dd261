//! Views of caller's bytes, into which a chunk is decoded.
ghost use Rattle.std.specs.Prelude.{◌≡◌, ◌+◌, ◌<◌, ◌≤◌, ◌==◌, map, length, true};
ghost use Rattle.zarrs_chunk.specs.ChunkShape.{product};
ghost use Rattle.zarrs_array_bytes.specs.ArrayBytesDecodeIntoTarget.{view_name, under_from};
ghost use Rattle.zarrs_array_bytes.specs.ArrayBytesFixedView.{view_of};
ghost use Rattle.zarrs_array_bytes.specs.Tight.{IsFlush};
ghost use Rattle.zarrs_array_bytes.specs.DecodeTarget.{has_one_size as has_one_size_of, has_masks, levels_taken, has_values, target_fit};
ghost use Rattle.zarrs_array_bytes.specs.ArrayBytesDecodeIntoTarget.{views_from, written_from};
ghost use Rattle.zarrs_array_bytes.specs.FixedView.{written_view};
ghost use Rattle.zarrs_array_bytes.specs.Parts.{bytes_in};

use crate::array_bytes::ArrayBytes;
use crate::array_bytes_fixed_view::ArrayBytesFixedView;
use zarrs_chunk::{ChunkShape, CodecError};
use zarrs_data_type::DataType;

/// Where a chunk is decoded into: a view for its elements, and one for each mask over them, the
/// outermost first. A mask's view has one byte for each element.
#[derive(Debug, Drop)]
pub struct ArrayBytesDecodeIntoTarget<'a> {
    /// Where the elements go.
    pub values: ArrayBytesFixedView<'a>,
    /// Where the masks go, the outermost first.
    pub masks: Vec<ArrayBytesFixedView<'a>>,
}

impl<'a> ArrayBytesDecodeIntoTarget<'a> {
    ghost use Rattle.zarrs_array_bytes.specs.ArrayBytesDecodeIntoTarget.{target_of, target_names};
    ghost use Rattle.zarrs_array_bytes.specs.DecodeTarget.{written_target, fills};

    /// Whether a chunk of this shape and type can be decoded into the target. Errors, the first that
    /// applies: `UnsupportedTarget` for a type with a variable part; `TargetMismatch` where there is not
    /// one mask for each optional level, or a view is not of as many elements as the chunk has, that of
    /// a mask of one byte for each, that of the elements of their size.
    #[tactic(auto, using(crate::proofs::TargetLemmas::miscounted))]
    pub fn check(&self, shape: &ChunkShape, data_type: &DataType) -> Result<(), CodecError>
        ensures answer { result
            ≡ target_fit data_type.now (product shape.now) (target_of self.now) }
    {
        if !has_one_size(data_type) {
            return Err(CodecError::UnsupportedTarget);
        }
        let count = self.values.count();
        if !has_count(shape, count) {
            return Err(CodecError::TargetMismatch);
        }
        if !match_levels(&self.masks, &self.values, count, data_type) {
            return Err(CodecError::TargetMismatch);
        }
        Ok(())
    }

    /// Writes the elements of a container, and its mask bytes, at the places of the views, in order. All
    /// other bytes stay as they were. The container has for each view as many bytes as the view's
    /// elements: one that `ArrayBytes::validate` accepts, of a chunk that `check` accepts, has them.
    #[tactic(auto, using(crate::proofs::TargetLemmas::filled_parts))]
    pub fn write(&mut self, elements: &ArrayBytes<'_>)
        requires fills { fills (target_of self.old) elements.now ≡ true }
        ensures same_reference { target_names self.new ≡ target_names self.old }
        ensures written { target_of self.new ≡ written_target (target_of self.old) elements.now }
        ensures flush { IsFlush elements.now }
    {
        write_levels(&mut self.masks, 0, &mut self.values, elements);
    }
}

/// Whether the elements of the type, under their masks, are of one size.
fn has_one_size(data_type: &DataType) -> bool
    ensures value { result ≡ has_one_size_of data_type.now }
{
    match data_type.as_optional() {
        Some(inner) => has_one_size(inner),
        None => !data_type.is_variable(),
    }
}

/// Whether a chunk of this shape has so many elements.
fn has_count(shape: &ChunkShape, count: u64) -> bool
    ensures value { result ≡ (count == product shape.now) }
{
    match shape.num_elements() {
        Ok(found) => count == found,
        Err(_) => false,
    }
}

/// Whether there is a view for each level of the type, of so many elements.
fn match_levels(
    masks: &[ArrayBytesFixedView<'_>],
    values: &ArrayBytesFixedView<'_>,
    count: u64,
    data_type: &DataType,
) -> bool
    ensures value { result
        ≡ levels_taken data_type.now count (map view_of masks.now) (view_of values.now) }
{
    match (masks, data_type.as_optional()) {
        ([], None) => match data_type.fixed_size() {
            Some(size) => values.takes(size, count),
            None => false,
        },
        ([mask, rest @ ..], Some(inner)) => {
            mask.takes(1, count) && match_levels(rest, values, count, inner)
        }
        _ => false,
    }
}

/// Writes a container, which is under so many masks already written, into the other views, level by
/// level.
fn write_levels(
    masks: &mut [ArrayBytesFixedView<'_>],
    level: usize,
    values: &mut ArrayBytesFixedView<'_>,
    elements: &ArrayBytes<'_>,
)
    requires level { level ≤ length masks.old }
    requires masks { has_masks (views_from level masks.old) elements.now ≡ true }
    requires values { has_values (view_of values.old) (under_from level masks.old elements.now)
        ≡ true }
    ensures masks { map view_of masks.new ≡ written_from level masks.old elements.now }
    ensures mask_names { map view_name masks.new ≡ map view_name masks.old }
    ensures name { view_name values.new ≡ view_name values.old }
    ensures values { view_of values.new
        ≡ written_view (view_of values.old) (bytes_in (under_from level masks.old elements.now)) }
    ensures flush { IsFlush elements.now }
{
    if level == masks.len() {
        values.write(elements.fixed_bytes());
        return;
    }
    let inner = write_mask(masks, level, elements);
    write_levels(masks, level + 1, values, inner)
}

/// Writes the outermost mask of a container into the view of this level, and returns the elements under
/// it.
fn write_mask<'b, 'c>(
    masks: &mut [ArrayBytesFixedView<'_>],
    level: usize,
    elements: &'b ArrayBytes<'c>,
) -> &'b ArrayBytes<'c>
    requires level { level < length masks.old }
    requires masks { has_masks (views_from level masks.old) elements.now ≡ true }
    ensures len { length masks.new ≡ length masks.old }
    ensures mask_names { map view_name masks.new ≡ map view_name masks.old }
    ensures masks { has_masks (views_from (level + 1) masks.new) result.now ≡ true }
    ensures under { under_from (level + 1) masks.new result.now
        ≡ under_from level masks.old elements.now }
    ensures written { written_from (level + 1) masks.new result.now
        ≡ written_from level masks.old elements.now }
    ensures flush { IsFlush result.now → IsFlush elements.now }
{
    let (inner, flags) = elements.optional_parts();
    masks[level].write(flags);
    inner
}
