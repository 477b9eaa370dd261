//! The window that one codec makes of another.
ghost use Rattle.std.specs.Prelude.{◌≡◌, Ok, true, is_ok};
ghost use Rattle.zarrs_chunk.specs.Answer.{GivesValue};
ghost use Rattle.zarrs_chunk.specs.Tuples.{is_box_inside};
ghost use Rattle.zarrs_array_to_array.specs.ArrayToArrayCodec.{coordinates};
ghost use Rattle.zarrs_array_to_array.specs.Mapping.{mapping_of};
ghost use Rattle.zarrs_array_regions.specs.Windows.{next_window as next_window_of, window_of};

use crate::window::Window;
use std::alloc::Global;
use zarrs_array_to_array::ArrayToArrayCodec;
use zarrs_chunk::{ArraySubset, ChunkShape, CodecError};

/// Where the codec takes a part of a chunk of this shape, which it accepts: a window of the moved
/// shape, or `None` where the part stays. Errors: `OutOfMemory`.
pub(crate) fn next_window(
    alloc: Global,
    codec: &ArrayToArrayCodec,
    shape: &ChunkShape,
    part: &ArraySubset,
) -> Result<Option<Window>, CodecError>
    requires taken { is_ok (coordinates (mapping_of codec.now) shape.now) ≡ true }
    requires inside { is_box_inside shape.now part.now.starts part.now.lengths ≡ true }
    ensures answer { GivesValue result
        (Ok (next_window_of (mapping_of codec.now) (window_of shape.now part.now))) }
{
    match codec.encoded_box(alloc, shape, part)? {
        None => Ok(None),
        Some((sizes, region)) => Ok(Some(Window { sizes, region })),
    }
}
