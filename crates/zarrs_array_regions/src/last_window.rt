//! The window of a region where array-to-array codecs take it.
ghost use Rattle.std.specs.Prelude.{◌≡◌, Ok, map};
ghost use Rattle.zarrs_chunk.specs.Answer.{GivesValue};
ghost use Rattle.zarrs_array_to_array.specs.Mapping.{mapping_of};
ghost use Rattle.zarrs_array_regions.specs.Windows.{last_window, window_of, TakesRegion};

use crate::next::next_window;
use crate::window::Window;
use std::alloc::Global;
use zarrs_array_to_array::ArrayToArrayCodec;
use zarrs_chunk::{ArraySubset, ChunkShape, CodecError};

/// The window of a region of a chunk of this shape where it stays. Errors: `OutOfMemory`.
fn own_window(shape: &ChunkShape, region: &ArraySubset) -> Result<Window, CodecError>
    ensures answer { GivesValue result (Ok (window_of shape.now region.now)) }
{
    let sizes = shape.clone()?;
    let region = region.clone()?;
    Ok(Window { sizes, region })
}

/// Where the codecs take a region of a chunk of this shape: its last window, whose places in the moved
/// chunk [`region_runs`](crate::region_runs) returns as runs. `transpose` permutes it, `squeeze` drops
/// its axes of size one, and `reshape` and the codecs behind it leave it, so that its sizes are the
/// moved chunk's only where no reshape comes first. The codecs accept the chunk, and the region lies
/// inside. Errors: `OutOfMemory`.
pub fn region_window(
    alloc: Global,
    codecs: &[ArrayToArrayCodec],
    shape: &ChunkShape,
    region: &ArraySubset,
) -> Result<Window, CodecError>
    requires region { TakesRegion (map mapping_of codecs.now) shape.now region.now }
    ensures answer { GivesValue result
        (Ok (last_window (map mapping_of codecs.now) (window_of shape.now region.now))) }
{
    match codecs {
        [] => own_window(shape, region),
        [first, rest @ ..] => {
            first.is_sound();
            match next_window(alloc, first, shape, region)? {
                None => own_window(shape, region),
                Some(next) if rest.is_empty() => Ok(next),
                Some(next) => region_window(alloc, rest, &next.sizes, &next.region),
            }
        }
    }
}
