//! A box that is known to be one.
ghost use Rattle.std.specs.Prelude.{◌≡◌};
ghost use Rattle.zarrs_chunk.specs.Region.{IsRegion};

use zarrs_chunk::ArraySubset;

/// The box that begins at `starts` and is `lengths` long, where the caller knows that there is a length
/// for each start, and that 64 bits hold its ends.
pub(crate) fn known_box(starts: Vec<u64>, lengths: Vec<u64>) -> ArraySubset
    requires ends { IsRegion starts.items lengths.items }
    ensures made { result ≡ record { starts = starts.items; lengths = lengths.items } }
{
    match ArraySubset::new_with_start_shape(starts, lengths) {
        Ok(made) => made,
        Err(_) => unreachable!(),
    }
}
