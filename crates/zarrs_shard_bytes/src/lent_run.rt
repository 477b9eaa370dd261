//! A run of a container's elements as a container of its own, which lends the bytes.
ghost use Rattle.std.specs.List.{between};
ghost use Rattle.std.specs.Prelude.{◌≡◌, ◌+◌, ◌<◌, ◌^◌, Ok, length, slice_index, true};
ghost use Rattle.zarrs_array_bytes.specs.Held.{vlen};
ghost use Rattle.zarrs_array_bytes.specs.Offsets.{is_offsets, last_of};
ghost use Rattle.zarrs_chunk.specs.Answer.{GivesValue};
ghost use Rattle.zarrs_chain_meaning.specs.vlen.VlenSteps.{lent_bytes};
ghost use Rattle.zarrs_shard_bytes.specs.Bands.{GivesRun, ReachesTo};

use std::alloc::Global;
use std::borrow::CowSlice;
use zarrs_array_bytes::{ArrayBytes, ArrayBytesOffsets};
use zarrs_chunk::CodecError;
use zarrs_data_type::DataType;

/// The elements between offsets, from `first` on: their bytes are lent, with those before them.
/// Errors: `OutOfMemory`.
fn lent_cuts<'r>(
    alloc: Global,
    bytes: &'r [u8],
    offsets: &[usize],
    first: usize,
    count: usize,
) -> Result<ArrayBytes<'r>, CodecError>
    requires rising { is_offsets offsets.now ≡ true }
    requires ending { last_of offsets.now ≡ length bytes.now }
    requires inside { first + count < length offsets.now }
    // Wide: the bytes up to the last element's end, and the offsets.
    ensures answer { GivesValue result (Ok (vlen
        (lent_bytes (between 0 (slice_index offsets.now (first + count)) bytes.now))
        (between first (first + count + 1) offsets.now))) }
{
    let ends = Vec::from_slice(alloc, &offsets[first..first + count + 1])?;
    let end = offsets[first + count];
    ArrayBytes::new_vlen(
        CowSlice::Borrowed(&bytes[..end]),
        ArrayBytesOffsets::new(ends)?,
    )
}

/// The `count` elements from `first` on, of a container of elements of this type. Errors:
/// `OutOfMemory`.
pub(crate) fn lent_run<'r>(
    alloc: Global,
    elements: &'r ArrayBytes<'_>,
    first: usize,
    count: usize,
    data_type: &DataType,
) -> Result<ArrayBytes<'r>, CodecError>
    requires there { ReachesTo data_type.now (first + count) elements.now }
    requires small { first + count < 2 ^ 64 }
    ensures answer { GivesRun data_type.now first count elements.now result }
{
    if let Some(inner_type) = data_type.as_optional() {
        let (inside, mask) = elements.as_optional()?;
        let inside = lent_run(alloc, inside, first, count, inner_type)?;
        let mask = &mask[first..first + count];
        return inside.with_optional_mask(alloc, CowSlice::Borrowed(mask));
    }
    match data_type.fixed_size() {
        Some(size) => {
            let bytes = elements.as_fixed()?;
            let bytes = &bytes[first * size..(first + count) * size];
            Ok(ArrayBytes::new_flen(CowSlice::Borrowed(bytes)))
        }
        None => {
            let (bytes, offsets) = elements.as_variable()?;
            lent_cuts(alloc, bytes, offsets.as_slice(), first, count)
        }
    }
}
