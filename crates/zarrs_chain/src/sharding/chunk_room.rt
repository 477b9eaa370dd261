//! How much room a chunk of elements of any length is given before they are known.
ghost use Rattle.std.specs.Prelude.{◌≡◌, [], IfOk, Ok};
ghost use Rattle.zarrs_array_bytes.specs.Tight.{IsTight};
ghost use Rattle.zarrs_array_bytes.specs.Validity.{Holds};
ghost use Rattle.zarrs_chunk.specs.Answer.{GivesBy};

use crate::sharding::shard_decode::has_span;
use std::alloc::Global;
use std::borrow::CowSlice;
use zarrs_array_bytes::{ArrayBytes, ArrayBytesOffsets};
use zarrs_chunk::CodecError;
use zarrs_data_type::DataType;

/// How many bytes the elements of any length of a container have, beside offsets and masks.
fn text_size(elements: &ArrayBytes<'_>) -> usize {
    match elements.as_optional() {
        Ok((inside, _)) => text_size(inside),
        Err(_) => match elements.as_variable() {
            Ok((bytes, _)) => bytes.len(),
            Err(_) => 0,
        },
    }
}

/// How many bytes the values of the first `count` inner chunks have, by these numbers of an index, at
/// most `limit` each.
fn stored_size(numbers: &[usize], count: usize, limit: usize) -> usize {
    let all = numbers.len() / 2;
    let end = if count < all { count } else { all };
    let mut size = 0usize;
    for number in 0..end {
        if has_span((numbers[number * 2], numbers[number * 2 + 1])) {
            let len = numbers[number * 2 + 1];
            size = size.saturating_add(if len < limit { len } else { limit });
        }
    }
    size
}

/// About how many bytes the elements of all inner chunks have, by those of the first ones: in the
/// proportion of what is stored, and a little more. Where none of the first ones is stored, as many as
/// are stored.
pub(crate) fn text_room(contents: &[ArrayBytes<'_>], numbers: &[usize], limit: usize) -> usize {
    let stored = stored_size(numbers, numbers.len() / 2, limit);
    let first = stored_size(numbers, contents.len(), limit);
    if first == 0 {
        return stored;
    }
    let mut texts = 0usize;
    for content in contents {
        texts = texts.saturating_add(text_size(content));
    }
    let about = texts as u128 * stored as u128 / first as u128;
    let room = about.saturating_add(about / 16);
    if room < usize::MAX as u128 {
        room as usize
    } else {
        usize::MAX
    }
}

/// No bytes, with room for so many, if memory has it.
fn roomy(alloc: Global, room: usize) -> Vec<u8>
    ensures empty { result.items ≡ [] }
{
    match Vec::with_capacity(alloc, room) {
        Ok(bytes) => bytes,
        Err(_) => Vec::new(alloc),
    }
}

/// No elements, with room for the offsets and masks of `count`, and for `room` bytes of elements of any
/// length. Errors: `OutOfMemory`.
pub(crate) fn empty_chunk<'a>(
    alloc: Global,
    count: u64,
    room: usize,
    data_type: &DataType,
) -> Result<ArrayBytes<'a>, CodecError>
    ensures answer { GivesBy (Holds data_type.now) result (Ok []) }
    ensures tight { IfOk result (IsTight data_type.now) }
{
    if let Some(inner_type) = data_type.as_optional() {
        let inside = empty_chunk(alloc, count, room, inner_type)?;
        let mask = roomy(alloc, count as usize);
        return inside.with_optional_mask(alloc, CowSlice::Owned(mask));
    }
    if let Some(size) = data_type.fixed_size() {
        let bytes = roomy(alloc, (count as usize).saturating_mul(size));
        return Ok(ArrayBytes::new_flen(CowSlice::Owned(bytes)));
    }
    let mut ends = Vec::with_capacity(alloc, (count as usize).saturating_add(1))?;
    ends.push(0)?;
    let offsets = ArrayBytesOffsets::new(ends)?;
    ArrayBytes::new_vlen(CowSlice::Owned(roomy(alloc, room)), offsets)
}
