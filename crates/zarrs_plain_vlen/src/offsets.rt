//! Offsets, read where they stand in the bytes of an index.
ghost use Rattle.std.specs.Prelude.{◌≡◌, ◌<◌, ◌≤◌, ◌+◌, ◌-◌, ◌/◌, ◌^◌, true, false, All, length, slice_index, map};
ghost use Rattle.std.specs.List.{between};
ghost use Rattle.zarrs_array_bytes.specs.Elements.{piece};
ghost use Rattle.zarrs_array_bytes.specs.Held.{items_of};
ghost use Rattle.zarrs_array_bytes.specs.Offsets.{is_offsets, offsets_of};
ghost use Rattle.zarrs_chain_meaning.specs.vlen.Vlen.{offset_of};
ghost use Rattle.zarrs_chain_meaning.specs.vlen.VlenSettings.{is_wide};
ghost use Rattle.zarrs_chain_meaning.specs.vlen.VlenSteps.{read_offsets};
ghost use Rattle.zarrs_chunk.specs.Answer.{Appends};

use std::alloc::AllocError;
use std::marker::Model;
use zarrs_array_bytes::ArrayBytesRaw;
use zarrs_chain_meaning::vlen::vlen_offsets::{read_narrow, read_wide};
use zarrs_chunk::CodecError;
use zarrs_metadata::VlenIndexDataType;

/// At least one offset, and none less than the one before, as the bytes that spell them, each the
/// lowest byte first. An index may have as many offsets as memory holds, so no numbers are kept
/// beside these bytes.
#[derive(Drop)]
pub(crate) struct Offsets {
    bytes: ArrayBytesRaw<'static>,
    data_type: VlenIndexDataType,
}

impl Model for Offsets {
    ghost use Rattle.std.specs.Prelude.{List, ℕ, ◌≡◌, true};
    ghost use Rattle.zarrs_array_bytes.specs.Held.{items_of};
    ghost use Rattle.zarrs_array_bytes.specs.Offsets.{is_offsets};
    ghost use Rattle.zarrs_chain_meaning.specs.vlen.VlenSettings.{is_wide};
    ghost use Rattle.zarrs_chain_meaning.specs.vlen.VlenSteps.{read_offsets};

    ghost Value = { List ℕ };

    ghost view = { λ o. read_offsets (is_wide o.data_type) (items_of o.bytes) };

    ghost invariant = { λ o.
        is_offsets (read_offsets (is_wide o.data_type) (items_of o.bytes)) ≡ true };
}

impl Offsets {
    /// The offsets that the bytes spell. Errors: `InvalidOffsets` where there is none, or one is
    /// less than the one before.
    pub(crate) fn new(
        bytes: ArrayBytesRaw<'static>,
        data_type: VlenIndexDataType,
    ) -> Result<Offsets, CodecError>
        ensures answer { result
            ≡ offsets_of (read_offsets (is_wide data_type) (items_of bytes.entry)) }
    {
        if !are_rising(bytes.as_slice(), data_type) {
            return Err(CodecError::InvalidOffsets);
        }
        Ok(Offsets { bytes, data_type })
    }

    /// The offset with this number.
    pub(crate) fn at(&self, number: usize) -> usize
        requires known { number < length self.now }
        ensures value { result ≡ slice_index self.now number }
        ensures counted { length self.now < 2 ^ 64 }
    {
        offset_at(self.bytes.as_slice(), self.data_type, number)
    }

    /// Appends the offsets with the numbers from `first` up to `end`, counted from `start` where they
    /// were counted from `from`.
    pub(crate) fn append_moved(
        &self,
        out: &mut Vec<usize>,
        first: usize,
        end: usize,
        from: usize,
        start: usize,
    ) -> Result<(), AllocError>
        requires ordered { first ≤ end }
        requires known { end ≤ length self.now }
        requires above { All (λ offset. from ≤ offset) (between first end self.now) }
        requires fits { All (λ offset. offset - from + start < 2 ^ 64)
            (between first end self.now) }
        ensures appended { Appends out.old out.new result
            (map (λ offset. offset - from + start) (between first end self.now)) }
    {
        for number in first..end {
            out.push(self.at(number) - from + start)?;
        }
        Ok(())
    }
}

/// Whether the bytes spell an offset, and none that is less than the one before.
fn are_rising(bytes: &[u8], data_type: VlenIndexDataType) -> bool
    ensures value { result ≡ is_offsets (read_offsets (is_wide data_type) bytes.now) }
{
    let count = count_of(bytes, data_type);
    if count == 0 {
        return false;
    }
    let mut last = offset_at(bytes, data_type, 0);
    for number in 1..count {
        let offset = offset_at(bytes, data_type, number);
        if offset < last {
            return false;
        }
        last = offset;
    }
    true
}

/// How many offsets the bytes spell.
fn count_of(bytes: &[u8], data_type: VlenIndexDataType) -> usize
    ensures value { result ≡ length (read_offsets (is_wide data_type) bytes.now) }
{
    match data_type {
        VlenIndexDataType::UInt32 => bytes.len() / 4,
        VlenIndexDataType::UInt64 => bytes.len() / 8,
    }
}

/// The offset with this number that the bytes spell.
fn offset_at(bytes: &[u8], data_type: VlenIndexDataType, number: usize) -> usize
    requires known { number < length (read_offsets (is_wide data_type) bytes.now) }
    ensures value { result ≡ slice_index (read_offsets (is_wide data_type) bytes.now) number }
    ensures counted { length (read_offsets (is_wide data_type) bytes.now) < 2 ^ 64 }
{
    match data_type {
        VlenIndexDataType::UInt32 => narrow_at(bytes, number),
        VlenIndexDataType::UInt64 => wide_at(bytes, number),
    }
}

/// The number that the four bytes with this number spell.
fn narrow_at(bytes: &[u8], number: usize) -> usize
    requires known { number < length bytes.now / 4 }
    ensures value { result ≡ offset_of false (piece 4 bytes.now number) }
{
    let start = number * 4;
    read_narrow(&bytes[start..start + 4]) as usize
}

/// The number that the eight bytes with this number spell.
fn wide_at(bytes: &[u8], number: usize) -> usize
    requires known { number < length bytes.now / 8 }
    ensures value { result ≡ offset_of true (piece 8 bytes.now number) }
{
    let start = number * 8;
    read_wide(&bytes[start..start + 8]) as usize
}
