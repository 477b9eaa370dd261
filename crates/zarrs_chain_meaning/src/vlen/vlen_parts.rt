//! The parts of a value of the codec `vlen`: the length of its index, the index and the data.
ghost use Rattle.std.specs.Prelude.{◌≡◌, ◌++◌, ◌+◌, ◌≤◌, nat_le, IfOk, false, true, length, take, drop};
ghost use Rattle.zarrs_chunk.specs.Answer.{demand, is_fault, seen, GivesItems};
ghost use Rattle.zarrs_chunk.specs.declared.codec_error.CodecError.TheVariants.{IndexLength};
ghost use Rattle.zarrs_array_bytes.specs.Held.{items_of};
ghost use Rattle.zarrs_array_bytes.specs.Offsets.{last_of};
ghost use Rattle.zarrs_array_bytes.specs.Parts.{raw_and_offsets, variable_part};
ghost use Rattle.zarrs_chain_meaning.specs.BytesStages.{in_memory};
ghost use Rattle.zarrs_chain_meaning.specs.vlen.Vlen.{arranged, vlen_value_parts};
ghost use Rattle.zarrs_chain_meaning.specs.Parts.{part_length_bytes, length_of};
ghost use Rattle.zarrs_chain_meaning.specs.optional.OptionalParts.{both_lent};
ghost use Rattle.zarrs_chain_meaning.specs.vlen.VlenSettings.{is_at_end};
ghost use Rattle.zarrs_chain_meaning.specs.vlen.VlenSteps.{data_part as data_part_of};

use crate::vlen::length_fields::read_length;
use std::alloc::Global;
use std::borrow::CowSlice;
use zarrs_array_bytes::{ArrayBytes, ArrayBytesOffsets, ArrayBytesRaw};
use zarrs_chunk::CodecError;
use zarrs_metadata::VlenIndexLocation;

/// How many bytes the length of an index takes.
const LENGTH_SIZE: usize = 8;

/// How many bytes the index has, of the bytes that spell it and how many others there are.
fn index_size(head: &[u8], others: usize) -> Result<usize, CodecError>
    requires len { length head.now ≡ 8 }
    ensures answer { result ≡ seen (λ _. length_of head.now)
        (demand (nat_le (length_of head.now) others) IndexLength) }
{
    let size = read_length(head);
    if (others as u64) < size {
        return Err(CodecError::IndexLength);
    }
    Ok(size as usize)
}

/// The parts where the index stands first.
fn split_start(value: &[u8]) -> Result<(&[u8], &[u8]), CodecError>
    ensures answer { seen both_lent result ≡ vlen_value_parts false value.now }
{
    if value.len() < LENGTH_SIZE {
        return Err(CodecError::InvalidBytesLength {
            len: value.len() as u64,
            expected: LENGTH_SIZE as u64,
        });
    }
    let (head, others) = value.split_at(LENGTH_SIZE);
    let size = index_size(head, others.len())?;
    Ok(others.split_at(size))
}

/// The parts where the index stands last.
fn split_end(value: &[u8]) -> Result<(&[u8], &[u8]), CodecError>
    ensures answer { seen both_lent result ≡ vlen_value_parts true value.now }
{
    if value.len() < LENGTH_SIZE {
        return Err(CodecError::InvalidBytesLength {
            len: value.len() as u64,
            expected: LENGTH_SIZE as u64,
        });
    }
    let (others, head) = value.split_at(value.len() - LENGTH_SIZE);
    let size = index_size(head, others.len())?;
    let (data, index) = others.split_at(others.len() - size);
    Ok((index, data))
}

/// The index and the data of a value. Errors, the first that holds: `InvalidBytesLength` where it
/// is shorter than the index's length; `IndexLength` where the index is longer than what is left.
pub fn split(value: &[u8], location: VlenIndexLocation) -> Result<(&[u8], &[u8]), CodecError>
    ensures answer { seen both_lent result ≡ vlen_value_parts (is_at_end location) value.now }
    ensures no_fault { is_fault result ≡ false }
{
    match location {
        VlenIndexLocation::Start => split_start(value),
        VlenIndexLocation::End => split_end(value),
    }
}

/// What stands behind the first `count` bytes. Borrowed bytes are lent on, owned ones are moved to the
/// front.
pub fn behind(bytes: ArrayBytesRaw<'_>, count: usize) -> ArrayBytesRaw<'_>
    requires inside { count ≤ length (items_of bytes) }
    ensures rest { items_of result ≡ drop count (items_of bytes.entry) }
{
    match bytes {
        CowSlice::Borrowed(bytes) => CowSlice::Borrowed(&bytes[count..]),
        CowSlice::Owned(mut bytes) => {
            bytes.drain(..count);
            CowSlice::Owned(bytes)
        }
    }
}

/// The first `count` bytes. Borrowed bytes are lent on, owned ones stay where they are.
fn front(bytes: ArrayBytesRaw<'_>, count: usize) -> ArrayBytesRaw<'_>
    requires inside { count ≤ length (items_of bytes) }
    ensures front { items_of result ≡ take count (items_of bytes.entry) }
{
    match bytes {
        CowSlice::Borrowed(bytes) => CowSlice::Borrowed(&bytes[..count]),
        CowSlice::Owned(mut bytes) => {
            bytes.truncate(count);
            CowSlice::Owned(bytes)
        }
    }
}

/// The data of a value whose index has `size` bytes.
pub fn data_part(
    value: ArrayBytesRaw<'_>,
    size: usize,
    location: VlenIndexLocation,
) -> ArrayBytesRaw<'_>
    requires inside { 8 + size ≤ length (items_of value) }
    ensures part { items_of result ≡ data_part_of (is_at_end location) size (items_of value.entry) }
{
    match location {
        VlenIndexLocation::Start => behind(value, LENGTH_SIZE + size),
        VlenIndexLocation::End => {
            let count = value.len() - LENGTH_SIZE - size;
            front(value, count)
        }
    }
}

/// The bytes and the offsets of elements of any length. Errors: `ArrayBytesKind` for any other
/// elements.
pub fn variable_parts<'a>(
    elements: ArrayBytes<'a>,
) -> Result<(ArrayBytesRaw<'a>, ArrayBytesOffsets), CodecError>
    ensures answer { seen raw_and_offsets result ≡ variable_part elements.entry }
    ensures ending { IfOk result (λ parts. last_of parts.1 ≡ length (items_of parts.0)) }
    ensures no_fault { is_fault result ≡ false }
{
    elements.as_variable()?;
    elements.into_variable()
}

/// Three parts, one behind another.
fn joined(alloc: Global, first: &[u8], second: &[u8], third: &[u8]) -> Result<Vec<u8>, CodecError>
    ensures answer { GivesItems result (in_memory (first.now ++ (second.now ++ third.now))) }
{
    let room = first
        .len()
        .saturating_add(second.len())
        .saturating_add(third.len());
    let mut value = Vec::with_capacity(alloc, room)?;
    value.extend_from_slice(first)?;
    value.extend_from_slice(second)?;
    value.extend_from_slice(third)?;
    Ok(value)
}

/// The value of an index and data. Errors: `OutOfMemory`.
#[tactic(auto, unfolding(crate::specs::Parts::part_length_bytes))]
pub fn join(
    alloc: Global,
    index: &[u8],
    content: &[u8],
    location: VlenIndexLocation,
) -> Result<Vec<u8>, CodecError>
    ensures answer { GivesItems result (in_memory (arranged (is_at_end location)
        (part_length_bytes index.now) index.now content.now)) }
{
    let head = (index.len() as u64).to_le_bytes();
    match location {
        VlenIndexLocation::Start => joined(alloc, &head, index, content),
        VlenIndexLocation::End => joined(alloc, content, index, &head),
    }
}
