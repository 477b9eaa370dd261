//! The parts of a value of the codec `optional`, and what its chains inside are handed.
ghost use Rattle.std.specs.List.{list_all};
ghost use Rattle.std.specs.Prelude.{◌≡◌, ◌≤◌, ◌+◌, ◌^◌, if◌then◌else◌, nat_lt, Ok, Err, IfOk, IfErr, Some, None, true, false, length, drop};
ghost use Rattle.zarrs_chunk.specs.Answer.{is_fault, seen, Gives, GivesValue};
ghost use Rattle.zarrs_data_type.specs.FillValue.{fill_fits};
ghost use Rattle.zarrs_array_bytes.specs.Held.{items_of, masked, raw_of};
ghost use Rattle.zarrs_array_bytes.specs.Parts.{optional_part};
ghost use Rattle.zarrs_array_bytes.specs.Present.{present_count};
ghost use Rattle.zarrs_chain_meaning.specs.BytesStages.{in_memory};
ghost use Rattle.zarrs_chain_meaning.specs.optional.Optional.{optional_parts, optional_layout, blank_fill as blank_fill_of, bounded_total};
ghost use Rattle.zarrs_chain_meaning.specs.optional.OptionalParts.{optional_inner, both_lent};

use crate::codec_name::OPTIONAL;
use crate::vlen::length_fields::read_length;
use std::alloc::Global;
use std::borrow::CowSlice;
use zarrs_array_bytes::{ArrayBytes, ArrayBytesRaw, count_present};
use zarrs_chunk::CodecError;
use zarrs_codec::BytesRepresentation;
use zarrs_data_type::{DataType, FillValue};

/// How many bytes stand before the mask: its length and that of the data, 8 bytes each.
const HEADER_SIZE: usize = 16;

/// The type of the present elements. Errors: `UnsupportedDataType` where the type isn't optional.
pub fn inner_type(data_type: &DataType) -> Result<&DataType, CodecError>
    ensures answer { seen (λ inner. inner.now) result ≡ optional_inner data_type.now }
    ensures no_fault { is_fault result ≡ false }
{
    match data_type.as_optional() {
        Some(inner) => Ok(inner),
        None => Err(CodecError::UnsupportedDataType(OPTIONAL)),
    }
}

/// The fill value that a chain of present elements of this type gets: zeros, no bytes, or absent.
/// Errors: `OutOfMemory`.
#[tactic(auto, using(crate::proofs::OptionalSteps::blank_fits))]
pub fn blank_fill(alloc: Global, data_type: &DataType) -> Result<FillValue, CodecError>
    ensures answer { GivesValue result (Ok (blank_fill_of data_type.now)) }
    ensures filling { fill_fits data_type.now (blank_fill_of data_type.now) ≡ true }
{
    if data_type.is_optional() {
        return FillValue::new_optional_null(alloc);
    }
    match data_type.fixed_size() {
        Some(size) => Ok(FillValue::new(vec![in alloc; 0u8; size]?)),
        None => Ok(FillValue::new(Vec::new(alloc))),
    }
}

/// What stands under the outermost mask of a container, the mask, and how many elements are present
/// under it. Errors: `ArrayBytesKind` for elements without a mask.
#[tactic(auto, using(crate::proofs::OptionalSteps::masked_is))]
pub fn masked_parts(
    elements: ArrayBytes<'_>,
) -> Result<(ArrayBytes<'_>, ArrayBytesRaw<'_>, u64), CodecError>
    ensures parts { IfOk result (λ parts. elements.entry ≡ masked parts.0 (raw_of parts.1)) }
    ensures flags { IfOk result (λ parts. list_all (λ b. nat_lt b 2) (items_of parts.1) ≡ true) }
    ensures count { IfOk result (λ parts. present_count (items_of parts.1) ≡ Ok parts.2) }
    ensures cause { IfErr result (λ cause. optional_part elements.entry ≡ Err cause) }
    ensures no_fault { is_fault result ≡ false }
{
    let count = count_present(elements.as_optional()?.1)?;
    let (inside, mask) = elements.into_optional()?;
    Ok((Box::into_inner(inside), mask, count))
}

/// How many bytes a value of parts of so many bytes has, where 64 bits count them.
fn whole_size(mask_size: u64, data_size: u64) -> Option<u64>
    ensures value { result ≡ if nat_lt (16 + mask_size + data_size) (2 ^ 64)
        then Some (16 + mask_size + data_size) else None }
{
    mask_size
        .checked_add(HEADER_SIZE as u64)?
        .checked_add(data_size)
}

/// How many bytes a value has whose parts have so many. No bound where either has none.
pub fn both_representations(
    mask: &BytesRepresentation,
    content: &BytesRepresentation,
) -> BytesRepresentation
    ensures value { result ≡ bounded_total (λ mask content. 16 + mask + content) mask.now content.now }
{
    match (mask.size(), content.size()) {
        (Some(mask), Some(data)) => match whole_size(mask, data) {
            Some(size) => BytesRepresentation::BoundedSize(size),
            None => BytesRepresentation::UnboundedSize,
        },
        _ => BytesRepresentation::UnboundedSize,
    }
}

/// The bytes, lent.
pub fn lent<'r>(raw: &'r ArrayBytesRaw<'_>) -> &'r [u8]
    ensures value { result.now ≡ (items_of raw.now) }
{
    match raw {
        CowSlice::Borrowed(bytes) => bytes,
        CowSlice::Owned(bytes) => bytes.as_slice(),
    }
}

/// The mask and the data, lent, that stand behind their lengths. Errors, the first that holds:
/// `InvalidBytesLength` where there are fewer bytes than the lengths take; `HeaderOverflow` where
/// 64 bits don't count what the lengths say; `InvalidBytesLength` where there are more bytes, or
/// fewer.
fn split_bytes(value: &[u8]) -> Result<(&[u8], &[u8]), CodecError>
    ensures answer { seen both_lent result ≡ optional_parts value.now }
    ensures no_fault { is_fault result ≡ false }
{
    let len = value.len() as u64;
    if value.len() < HEADER_SIZE {
        return Err(CodecError::InvalidBytesLength {
            len,
            expected: HEADER_SIZE as u64,
        });
    }
    let mask_size = read_length(value);
    let data_size = read_length(&value[8..]);
    let expected = match whole_size(mask_size, data_size) {
        Some(size) => size,
        None => return Err(CodecError::HeaderOverflow),
    };
    if len != expected {
        return Err(CodecError::InvalidBytesLength { len, expected });
    }
    Ok(value[HEADER_SIZE..].split_at(mask_size as usize))
}

/// The bytes but for the first ones, moved to the front.
fn without_front(mut bytes: Vec<u8>, count: usize) -> Vec<u8>
    requires inside { count ≤ length bytes.items }
    ensures rest { result.items ≡ drop count bytes.items }
{
    bytes.drain(..count);
    bytes
}

/// The mask and the data of a value. Borrowed bytes are lent on; of owned ones the mask is copied,
/// and the data are moved to the front. Errors, the first that holds, `OutOfMemory` aside:
/// `InvalidBytesLength` where there are fewer than 16 bytes; `HeaderOverflow` where 64 bits don't
/// count what the two lengths say; `InvalidBytesLength` where there are more bytes, or fewer.
#[tactic(auto, using(crate::proofs::NestedParts::owned_parts, crate::proofs::NestedParts::mask_inside))]
pub fn split_value(
    alloc: Global,
    value: ArrayBytesRaw<'_>,
) -> Result<(ArrayBytesRaw<'_>, ArrayBytesRaw<'_>), CodecError>
    ensures answer { Gives (λ parts. (items_of parts.0, items_of parts.1)) result
        (optional_parts (items_of value.entry)) }
{
    match value {
        CowSlice::Borrowed(bytes) => {
            let (mask, data) = split_bytes(bytes)?;
            Ok((CowSlice::Borrowed(mask), CowSlice::Borrowed(data)))
        }
        CowSlice::Owned(bytes) => {
            let mask = split_bytes(&bytes)?.0.to_vec(alloc)?;
            let items = without_front(bytes, HEADER_SIZE + mask.len());
            Ok((CowSlice::Owned(mask), CowSlice::Owned(items)))
        }
    }
}

/// The value of these parts: the two lengths, the mask and the data. Errors: `OutOfMemory`.
#[tactic(auto, unfolding(crate::specs::Parts::part_length_bytes))]
pub fn join_parts<'a>(
    alloc: Global,
    mask: &[u8],
    content: &[u8],
) -> Result<ArrayBytesRaw<'a>, CodecError>
    ensures answer { Gives items_of result (in_memory (optional_layout mask.now content.now)) }
{
    let size = mask
        .len()
        .saturating_add(content.len())
        .saturating_add(HEADER_SIZE);
    let mut value = Vec::with_capacity(alloc, size)?;
    value.extend_from_slice(&(mask.len() as u64).to_le_bytes())?;
    value.extend_from_slice(&(content.len() as u64).to_le_bytes())?;
    value.extend_from_slice(mask)?;
    value.extend_from_slice(content)?;
    Ok(CowSlice::Owned(value))
}
