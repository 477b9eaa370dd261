//! The offsets of a codec `vlen` as the bytes of its index's elements, and back.
//!
//! They are made in blocks, since each append to a vector costs as much as the copy of some dozen
//! bytes.
ghost use Rattle.std.specs.Prelude.{◌≡◌, ◌*◌, ◌-◌, ◌^◌, ◌<◌, ◌≤◌, All, IfOk, Ok, false, true, length};
ghost use Rattle.zarrs_chunk.specs.Answer.{GivesBy, GivesItems, GivesValue, Appends};
ghost use Rattle.zarrs_array_bytes.specs.Offsets.{is_offsets};
ghost use Rattle.zarrs_array_bytes.specs.Validity.{Holds};
ghost use Rattle.zarrs_chain_meaning.specs.vlen.VlenSettings.{is_wide};
ghost use Rattle.zarrs_chain_meaning.specs.vlen.Vlen.{offset_of, offset_bytes, offset_type as offset_type_of};
ghost use Rattle.zarrs_chain_meaning.specs.vlen.VlenSteps.{bytes_from, written_offsets, index_elements as index_elements_of, read_offsets};

use std::alloc::{AllocError, Global};
use std::borrow::CowSlice;
use zarrs_array_bytes::ArrayBytes;
use zarrs_chunk::CodecError;
use zarrs_data_type::{DataType, FillValue};
use zarrs_metadata::VlenIndexDataType;

/// How many offsets are made at a time.
const BLOCK: usize = 32;

/// Writes offsets, counted from `first`, as numbers of eight bytes.
#[tactic(auto, unfolding(crate::specs::vlen::Vlen::offset_bytes))]
fn put_wide(items: &mut [u8], offsets: &[usize], first: usize)
    requires len { length items.old ≡ length offsets.now * 8 }
    requires above { All (λ offset. first ≤ offset) offsets.now }
    ensures written { items.new ≡ bytes_from true first offsets.now }
{
    for index in 0..offsets.len() {
        let start = index * 8;
        let offset = (offsets[index] - first) as u64;
        items[start..start + 8].copy_from_slice(&offset.to_le_bytes());
    }
}

/// Writes offsets, counted from `first`, as numbers of four bytes.
#[tactic(auto, unfolding(crate::specs::vlen::Vlen::offset_bytes))]
fn put_narrow(items: &mut [u8], offsets: &[usize], first: usize)
    requires len { length items.old ≡ length offsets.now * 4 }
    requires above { All (λ offset. first ≤ offset) offsets.now }
    requires fits { All (λ offset. offset - first < 2 ^ 32) offsets.now }
    ensures written { items.new ≡ bytes_from false first offsets.now }
{
    for index in 0..offsets.len() {
        let start = index * 4;
        let offset = (offsets[index] - first) as u32;
        items[start..start + 4].copy_from_slice(&offset.to_le_bytes());
    }
}

/// Appends a block of offsets, counted from `first`, as numbers of eight bytes.
fn append_wide(out: &mut Vec<u8>, offsets: &[usize], first: usize) -> Result<(), AllocError>
    requires len { length offsets.now ≤ 32 }
    requires above { All (λ offset. first ≤ offset) offsets.now }
    ensures appended { Appends out.old out.new result (bytes_from true first offsets.now) }
{
    let mut block = [0u8; BLOCK * 8];
    let size = offsets.len() * 8;
    put_wide(&mut block[..size], offsets, first);
    out.extend_from_slice(&block[..size])
}

/// Appends a block of offsets, counted from `first`, as numbers of four bytes.
fn append_narrow(out: &mut Vec<u8>, offsets: &[usize], first: usize) -> Result<(), AllocError>
    requires len { length offsets.now ≤ 32 }
    requires above { All (λ offset. first ≤ offset) offsets.now }
    requires fits { All (λ offset. offset - first < 2 ^ 32) offsets.now }
    ensures appended { Appends out.old out.new result (bytes_from false first offsets.now) }
{
    let mut block = [0u8; BLOCK * 4];
    let size = offsets.len() * 4;
    put_narrow(&mut block[..size], offsets, first);
    out.extend_from_slice(&block[..size])
}

/// The bytes of offsets, counted from `first`, as numbers of eight bytes.
fn wide_items(alloc: Global, offsets: &[usize], first: usize) -> Result<Vec<u8>, AllocError>
    requires above { All (λ offset. first ≤ offset) offsets.now }
    ensures value { IfOk result (λ items. items.items ≡ bytes_from true first offsets.now) }
{
    let blocks = offsets.len() / BLOCK;
    let mut items = Vec::with_capacity(alloc, offsets.len().saturating_mul(8))?;
    for index in 0..blocks {
        let start = index * BLOCK;
        append_wide(&mut items, &offsets[start..start + BLOCK], first)?;
    }
    append_wide(&mut items, &offsets[blocks * BLOCK..], first)?;
    Ok(items)
}

/// The bytes of offsets, counted from `first`, as numbers of four bytes.
fn narrow_items(alloc: Global, offsets: &[usize], first: usize) -> Result<Vec<u8>, AllocError>
    requires above { All (λ offset. first ≤ offset) offsets.now }
    requires fits { All (λ offset. offset - first < 2 ^ 32) offsets.now }
    ensures value { IfOk result (λ items. items.items ≡ bytes_from false first offsets.now) }
{
    let blocks = offsets.len() / BLOCK;
    let mut items = Vec::with_capacity(alloc, offsets.len().saturating_mul(4))?;
    for index in 0..blocks {
        let start = index * BLOCK;
        append_narrow(&mut items, &offsets[start..start + BLOCK], first)?;
    }
    append_narrow(&mut items, &offsets[blocks * BLOCK..], first)?;
    Ok(items)
}

/// The bytes of numbers in any order, as numbers of eight bytes.
pub fn number_items(alloc: Global, numbers: &[usize]) -> Result<Vec<u8>, AllocError>
    ensures value { IfOk result (λ items. items.items ≡ bytes_from true 0 numbers.now) }
{
    wide_items(alloc, numbers, 0)
}

/// The bytes of offsets, counted from the first of them. Errors, the first that holds:
/// `OffsetTooLarge` where the last doesn't fit its type; `OutOfMemory`.
pub fn offset_items(
    alloc: Global,
    offsets: &[usize],
    data_type: VlenIndexDataType,
) -> Result<Vec<u8>, CodecError>
    requires rising { is_offsets offsets.now ≡ true }
    ensures exact { GivesItems result (written_offsets (is_wide data_type) offsets.now) }
{
    let first = offsets[0];
    match data_type {
        VlenIndexDataType::UInt64 => Ok(wide_items(alloc, offsets, first)?),
        VlenIndexDataType::UInt32 => {
            if offsets[offsets.len() - 1] - first > u32::MAX as usize {
                return Err(CodecError::OffsetTooLarge);
            }
            Ok(narrow_items(alloc, offsets, first)?)
        }
    }
}

/// The type of the elements that offsets are stored as.
pub fn offset_type(data_type: VlenIndexDataType) -> DataType
    ensures value { result ≡ offset_type_of (is_wide data_type) }
{
    match data_type {
        VlenIndexDataType::UInt32 => DataType::uint32(),
        VlenIndexDataType::UInt64 => DataType::uint64(),
    }
}

/// The fill value of such elements: zero. Errors: `OutOfMemory`.
#[tactic(auto, unfolding(crate::specs::vlen::Vlen::offset_bytes))]
pub fn offset_fill(alloc: Global, data_type: VlenIndexDataType) -> Result<FillValue, CodecError>
    ensures answer { GivesValue result (Ok (offset_bytes (is_wide data_type) 0)) }
{
    let zero = match data_type {
        VlenIndexDataType::UInt32 => vec![in alloc; 0u8; 4]?,
        VlenIndexDataType::UInt64 => vec![in alloc; 0u8; 8]?,
    };
    Ok(FillValue::new(zero))
}

/// The elements of an index: the offsets, counted from the first of them. Errors: those of
/// `offset_items`.
pub fn index_elements<'a>(
    alloc: Global,
    offsets: &[usize],
    data_type: VlenIndexDataType,
) -> Result<ArrayBytes<'a>, CodecError>
    requires rising { is_offsets offsets.now ≡ true }
    ensures exact { GivesBy (Holds (offset_type_of (is_wide data_type))) result
        (index_elements_of (is_wide data_type) offsets.now) }
{
    let items = offset_items(alloc, offsets, data_type)?;
    Ok(ArrayBytes::new_flen(CowSlice::Owned(items)))
}

/// The offsets that the bytes of elements spell, of 4 or 8 bytes each, the lowest first; bytes at
/// the end that are no whole offset are left out. Errors: `OutOfMemory`.
pub fn offset_numbers(
    alloc: Global,
    items: &[u8],
    data_type: VlenIndexDataType,
) -> Result<Vec<usize>, CodecError>
    ensures exact { GivesItems result (Ok (read_offsets (is_wide data_type) items.now)) }
{
    match data_type {
        VlenIndexDataType::UInt64 => Ok(wide_numbers(alloc, items)?),
        VlenIndexDataType::UInt32 => Ok(narrow_numbers(alloc, items)?),
    }
}

/// The numbers that eight bytes each spell, the lowest first.
fn wide_numbers(alloc: Global, items: &[u8]) -> Result<Vec<usize>, AllocError>
    ensures value { IfOk result (λ v. v.items ≡ read_offsets true items.now) }
{
    let count = items.len() / 8;
    let mut numbers = vec![in alloc; 0usize; count]?;
    for index in 0..count {
        let start = index * 8;
        numbers[index] = read_wide(&items[start..start + 8]) as usize;
    }
    Ok(numbers)
}

/// The numbers that four bytes each spell, the lowest first.
fn narrow_numbers(alloc: Global, items: &[u8]) -> Result<Vec<usize>, AllocError>
    ensures value { IfOk result (λ v. v.items ≡ read_offsets false items.now) }
{
    let count = items.len() / 4;
    let mut numbers = vec![in alloc; 0usize; count]?;
    for index in 0..count {
        let start = index * 4;
        numbers[index] = read_narrow(&items[start..start + 4]) as usize;
    }
    Ok(numbers)
}

/// The number that eight bytes spell, the lowest first.
#[tactic(auto, unfolding(crate::specs::vlen::Vlen::offset_of))]
pub fn read_wide(bytes: &[u8]) -> u64
    requires len { length bytes.now ≡ 8 }
    ensures value { result ≡ offset_of true bytes.now }
{
    u64::from_le_bytes([
        bytes[0], bytes[1], bytes[2], bytes[3], bytes[4], bytes[5], bytes[6], bytes[7],
    ])
}

/// The number that four bytes spell, the lowest first.
#[tactic(auto, unfolding(crate::specs::vlen::Vlen::offset_of))]
pub fn read_narrow(bytes: &[u8]) -> u32
    requires len { length bytes.now ≡ 4 }
    ensures value { result ≡ offset_of false bytes.now }
{
    u32::from_le_bytes([bytes[0], bytes[1], bytes[2], bytes[3]])
}
