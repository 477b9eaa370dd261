//! Elements in a row, each behind its length: written, and read again.
ghost use Rattle.std.specs.Prelude.{◌≡◌, ◌+◌, ◌-◌, ◌<◌, ◌≤◌, IfOk, length, map, take, drop, true};
ghost use Rattle.std.specs.List.{range_with_len};
ghost use Rattle.zarrs_chunk.specs.Answer.{seen, Appends, Gives, GivesItems};
ghost use Rattle.zarrs_chunk.specs.declared.codec_error.CodecError.TheVariants.{InvalidBytesLength};
ghost use Rattle.zarrs_data_type.specs.Element.{plain};
ghost use Rattle.zarrs_array_bytes.specs.Elements.{cut};
ghost use Rattle.zarrs_array_bytes.specs.Offsets.{is_offsets, last_of};
ghost use Rattle.zarrs_array_bytes.specs.Pieces.{bytes_with_offsets};
ghost use Rattle.zarrs_bytes.specs.ByteOrder.{bytes_of};
ghost use Rattle.zarrs_vlen_v2.specs.PrefixedValues.{number_fits, element_in};
ghost use Rattle.zarrs_vlen_v2.specs.VlenV2Codec.{u32_bytes, u32_of, fits_u32, prefixed, prefixed_value as prefixed_value_of, elements_in};

use std::alloc::{AllocError, Global};
use zarrs_chunk::CodecError;

/// How many bytes a number takes.
pub(crate) const NUMBER_SIZE: usize = 4;

/// The number has four bytes. Errors: `OffsetTooLarge`.
fn check_number(n: usize) -> Result<(), CodecError>
    ensures answer { result ≡ number_fits n }
    ensures fits { IfOk result (λ _. fits_u32 n ≡ true) }
{
    if n > u32::MAX as usize {
        return Err(CodecError::OffsetTooLarge);
    }
    Ok(())
}

/// Appends a number's four bytes, the lowest first.
#[tactic(auto, unfolding(crate::specs::VlenV2Codec::u32_bytes))]
fn put_number(value: &mut Vec<u8>, n: usize) -> Result<(), AllocError>
    requires fits { fits_u32 n ≡ true }
    ensures appended { Appends value.old value.new result (u32_bytes n) }
{
    value.extend_from_slice(&(n as u32).to_le_bytes())
}

/// The number that the first four bytes spell, the lowest first.
#[tactic(auto, unfolding(crate::specs::VlenV2Codec::u32_of))]
pub(crate) fn read_number(bytes: &[u8]) -> u32
    requires len { 4 ≤ length bytes.now }
    ensures value { result ≡ u32_of (take 4 bytes.now) }
{
    u32::from_le_bytes([bytes[0], bytes[1], bytes[2], bytes[3]])
}

/// The bytes of an element.
#[tactic(auto, using(zarrs_array_bytes::proofs::OffsetLemmas::offsets_facts))]
fn element_at<'a>(bytes: &'a [u8], offsets: &[usize], index: usize) -> &'a [u8]
    requires rising { is_offsets offsets.now ≡ true }
    requires ending { last_of offsets.now ≡ length bytes.now }
    requires inside { index + 1 < length offsets.now }
    ensures bytes { result.now ≡ cut offsets.now bytes.now index }
{
    &bytes[offsets[index]..offsets[index + 1]]
}

/// Appends an element behind its length. Errors: `OffsetTooLarge`; `OutOfMemory`.
fn put_element(value: &mut Vec<u8>, element: &[u8]) -> Result<(), CodecError>
    ensures answer { Gives (λ done. done) result (number_fits (length element.now)) }
    ensures fits { IfOk result (λ _. fits_u32 (length element.now) ≡ true) }
    ensures appended { Appends value.old value.new result (prefixed element.now) }
{
    check_number(element.len())?;
    put_number(value, element.len())?;
    value.extend_from_slice(element)?;
    Ok(())
}

/// The value of the elements between the offsets. Errors: `OffsetTooLarge` where their number or a
/// length doesn't have four bytes; `OutOfMemory`.
pub(crate) fn prefixed_value(
    alloc: Global,
    bytes: &[u8],
    offsets: &[usize],
) -> Result<Vec<u8>, CodecError>
    requires rising { is_offsets offsets.now ≡ true }
    requires ending { last_of offsets.now ≡ length bytes.now }
    ensures answer { GivesItems result (prefixed_value_of (map (λ place. plain
        (cut offsets.now bytes.now place)) (range_with_len 0 (length offsets.now - 1)))) }
{
    let count = offsets.len() - 1;
    check_number(count)?;
    let room = bytes
        .len()
        .saturating_add(offsets.len().saturating_mul(NUMBER_SIZE));
    let mut value = Vec::with_capacity(alloc, room)?;
    put_number(&mut value, count)?;
    for index in 0..count {
        put_element(&mut value, element_at(bytes, offsets, index))?;
    }
    Ok(value)
}

/// The error for a value that has other than so many bytes, which are due up to some place.
pub(crate) fn wrong_length(value: &[u8], due: usize) -> CodecError
    ensures value { result ≡ InvalidBytesLength (length value.now) due }
{
    CodecError::InvalidBytesLength {
        len: value.len() as u64,
        expected: due as u64,
    }
}

/// The element whose length stands at a place. Errors: `InvalidBytesLength` where four bytes aren't
/// there, or as many as they say.
fn next_element<'a>(value: &'a [u8], at: usize) -> Result<&'a [u8], CodecError>
    requires inside { at ≤ length value.now }
    ensures answer { seen (λ element. element.now) result ≡ element_in value.now at }
    ensures inside { IfOk result (λ element. at + 4 + length element.now ≤ length value.now) }
{
    let row = &value[at..];
    if row.len() < NUMBER_SIZE {
        return Err(wrong_length(value, at + NUMBER_SIZE));
    }
    let size = read_number(row) as usize;
    let items = &row[NUMBER_SIZE..];
    if items.len() < size {
        return Err(wrong_length(value, at + NUMBER_SIZE + size));
    }
    Ok(&items[..size])
}

/// The bytes and the offsets of so many elements, which stand behind their number. Errors:
/// `InvalidBytesLength` where the value ends before the last of them, or behind it; `OutOfMemory`.
pub(crate) fn prefixed_parts(
    alloc: Global,
    value: &[u8],
    count: usize,
) -> Result<(Vec<u8>, Vec<usize>), CodecError>
    requires len { 4 ≤ length value.now }
    ensures answer { Gives (λ parts. (parts.0.items, parts.1.items)) result (seen
        (bytes_with_offsets bytes_of) (elements_in count (length value.now) 4 (drop 4 value.now))) }
    ensures rising { IfOk result (λ parts. is_offsets parts.1.items ≡ true) }
    ensures ending { IfOk result (λ parts. last_of parts.1.items ≡ length parts.0.items) }
{
    let numbers = count.saturating_add(1);
    let mut bytes = Vec::with_capacity(
        alloc,
        value
            .len()
            .saturating_sub(numbers.saturating_mul(NUMBER_SIZE)),
    )?;
    let mut offsets = Vec::with_capacity(alloc, numbers.min(value.len() / NUMBER_SIZE))?;
    offsets.push(0)?;
    let mut at = NUMBER_SIZE;
    for _done in 0..count {
        let element = next_element(value, at)?;
        bytes.extend_from_slice(element)?;
        offsets.push(bytes.len())?;
        at += NUMBER_SIZE + element.len();
    }
    if at != value.len() {
        return Err(wrong_length(value, at));
    }
    Ok((bytes, offsets))
}
