//! Containers of elements that were read.
ghost use Rattle.std.specs.Prelude.{◌≡◌, Ok, IfOk, map, option_map, replicate};
ghost use Rattle.zarrs_chunk.specs.Answer.{Appends};
ghost use Rattle.zarrs_data_type.specs.ElementType.{text};
ghost use Rattle.zarrs_array_bytes.specs.Held.{owned_bytes};
ghost use Rattle.zarrs_array_bytes.specs.Parts.{with_mask};
ghost use Rattle.zarrs_array_bytes.specs.Present.{mask_of, presence};
ghost use Rattle.zarrs_json.specs.Containers.{plain_bytes as plain_bytes_of, bytes_or_zeros, chunk_bytes, chunk_cuts, under_mask, container_of, variable_answer};
ghost use Rattle.zarrs_json.specs.Element.{slot_seen, slots_seen};
ghost use Rattle.zarrs_json.specs.Refusal.{codec_answer, ReadsJson};

use crate::element::Element;
use crate::refusal::Refusal;
use std::alloc::{AllocError, Global};
use std::borrow::CowSlice;
use zarrs_array_bytes::{ArrayBytes, ArrayBytesOffsets, append_copies};
use zarrs_chunk::CodecError;
use zarrs_data_type::DataType;

/// What stands at a place: an element, or none where the one above it is absent.
type Slot<'e> = Option<&'e Element>;

fn plain_bytes(slot: Slot<'_>) -> Option<&[u8]>
    ensures value { option_map (λ bytes. bytes.now) result ≡ plain_bytes_of (slot_seen slot.entry) }
{
    match slot {
        Some(Element::Plain(bytes)) => Some(bytes.as_slice()),
        _ => None,
    }
}

fn append_zeros(out: &mut Vec<u8>, size: usize) -> Result<(), AllocError>
    ensures appended { Appends out.old out.new result (replicate size 0) }
{
    append_copies(out, &[0], size as u64)
}

/// Appends the bytes of an element, or zeros where there is none.
fn append_element(out: &mut Vec<u8>, size: usize, slot: Slot<'_>) -> Result<(), AllocError>
    ensures appended { Appends out.old out.new result (bytes_or_zeros size (slot_seen slot.entry)) }
{
    match plain_bytes(slot) {
        Some(bytes) => out.extend_from_slice(bytes),
        None => append_zeros(out, size),
    }
}

/// The bytes of elements of one size, one after another.
fn fixed_bytes(alloc: Global, size: usize, slots: &[Slot<'_>]) -> Result<Vec<u8>, AllocError>
    ensures value { IfOk result (λ bytes. bytes.items ≡ chunk_bytes size (slots_seen slots.now)) }
{
    let mut bytes = Vec::new(alloc);
    for slot in slots {
        append_element(&mut bytes, size, *slot)?;
    }
    Ok(bytes)
}

/// The bytes of elements of any length, one after another, and their offsets.
fn variable_parts(alloc: Global, slots: &[Slot<'_>]) -> Result<(Vec<u8>, Vec<usize>), AllocError>
    ensures value { IfOk result (λ v. (v.0.items, v.1.items) ≡ chunk_cuts (slots_seen slots.now)) }
{
    let mut bytes = Vec::new(alloc);
    let mut offsets = Vec::new(alloc);
    offsets.push(0)?;
    for slot in slots {
        append_element(&mut bytes, 0, *slot)?;
        offsets.push(bytes.len())?;
    }
    Ok((bytes, offsets))
}

fn mask_byte(slot: Slot<'_>) -> u8
    ensures value { result ≡ presence (slot_seen slot.entry) }
{
    match slot {
        Some(Element::Present(_)) => 1,
        _ => 0,
    }
}

/// The mask over elements that may be absent.
fn mask(alloc: Global, slots: &[Slot<'_>]) -> Result<Vec<u8>, AllocError>
    ensures value { IfOk result (λ mask. mask.items ≡ mask_of (slots_seen slots.now)) }
{
    let mut mask = Vec::with_capacity(alloc, slots.len())?;
    for slot in slots {
        mask.push(mask_byte(*slot))?;
    }
    Ok(mask)
}

fn inside(slot: Slot<'_>) -> Slot<'_>
    ensures value { slot_seen result ≡ under_mask (slot_seen slot.entry) }
{
    match slot {
        Some(Element::Present(inner)) => Some(inner),
        _ => None,
    }
}

/// What stands under the mask of elements that may be absent.
fn slots_inside<'e>(alloc: Global, slots: &[Slot<'e>]) -> Result<Vec<Slot<'e>>, AllocError>
    ensures value { IfOk result (λ v. slots_seen v.items ≡ map under_mask (slots_seen slots.now)) }
{
    let mut inner = Vec::with_capacity(alloc, slots.len())?;
    for slot in slots {
        inner.push(inside(*slot))?;
    }
    Ok(inner)
}

fn of_parts(bytes: Vec<u8>, offsets: Vec<usize>) -> Result<ArrayBytes<'static>, CodecError>
    ensures answer { result ≡ variable_answer bytes.items offsets.items }
{
    let offsets = ArrayBytesOffsets::new(offsets)?;
    ArrayBytes::new_vlen(CowSlice::Owned(bytes), offsets)
}

fn variable(alloc: Global, slots: &[Slot<'_>]) -> Result<ArrayBytes<'static>, Refusal>
    ensures answer { ReadsJson result (Ok (container_of text (slots_seen slots.now))) }
{
    let (bytes, offsets) = variable_parts(alloc, slots)?;
    match of_parts(bytes, offsets) {
        Ok(elements) => Ok(elements),
        Err(error) => Err(Refusal::Codec(error)),
    }
}

fn under(
    alloc: Global,
    inner: ArrayBytes<'static>,
    mask: Vec<u8>,
) -> Result<ArrayBytes<'static>, Refusal>
    ensures answer { ReadsJson result (codec_answer (with_mask inner.entry (owned_bytes mask.items))) }
{
    Ok(inner.with_optional_mask(alloc, CowSlice::Owned(mask))?)
}

/// The container of elements of the type, level by level: the list of one level is let go before that
/// of the next is made. Errors: `OutOfMemory`.
pub fn container(
    alloc: Global,
    data_type: &DataType,
    slots: Vec<Slot<'_>>,
) -> Result<ArrayBytes<'static>, Refusal>
    ensures made { ReadsJson result (Ok (container_of data_type.now (slots_seen slots.entry.items))) }
{
    if let Some(inner_type) = data_type.as_optional() {
        let mask = mask(alloc, &slots)?;
        let inside = slots_inside(alloc, &slots)?;
        drop(slots);
        let inner = container(alloc, inner_type, inside)?;
        return under(alloc, inner, mask);
    }
    match data_type.fixed_size() {
        Some(size) => {
            let bytes = fixed_bytes(alloc, size, &slots)?;
            Ok(ArrayBytes::new_flen(CowSlice::Owned(bytes)))
        }
        None => variable(alloc, &slots),
    }
}
