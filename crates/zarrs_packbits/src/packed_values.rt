//! Elements of one size and their packed values, as bytes.
ghost use Rattle.zarrs_array_bytes.specs.Held.{items_of};
ghost use Rattle.std.specs.Prelude.{◌≡◌, ◌+◌, ◌*◌, ◌^◌, ◌<◌, ◌++◌, IfOk, Ok, OnErr, length, false};
ghost use Rattle.zarrs_chunk.specs.Answer.{Gives};
ghost use Rattle.zarrs_packbits.specs.Bits.{bits_of};
ghost use Rattle.zarrs_packbits.specs.BitStream.{bytes_packed, bytes_unpacked};
ghost use Rattle.zarrs_packbits.specs.PackedLayout.{IsOneTwoOrFour, IsPackedLayout, is_whole, layout_components, spare_of};
ghost use Rattle.zarrs_packbits.specs.PaddingByte.{padding_bytes_before, padding_bytes_behind, value_len};

use crate::bit_writer::BitWriter;
use crate::layout::PackedLayout;
use crate::spread::put_spread;
use std::alloc::{AllocError, Global};
use std::borrow::CowSlice;
use zarrs_array_bytes::ArrayBytesRaw;
use zarrs_chunk::CodecError;
use zarrs_codec::bytes_are;
use zarrs_metadata::PackBitsPaddingEncoding;

/// Puts the padding byte, where it stands first.
fn begin_value(alloc: Global, layout: &PackedLayout, room: usize) -> Result<BitWriter, AllocError>
    requires layout { IsPackedLayout layout.now }
    ensures value { IfOk result (λ w. w ≡ bits_of (padding_bytes_before layout.now.padding (spare_of layout.now))) }
{
    let mut writer = BitWriter::with_capacity(alloc, room)?;
    match layout.padding {
        PackBitsPaddingEncoding::FirstByte => writer.put(layout.spare() as u64, 8)?,
        _ => {}
    }
    Ok(writer)
}

/// Puts the padding byte, where it stands last.
fn end_value(layout: &PackedLayout, mut value: Vec<u8>) -> Result<Vec<u8>, AllocError>
    requires layout { IsPackedLayout layout.now }
    ensures value { IfOk result (λ v. v.items ≡ value.items ++ padding_bytes_behind
        layout.now.padding (spare_of layout.now)) }
{
    match layout.padding {
        PackBitsPaddingEncoding::LastByte => value.push(layout.spare())?,
        _ => {}
    }
    Ok(value)
}

/// The value of a chunk, of its elements' bytes joined.
fn packed_value(alloc: Global, layout: &PackedLayout, bytes: &[u8]) -> Result<Vec<u8>, AllocError>
    requires layout { IsPackedLayout layout.now }
    requires last_fits { layout.now.first + layout.now.count < 2 ^ 64 }
    requires len { length bytes.now ≡ layout_components layout.now * layout.now.size }
    ensures value { IfOk result (λ v. v.items ≡ bytes_packed layout.now bytes.now) }
{
    let mut writer = begin_value(alloc, layout, layout.value_len() as usize)?;
    writer.put_stream(layout, bytes)?;
    let value = end_value(layout, writer.finish()?)?;
    Ok(value)
}

/// Writes the bytes of the elements of the chunk that a value of the right length stands for, joined. A
/// component is one byte, of which one bit is kept, or two or four.
fn put_unpacked(layout: &PackedLayout, value: &[u8], elements: &mut [u8])
    requires layout { IsPackedLayout layout.now }
    requires size { layout.now.first + layout.now.count + layout.now.above ≡ 8 }
    requires count { IsOneTwoOrFour layout.now.count }
    requires len { length value.now ≡ value_len layout.now }
    requires room { length elements.old ≡ layout_components layout.now }
    ensures value { elements.new ≡ bytes_unpacked layout.now value.now }
{
    put_spread(elements, layout, &value[layout.lead()..]);
    bytes_are(elements);
}

/// The bytes of the elements of the chunk that a value of the right length stands for, joined.
fn unpacked_bytes(alloc: Global, layout: &PackedLayout, value: &[u8]) -> Result<Vec<u8>, AllocError>
    requires layout { IsPackedLayout layout.now }
    requires in_part { is_whole layout.now ≡ false }
    requires len { length value.now ≡ value_len layout.now }
    ensures value { IfOk result (λ v. v.items ≡ bytes_unpacked layout.now value.now) }
{
    let parts = layout.elements * layout.group;
    let room = (parts * layout.size) as usize;
    if layout.is_spread() {
        let mut elements = vec![in alloc; 0; room]?;
        put_unpacked(layout, value, &mut elements);
        return Ok(elements);
    }
    let mut writer = BitWriter::with_capacity(alloc, room)?;
    writer.put_components(layout, &value[layout.lead()..], 0, parts)?;
    writer.finish()
}

/// Writes the bytes of the elements of the chunk that a value of the right length stands for where they
/// are wanted. Where they can't go there at once, an `Err` leaves what was there.
pub(crate) fn unpack_into(
    alloc: Global,
    layout: &PackedLayout,
    value: &[u8],
    elements: &mut [u8],
) -> Result<(), AllocError>
    requires layout { IsPackedLayout layout.now }
    requires len { length value.now ≡ value_len layout.now }
    requires room { length elements.old ≡ layout_components layout.now * layout.now.size }
    ensures value { IfOk result (λ _. elements.new ≡ bytes_unpacked layout.now value.now) }
    ensures left { OnErr result (elements.new ≡ elements.old) }
{
    if layout.is_whole() {
        bytes_are(value);
        elements.copy_from_slice(value);
        return Ok(());
    }
    if layout.is_spread() {
        put_unpacked(layout, value, elements);
        return Ok(());
    }
    let made = unpacked_bytes(alloc, layout, value)?;
    elements.copy_from_slice(&made);
    Ok(())
}

/// The value of a chunk, of its elements' bytes, which are let go.
pub(crate) fn packed_raw<'a>(
    alloc: Global,
    layout: &PackedLayout,
    raw: ArrayBytesRaw<'_>,
) -> Result<ArrayBytesRaw<'a>, CodecError>
    requires layout { IsPackedLayout layout.now }
    requires last_fits { layout.now.first + layout.now.count < 2 ^ 64 }
    requires len { length (items_of raw) ≡ layout_components layout.now * layout.now.size }
    ensures exact { Gives items_of result (Ok (bytes_packed layout.now (items_of raw.entry))) }
{
    let value = packed_value(alloc, layout, &raw)?;
    Ok(CowSlice::Owned(value))
}

/// The bytes of the elements of the chunk that a value stands for, which is let go.
pub(crate) fn unpacked_raw<'a>(
    alloc: Global,
    layout: &PackedLayout,
    value: ArrayBytesRaw<'_>,
) -> Result<ArrayBytesRaw<'a>, CodecError>
    requires layout { IsPackedLayout layout.now }
    requires in_part { is_whole layout.now ≡ false }
    requires len { length (items_of value) ≡ value_len layout.now }
    ensures exact { Gives items_of result (Ok (bytes_unpacked layout.now (items_of value.entry))) }
{
    let bytes = unpacked_bytes(alloc, layout, &value)?;
    Ok(CowSlice::Owned(bytes))
}
