//! The value of a chunk, and the elements of a value, written where they are wanted.
ghost use Rattle.std.specs.Prelude.{◌≡◌, ◌<◌, ◌≤◌, ◌*◌, Some, IfSome, IfOk, [], length, true};
ghost use Rattle.zarrs_array_bytes.specs.Held.{items_of};
ghost use Rattle.zarrs_array_bytes.specs.Parts.{fixed_items};
ghost use Rattle.zarrs_chain.specs.ChainView.{plain_chain};
ghost use Rattle.zarrs_chain.specs.FrontWrites.{in_front, PutsElements, PutsValue};
ghost use Rattle.zarrs_chain.specs.FormView.{lent_form};
ghost use Rattle.zarrs_chain_meaning.specs.CodecMeaning.{bytes_codec, packbits_codec};
ghost use Rattle.zarrs_chunk.specs.ChunkShape.{product};
ghost use Rattle.zarrs_data_type.specs.ElementType.{fixed_size_of};

use crate::array_to_bytes_codec::ArrayToBytesCodec;
use crate::codec_chain::CodecChain;
use crate::decode::chain_decode;
use crate::encode::{chain_encode, check_elements};
use crate::form::Form;
use crate::representation::taken_form;
use std::alloc::Global;
use zarrs_array_bytes::{ArrayBytes, ArrayBytesRaw};
use zarrs_bytes::BytesCodec;
use zarrs_chain_meaning::arrays_into::{decode_arrays_into, encode_arrays_into};
use zarrs_chain_meaning::bytes_stages::decode_bytes;
use zarrs_chunk::{ChunkShape, CodecError};
use zarrs_codec::BytesToBytesCodecTraits;
use zarrs_packbits::PackBitsCodec;

/// Writes bytes in front of a slice, where it has room for them: how many they are.
fn put_front(out: &mut [u8], bytes: &[u8]) -> usize
    ensures count { result ≡ length bytes.now }
    ensures there { out.new ≡ in_front bytes.now out.old }
{
    if bytes.len() <= out.len() {
        out[..bytes.len()].copy_from_slice(bytes);
    }
    bytes.len()
}

/// The codec `bytes` of a chain that has no bytes-to-bytes codecs: what it makes are the elements alone.
fn bytes_alone<B>(chain: &CodecChain<B>) -> Option<&BytesCodec>
    ensures codec { IfSome result (λ codec. (plain_chain chain.now).array_to_bytes ≡ bytes_codec codec.now) }
    ensures outer { IfSome result (λ _. (plain_chain chain.now).bytes_to_bytes ≡ []) }
{
    match (&chain.array_to_bytes, chain.bytes_to_bytes.as_slice()) {
        (ArrayToBytesCodec::Bytes(codec), []) => Some(codec),
        _ => None,
    }
}

/// Writes the value of a chunk of elements of one size through array-to-array codecs and `bytes`: each
/// element is moved, and its components turned round, on the way to its place. Errors: those of
/// `CodecChain::encode`.
fn bytes_encode_into<B: BytesToBytesCodecTraits>(
    alloc: Global,
    chain: &CodecChain<B>,
    codec: &BytesCodec,
    held: ArrayBytes<'_>,
    form: Form<'_>,
    size: usize,
    value: &mut [u8],
) -> Result<usize, CodecError>
    requires codec { (plain_chain chain.now).array_to_bytes ≡ bytes_codec codec.now }
    requires outer { (plain_chain chain.now).bytes_to_bytes ≡ [] }
    requires some { 0 < size }
    requires sized { fixed_size_of form.data_type.now ≡ Some size }
    requires room { IfOk (fixed_items held) (λ items. length items ≤ length value.old) }
    ensures written { PutsValue B.functions (plain_chain chain.now) (lent_form form.entry) held.entry
        value.old value.new result }
{
    taken_form(alloc, chain, form)?;
    let Form {
        shape,
        data_type,
        fill_value,
    } = form;
    check_elements(&held, shape, data_type)?;
    let items = held.as_fixed()?;
    let count = items.len();
    let turn = codec.turn_size(data_type);
    encode_arrays_into(
        alloc,
        &chain.array_to_array,
        held,
        shape,
        data_type,
        fill_value,
        size,
        turn,
        &mut value[..count],
    )?;
    Ok(count)
}

/// Whether the bytes of elements of one size fit into a slice of so many.
fn fits_in(held: &ArrayBytes<'_>, len: usize) -> bool
    ensures room { result ≡ true → IfOk (fixed_items held.now) (λ items. length items ≤ len) }
{
    match held.as_fixed() {
        Ok(bytes) => bytes.len() <= len,
        Err(_) => false,
    }
}

/// Writes the value that `CodecChain::encode` answers in front of `value`, where that has room for it:
/// how many bytes it has. Where the room is too short, nothing is written. A chain of array-to-array
/// codecs and `bytes` alone moves each element of one size to its place, and makes no value besides.
/// Errors: those of `CodecChain::encode`, which leave what was there.
pub fn encode_into<B: BytesToBytesCodecTraits>(
    alloc: Global,
    chain: &CodecChain<B>,
    held: ArrayBytes<'_>,
    form: Form<'_>,
    value: &mut [u8],
) -> Result<usize, CodecError>
    ensures written { PutsValue B.functions (plain_chain chain.now) (lent_form form.entry) held.entry
        value.old value.new result }
{
    if let (Some(codec), Some(size)) = (bytes_alone(chain), form.data_type.fixed_size()) {
        if fits_in(&held, value.len()) {
            return bytes_encode_into(alloc, chain, codec, held, form, size, value);
        }
    }
    let made = chain_encode(alloc, chain, held, form)?;
    Ok(put_front(value, made.as_slice()))
}

/// How many bytes all elements of a chunk of this shape have, where a slice of `len` has room for them.
fn elements_len(shape: &ChunkShape, size: usize, len: usize) -> Option<usize>
    ensures count { IfSome result (λ count. count ≡ product shape.now * size) }
    ensures room { IfSome result (λ count. count ≤ len) }
{
    let Ok(count) = shape.num_elements() else {
        return None;
    };
    match count.checked_mul(size as u64) {
        Some(bytes) if bytes <= len as u64 => Some(bytes as usize),
        _ => None,
    }
}

/// Writes the elements of one size of a value of a chain with the codec `bytes`, as `bytes_encode_into`
/// writes a value. Errors: those of `CodecChain::decode`.
fn bytes_decode_into<B: BytesToBytesCodecTraits>(
    alloc: Global,
    chain: &CodecChain<B>,
    codec: &BytesCodec,
    value: ArrayBytesRaw<'_>,
    form: Form<'_>,
    size: usize,
    count: usize,
    elements: &mut [u8],
) -> Result<usize, CodecError>
    requires codec { (plain_chain chain.now).array_to_bytes ≡ bytes_codec codec.now }
    requires some { 0 < size }
    requires sized { fixed_size_of form.data_type.now ≡ Some size }
    requires count { count ≡ product form.shape.now * size }
    requires room { count ≤ length elements.old }
    ensures written { PutsElements B.functions (plain_chain chain.now) (lent_form form.entry)
        (items_of value.entry) elements.old elements.new result }
{
    let taken = taken_form(alloc, chain, form)?;
    let below = decode_bytes(alloc, &chain.bytes_to_bytes, &taken.representation, value)?;
    let codecs = chain.array_to_array.as_slice();
    let Form {
        shape,
        data_type,
        fill_value,
    } = form;
    shape.as_slice();
    let stored = BytesCodec::little().decode(alloc, below, shape, data_type, fill_value)?;
    let turn = codec.turn_size(data_type);
    decode_arrays_into(
        alloc,
        codecs,
        stored,
        shape,
        data_type,
        fill_value,
        size,
        turn,
        &mut elements[..count],
    )?;
    Ok(count)
}

/// Writes the elements of one size of a value of a chain with the codec `packbits` and no
/// array-to-array codecs: they are unpacked where they are wanted. Errors: those of
/// `CodecChain::decode`.
fn packbits_decode_into<B: BytesToBytesCodecTraits>(
    alloc: Global,
    chain: &CodecChain<B>,
    codec: &PackBitsCodec,
    value: ArrayBytesRaw<'_>,
    form: Form<'_>,
    size: usize,
    count: usize,
    elements: &mut [u8],
) -> Result<usize, CodecError>
    requires codec { (plain_chain chain.now).array_to_bytes ≡ packbits_codec codec.now }
    requires arrays { (plain_chain chain.now).array_to_array ≡ [] }
    requires some { 0 < size }
    requires sized { fixed_size_of form.data_type.now ≡ Some size }
    requires count { count ≡ product form.shape.now * size }
    requires room { count ≤ length elements.old }
    ensures written { PutsElements B.functions (plain_chain chain.now) (lent_form form.entry)
        (items_of value.entry) elements.old elements.new result }
{
    let taken = taken_form(alloc, chain, form)?;
    let below = decode_bytes(alloc, &chain.bytes_to_bytes, &taken.representation, value)?;
    let Form {
        shape,
        data_type,
        fill_value,
    } = form;
    let wanted = &mut elements[..count];
    codec.decode_elements_into(alloc, below, shape, data_type, fill_value, size, wanted)?;
    Ok(count)
}

/// Writes the elements, all of `size` bytes, that `CodecChain::decode` answers in front of `elements`,
/// where that has room for them: how many bytes they have. Where the room is too short, nothing is
/// written. A chain with the codec `bytes`, or with `packbits` and no array-to-array codecs, puts each
/// element in its place, and makes no container besides. Errors: those of `CodecChain::decode`, which
/// leave what was there.
pub fn decode_into<B: BytesToBytesCodecTraits>(
    alloc: Global,
    chain: &CodecChain<B>,
    value: ArrayBytesRaw<'_>,
    form: Form<'_>,
    size: usize,
    elements: &mut [u8],
) -> Result<usize, CodecError>
    requires some { 0 < size }
    requires sized { fixed_size_of form.data_type.now ≡ Some size }
    ensures written { PutsElements B.functions (plain_chain chain.now) (lent_form form.entry)
        (items_of value.entry) elements.old elements.new result }
{
    if let Some(count) = elements_len(form.shape, size, elements.len()) {
        match (&chain.array_to_bytes, chain.array_to_array.as_slice()) {
            (ArrayToBytesCodec::Bytes(codec), _) => {
                return bytes_decode_into(alloc, chain, codec, value, form, size, count, elements);
            }
            (ArrayToBytesCodec::PackBits(codec), []) => {
                return packbits_decode_into(
                    alloc, chain, codec, value, form, size, count, elements,
                );
            }
            _ => {}
        }
    }
    let made = chain_decode(alloc, chain, value, form)?;
    let bytes = made.as_fixed()?;
    Ok(put_front(elements, bytes))
}
