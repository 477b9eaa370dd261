//! Happy calls of the programs of `zarrs_uses`.
ghost use Rattle.std.specs.Prelude.{◌≡◌, ◌<◌, IfOk, length};
ghost use Rattle.zarrs_uses.specs.Cache.{DecodesAlike, cached_values};

use crate::checks::is;
use crate::chunks::{BYTES, Chunk, TWO_BYTES, TWO_BYTES_WITH_LENGTH, chunk_of};
use std::alloc::Global;
use std::borrow::CowSlice;
use std::process::Abort;
use zarrs_array_bytes::ArrayBytes;
use zarrs_chunk::{ArraySubset, CodecError};
use zarrs_codec::{MemoryHandle, SampleBytesCodec};
use zarrs_codecs::CodecChain;
use zarrs_uses::cache::ChunkCache;
use zarrs_uses::own_codec::{ByteDeltaCodec, delta_chain, encode_by_deltas};
use zarrs_uses::reencoding::is_kept;
use zarrs_uses::windows::{read_window, windows_agree};

/// Bytes of two rows and three columns, stored column by column.
const COLUMNS: &'static str =
    r#"{"shape":[2,3],"data_type":"uint8","fill_value":"00","codecs":[{"name":"transpose","configuration":{"order":[1,0]}},"bytes"]}"#;

/// The rows 1, 2, 3 and 4, 5, 6.
const STORED: &'static [u8] = &[1, 4, 2, 5, 3, 6];

/// The last two columns.
fn window(alloc: Global) -> Result<ArraySubset, CodecError> {
    ArraySubset::new_with_ranges(alloc, &[0..2, 1..3])
}

fn is_read(
    rt: &impl Abort,
    about: &str,
    came: &ArrayBytes<'_>,
    wanted: &[u8],
) -> Result<(), CodecError> {
    is(rt, "uses", about, &came.as_fixed()?, &wanted);
    Ok(())
}

fn reads_window(rt: &impl Abort, alloc: Global, chunk: &Chunk) -> Result<(), CodecError> {
    let Chunk { chain, form } = chunk;
    let mut handle = MemoryHandle::with_value(Vec::from_slice(alloc, STORED)?);
    let read = read_window(
        alloc,
        chain,
        &mut handle,
        window(alloc)?,
        &form.shape,
        &form.data_type,
        &form.fill_value,
    )?;
    is_read(rt, "window", &read, &[2, 3, 5, 6])
}

fn agrees(rt: &impl Abort, alloc: Global, chunk: &Chunk) -> Result<(), CodecError> {
    let Chunk { chain, form } = chunk;
    let same = windows_agree(
        alloc,
        chain,
        STORED,
        window(alloc)?,
        &form.shape,
        &form.data_type,
        &form.fill_value,
    )?;
    is(rt, "uses", "windows agree", &same, &true);
    Ok(())
}

fn keeps(rt: &impl Abort, alloc: Global, from: &Chunk, to: &Chunk) -> Result<(), CodecError> {
    let Chunk { chain, form } = from;
    let same = is_kept(
        alloc,
        chain,
        &to.chain,
        &[7, 8],
        &form.shape,
        &form.data_type,
        &form.fill_value,
    )?;
    is(rt, "uses", "kept", &same, &true);
    Ok(())
}

/// Two values of two bytes.
fn two_values(alloc: Global) -> Result<Vec<Vec<u8>>, CodecError>
    ensures two { IfOk result (λ values. length values.items ≡ 2) }
{
    let mut values = Vec::with_capacity(alloc, 2)?;
    values.push(Vec::from_slice(alloc, &[7, 8])?)?;
    values.push(Vec::from_slice(alloc, &[5, 6])?)?;
    Ok(values)
}

/// The chunk of this key has these bytes.
fn is_cached<'a>(
    rt: &impl Abort,
    alloc: Global,
    cache: &mut ChunkCache<'a, SampleBytesCodec>,
    key: usize,
    wanted: &[u8],
) -> Result<(), CodecError>
    requires stored { key < length (cached_values cache.old) }
    ensures kept { DecodesAlike cache.old cache.new }
{
    let chunk = cache.chunk(alloc, key)?;
    is_read(rt, "cached", &chunk, wanted)
}

/// Two values through a cache with room for one, each of them twice.
fn caches(
    rt: &impl Abort,
    alloc: Global,
    chunk: &Chunk,
    values: &[Vec<u8>],
) -> Result<(), CodecError>
    requires two { length values.now ≡ 2 }
{
    let Chunk { chain, form } = chunk;
    let mut cache = ChunkCache::new(
        alloc,
        chain,
        values,
        &form.shape,
        &form.data_type,
        &form.fill_value,
        1,
    );
    is_cached(rt, alloc, &mut cache, 1, &[5, 6])?;
    is_cached(rt, alloc, &mut cache, 1, &[5, 6])?;
    is_cached(rt, alloc, &mut cache, 0, &[7, 8])?;
    is_cached(rt, alloc, &mut cache, 0, &[7, 8])
}

/// The bytes 7, 9, 9 and 4, each less the one before it.
fn deltas(
    rt: &impl Abort,
    alloc: Global,
    chain: &CodecChain<ByteDeltaCodec>,
    chunk: &Chunk,
) -> Result<(), CodecError> {
    let form = &chunk.form;
    let elements = ArrayBytes::new_flen(CowSlice::Borrowed(&[7, 9, 9, 4]));
    let value = chain.encode(
        alloc,
        elements,
        &form.shape,
        &form.data_type,
        &form.fill_value,
    )?;
    let wanted: &[u8] = &[7, 2, 0, 251];
    is(rt, "uses", "deltas", &value.as_slice(), &wanted);
    Ok(())
}

fn comes_back(rt: &impl Abort, alloc: Global, chunk: &Chunk) -> Result<(), CodecError> {
    let form = &chunk.form;
    let elements = ArrayBytes::new_flen(CowSlice::Borrowed(&[7, 9, 9, 4]));
    let back = encode_by_deltas(
        alloc,
        None,
        elements,
        &form.shape,
        &form.data_type,
        &form.fill_value,
    )?;
    is_read(rt, "back", &back, &[7, 9, 9, 4])
}

fn windows(rt: &impl Abort, alloc: Global, chunk: &Chunk) -> Result<(), CodecError> {
    reads_window(rt, alloc, chunk)?;
    agrees(rt, alloc, chunk)
}

#[test]
fn windows_are_read(rt: HostRuntime) -> Result<(), CodecError> {
    let chunk = chunk_of(rt.alloc(), COLUMNS)?;
    windows(&rt, rt.alloc(), &chunk)
}

fn caches_two(rt: &impl Abort, alloc: Global, chunk: &Chunk) -> Result<(), CodecError> {
    let values = two_values(alloc)?;
    caches(rt, alloc, chunk, &values)
}

#[test]
fn chunks_are_cached(rt: HostRuntime) -> Result<(), CodecError> {
    let chunk = chunk_of(rt.alloc(), TWO_BYTES)?;
    caches_two(&rt, rt.alloc(), &chunk)
}

/// The deltas, by a chain that is made by itself.
fn deltas_by_chain(rt: &impl Abort, alloc: Global, chunk: &Chunk) -> Result<(), CodecError> {
    let chain = delta_chain(alloc, None)?;
    deltas(rt, alloc, &chain, chunk)
}

fn goes_and_comes(rt: &impl Abort, alloc: Global, chunk: &Chunk) -> Result<(), CodecError> {
    deltas_by_chain(rt, alloc, chunk)?;
    comes_back(rt, alloc, chunk)
}

#[test]
fn bytes_are_encoded_as_deltas(rt: HostRuntime) -> Result<(), CodecError> {
    let chunk = chunk_of(rt.alloc(), BYTES)?;
    goes_and_comes(&rt, rt.alloc(), &chunk)
}

/// Two bytes to another chain.
fn converts(rt: &impl Abort, alloc: Global, from: &Chunk) -> Result<(), CodecError> {
    let to = chunk_of(alloc, TWO_BYTES_WITH_LENGTH)?;
    keeps(rt, alloc, from, &to)
}

#[test]
fn values_are_converted(rt: HostRuntime) -> Result<(), CodecError> {
    let from = chunk_of(rt.alloc(), TWO_BYTES)?;
    converts(&rt, rt.alloc(), &from)
}
