//! Bytes repeated, and their offsets.
ghost use Rattle.std.specs.Prelude.{◌≡◌, ◌*◌, ◌^◌, ◌<◌, ◌++◌, IfOk, OnOk, OnErr, length, replicate, map, ◌+◌};
ghost use Rattle.zarrs_array_bytes.specs.Filled.{copies, copies_with_offsets};
ghost use Rattle.zarrs_array_bytes.specs.Given.{MakesItems, GivesCuts};
ghost use Rattle.zarrs_array_bytes.specs.Pieces.{IsLonger};
ghost use Rattle.std.specs.List.{range_with_len};

use std::alloc::{AllocError, Global};
use zarrs_chunk::CodecError;

/// Appends these bytes `count` times. Room for all of them is made first. Errors: `AllocError`, and
/// then the old bytes are all there is.
pub fn append_copies(out: &mut Vec<u8>, bytes: &[u8], count: u64) -> Result<(), AllocError>
    ensures appended { OnOk result (out.new.items ≡ out.old.items ++ copies bytes.now count) }
    ensures kept { OnErr result (out.new.items ≡ out.old.items) }
{
    out.reserve(bytes.len().saturating_mul(count as usize))?;
    let len = out.len();
    let appended = append_blocks(out, bytes, count);
    if appended.is_err() {
        out.truncate(len);
    }
    appended
}

/// Appends the bytes `count` times: one byte as by `memset`, many copies of a few bytes by blocks of
/// 16 copies, and those by blocks again, since each append costs as much as the copy of some dozen
/// bytes.
fn append_blocks(out: &mut Vec<u8>, bytes: &[u8], count: u64) -> Result<(), AllocError>
    ensures appended { OnOk result (out.new.items ≡ out.old.items ++ copies bytes.now count) }
    ensures behind { IsLonger out.old.items out.new.items }
{
    if let [byte] = bytes {
        return append_byte(out, *byte, count);
    }
    if count < 64 || 256 <= bytes.len() {
        return append_each(out, bytes, count);
    }
    let mut block = Vec::with_capacity(*out.allocator(), bytes.len() * 16)?;
    append_each(&mut block, bytes, 16)?;
    append_blocks(out, block.as_slice(), count / 16)?;
    append_each(out, bytes, count % 16)
}

/// Appends the byte `count` times.
fn append_byte(out: &mut Vec<u8>, byte: u8, count: u64) -> Result<(), AllocError>
    ensures appended { OnOk result (out.new.items ≡ out.old.items ++ replicate count byte) }
    ensures behind { IsLonger out.old.items out.new.items }
{
    match out.len().checked_add(count as usize) {
        Some(len) => out.resize(len, byte),
        None => append_each(out, &[byte], count),
    }
}

/// Appends the bytes `count` times, one by one.
fn append_each(out: &mut Vec<u8>, bytes: &[u8], count: u64) -> Result<(), AllocError>
    ensures appended { OnOk result (out.new.items ≡ out.old.items ++ copies bytes.now count) }
    ensures behind { IsLonger out.old.items out.new.items }
{
    for _copy in 0..count {
        out.extend_from_slice(bytes)?;
    }
    Ok(())
}

/// The bytes, `count` times.
pub(crate) fn repeat_bytes(alloc: Global, bytes: &[u8], count: u64) -> Result<Vec<u8>, CodecError>
    ensures small { IfOk result (λ v. length v.items < 2 ^ 64) }
    ensures exact { MakesItems result (copies bytes.now count) }
{
    let mut out = Vec::with_capacity(alloc, bytes.len().saturating_mul(count as usize))?;
    append_copies(&mut out, bytes, count)?;
    Ok(out)
}

/// `count` elements of these bytes, and their offsets.
pub(crate) fn repeat_cuts(
    alloc: Global,
    bytes: &[u8],
    count: u64,
) -> Result<(Vec<u8>, Vec<usize>), CodecError>
    ensures small { IfOk result (λ parts. length parts.1.items < 2 ^ 64) }
    ensures exact { GivesCuts result (copies_with_offsets bytes.now count) }
{
    let out = repeat_bytes(alloc, bytes, count)?;
    let mut ends = Vec::with_capacity(alloc, (count as usize).saturating_add(1))?;
    ends.push(0)?;
    append_ends(&mut ends, bytes.len(), count as usize)?;
    Ok((out, ends))
}

/// Appends where each of `count` elements of `size` bytes ends, if the first one begins at 0.
fn append_ends(ends: &mut Vec<usize>, size: usize, count: usize) -> Result<(), AllocError>
    requires fits { count * size < 2 ^ 64 }
    ensures appended { OnOk result (ends.new.items ≡ ends.old.items
        ++ map (λ place. place * size + size) (range_with_len 0 count)) }
{
    ends.extend((0..count).map(|place| place * size + size))
}

/// `count` such bytes.
pub(crate) fn same_bytes(alloc: Global, byte: u8, count: u64) -> Result<Vec<u8>, CodecError>
    ensures small { IfOk result (λ v. length v.items < 2 ^ 64) }
    ensures exact { MakesItems result (replicate count byte) }
{
    Ok(vec![in alloc; byte; count as usize]?)
}

/// `count` zeros.
pub(crate) fn zero_offsets(alloc: Global, count: u64) -> Result<Vec<usize>, CodecError>
    ensures small { IfOk result (λ v. length v.items < 2 ^ 64) }
    ensures exact { MakesItems result (replicate count 0) }
{
    Ok(vec![in alloc; 0usize; count as usize]?)
}
