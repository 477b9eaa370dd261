//! Handles by themselves: one in memory, which is lent to the calls, and one that keeps a record of them.

use crate::checks::{answers, is};
use crate::forms::store;
use std::alloc::Global;
use std::process::Abort;
use zarrs_chunk::CodecError;
use zarrs_codec::testing::RecordingHandle;
use zarrs_codec::{ByteRange, BytesPartialDecoderTraits, BytesPartialEncoderTraits};

/// The value that came.
fn is_value(
    rt: &impl Abort,
    name: &str,
    came: Result<Option<Vec<u8>>, CodecError>,
    wanted: &[u8],
) -> Result<(), CodecError> {
    match came {
        Ok(value) => answers(rt, name, Ok(value.as_deref().unwrap_or(&[])), Ok(wanted)),
        Err(cause) => Err(cause),
    }
}

/// The bytes of these ranges.
fn reads<H: BytesPartialEncoderTraits>(
    rt: &impl Abort,
    alloc: Global,
    handle: &mut H,
) -> Result<(), CodecError> {
    let (Some(last), Some(first)) = (ByteRange::new(3..5), ByteRange::new(0..1)) else {
        return Err(CodecError::InvalidByteRange);
    };
    let came = handle.partial_decode_many(alloc, &[last, first, last]);
    is_value(rt, "ranges", came, &[7, 6, 8, 7, 6])
}

/// Pieces are written over nothing, with zeros in the gap; where two meet, the later one stands.
fn writes<H: BytesPartialEncoderTraits>(
    rt: &impl Abort,
    alloc: Global,
    handle: &mut H,
) -> Result<(), CodecError> {
    handle.partial_encode_many(alloc, &[(3, 1), (0, 1), (3, 2)], &[5, 8, 7, 6])?;
    is_value(rt, "pieces", handle.decode(alloc), &[8, 0, 0, 7, 6])
}

/// What a handle reports of itself.
fn reports<H: BytesPartialEncoderTraits>(
    rt: &impl Abort,
    handle: &mut H,
    size: Option<u64>,
    held: usize,
) -> Result<(), CodecError> {
    is(rt, "size", &handle.size()?, &size);
    is(rt, "there", &handle.exists()?, &size.is_some());
    is(rt, "held", &handle.size_held(), &held);
    is(rt, "in part", &handle.supports_partial_encode(), &true);
    is(rt, "atomic", &handle.is_atomic(), &true);
    Ok(())
}

fn does_all<H: BytesPartialEncoderTraits>(
    rt: &impl Abort,
    alloc: Global,
    handle: &mut H,
) -> Result<(), CodecError> {
    writes(rt, alloc, handle)?;
    reads(rt, alloc, handle)?;
    reports(rt, handle, Some(5), 5)?;
    handle.replace(alloc, &[4])?;
    is_value(rt, "replaced", handle.decode(alloc), &[4])?;
    handle.erase()?;
    reports(rt, handle, None, 0)
}

#[test]
fn one_in_memory_is_lent(rt: HostRuntime) -> Result<(), CodecError> {
    let mut handle = store(rt.alloc(), None)?;
    does_all(&rt, rt.alloc(), &mut &mut handle)?;
    is(&rt, "writing calls", &handle.write_calls(), &3);
    Ok(())
}

/// So many reading calls have succeeded, and these runs of bytes were replaced.
fn has_record(
    rt: &impl Abort,
    name: &str,
    handle: &RecordingHandle,
    reads: u64,
    replaced: &[(u64, u64)],
) {
    is(rt, name, &handle.reads(), &reads);
    is(rt, name, &handle.replaced_runs(), &replaced);
}

fn keeps_record(
    rt: &impl Abort,
    alloc: Global,
    handle: &mut RecordingHandle,
) -> Result<(), CodecError> {
    handle.partial_encode_many(alloc, &[(1, 2), (4, 1)], &[9, 8, 7])?;
    has_record(rt, "pieces", handle, 0, &[(1, 2), (4, 1)]);
    is(rt, "size", &handle.size()?, &Some(5));
    handle.replace(alloc, &[6, 6])?;
    has_record(rt, "replaced", handle, 1, &[(1, 2), (4, 1), (0, 2)]);
    is(rt, "value", &handle.value(), &Some([6, 6].as_slice()));
    handle.erase()?;
    has_record(rt, "erased", handle, 1, &[(1, 2), (4, 1), (0, 2)]);
    is(rt, "accepted", &handle.accepted_writes(), &3);
    Ok(())
}

#[test]
fn one_keeps_a_record(rt: HostRuntime) -> Result<(), CodecError> {
    let value: &[u8] = &[1, 2, 3, 4, 5];
    let mut handle = RecordingHandle::new(rt.alloc(), Some(value.to_vec(rt.alloc())?));
    keeps_record(&rt, rt.alloc(), &mut handle)
}

/// Three ranges are asked for by two calls, and none by a read of the whole value or one that is rejected.
fn keeps_ranges(
    rt: &impl Abort,
    alloc: Global,
    handle: &mut RecordingHandle,
) -> Result<(), CodecError> {
    let (Some(last), Some(first)) = (ByteRange::new(3..5), ByteRange::new(0..1)) else {
        return Err(CodecError::InvalidByteRange);
    };
    let (Some(long), Some(none)) = (ByteRange::new(4..6), ByteRange::new(2..2)) else {
        return Err(CodecError::InvalidByteRange);
    };
    let all: &[ByteRange] = &[last, first, none];
    handle.partial_decode_many(alloc, &[last, first])?;
    is(
        rt,
        "rejected",
        &handle.partial_decode_many(alloc, &[first, long]).is_err(),
        &true,
    );
    is(rt, "whole", &handle.decode(alloc)?.is_some(), &true);
    handle.partial_decode_many(alloc, &[none])?;
    is(rt, "asked", &handle.asked(), &all);
    Ok(())
}

#[test]
fn one_keeps_the_ranges(rt: HostRuntime) -> Result<(), CodecError> {
    let value: &[u8] = &[1, 2, 3, 4, 5];
    let mut handle = RecordingHandle::new(rt.alloc(), Some(value.to_vec(rt.alloc())?));
    keeps_ranges(&rt, rt.alloc(), &mut handle)
}
