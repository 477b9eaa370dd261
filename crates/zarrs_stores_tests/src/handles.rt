//! A key of a store as a handle.

use crate::checks::{filled, is, range, reads};
use std::alloc::Global;
use std::process::Abort;
use zarrs_codec::BytesPartialDecoderTraits;
use zarrs_stores::{CodecError, MemoryStore, StoreHandle};

type Handle<'s> = StoreHandle<'s, MemoryStore>;

/// What a handle on a value of this size, or on none, reports of itself.
fn reports<H: BytesPartialDecoderTraits>(
    rt: &impl Abort,
    handle: &mut H,
    size: Option<u64>,
) -> Result<(), CodecError> {
    is(rt, "there", &handle.exists()?, &size.is_some());
    is(rt, "size", &handle.size()?, &size);
    is(rt, "held", &handle.size_held(), &0);
    is(rt, "by ranges", &handle.supports_partial_decode(), &true);
    Ok(())
}

/// The whole value, and its second and third bytes.
fn reads_key<H: BytesPartialDecoderTraits>(
    rt: &impl Abort,
    alloc: Global,
    handle: &mut H,
    value: Option<&[u8]>,
    part: Option<&[u8]>,
) -> Result<(), CodecError> {
    reads(rt, "value", handle.decode(alloc), Ok(value))?;
    let read = handle.partial_decode_many(alloc, &[range(1..3)?]);
    reads(rt, "in part", read, Ok(part))
}

#[test]
fn one_on_a_value(rt: HostRuntime) -> Result<(), CodecError> {
    let mut store = filled(rt.alloc())?;
    let mut handle = Handle::new(&mut store, "c/0/1");
    is(&rt, "key", &handle.key(), &"c/0/1");
    reports(&rt, &mut handle, Some(5))?;
    let five: &[u8] = &[1, 2, 3, 4, 5];
    reads_key(&rt, rt.alloc(), &mut handle, Some(five), Some(&[2, 3]))
}

#[test]
fn one_on_no_value(rt: HostRuntime) -> Result<(), CodecError> {
    let mut store = filled(rt.alloc())?;
    let mut handle = Handle::new(&mut store, "c/0/10");
    reports(&rt, &mut handle, None)?;
    reads_key(&rt, rt.alloc(), &mut handle, None, None)
}
