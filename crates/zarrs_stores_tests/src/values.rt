//! Values in memory, by keys.

use crate::checks::{filled, is, range, reads};
use std::alloc::Global;
use std::process::Abort;
use zarrs_stores::{CodecError, MemoryStore, ReadableStore};

/// Two keys have these values, or none.
fn has(
    rt: &impl Abort,
    name: &str,
    store: &MemoryStore,
    first: Option<&[u8]>,
    second: Option<&[u8]>,
) {
    is(rt, name, &store.value("c/0/1"), &first);
    is(rt, name, &store.value("c/1/0"), &second);
}

fn changes(rt: &impl Abort, alloc: Global, store: &mut MemoryStore) -> Result<(), CodecError> {
    has(rt, "as filled", store, Some(&[1, 2, 3, 4, 5]), Some(&[]));
    store.set(alloc, "c/0/1", [9].to_vec(alloc)?)?;
    has(rt, "set again", store, Some(&[9]), Some(&[]));
    store.erase("c/1/0");
    store.erase("c/0/10");
    has(rt, "erased", store, Some(&[9]), None);
    Ok(())
}

#[test]
fn values_are_set_and_erased(rt: HostRuntime) -> Result<(), CodecError> {
    let mut store = filled(rt.alloc())?;
    changes(&rt, rt.alloc(), &mut store)
}

/// Whole values: of five bytes, of none, and of a key that has none.
fn reads_values<S: ReadableStore>(
    rt: &impl Abort,
    alloc: Global,
    store: &mut S,
) -> Result<(), CodecError> {
    let five: &[u8] = &[1, 2, 3, 4, 5];
    reads(rt, "five", store.get(alloc, "c/0/1"), Ok(Some(five)))?;
    reads(rt, "empty", store.get(alloc, "c/1/0"), Ok(Some(&[])))?;
    reads(rt, "none", store.get(alloc, "c/0/10"), Ok(None))
}

fn tells_sizes<S: ReadableStore>(rt: &impl Abort, store: &mut S) -> Result<(), CodecError> {
    is(rt, "five", &store.size_key("c/0/1")?, &Some(5));
    is(rt, "empty", &store.size_key("c/1/0")?, &Some(0));
    is(rt, "none", &store.size_key("c/0/10")?, &None);
    is(rt, "by ranges", &store.supports_get_partial(), &true);
    Ok(())
}

/// Ranges in the order in which they are asked for, and one that ends past the value.
fn reads_ranges<S: ReadableStore>(
    rt: &impl Abort,
    alloc: Global,
    store: &mut S,
) -> Result<(), CodecError> {
    let ranges = &[range(3..5)?, range(0..1)?];
    let read = store.get_partial_many(alloc, "c/0/1", ranges);
    reads(rt, "two ranges", read, Ok(Some(&[4, 5, 1])))?;
    let read = store.get_partial_many(alloc, "c/0/10", ranges);
    reads(rt, "no value", read, Ok(None))?;
    let read = store.get_partial_many(alloc, "c/0/1", &[range(3..6)?]);
    reads(rt, "past the end", read, Err(CodecError::InvalidByteRange))
}

#[test]
fn values_are_read(rt: HostRuntime) -> Result<(), CodecError> {
    let mut store = filled(rt.alloc())?;
    reads_values(&rt, rt.alloc(), &mut store)?;
    tells_sizes(&rt, &mut store)?;
    reads_ranges(&rt, rt.alloc(), &mut store)
}
