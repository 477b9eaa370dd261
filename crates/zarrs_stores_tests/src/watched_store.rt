//! A store of which one call fails, and which counts the calls for one key.

use crate::checks::{filled, is, range, reads};
use std::alloc::Global;
use std::process::Abort;
use zarrs_codec::BytesPartialDecoderTraits;
use zarrs_stores::testing::WatchedStore;
use zarrs_stores::{CodecError, ReadableStore, StorageError, StoreHandle};

/// A store whose `n`-th call fails, and which counts those for the key `c/1/0`.
fn watched(alloc: Global, n: u32) -> Result<WatchedStore, CodecError> {
    let key = String::from_str(alloc, "c/1/0")?;
    Ok(WatchedStore::new(filled(alloc)?, n, key))
}

/// The second call fails, for a key without a value too, and the third does not.
fn fails_once(rt: &impl Abort, alloc: Global, store: &mut WatchedStore) -> Result<(), CodecError> {
    is(rt, "first", &store.size_key("c/0/1")?, &Some(5));
    is(rt, "faults before", &store.faults(), &0);
    let failure = CodecError::Storage(StorageError { code: 2 });
    reads(rt, "second", store.get(alloc, "c/0/10"), Err(failure))?;
    is(rt, "faults", &store.faults(), &1);
    reads(rt, "third", store.get(alloc, "c/0/10"), Ok(None))?;
    is(rt, "faults since", &store.faults(), &1);
    Ok(())
}

#[test]
fn the_second_call_fails(rt: HostRuntime) -> Result<(), CodecError> {
    let mut store = watched(rt.alloc(), 2)?;
    fails_once(&rt, rt.alloc(), &mut store)
}

/// A read of a key by a handle fails with what the store reported.
fn fails_by_handle<S: ReadableStore>(
    rt: &impl Abort,
    alloc: Global,
    store: &mut S,
) -> Result<(), CodecError> {
    let mut handle: StoreHandle<'_, S> = StoreHandle::new(store, "c/1/0");
    is(rt, "size", &handle.size()?, &Some(0));
    let failure = CodecError::Storage(StorageError { code: 2 });
    reads(rt, "value", handle.decode(alloc), Err(failure))
}

/// Calls for another key are not counted, and one that fails is.
#[test]
fn calls_for_a_key_are_counted(rt: HostRuntime) -> Result<(), CodecError> {
    let mut store = watched(rt.alloc(), 2)?;
    fails_by_handle(&rt, rt.alloc(), &mut store)?;
    is(&rt, "two", &store.asked(), &2);
    let read = store.get_partial_many(rt.alloc(), "c/0/1", &[range(1..3)?]);
    reads(&rt, "another key", read, Ok(Some(&[2, 3])))?;
    is(&rt, "still two", &store.asked(), &2);
    Ok(())
}
