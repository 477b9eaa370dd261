//! What the tests share: checks, which take references, since a function with asserts beside owned
//! values is dear to prove, and a store to read.

use std::alloc::Global;
use std::fmt::Debug;
use std::ops::Range;
use std::process::Abort;
use zarrs_stores::{ByteRange, CodecError, MemoryStore};

/// What came is what is wanted.
pub(crate) fn is<T: PartialEq + Debug>(rt: &impl Abort, name: &str, came: &T, wanted: &T) {
    assert_eq!(rt; *came, *wanted, "{name}");
}

/// The bytes of a value or of parts of it, `None` where there is no value, or an error.
pub(crate) type Answer<'a> = Result<Option<&'a [u8]>, CodecError>;

/// The answer is this one. A lack of memory is an error of the test.
fn answers(
    rt: &impl Abort,
    name: &str,
    came: Answer<'_>,
    wanted: Answer<'_>,
) -> Result<(), CodecError> {
    if let Err(CodecError::OutOfMemory) = came {
        return Err(CodecError::OutOfMemory);
    }
    is(rt, name, &came, &wanted);
    Ok(())
}

/// A read has this answer.
pub(crate) fn reads(
    rt: &impl Abort,
    name: &str,
    came: Result<Option<Vec<u8>>, CodecError>,
    wanted: Answer<'_>,
) -> Result<(), CodecError> {
    match came {
        Ok(bytes) => answers(rt, name, Ok(bytes.as_deref()), wanted),
        Err(cause) => answers(rt, name, Err(cause), wanted),
    }
}

/// A store with five bytes under the key `c/0/1`, and a value without bytes under `c/1/0`.
pub(crate) fn filled(alloc: Global) -> Result<MemoryStore, CodecError> {
    let mut store = MemoryStore::new(alloc);
    store.set(alloc, "c/0/1", [1, 2, 3, 4, 5].to_vec(alloc)?)?;
    store.set(alloc, "c/1/0", Vec::new(alloc))?;
    Ok(store)
}

pub(crate) fn range(range: Range<u64>) -> Result<ByteRange, CodecError> {
    ByteRange::new(range).ok_or(CodecError::InvalidByteRange)
}
