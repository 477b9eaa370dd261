//! What the tests share.

use std::alloc::AllocError;
use std::fmt::Debug;
use std::process::Abort;

/// What came is what is wanted.
pub(crate) fn is<T: PartialEq + Debug>(rt: &impl Abort, name: &str, came: &T, wanted: &T) {
    assert_eq!(rt; *came, *wanted, "{name}");
}

/// The code of a call, where it isn't that of a lack of memory, which is an error of the test.
pub(crate) fn has_memory(code: u32) -> Result<u32, AllocError> {
    if code == 10 {
        return Err(AllocError);
    }
    Ok(code)
}
