//! What the tests share: checks, which take references, since a function with asserts beside owned
//! values is dear to prove.

use std::fmt::Debug;
use std::process::Abort;
use zarrs_chunk::CodecError;

/// What came is what is wanted.
pub(crate) fn is<T: PartialEq + Debug>(rt: &impl Abort, about: &str, came: &T, wanted: &T) {
    assert_eq!(rt; *came, *wanted, "{about}");
}

/// The items that came are those that are wanted.
pub(crate) fn are<T: PartialEq + Debug>(rt: &impl Abort, about: &str, came: &[T], wanted: &[T]) {
    is(rt, about, &came, &wanted);
}

/// The answer or the error that came is the expected one. Out of memory is an error of the test.
pub(crate) fn answers<T: PartialEq + Debug>(
    rt: &impl Abort,
    about: &str,
    came: &Result<T, CodecError>,
    wanted: &Result<T, CodecError>,
) -> Result<(), CodecError> {
    if let Err(CodecError::OutOfMemory) = came {
        return Err(CodecError::OutOfMemory);
    }
    is(rt, about, came, wanted);
    Ok(())
}

/// The bytes or the error that came are the expected ones. Out of memory is an error of the test.
pub(crate) fn gives(
    rt: &impl Abort,
    about: &str,
    came: Result<&[u8], CodecError>,
    wanted: Result<&[u8], CodecError>,
) -> Result<(), CodecError> {
    match (came, wanted) {
        (Ok(came), Ok(wanted)) => are(rt, about, came, wanted),
        (Err(CodecError::OutOfMemory), _) => return Err(CodecError::OutOfMemory),
        (came, wanted) => is(rt, about, &came.err(), &wanted.err()),
    }
    Ok(())
}

/// Why there is no answer, if there is none.
pub(crate) fn cause<T>(answer: &Result<T, CodecError>) -> Result<(), CodecError> {
    match answer {
        Ok(_) => Ok(()),
        Err(cause) => Err(*cause),
    }
}
