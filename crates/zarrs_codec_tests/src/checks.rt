//! What the tests share: checks, which take references, since a function with asserts beside owned
//! values is dear to prove.

use std::fmt::Debug;
use std::process::Abort;
use zarrs_array_bytes::ArrayBytes;
use zarrs_chunk::CodecError;
use zarrs_codec::ByteRange;

/// What came is what is wanted.
pub(crate) fn is<T: PartialEq + Debug>(rt: &impl Abort, name: &str, came: &T, wanted: &T) {
    assert_eq!(rt; *came, *wanted, "{name}");
}

/// Bytes, or an error.
pub(crate) type Answer<'a> = Result<&'a [u8], CodecError>;

/// The answer is these bytes, or this error. A lack of memory is an error of the test.
pub(crate) fn answers(
    rt: &impl Abort,
    name: &str,
    came: Answer<'_>,
    wanted: Answer<'_>,
) -> Result<(), CodecError> {
    if let Err(CodecError::OutOfMemory) = came {
        return Err(CodecError::OutOfMemory);
    }
    is(rt, name, &came, &wanted);
    Ok(())
}

/// A call fails with this error. A lack of memory is an error of the test.
fn refuses(
    rt: &impl Abort,
    name: &str,
    came: CodecError,
    wanted: Option<CodecError>,
) -> Result<(), CodecError> {
    if came == CodecError::OutOfMemory {
        return Err(CodecError::OutOfMemory);
    }
    is(rt, name, &Some(came), &wanted);
    Ok(())
}

/// Elements of one size that a read returns, or why there are none.
pub(crate) fn is_part(
    rt: &impl Abort,
    name: &str,
    came: Result<ArrayBytes<'static>, CodecError>,
    wanted: Answer<'_>,
) -> Result<(), CodecError> {
    match came {
        Ok(part) => answers(rt, name, part.as_fixed(), wanted),
        Err(cause) => answers(rt, name, Err(cause), wanted),
    }
}

/// The ranges have these starts and ends.
fn have_ends(rt: &impl Abort, name: &str, ranges: &[ByteRange], wanted: &[(u64, u64)]) {
    is(rt, name, &ranges.len(), &wanted.len());
    for (range, ends) in ranges.iter().zip(wanted) {
        is(rt, name, &(range.start(), range.end()), ends);
    }
}

/// These ranges are planned, or none for this cause.
pub(crate) fn are_planned(
    rt: &impl Abort,
    name: &str,
    came: Result<Vec<ByteRange>, CodecError>,
    wanted: Result<&[(u64, u64)], CodecError>,
) -> Result<(), CodecError> {
    match came {
        Ok(ranges) => {
            have_ends(rt, name, ranges.as_slice(), wanted?);
            Ok(())
        }
        Err(cause) => refuses(rt, name, cause, wanted.err()),
    }
}
