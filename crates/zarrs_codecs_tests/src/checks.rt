//! Checks, which take references, since an assert beside owned values is dear to prove.

use std::fmt::Debug;
use std::process::Abort;
use zarrs_chunk::CodecError;
use zarrs_codec::ByteRange;

/// What came is what is wanted.
pub(crate) fn is<T: PartialEq + Debug>(
    rt: &impl Abort,
    row: &str,
    about: &str,
    came: &T,
    wanted: &T,
) {
    assert_eq!(rt; *came, *wanted, "{row}: {about}");
}

/// The error that came, or none, is the expected one. Out of memory is an error of the test.
pub(crate) fn is_cause(
    rt: &impl Abort,
    row: &str,
    came: Option<CodecError>,
    wanted: &Option<CodecError>,
) -> Result<(), CodecError> {
    if came == Some(CodecError::OutOfMemory) {
        return Err(CodecError::OutOfMemory);
    }
    is(rt, row, "refusal", &came, wanted);
    Ok(())
}

/// The ranges start and end here.
pub(crate) fn are_ranges(rt: &impl Abort, row: &str, came: &[ByteRange], wanted: &[(u64, u64)]) {
    is(rt, row, "ranges", &came.len(), &wanted.len());
    for (range, ends) in came.iter().zip(wanted.iter()) {
        is(rt, row, "range", &(range.start(), range.end()), ends);
    }
}

/// These ranges are planned, or none can be.
pub(crate) fn is_plan(
    rt: &impl Abort,
    row: &str,
    came: Option<&[ByteRange]>,
    wanted: Option<&[(u64, u64)]>,
) {
    is(rt, row, "planned", &came.is_some(), &wanted.is_some());
    are_ranges(rt, row, came.unwrap_or(&[]), wanted.unwrap_or(&[]));
}
