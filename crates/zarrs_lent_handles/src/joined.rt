//! Ranges of bytes put in order and joined.
ghost use Rattle.std.specs.Prelude.{◌≡◌, ◌++◌, [], IfOk, IfErr, OnOk};
ghost use Rattle.zarrs_chunk.specs.declared.codec_error.CodecError.TheVariants.{OutOfMemory};
ghost use Rattle.zarrs_lent_handles.specs.Joined.{filled, joined_from, Joins};

use std::alloc::{AllocError, Global};
use zarrs_chunk::CodecError;
use zarrs_codec::ByteRange;

/// Appends a range, unless it is empty.
pub(crate) fn push_filled(
    joined: &mut Vec<ByteRange>,
    start: u64,
    end: u64,
) -> Result<(), AllocError>
    ensures appended { OnOk result (joined.new.items ≡ joined.old.items ++ filled start end []) }
{
    if start < end {
        if let Some(range) = ByteRange::new(start..end) {
            joined.push(range)?;
        }
    }
    Ok(())
}

/// Joins ranges none of which begins before the one before it.
fn join_rising(alloc: Global, ranges: &[ByteRange]) -> Result<Vec<ByteRange>, AllocError>
    ensures value { IfOk result (λ joined. joined.items ≡ joined_from 0 0 ranges.now) }
{
    let mut joined = Vec::new(alloc);
    let mut start = 0u64;
    let mut end = 0u64;
    for range in ranges {
        let first = range.start();
        let last = range.end();
        if last <= first {
            continue;
        }
        if first <= end {
            end = end.max(last);
        } else {
            push_filled(&mut joined, start, end)?;
            start = first;
            end = last;
        }
    }
    push_filled(&mut joined, start, end)?;
    Ok(joined)
}

/// Ranges of the same bytes, in order: each has a byte, and between one and the next is a byte of
/// none of them. So the bytes that they have are pieces of which a
/// [`PiecesHandle`](crate::PiecesHandle) is made. Errors: `OutOfMemory`.
pub fn join_ranges(alloc: Global, ranges: Vec<ByteRange>) -> Result<Vec<ByteRange>, CodecError>
    ensures joins { IfOk result (λ joined. Joins ranges.items joined.items) }
    ensures memory { IfErr result (λ error. error ≡ OutOfMemory) }
{
    let mut ranges = ranges;
    ranges.sort_by_key(|range| range.start())?;
    Ok(join_rising(alloc, ranges.as_slice())?)
}
