//! Lists of edits, over handles of which each call in turn fails: one that keeps its value then, and one
//! that tears it.

use crate::checks::{is, is_cause};
use crate::chunks::{BYTES, Chunk, WITH_LENGTH, chunk_of, part_of};
use crate::coders::{Encoder, encoder};
use std::alloc::Global;
use std::process::Abort;
use zarrs_chunk::{CodecError, StorageError};
use zarrs_codec::BytesPartialEncoderTraits;
use zarrs_codec::testing::{FailingHandle, TornHandle};
use zarrs_codecs::{Edit, EditOutcome, run_edits};

/// Where elements are written and which, or nothing where all is erased. The fourth edit has an element
/// too many.
const LIST: &'static [Option<&'static str>] = &[
    Some(r#"{"at":{"ranges":[[0,2]]},"data":["01","02"]}"#),
    None,
    Some(r#"{"at":{"ranges":[[3,4]]},"data":["09"]}"#),
    Some(r#"{"at":{"ranges":[[0,1]]},"data":["01","02"]}"#),
    None,
];

/// Four bytes in two inner chunks.
const PAIRS: &'static str =
    r#"{"shape":[4],"data_type":"uint8","fill_value":"00","codecs":[{"name":"sharding_indexed","configuration":{"chunk_shape":[2],"codecs":["bytes"],"index_codecs":[{"name":"bytes","configuration":{"endian":"little"}}]}}]}"#;

/// A chunk; what is stored of it after none of the edits, after the first one, after two and after three;
/// and what is torn where the writing call of the first edit fails, that of the second and that of the
/// third.
struct Row {
    name: &'static str,
    chunk: &'static str,
    after: &'static [Option<&'static [u8]>],
    torn: &'static [&'static [u8]],
}

const ROWS: &'static [Row] = &[
    Row {
        name: "bytes",
        chunk: BYTES,
        after: &[None, Some(b"\x01\x02\0\0"), None, Some(b"\0\0\0\x09")],
        torn: &[b"\x01\x02", b"\x01\x02", b"\0\0"],
    },
    Row {
        name: "bytes under a length",
        chunk: WITH_LENGTH,
        after: &[
            None,
            Some(b"\x04\0\0\0\0\0\0\0\x01\x02\0\0"),
            None,
            Some(b"\x04\0\0\0\0\0\0\0\0\0\0\x09"),
        ],
        torn: &[b"\x04\0\0\0\0\0", b"\x04\0\0\0\0\0", b"\x04\0\0\0\0\0"],
    },
    Row {
        name: "bytes in two inner chunks, of which one is left out each time",
        chunk: PAIRS,
        after: &[
            None,
            Some(
                b"\x01\x02\0\0\0\0\0\0\0\0\x02\0\0\0\0\0\0\0\xff\xff\xff\xff\xff\xff\xff\xff\xff\xff\xff\xff\xff\xff\xff\xff",
            ),
            None,
            Some(
                b"\0\x09\xff\xff\xff\xff\xff\xff\xff\xff\xff\xff\xff\xff\xff\xff\xff\xff\0\0\0\0\0\0\0\0\x02\0\0\0\0\0\0\0",
            ),
        ],
        torn: &[
            b"\x01\x02\0\0\0\0\0\0\0\0\x02\0\0\0\0\0\0",
            b"\x01\x02\0\0\0\0\0\0\0\0\x02\0\0\0\0\0\0",
            b"\0\x09\xff\xff\xff\xff\xff\xff\xff\xff\xff\xff\xff\xff\xff\xff\xff",
        ],
    },
];

fn edit(alloc: Global, chunk: &Chunk, text: &Option<&str>) -> Result<Edit<'static>, CodecError> {
    match text {
        None => Ok(Edit::Erase),
        Some(text) => {
            let part = part_of(alloc, chunk, text)?;
            Ok(Edit::Encode(part.indexer, part.elements))
        }
    }
}

/// Puts an edit behind those of a list.
fn add(
    alloc: Global,
    chunk: &Chunk,
    all: &mut Vec<Edit<'static>>,
    text: &Option<&str>,
) -> Result<(), CodecError> {
    Ok(all.push(edit(alloc, chunk, text)?)?)
}

fn edits(alloc: Global, chunk: &Chunk) -> Result<Vec<Edit<'static>>, CodecError> {
    let mut all = Vec::new(alloc);
    for text in LIST.iter() {
        add(alloc, chunk, &mut all, text)?;
    }
    Ok(all)
}

/// What is left of a handle: its value, how many calls failed, how many writing calls there were, and how
/// many of these were accepted.
#[derive(Clone, Copy)]
struct Left<'a> {
    value: Option<&'a [u8]>,
    faults: u64,
    writes: u64,
    accepted: u64,
}

/// A handle that says what is left of it.
trait Counted: BytesPartialEncoderTraits {
    fn left(&self) -> Left<'_>;
}

impl Counted for FailingHandle {
    fn left(&self) -> Left<'_> {
        Left {
            value: self.value(),
            faults: self.faults(),
            writes: self.write_calls(),
            accepted: self.accepted_writes(),
        }
    }
}

impl Counted for TornHandle {
    fn left(&self) -> Left<'_> {
        Left {
            value: self.value(),
            faults: self.faults(),
            writes: self.write_calls(),
            accepted: self.accepted_writes(),
        }
    }
}

/// The error is the handle's where its call of this number failed. Else the first three edits are
/// accepted, and the fourth is rejected before the handle is asked.
fn is_refused(
    rt: &impl Abort,
    row: &Row,
    outcome: &EditOutcome,
    has_failed: bool,
    call: u32,
) -> Result<(), CodecError> {
    let cause = if has_failed {
        CodecError::Storage(StorageError { code: call })
    } else {
        CodecError::DataMismatch
    };
    is_cause(rt, row.name, outcome.refusal, &Some(cause))?;
    is(rt, row.name, "all done", &(outcome.done == 3), &!has_failed);
    Ok(())
}

/// Each accepted edit made one writing call; the rejected one made none, or the one that failed.
/// The value is what the accepted edits leave, or what is torn of it where a writing call failed
/// and the handle isn't atomic.
fn is_left(rt: &impl Abort, row: &Row, done: usize, left: &Left<'_>, is_atomic: bool) {
    let failed = left.writes.wrapping_sub(left.accepted);
    let value = if is_atomic || failed == 0 {
        row.after.get(done).copied().flatten()
    } else {
        row.torn.get(done).copied()
    };
    let came = (left.accepted, failed <= left.faults, left.value);
    let wanted = (done as u64, true, value);
    is(rt, row.name, "writes and value", &came, &wanted);
}

/// What is left of the edits and of the handle, and how often it failed.
fn ends<H: Counted>(
    rt: &impl Abort,
    row: &Row,
    outcome: &EditOutcome,
    handle: &H,
    call: u32,
) -> Result<u64, CodecError> {
    let left = handle.left();
    is_refused(rt, row, outcome, left.faults == 1, call)?;
    is_left(rt, row, outcome.done, &left, handle.is_atomic());
    Ok(left.faults)
}

fn runs<H: Counted + Drop>(
    rt: &impl Abort,
    alloc: Global,
    mut encoder: Encoder<'_, H>,
    edits: &[Edit<'static>],
    row: &Row,
    call: u32,
) -> Result<u64, CodecError> {
    let outcome = run_edits(alloc, &mut encoder, edits);
    ends(rt, row, &outcome, &encoder.into_handle(), call)
}

/// Runs the edits over a handle that keeps nothing yet, and whose call of this number fails. The answer is
/// how often it failed.
fn fails_at<H: Counted + Drop>(
    rt: &impl Abort,
    alloc: Global,
    chunk: &Chunk,
    edits: &[Edit<'static>],
    row: &Row,
    handle: H,
    call: u32,
) -> Result<u64, CodecError> {
    match encoder(alloc, chunk, handle) {
        Ok(encoder) => runs(rt, alloc, encoder, edits, row, call),
        Err(refused) => Err(refused.error),
    }
}

/// Runs the edits with the first call failing, the next one, and so on, until none is left to fail.
fn fails_at_each(
    rt: &impl Abort,
    alloc: Global,
    chunk: &Chunk,
    edits: &[Edit<'static>],
    row: &Row,
) -> Result<(), CodecError> {
    let mut faults = (1, 1);
    for call in 1..9 {
        let failing = FailingHandle::new(None, call);
        let kept = fails_at(rt, alloc, chunk, edits, row, failing, call)?;
        let torn = fails_at(
            rt,
            alloc,
            chunk,
            edits,
            row,
            TornHandle::new(None, call),
            call,
        )?;
        faults = (kept, torn);
    }
    is(rt, row.name, "faults of the last runs", &faults, &(0, 0));
    Ok(())
}

fn fails_chunk(rt: &impl Abort, alloc: Global, chunk: &Chunk, row: &Row) -> Result<(), CodecError> {
    let edits = edits(alloc, chunk)?;
    fails_at_each(rt, alloc, chunk, edits.as_slice(), row)
}

fn fails_row(rt: &impl Abort, alloc: Global, row: &Row) -> Result<(), CodecError> {
    let chunk = chunk_of(alloc, row.chunk)?;
    fails_chunk(rt, alloc, &chunk, row)
}

#[test]
fn edits_end_at_the_first_refusal(rt: HostRuntime) -> Result<(), CodecError> {
    for row in ROWS.iter() {
        fails_row(&rt, rt.alloc(), row)?;
    }
    Ok(())
}
