//! Reads of a shard over a handle that counts its calls: a decoder reads the index once.

use crate::checks::is;
use crate::chunks::{Case, FIRST_OF_TWO, SHARD, case_of};
use crate::coders::{Decoder, decoder};
use std::alloc::Global;
use std::process::Abort;
use zarrs_chunk::CodecError;
use zarrs_codec::testing::RecordingHandle;

/// Reads the part so many times.
fn read_times(
    alloc: Global,
    decoder: &mut Decoder<'_, RecordingHandle>,
    case: &Case,
    times: u32,
) -> Result<(), CodecError> {
    for _ in 0..times {
        decoder.partial_decode(alloc, &case.part.indexer)?;
    }
    Ok(())
}

/// Once the reads are done: how many reading calls the handle had, and how many bytes are kept.
fn counted(
    done: Result<(), CodecError>,
    held: usize,
    handle: &RecordingHandle,
) -> Result<(u64, usize), CodecError> {
    done?;
    Ok((handle.reads(), held))
}

fn count(
    alloc: Global,
    mut decoder: Decoder<'_, RecordingHandle>,
    case: &Case,
    times: u32,
) -> Result<(u64, usize), CodecError> {
    let done = read_times(alloc, &mut decoder, case, times);
    let held = decoder.size_held();
    counted(done, held, &decoder.into_handle())
}

fn recording(alloc: Global, value: &[u8]) -> Result<RecordingHandle, CodecError> {
    Ok(RecordingHandle::new(alloc, Some(value.to_vec(alloc)?)))
}

/// How many reading calls a decoder makes that reads the part of a value so many times, and how many
/// bytes are kept then.
fn calls_and_held(
    alloc: Global,
    case: &Case,
    value: &[u8],
    times: u32,
) -> Result<(u64, usize), CodecError> {
    match decoder(alloc, &case.chunk, recording(alloc, value)?) {
        Ok(decoder) => count(alloc, decoder, case, times),
        Err(refused) => Err(refused.error),
    }
}

/// How many times the part is read, how many reading calls that makes, and how many bytes are kept.
struct Reads {
    times: u32,
    calls: u64,
    held: usize,
}

/// The first read asks for the size, the index and the element's byte, the next ones for that byte
/// alone. Beside the value's 36 bytes, which the handle keeps, the index of two inner chunks is kept.
const READS: &'static [Reads] = &[
    Reads {
        times: 0,
        calls: 0,
        held: 36,
    },
    Reads {
        times: 1,
        calls: 3,
        held: 68,
    },
    Reads {
        times: 2,
        calls: 4,
        held: 68,
    },
    Reads {
        times: 5,
        calls: 7,
        held: 68,
    },
];

/// Both inner chunks are stored, and their bytes are those of one call.
const BOTH_READS: &'static [Reads] = &[
    Reads {
        times: 1,
        calls: 3,
        held: 72,
    },
    Reads {
        times: 2,
        calls: 4,
        held: 72,
    },
];

/// The inner chunks 1, 2, 3, 4 and 5, 6, 7, 8, and where they stand.
const BOTH_OF_TWO: &'static [u8] =
    b"\x01\x02\x03\x04\x05\x06\x07\x08\0\0\0\0\0\0\0\0\x04\0\0\0\0\0\0\0\x04\0\0\0\0\0\0\0\x04\0\0\0\0\0\0\0";

fn calls_are(
    rt: &impl Abort,
    alloc: Global,
    name: &str,
    case: &Case,
    value: &[u8],
    rows: &[Reads],
) -> Result<(), CodecError> {
    for row in rows {
        let came = calls_and_held(alloc, case, value, row.times)?;
        is(rt, name, "calls, held", &came, &(row.calls, row.held));
    }
    Ok(())
}

#[test]
fn a_decoder_reads_the_index_once(rt: HostRuntime) -> Result<(), CodecError> {
    let part = r#"{"at":{"ranges":[[1,2],[0,1]]},"data":["03"]}"#;
    let case = case_of(rt.alloc(), SHARD, part)?;
    calls_are(&rt, rt.alloc(), "an element", &case, FIRST_OF_TWO, READS)
}

#[test]
fn a_box_of_two_inner_chunks_is_read_by_one_call(rt: HostRuntime) -> Result<(), CodecError> {
    let part = r#"{"at":{"ranges":[[0,2],[1,3]]},"data":["02","05","04","07"]}"#;
    let case = case_of(rt.alloc(), SHARD, part)?;
    calls_are(&rt, rt.alloc(), "a box", &case, BOTH_OF_TWO, BOTH_READS)
}
