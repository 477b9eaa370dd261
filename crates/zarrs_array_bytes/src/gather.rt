//! Bytes of elements at runs, one after another.
ghost use Rattle.std.specs.Prelude.{◌≡◌, ◌+◌, ◌-◌, ◌*◌, ◌<◌, ◌^◌, ◌≤◌, ◌++◌, All, IfOk, OnOk, length, map, slice_index, true};
ghost use Rattle.zarrs_chunk.specs.Answer.{Appends};
ghost use Rattle.zarrs_chunk.specs.Runs.{joined_runs};
ghost use Rattle.std.specs.List.{range_with_len};
ghost use Rattle.zarrs_array_bytes.specs.Cuts.{run_bytes, run_size};
ghost use Rattle.zarrs_array_bytes.specs.Elements.{cut};
ghost use Rattle.zarrs_array_bytes.specs.Given.{MakesItems, GivesCuts};
ghost use Rattle.zarrs_array_bytes.specs.Offsets.{is_offsets, last_of};
ghost use Rattle.zarrs_array_bytes.specs.Pieces.{pieces_at, cuts_at, ends as ends_of};

use crate::runs::{bytes_of_cuts, bytes_of_runs};
use std::alloc::{AllocError, Global};
use zarrs_chunk::CodecError;

/// The bytes of the elements of `size` at the runs, one copy a run.
pub(crate) fn gather_pieces(
    alloc: Global,
    bytes: &[u8],
    size: usize,
    runs: &[(u64, u64)],
) -> Result<Vec<u8>, CodecError>
    requires inside { All (λ run. (run.0 + run.1) * size ≤ length bytes.now) runs.now }
    ensures small { IfOk result (λ v. length v.items < 2 ^ 64) }
    ensures exact { MakesItems result (pieces_at size bytes.now (joined_runs runs.now)) }
{
    let mut out = Vec::with_capacity(alloc, bytes_of_runs(runs, size))?;
    for run in runs {
        let from = run.0 as usize * size;
        let to = from + run.1 as usize * size;
        out.extend_from_slice(&bytes[from..to])?;
    }
    Ok(out)
}

/// The mask bytes at the runs.
pub(crate) fn gather_flags(
    alloc: Global,
    flags: &[u8],
    runs: &[(u64, u64)],
) -> Result<Vec<u8>, CodecError>
    requires inside { All (λ run. run.0 + run.1 ≤ length flags.now) runs.now }
    ensures exact { MakesItems result (map (slice_index flags.now) (joined_runs runs.now)) }
{
    gather_pieces(alloc, flags, 1, runs)
}

/// The bytes of the elements between the offsets at the runs, and their offsets: one copy of bytes and
/// one of offsets a run.
pub(crate) fn gather_cuts(
    alloc: Global,
    bytes: &[u8],
    offsets: &[usize],
    runs: &[(u64, u64)],
) -> Result<(Vec<u8>, Vec<usize>), CodecError>
    requires rising { is_offsets offsets.now ≡ true }
    requires ending { last_of offsets.now ≡ length bytes.now }
    requires inside { All (λ run. run.0 + run.1 < length offsets.now) runs.now }
    ensures small { IfOk result (λ parts. length parts.1.items < 2 ^ 64) }
    ensures exact { GivesCuts result (cuts_at offsets.now bytes.now (joined_runs runs.now)) }
{
    let mut out = Vec::with_capacity(alloc, bytes_of_cuts(runs, offsets))?;
    let mut ends = Vec::with_capacity(alloc, bytes_of_runs(runs, 1).saturating_add(1))?;
    ends.push(0)?;
    for run in runs {
        append_cuts(
            &mut out,
            &mut ends,
            bytes,
            offsets,
            run.0 as usize,
            run.1 as usize,
        )?;
    }
    Ok((out, ends))
}

/// Appends the bytes of the `count` elements from `first` on, one behind another, and
/// where each ends behind the bytes that are there already.
pub(crate) fn append_cuts(
    out: &mut Vec<u8>,
    ends: &mut Vec<usize>,
    bytes: &[u8],
    offsets: &[usize],
    first: usize,
    count: usize,
) -> Result<(), AllocError>
    requires rising { is_offsets offsets.now ≡ true }
    requires ending { last_of offsets.now ≡ length bytes.now }
    requires inside { first + count < length offsets.now }
    ensures bytes { Appends out.old out.new result (run_bytes offsets.now bytes.now first count) }
    ensures ends { OnOk result (ends.new.items ≡ ends.old.items ++ ends_of (length out.old.items)
        (map (cut offsets.now bytes.now) (range_with_len first count))) }
{
    let start = out.len();
    let from = offsets[first];
    out.extend_from_slice(bytes_of_run(bytes, offsets, first, count))?;
    append_moved(ends, &offsets[first + 1..first + count + 1], from, start)
}

/// The bytes of the `count` elements from `first` on.
#[tactic(auto, using(crate::proofs::RunLemmas::run_facts))]
fn bytes_of_run<'a>(bytes: &'a [u8], offsets: &[usize], first: usize, count: usize) -> &'a [u8]
    requires rising { is_offsets offsets.now ≡ true }
    requires ending { last_of offsets.now ≡ length bytes.now }
    requires inside { first + count < length offsets.now }
    ensures bytes { result.now ≡ run_bytes offsets.now bytes.now first count }
    ensures len { length result.now ≡ run_size offsets.now first count }
{
    &bytes[offsets[first]..offsets[first + count]]
}

/// Appends the offsets, counted from `start` where they were counted from `from`.
fn append_moved(
    out: &mut Vec<usize>,
    offsets: &[usize],
    from: usize,
    start: usize,
) -> Result<(), AllocError>
    requires above { All (λ offset. from ≤ offset) offsets.now }
    requires fits { All (λ offset. offset - from + start < 2 ^ 64) offsets.now }
    ensures appended { Appends out.old out.new result
        (map (λ offset. offset - from + start) offsets.now) }
{
    out.extend(offsets.iter().map(|offset| *offset - from + start))
}

/// The bytes between two offsets.
#[tactic(auto, using(crate::proofs::OffsetLemmas::offsets_facts))]
pub(crate) fn cut_of<'a>(bytes: &'a [u8], offsets: &[usize], place: usize) -> &'a [u8]
    requires rising { is_offsets offsets.now ≡ true }
    requires ending { last_of offsets.now ≡ length bytes.now }
    requires known { place < length offsets.now - 1 }
    ensures bytes { result.now ≡ cut offsets.now bytes.now place }
{
    &bytes[offsets[place]..offsets[place + 1]]
}
