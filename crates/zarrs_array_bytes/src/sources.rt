//! Elements of any length replaced at runs in any order.
ghost use Rattle.std.specs.Prelude.{◌≡◌, ◌+◌, ◌≤◌, ◌-◌, ◌<◌, ◌^◌, All, IfOk, length, map, true};
ghost use Rattle.std.specs.List.{range_with_len};
ghost use Rattle.zarrs_chunk.specs.Runs.{joined_runs};
ghost use Rattle.zarrs_array_bytes.specs.Elements.{cut};
ghost use Rattle.zarrs_array_bytes.specs.Given.{MakesItems, UpdatesCuts, GivesCuts};
ghost use Rattle.zarrs_array_bytes.specs.Offsets.{is_offsets, last_of};
ghost use Rattle.zarrs_array_bytes.specs.Sources.{IsSourceOf, AreSources, source_bytes};
ghost use Rattle.zarrs_array_bytes.specs.Update.{update};
ghost use Rattle.zarrs_array_bytes.specs.Pieces.{bytes_with_offsets};

use crate::gather::cut_of;
use crate::runs::places_of_runs;
use crate::splice::{are_rising, splice_cuts};
use std::alloc::Global;
use zarrs_chunk::CodecError;

/// Where an element of an updated container comes from: a place of the old elements, or of the new
/// ones.
#[derive(Clone, Copy, Drop)]
enum Source {
    Old(usize),
    New(usize),
}

/// The bytes between the offsets, with those of the elements at the runs replaced by the new ones in
/// order, and where each then begins and ends.
pub(crate) fn written_cuts(
    alloc: Global,
    old: &[u8],
    old_offsets: &[usize],
    new: &[u8],
    new_offsets: &[usize],
    runs: &[(u64, u64)],
) -> Result<(Vec<u8>, Vec<usize>), CodecError>
    requires old_rising { is_offsets old_offsets.now ≡ true }
    requires old_ending { last_of old_offsets.now ≡ length old.now }
    requires new_rising { is_offsets new_offsets.now ≡ true }
    requires new_ending { last_of new_offsets.now ≡ length new.now }
    requires inside { All (λ run. run.0 + run.1 ≤ length old_offsets.now - 1) runs.now }
    requires enough { length new_offsets.now ≡ length (joined_runs runs.now) + 1 }
    ensures exact { UpdatesCuts old_offsets.now old.now new_offsets.now new.now runs.now result }
{
    if are_rising(runs) {
        return splice_cuts(alloc, old, old_offsets, new, new_offsets, runs);
    }
    let places = places_of_runs(alloc, runs)?;
    let from = sources_of(alloc, old_offsets.len() - 1, places.as_slice())?;
    gather_sources(alloc, old, old_offsets, new, new_offsets, from.as_slice())
}

/// For each of `count` places, where its element comes from after writes at these places.
fn sources_of(alloc: Global, count: usize, places: &[u64]) -> Result<Vec<Source>, CodecError>
    requires inside { All (λ place. place < count) places.now }
    ensures exact { MakesItems result (update (map Source.Old (range_with_len 0 count))
        places.now (map Source.New (range_with_len 0 (length places.now)))) }
{
    let mut from = Vec::with_capacity(alloc, count)?;
    for place in 0..count {
        from.push(Source::Old(place))?;
    }
    let mut next = 0;
    for place in places {
        from[*place as usize] = Source::New(next);
        next += 1;
    }
    Ok(from)
}

/// The bytes between the offsets at these sources, and where each then begins and ends.
fn gather_sources(
    alloc: Global,
    old: &[u8],
    old_offsets: &[usize],
    new: &[u8],
    new_offsets: &[usize],
    from: &[Source],
) -> Result<(Vec<u8>, Vec<usize>), CodecError>
    requires old_rising { is_offsets old_offsets.now ≡ true }
    requires old_ending { last_of old_offsets.now ≡ length old.now }
    requires new_rising { is_offsets new_offsets.now ≡ true }
    requires new_ending { last_of new_offsets.now ≡ length new.now }
    requires known { AreSources old_offsets.now new_offsets.now from.now }
    ensures exact { GivesCuts result (bytes_with_offsets
        (source_bytes (cut old_offsets.now old.now) (cut new_offsets.now new.now)) from.now) }
{
    let room = bytes_of_sources(old, old_offsets, new, new_offsets, from);
    let mut out = Vec::with_capacity(alloc, room)?;
    let mut ends = Vec::with_capacity(alloc, from.len().saturating_add(1))?;
    ends.push(0)?;
    for source in from {
        out.extend_from_slice(bytes_at(old, old_offsets, new, new_offsets, *source))?;
        ends.push(out.len())?;
    }
    Ok((out, ends))
}

/// How many bytes to reserve for the elements at these sources.
fn bytes_of_sources(
    old: &[u8],
    old_offsets: &[usize],
    new: &[u8],
    new_offsets: &[usize],
    from: &[Source],
) -> usize
    requires old_rising { is_offsets old_offsets.now ≡ true }
    requires old_ending { last_of old_offsets.now ≡ length old.now }
    requires new_rising { is_offsets new_offsets.now ≡ true }
    requires new_ending { last_of new_offsets.now ≡ length new.now }
    requires known { AreSources old_offsets.now new_offsets.now from.now }
{
    let mut len: usize = 0;
    for source in from {
        let part = bytes_at(old, old_offsets, new, new_offsets, *source);
        len = len.saturating_add(part.len());
    }
    len
}

/// The bytes of the element at a source.
fn bytes_at<'a>(
    old: &'a [u8],
    old_offsets: &[usize],
    new: &'a [u8],
    new_offsets: &[usize],
    source: Source,
) -> &'a [u8]
    requires old_rising { is_offsets old_offsets.now ≡ true }
    requires old_ending { last_of old_offsets.now ≡ length old.now }
    requires new_rising { is_offsets new_offsets.now ≡ true }
    requires new_ending { last_of new_offsets.now ≡ length new.now }
    requires known { IsSourceOf (length old_offsets.now - 1) (length new_offsets.now - 1) source }
    ensures bytes { result.now
        ≡ source_bytes (cut old_offsets.now old.now) (cut new_offsets.now new.now) source }
{
    match source {
        Source::Old(place) => cut_of(old, old_offsets, place),
        Source::New(place) => cut_of(new, new_offsets, place),
    }
}
