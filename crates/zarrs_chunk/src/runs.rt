//! Runs of consecutive places.
ghost use Rattle.std.specs.Prelude.{◌≡◌, ◌≢◌, ◌<◌, ◌≤◌, ◌+◌, ◌-◌, ◌^◌, ◌∷◌, [], ℕ, length, min, take, slice_index, true, IfOk, OnOk, Ok, ◌↔◌};
ghost use Rattle.std.specs.List.{range_with_len};
ghost use Rattle.zarrs_chunk.specs.Answer.{Gives};
ghost use Rattle.zarrs_chunk.specs.Runs.{joined_runs, places_in, AreFilled, StayWithin, AreApart, AddsPlaces, EndsBelow};

use crate::codec_error::CodecError;
use std::alloc::{AllocError, Global};

/// Whether the second place is the next one after the first.
fn follows(place: u64, next: u64) -> bool
    ensures value { result ≡ true ↔ next ≡ place + 1 }
{
    next > place && next - place == 1
}

/// How many of the first places follow one another.
fn run_length(places: &[u64]) -> usize
    requires some { 0 < length places.now }
    ensures some { 0 < result }
    ensures within { result ≤ length places.now }
    ensures run { take result places.now ≡ range_with_len (slice_index places.now 0) result }
    ensures longest { result < length places.now
        → slice_index places.now result ≢ slice_index places.now (result - 1) + 1 }
{
    for index in 1..places.len() {
        if !follows(places[index - 1], places[index]) {
            return index;
        }
    }
    places.len()
}

/// How many runs these places make: one for each place that doesn't follow the one before it.
fn count_runs(places: &[u64]) -> usize
    ensures within { result ≤ length places.now }
{
    let mut count = 0;
    for index in 0..places.len() {
        if index == 0 || !follows(places[index - 1], places[index]) {
            count += 1;
        }
    }
    count
}

/// How many places the runs have, or `u64::MAX` where they have more.
pub fn count_places(runs: &[(u64, u64)]) -> u64
    ensures count { result ≡ min (length (joined_runs runs.now)) (2 ^ 64 - 1) }
{
    let mut count: u64 = 0;
    for (_, len) in runs {
        count = count.saturating_add(*len);
    }
    count
}

/// One place more behind those of the runs: the last run grows where the place follows it.
pub fn append_place(runs: &mut Vec<(u64, u64)>, place: u64) -> Result<(), AllocError>
    requires room { place + 1 < 2 ^ 64 }
    ensures places { AddsPlaces runs.old runs.new result (place ∷ []) }
    ensures filled { OnOk result (AreFilled runs.old.items → AreFilled runs.new.items) }
    ensures below { (limit : ℕ) → place < limit
        → OnOk result (StayWithin limit runs.old.items runs.new.items) }
    ensures apart { OnOk result (AreApart runs.old.items → AreApart runs.new.items) }
{
    let count = runs.len();
    if count > 0 {
        let (start, len) = runs[count - 1];
        if place >= start && place - start == len {
            runs[count - 1] = (start, len + 1);
            return Ok(());
        }
    }
    runs.push((place, 1))?;
    Ok(())
}

/// These places in runs of a start and a length, in their order. Neighbours that follow one another
/// are one run, so there are no more runs than places, none is empty, and none starts where the one
/// before it ends. Errors: `OutOfMemory`.
pub fn runs_of_places(alloc: Global, places: &[u64]) -> Result<Vec<(u64, u64)>, CodecError>
    ensures places { Gives places_in result (Ok places.now) }
    ensures filled { IfOk result (λ v. AreFilled v.items) }
    ensures below { EndsBelow places.now result }
    ensures count { IfOk result (λ v. length v.items ≤ length places.now) }
    ensures apart { IfOk result (λ v. AreApart v.items) }
{
    let mut runs = Vec::with_capacity(alloc, count_runs(places))?;
    let mut at = 0;
    while at < places.len() {
        let len = run_length(&places[at..]);
        runs.push((places[at], len as u64))?;
        at += len;
    }
    Ok(runs)
}
