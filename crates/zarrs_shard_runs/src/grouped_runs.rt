//! Runs of places of a shard, as runs of places in its inner chunks.
ghost use Rattle.std.specs.Prelude.{◌≡◌, ◌≢◌, ◌+◌, ◌<◌, ◌≤◌, ◌^◌, ℕ, All, IfOk, IfSome, get_or, length, map, true};
ghost use Rattle.std.specs.List.{flat_map};
ghost use Rattle.std.specs.List.Sorted.{IsNonDecreasingBy};
ghost use Rattle.zarrs_chain_meaning.specs.sharding.InnerChunks.{is_divided};
ghost use Rattle.zarrs_chunk.specs.ChunkShape.{product};
ghost use Rattle.zarrs_chunk.specs.Runs.{AreApart, AreFilled, EndWithin, joined_runs};
ghost use Rattle.zarrs_shard_runs.specs.CutRuns.{places_of_cut};
ghost use Rattle.zarrs_shard_runs.specs.GroupedRuns.{AreGroups, IsReadingOrder, group, order_places};
ghost use Rattle.zarrs_shard_runs.specs.Groups.{AreGrouped};
ghost use Rattle.zarrs_shard_runs.specs.declared.cut_runs.CutRun.{CutRun};

use crate::cut_runs::{CutRun, cut_runs};
use crate::one_inner_chunk::runs_of_one;
use crate::reading_order::{append_run, join_neighbours, spans};
use std::alloc::{AllocError, Global};
use zarrs_chunk::ChunkShape;

/// An inner chunk, and runs of places in it.
#[derive(Debug, Drop)]
pub struct InnerRuns {
    /// The inner chunk's number, row by row.
    pub number: u64,
    /// Runs of a start and a length, of places in the inner chunk.
    pub runs: Vec<(u64, u64)>,
}

/// Runs of places of a shard, by inner chunks.
#[derive(Debug, Drop)]
pub struct GroupedRuns {
    /// The inner chunks that have any of the places, in the order of their numbers.
    pub groups: Vec<InnerRuns>,
    /// Where the elements of the places stand behind one another among those of the groups, as runs;
    /// `None` where that is their order.
    pub order: Option<Vec<(u64, u64)>>,
}

/// Whether the numbers of the inner chunks don't fall.
fn are_in_order(cuts: &[CutRun]) -> bool
    ensures value { result ≡ true → IsNonDecreasingBy (λ it. it.number) cuts.now }
{
    for index in 1..cuts.len() {
        if cuts[index].number < cuts[index - 1].number {
            return false;
        }
    }
    true
}

/// How many of the first cut runs are of one inner chunk.
fn group_len(cuts: &[CutRun]) -> usize
    requires some { 0 < length cuts.now }
    ensures some { 0 < result }
    ensures within { result ≤ length cuts.now }
    ensures same { (k : ℕ) (d : CutRun) → k < result
        → (get_or cuts.now k d).number ≡ (get_or cuts.now 0 d).number }
    ensures longest { (d : CutRun) → result < length cuts.now
        → (get_or cuts.now result d).number ≢ (get_or cuts.now 0 d).number }
{
    for index in 1..cuts.len() {
        if cuts[index].number != cuts[0].number {
            return index;
        }
    }
    cuts.len()
}

/// The places of cut runs of one inner chunk, as runs.
fn inner_runs(alloc: Global, cuts: &[CutRun]) -> Result<Vec<(u64, u64)>, AllocError>
    requires filled { All (λ it. 0 < it.len) cuts.now }
    requires fits { All (λ it. it.start + it.len < 2 ^ 64) cuts.now }
    ensures places { IfOk result
        (λ runs. joined_runs runs.items ≡ flat_map places_of_cut cuts.now) }
    ensures filled { IfOk result (λ runs. AreFilled runs.items) }
    ensures apart { IfOk result (λ runs. AreApart runs.items) }
    ensures inside { (limit : ℕ) → All (λ it. it.start + it.len ≤ limit) cuts.now
        → IfOk result (λ runs. EndWithin limit runs.items) }
{
    let mut runs = Vec::with_capacity(alloc, cuts.len())?;
    for cut in cuts {
        append_run(&mut runs, cut.start, cut.len)?;
    }
    Ok(runs)
}

/// The inner chunks of cut runs that are in the order of their numbers.
fn groups(alloc: Global, cuts: &[CutRun]) -> Result<Vec<InnerRuns>, AllocError>
    requires sorted { IsNonDecreasingBy (λ it. it.number) cuts.now }
    requires filled { All (λ it. 0 < it.len) cuts.now }
    requires fits { All (λ it. it.start + it.len < 2 ^ 64) cuts.now }
    ensures groups { IfOk result (λ v. AreGrouped cuts.now (map group v.items)) }
    ensures filled { IfOk result (λ v. All (λ it. AreFilled it.runs.items) v.items) }
    ensures apart { IfOk result (λ v. All (λ it. AreApart it.runs.items) v.items) }
    ensures inside { (limit : ℕ) → All (λ it. it.start + it.len ≤ limit) cuts.now
        → IfOk result (λ v. All (λ it. EndWithin limit it.runs.items) v.items) }
{
    let mut groups = Vec::new(alloc);
    let mut at = 0;
    while at < cuts.len() {
        let end = at + group_len(&cuts[at..]);
        let number = cuts[at].number;
        let runs = inner_runs(alloc, &cuts[at..end])?;
        groups.push(InnerRuns { number, runs })?;
        at = end;
    }
    Ok(groups)
}

/// The runs by inner chunks, cut where they leave one and sorted where these aren't in their order.
fn group_cuts(
    alloc: Global,
    inner: &ChunkShape,
    shape: &ChunkShape,
    runs: &[(u64, u64)],
) -> Result<GroupedRuns, AllocError>
    requires divided { is_divided inner.now shape.now ≡ true }
    requires counted { product shape.now < 2 ^ 64 }
    requires filled { AreFilled runs.now }
    requires inside { EndWithin (product shape.now) runs.now }
    requires count { length (joined_runs runs.now) < 2 ^ 64 }
    ensures groups { IfOk result
        (λ it. AreGroups inner.now shape.now (joined_runs runs.now) it.groups.items) }
    ensures order { IfOk result (λ it. IsReadingOrder inner.now shape.now (joined_runs runs.now)
        (order_places (length (joined_runs runs.now)) it.order)) }
    ensures order_inside { IfOk result (λ it. IfSome it.order
        (λ order. EndWithin (length (joined_runs runs.now)) order.items)) }
    ensures order_apart { IfOk result (λ it. IfSome it.order (λ order. AreApart order.items)) }
{
    let mut cuts = cut_runs(alloc, inner.as_slice(), shape.as_slice(), runs)?;
    if are_in_order(cuts.as_slice()) {
        let groups = groups(alloc, cuts.as_slice())?;
        return Ok(GroupedRuns {
            groups,
            order: None,
        });
    }
    cuts.sort_by_key(|cut| cut.number)?;
    let groups = groups(alloc, cuts.as_slice())?;
    let spans = spans(alloc, cuts.as_slice())?;
    let order = join_neighbours(alloc, spans.as_slice())?;
    Ok(GroupedRuns {
        groups,
        order: Some(order),
    })
}

/// The runs by inner chunks of the shape `inner`, which divides `shape`. Errors: `AllocError`.
pub fn group_runs(
    alloc: Global,
    inner: &ChunkShape,
    shape: &ChunkShape,
    runs: &[(u64, u64)],
) -> Result<GroupedRuns, AllocError>
    requires divided { is_divided inner.now shape.now ≡ true }
    requires counted { product shape.now < 2 ^ 64 }
    requires filled { AreFilled runs.now }
    requires inside { EndWithin (product shape.now) runs.now }
    requires count { length (joined_runs runs.now) < 2 ^ 64 }
    ensures groups { IfOk result
        (λ it. AreGroups inner.now shape.now (joined_runs runs.now) it.groups.items) }
    ensures order { IfOk result (λ it. IsReadingOrder inner.now shape.now (joined_runs runs.now)
        (order_places (length (joined_runs runs.now)) it.order)) }
    ensures order_inside { IfOk result (λ it. IfSome it.order
        (λ order. EndWithin (length (joined_runs runs.now)) order.items)) }
    ensures order_apart { IfOk result (λ it. IfSome it.order (λ order. AreApart order.items)) }
{
    if let Some(only) = runs_of_one(alloc, inner.as_slice(), shape.as_slice(), runs)? {
        let mut groups = Vec::with_capacity(alloc, 1)?;
        groups.push(only)?;
        return Ok(GroupedRuns {
            groups,
            order: None,
        });
    }
    group_cuts(alloc, inner, shape, runs)
}
