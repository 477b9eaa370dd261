//! In which order what is read of inner chunks is the answer.
ghost use Rattle.std.specs.Prelude.{◌≡◌, ◌+◌, ◌-◌, ◌<◌, ◌≤◌, ◌^◌, ℕ, IfOk, OnOk, length};
ghost use Rattle.std.specs.List.{range_with_len};
ghost use Rattle.zarrs_chunk.specs.Runs.{AddsPlaces, AreApart, AreFilled, EndWithin, StayWithin, joined_runs};
ghost use Rattle.zarrs_shard_runs.specs.CutRuns.{cells};
ghost use Rattle.zarrs_shard_runs.specs.Groups.{AreIndexed, AreSpans};

use crate::cut_runs::CutRun;
use std::alloc::{AllocError, Global};

/// One run more behind the others: the last one grows where this one begins at its end.
pub(crate) fn append_run(runs: &mut Vec<(u64, u64)>, start: u64, len: u64) -> Result<(), AllocError>
    requires fits { start + len < 2 ^ 64 }
    ensures places { AddsPlaces runs.old runs.new result (range_with_len start len) }
    ensures filled { OnOk result (0 < len → AreFilled runs.old.items → AreFilled runs.new.items) }
    ensures below { (limit : ℕ) → start + len ≤ limit
        → OnOk result (StayWithin limit runs.old.items runs.new.items) }
    ensures apart { OnOk result (AreApart runs.old.items → AreApart runs.new.items) }
{
    let count = runs.len();
    if count > 0 {
        let (first, before) = runs[count - 1];
        if start >= first && start - first == before {
            runs[count - 1] = (first, before + len);
            return Ok(());
        }
    }
    runs.push((start, len))?;
    Ok(())
}

/// The same places in as few runs, neighbours joined where one begins at the other's end.
pub(crate) fn join_neighbours(
    alloc: Global,
    runs: &[(u64, u64)],
) -> Result<Vec<(u64, u64)>, AllocError>
    requires fits { EndWithin (2 ^ 64 - 1) runs.now }
    ensures places { IfOk result (λ v. joined_runs v.items ≡ joined_runs runs.now) }
    ensures below { (limit : ℕ) → EndWithin limit runs.now
        → IfOk result (λ v. EndWithin limit v.items) }
    ensures apart { IfOk result (λ v. AreApart v.items) }
{
    let mut joined = Vec::new(alloc);
    for (start, len) in runs {
        append_run(&mut joined, *start, *len)?;
    }
    Ok(joined)
}

/// Where the places of each cut run stand among those of all in the order given, by its index.
pub(crate) fn spans(alloc: Global, sorted: &[CutRun]) -> Result<Vec<(u64, u64)>, AllocError>
    requires indexed { AreIndexed sorted.now }
    requires fits { length (cells sorted.now) < 2 ^ 64 }
    ensures count { IfOk result (λ v. length v.items ≡ length sorted.now) }
    ensures spans { IfOk result (λ v. AreSpans sorted.now v.items) }
    ensures inside { IfOk result (λ v. EndWithin (length (cells sorted.now)) v.items) }
{
    let mut spans = vec![in alloc; (0, 0); sorted.len()]?;
    let mut at = 0;
    for cut in sorted {
        spans[cut.index] = (at, cut.len);
        at += cut.len;
    }
    Ok(spans)
}
