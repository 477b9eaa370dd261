//! Indexers read from JSON.
ghost use Rattle.std.specs.Prelude.{◌≡◌};
ghost use Rattle.serde_json.specs.View.{view, items_view};
ghost use Rattle.zarrs_chunk.specs.Indexer.{selection_of};
ghost use Rattle.zarrs_chunk.specs.Selection.{tuples_seen};
ghost use Rattle.zarrs_json.specs.Refusal.{ReadsJson, ReadsAs, ReadsItems};
ghost use Rattle.zarrs_json.specs.Indexer.{range_between, range_in, ranges_in, tuples_shown, ranges_selection, indices_selection, selection_shown};

use crate::refusal::Refusal;
use crate::trees::{numbers, object, only_member};
use serde_json::Value;
use std::alloc::Global;
use std::ops::Range;
use zarrs_chunk::{ArrayIndices, ArraySubset, Indexer};

fn between(ends: &[u64]) -> Option<Range<u64>>
    ensures value { result ≡ range_between ends.now }
{
    match ends {
        [start, end] => Some(*start..*end),
        _ => None,
    }
}

fn range(alloc: Global, tree: &Value) -> Result<Range<u64>, Refusal>
    ensures answer { ReadsJson result (range_in (view tree.now)) }
{
    let ends = numbers(alloc, tree)?;
    between(&ends).ok_or(Refusal::Syntax)
}

fn ranges_among(alloc: Global, items: &Vec<Value>) -> Result<Vec<Range<u64>>, Refusal>
    ensures answer { ReadsItems result (ranges_in (items_view items.now.items)) }
{
    let mut ranges = Vec::new(alloc);
    for item in items {
        let range = range(alloc, item)?;
        ranges.push(range)?;
    }
    Ok(ranges)
}

fn tuples_among(alloc: Global, list: &Vec<Value>) -> Result<Vec<ArrayIndices>, Refusal>
    ensures answer { ReadsAs (λ v. tuples_seen v.items) result
        (tuples_shown (items_view list.now.items)) }
{
    let mut tuples = Vec::new(alloc);
    for item in list {
        let tuple = numbers(alloc, item)?;
        tuples.push(tuple)?;
    }
    Ok(tuples)
}

fn subset<'b>(alloc: Global, tree: &Value) -> Result<Indexer<'b>, Refusal>
    ensures answer { ReadsAs selection_of result (ranges_selection (view tree.now)) }
{
    let Value::Array(items) = tree else {
        return Err(Refusal::Syntax);
    };
    let ranges = ranges_among(alloc, items)?;
    let subset = ArraySubset::new_with_ranges(alloc, &ranges)?;
    Ok(Indexer::Subset(subset))
}

fn indices<'b>(alloc: Global, tree: &Value) -> Result<Indexer<'b>, Refusal>
    ensures answer { ReadsAs selection_of result (indices_selection (view tree.now)) }
{
    match tree {
        Value::Array(items) => Ok(Indexer::Indices(tuples_among(alloc, items)?)),
        _ => Err(Refusal::Syntax),
    }
}

/// The indexer of `{"ranges":[[start,end],..]}` or `{"indices":[[..],..]}`. Errors: `Syntax` where
/// the tree is anything else; then `ReversedRange` where a range ends before it starts;
/// `OutOfMemory`.
pub fn indexer<'b>(alloc: Global, tree: &Value) -> Result<Indexer<'b>, Refusal>
    ensures answer { ReadsAs selection_of result (selection_shown (view tree.now)) }
{
    let members = object(tree)?;
    if let Some(ranges) = only_member(members, "ranges") {
        return subset(alloc, ranges);
    }
    match only_member(members, "indices") {
        Some(tuples) => indices(alloc, tuples),
        None => Err(Refusal::Syntax),
    }
}
