//! Edits read from JSON: new elements, and where they go.
ghost use Rattle.std.specs.Prelude.{◌≡◌};
ghost use Rattle.serde_json.specs.View.{view};
ghost use Rattle.zarrs_chunk.specs.Answer.{seen};
ghost use Rattle.zarrs_json.specs.Edit.{edit_at, edit_among as edit_of_members, edit_in, ReadsEdit};
ghost use Rattle.zarrs_json.specs.Json.{members_seen, needed_member};

use crate::element_lists::elements;
use crate::indexers::indexer;
use crate::refusal::Refusal;
use crate::trees::{Members, object};
use serde_json::Value;
use std::alloc::Global;
use zarrs_array_bytes::ArrayBytes;
use zarrs_chunk::Indexer;
use zarrs_data_type::DataType;
use zarrs_metadata::member;

/// New elements, and where they go.
#[derive(Debug, Drop)]
pub struct Edit {
    /// Where they go.
    pub indexer: Indexer<'static>,
    /// The new elements, in the indexer's order.
    pub elements: ArrayBytes<'static>,
}

fn value_at<'v>(members: &'v Members, key: &str) -> Result<&'v Value, Refusal>
    ensures answer { seen (λ v. view v.now) result ≡ needed_member key.now (members_seen members.now) }
{
    member(members, key).ok_or(Refusal::Syntax)
}

/// The indexer is read before the elements.
fn edit_of(alloc: Global, data_type: &DataType, at: &Value, items: &Value) -> Result<Edit, Refusal>
    ensures answer { ReadsEdit result (edit_at data_type.now (view at.now) (view items.now)) }
{
    let indexer = indexer(alloc, at)?;
    let elements = elements(alloc, data_type, items)?;
    Ok(Edit { indexer, elements })
}

#[tactic(auto, using(crate::proofs::JsonLemmas::member_count_of_view))]
fn edit_among(alloc: Global, data_type: &DataType, members: &Members) -> Result<Edit, Refusal>
    ensures answer { ReadsEdit result (edit_of_members data_type.now (members_seen members.now)) }
{
    if members.len() != 2 {
        return Err(Refusal::Syntax);
    }
    let at = value_at(members, "at")?;
    let items = value_at(members, "data")?;
    edit_of(alloc, data_type, at, items)
}

/// The edit of `{"at":INDEXER,"data":ELEMENTS}`. Errors: `Syntax` where the tree is no object with
/// these two keys alone; then those of the indexer, and then those of the elements; `OutOfMemory`.
pub fn read_edit(alloc: Global, data_type: &DataType, tree: &Value) -> Result<Edit, Refusal>
    ensures answer { ReadsEdit result (edit_in data_type.now (view tree.now)) }
{
    let members = object(tree)?;
    edit_among(alloc, data_type, members)
}
