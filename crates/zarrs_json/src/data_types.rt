//! Data types read from JSON.
ghost use Rattle.std.specs.Prelude.{◌≡◌, ok_or};
ghost use Rattle.serde_json.specs.View.{view};
ghost use Rattle.zarrs_chunk.specs.Answer.{seen};
ghost use Rattle.zarrs_data_type.specs.ElementType.{optional};
ghost use Rattle.zarrs_json.specs.Json.{members_seen, lent_object};
ghost use Rattle.zarrs_json.specs.Refusal.{ReadsJson};
ghost use Rattle.zarrs_json.specs.DataType.{type_named, number_at, truth_at, components_shown, components_alone, components_among, type_in};

use crate::refusal::Refusal;
use crate::trees::{Members, only_member};
use serde_json::Value;
use std::alloc::Global;
use zarrs_data_type::DataType;
use zarrs_metadata::member;

fn type_by_name(name: &str) -> Option<DataType>
    ensures value { result ≡ type_named name.now }
{
    match name {
        "bool" => Some(DataType::bool()),
        "int2" => Some(DataType::int2()),
        "int4" => Some(DataType::int4()),
        "int8" => Some(DataType::int8()),
        "int16" => Some(DataType::int16()),
        "int32" => Some(DataType::int32()),
        "int64" => Some(DataType::int64()),
        "uint2" => Some(DataType::uint2()),
        "uint4" => Some(DataType::uint4()),
        "uint8" => Some(DataType::uint8()),
        "uint16" => Some(DataType::uint16()),
        "uint32" => Some(DataType::uint32()),
        "uint64" => Some(DataType::uint64()),
        "string" => Some(DataType::string()),
        "bytes" => Some(DataType::bytes()),
        _ => None,
    }
}

fn number(members: &Members, key: &str) -> Result<u64, Refusal>
    ensures answer { result ≡ ok_or (number_at key.now (members_seen members.now)) Refusal.Syntax }
{
    match member(members, key) {
        Some(Value::Number(number)) => number.as_u64().ok_or(Refusal::Syntax),
        _ => Err(Refusal::Syntax),
    }
}

fn truth(members: &Members, key: &str) -> Result<bool, Refusal>
    ensures answer { result ≡ ok_or (truth_at key.now (members_seen members.now)) Refusal.Syntax }
{
    match member(members, key) {
        Some(Value::Bool(truth)) => Ok(*truth),
        _ => Err(Refusal::Syntax),
    }
}

#[tactic(auto, using(crate::proofs::JsonLemmas::member_count_of_view))]
fn components(members: &Members) -> Result<DataType, Refusal>
    ensures answer { result ≡ components_shown (members_seen members.now) }
{
    if members.len() != 3 {
        return Err(Refusal::Syntax);
    }
    let bits = number(members, "bits")?;
    let count = number(members, "count")?;
    let signed = truth(members, "signed")?;
    let data_type = DataType::components(bits, count, signed)?;
    Ok(data_type)
}

fn components_of(members: &Members) -> Result<&Members, Refusal>
    ensures answer { seen lent_object result ≡ components_alone (members_seen members.now) }
{
    match only_member(members, "components") {
        Some(Value::Object(inner)) => Ok(inner),
        _ => Err(Refusal::Syntax),
    }
}

fn several(members: &Members) -> Result<DataType, Refusal>
    ensures answer { ReadsJson result (components_among (members_seen members.now)) }
{
    components(components_of(members)?)
}

/// The type of elements that may be absent, by what was read of the type inside.
fn optional(alloc: Global, inner: Result<DataType, Refusal>) -> Result<DataType, Refusal>
    ensures answer { (expected : _) → ReadsJson inner expected
        → ReadsJson result (seen optional expected) }
{
    match inner {
        Ok(inner) => Ok(DataType::optional(alloc, inner)?),
        Err(refusal) => Err(refusal),
    }
}

/// The type that a tree names. Errors: `Syntax` where the tree names none; `BitRange` or `Overflow`
/// of components that are none; `OutOfMemory`.
pub fn data_type(alloc: Global, tree: &Value) -> Result<DataType, Refusal>
    ensures answer { ReadsJson result (type_in (view tree.now)) }
{
    match tree {
        Value::String(name) => type_by_name(name.as_str()).ok_or(Refusal::Syntax),
        Value::Object(members) => match only_member(members, "optional") {
            Some(inner) => optional(alloc, data_type(alloc, inner)),
            None => several(members),
        },
        _ => Err(Refusal::Syntax),
    }
}
