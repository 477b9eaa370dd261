//! JSON texts read and shown.
ghost use Rattle.std.specs.Prelude.{◌≡◌, ok_or, IfOk, false};
ghost use Rattle.serde_json.specs.Data.{string};
ghost use Rattle.serde_json.specs.Written.{has_float};
ghost use Rattle.serde_json.specs.View.{view, items_view};
ghost use Rattle.serde_json.specs.Find.{as_object};
ghost use Rattle.zarrs_chunk.specs.Answer.{seen};
ghost use Rattle.zarrs_metadata.specs.Trees.{lent_tree, whole_number};
ghost use Rattle.zarrs_json.specs.Refusal.{ReadsAs, ReadsItems};
ghost use Rattle.zarrs_json.specs.Json.{members_seen, lent_object, tree_of, number_list_shown, numbers_shown, hex_of, only_member as only_member_of, ok_line as line_of, hex_tree as hex_tree_of, lone_item};

use crate::refusal::Refusal;
use hex::FromHexError;
use json::Writer;
use serde_json::{Map, Value};
use std::alloc::{AllocError, Global};
use zarrs_metadata::{holds_float, member};

/// The members of a JSON object.
pub type Members = Map<String, Value>;

/// The tree of a text. Of values of one key in an object the last one stands, and the others are no
/// part of the tree. Errors: `Syntax` where the text isn't UTF-8, isn't one JSON value, or its
/// tree has a float at any depth; `OutOfMemory`.
pub fn tree(alloc: Global, text: &[u8]) -> Result<Value, Refusal>
    ensures answer { ReadsAs view result (tree_of text.now) }
{
    match Value::from_slice(alloc, text) {
        Ok(tree) => {
            if holds_float(&tree) {
                Err(Refusal::Syntax)
            } else {
                Ok(tree)
            }
        }
        Err(error) => {
            if error.is_memory() {
                Err(AllocError.into())
            } else {
                Err(Refusal::Syntax)
            }
        }
    }
}

/// The members of an object. Errors: `Syntax` for any other tree.
pub fn object(tree: &Value) -> Result<&Members, Refusal>
    ensures answer { seen lent_object result ≡ ok_or (as_object (view tree.now)) Refusal.Syntax }
{
    match tree {
        Value::Object(members) => Ok(members),
        _ => Err(Refusal::Syntax),
    }
}

/// The value at a key of an object that has no other key.
pub fn only_member<'v>(members: &'v Members, name: &str) -> Option<&'v Value>
    ensures value { lent_tree result ≡ only_member_of name.now (members_seen members.now) }
{
    if members.len() == 1 {
        member(members, name)
    } else {
        None
    }
}

/// The only item of a list.
pub fn lone(items: &Vec<Value>) -> Option<&Value>
    ensures value { lent_tree result ≡ lone_item (items_view items.now.items) }
{
    if items.len() == 1 {
        Some(&items[0])
    } else {
        None
    }
}

fn number(tree: &Value) -> Result<u64, Refusal>
    ensures answer { result ≡ ok_or (whole_number (view tree.now)) Refusal.Syntax }
{
    tree.as_u64().ok_or(Refusal::Syntax)
}

fn numbers_among(alloc: Global, items: &Vec<Value>) -> Result<Vec<u64>, Refusal>
    ensures answer { ReadsItems result (numbers_shown (items_view items.now.items)) }
{
    let mut numbers = Vec::new(alloc);
    for item in items {
        let number = number(item)?;
        numbers.push(number)?;
    }
    Ok(numbers)
}

/// The whole numbers of a list. Errors: `Syntax` where the tree is anything else; `OutOfMemory`.
pub fn numbers(alloc: Global, tree: &Value) -> Result<Vec<u64>, Refusal>
    ensures answer { ReadsItems result (number_list_shown (view tree.now)) }
{
    match tree {
        Value::Array(items) => numbers_among(alloc, items),
        _ => Err(Refusal::Syntax),
    }
}

/// The bytes of a hex text. Errors: `Syntax` where the tree is anything else; `OutOfMemory`.
pub fn hex_bytes(alloc: Global, tree: &Value) -> Result<Vec<u8>, Refusal>
    ensures answer { ReadsItems result (ok_or (hex_of (view tree.now)) Refusal.Syntax) }
{
    match tree {
        Value::String(text) => match hex::decode(alloc, text.as_str()) {
            Ok(bytes) => Ok(bytes),
            Err(FromHexError::OutOfMemory) => Err(AllocError.into()),
            Err(_) => Err(Refusal::Syntax),
        },
        _ => Err(Refusal::Syntax),
    }
}

/// The answer that shows a tree without floats. It fails only for lack of memory.
pub fn ok_line(alloc: Global, tree: &Value) -> Result<Vec<u8>, AllocError>
    requires no_float { has_float (view tree.now) ≡ false }
    ensures value { IfOk result (λ line. line.items ≡ line_of (view tree.now)) }
{
    let mut line = Vec::from_slice(alloc, b"ok ")?;
    let text = tree.to_vec(alloc)?;
    line.extend_from_slice(&text)?;
    Ok(line)
}

/// The answer that shows a text. It fails only for lack of memory.
#[tactic(auto, using(crate::proofs::JsonLemmas::print_text))]
fn ok_text(alloc: Global, text: &str) -> Result<Vec<u8>, AllocError>
    ensures value { IfOk result (λ line. line.items ≡ line_of (string text.now)) }
{
    let mut line = Vec::with_capacity(alloc, text.len().saturating_add(5))?;
    line.extend_from_slice(b"ok ")?;
    let mut writer = Writer::new(line);
    writer.string(text)?;
    Ok(writer.into_inner())
}

/// The answer that shows bytes, in hex of lower case. It fails only for lack of memory.
pub fn ok_hex(alloc: Global, bytes: &[u8]) -> Result<Vec<u8>, AllocError>
    ensures value { IfOk result (λ line. line.items ≡ line_of (hex_tree_of bytes.now)) }
{
    let text = hex::encode(alloc, bytes)?;
    ok_text(alloc, &text)
}
