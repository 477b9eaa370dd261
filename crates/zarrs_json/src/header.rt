//! What a header says: a chunk's shape, type and fill value, and the codecs that it goes through.
ghost use Rattle.serde_json.specs.View.{members_view};
ghost use Rattle.zarrs_metadata.specs.Trees.{lent_tree};
ghost use Rattle.zarrs_chain.specs.ChainView.{plain_chain};
ghost use Rattle.zarrs_json.specs.Refusal.{ReadsJson, ReadsAs};
ghost use Rattle.zarrs_json.specs.Header.{shape_at, data_type_at, fill_value_at, codecs_at, header_in, line_header, line_codecs};
ghost use Rattle.zarrs_json.specs.HeaderRead.{header_seen};

use crate::data_types::data_type;
use crate::known_bytes_codec::KnownBytesCodec;
use crate::known_maker::KnownMaker;
use crate::refusal::Refusal;
use crate::trees::{Members, hex_bytes, numbers, object, tree};
use serde_json::Value;
use std::alloc::Global;
use zarrs_chain::CodecChain;
use zarrs_chunk::ChunkShape;
use zarrs_data_type::{DataType, FillValue};
use zarrs_metadata::member;

/// A chunk's shape, the type of its elements and its fill value, and the chain of codecs that it goes
/// through, which takes such chunks where [`read_header`] made this.
#[derive(Debug, Drop)]
pub struct ChunkHeader {
    pub chain: CodecChain<KnownBytesCodec>,
    pub shape: ChunkShape,
    pub data_type: DataType,
    pub fill_value: FillValue,
}

fn shape(alloc: Global, tree: Option<&Value>) -> Result<ChunkShape, Refusal>
    ensures answer { ReadsJson result (shape_at (lent_tree tree.entry)) }
{
    let Some(tree) = tree else {
        return Err(Refusal::Syntax);
    };
    let sizes = numbers(alloc, tree)?;
    ChunkShape::new(sizes).ok_or(Refusal::Syntax)
}

fn named_type(alloc: Global, tree: Option<&Value>) -> Result<DataType, Refusal>
    ensures answer { ReadsJson result (data_type_at (lent_tree tree.entry)) }
{
    match tree {
        Some(tree) => data_type(alloc, tree),
        None => Err(Refusal::Syntax),
    }
}

fn fill_value(alloc: Global, tree: Option<&Value>) -> Result<FillValue, Refusal>
    ensures answer { ReadsJson result (fill_value_at (lent_tree tree.entry)) }
{
    let Some(tree) = tree else {
        return Err(Refusal::Syntax);
    };
    let bytes = hex_bytes(alloc, tree)?;
    Ok(FillValue::new(bytes))
}

fn codecs(
    alloc: Global,
    maker: &KnownMaker,
    tree: Option<&Value>,
) -> Result<CodecChain<KnownBytesCodec>, Refusal>
    ensures answer { ReadsAs plain_chain result (codecs_at maker.now (lent_tree tree.entry)) }
{
    match tree {
        Some(tree) => Ok(CodecChain::from_value(alloc, tree, maker)?),
        None => Err(Refusal::Syntax),
    }
}

fn header_among(alloc: Global, maker: &KnownMaker, keys: &Members) -> Result<ChunkHeader, Refusal>
    ensures answer { ReadsAs header_seen result
        (header_in maker.now (members_view keys.now.entries)) }
{
    let shape = shape(alloc, member(keys, "shape"))?;
    let data_type = named_type(alloc, member(keys, "data_type"))?;
    let fill_value = fill_value(alloc, member(keys, "fill_value"))?;
    let chain = codecs(alloc, maker, member(keys, "codecs"))?;
    chain.encoded_representation(alloc, &shape, &data_type, &fill_value)?;
    Ok(ChunkHeader {
        chain,
        shape,
        data_type,
        fill_value,
    })
}

/// The header that a text is: a JSON object with the chunk's `shape`, a list of sizes none of which is
/// zero, its `data_type`, its `fill_value`, in hex, and `codecs`, a list of metadata whose
/// bytes-to-bytes codecs `maker` makes. Other keys are passed over.
///
/// Errors, the first that holds: `Syntax` where the text is no JSON object; those of its `shape`,
/// `data_type`, `fill_value` and `codecs`, in this order, where one doesn't read; those of the
/// chain's representation; `OutOfMemory`.
pub fn read_header(alloc: Global, maker: &KnownMaker, text: &[u8]) -> Result<ChunkHeader, Refusal>
    ensures answer { ReadsAs header_seen result (line_header maker.now text.now) }
{
    let tree = tree(alloc, text)?;
    let members = object(&tree)?;
    header_among(alloc, maker, members)
}

/// The chain that a text lists: a JSON list of metadata, as the `codecs` of a header. Errors:
/// `Syntax` where the text is no JSON list; those of the chain's construction; `OutOfMemory`.
pub fn read_codecs(
    alloc: Global,
    maker: &KnownMaker,
    text: &[u8],
) -> Result<CodecChain<KnownBytesCodec>, Refusal>
    ensures answer { ReadsAs plain_chain result (line_codecs maker.now text.now) }
{
    let tree = tree(alloc, text)?;
    codecs(alloc, maker, Some(&tree))
}
