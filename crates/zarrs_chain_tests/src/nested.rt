//! Each call of an array-to-bytes codec: of each codec by itself, of the `ArrayToBytesCodec` that is
//! one of them, and of the chain that has no other codec.

use crate::checks::is;
use crate::forms::{Case, ChunkForm, made};
use crate::nested_rows::NESTED;
use crate::plain_rows::PLAIN;
use crate::targets::{Into, is_decoded_into, isnt_compacted};
use crate::whole::is_coded;
use crate::whole_rows::Row;
use std::alloc::Global;
use std::process::Abort;
use zarrs_chain::ArrayToBytesCodec;
use zarrs_chunk::{ChunkShape, CodecError};
use zarrs_codec::{ArrayCodecTraits, ArrayToBytesCodecTraits, SampleBytesCodec};

/// What is coded, and what comes of decoding the value into a target.
pub(crate) struct Nested {
    pub(crate) row: Row,
    pub(crate) into: Into,
}

/// What is best decoded together of a chunk is all of it.
fn is_whole<C: ArrayCodecTraits>(
    rt: &impl Abort,
    alloc: Global,
    about: &str,
    codec: &C,
    shape: &ChunkShape,
) -> Result<(), CodecError> {
    let together = codec.partial_decode_granularity(alloc, shape)?;
    is(rt, about, &together, shape);
    Ok(())
}

/// All calls of such a codec for a chunk.
fn answers<C: ArrayToBytesCodecTraits + ArrayCodecTraits>(
    rt: &impl Abort,
    alloc: Global,
    codec: &C,
    form: &ChunkForm,
    nested: &Nested,
) -> Result<(), CodecError> {
    let row = &nested.row;
    is_coded(rt, alloc, codec, form, row)?;
    isnt_compacted(rt, alloc, codec, form, row.name, row.value)?;
    is_decoded_into(rt, alloc, codec, form, row.name, row.value, &nested.into)?;
    is_whole(rt, alloc, row.name, codec, &form.shape)
}

/// The codec by itself.
fn alone_answers(
    rt: &impl Abort,
    alloc: Global,
    codec: &ArrayToBytesCodec<SampleBytesCodec>,
    form: &ChunkForm,
    nested: &Nested,
) -> Result<(), CodecError> {
    match codec {
        ArrayToBytesCodec::Bytes(codec) => answers(rt, alloc, codec, form, nested),
        ArrayToBytesCodec::PackBits(codec) => answers(rt, alloc, codec, form, nested),
        ArrayToBytesCodec::Vlen(codec) => answers(rt, alloc, codec, form, nested),
        ArrayToBytesCodec::Optional(codec) => answers(rt, alloc, codec, form, nested),
        ArrayToBytesCodec::VlenV2(codec) => answers(rt, alloc, codec, form, nested),
        ArrayToBytesCodec::Sharding(codec) => answers(rt, alloc, codec, form, nested),
    }
}

/// The codec by itself, the `ArrayToBytesCodec` that is this one, and the chain.
fn all_answer(
    rt: &impl Abort,
    alloc: Global,
    case: &Case,
    nested: &Nested,
) -> Result<(), CodecError> {
    let codec = case.chain.array_to_bytes_codec();
    alone_answers(rt, alloc, codec, &case.form, nested)?;
    answers(rt, alloc, codec, &case.form, nested)?;
    answers(rt, alloc, &case.chain, &case.form, nested)
}

fn each_answers(rt: &impl Abort, alloc: Global, nested: &Nested) -> Result<(), CodecError> {
    let case = made(alloc, nested.row.codecs, &nested.row.chunk)?;
    all_answer(rt, alloc, &case, nested)
}

#[test]
fn codecs_of_elements_of_one_size_answer_each_call(rt: HostRuntime) -> Result<(), CodecError> {
    for nested in PLAIN {
        each_answers(&rt, rt.alloc(), nested)?;
    }
    Ok(())
}

#[test]
fn codecs_of_texts_options_and_shards_answer_each_call(rt: HostRuntime) -> Result<(), CodecError> {
    for nested in NESTED {
        each_answers(&rt, rt.alloc(), nested)?;
    }
    Ok(())
}
