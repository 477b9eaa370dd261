//! The codec, called as any bytes-to-bytes codec is.
use super::zstd_table;
use crate::checks::{answers, is};
use std::alloc::Global;
use std::borrow::CowSlice;
use std::process::Abort;
use zarrs_chunk::CodecError;
use zarrs_codec::{
    BytesRepresentation, BytesToBytesCodecTraits, PartialDecoderCapability,
    PartialEncoderCapability,
};
use zarrs_pairs::{Pair, PairsCodec, PairsTable};

const PAIRS: &'static [Pair<'static>] = &[
    Pair {
        decoded: &[0, 1, 2, 10],
        encoded: &[200, 1],
    },
    Pair {
        decoded: &[3, 4, 5, 13],
        encoded: &[200, 2, 7],
    },
];

/// What encoding returns.
fn encodes<C: BytesToBytesCodecTraits>(
    rt: &impl Abort,
    alloc: Global,
    codec: &C,
    pair: &Pair<'_>,
) -> Result<(), CodecError> {
    let encoded = codec.encode(alloc, CowSlice::Borrowed(pair.decoded))?;
    answers(rt, "encoded", Ok(encoded.as_slice()), Ok(pair.encoded))
}

/// What decoding returns.
fn decodes<C: BytesToBytesCodecTraits>(
    rt: &impl Abort,
    alloc: Global,
    codec: &C,
    pair: &Pair<'_>,
) -> Result<(), CodecError> {
    let owned = CowSlice::Owned(pair.encoded.to_vec(alloc)?);
    let decoded = codec.decode(alloc, owned, &BytesRepresentation::FixedSize(4))?;
    answers(rt, "decoded", Ok(decoded.as_slice()), Ok(pair.decoded))
}

/// Bytes that no pair has are rejected, from either side.
fn rejects<C: BytesToBytesCodecTraits>(rt: &impl Abort, alloc: Global, codec: &C, bytes: &[u8]) {
    let encoded = codec.encode(alloc, CowSlice::Borrowed(bytes));
    is(
        rt,
        "encoded",
        &encoded.err(),
        &Some(CodecError::OutOfMemory),
    );
    let decoded = codec.decode(
        alloc,
        CowSlice::Borrowed(bytes),
        &BytesRepresentation::UnboundedSize,
    );
    is(
        rt,
        "decoded",
        &decoded.err(),
        &Some(CodecError::BytesCodec(1)),
    );
}

/// What a codec answers without any bytes.
fn represents<C: BytesToBytesCodecTraits>(rt: &impl Abort, codec: &C) {
    let encoded = codec.encoded_representation(&BytesRepresentation::FixedSize(4));
    is(rt, "size", &encoded, &BytesRepresentation::UnboundedSize);
    let reading = PartialDecoderCapability {
        partial_read: false,
        partial_decode: false,
    };
    is(rt, "reading", &codec.partial_decoder_capability(), &reading);
    let writing = PartialEncoderCapability {
        partial_encode: false,
    };
    is(rt, "writing", &codec.partial_encoder_capability(), &writing);
}

fn code_each(rt: &impl Abort, alloc: Global, table: &PairsTable<'_>) -> Result<(), CodecError> {
    let codec = PairsCodec::new(&*table);
    for pair in PAIRS.iter() {
        encodes(rt, alloc, &codec, pair)?;
        decodes(rt, alloc, &codec, pair)?;
    }
    Ok(())
}

#[test]
fn pairs_are_encoded_and_decoded(rt: HostRuntime) -> Result<(), CodecError> {
    let table = zstd_table(rt.alloc(), PAIRS)?;
    code_each(&rt, rt.alloc(), &table)
}

fn reject_others(rt: &impl Abort, alloc: Global, table: &PairsTable<'_>) {
    let codec = PairsCodec::new(&*table);
    rejects(rt, alloc, &codec, &[200]);
    rejects(rt, alloc, &codec, &[0, 1, 2, 11]);
    represents(rt, &codec);
}

#[test]
fn other_bytes_are_rejected(rt: HostRuntime) -> Result<(), CodecError> {
    let table = zstd_table(rt.alloc(), PAIRS)?;
    reject_others(&rt, rt.alloc(), &table);
    Ok(())
}
