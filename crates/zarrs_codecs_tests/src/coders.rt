//! Coders of chunks over handles of tests: the decoders and encoders of chains.

use crate::chunks::{Chunk, Form};
use std::alloc::{AllocError, Global};
use zarrs_codec::testing::FailingHandle;
use zarrs_codec::{
    BytesPartialDecoderTraits, BytesPartialEncoderTraits, Refused, SampleBytesCodec,
};
use zarrs_codecs::{ArrayPartialDecoder, ArrayPartialEncoder, CodecChainPartialTraits};

/// Which coder of a chain it is.
pub(crate) enum Kind {
    Decoder,
    Encoder,
}

pub(crate) type Decoder<'a, H> = ArrayPartialDecoder<'a, H, SampleBytesCodec>;

pub(crate) type Encoder<'a, H> = ArrayPartialEncoder<'a, H, SampleBytesCodec>;

/// The bytes that a handle is to keep, or nothing.
pub(crate) fn stored(alloc: Global, value: Option<&[u8]>) -> Result<Option<Vec<u8>>, AllocError> {
    match value {
        None => Ok(None),
        Some(bytes) => Ok(Some(bytes.to_vec(alloc)?)),
    }
}

/// A handle that keeps these bytes, or nothing, and fails at the call of this number, or never at 0.
pub(crate) fn failing(
    alloc: Global,
    value: Option<&[u8]>,
    call: u32,
) -> Result<FailingHandle, AllocError> {
    Ok(FailingHandle::new(stored(alloc, value)?, call))
}

pub(crate) fn decoder<'a, H: BytesPartialDecoderTraits>(
    alloc: Global,
    chunk: &'a Chunk,
    handle: H,
) -> Result<Decoder<'a, H>, Refused<H>> {
    let Form {
        shape,
        data_type,
        fill_value,
    } = &chunk.form;
    chunk
        .chain
        .partial_decoder(alloc, handle, shape, data_type, fill_value)
}

pub(crate) fn encoder<'a, H: BytesPartialEncoderTraits>(
    alloc: Global,
    chunk: &'a Chunk,
    handle: H,
) -> Result<Encoder<'a, H>, Refused<H>> {
    let Form {
        shape,
        data_type,
        fill_value,
    } = &chunk.form;
    chunk
        .chain
        .partial_encoder(alloc, handle, shape, data_type, fill_value)
}
