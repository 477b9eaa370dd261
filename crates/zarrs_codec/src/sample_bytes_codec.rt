//! Two bytes-to-bytes codecs as samples.
ghost use Rattle.std.specs.Prelude.{◌≡◌, ◌++◌, ◌≤◌, Ok, IfOk, false, reverse, length, drop, Some};
ghost use Rattle.zarrs_chunk.specs.Answer.{seen, GivesItems};
ghost use Rattle.zarrs_array_bytes.specs.Held.{items_of};
ghost use Rattle.zarrs_metadata.specs.MetadataV3.{metadata_seen};
ghost use Rattle.zarrs_metadata.specs.PluginCreateError.{Makes};
ghost use Rattle.zarrs_codec.specs.SampleMetadata.{sample_name, sample_metadata, sample_made};
ghost use Rattle.zarrs_codec.specs.SampleBytesCodec.{length_bytes, stored_length as stored_length_of, behind_length as behind_length_of, with_length as with_length_of};

use crate::bytes_representation::BytesRepresentation;
use crate::bytes_to_bytes_codec_traits::BytesToBytesCodecTraits;
use crate::capabilities::{PartialDecoderCapability, PartialEncoderCapability};
use std::alloc::Global;
use std::borrow::CowSlice;
use zarrs_array_bytes::ArrayBytesRaw;
use zarrs_chunk::CodecError;
use zarrs_metadata::{MetadataV3, PluginCreateError};

/// How many bytes a length takes.
const LENGTH_SIZE: usize = 8;

/// Two bytes-to-bytes codecs as samples of what a caller may bring.
#[derive(Clone, Copy, Debug, PartialEq, Eq)]
pub enum SampleBytesCodec {
    /// The bytes in reverse (`sample.reverse`), as many of them. Only lack of memory is an error.
    Reverse,
    /// The bytes behind how many they are, as 8 bytes with the lowest first (`sample.length`): 8
    /// bytes more, and no bound where 64 bits don't count them. Errors of decoding:
    /// `BytesCodec(1)` for fewer than 8 bytes; `BytesCodec(2)` where the length isn't that of the
    /// rest.
    Length,
}

/// The codec's name in metadata.
fn name_of(codec: SampleBytesCodec) -> &'static str
    ensures value { result.now ≡ sample_name codec }
{
    match codec {
        SampleBytesCodec::Reverse => "sample.reverse",
        SampleBytesCodec::Length => "sample.length",
    }
}

/// The bytes in reverse. Owned bytes are turned round in place.
fn reverse_bytes(alloc: Global, bytes: ArrayBytesRaw<'_>) -> Result<Vec<u8>, CodecError>
    ensures answer { GivesItems result (Ok (reverse (items_of bytes.entry))) }
{
    let mut reversed = match bytes {
        CowSlice::Borrowed(bytes) => bytes.to_vec(alloc)?,
        CowSlice::Owned(bytes) => bytes,
    };
    reversed.reverse();
    Ok(reversed)
}

/// The bytes behind their length.
#[tactic(auto, unfolding(crate::specs::SampleBytesCodec::length_bytes))]
fn with_length(alloc: Global, bytes: &[u8]) -> Result<Vec<u8>, CodecError>
    ensures answer { GivesItems result (Ok (length_bytes bytes.now ++ bytes.now)) }
{
    let mut encoded = Vec::with_capacity(alloc, bytes.len().saturating_add(LENGTH_SIZE))?;
    encoded.extend_from_slice(&(bytes.len() as u64).to_le_bytes())?;
    encoded.extend_from_slice(bytes)?;
    Ok(encoded)
}

/// The length that stands before the bytes.
#[tactic(auto, unfolding(crate::specs::SampleBytesCodec::stored_length))]
fn stored_length(encoded: &[u8]) -> u64
    requires len { 8 ≤ length encoded.now }
    ensures value { result ≡ stored_length_of encoded.now }
{
    u64::from_le_bytes([
        encoded[0], encoded[1], encoded[2], encoded[3], encoded[4], encoded[5], encoded[6],
        encoded[7],
    ])
}

/// That the bytes stand behind their length.
fn check_length(encoded: &[u8]) -> Result<(), CodecError>
    ensures answer { seen (λ _. drop 8 encoded.now) result ≡ behind_length_of encoded.now }
    ensures len { IfOk result (λ _. 8 ≤ length encoded.now) }
{
    if encoded.len() < LENGTH_SIZE {
        return Err(CodecError::BytesCodec(1));
    }
    if stored_length(encoded) != (encoded.len() - LENGTH_SIZE) as u64 {
        return Err(CodecError::BytesCodec(2));
    }
    Ok(())
}

/// The bytes behind their length. Borrowed bytes are lent on, owned ones are moved to the front.
fn behind_length(encoded: ArrayBytesRaw<'_>) -> Result<ArrayBytesRaw<'_>, CodecError>
    ensures answer { seen items_of result ≡ behind_length_of (items_of encoded.entry) }
{
    match encoded {
        CowSlice::Borrowed(bytes) => {
            check_length(bytes)?;
            Ok(CowSlice::Borrowed(&bytes[LENGTH_SIZE..]))
        }
        CowSlice::Owned(mut bytes) => {
            check_length(&bytes)?;
            bytes.drain(..LENGTH_SIZE);
            Ok(CowSlice::Owned(bytes))
        }
    }
}

/// How many bytes there are with their length before them.
fn representation_with_length(representation: &BytesRepresentation) -> BytesRepresentation
    ensures value { result ≡ with_length_of representation.now }
{
    match representation {
        BytesRepresentation::FixedSize(size) => match size.checked_add(8) {
            Some(size) => BytesRepresentation::FixedSize(size),
            None => BytesRepresentation::UnboundedSize,
        },
        BytesRepresentation::BoundedSize(size) => match size.checked_add(8) {
            Some(size) => BytesRepresentation::BoundedSize(size),
            None => BytesRepresentation::UnboundedSize,
        },
        BytesRepresentation::UnboundedSize => BytesRepresentation::UnboundedSize,
    }
}

impl BytesToBytesCodecTraits for SampleBytesCodec {
    ghost use Rattle.zarrs_codec.specs.SampleBytesCodec.{sample_codecs};
    ghost use Rattle.zarrs_codec.specs.SampleLaws.{sample_is_lawful};

    ghost functions = { sample_codecs };

    ghost reads_in_part = { λ _. record { partial_read = false; partial_decode = false } };

    ghost writes_in_part = { λ _. record { partial_encode = false } };

    ghost described = { sample_metadata };

    ghost lawful = { sample_is_lawful };

    fn encode<'a>(
        &self,
        alloc: Global,
        bytes: ArrayBytesRaw<'a>,
    ) -> Result<ArrayBytesRaw<'a>, CodecError> {
        match self {
            SampleBytesCodec::Reverse => Ok(CowSlice::Owned(reverse_bytes(alloc, bytes)?)),
            SampleBytesCodec::Length => {
                Ok(CowSlice::Owned(with_length(alloc, bytes.as_slice())?))
            }
        }
    }

    fn decode<'a>(
        &self,
        alloc: Global,
        encoded: ArrayBytesRaw<'a>,
        _decoded_representation: &BytesRepresentation,
    ) -> Result<ArrayBytesRaw<'a>, CodecError> {
        match self {
            SampleBytesCodec::Reverse => Ok(CowSlice::Owned(reverse_bytes(alloc, encoded)?)),
            SampleBytesCodec::Length => behind_length(encoded),
        }
    }

    fn encoded_representation(
        &self,
        decoded_representation: &BytesRepresentation,
    ) -> BytesRepresentation {
        match self {
            SampleBytesCodec::Reverse => *decoded_representation,
            SampleBytesCodec::Length => representation_with_length(decoded_representation),
        }
    }

    fn partial_decoder_capability(&self) -> PartialDecoderCapability {
        PartialDecoderCapability {
            partial_read: false,
            partial_decode: false,
        }
    }

    fn partial_encoder_capability(&self) -> PartialEncoderCapability {
        PartialEncoderCapability {
            partial_encode: false,
        }
    }

    /// The codec's name, without a configuration, by which `SampleMaker` makes it. Errors:
    /// `OutOfMemory`.
    fn metadata(&self, alloc: Global) -> Result<MetadataV3, PluginCreateError>
        ensures answer { Makes metadata_seen result (Ok (sample_metadata self.now)) }
        ensures made_again { IfOk result
            (λ metadata. sample_made (metadata_seen metadata) ≡ Ok (Some self.now)) }
    {
        MetadataV3::new(alloc, name_of(*self))
    }
}
