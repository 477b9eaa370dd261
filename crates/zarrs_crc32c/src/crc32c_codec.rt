//! The codec: the bytes, and behind them their checksum.
ghost use Rattle.std.specs.Prelude.{◌≡◌, ◌-◌, Ok, IfOk, false, length, Some};
ghost use Rattle.zarrs_chunk.specs.Answer.{seen, Gives, GivesItems};
ghost use Rattle.zarrs_array_bytes.specs.Held.{items_of, raw_of};
ghost use Rattle.zarrs_crc32c.specs.Crc32cCodec.{bytes_before, checked_bytes, checked_raw, checksum_in, four_more, with_checksum};
ghost use Rattle.zarrs_crc32c.specs.Crc32cMetadata.{crc32c_made};

use crate::checksum::checksum_of;
use std::alloc::Global;
use std::borrow::CowSlice;
use zarrs_array_bytes::ArrayBytesRaw;
use zarrs_chunk::CodecError;
use zarrs_codec::{
    BytesRepresentation, BytesToBytesCodecTraits, PartialDecoderCapability,
    PartialEncoderCapability,
};
use zarrs_metadata::{MetadataV3, PluginCreateError};

/// The codec's name in metadata.
pub const CRC32C: &'static str = "crc32c";

/// How many bytes a checksum takes.
const CHECKSUM_SIZE: usize = 4;

/// The codec `crc32c`: the bytes, and behind them their CRC-32C (RFC 3720, 12.1) in 4 bytes, the
/// lowest first. Errors of decoding: `BytesCodec(1)` for fewer than 4 bytes; `BytesCodec(2)` where the
/// checksum isn't that of the bytes before it.
#[derive(Clone, Copy, Debug, PartialEq, Eq)]
pub struct Crc32cCodec;

/// The bytes, owned, with room for a checksum behind them.
fn make_room(alloc: Global, bytes: ArrayBytesRaw<'_>) -> Result<Vec<u8>, CodecError>
    ensures answer { GivesItems result (Ok (items_of bytes.entry)) }
{
    match bytes {
        CowSlice::Borrowed(bytes) => {
            let mut copy = Vec::with_capacity(alloc, bytes.len().saturating_add(CHECKSUM_SIZE))?;
            copy.extend_from_slice(bytes)?;
            Ok(copy)
        }
        CowSlice::Owned(mut bytes) => {
            bytes.reserve_exact(CHECKSUM_SIZE)?;
            Ok(bytes)
        }
    }
}

/// The bytes and their checksum. Owned bytes stay where they are if there is room behind them.
#[tactic(auto, unfolding(crate::specs::Crc32cCodec::checksum_bytes))]
fn append_checksum(alloc: Global, bytes: ArrayBytesRaw<'_>) -> Result<Vec<u8>, CodecError>
    ensures answer { GivesItems result (Ok (with_checksum (items_of bytes.entry))) }
{
    let checksum = checksum_of(bytes.as_slice()).to_le_bytes();
    let mut encoded = make_room(alloc, bytes)?;
    encoded.extend_from_slice(&checksum)?;
    Ok(encoded)
}

/// The checksum that 4 bytes are.
#[tactic(auto, unfolding(crate::specs::Crc32cCodec::checksum_in))]
fn read_checksum(bytes: &[u8]) -> u32
    requires len { length bytes.now ≡ 4 }
    ensures value { result ≡ checksum_in bytes.now }
{
    u32::from_le_bytes([bytes[0], bytes[1], bytes[2], bytes[3]])
}

/// How many bytes stand before the checksum, where there is one and it is theirs.
fn check(encoded: &[u8]) -> Result<usize, CodecError>
    ensures answer { seen (λ _. bytes_before encoded.now) result ≡ checked_bytes encoded.now }
    ensures len { IfOk result (λ len. len ≡ length encoded.now - 4) }
{
    if encoded.len() < CHECKSUM_SIZE {
        return Err(CodecError::BytesCodec(1));
    }
    let len = encoded.len() - CHECKSUM_SIZE;
    if read_checksum(&encoded[len..]) != checksum_of(&encoded[..len]) {
        return Err(CodecError::BytesCodec(2));
    }
    Ok(len)
}

/// The bytes before their checksum. Borrowed bytes are lent on, and owned ones are cut.
fn cut_checksum(encoded: ArrayBytesRaw<'_>) -> Result<ArrayBytesRaw<'_>, CodecError>
    ensures answer { seen raw_of result ≡ checked_raw (raw_of encoded.entry) }
{
    match encoded {
        CowSlice::Borrowed(bytes) => {
            let len = check(bytes)?;
            Ok(CowSlice::Borrowed(&bytes[..len]))
        }
        CowSlice::Owned(mut bytes) => {
            let len = check(&bytes)?;
            bytes.truncate(len);
            Ok(CowSlice::Owned(bytes))
        }
    }
}

/// How many bytes there are with a checksum behind them.
fn add_checksum(representation: &BytesRepresentation) -> BytesRepresentation
    ensures value { result ≡ four_more representation.now }
{
    match representation {
        BytesRepresentation::FixedSize(size) => match size.checked_add(4) {
            Some(size) => BytesRepresentation::FixedSize(size),
            None => BytesRepresentation::UnboundedSize,
        },
        BytesRepresentation::BoundedSize(size) => match size.checked_add(4) {
            Some(size) => BytesRepresentation::BoundedSize(size),
            None => BytesRepresentation::UnboundedSize,
        },
        BytesRepresentation::UnboundedSize => BytesRepresentation::UnboundedSize,
    }
}

impl BytesToBytesCodecTraits for Crc32cCodec {
    ghost use Rattle.zarrs_metadata.specs.MetadataV3.{metadata_seen};
    ghost use Rattle.zarrs_metadata.specs.PluginCreateError.{Makes};
    ghost use Rattle.zarrs_crc32c.specs.Crc32cCodec.{crc32c_codecs};
    ghost use Rattle.zarrs_crc32c.specs.Crc32cMetadata.{crc32c_metadata};
    ghost use Rattle.zarrs_crc32c.specs.Lawful.{crc32c_is_lawful};

    ghost functions = { crc32c_codecs };

    ghost reads_in_part = { λ _. record { partial_read = false; partial_decode = false } };

    ghost writes_in_part = { λ _. record { partial_encode = false } };

    ghost described = { λ _. crc32c_metadata };

    ghost lawful = { crc32c_is_lawful };

    fn encode<'a>(
        &self,
        alloc: Global,
        bytes: ArrayBytesRaw<'a>,
    ) -> Result<ArrayBytesRaw<'a>, CodecError> {
        Ok(CowSlice::Owned(append_checksum(alloc, bytes)?))
    }

    /// The bytes before their checksum. Nothing is allocated: borrowed bytes are lent on, and owned
    /// ones are cut. Errors, the first that holds: `BytesCodec(1)` for fewer than 4 bytes;
    /// `BytesCodec(2)` where the checksum isn't that of the bytes before it.
    fn decode<'a>(
        &self,
        _alloc: Global,
        encoded: ArrayBytesRaw<'a>,
        _decoded_representation: &BytesRepresentation,
    ) -> Result<ArrayBytesRaw<'a>, CodecError>
        ensures answer { Gives items_of result (checked_bytes (items_of encoded.entry)) }
        ensures in_place { seen raw_of result ≡ checked_raw (raw_of encoded.entry) }
    {
        cut_checksum(encoded)
    }

    fn encoded_representation(
        &self,
        decoded_representation: &BytesRepresentation,
    ) -> BytesRepresentation {
        add_checksum(decoded_representation)
    }

    fn partial_decoder_capability(&self) -> PartialDecoderCapability {
        PartialDecoderCapability {
            partial_read: false,
            partial_decode: false,
        }
    }

    fn partial_encoder_capability(&self) -> PartialEncoderCapability {
        PartialEncoderCapability {
            partial_encode: false,
        }
    }

    /// The codec's name, without a configuration, by which `Crc32cMaker` makes it. Errors:
    /// `OutOfMemory`.
    fn metadata(&self, alloc: Global) -> Result<MetadataV3, PluginCreateError>
        ensures answer { Makes metadata_seen result (Ok crc32c_metadata) }
        ensures made_again { IfOk result
            (λ metadata. crc32c_made (metadata_seen metadata) ≡ Ok (Some (record {}))) }
    {
        MetadataV3::new(alloc, CRC32C)
    }
}
