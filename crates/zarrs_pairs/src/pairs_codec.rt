//! A bytes-to-bytes codec that is a table of pairs.
ghost use Rattle.std.specs.Prelude.{◌≡◌, Ok, Err, Some, None, IfOk, false};
ghost use Rattle.zarrs_chunk.specs.Answer.{Gives};
ghost use Rattle.zarrs_chunk.specs.declared.codec_error.CodecError.TheVariants.{BytesCodec, OutOfMemory};
ghost use Rattle.zarrs_array_bytes.specs.Held.{items_of};
ghost use Rattle.zarrs_pairs.specs.Pairs.{IsPair, LacksDecoded, LacksEncoded, decoded_with, encoded_with};
ghost use Rattle.zarrs_pairs.specs.PairsCodec.{or_endless, or_refused};
ghost use Rattle.zarrs_pairs.specs.PairsTable.{pairs_of, table_metadata};

use crate::copied_metadata::copy_metadata;
use crate::pairs_table::PairsTable;
use std::alloc::Global;
use std::borrow::CowSlice;
use zarrs_array_bytes::ArrayBytesRaw;
use zarrs_chunk::CodecError;
use zarrs_codec::{
    BytesRepresentation, BytesToBytesCodecTraits, PartialDecoderCapability,
    PartialEncoderCapability,
};
use zarrs_metadata::{MetadataV3, PluginCreateError};

/// A codec that is a table of pairs: bytes are encoded and decoded by the pair that has them, and
/// bytes that no pair has are rejected. So it stands for a compressor that isn't in this library, at
/// the values that the compressor was called with.
#[derive(Clone, Copy)]
pub struct PairsCodec<'t, 'p> {
    pub(crate) table: &'t PairsTable<'p>,
}

impl<'t, 'p> PairsCodec<'t, 'p> {
    ghost use Rattle.zarrs_pairs.specs.PairsCodec.{codec_pairs};
    ghost use Rattle.zarrs_pairs.specs.PairsMetadata.{pairs_metadata};

    /// The codec of a table. The prover takes it in a function that is lent the table, as
    /// `PairsCodec::new(&*table)`.
    pub fn new(table: &'t PairsTable<'p>) -> PairsCodec<'t, 'p>
        ensures pairs { codec_pairs result ≡ pairs_of table.now }
        ensures metadata { pairs_metadata result ≡ table_metadata table.now }
    {
        PairsCodec { table }
    }
}

/// The encoded bytes of the pair of these.
fn encode_by<'a>(
    alloc: Global,
    table: &PairsTable<'_>,
    bytes: ArrayBytesRaw<'a>,
) -> Result<ArrayBytesRaw<'a>, CodecError>
    ensures answer { Gives items_of result
        (Ok (or_endless (encoded_with (pairs_of table.now) (items_of bytes.entry)))) }
    ensures only { IfOk result
        (λ encoded. IsPair (pairs_of table.now) (items_of bytes.entry) (items_of encoded)) }
    ensures lacking { encoded_with (pairs_of table.now) (items_of bytes.entry) ≡ None
        → result ≡ Err OutOfMemory }
{
    match table.encoded_of(bytes.as_slice()) {
        Some(encoded) => Ok(CowSlice::Owned(Vec::from_slice(alloc, encoded)?)),
        None => Err(CodecError::OutOfMemory),
    }
}

/// The decoded bytes of the pair of these.
fn decode_by<'a>(
    alloc: Global,
    table: &PairsTable<'_>,
    encoded: ArrayBytesRaw<'a>,
) -> Result<ArrayBytesRaw<'a>, CodecError>
    ensures answer { Gives items_of result
        (or_refused (decoded_with (pairs_of table.now) (items_of encoded.entry))) }
    ensures only { IfOk result
        (λ bytes. IsPair (pairs_of table.now) (items_of bytes) (items_of encoded.entry)) }
    ensures lacking { decoded_with (pairs_of table.now) (items_of encoded.entry) ≡ None
        → result ≡ Err (BytesCodec 1) }
{
    match table.decoded_of(encoded.as_slice()) {
        Some(decoded) => Ok(CowSlice::Owned(Vec::from_slice(alloc, decoded)?)),
        None => Err(CodecError::BytesCodec(1)),
    }
}

impl<'t, 'p> BytesToBytesCodecTraits for PairsCodec<'t, 'p> {
    ghost use Rattle.zarrs_metadata.specs.MetadataV3.{metadata_seen};
    ghost use Rattle.zarrs_metadata.specs.PluginCreateError.{Makes};
    ghost use Rattle.zarrs_pairs.specs.PairsCodec.{pairs_codecs, codec_pairs, GivesSuch};
    ghost use Rattle.zarrs_pairs.specs.PairsMetadata.{pairs_made, pairs_metadata};
    ghost use Rattle.zarrs_pairs.specs.Lawful.{pairs_are_lawful};

    ghost functions = { pairs_codecs };

    ghost reads_in_part = { λ _. record { partial_read = false; partial_decode = false } };

    ghost writes_in_part = { λ _. record { partial_encode = false } };

    ghost described = { pairs_metadata };

    ghost lawful = { pairs_are_lawful };

    /// The encoded bytes of the pair of these. Errors: `OutOfMemory`, also where there is no pair.
    fn encode<'a>(
        &self,
        alloc: Global,
        bytes: ArrayBytesRaw<'a>,
    ) -> Result<ArrayBytesRaw<'a>, CodecError>
        ensures answer { Gives items_of result
            (Ok (pairs_codecs.encoded_bytes self.now (items_of bytes.entry))) }
        ensures only { IfOk result
            (λ encoded. IsPair (codec_pairs self.now) (items_of bytes.entry) (items_of encoded)) }
        ensures found { GivesSuch items_of result
            (λ encoded. IsPair (codec_pairs self.now) (items_of bytes.entry) encoded) }
        ensures lacking { LacksDecoded (codec_pairs self.now) (items_of bytes.entry)
            → result ≡ Err OutOfMemory }
    {
        encode_by(alloc, self.table, bytes)
    }

    /// The decoded bytes of the pair of these. Errors: `BytesCodec(1)` where there is no pair;
    /// `OutOfMemory`.
    fn decode<'a>(
        &self,
        alloc: Global,
        encoded: ArrayBytesRaw<'a>,
        _decoded_representation: &BytesRepresentation,
    ) -> Result<ArrayBytesRaw<'a>, CodecError>
        ensures answer { Gives items_of result
            (or_refused (decoded_with (codec_pairs self.now) (items_of encoded.entry))) }
        ensures only { IfOk result
            (λ bytes. IsPair (codec_pairs self.now) (items_of bytes) (items_of encoded.entry)) }
        ensures found { GivesSuch items_of result
            (λ decoded. IsPair (codec_pairs self.now) decoded (items_of encoded.entry)) }
        ensures lacking { LacksEncoded (codec_pairs self.now) (items_of encoded.entry)
            → result ≡ Err (BytesCodec 1) }
    {
        decode_by(alloc, self.table, encoded)
    }

    fn encoded_representation(
        &self,
        _decoded_representation: &BytesRepresentation,
    ) -> BytesRepresentation {
        BytesRepresentation::UnboundedSize
    }

    fn partial_decoder_capability(&self) -> PartialDecoderCapability {
        PartialDecoderCapability {
            partial_read: false,
            partial_decode: false,
        }
    }

    fn partial_encoder_capability(&self) -> PartialEncoderCapability {
        PartialEncoderCapability {
            partial_encode: false,
        }
    }

    /// The metadata that the table was made with. Errors: `OutOfMemory`.
    fn metadata(&self, alloc: Global) -> Result<MetadataV3, PluginCreateError>
        ensures answer { Makes metadata_seen result (Ok (pairs_metadata self.now)) }
        ensures made_again { IfOk result
            (λ metadata. pairs_made self.now (metadata_seen metadata) ≡ Ok (Some self.now)) }
    {
        copy_metadata(alloc, &self.table.metadata)
    }
}
