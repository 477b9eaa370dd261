//! Pairs that are one to one.
ghost use Rattle.std.specs.Prelude.{◌≡◌, Ok, IfErr, Some, None, IfOk, IfSome, option_map, map, All};
ghost use Rattle.zarrs_chunk.specs.declared.codec_error.CodecError.TheVariants.{OutOfMemory};
ghost use Rattle.zarrs_codec.specs.BytesToBytesCodec.{AreBytes};
ghost use Rattle.zarrs_pairs.specs.Pairs.{sides, AreOneToOne, HaveSamePairs, IsPair, LacksDecoded, LacksEncoded, encoded_with, decoded_with};
ghost use Rattle.zarrs_pairs.specs.Rows.{rows_seen, AreTurned, IsFunction, IsRising};

use crate::pair::Pair;
use crate::rows::{Row, find, is_function, sorted_pairs, sorted_turned};
use std::alloc::Global;
use zarrs_chunk::CodecError;
use zarrs_codec::bytes_are;
use zarrs_metadata::MetadataV3;

/// Pairs that are one to one, in which bytes are looked up from either side, and the metadata that is
/// written of a codec by these pairs. Bytes are found by binary search.
#[derive(Debug, Drop)]
pub struct PairsTable<'a> {
    by_decoded: Vec<Row<'a>>,
    by_encoded: Vec<Row<'a>>,
    pub(crate) metadata: MetadataV3,
    ghost decoded_rise: { IsRising by_decoded.items },
    ghost encoded_rise: { IsRising by_encoded.items },
    ghost encoded_once: { IsFunction (rows_seen by_encoded.items) },
    ghost turned_round: { AreTurned (rows_seen by_decoded.items) (rows_seen by_encoded.items) },
    ghost one_to_one: { AreOneToOne (rows_seen by_decoded.items) },
    ghost are_bytes: { All (λ pair. AreBytes pair.1) (rows_seen by_decoded.items) },
}

/// The encoded side of each pair is bytes.
fn encoded_are_bytes(pairs: &[Pair<'_>])
    ensures bytes { All (λ pair. AreBytes pair.encoded.now) pairs.now }
{
    for pair in pairs {
        bytes_are(pair.encoded);
    }
}

impl<'a> PairsTable<'a> {
    ghost use Rattle.zarrs_metadata.specs.MetadataV3.{metadata_seen};
    ghost use Rattle.zarrs_pairs.specs.PairsTable.{pairs_of, table_metadata};

    /// The table of these pairs, with the metadata that is to be written of its codec; none where the
    /// pairs aren't one to one. The same pair may be there twice. Errors: `OutOfMemory`.
    pub fn new(
        alloc: Global,
        pairs: &[Pair<'a>],
        metadata: MetadataV3,
    ) -> Result<Option<PairsTable<'a>>, CodecError>
        ensures pairs { IfOk result (λ made. IfSome made
            (λ table. HaveSamePairs (pairs_of table) (map sides pairs.now))) }
        ensures metadata { IfOk result (λ made. IfSome made
            (λ table. table_metadata table ≡ metadata_seen metadata)) }
        ensures accepted { IfOk result (λ made. IfSome made
            (λ _. AreOneToOne (map sides pairs.now))) }
        ensures rejected { result ≡ Ok None → AreOneToOne (map sides pairs.now) → ⊥ }
        ensures memory { IfErr result (λ cause. cause ≡ OutOfMemory) }
    {
        encoded_are_bytes(pairs);
        let by_decoded = sorted_pairs(alloc, pairs)?;
        if !is_function(&by_decoded) {
            return Ok(None);
        }
        let by_encoded = sorted_turned(alloc, &by_decoded)?;
        if !is_function(&by_encoded) {
            return Ok(None);
        }
        Ok(Some(PairsTable {
            by_decoded,
            by_encoded,
            metadata,
        }))
    }

    /// What these bytes are encoded as, where a pair has them.
    pub fn encoded_of(&self, decoded: &[u8]) -> Option<&'a [u8]>
        ensures value { option_map (λ it. it.now) result
            ≡ encoded_with (pairs_of self.now) decoded.now }
        ensures found { IfSome result
            (λ encoded. IsPair (pairs_of self.now) decoded.now encoded.now) }
        ensures lacking { result ≡ None
            → LacksDecoded (pairs_of self.now) decoded.now }
    {
        find(&self.by_decoded, decoded)
    }

    /// What these encoded bytes are decoded to, where a pair has them.
    pub fn decoded_of(&self, encoded: &[u8]) -> Option<&'a [u8]>
        ensures value { option_map (λ it. it.now) result
            ≡ decoded_with (pairs_of self.now) encoded.now }
        ensures found { IfSome result
            (λ decoded. IsPair (pairs_of self.now) decoded.now encoded.now) }
        ensures lacking { result ≡ None
            → LacksEncoded (pairs_of self.now) encoded.now }
    {
        find(&self.by_encoded, encoded)
    }
}
