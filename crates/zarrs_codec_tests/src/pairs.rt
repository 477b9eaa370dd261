//! Codecs that are tables of pairs: which pairs make a table, what is found in it, and the codec as any
//! bytes-to-bytes codec is called.
mod codec;
mod metadata;
mod table;

use std::alloc::Global;
use zarrs_chunk::CodecError;
use zarrs_metadata::MetadataV3;
use zarrs_pairs::{Pair, PairsTable};

/// The metadata of a name alone.
fn zstd(alloc: Global) -> Result<MetadataV3, CodecError> {
    match MetadataV3::new(alloc, "zstd") {
        Ok(metadata) => Ok(metadata),
        Err(_) => Err(CodecError::OutOfMemory),
    }
}

/// The table of pairs that are one to one.
fn zstd_table<'a>(alloc: Global, pairs: &[Pair<'a>]) -> Result<PairsTable<'a>, CodecError> {
    PairsTable::new(alloc, pairs, zstd(alloc)?)?.ok_or(CodecError::Overflow)
}
