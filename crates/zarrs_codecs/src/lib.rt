//! Chains of codecs: chunks encoded and decoded whole, and read and written in part over a storage
//! handle. This is the crate that a user names; what it needs of those below is passed on here.
//!
//! A [`CodecChain`] is made of JSON or of metadata. It makes an [`ArrayPartialDecoder`], which reads a
//! chunk in part, or an [`ArrayPartialEncoder`], which writes it in part too
//! ([`CodecChainPartialTraits`]);
//! [`run_edits`] makes a list of edits. A `vlen` codec by itself makes a [`VlenPartialDecoder`]
//! ([`VlenCodecPartialTraits`]).
//!
//! Its array-to-bytes codec is one of `bytes`, `packbits`, `vlen`, `vlen-utf8`, `vlen-bytes`,
//! `optional` and `sharding_indexed` ([`ArrayToBytesCodec`]). Over `bytes`, `packbits` and a plain
//! `vlen` a read asks for a part of the value, and over `sharding_indexed` for what its inner chain asks
//! for of the inner chunks that have any of the places, by the index, which a decoder reads once; over
//! any other it decodes the whole value.
#![tactic(auto)]

mod chunk_coder;
mod codec_chain_partial;
pub mod laws;
mod partial_decoder;
mod partial_encoder;
mod sharding;
mod vlen;

pub use codec_chain_partial::CodecChainPartialTraits;
pub use partial_decoder::array_partial_decoder::ArrayPartialDecoder;
pub use partial_encoder::array_partial_encoder::ArrayPartialEncoder;
pub use partial_encoder::edits::{Edit, EditOutcome, run_edits};
pub use vlen::vlen_partial_decoder::{VlenCodecPartialTraits, VlenPartialDecoder};

// What a user of chains needs of the crates below, by the one path of this crate.
pub use zarrs_array_bytes::{
    ArrayBytes, ArrayBytesDecodeIntoTarget, ArrayBytesFixedView, ArrayBytesOffsets, ArrayBytesRaw,
    append_elements, update_array_bytes,
};
pub use zarrs_array_to_array::{
    ArrayToArrayCodec, RESHAPE, ReshapeCodec, SQUEEZE, SqueezeCodec, TRANSPOSE, TransposeCodec,
};
pub use zarrs_bytes::{BYTES, BytesCodec, BytesCodecPartial};
pub use zarrs_chain::reencode::reencode;
pub use zarrs_chain::{
    ArrayToBytesCodec, ChainJsonError, CodecChain, OptionalCodec, ShardingCodec, VlenCodec,
};
pub use zarrs_chain_meaning::codec_name::{OPTIONAL, VLEN};
pub use zarrs_chain_meaning::vlen::plain_vlen::PlainVlen;
pub use zarrs_chunk::{ArrayIndices, ArraySubset, ChunkShape, IndexTuples, Indexer};
pub use zarrs_codec::{
    ArrayCodecTraits, ArrayPartialDecoderTraits, ArrayPartialEncoderTraits,
    ArrayToArrayCodecTraits, ArrayToBytesCodecTraits, ByteRange, BytesCodecMaker,
    BytesPartialDecoderTraits, BytesPartialEncoderTraits, BytesRepresentation,
    BytesToBytesCodecTraits, CodecError, CodecName, CodecTraits, MemoryHandle,
    PartialDecoderCapability, PartialEncoderCapability, Refused, SampleBytesCodec, SampleMaker,
    StorageError,
};
pub use zarrs_crc32c::{CRC32C, Crc32cCodec, Crc32cMaker};
pub use zarrs_data_type::{Components, DataType, Endianness, FillValue, HasComponents};
pub use zarrs_lent_handles::{Elsewhere, LentHandle, Piece, PiecesHandle, join_ranges};
pub use zarrs_metadata::{
    BytesCodecConfiguration, BytesCodecConfigurationV1, Configuration, MetadataV3,
    OptionalCodecConfiguration, OptionalCodecConfigurationV1, PackBitsCodecConfiguration,
    PackBitsCodecConfigurationV1, PackBitsPaddingEncoding, PluginCreateError,
    ReshapeCodecConfiguration, ReshapeCodecConfigurationV1, ReshapeDim, ReshapeShape,
    ShardingCodecConfiguration, ShardingCodecConfigurationV1, ShardingIndexLocation,
    SqueezeCodecConfiguration, SqueezeCodecConfigurationV0, TransposeCodecConfiguration,
    TransposeCodecConfigurationV1, TransposeOrder, VlenCodecConfiguration,
    VlenCodecConfigurationV0, VlenCodecConfigurationV0_1, VlenIndexDataType, VlenIndexLocation,
};
pub use zarrs_packbits::{PACKBITS, PackBitsCodec, PackBitsPartialDecoder};
pub use zarrs_vlen_v2::{VLEN_BYTES, VLEN_UTF8, VlenV2Codec};
