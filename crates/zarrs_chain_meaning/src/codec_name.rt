//! The names of the codecs: in metadata, and those of `vlen` and `optional` in errors.
ghost use Rattle.std.specs.Prelude.{◌≡◌};
ghost use Rattle.zarrs_metadata.specs.CodecMetadata.{is_bytes_name};
ghost use Rattle.zarrs_chain_meaning.specs.CodecNames.{is_vlen_name, is_optional_name, is_sharding_name};
ghost use Rattle.zarrs_chain_meaning.specs.MadeChain.{codec_named as codec_named_of};

use zarrs_array_to_array::ArrayToArrayCodec;
use zarrs_chunk::CodecName;
use zarrs_vlen_v2::VlenV2Codec;

/// The name of `vlen` in errors.
pub const VLEN: CodecName = CodecName {
    letters: *b"vlen\0\0\0\0\0\0\0\0\0\0\0\0",
};

/// The name of `optional` in errors.
pub const OPTIONAL: CodecName = CodecName {
    letters: *b"optional\0\0\0\0\0\0\0\0",
};

/// The codecs that a chain knows by their names.
#[derive(Clone, Copy, Debug)]
pub enum KnownCodec {
    /// An array-to-array codec.
    Array,
    /// `bytes`.
    Bytes,
    /// `packbits`.
    PackBits,
    /// `vlen-utf8` or `vlen-bytes`.
    VlenV2,
    /// `zarrs.vlen`.
    Vlen,
    /// `zarrs.optional`.
    Optional,
    /// `sharding_indexed`.
    Sharding,
}

/// Whether the codec `bytes` is known by this name.
fn is_bytes(name: &str) -> bool
    ensures value { result ≡ is_bytes_name name.now }
{
    name == "bytes" || name == "endian"
}

/// Whether the codec `vlen` is known by this name.
pub fn is_vlen(name: &str) -> bool
    ensures value { result ≡ is_vlen_name name.now }
{
    name == "zarrs.vlen" || name == "https://codec.zarrs.dev/array_to_bytes/vlen"
}

/// Whether the codec `optional` is known by this name.
pub fn is_optional(name: &str) -> bool
    ensures value { result ≡ is_optional_name name.now }
{
    name == "zarrs.optional"
        || name == "optional"
        || name == "https://codec.zarrs.dev/array_to_bytes/optional"
}

/// Whether the codec `sharding_indexed` is known by this name.
pub fn is_sharding(name: &str) -> bool
    ensures value { result ≡ is_sharding_name name.now }
{
    name == "sharding_indexed"
}

/// The codec that is known by this name.
pub fn codec_named(name: &str) -> Option<KnownCodec>
    ensures value { result ≡ codec_named_of name.now }
{
    if ArrayToArrayCodec::is_named(name) {
        return Some(KnownCodec::Array);
    }
    if is_bytes(name) {
        return Some(KnownCodec::Bytes);
    }
    if name == "packbits" {
        return Some(KnownCodec::PackBits);
    }
    if VlenV2Codec::named(name).is_some() {
        return Some(KnownCodec::VlenV2);
    }
    if is_vlen(name) {
        return Some(KnownCodec::Vlen);
    }
    if is_optional(name) {
        return Some(KnownCodec::Optional);
    }
    if is_sharding(name) {
        return Some(KnownCodec::Sharding);
    }
    None
}
