//! The bytes-to-bytes codecs of a chain, one after another.
ghost use Rattle.std.specs.Prelude.{◌≡◌, Ok, []};
ghost use Rattle.zarrs_chunk.specs.Answer.{Gives, seen};
ghost use Rattle.zarrs_array_bytes.specs.Held.{items_of, raw_of};
ghost use Rattle.zarrs_chain_meaning.specs.BytesStages.{outer_value, outer_bytes, outer_representation as outer_representation_of};

use std::alloc::Global;
use zarrs_array_bytes::ArrayBytesRaw;
use zarrs_chunk::CodecError;
use zarrs_codec::{BytesRepresentation, BytesToBytesCodecTraits};

/// How many bytes the last codec makes.
pub fn outer_representation<B: BytesToBytesCodecTraits>(
    codecs: &[B],
    representation: BytesRepresentation,
) -> BytesRepresentation
    ensures value { result ≡ outer_representation_of B.functions codecs.now representation }
{
    match codecs {
        [] => representation,
        [first, rest @ ..] => {
            outer_representation(rest, first.encoded_representation(&representation))
        }
    }
}

/// The last codec's bytes, each codec's being made of those before. Errors: `OutOfMemory`.
pub fn encode_bytes<'a, B: BytesToBytesCodecTraits>(
    alloc: Global,
    codecs: &[B],
    bytes: ArrayBytesRaw<'a>,
) -> Result<ArrayBytesRaw<'a>, CodecError>
    ensures answer { Gives items_of result
        (outer_value B.functions codecs.now (items_of bytes.entry)) }
    ensures kept { codecs.now ≡ [] → seen raw_of result ≡ Ok (raw_of bytes.entry) }
{
    match codecs {
        [] => Ok(bytes),
        [first, rest @ ..] => encode_bytes(alloc, rest, first.encode(alloc, bytes)?),
    }
}

/// The bytes that stand below the codecs. Errors: `BytesCodec` of the last codec, then of the one
/// before, and so on.
pub fn decode_bytes<'a, B: BytesToBytesCodecTraits>(
    alloc: Global,
    codecs: &[B],
    representation: &BytesRepresentation,
    value: ArrayBytesRaw<'a>,
) -> Result<ArrayBytesRaw<'a>, CodecError>
    ensures answer { Gives items_of result
        (outer_bytes B.functions codecs.now representation.now (items_of value.entry)) }
    ensures kept { codecs.now ≡ [] → seen raw_of result ≡ Ok (raw_of value.entry) }
{
    match codecs {
        [] => Ok(value),
        [first, rest @ ..] => {
            let above = first.encoded_representation(representation);
            let bytes = decode_bytes(alloc, rest, &above, value)?;
            first.decode(alloc, bytes, representation)
        }
    }
}
