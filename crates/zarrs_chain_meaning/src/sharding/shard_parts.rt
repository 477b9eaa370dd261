//! The parts of a shard's value, and how many bytes it has.
ghost use Rattle.std.specs.Prelude.{◌≡◌, ◌+◌, ◌*◌};
ghost use Rattle.zarrs_chunk.specs.Answer.{seen};
ghost use Rattle.zarrs_chain_meaning.specs.sharding.ShardSteps.{index_bytes, shard_size, stored_span};
ghost use Rattle.zarrs_chain_meaning.specs.optional.Optional.{bounded_total};
ghost use Rattle.zarrs_codec.specs.declared.bytes_representation.BytesRepresentation.TheVariants.{FixedSize};

use zarrs_chunk::CodecError;
use zarrs_codec::BytesRepresentation;

/// How many bytes so many inner chunks of one size and an index have, where 64 bits count them.
fn whole_size(count: u64, inner: u64, index: u64) -> Option<u64>
    ensures value { result ≡ shard_size count inner index }
{
    count.checked_mul(inner)?.checked_add(index)
}

/// How many bytes so many inner chunks and an index have at most. No bound where an inner chunk has
/// none, or where 64 bits don't count it.
pub fn bound(count: u64, inner: &BytesRepresentation, index: u64) -> BytesRepresentation
    ensures value { result ≡ bounded_total (λ inner index. count * inner + index) inner.now (FixedSize index) }
{
    match inner.size() {
        Some(size) => match whole_size(count, size, index) {
            Some(size) => BytesRepresentation::BoundedSize(size),
            None => BytesRepresentation::UnboundedSize,
        },
        None => BytesRepresentation::UnboundedSize,
    }
}

/// The bytes of the index, so many, of a value. Errors: `InvalidBytesLength` where the value has
/// fewer.
pub fn index_part(value: &[u8], size: u64, at_end: bool) -> Result<&[u8], CodecError>
    ensures answer { seen (λ part. part.now) result ≡ index_bytes value.now size at_end }
{
    let len = value.len() as u64;
    if len < size {
        return Err(CodecError::InvalidBytesLength {
            len,
            expected: size,
        });
    }
    let size = size as usize;
    if at_end {
        Ok(&value[value.len() - size..])
    } else {
        Ok(&value[..size])
    }
}

/// The bytes of a value from an offset on, so many. Errors: `InvalidByteRange` where they end behind
/// the value.
pub fn bytes_at(value: &[u8], offset: usize, size: usize) -> Result<&[u8], CodecError>
    ensures answer { seen (λ part. part.now) result ≡ stored_span value.now offset size }
{
    match offset.checked_add(size) {
        Some(end) if end <= value.len() => Ok(&value[offset..end]),
        _ => Err(CodecError::InvalidByteRange),
    }
}
