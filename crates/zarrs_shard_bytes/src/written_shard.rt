//! What is written of a shard so far.
ghost use Rattle.std.specs.Prelude.{◌≡◌, ◌≤◌, [], None, Ok, Some, IfOk, true, false, length, replicate};
ghost use Rattle.zarrs_chunk.specs.Answer.{GivesItems};
ghost use Rattle.zarrs_chain_meaning.specs.sharding.Sharding.{first_offset as first_offset_of};
ghost use Rattle.zarrs_chain_meaning.specs.sharding.ShardingSettings.{is_index_at_end};
ghost use Rattle.zarrs_shard_bytes.specs.WrittenShard.{ListsFrom, WritesPart, written_seen, with_index};

use std::alloc::{AllocError, Global};
use zarrs_chunk::CodecError;
use zarrs_metadata::ShardingIndexLocation;

/// What is written of a shard so far: the bytes, and two numbers for each inner chunk.
#[derive(Drop)]
pub struct WrittenShard {
    /// The bytes so far, from the value's first one on.
    pub bytes: Vec<u8>,
    /// Where each inner chunk begins in the bytes and how many it has, or `usize::MAX` twice where it
    /// isn't stored.
    pub numbers: Vec<usize>,
}

impl WrittenShard {
    /// Nothing but so many bytes for an index that stands before the inner chunks, with room for so
    /// many bytes in all.
    pub fn new(alloc: Global, front: usize, room: usize) -> Result<WrittenShard, AllocError>
        ensures made { IfOk result (λ w. written_seen w ≡ (replicate front 0, [])) }
    {
        let mut bytes = Vec::with_capacity(alloc, room)?;
        bytes.resize(front, 0)?;
        Ok(WrittenShard {
            bytes,
            numbers: Vec::new(alloc),
        })
    }

    /// An inner chunk that isn't stored. Errors: `OutOfMemory`.
    #[tactic(auto, unfolding(zarrs_chain_meaning::specs::sharding::Sharding::missing))]
    pub fn leave_out(&mut self) -> Result<(), CodecError>
        ensures answer { WritesPart self.old self.new None result }
    {
        self.numbers.push(usize::MAX)?;
        self.numbers.push(usize::MAX)?;
        Ok(())
    }

    /// The value of an inner chunk, behind those before it. Errors: `OutOfMemory`.
    pub fn append(&mut self, value: &[u8]) -> Result<(), CodecError>
        ensures answer { WritesPart self.old self.new (Some value.now) result }
    {
        self.numbers.push(self.bytes.len())?;
        self.numbers.push(value.len())?;
        self.bytes.extend_from_slice(value)?;
        Ok(())
    }

    /// The bytes from an offset on become the value of an inner chunk. Errors: `OutOfMemory`.
    pub fn list_from(&mut self, offset: usize) -> Result<(), CodecError>
        requires inside { offset ≤ length self.old.bytes.items }
        ensures answer { ListsFrom self.old self.new offset result }
    {
        self.numbers.push(offset)?;
        self.numbers.push(self.bytes.len() - offset)?;
        Ok(())
    }
}

/// How many bytes stand before the inner chunks, where the index has so many.
pub fn first_offset(size: usize, location: ShardingIndexLocation) -> usize
    ensures value { result ≡ first_offset_of (is_index_at_end location) size }
{
    match location {
        ShardingIndexLocation::Start => size,
        ShardingIndexLocation::End => 0,
    }
}

/// Writes an index part over the first bytes.
fn put_front(bytes: &mut [u8], part: &[u8])
    requires inside { length part.now ≤ length bytes.old }
    ensures written { bytes.new ≡ with_index false (length part.now) bytes.old part.now }
{
    bytes[..part.len()].copy_from_slice(part);
}

/// The bytes with an index part in the place of the first ones.
fn with_front(bytes: Vec<u8>, part: &[u8]) -> Vec<u8>
    requires inside { length part.now ≤ length bytes.items }
    ensures value { result.items ≡ with_index false (length part.now) bytes.items part.now }
{
    let mut bytes = bytes;
    put_front(&mut bytes, part);
    bytes
}

/// The bytes with an index part behind them. Errors: `OutOfMemory`.
fn with_end(bytes: Vec<u8>, part: &[u8]) -> Result<Vec<u8>, CodecError>
    ensures answer { GivesItems result (Ok (with_index true 0 bytes.items part.now)) }
{
    let mut bytes = bytes;
    bytes.extend_from_slice(part)?;
    Ok(bytes)
}

/// The bytes with an index part in the place of the first ones, so many, or behind all of them.
/// Errors: `OutOfMemory`.
pub fn place_index(
    bytes: Vec<u8>,
    part: &[u8],
    size: usize,
    location: ShardingIndexLocation,
) -> Result<Vec<u8>, CodecError>
    requires len { length part.now ≡ size }
    requires inside { is_index_at_end location ≡ false → size ≤ length bytes.items }
    // Wide: the bytes, the part, its size and its place.
    ensures answer { GivesItems result
        (Ok (with_index (is_index_at_end location) size bytes.items part.now)) }
{
    match location {
        ShardingIndexLocation::Start => Ok(with_front(bytes, part)),
        ShardingIndexLocation::End => with_end(bytes, part),
    }
}
