//! The elements of a chunk, moved to where they are wanted.
ghost use Rattle.std.specs.Prelude.{◌≡◌, ℕ, ◌*◌, ◌<◌, Some, Ok, length};
ghost use Rattle.zarrs_array_bytes.specs.Turned.{WholeComponents};
ghost use Rattle.zarrs_array_bytes.specs.Validity.{validity};
ghost use Rattle.zarrs_array_to_array.specs.CodecAnswers.{Moves, MovesBack};
ghost use Rattle.zarrs_array_to_array.specs.Mapping.{mapping_of};
ghost use Rattle.zarrs_array_to_array.specs.WrittenElements.{WritesHeld};
ghost use Rattle.zarrs_chunk.specs.ChunkShape.{product};
ghost use Rattle.zarrs_data_type.specs.ElementType.{fixed_size_of};

use crate::array_to_array_codec::ArrayToArrayCodec;
use std::alloc::Global;
use zarrs_array_bytes::{ArrayBytes, turn_in_place};
use zarrs_chunk::{ChunkShape, CodecError};
use zarrs_data_type::DataType;

/// Writes the elements of a container, all of one size, in their order, each component of `turn` bytes
/// turned round. Errors, where it isn't one of so many elements of the type, which leave what was there:
/// `ArrayBytesKind`; `InvalidBytesLength`.
pub fn copy_elements(
    bytes: &ArrayBytes<'_>,
    data_type: &DataType,
    size: usize,
    turn: Option<usize>,
    moved: &mut [u8],
) -> Result<(), CodecError>
    requires sized { fixed_size_of data_type.now ≡ Some size }
    requires turn { WholeComponents size turn }
    // Wide: the container is the answer wherever it is valid for a count that fills the slice.
    ensures written { WritesHeld turn moved.old moved.new result (λ answer. (count : ℕ)
        → length moved.old ≡ count * size → validity data_type.now count bytes.now ≡ Ok tt
        → answer ≡ Ok bytes.now) }
{
    let elements = bytes.as_fixed()?;
    if elements.len() != moved.len() {
        return Err(CodecError::InvalidBytesLength {
            len: elements.len() as u64,
            expected: moved.len() as u64,
        });
    }
    moved.copy_from_slice(elements);
    turn_in_place(moved, turn);
    Ok(())
}

impl ArrayToArrayCodec {
    /// Writes the elements of the moved chunk, all of one size, each component of `turn` bytes turned
    /// round: they pass through memory once. Errors as `encode`, which leave what was there.
    pub fn encode_into(
        &self,
        alloc: Global,
        bytes: &ArrayBytes<'_>,
        shape: &ChunkShape,
        data_type: &DataType,
        size: usize,
        turn: Option<usize>,
        moved: &mut [u8],
    ) -> Result<(), CodecError>
        requires some { 0 < size }
        requires sized { fixed_size_of data_type.now ≡ Some size }
        requires turn { WholeComponents size turn }
        requires len { length moved.old ≡ product shape.now * size }
        ensures moved { WritesHeld turn moved.old moved.new result (Moves (mapping_of self.now) data_type.now shape.now bytes.now) }
    {
        match self {
            ArrayToArrayCodec::Transpose(codec) => codec.encode_into(
                alloc, bytes, shape, data_type, size, turn, moved,
            ),
            ArrayToArrayCodec::Reshape(codec) => {
                codec.is_sound();
                copy_elements(bytes, data_type, size, turn, moved)
            }
            ArrayToArrayCodec::Squeeze(_) => copy_elements(bytes, data_type, size, turn, moved),
        }
    }

    /// Writes the elements of the decoded chunk of this shape, all of one size, each component of `turn`
    /// bytes turned round: they pass through memory once. Errors as `decode`, which leave what was there.
    pub fn decode_into(
        &self,
        alloc: Global,
        bytes: &ArrayBytes<'_>,
        shape: &ChunkShape,
        data_type: &DataType,
        size: usize,
        turn: Option<usize>,
        moved: &mut [u8],
    ) -> Result<(), CodecError>
        requires some { 0 < size }
        requires sized { fixed_size_of data_type.now ≡ Some size }
        requires turn { WholeComponents size turn }
        requires len { length moved.old ≡ product shape.now * size }
        ensures moved { WritesHeld turn moved.old moved.new result (MovesBack (mapping_of self.now) data_type.now shape.now bytes.now) }
    {
        match self {
            ArrayToArrayCodec::Transpose(codec) => codec.decode_into(
                alloc, bytes, shape, data_type, size, turn, moved,
            ),
            ArrayToArrayCodec::Reshape(codec) => {
                codec.is_sound();
                copy_elements(bytes, data_type, size, turn, moved)
            }
            ArrayToArrayCodec::Squeeze(_) => copy_elements(bytes, data_type, size, turn, moved),
        }
    }
}
