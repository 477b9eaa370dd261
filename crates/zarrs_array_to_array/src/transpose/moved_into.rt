//! The elements of a transposed chunk, written where they are wanted.
ghost use Rattle.std.specs.Prelude.{◌≡◌, ◌*◌, ◌<◌, ◌^◌, Some, Ok, true, length, All};
ghost use Rattle.zarrs_array_bytes.specs.Elements.{elements};
ghost use Rattle.zarrs_array_bytes.specs.Turned.{WholeComponents};
ghost use Rattle.zarrs_array_bytes.specs.Validity.{validity, Holds};
ghost use Rattle.zarrs_array_to_array.specs.ArrayToArrayCodec.{transpose};
ghost use Rattle.zarrs_array_to_array.specs.CodecAnswers.{Moves, MovesBack};
ghost use Rattle.zarrs_array_to_array.specs.Transpose.{transposed_chunk};
ghost use Rattle.zarrs_array_to_array.specs.WrittenElements.{WritesHeld};
ghost use Rattle.zarrs_chunk.specs.Answer.{GivesBy};
ghost use Rattle.zarrs_chunk.specs.ChunkShape.{product};
ghost use Rattle.zarrs_data_type.specs.ElementType.{fixed_size_of};
ghost use Rattle.zarrs_metadata.specs.Orders.{is_order};

use crate::transpose::axis_positions::positions;
use crate::transpose::strides::permute;
use crate::transpose::transpose_codec::TransposeCodec;
use crate::transpose::transposed_pieces::put_transposed;
use std::alloc::Global;
use zarrs_array_bytes::ArrayBytes;
use zarrs_chunk::{ChunkShape, CodecError};
use zarrs_data_type::DataType;

/// Writes the elements of one size of a chunk of these sizes with its axes in this order, each component
/// of `turn` bytes turned round. The order, the sizes and the container are as `transpose_elements` takes
/// them. Errors: `OutOfMemory`, which leaves what was there.
fn put_elements(
    alloc: Global,
    bytes: &ArrayBytes<'_>,
    order: &[usize],
    sizes: &[u64],
    data_type: &DataType,
    size: usize,
    turn: Option<usize>,
    moved: &mut [u8],
) -> Result<(), CodecError>
    requires order { is_order order.now ≡ true }
    requires axes { length order.now ≡ length sizes.now }
    requires positive { All (λ size. 0 < size) sizes.now }
    requires fits { product sizes.now < 2 ^ 64 }
    requires valid { validity data_type.now (product sizes.now) bytes.now ≡ Ok tt }
    requires some { 0 < size }
    requires sized { fixed_size_of data_type.now ≡ Some size }
    requires turn { WholeComponents size turn }
    requires len { length moved.old ≡ product sizes.now * size }
    ensures written { WritesHeld turn moved.old moved.new result (λ answer. GivesBy (Holds data_type.now) answer
        (Ok (transposed_chunk order.now sizes.now (elements data_type.now (product sizes.now) bytes.now)))) }
{
    let elements = bytes.as_fixed()?;
    put_transposed(alloc, moved, elements, size, order, sizes, turn)?;
    Ok(())
}

impl TransposeCodec {
    /// Writes the elements that `encode` answers, all of one size, each component of `turn` bytes turned
    /// round. Errors as `encode`, which leave what was there.
    pub(crate) fn encode_into(
        &self,
        alloc: Global,
        bytes: &ArrayBytes<'_>,
        shape: &ChunkShape,
        data_type: &DataType,
        size: usize,
        turn: Option<usize>,
        moved: &mut [u8],
    ) -> Result<(), CodecError>
        requires some { 0 < size }
        requires sized { fixed_size_of data_type.now ≡ Some size }
        requires turn { WholeComponents size turn }
        requires len { length moved.old ≡ product shape.now * size }
        ensures moved { WritesHeld turn moved.old moved.new result (Moves (transpose self.now) data_type.now shape.now bytes.now) }
    {
        self.check(bytes, shape, data_type)?;
        let order = self.order();
        put_elements(
            alloc,
            bytes,
            order,
            shape.as_slice(),
            data_type,
            size,
            turn,
            moved,
        )
    }

    /// Writes the elements that `decode` answers, all of one size, each component of `turn` bytes turned
    /// round. Errors as `decode`, which leave what was there.
    pub(crate) fn decode_into(
        &self,
        alloc: Global,
        bytes: &ArrayBytes<'_>,
        shape: &ChunkShape,
        data_type: &DataType,
        size: usize,
        turn: Option<usize>,
        moved: &mut [u8],
    ) -> Result<(), CodecError>
        requires some { 0 < size }
        requires sized { fixed_size_of data_type.now ≡ Some size }
        requires turn { WholeComponents size turn }
        requires len { length moved.old ≡ product shape.now * size }
        ensures moved { WritesHeld turn moved.old moved.new result (MovesBack (transpose self.now) data_type.now shape.now bytes.now) }
    {
        self.check(bytes, shape, data_type)?;
        let order = self.order();
        let back = positions(alloc, order)?;
        let encoded = permute(alloc, order, shape.as_slice())?;
        put_elements(
            alloc,
            bytes,
            back.as_slice(),
            encoded.as_slice(),
            data_type,
            size,
            turn,
            moved,
        )
    }
}
