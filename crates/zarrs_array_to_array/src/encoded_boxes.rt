//! Where boxes of a chunk go through one codec, and what becomes of their elements.
ghost use Rattle.std.specs.Prelude.{◌≡◌, ◌<◌, All, Ok, is_ok, length, map, true};
ghost use Rattle.std.specs.List.{list_all};
ghost use Rattle.zarrs_array_bytes.specs.Elements.{elements};
ghost use Rattle.zarrs_array_bytes.specs.Tight.{KeepsTight};
ghost use Rattle.zarrs_array_bytes.specs.Validity.{validity, Holds};
ghost use Rattle.zarrs_array_to_array.specs.ArrayToArrayCodec.{coordinates, keeps_places, transpose};
ghost use Rattle.zarrs_array_to_array.specs.EncodedBoxes.{encoded_box, keeps_boxes, box_encoded, FitsBox};
ghost use Rattle.zarrs_array_to_array.specs.Mapping.{mapping_of};
ghost use Rattle.zarrs_array_to_array.specs.SqueezeMeaning.{squeeze_box};
ghost use Rattle.zarrs_array_to_array.specs.TransposeMeaning.{permuted_region, transpose_box};
ghost use Rattle.zarrs_chunk.specs.Answer.{GivesBy, GivesValue};
ghost use Rattle.zarrs_chunk.specs.ChunkShape.{product};
ghost use Rattle.zarrs_chunk.specs.Tuples.{is_box_inside};
ghost use Rattle.zarrs_metadata.specs.Orders.{is_order};

use crate::array_to_array_codec::ArrayToArrayCodec;
use crate::squeeze::squeeze_codec::{SqueezeCodec, squeezed_subset};
use crate::transpose::strides::permute;
use crate::transpose::transpose_codec::{TransposeCodec, transpose_elements};
use std::alloc::Global;
use zarrs_array_bytes::ArrayBytes;
use zarrs_chunk::{ArraySubset, ChunkShape, CodecError};
use zarrs_codec::ArrayToArrayCodecTraits;
use zarrs_data_type::DataType;

/// The box with its axes in this order.
fn permuted_subset(
    alloc: Global,
    order: &[usize],
    subset: &ArraySubset,
) -> Result<ArraySubset, CodecError>
    requires order { is_order order.now ≡ true }
    requires axes { length order.now ≡ length subset.now.starts }
    ensures answer { GivesValue result (Ok (permuted_region order.now subset.now)) }
{
    let lengths = subset.shape();
    let starts = permute(alloc, order, subset.start())?;
    let lengths = permute(alloc, order, lengths)?;
    ArraySubset::new_with_start_shape(starts, lengths)
}

/// Where transposition takes a box of a chunk of this shape.
fn transposed_box(
    alloc: Global,
    codec: &TransposeCodec,
    shape: &ChunkShape,
    subset: &ArraySubset,
) -> Result<(ChunkShape, ArraySubset), CodecError>
    requires taken { is_ok (coordinates (transpose codec.now) shape.now) ≡ true }
    requires inside { is_box_inside shape.now subset.now.starts subset.now.lengths ≡ true }
    ensures answer { GivesValue result (Ok (transpose_box codec.now shape.now subset.now)) }
{
    let encoded = codec.encoded_shape(alloc, shape)?;
    let subset = permuted_subset(alloc, codec.order(), subset)?;
    Ok((encoded, subset))
}

/// Where squeezing takes a box of a chunk of this shape.
fn squeezed_box(
    alloc: Global,
    codec: &SqueezeCodec,
    shape: &ChunkShape,
    subset: &ArraySubset,
) -> Result<(ChunkShape, ArraySubset), CodecError>
    requires inside { is_box_inside shape.now subset.now.starts subset.now.lengths ≡ true }
    ensures answer { GivesValue result (Ok (squeeze_box shape.now subset.now)) }
{
    let encoded = codec.encoded_shape(alloc, shape)?;
    let subset = squeezed_subset(alloc, shape.as_slice(), subset)?;
    Ok((encoded, subset))
}

impl ArrayToArrayCodec {
    /// Whether each place of a chunk stays where it is, so that the codec hands on a container as it is.
    pub fn keeps_places(&self) -> bool
        ensures value { result ≡ keeps_places (mapping_of self.now) }
    {
        match self {
            ArrayToArrayCodec::Transpose(_) => false,
            ArrayToArrayCodec::Reshape(_) | ArrayToArrayCodec::Squeeze(_) => true,
        }
    }

    /// Whether each box of a chunk goes to a box of the moved one.
    pub fn keeps_boxes(&self) -> bool
        ensures value { result ≡ keeps_boxes (mapping_of self.now) }
    {
        match self {
            ArrayToArrayCodec::Transpose(_) | ArrayToArrayCodec::Squeeze(_) => true,
            ArrayToArrayCodec::Reshape(_) => false,
        }
    }

    /// The shape that the codec makes of this one, which it accepts, and where a box inside goes; `None`
    /// where it makes no boxes of boxes. Errors: `OutOfMemory`.
    pub fn encoded_box(
        &self,
        alloc: Global,
        shape: &ChunkShape,
        subset: &ArraySubset,
    ) -> Result<Option<(ChunkShape, ArraySubset)>, CodecError>
        requires taken { is_ok (coordinates (mapping_of self.now) shape.now) ≡ true }
        requires inside { is_box_inside shape.now subset.now.starts subset.now.lengths ≡ true }
        ensures answer { GivesValue result
            (Ok (encoded_box (mapping_of self.now) shape.now subset.now)) }
    {
        match self {
            ArrayToArrayCodec::Transpose(codec) => {
                Ok(Some(transposed_box(alloc, codec, shape, subset)?))
            }
            ArrayToArrayCodec::Reshape(_) => Ok(None),
            ArrayToArrayCodec::Squeeze(codec) => Ok(Some(squeezed_box(
                alloc, codec, shape, subset,
            )?)),
        }
    }

    /// The elements of a box of these lengths as the codec moves them: as a chunk of the box's own
    /// lengths. There are `count` of them, no length is zero, the codec accepts them as a chunk, and the
    /// container is valid for the type and for so many. Where it is fixed by its elements, so is what is
    /// made. Errors: `OutOfMemory`.
    #[inline(always)]
    pub fn encode_part<'a>(
        &self,
        alloc: Global,
        bytes: ArrayBytes<'a>,
        lengths: &[u64],
        count: u64,
        data_type: &DataType,
    ) -> Result<ArrayBytes<'a>, CodecError>
        requires fits { FitsBox (mapping_of self.now) lengths.now }
        requires positive { All (λ len. 0 < len) lengths.now }
        requires count { product lengths.now ≡ count }
        requires valid { validity data_type.now count bytes ≡ Ok tt }
        ensures encoded { GivesBy (Holds data_type.now) result (Ok (box_encoded
            (mapping_of self.now) lengths.now (elements data_type.now count bytes.entry))) }
        ensures tight { KeepsTight data_type.now bytes.entry result }
    {
        match self {
            ArrayToArrayCodec::Transpose(codec) => {
                transpose_elements(alloc, &bytes, codec.order(), lengths, count, data_type)
            }
            ArrayToArrayCodec::Reshape(_) | ArrayToArrayCodec::Squeeze(_) => Ok(bytes),
        }
    }
}

/// Whether each of these codecs leaves each place where it is.
pub fn keep_places(codecs: &[ArrayToArrayCodec]) -> bool
    ensures value { result ≡ list_all keeps_places (map mapping_of codecs.now) }
{
    match codecs {
        [] => true,
        [first, rest @ ..] => first.keeps_places() && keep_places(rest),
    }
}
