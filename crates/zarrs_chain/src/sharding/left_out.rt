//! Which inner chunks are left out: those whose elements' normal forms are all the fill element.
ghost use Rattle.std.specs.Prelude.{◌≡◌, Ok, true};
ghost use Rattle.zarrs_array_bytes.specs.Validity.{sizes_fit, validity};
ghost use Rattle.zarrs_data_type.specs.FillValue.{fill_fits};
ghost use Rattle.zarrs_chain.specs.sharding.ShardingCalls.{IsNormalFill, TellsKeptFill, TellsLeftOut};

use crate::array_to_bytes_codec::ArrayToBytesCodec;
use crate::sharding::normal_form::{keeps_all, normal_elements};
use std::alloc::Global;
use zarrs_array_bytes::ArrayBytes;
use zarrs_chunk::CodecError;
use zarrs_data_type::{DataType, FillValue};
use zarrs_shard_bytes::fill_elements::are_fill;

/// Whether the normal form of the fill element is that element.
pub(crate) fn is_fill_kept<B>(
    alloc: Global,
    codec: &ArrayToBytesCodec<B>,
    data_type: &DataType,
    fill: &FillValue,
) -> Result<bool, CodecError>
    requires filling { fill_fits data_type.now fill.now ≡ true }
    requires room { sizes_fit data_type.now 1 ≡ Ok tt }
    ensures answer { TellsKeptFill codec.now data_type.now fill.now result }
{
    if keeps_all(codec) {
        return Ok(true);
    }
    let element = ArrayBytes::new_fill_value(alloc, data_type, 1, fill)?;
    let kept = normal_elements(alloc, codec, element, 1, data_type)?;
    are_fill(&kept, data_type, fill.as_ne_bytes())
}

/// Whether an inner chunk of so many elements is left out. The elements are compared first, since
/// the fill element is its own normal form; a codec that keeps each element isn't asked.
pub(crate) fn is_left_out<B>(
    alloc: Global,
    codec: &ArrayToBytesCodec<B>,
    elements: &ArrayBytes<'_>,
    count: u64,
    data_type: &DataType,
    fill: &FillValue,
) -> Result<bool, CodecError>
    requires filling { fill_fits data_type.now fill.now ≡ true }
    requires normal { IsNormalFill codec.now data_type.now fill.now }
    requires valid { validity data_type.now count elements.now ≡ Ok tt }
    ensures answer { TellsLeftOut codec.now count data_type.now fill.now elements.now result }
{
    let item = fill.as_ne_bytes();
    if are_fill(elements, data_type, item)? {
        return Ok(true);
    }
    if keeps_all(codec) {
        return Ok(false);
    }
    let copy = elements.clone()?;
    let kept = normal_elements(alloc, codec, copy, count, data_type)?;
    are_fill(&kept, data_type, item)
}
