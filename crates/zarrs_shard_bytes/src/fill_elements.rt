//! Whether elements are all the fill element.
ghost use Rattle.std.specs.Cmp.Lexicographic.{pointwise};
ghost use Rattle.std.specs.List.{list_all};
ghost use Rattle.std.specs.Bool.{nat_eq};
ghost use Rattle.std.specs.Prelude.{◌≡◌, ◌<◌, ◌+◌, ◌-◌, length, true};
ghost use Rattle.zarrs_array_bytes.specs.Elements.{cut};
ghost use Rattle.zarrs_array_bytes.specs.Offsets.{is_offsets, last_of};
ghost use Rattle.zarrs_array_bytes.specs.Update.{cuts};
ghost use Rattle.zarrs_data_type.specs.FillValue.{fill_fits, front_of, is_null as is_null_of};
ghost use Rattle.zarrs_shard_bytes.specs.FillElements.{TellsFill, Repeats};

use crate::same_bytes::is_same;
use zarrs_array_bytes::ArrayBytes;
use zarrs_chunk::CodecError;
use zarrs_data_type::DataType;

/// Whether elements of the item's size are all the item: the first one is, and each other one is as
/// the one before it.
pub fn repeats(bytes: &[u8], item: &[u8]) -> bool
    requires sized { 0 < length item.now }
    ensures value { Repeats item.now bytes.now result }
{
    let size = item.len();
    if bytes.len() < size {
        return bytes.is_empty();
    }
    &bytes[..size] == item && is_same(&bytes[size..], &bytes[..bytes.len() - size])
}

/// The bytes of the element at a place.
#[tactic(auto, using(zarrs_array_bytes::proofs::OffsetLemmas::offsets_facts))]
fn element<'r>(bytes: &'r [u8], offsets: &[usize], place: usize) -> &'r [u8]
    requires rising { is_offsets offsets.now ≡ true }
    requires ending { last_of offsets.now ≡ length bytes.now }
    requires inside { place + 1 < length offsets.now }
    ensures bytes { result.now ≡ cut offsets.now bytes.now place }
{
    &bytes[offsets[place]..offsets[place + 1]]
}

/// Whether the elements between the offsets are all the item.
fn cuts_repeat(bytes: &[u8], offsets: &[usize], item: &[u8]) -> bool
    requires rising { is_offsets offsets.now ≡ true }
    requires ending { last_of offsets.now ≡ length bytes.now }
    // Wide: the test of one element, of all between the offsets.
    ensures value { result ≡ list_all (λ part. pointwise nat_eq part item.now)
        (cuts (length offsets.now - 1) offsets.now bytes.now) }
{
    for place in 0..offsets.len() - 1 {
        if element(bytes, offsets, place) != item {
            return false;
        }
    }
    true
}

/// Whether each byte of the mask is the flag.
fn has_flag_alone(mask: &[u8], flag: u8) -> bool
    ensures value { result ≡ list_all (λ byte. nat_eq byte flag) mask.now }
{
    for byte in mask {
        if *byte != flag {
            return false;
        }
    }
    true
}

/// Whether the bytes are the absent fill value.
fn is_null(fill: &[u8]) -> bool
    ensures value { result ≡ is_null_of fill.now }
{
    fill.len() == 1 && fill[0] == 0
}

/// What a present fill value has for the type inside.
fn front(fill: &[u8]) -> &[u8]
    ensures value { result.now ≡ front_of fill.now }
{
    &fill[..fill.len().saturating_sub(1)]
}

/// Whether each element of this type is the fill element of these bytes. Errors: `ArrayBytesKind`
/// for elements of another kind.
#[tactic(auto, using(crate::proofs::FillTests::some_bytes, crate::proofs::FillTests::front_fits))]
pub fn are_fill(
    elements: &ArrayBytes<'_>,
    data_type: &DataType,
    fill: &[u8],
) -> Result<bool, CodecError>
    requires filling { fill_fits data_type.now fill.now ≡ true }
    ensures answer { TellsFill data_type.now fill.now elements.now result }
{
    if let Some(inner_type) = data_type.as_optional() {
        let (inside, mask) = elements.as_optional()?;
        if is_null(fill) {
            return Ok(has_flag_alone(mask, 0));
        }
        if !has_flag_alone(mask, 1) {
            return Ok(false);
        }
        return are_fill(inside, inner_type, front(fill));
    }
    match data_type.fixed_size() {
        Some(_) => Ok(repeats(elements.as_fixed()?, fill)),
        None => {
            let (bytes, offsets) = elements.as_variable()?;
            Ok(cuts_repeat(bytes, offsets.as_slice(), fill))
        }
    }
}
