//! Whether the codec of an index gives its offsets back unchanged.
ghost use Rattle.zarrs_chunk.specs.Answer.{GivesValue, demand, is_fault, seen};
ghost use Rattle.zarrs_chunk.specs.declared.codec_error.CodecError.TheVariants.{OffsetNotKept};
ghost use Rattle.std.specs.Bool.{nat_eq};
ghost use Rattle.std.specs.Cmp.Lexicographic.{pointwise};
ghost use Rattle.std.specs.Prelude.{◌≡◌, ℕ, Ok, false, length, true};
ghost use Rattle.zarrs_array_bytes.specs.Offsets.{is_offsets};
ghost use Rattle.zarrs_array_bytes.specs.Parts.{fixed_part};
ghost use Rattle.zarrs_chain_meaning.specs.CodecMeaning.{packbits_codec};
ghost use Rattle.zarrs_chain.specs.ChainView.{plain_codec};
ghost use Rattle.zarrs_chain_meaning.specs.vlen.VlenSettings.{is_wide};
ghost use Rattle.zarrs_chain_meaning.specs.vlen.VlenSteps.{offsets_fit, keeps_offsets, TakesOffsets, IsPackable, offsets_form, TellsKept};
ghost use Rattle.zarrs_chain.specs.FormView.{lent_form};

use crate::array_to_bytes_codec::ArrayToBytesCodec;
use crate::encode::row_of;
use crate::form::Form;
use crate::sharding::normal_form::{keeps_all, normal_elements};
use std::alloc::Global;
use std::borrow::CowSlice;
use zarrs_array_bytes::ArrayBytes;
use zarrs_chain_meaning::vlen::vlen_offsets::{offset_fill, offset_items, offset_type};
use zarrs_chunk::CodecError;
use zarrs_metadata::VlenIndexDataType;
use zarrs_packbits::PackBitsCodec;

/// Whether the codec gives the elements of a chunk that it takes back unchanged.
fn keeps_items(
    alloc: Global,
    codec: &PackBitsCodec,
    items: &[u8],
    form: Form<'_>,
) -> Result<bool, CodecError>
    requires taken { IsPackable codec.now (lent_form form) }
    ensures answer { TellsKept codec.now form.entry.shape.now form.entry.data_type.now items.now
        result }
    ensures no_fault { is_fault result ≡ false }
{
    let Form {
        shape,
        data_type,
        fill_value,
    } = form;
    let elements = ArrayBytes::new_flen(CowSlice::Borrowed(items));
    let value = codec.encode(alloc, elements, shape, data_type, fill_value)?;
    let kept = codec.decode(alloc, value, shape, data_type, fill_value)?;
    holds_items(&kept, items)
}

/// Whether the bytes of elements of one size are these. Errors: `ArrayBytesKind` for any other
/// elements.
pub(crate) fn holds_items(elements: &ArrayBytes<'_>, items: &[u8]) -> Result<bool, CodecError>
    ensures answer { result
        ≡ seen (λ raw. pointwise nat_eq raw.items items.now) (fixed_part elements.now) }
{
    Ok(elements.as_fixed()? == items)
}

/// Whether the codec `packbits` gives the offsets back unchanged.
fn packs_offsets(
    alloc: Global,
    codec: &PackBitsCodec,
    offsets: &[usize],
    data_type: VlenIndexDataType,
) -> Result<bool, CodecError>
    requires rising { is_offsets offsets.now ≡ true }
    requires fits { offsets_fit (is_wide data_type) offsets.now ≡ true }
    requires taken { IsPackable codec.now (offsets_form (is_wide data_type) (length offsets.now)) }
    ensures answer { GivesValue result
        (Ok (keeps_offsets {B = ℕ} (packbits_codec codec.now) (is_wide data_type) offsets.now)) }
{
    let items = offset_items(alloc, offsets, data_type)?;
    let fill_value = offset_fill(alloc, data_type)?;
    match row_of(alloc, offsets.len() as u64)? {
        Some(row) => {
            let kind = offset_type(data_type);
            let form = Form {
                shape: &row,
                data_type: &kind,
                fill_value: &fill_value,
            };
            keeps_items(alloc, codec, &items, form)
        }
        None => Ok(true),
    }
}

/// Whether the normal forms of the offsets are they themselves.
fn are_normal<B>(
    alloc: Global,
    codec: &ArrayToBytesCodec<B>,
    offsets: &[usize],
    data_type: VlenIndexDataType,
) -> Result<bool, CodecError>
    requires rising { is_offsets offsets.now ≡ true }
    requires fits { offsets_fit (is_wide data_type) offsets.now ≡ true }
    // Wide: the codec, the offsets' type and the offsets.
    ensures answer { GivesValue result
        (Ok (keeps_offsets (plain_codec codec.now) (is_wide data_type) offsets.now)) }
{
    if keeps_all(codec) {
        return Ok(true);
    }
    let items = offset_items(alloc, offsets, data_type)?;
    let rows = ArrayBytes::new_flen(CowSlice::Borrowed(items.as_slice()));
    let count = offsets.len() as u64;
    let kept = normal_elements(alloc, codec, rows, count, &offset_type(data_type))?;
    holds_items(&kept, items.as_slice())
}

/// Whether a codec that was given offsets, counted from the first of them, gives them back unchanged.
/// Only `packbits` may leave out bits of a number, also inside a shard.
#[tactic(auto, using(crate::proofs::VlenKept::kept_by_all, crate::proofs::VlenKept::packed_keeps, crate::proofs::VlenKept::packed_takes))]
fn is_kept<B>(
    alloc: Global,
    codec: &ArrayToBytesCodec<B>,
    offsets: &[usize],
    data_type: VlenIndexDataType,
) -> Result<bool, CodecError>
    requires rising { is_offsets offsets.now ≡ true }
    requires fits { offsets_fit (is_wide data_type) offsets.now ≡ true }
    requires taken { TakesOffsets (plain_codec codec.now) (is_wide data_type) (length offsets.now) }
    ensures answer { GivesValue result
        (Ok (keeps_offsets (plain_codec codec.now) (is_wide data_type) offsets.now)) }
{
    if keeps_all(codec) {
        return Ok(true);
    }
    match codec {
        ArrayToBytesCodec::PackBits(codec) => packs_offsets(alloc, codec, offsets, data_type),
        _ => are_normal(alloc, codec, offsets, data_type),
    }
}

/// That a codec that was given offsets, counted from the first of them, gives them back unchanged.
/// Errors: `OffsetNotKept`.
pub(crate) fn check_kept<B>(
    alloc: Global,
    codec: &ArrayToBytesCodec<B>,
    offsets: &[usize],
    data_type: VlenIndexDataType,
) -> Result<(), CodecError>
    requires rising { is_offsets offsets.now ≡ true }
    requires fits { offsets_fit (is_wide data_type) offsets.now ≡ true }
    requires taken { TakesOffsets (plain_codec codec.now) (is_wide data_type) (length offsets.now) }
    ensures answer { GivesValue result (demand
        (keeps_offsets (plain_codec codec.now) (is_wide data_type) offsets.now) OffsetNotKept) }
{
    if is_kept(alloc, codec, offsets, data_type)? {
        Ok(())
    } else {
        Err(CodecError::OffsetNotKept)
    }
}
