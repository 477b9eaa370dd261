//! Elements of a container appended to those of another.
ghost use Rattle.std.specs.Prelude.{◌≡◌, ◌<◌, ◌^◌, ◌++◌, Ok, IsOk, IfOk, length, nat_lt, true};
ghost use Rattle.std.specs.List.{list_all};
ghost use Rattle.zarrs_chunk.specs.Answer.{GivesBy, GivesValue};
ghost use Rattle.zarrs_array_bytes.specs.Held.{items_of};
ghost use Rattle.zarrs_array_bytes.specs.Extracted.{IsSmall};
ghost use Rattle.zarrs_array_bytes.specs.Given.{MakesItems, GivesCuts};
ghost use Rattle.zarrs_array_bytes.specs.Joined.{appended_elements, joined_cuts as cuts_joined, GivesJoined};
ghost use Rattle.zarrs_array_bytes.specs.Offsets.{is_offsets, last_of};
ghost use Rattle.zarrs_array_bytes.specs.Parts.{fixed_part, variable_part, bytes_in, offsets_in};
ghost use Rattle.zarrs_array_bytes.specs.Pieces.{fixed_of, variable_of, masked_by};
ghost use Rattle.zarrs_array_bytes.specs.Tight.{AppendsTight};
ghost use Rattle.zarrs_array_bytes.specs.Validity.{HasElements, Holds, validity};

use crate::array_bytes::{ArrayBytes, Parts};
use crate::array_bytes_offsets::ArrayBytesOffsets;
use crate::array_bytes_raw::{ArrayBytesRaw, owned_bytes};
use crate::gather::append_cuts;
use std::alloc::Global;
use std::borrow::CowSlice;
use zarrs_chunk::CodecError;
use zarrs_data_type::DataType;

/// The `count` elements of the type, and behind them the `more_count` others. Owned bytes and offsets
/// are extended in place, so appending one container after another takes time in proportion to what is
/// appended. What is there already isn't read. Errors: `OutOfMemory`.
pub fn append_elements<'b>(
    alloc: Global,
    array: ArrayBytes<'_>,
    count: u64,
    more: &ArrayBytes<'_>,
    more_count: u64,
    data_type: &DataType,
) -> Result<ArrayBytes<'b>, CodecError>
    requires valid { validity data_type.now count array ≡ Ok tt }
    requires more_valid { validity data_type.now more_count more.now ≡ Ok tt }
    ensures answer { GivesBy (Holds data_type.now) result
        (Ok (appended_elements data_type.now count array.entry more_count more.now)) }
    ensures tight { AppendsTight data_type.now array.entry more.now result }
{
    join_levels(alloc, array, count, more, more_count, data_type)
}

/// The elements with the others behind them, level by level.
#[tactic(auto, using(crate::proofs::UpdateCalls::update_calls))]
fn join_levels<'b>(
    alloc: Global,
    array: ArrayBytes<'_>,
    count: u64,
    more: &ArrayBytes<'_>,
    more_count: u64,
    data_type: &DataType,
) -> Result<ArrayBytes<'b>, CodecError>
    requires valid { HasElements data_type.now count array }
    requires more_valid { HasElements data_type.now more_count more.now }
    ensures small { IfOk result IsSmall }
    ensures joined { GivesJoined data_type.now count more_count array.entry more.now result }
{
    match array.parts {
        Parts::Fixed(old) => join_fixed(alloc, old, more),
        Parts::Variable(old, offsets) => join_variable(alloc, old, offsets, more),
        Parts::Optional(old, mask) => {
            let (more, more_mask) = more.optional_parts();
            let inner_type = data_type.as_optional().unwrap();
            let old = Box::into_inner(old);
            let inner = join_levels(alloc, old, count, more, more_count, inner_type)?;
            join_mask(alloc, inner, mask, more_mask)
        }
    }
}

/// Elements of one size with others behind them.
fn join_fixed<'b>(
    alloc: Global,
    old: ArrayBytesRaw<'_>,
    more: &ArrayBytes<'_>,
) -> Result<ArrayBytes<'b>, CodecError>
    requires kind { IsOk (fixed_part more.now) }
    ensures small { IfOk result IsSmall }
    ensures exact { GivesValue result (Ok (fixed_of (items_of old.entry ++ bytes_in more.now))) }
{
    let bytes = joined_bytes(alloc, old, more.fixed_bytes())?;
    Ok(ArrayBytes::new_flen(CowSlice::Owned(bytes)))
}

/// Elements of any length with others behind them.
#[tactic(auto, using(crate::proofs::JoinedLemmas::join_calls))]
fn join_variable<'b>(
    alloc: Global,
    old: ArrayBytesRaw<'_>,
    offsets: ArrayBytesOffsets,
    more: &ArrayBytes<'_>,
) -> Result<ArrayBytes<'b>, CodecError>
    requires kind { IsOk (variable_part more.now) }
    requires ending { last_of offsets ≡ length (items_of old) }
    ensures small { IfOk result IsSmall }
    ensures rising { is_offsets offsets ≡ true }
    ensures exact { GivesValue result (Ok (variable_of
        (cuts_joined offsets (items_of old.entry) (offsets_in more.now) (bytes_in more.now)))) }
{
    let offsets = offsets.into_numbers();
    let (more, more_offsets) = more.variable_parts();
    let (bytes, offsets) = joined_cuts(alloc, old, offsets, more, more_offsets)?;
    Ok(ArrayBytes::of_cuts(bytes, offsets))
}

/// Elements under a mask with others behind them, where those below it are joined already.
#[tactic(auto, using(crate::proofs::JoinedLemmas::join_calls))]
fn join_mask<'b>(
    alloc: Global,
    inner: ArrayBytes<'b>,
    mask: ArrayBytesRaw<'_>,
    more_mask: &[u8],
) -> Result<ArrayBytes<'b>, CodecError>
    requires flags { list_all (λ byte. nat_lt byte 2) (items_of mask) ≡ true }
    requires more_flags { list_all (λ byte. nat_lt byte 2) more_mask.now ≡ true }
    ensures small { IfOk result (λ array. IsSmall inner.entry → IsSmall array) }
    ensures exact { GivesValue result
        (Ok (masked_by inner.entry (items_of mask.entry ++ more_mask.now))) }
{
    let mask = joined_bytes(alloc, mask, more_mask)?;
    ArrayBytes::of_masked(alloc, inner, mask)
}

/// Bytes with others behind them. Owned bytes are extended in place.
fn joined_bytes(alloc: Global, raw: ArrayBytesRaw<'_>, more: &[u8]) -> Result<Vec<u8>, CodecError>
    ensures small { IfOk result (λ bytes. length bytes.items < 2 ^ 64) }
    ensures exact { MakesItems result (items_of raw.entry ++ more.now) }
{
    let mut bytes = owned_bytes(alloc, raw)?;
    bytes.extend_from_slice(more)?;
    Ok(bytes)
}

/// Bytes and offsets of elements of any length with those of others behind them, where the bytes before
/// the others' first element are left out.
#[tactic(auto, using(crate::proofs::JoinedLemmas::join_calls))]
fn joined_cuts(
    alloc: Global,
    raw: ArrayBytesRaw<'_>,
    offsets: Vec<usize>,
    more: &[u8],
    more_offsets: &[usize],
) -> Result<(Vec<u8>, Vec<usize>), CodecError>
    requires more_rising { is_offsets more_offsets.now ≡ true }
    requires more_ending { last_of more_offsets.now ≡ length more.now }
    ensures small { IfOk result (λ parts. length parts.1.items < 2 ^ 64) }
    ensures exact { GivesCuts result
        (cuts_joined offsets.items (items_of raw.entry) more_offsets.now more.now) }
{
    let mut bytes = owned_bytes(alloc, raw)?;
    let mut ends = offsets;
    append_cuts(
        &mut bytes,
        &mut ends,
        more,
        more_offsets,
        0,
        more_offsets.len() - 1,
    )?;
    Ok((bytes, ends))
}
