//! Elements of a container replaced at the tuples of an indexer, or at runs.
ghost use Rattle.std.specs.Prelude.{◌≡◌, ◌+◌, ◌*◌, ◌-◌, ◌≤◌, ◌<◌, Ok, IsOk, IfOk, All, length, nat_lt, true, false};
ghost use Rattle.std.specs.List.{list_all};
ghost use Rattle.zarrs_chunk.specs.Answer.{is_fault, GivesBy, GivesValue};
ghost use Rattle.zarrs_chunk.specs.Runs.{joined_runs};
ghost use Rattle.zarrs_array_bytes.specs.Held.{items_of, mask_levels};
ghost use Rattle.zarrs_array_bytes.specs.Offsets.{is_offsets, last_of};
ghost use Rattle.zarrs_array_bytes.specs.Parts.{fixed_part, variable_part, optional_part, bytes_in, offsets_in, inner_in};
ghost use Rattle.zarrs_array_bytes.specs.Validity.{HasElements, data_fit, Holds};
ghost use Rattle.zarrs_array_bytes.specs.Tight.{UpdatesTight, GivesFlush, IsFlush};
ghost use Rattle.zarrs_array_bytes.specs.Chunks.{update_fit, update_at_places, chunk_update};
ghost use Rattle.zarrs_chunk.specs.Indexer.{selection_of};
ghost use Rattle.zarrs_array_bytes.specs.Update.{container_written, with_runs, cuts_update, update};
ghost use Rattle.zarrs_array_bytes.specs.Pieces.{fixed_of, variable_of, masked_by};

use crate::array_bytes::{ArrayBytes, Parts};
use crate::array_bytes_offsets::ArrayBytesOffsets;
use crate::array_bytes_raw::ArrayBytesRaw;
use crate::runs::count_places;
use crate::sources::written_cuts;
use crate::validate::WrongLength;
use crate::write::{written_elements, written_flags};
use std::alloc::Global;
use std::borrow::CowSlice;
use zarrs_chunk::{ChunkShape, CodecError, Indexer};
use zarrs_data_type::DataType;

/// The elements of a chunk of this shape and type, with those at the indexer's tuples replaced by
/// the new ones, one after another: where a tuple comes twice, the last one counts. Elements of one
/// size are written into the old bytes where those are owned, a run at a time. Errors, the first
/// that applies, `OutOfMemory` aside: those of the indexer (`IncompatibleDimensionality`,
/// `OutOfBounds`, and `Overflow` where the shape has `2^64` elements or more); those of `validate` of
/// the old elements at the shape's element count; those of `validate_data` of the new ones,
/// `ArrayBytesKind` or `DataMismatch` level by level.
pub fn update_array_bytes(
    alloc: Global,
    array: ArrayBytes<'_>,
    shape: &ChunkShape,
    indexer: &Indexer,
    new: &ArrayBytes<'_>,
    data_type: &DataType,
) -> Result<ArrayBytes<'static>, CodecError>
    ensures exact { GivesBy (Holds data_type.now) result
        (chunk_update data_type.now shape.now (selection_of indexer.now) array.entry new.now) }
    ensures flush { GivesFlush result }
    ensures tight { UpdatesTight data_type.now array.entry new.now result }
{
    let runs = indexer.runs(alloc, shape)?;
    let count = shape.num_elements()?;
    update_runs(alloc, array, count, runs.as_slice(), new, data_type)
}

/// The `count` elements of the type, with those at the places of the runs, each a start and a
/// length, replaced by the new ones, one after another: where a place comes twice, the last one
/// counts. Elements of one size are written into the old bytes where those are owned, a run at a
/// time. Errors, the first that applies, `OutOfMemory` aside: those of `validate` of the old elements
/// at `count`; those of `validate_data` of the new ones at the number of the runs' places.
pub fn update_runs<'b>(
    alloc: Global,
    array: ArrayBytes<'_>,
    count: u64,
    runs: &[(u64, u64)],
    new: &ArrayBytes<'_>,
    data_type: &DataType,
) -> Result<ArrayBytes<'b>, CodecError>
    requires inside { All (λ run. run.0 + run.1 ≤ count) runs.now }
    ensures answer { GivesBy (Holds data_type.now) result
        (update_at_places data_type.now count (joined_runs runs.now) array.entry new.now) }
    ensures flush { GivesFlush result }
    ensures tight { UpdatesTight data_type.now array.entry new.now result }
{
    check_update(&array, count, runs, new, data_type)?;
    write_elements(alloc, array, count, new, runs, data_type)
}

/// Whether the old elements are `count` of the type, and the new ones have one for each place of the
/// runs.
fn check_update(
    old: &ArrayBytes<'_>,
    count: u64,
    runs: &[(u64, u64)],
    new: &ArrayBytes<'_>,
    data_type: &DataType,
) -> Result<(), CodecError>
    ensures exact { result ≡ update_fit data_type.now count (joined_runs runs.now) old.now new.now }
    ensures no_fault { is_fault result ≡ false }
{
    old.validate(count, data_type)?;
    check_data(new, runs, data_type)
}

/// Whether the new data have one element of the type for each place of the runs.
fn check_data(
    new: &ArrayBytes<'_>,
    runs: &[(u64, u64)],
    data_type: &DataType,
) -> Result<(), CodecError>
    ensures exact { result ≡ data_fit data_type.now (length (joined_runs runs.now)) new.now }
    ensures no_fault { is_fault result ≡ false }
{
    new.check_levels(count_places(runs), data_type, WrongLength::DataMismatch)
}

/// The elements with those at the runs replaced by the new ones, in order.
#[tactic(auto, using(crate::proofs::UpdateCalls::update_calls))]
pub(crate) fn write_elements<'b>(
    alloc: Global,
    array: ArrayBytes<'_>,
    count: u64,
    new: &ArrayBytes<'_>,
    runs: &[(u64, u64)],
    data_type: &DataType,
) -> Result<ArrayBytes<'b>, CodecError>
    requires valid { HasElements data_type.now count array }
    requires data_valid { data_fit data_type.now (length (joined_runs runs.now)) new.now ≡ Ok tt }
    requires inside { All (λ run. run.0 + run.1 ≤ count) runs.now }
    ensures exact { GivesValue result
        (Ok (container_written data_type.now count array.entry (joined_runs runs.now) new.now)) }
    ensures flush { GivesFlush result }
{
    match array.parts {
        Parts::Fixed(old) => {
            let size = data_type.fixed_size().unwrap();
            write_fixed(alloc, old, new, size, runs)
        }
        Parts::Variable(old, offsets) => write_variable(alloc, old, offsets, new, runs),
        Parts::Optional(old, mask) => {
            let (new, new_mask) = new.optional_parts();
            let inner_type = data_type.as_optional().unwrap();
            let inner = write_elements(alloc, Box::into_inner(old), count, new, runs, inner_type)?;
            write_mask(alloc, inner, mask, new_mask, runs)
        }
    }
}

/// Elements of `size` with those at the runs replaced by the new ones.
fn write_fixed<'b>(
    alloc: Global,
    old: ArrayBytesRaw<'_>,
    new: &ArrayBytes<'_>,
    size: usize,
    runs: &[(u64, u64)],
) -> Result<ArrayBytes<'b>, CodecError>
    requires kind { IsOk (fixed_part new.now) }
    requires inside { All (λ run. (run.0 + run.1) * size ≤ length (items_of old)) runs.now }
    requires enough { length (joined_runs runs.now) * size ≤ length (bytes_in new.now) }
    ensures exact { GivesValue result
        (Ok (fixed_of (with_runs size (items_of old.entry) runs.now (bytes_in new.now)))) }
    ensures flush { GivesFlush result }
{
    let bytes = written_elements(alloc, old, new.fixed_bytes(), size, runs)?;
    Ok(ArrayBytes::new_flen(CowSlice::Owned(bytes)))
}

/// Elements of any length with those at the runs replaced by the new ones.
#[tactic(auto, using(crate::proofs::UpdateCalls::update_calls))]
fn write_variable<'b>(
    alloc: Global,
    old: ArrayBytesRaw<'_>,
    offsets: ArrayBytesOffsets,
    new: &ArrayBytes<'_>,
    runs: &[(u64, u64)],
) -> Result<ArrayBytes<'b>, CodecError>
    requires kind { IsOk (variable_part new.now) }
    requires ending { last_of offsets ≡ length (items_of old) }
    requires inside { All (λ run. run.0 + run.1 ≤ length offsets - 1) runs.now }
    requires enough { length (offsets_in new.now) ≡ length (joined_runs runs.now) + 1 }
    ensures exact { GivesValue result (Ok (variable_of (cuts_update offsets (items_of old.entry)
        (offsets_in new.now) (bytes_in new.now) (joined_runs runs.now)))) }
    ensures flush { GivesFlush result }
{
    let (new, new_offsets) = new.variable_parts();
    let (bytes, offsets) = written_cuts(
        alloc,
        old.as_slice(),
        offsets.as_slice(),
        new,
        new_offsets,
        runs,
    )?;
    Ok(ArrayBytes::of_variable(bytes, offsets))
}

/// Elements under a mask with those at the runs replaced by the new ones, where the elements below
/// it are written already.
fn write_mask<'b>(
    alloc: Global,
    inner: ArrayBytes<'b>,
    mask: ArrayBytesRaw<'_>,
    new_mask: &[u8],
    runs: &[(u64, u64)],
) -> Result<ArrayBytes<'b>, CodecError>
    requires old_flags { list_all (λ byte. nat_lt byte 2) (items_of mask) ≡ true }
    requires new_flags { list_all (λ byte. nat_lt byte 2) new_mask.now ≡ true }
    requires inside { All (λ run. run.0 + run.1 ≤ length (items_of mask)) runs.now }
    requires enough { length new_mask.now ≡ length (joined_runs runs.now) }
    ensures exact { GivesValue result (Ok (masked_by inner.entry
        (update (items_of mask.entry) (joined_runs runs.now) new_mask.now))) }
    ensures flush { IfOk result (λ array. IsFlush inner.entry → IsFlush array) }
{
    let mask = written_flags(alloc, mask, new_mask, runs)?;
    ArrayBytes::of_masked(alloc, inner, mask)
}

impl<'a> ArrayBytes<'a> {
    pub(crate) fn fixed_bytes(&self) -> &[u8]
        requires kind { IsOk (fixed_part self.now) }
        ensures bytes { result.now ≡ bytes_in self.now }
    {
        match &self.parts {
            Parts::Fixed(bytes) => bytes.as_slice(),
            Parts::Variable(_, _) => unreachable!(),
            Parts::Optional(_, _) => unreachable!(),
        }
    }

    pub(crate) fn variable_parts(&self) -> (&[u8], &[usize])
        requires kind { IsOk (variable_part self.now) }
        ensures bytes { result.0.now ≡ bytes_in self.now }
        ensures offsets { result.1.now ≡ offsets_in self.now }
        ensures rising { is_offsets result.1.now ≡ true }
        ensures ending { last_of result.1.now ≡ length result.0.now }
    {
        match &self.parts {
            Parts::Fixed(_) => unreachable!(),
            Parts::Variable(bytes, offsets) => (bytes.as_slice(), offsets.as_slice()),
            Parts::Optional(_, _) => unreachable!(),
        }
    }

    pub(crate) fn optional_parts(&self) -> (&ArrayBytes<'a>, &[u8])
        requires kind { IsOk (optional_part self.now) }
        ensures inner { result.0.now ≡ inner_in self.now }
        ensures bytes { result.1.now ≡ bytes_in self.now }
        ensures mask { list_all (λ byte. nat_lt byte 2) result.1.now ≡ true }
        ensures shallower { mask_levels result.0.now < mask_levels self.now }
    {
        match &self.parts {
            Parts::Fixed(_) => unreachable!(),
            Parts::Variable(_, _) => unreachable!(),
            Parts::Optional(inner, mask) => (inner, mask.as_slice()),
        }
    }
}
