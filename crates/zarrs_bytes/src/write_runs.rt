//! New elements written at runs of places, over a handle that keeps a chunk's value.
ghost use Rattle.zarrs_data_type.specs.Form.{form_of};
ghost use Rattle.std.specs.Prelude.{◌≡◌, ◌<◌, ◌+◌, ◌*◌, ◌^◌, Ok, All, IsOk, OnOk, OnErr, length, map};
ghost use Rattle.zarrs_chunk.specs.Answer.{Answers, memory_or_fault, seen};
ghost use Rattle.zarrs_chunk.specs.ChunkShape.{product};
ghost use Rattle.zarrs_chunk.specs.Runs.{joined_runs, EndWithin};
ghost use Rattle.zarrs_array_bytes.specs.Parts.{fixed_part, fixed_items, bytes_in};
ghost use Rattle.zarrs_bytes.specs.BytesCodec.{BytesTakes};
ghost use Rattle.zarrs_codec.specs.Calls.{CountsWrite};
ghost use Rattle.zarrs_codec.specs.StorageState.{KeptIfAtomic, LeftByWriting};
ghost use Rattle.zarrs_codec.specs.ArrayWriter.{LeftByRefusal};
ghost use Rattle.zarrs_bytes.specs.PartialRead.{run_byte_numbers};
ghost use Rattle.zarrs_bytes.specs.PartialWrite.{value_bytes, CountsWriteOfRuns, FailsByWriting, FillsUp, FitRuns, GivesBytes, PutsBytes, WritesRuns};

use crate::bytes_codec::BytesCodec;
use crate::bytes_codec_partial::element_size;
use std::alloc::Global;
use std::borrow::CowSlice;
use zarrs_array_bytes::{ArrayBytes, ArrayBytesRaw, turn, update_runs};
use zarrs_chunk::{ChunkShape, CodecError};
use zarrs_codec::BytesPartialEncoderTraits;
use zarrs_data_type::{DataType, FillValue};

/// Makes runs of elements of `size` bytes runs of their bytes, in place.
fn scale_runs(runs: &mut [(u64, u64)], size: u64)
    requires ends { All (λ run. (run.0 + run.1) * size < 2 ^ 64) runs.old }
    ensures scaled { runs.new ≡ map (λ run. (run.0 * size, run.1 * size)) runs.old }
{
    for index in 0..runs.len() {
        let (start, len) = runs[index];
        runs[index] = (start * size, len * size);
    }
}

/// Writes the bytes of these runs of elements of `size` bytes into the value, by one call of the
/// handle.
fn put_runs<H: BytesPartialEncoderTraits>(
    alloc: Global,
    handle: &mut H,
    size: u64,
    runs: &mut [(u64, u64)],
    bytes: &[u8],
) -> Result<(), CodecError>
    requires filled { All (λ run. 0 < run.1) runs.old }
    requires ends { All (λ run. (run.0 + run.1) * size < 2 ^ 64) runs.old }
    requires sized { 0 < size }
    requires enough { length bytes.now ≡ length (joined_runs runs.old) * size }
    ensures answer { Answers memory_or_fault (λ done. done) result (Ok tt) }
    ensures written { PutsBytes size runs.old bytes.now H.state handle.old handle.new result }
    ensures kept_if_atomic { KeptIfAtomic H.atomic H.state handle.old handle.new result }
    ensures left { LeftByWriting H.state handle.old handle.new result }
    ensures same_reference { H.lent handle.new ≡ H.lent handle.old }
    ensures counted { CountsWrite H.calls handle.old handle.new (run_byte_numbers size runs.old) result }
{
    scale_runs(runs, size);
    handle.partial_encode_many(alloc, runs, bytes)
}

/// Elements of one size, lent.
fn lend<'b>(elements: &'b ArrayBytes<'_>) -> Result<ArrayBytes<'b>, CodecError>
    requires kind { IsOk (fixed_part elements.now) }
    ensures items { seen fixed_items result ≡ Ok (fixed_items elements.now) }
{
    let bytes = elements.as_fixed()?;
    Ok(ArrayBytes::new_flen(CowSlice::Borrowed(bytes)))
}

impl BytesCodec {
    /// The bytes of elements of a fixed type as they stand in a value. Errors: `ArrayBytesKind` for
    /// any other elements; `OutOfMemory`.
    fn spell<'b>(
        &self,
        alloc: Global,
        elements: ArrayBytes<'b>,
        data_type: &DataType,
    ) -> Result<ArrayBytesRaw<'b>, CodecError>
        requires kind { IsOk (fixed_part elements) }
        ensures answer { GivesBytes result (value_bytes self.now data_type.now elements.entry) }
    {
        let bytes = elements.into_fixed()?;
        turn(alloc, bytes, self.turn_size(data_type))
    }

    /// Writes the bytes of new elements over those of the runs' places, by one call of the handle.
    fn write_over<H: BytesPartialEncoderTraits>(
        &self,
        alloc: Global,
        handle: &mut H,
        data_type: &DataType,
        size: u64,
        runs: &mut [(u64, u64)],
        elements: ArrayBytes<'_>,
    ) -> Result<(), CodecError>
        requires filled { All (λ run. 0 < run.1) runs.old }
        requires ends { All (λ run. (run.0 + run.1) * size < 2 ^ 64) runs.old }
        requires sized { 0 < size }
        requires kind { IsOk (fixed_part elements) }
        requires enough { length (bytes_in elements) ≡ length (joined_runs runs.old) * size }
        ensures answer { Answers memory_or_fault (λ done. done) result (Ok tt) }
        // Wide: it names the handle's state before and after, and what each byte comes from.
        ensures written { PutsBytes size runs.old
            (value_bytes self.now data_type.now elements.entry)
            H.state handle.old handle.new result }
        ensures one_write { OnOk result (LeftByWriting H.state handle.old handle.new result) }
        ensures refused { OnErr result (LeftByRefusal H.state handle.old handle.new result) }
        ensures unread { FailsByWriting H.state handle.old handle.new result }
        ensures kept_if_atomic { KeptIfAtomic H.atomic H.state handle.old handle.new result }
        ensures same_reference { H.lent handle.new ≡ H.lent handle.old }
        ensures counted { CountsWrite H.calls
            handle.old handle.new (run_byte_numbers size runs.old) result }
    {
        let bytes = self.spell(alloc, elements, data_type)?;
        put_runs(alloc, handle, size, runs, bytes.as_slice())
    }

    /// The value of a chunk of fill elements with these at the runs' places.
    fn value_from_fill(
        &self,
        alloc: Global,
        shape: &ChunkShape,
        data_type: &DataType,
        fill: &FillValue,
        runs: &[(u64, u64)],
        new: &ArrayBytes<'_>,
    ) -> Result<ArrayBytesRaw<'static>, CodecError>
        requires taken { BytesTakes self.now (form_of shape.now data_type.now fill.now) }
        requires below { EndWithin (product shape.now) runs.now }
        requires fit { FitRuns data_type.now runs.now new.now }
        ensures answer { FillsUp self.now shape.now data_type.now fill.now runs.now new.now result }
    {
        let count = shape.num_elements()?;
        let filled = ArrayBytes::new_fill_value(alloc, data_type, count, fill)?;
        let edited = update_runs(alloc, filled, count, runs, new, data_type)?;
        self.encode(alloc, edited, shape, data_type, fill)
    }

    /// The same of elements that are let go.
    fn into_value(
        &self,
        alloc: Global,
        shape: &ChunkShape,
        data_type: &DataType,
        fill: &FillValue,
        runs: &[(u64, u64)],
        new: ArrayBytes<'_>,
    ) -> Result<ArrayBytesRaw<'static>, CodecError>
        requires taken { BytesTakes self.now (form_of shape.now data_type.now fill.now) }
        requires below { EndWithin (product shape.now) runs.now }
        requires fit { FitRuns data_type.now runs.now new }
        ensures answer { FillsUp self.now shape.now data_type.now fill.now runs.now new.entry result }
    {
        self.value_from_fill(alloc, shape, data_type, fill, runs, &new)
    }

    /// Writes new elements at the places of these runs, each a start and a length, in order, over a
    /// handle that keeps the value of a chunk of this form: where a place comes twice, the last one
    /// stands. Of a stored value the places' bytes alone are replaced, and it grows with zeros up to
    /// the furthest place. Where nothing is stored, the value of the whole chunk is written, which
    /// begins as fill elements, without runs too. The codec accepts such chunks, no run is empty, each
    /// ends within the chunk, and there is one new element of the type for each place. Errors:
    /// `OutOfMemory` and `Storage`.
    ///
    /// The handle is asked whether a value is stored, and then one writing call is made. Elements that
    /// own their bytes are turned round where they stand. Other numbers may stand in `runs` afterwards.
    #[inline(always)]
    pub fn write_given_runs<H: BytesPartialEncoderTraits>(
        &self,
        alloc: Global,
        handle: &mut H,
        shape: &ChunkShape,
        data_type: &DataType,
        fill_value: &FillValue,
        runs: &mut [(u64, u64)],
        elements: ArrayBytes<'_>,
    ) -> Result<(), CodecError>
        requires taken { BytesTakes self.now (form_of shape.now data_type.now fill_value.now) }
        requires filled { All (λ run. 0 < run.1) runs.old }
        requires below { EndWithin (product shape.now) runs.old }
        requires fit { FitRuns data_type.now runs.old elements }
        ensures answer { WritesRuns self.now (form_of shape.now data_type.now fill_value.now)
            runs.old elements.entry H.state handle.old handle.new result }
        ensures one_write { OnOk result (LeftByWriting H.state handle.old handle.new result) }
        ensures refused { OnErr result (LeftByRefusal H.state handle.old handle.new result) }
        ensures unread { FailsByWriting H.state handle.old handle.new result }
        ensures kept_if_atomic { KeptIfAtomic H.atomic H.state handle.old handle.new result }
        ensures same_reference { H.lent handle.new ≡ H.lent handle.old }
        // Wide: the form and the new elements, and the handle's record and state.
        ensures counted { CountsWriteOfRuns self.now
            (form_of shape.now data_type.now fill_value.now) runs.old elements.entry
            H.calls H.state handle.old handle.new result }
    {
        if handle.exists()? {
            let size = element_size(data_type, fill_value) as u64;
            self.write_over(alloc, handle, data_type, size, runs, elements)
        } else {
            let value = self.into_value(alloc, shape, data_type, fill_value, runs, elements)?;
            handle.replace(alloc, value.as_slice())
        }
    }

    /// The same as [`BytesCodec::write_given_runs`] of elements that are lent.
    pub fn write_runs<H: BytesPartialEncoderTraits>(
        &self,
        alloc: Global,
        handle: &mut H,
        shape: &ChunkShape,
        data_type: &DataType,
        fill_value: &FillValue,
        runs: &mut [(u64, u64)],
        elements: &ArrayBytes<'_>,
    ) -> Result<(), CodecError>
        requires taken { BytesTakes self.now (form_of shape.now data_type.now fill_value.now) }
        requires filled { All (λ run. 0 < run.1) runs.old }
        requires below { EndWithin (product shape.now) runs.old }
        requires fit { FitRuns data_type.now runs.old elements.now }
        ensures answer { WritesRuns self.now (form_of shape.now data_type.now fill_value.now)
            runs.old elements.now H.state handle.old handle.new result }
        ensures one_write { OnOk result (LeftByWriting H.state handle.old handle.new result) }
        ensures refused { OnErr result (LeftByRefusal H.state handle.old handle.new result) }
        ensures unread { FailsByWriting H.state handle.old handle.new result }
        ensures kept_if_atomic { KeptIfAtomic H.atomic H.state handle.old handle.new result }
        ensures same_reference { H.lent handle.new ≡ H.lent handle.old }
        // Wide: the form and the new elements, and the handle's record and state.
        ensures counted { CountsWriteOfRuns self.now
            (form_of shape.now data_type.now fill_value.now) runs.old elements.now
            H.calls H.state handle.old handle.new result }
    {
        let elements = lend(elements)?;
        self.write_given_runs(alloc, handle, shape, data_type, fill_value, runs, elements)
    }
}
