//! Coders of a chunk in part, over a storage handle, and the read of runs of places.
ghost use Rattle.zarrs_data_type.specs.Form.{form_of};
ghost use Rattle.std.specs.Prelude.{◌≡◌, ◌<◌, ◌+◌, ◌*◌, ◌^◌, true, None, Ok, IfOk, IfErr, All, is_some, length};
ghost use Rattle.zarrs_chunk.specs.Answer.{fault, seen, Answers, Gives, GivesValue};
ghost use Rattle.zarrs_chunk.specs.Indexer.{selection_of};
ghost use Rattle.zarrs_chunk.specs.Runs.{joined_runs, places_in, EndWithin};
ghost use Rattle.zarrs_chunk.specs.Selection.{places_of};
ghost use Rattle.zarrs_data_type.specs.ElementType.{fixed_size_of};
ghost use Rattle.zarrs_data_type.specs.FillValue.{fill_fits};
ghost use Rattle.zarrs_array_bytes.specs.Tight.{IsTight};
ghost use Rattle.zarrs_chunk.specs.ChunkShape.{product};
ghost use Rattle.zarrs_codec.specs.Calls.{after_reads, ok_count};
ghost use Rattle.zarrs_codec.specs.ChunkEdits.{data_places};
ghost use Rattle.zarrs_codec.specs.CodersOverHandles.{OnlyWrites};
ghost use Rattle.zarrs_codec.specs.StorageState.{after_reading, KeptIfAtomic, LeftByWriting};
ghost use Rattle.zarrs_bytes.specs.BytesCodec.{bytes_length, BytesTakes};
ghost use Rattle.zarrs_codec.specs.HandleCalls.{NeverFailsIf, Tells};
ghost use Rattle.zarrs_bytes.specs.AskedRanges.{AsksForRuns};
ghost use Rattle.zarrs_bytes.specs.MadeCoders.{GivesBytesCoder};
ghost use Rattle.zarrs_bytes.specs.PartialRead.{place_size, IsFilledType, ReadsPlaces, ReadsPlacesSurely, RepeatsFill};
ghost use Rattle.zarrs_bytes.specs.PartialWrite.{FailsByWriting, FitRuns};
ghost use Rattle.zarrs_bytes.specs.PlannedRanges.{NoneIsEmpty, PlansPlaces};
ghost use Rattle.zarrs_bytes.specs.ReadingCalls.{CountsRuns};

use crate::batches::{read_bytes, run_ranges};
use crate::bytes_codec::BytesCodec;
use std::alloc::{AllocError, Global};
use std::borrow::CowSlice;
use zarrs_array_bytes::{ArrayBytes, append_copies, hold_turned};
use zarrs_chunk::{ChunkShape, CodecError, Indexer, count_places};
use zarrs_codec::{ByteRange, BytesPartialDecoderTraits, BytesPartialEncoderTraits, Refused};
use zarrs_data_type::{DataType, FillValue};

/// Reads and writes a chunk of [`BytesCodec`] in part, over a storage handle that it owns. A read
/// looks at the bytes of the places that are asked for and at no others, and a write over a stored
/// value replaces these alone: they check neither the value's length nor what else stands there.
#[derive(Drop)]
pub struct BytesCodecPartial<H> {
    handle: H,
    codec: BytesCodec,
    shape: ChunkShape,
    data_type: DataType,
    fill_value: FillValue,
    ghost taken: { BytesTakes codec (form_of shape data_type fill_value) },
}

/// How many bytes an element of a fixed type has.
pub(crate) fn element_size(data_type: &DataType, fill_value: &FillValue) -> usize
    requires fixed { is_some (fixed_size_of data_type.now) ≡ true }
    requires filling { fill_fits data_type.now fill_value.now ≡ true }
    ensures size { result ≡ place_size data_type.now }
    ensures positive { 0 < result }
    ensures fill_is_element { IsFilledType data_type.now fill_value.now }
{
    match data_type.fixed_size() {
        Some(size) => size,
        None => unreachable!(),
    }
}

/// The fill element for each place of the runs. It is the same for each, so the places are counted,
/// and nothing is made run by run. No memory has room for `u64::MAX` of them.
pub fn fill_runs(alloc: Global, fill: &[u8], runs: &[(u64, u64)]) -> Result<Vec<u8>, AllocError>
    requires fill_some { 0 < length fill.now }
    ensures value { RepeatsFill fill.now (joined_runs runs.now) result }
{
    let count = count_places(runs);
    let room = fill.len().saturating_mul(count as usize);
    let mut bytes = Vec::with_capacity(alloc, room)?;
    append_copies(&mut bytes, fill, count)?;
    Ok(bytes)
}

impl BytesCodec {
    ghost use Rattle.zarrs_bytes.specs.BytesCodecPartial.{bytes_handle_of, HasForm};

    /// The elements at the places of these runs, each a start and a length, in order, over a handle
    /// that keeps a chunk's value: those of the stored value by the places' bytes alone, and the fill
    /// value at each place where nothing is stored. The type is fixed and the fill value one of its
    /// elements, no run is empty, and 64 bits count the bytes up to the end of each. Errors:
    /// `InvalidByteRange` where a place's bytes lie past the value's end; `OutOfMemory` and
    /// `Storage`, which may come before. `Storage` never comes where all bytes of the places are
    /// sure.
    ///
    /// The handle is asked by one reading call; where the runs are more than 1,024, and their ranges
    /// would take more memory than their bytes, by one for each 1,024 of them. It asks for a range for
    /// each run, in order: the bytes of its places.
    pub fn read_runs<H: BytesPartialDecoderTraits>(
        &self,
        alloc: Global,
        handle: &mut H,
        data_type: &DataType,
        fill_value: &FillValue,
        runs: &[(u64, u64)],
    ) -> Result<ArrayBytes<'static>, CodecError>
        requires fixed { is_some (fixed_size_of data_type.now) ≡ true }
        requires filling { fill_fits data_type.now fill_value.now ≡ true }
        requires filled { All (λ run. 0 < run.1) runs.now }
        requires ends { All (λ run. (run.0 + run.1) * place_size data_type.now < 2 ^ 64) runs.now }
        ensures answer { ReadsPlaces self.now data_type.now fill_value.now
            (H.state handle.old) (joined_runs runs.now) result }
        ensures sure { ReadsPlacesSurely data_type.now
            (H.state handle.old) (joined_runs runs.now) result }
        ensures tight { IfOk result (IsTight data_type.now) }
        ensures left { H.state handle.new ≡ after_reading result (H.state handle.old) }
        ensures same_reference { H.lent handle.new ≡ H.lent handle.old }
        ensures counted { CountsRuns (place_size data_type.now)
            H.state H.calls handle.old handle.new runs.now result }
        ensures asked { AsksForRuns (place_size data_type.now)
            H.state H.asked handle.old handle.new runs.now result }
    {
        let size = element_size(data_type, fill_value);
        match read_bytes(alloc, handle, size as u64, runs)? {
            None => {
                let bytes = fill_runs(alloc, fill_value.as_ne_bytes(), runs)?;
                Ok(ArrayBytes::new_flen(CowSlice::Owned(bytes)))
            }
            Some(bytes) => Ok(hold_turned(bytes, self.turn_size(data_type))),
        }
    }

    /// What a partial decoder keeps of a chunk that the codec accepts.
    fn parts_of_decoder(
        &self,
        shape: &ChunkShape,
        data_type: &DataType,
        fill_value: &FillValue,
    ) -> Result<(ChunkShape, DataType, FillValue), CodecError>
        ensures answer { GivesValue result (seen (λ _. (shape.now, data_type.now, fill_value.now))
            (bytes_length self.now (form_of shape.now data_type.now fill_value.now))) }
        ensures taken { IfOk result (λ all. BytesTakes self.now (form_of all.0 all.1 all.2)) }
    {
        self.encoded_representation(shape, data_type, fill_value)?;
        let shape = shape.clone()?;
        let data_type = data_type.clone()?;
        let fill_value = fill_value.clone()?;
        Ok((shape, data_type, fill_value))
    }

    /// A decoder of a chunk in part, over a handle. Errors: those of `encoded_representation`;
    /// `OutOfMemory`. An error hands the handle back as it was.
    pub fn partial_decoder<H: BytesPartialDecoderTraits>(
        &self,
        alloc: Global,
        handle: H,
        shape: &ChunkShape,
        data_type: &DataType,
        fill_value: &FillValue,
    ) -> Result<BytesCodecPartial<H>, Refused<H>>
        ensures answer { GivesBytesCoder self.now shape.now data_type.now fill_value.now result }
        ensures form { HasForm self.now (form_of shape.now data_type.now fill_value.now) result }
        ensures over { IfOk result (λ decoder. bytes_handle_of decoder ≡ handle) }
        ensures handed_back { IfErr result (λ refused. refused.handle ≡ handle) }
    {
        match self.parts_of_decoder(shape, data_type, fill_value) {
            Ok((shape, data_type, fill_value)) => Ok(BytesCodecPartial {
                handle,
                codec: *self,
                shape,
                data_type,
                fill_value,
            }),
            Err(error) => Err(Refused { error, handle }),
        }
    }

    /// A coder of a chunk in part, over a handle, that writes too. Errors: those of
    /// `encoded_representation`; `OutOfMemory`. An error hands the handle back as it was.
    pub fn partial_encoder<H: BytesPartialEncoderTraits>(
        &self,
        alloc: Global,
        handle: H,
        shape: &ChunkShape,
        data_type: &DataType,
        fill_value: &FillValue,
    ) -> Result<BytesCodecPartial<H>, Refused<H>>
        ensures answer { GivesBytesCoder self.now shape.now data_type.now fill_value.now result }
        ensures form { HasForm self.now (form_of shape.now data_type.now fill_value.now) result }
        ensures over { IfOk result (λ encoder. bytes_handle_of encoder ≡ handle) }
        ensures handed_back { IfErr result (λ refused. refused.handle ≡ handle) }
    {
        self.partial_decoder(alloc, handle, shape, data_type, fill_value)
    }
}

/// The runs of the places that the indexer selects, where there is one new element for each. Errors,
/// the first that holds, `OutOfMemory` aside: those of `Indexer::places`; those of
/// `ArrayBytes::validate_data`.
fn runs_for(
    alloc: Global,
    indexer: &Indexer,
    shape: &ChunkShape,
    data_type: &DataType,
    elements: &ArrayBytes<'_>,
) -> Result<Vec<(u64, u64)>, CodecError>
    ensures answer { Gives places_in result
        (data_places shape.now data_type.now (selection_of indexer.now) elements.now) }
    ensures filled { IfOk result (λ runs. All (λ run. 0 < run.1) runs.items) }
    ensures below { IfOk result (λ runs. EndWithin (product shape.now) runs.items) }
    ensures fit { IfOk result (λ runs. FitRuns data_type.now runs.items elements.now) }
{
    let runs = indexer.runs(alloc, shape)?;
    elements.validate_data(count_places(runs.as_slice()), data_type)?;
    Ok(runs)
}

impl<H: BytesPartialDecoderTraits> BytesCodecPartial<H> {
    ghost use Rattle.zarrs_bytes.specs.BytesCodecPartial.{bytes_form_of, bytes_handle_of, coder_asked, coder_calls, coder_state, stored_in, AsksReads, CountsReads, Reads, Leaves};

    /// The type of the elements.
    pub fn data_type(&self) -> &DataType
        ensures value { result.now ≡ (bytes_form_of self.now).type }
    {
        &self.data_type
    }

    /// The elements that the indexer selects, in its order: those of the stored value by the places'
    /// bytes alone, and the fill value at each place where nothing is stored. Errors, the first
    /// that holds: those of `Indexer::places`; `InvalidByteRange` where a place's bytes lie past the
    /// value's end; `OutOfMemory` and `Storage`. `Storage` comes after the errors of the indexer,
    /// and never where all bytes of the places are sure.
    ///
    /// The handle is asked for the ranges that `planned_ranges` gives.
    pub fn partial_decode(
        &mut self,
        alloc: Global,
        indexer: &Indexer,
    ) -> Result<ArrayBytes<'static>, CodecError>
        ensures reads { Reads H.state self.old indexer.now result }
        ensures counted { CountsReads H.state H.calls self.old self.new indexer.now result }
        ensures asked { AsksReads H.state H.asked self.old self.new indexer.now result }
        ensures tight { IfOk result (IsTight (bytes_form_of self.old).type) }
        ensures left { Leaves H.state H.lent self.old self.new result }
    {
        let runs = indexer.runs(alloc, &self.shape)?;
        self.codec.read_runs(
            alloc,
            &mut self.handle,
            &self.data_type,
            &self.fill_value,
            runs.as_slice(),
        )
    }

    /// The ranges of bytes that such a read asks for, in order, one for each run of consecutive
    /// places: the bytes of its places, and no others. None is empty, and none begins where the one
    /// before it ends. Errors, the first that holds: those of `Indexer::places`; `OutOfMemory`.
    pub fn planned_ranges(
        &self,
        alloc: Global,
        indexer: &Indexer,
    ) -> Result<Vec<ByteRange>, CodecError>
        ensures plan { PlansPlaces (place_size (bytes_form_of self.now).type) result
            (places_of (selection_of indexer.now) (bytes_form_of self.now).sizes) }
        ensures filled { IfOk result (λ ranges. NoneIsEmpty ranges.items) }
    {
        let asked = indexer.runs(alloc, &self.shape)?;
        let size = element_size(&self.data_type, &self.fill_value);
        let ranges = run_ranges(alloc, size as u64, asked.as_slice())?;
        Ok(ranges)
    }

    /// Whether a value is stored. Errors: `Storage`, but never where the handle has sure bytes.
    pub fn exists(&mut self) -> Result<bool, CodecError>
        ensures answer { Tells result (is_some (stored_in H.state self.old)) }
        ensures sure { NeverFailsIf (is_some (coder_state H.state self.old).sure) result }
        ensures counted { coder_calls H.calls self.new
            ≡ after_reads (ok_count result) (coder_calls H.calls self.old) }
        ensures asked { coder_asked H.asked self.new ≡ coder_asked H.asked self.old }
        ensures left { Leaves H.state H.lent self.old self.new result }
    {
        self.handle.exists()
    }

    /// How many bytes the handle keeps in memory.
    pub fn size_held(&self) -> usize
        ensures value { result ≡ H.held (bytes_handle_of self.now) }
    {
        self.handle.size_held()
    }

    /// Whether a part is read without the rest: where the handle reads ranges by themselves.
    pub fn supports_partial_decode(&self) -> bool
        ensures value { result ≡ H.reads_ranges }
    {
        self.handle.supports_partial_decode()
    }
}

impl<H: BytesPartialEncoderTraits> BytesCodecPartial<H> {
    ghost use Rattle.zarrs_bytes.specs.BytesCodecPartial.{bytes_form_of, coder_calls, coder_lent, coder_state, stored_in, CountsEdit, Edits};

    /// Writes these elements at the places that the indexer selects, in its order: where a place comes
    /// twice, the last one stands. Of a stored value the places' bytes alone are replaced, and it
    /// grows with zeros up to the furthest place. Where nothing is stored, the value of the whole
    /// chunk is written, which begins as fill elements, for an indexer without places too. Errors,
    /// the first that holds: those of `Indexer::places`; those of `ArrayBytes::validate_data` for so
    /// many places, `ArrayBytesKind` or `DataMismatch`; then `Storage`. `OutOfMemory` may come at any
    /// time.
    ///
    /// The handle is asked whether a value is stored, and then one writing call is made. An error
    /// leaves the value as it was, but where that call fails and the handle isn't atomic.
    pub fn partial_encode(
        &mut self,
        alloc: Global,
        indexer: &Indexer,
        elements: &ArrayBytes<'_>,
    ) -> Result<(), CodecError>
        ensures edits { Edits H.state self.old self.new indexer.now elements.now result }
        ensures unread { FailsByWriting (coder_state H.state) self.old self.new result }
        ensures counted { CountsEdit H.state H.calls
            self.old self.new indexer.now elements.now result }
        ensures left { OnlyWrites (coder_state H.state) (coder_lent H.lent) bytes_form_of
            H.atomic self.old self.new result }
    {
        let mut runs = runs_for(alloc, indexer, &self.shape, &self.data_type, elements)?;
        self.codec.write_runs(
            alloc,
            &mut self.handle,
            &self.shape,
            &self.data_type,
            &self.fill_value,
            &mut runs,
            elements,
        )
    }

    /// Leaves no value; there may have been none. Errors: `Storage`.
    pub fn erase(&mut self) -> Result<(), CodecError>
        ensures answer { Answers fault (λ _. stored_in H.state self.new) result (Ok None) }
        ensures left { LeftByWriting (coder_state H.state) self.old self.new result }
        ensures kept_if_atomic { KeptIfAtomic H.atomic (coder_state H.state) self.old self.new result }
        ensures counted { coder_calls H.calls self.new ≡ coder_calls H.calls self.old }
        ensures same_reference { coder_lent H.lent self.new ≡ coder_lent H.lent self.old }
        ensures form_kept { bytes_form_of self.new ≡ bytes_form_of self.old }
    {
        self.handle.erase()
    }

    /// Whether a part is written without the rest: where the handle writes pieces by themselves.
    pub fn supports_partial_encode(&self) -> bool
        ensures value { result ≡ H.writes_ranges }
    {
        self.handle.supports_partial_encode()
    }
}

impl<H> BytesCodecPartial<H> {
    ghost use Rattle.zarrs_bytes.specs.BytesCodecPartial.{bytes_handle_of};

    /// The handle, as it stands.
    pub fn into_handle(self) -> H
        ensures value { result ≡ bytes_handle_of self }
    {
        let BytesCodecPartial {
            handle,
            codec: _,
            shape: _,
            data_type: _,
            fill_value: _,
        } = self;
        handle
    }
}
