//! The codec `packbits` over parts of chunks.
ghost use Rattle.zarrs_data_type.specs.Form.{form_of};
ghost use Rattle.std.specs.Prelude.{◌≡◌, ℕ, ◌<◌, ◌≤◌, ◌+◌, IfOk, IfErr, Ok, All, is_some};
ghost use Rattle.zarrs_chunk.specs.Answer.{GivesBy, GivesValue, seen};
ghost use Rattle.zarrs_array_bytes.specs.Tight.{IsTight};
ghost use Rattle.zarrs_codec.specs.Calls.{AsksRanges, MakesReads, after_reads, ok_count};
ghost use Rattle.zarrs_codec.specs.StorageState.{after_reading};
ghost use Rattle.zarrs_codec.specs.HandleCalls.{NeverFailsIf, Tells};
ghost use Rattle.zarrs_bytes.specs.AskedRanges.{AsksForRuns};
ghost use Rattle.zarrs_bytes.specs.MadeCoders.{GivesCoder};
ghost use Rattle.zarrs_bytes.specs.PartialRead.{place_size};
ghost use Rattle.zarrs_bytes.specs.PlannedRanges.{NoneIsEmpty};
ghost use Rattle.zarrs_bytes.specs.ReadingCalls.{calls_for_runs};
ghost use Rattle.zarrs_packbits.specs.PackBitsSettings.{packed_layout, KeepsAllBytes, PackBitsTakes};
ghost use Rattle.zarrs_packbits.specs.PartialRead.{reading_calls_of, ReadsRuns, ReadsRunsSurely};
ghost use Rattle.zarrs_packbits.specs.PackedLayout.{IsPackedLayout};
ghost use Rattle.zarrs_packbits.specs.ReadPlan.{asked_of, IsPlanOfRuns};
ghost use Rattle.zarrs_chunk.specs.ChunkShape.{product};

use crate::layout::PackedLayout;
use crate::packbits_codec::PackBitsCodec;
use crate::runs::{read_runs, run_ranges};
use std::alloc::Global;
use std::borrow::CowSlice;
use zarrs_array_bytes::ArrayBytes;
use zarrs_bytes::BytesCodec;
use zarrs_chunk::{ChunkShape, CodecError, Indexer};
use zarrs_codec::{
    ArrayPartialDecoderTraits, ByteRange, BytesPartialDecoderTraits, Refused, fixed_are_bytes,
};
use zarrs_data_type::{DataType, FillValue};

/// Reads a chunk of [`PackBitsCodec`] in part, over a storage handle that it owns. A read looks at
/// the bytes that hold bits of the places that are asked for and at no others: it checks neither
/// the value's length nor its padding byte.
#[derive(Drop)]
pub struct PackBitsPartialDecoder<H> {
    handle: H,
    codec: PackBitsCodec,
    shape: ChunkShape,
    data_type: DataType,
    fill_value: FillValue,
    ghost taken: { PackBitsTakes codec (form_of shape data_type fill_value) },
}

impl PackBitsCodec {
    ghost use Rattle.zarrs_packbits.specs.PackBitsPartialDecoder.{packbits_handle_of, HasPackBitsForm};

    /// How a chunk is packed that the codec accepts.
    fn taken_layout(
        &self,
        shape: &ChunkShape,
        data_type: &DataType,
        fill_value: &FillValue,
    ) -> PackedLayout
        requires taken { PackBitsTakes self.now (form_of shape.now data_type.now fill_value.now) }
        ensures is { packed_layout self.now
            (form_of shape.now data_type.now fill_value.now) ≡ Ok result }
        ensures sound { IsPackedLayout result }
        ensures elements { result.elements ≡ product shape.now }
    {
        match self.layout(shape, data_type, fill_value) {
            Ok(layout) => layout,
            Err(_) => unreachable!(),
        }
    }

    /// The elements at the places of these runs of a chunk of which all bits of whole bytes are kept:
    /// the codec `bytes` in little order reads them.
    fn read_whole_runs<H: BytesPartialDecoderTraits>(
        &self,
        alloc: Global,
        handle: &mut H,
        shape: &ChunkShape,
        data_type: &DataType,
        fill_value: &FillValue,
        runs: &[(u64, u64)],
    ) -> Result<ArrayBytes<'static>, CodecError>
        requires whole { KeepsAllBytes self.now (form_of shape.now data_type.now fill_value.now) }
        requires filled { All (λ run. 0 < run.1) runs.now }
        requires below { All (λ run. run.0 + run.1 ≤ product shape.now) runs.now }
        ensures answer { ReadsRuns self.now (form_of shape.now data_type.now fill_value.now)
            (H.state handle.old) runs.now result }
        ensures sure { ReadsRunsSurely self.now (form_of shape.now data_type.now fill_value.now)
            (H.state handle.old) runs.now result }
        ensures tight { IfOk result (IsTight data_type.now) }
        ensures counted { MakesReads H.calls (calls_for_runs (place_size data_type.now)
            (H.state handle.old).value runs.now) handle.old handle.new result }
        ensures asked { AsksForRuns (place_size data_type.now)
            H.state H.asked handle.old handle.new runs.now result }
        ensures left { H.state handle.new ≡ after_reading result (H.state handle.old) }
        ensures same_reference { H.lent handle.new ≡ H.lent handle.old }
    {
        let elements = BytesCodec::little().read_runs(alloc, handle, data_type, fill_value, runs)?;
        fixed_are_bytes(&elements);
        Ok(elements)
    }

    /// The elements at the places of these runs, each a start and a length, in order, over a handle
    /// that keeps a chunk's value: those of the stored value by the places' bits alone, and the fill
    /// value at each place where nothing is stored. The codec accepts such chunks, no run is empty, and
    /// each ends inside the chunk. Errors: `InvalidByteRange` where a place's bytes lie past the
    /// value's end; `OutOfMemory` and `Storage`, which may come before. `Storage` never comes where
    /// all bytes of the places are sure.
    ///
    /// The handle is asked for the ranges that `planned_runs` gives.
    #[tactic(auto, using(crate::proofs::Counted::read_tight))]
    pub fn read_runs<H: BytesPartialDecoderTraits>(
        &self,
        alloc: Global,
        handle: &mut H,
        shape: &ChunkShape,
        data_type: &DataType,
        fill_value: &FillValue,
        runs: &[(u64, u64)],
    ) -> Result<ArrayBytes<'static>, CodecError>
        requires taken { PackBitsTakes self.now (form_of shape.now data_type.now fill_value.now) }
        requires filled { All (λ run. 0 < run.1) runs.now }
        requires below { All (λ run. run.0 + run.1 ≤ product shape.now) runs.now }
        ensures answer { ReadsRuns self.now (form_of shape.now data_type.now fill_value.now)
            (H.state handle.old) runs.now result }
        ensures sure { ReadsRunsSurely self.now (form_of shape.now data_type.now fill_value.now)
            (H.state handle.old) runs.now result }
        ensures tight { IfOk result (IsTight data_type.now) }
        // Wide: the three parameters of a form have the Rust crate's names.
        ensures counted { MakesReads H.calls
            (reading_calls_of self.now (form_of shape.now data_type.now fill_value.now)
            (H.state handle.old).value runs.now)
            handle.old handle.new result }
        // Wide: as `counted` is.
        ensures asked { AsksRanges H.asked
            (asked_of self.now (form_of shape.now data_type.now fill_value.now)
            (H.state handle.old).value runs.now)
            handle.old handle.new result }
        ensures left { H.state handle.new ≡ after_reading result (H.state handle.old) }
        ensures same_reference { H.lent handle.new ≡ H.lent handle.old }
    {
        let layout = self.taken_layout(shape, data_type, fill_value);
        if layout.is_whole() {
            return self.read_whole_runs(alloc, handle, shape, data_type, fill_value, runs);
        }
        let fill = fill_value.as_ne_bytes();
        let bytes = read_runs(alloc, handle, &layout, fill, runs)?;
        Ok(ArrayBytes::new_flen(CowSlice::Owned(bytes)))
    }

    /// The ranges of bytes that `read_runs` asks for of these runs, one for each: the bytes that hold
    /// bits of their places, and no others. None is empty. Where all bits of whole bytes are kept,
    /// their lengths sum to the elements' bytes. The codec accepts such chunks, no run is empty, and
    /// each ends inside the chunk. Errors: `OutOfMemory`.
    pub fn planned_runs(
        &self,
        alloc: Global,
        shape: &ChunkShape,
        data_type: &DataType,
        fill_value: &FillValue,
        runs: &[(u64, u64)],
    ) -> Result<Vec<ByteRange>, CodecError>
        requires taken { PackBitsTakes self.now (form_of shape.now data_type.now fill_value.now) }
        requires filled { All (λ run. 0 < run.1) runs.now }
        requires below { All (λ run. run.0 + run.1 ≤ product shape.now) runs.now }
        ensures plan { GivesBy (λ ranges layout. IsPlanOfRuns layout runs.now ranges.items) result
            (packed_layout self.now (form_of shape.now data_type.now fill_value.now)) }
        ensures filled { IfOk result (λ ranges. NoneIsEmpty ranges.items) }
    {
        let layout = self.taken_layout(shape, data_type, fill_value);
        let planned = run_ranges(alloc, &layout, runs)?;
        Ok(planned)
    }

    /// What a partial decoder keeps of a chunk that the codec accepts.
    fn parts_of_decoder(
        &self,
        shape: &ChunkShape,
        data_type: &DataType,
        fill_value: &FillValue,
    ) -> Result<(ChunkShape, DataType, FillValue), CodecError>
        ensures answer { GivesValue result (seen (λ _. (shape.now, data_type.now, fill_value.now))
            (packed_layout self.now (form_of shape.now data_type.now fill_value.now))) }
        ensures taken { IfOk result (λ all. PackBitsTakes self.now (form_of all.0 all.1 all.2)) }
    {
        self.layout(shape, data_type, fill_value)?;
        let shape = shape.clone()?;
        let data_type = data_type.clone()?;
        let fill_value = fill_value.clone()?;
        Ok((shape, data_type, fill_value))
    }

    /// A decoder of a chunk in part, over a handle. Errors: those of `encoded_representation`;
    /// `OutOfMemory`. An error hands the handle back as it was.
    pub fn partial_decoder<H: BytesPartialDecoderTraits>(
        &self,
        alloc: Global,
        handle: H,
        shape: &ChunkShape,
        data_type: &DataType,
        fill_value: &FillValue,
    ) -> Result<PackBitsPartialDecoder<H>, Refused<H>>
        ensures answer { GivesCoder result
            (packed_layout self.now (form_of shape.now data_type.now fill_value.now)) }
        ensures form { HasPackBitsForm self.now (form_of shape.now data_type.now fill_value.now) result }
        ensures over { IfOk result (λ decoder. packbits_handle_of decoder ≡ handle) }
        ensures handed_back { IfErr result (λ refused. refused.handle ≡ handle) }
    {
        match self.parts_of_decoder(shape, data_type, fill_value) {
            Ok((shape, data_type, fill_value)) => Ok(PackBitsPartialDecoder {
                handle,
                codec: *self,
                shape,
                data_type,
                fill_value,
            }),
            Err(error) => Err(Refused { error, handle }),
        }
    }
}

impl<H: BytesPartialDecoderTraits> PackBitsPartialDecoder<H> {
    ghost use Rattle.zarrs_packbits.specs.PackBitsPartialDecoder.{packbits_form_of, packbits_handle_of, decoder_asked, decoder_calls, decoder_state, packbits_stored_in, PackBitsAsksReads, PackBitsCountsReads, PackBitsReads, Plans, PackBitsLeaves};

    /// The type of the elements.
    pub fn data_type(&self) -> &DataType
        ensures value { result.now ≡ (packbits_form_of self.now).type }
    {
        &self.data_type
    }

    /// The elements that the indexer selects, in its order: those of the stored value by the places'
    /// bits alone, and the fill value at each place where nothing is stored. Errors, the first
    /// that holds: those of `Indexer::places`; `InvalidByteRange` where a place's bytes lie past the
    /// value's end; `OutOfMemory` and `Storage`. `Storage` comes after the errors of the indexer,
    /// and never where all bytes of the places are sure.
    ///
    /// The handle is asked for the ranges that `planned_ranges` gives.
    pub fn partial_decode(
        &mut self,
        alloc: Global,
        indexer: &Indexer,
    ) -> Result<ArrayBytes<'static>, CodecError>
        ensures reads { PackBitsReads H.state self.old indexer.now result }
        ensures counted { PackBitsCountsReads H.state H.calls self.old self.new indexer.now result }
        ensures asked { PackBitsAsksReads H.state H.asked self.old self.new indexer.now result }
        ensures tight { IfOk result (IsTight (packbits_form_of self.old).type) }
        ensures left { PackBitsLeaves H.state H.lent self.old self.new result }
    {
        let runs = indexer.runs(alloc, &self.shape)?;
        self.codec.read_runs(
            alloc,
            &mut self.handle,
            &self.shape,
            &self.data_type,
            &self.fill_value,
            runs.as_slice(),
        )
    }

    /// The ranges of bytes that such a read asks for, one for each of the indexer's runs, none of
    /// which begins where the one before it ends: the bytes that hold bits of the places, and no
    /// others. None is empty. Where all bits of whole bytes are kept, their lengths sum to the
    /// elements' bytes. Errors, the first that holds: those of `Indexer::places`; `OutOfMemory`.
    pub fn planned_ranges(
        &self,
        alloc: Global,
        indexer: &Indexer,
    ) -> Result<Vec<ByteRange>, CodecError>
        ensures plan { Plans self.now indexer.now result }
        ensures filled { IfOk result (λ ranges. NoneIsEmpty ranges.items) }
    {
        let asked = indexer.runs(alloc, &self.shape)?;
        self.codec.planned_runs(
            alloc,
            &self.shape,
            &self.data_type,
            &self.fill_value,
            asked.as_slice(),
        )
    }

    /// Whether a value is stored. Errors: `Storage`, but never where the handle has sure bytes.
    pub fn exists(&mut self) -> Result<bool, CodecError>
        ensures answer { Tells result (is_some (packbits_stored_in H.state self.old)) }
        ensures sure { NeverFailsIf (is_some (decoder_state H.state self.old).sure) result }
        ensures counted { decoder_calls H.calls self.new
            ≡ after_reads (ok_count result) (decoder_calls H.calls self.old) }
        ensures asked { decoder_asked H.asked self.new ≡ decoder_asked H.asked self.old }
        ensures left { PackBitsLeaves H.state H.lent self.old self.new result }
    {
        self.handle.exists()
    }

    /// How many bytes the handle keeps in memory.
    pub fn size_held(&self) -> usize
        ensures value { result ≡ H.held (packbits_handle_of self.now) }
    {
        self.handle.size_held()
    }

    /// Whether a part is read without the rest: where the handle reads ranges by themselves.
    pub fn supports_partial_decode(&self) -> bool
        ensures value { result ≡ H.reads_ranges }
    {
        self.handle.supports_partial_decode()
    }
}

impl<H: BytesPartialDecoderTraits> ArrayPartialDecoderTraits for PackBitsPartialDecoder<H> {
    ghost use Rattle.zarrs_packbits.specs.PackBitsPartialDecoder.{packbits_form_of, packbits_handle_of, packbits_reader, decoder_calls, decoder_state, packbits_read_count, packbits_stored_in};
    ghost use Rattle.zarrs_chunk.specs.Selection.{places_of};
    ghost use Rattle.zarrs_codec.specs.Calls.{count_of};

    ghost reader = { λ decoder. packbits_reader (packbits_form_of decoder) (packbits_stored_in H.state decoder) (decoder_state H.state decoder).sure H.reads_ranges };

    ghost state = { λ decoder. H.state (packbits_handle_of decoder) };

    ghost lent = { λ decoder. H.lent (packbits_handle_of decoder) };

    ghost calls = { decoder_calls H.calls };

    ghost read_calls = { λ decoder selection. count_of (packbits_read_count H.state decoder) (places_of selection (packbits_form_of decoder).sizes) };

    ghost held = { λ decoder. H.held (packbits_handle_of decoder) };

    ghost use Rattle.zarrs_packbits.specs.CountLaws.{packbits_counts};

    ghost counts = { λ decoder. packbits_counts (packbits_form_of decoder) (H.state (packbits_handle_of decoder)).value (H.state (packbits_handle_of decoder)).sure H.reads_ranges };

    fn data_type(&self) -> &DataType {
        PackBitsPartialDecoder::data_type(self)
    }

    fn exists(&mut self) -> Result<bool, CodecError> {
        PackBitsPartialDecoder::exists(self)
    }

    fn size_held(&self) -> usize {
        PackBitsPartialDecoder::size_held(self)
    }

    fn partial_decode(
        &mut self,
        alloc: Global,
        indexer: &Indexer,
    ) -> Result<ArrayBytes<'static>, CodecError> {
        PackBitsPartialDecoder::partial_decode(self, alloc, indexer)
    }

    fn supports_partial_decode(&self) -> bool {
        PackBitsPartialDecoder::supports_partial_decode(self)
    }
}

impl<H> PackBitsPartialDecoder<H> {
    ghost use Rattle.zarrs_packbits.specs.PackBitsPartialDecoder.{packbits_handle_of};

    /// The handle, as it stands.
    pub fn into_handle(self) -> H
        ensures value { result ≡ packbits_handle_of self }
    {
        let PackBitsPartialDecoder {
            handle,
            codec: _,
            shape: _,
            data_type: _,
            fill_value: _,
        } = self;
        handle
    }
}
