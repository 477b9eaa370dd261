//! Writing a chunk in part in place: over `bytes` without bytes-to-bytes codecs.
ghost use Rattle.std.specs.Prelude.{◌≡◌, ◌<◌, [], Ok, IfOk, IfSome, IfNone, All, None, Some, true, false};
ghost use Rattle.zarrs_chunk.specs.Answer.{is_fault, seen, Gives};
ghost use Rattle.zarrs_chunk.specs.ChunkShape.{product};
ghost use Rattle.zarrs_chunk.specs.Indexer.{selection_of};
ghost use Rattle.zarrs_chunk.specs.Runs.{AreApart, EndWithin, places_in};
ghost use Rattle.zarrs_chunk.specs.Selection.{subset as subset_of};
ghost use Rattle.zarrs_chunk.specs.Tuples.{is_box_inside};
ghost use Rattle.zarrs_array_regions.specs.KeptRegions.{kept_region as kept_region_of};
ghost use Rattle.zarrs_codec.specs.CodersOverHandles.{HandleWrites};
ghost use Rattle.zarrs_codecs.specs.ChunkWrite.{FitsPlacesIn, LendsData, form_written};
ghost use Rattle.zarrs_bytes.specs.PartialWrite.{FailsByWriting};
ghost use Rattle.zarrs_codecs.specs.ChunkCalls.{ReplacesPlaces, CountsEditThrough};
ghost use Rattle.zarrs_codecs.specs.ChunkRead.{form_in_place};

use crate::chunk_coder::ChunkCoder;
use crate::partial_encoder::whole_writer::check_data;
use std::alloc::Global;
use std::borrow::CowSlice;
use zarrs_array_bytes::ArrayBytes;
use zarrs_array_regions::{
    FewRuns, encode_first, encode_region, few_region_runs, filled_box, kept_region,
};
use zarrs_bytes::BytesCodec;
use zarrs_chunk::{ArraySubset, CodecError, Indexer};
use zarrs_codec::{BytesPartialEncoderTraits, BytesToBytesCodecTraits};

impl<'a, B: BytesToBytesCodecTraits> ChunkCoder<'a, B> {
    ghost use Rattle.zarrs_codecs.specs.ChunkCoder.{coder_form, coder_keeps_regions, coder_standing, reader_places, IsWrittenRegion};
    ghost use Rattle.zarrs_codecs.specs.ChunkWriter.{new_check, ChecksSome, CoderWrites, StandsThere};

    /// Where new elements go in the chunk that the array-to-bytes codec gets, as runs, where there
    /// is one for each place that the indexer selects. Errors, the first that holds, `OutOfMemory`
    /// aside: those of `Indexer::check`; those of `ArrayBytes::validate_data`.
    fn placed_runs(
        &self,
        alloc: Global,
        indexer: &Indexer,
        new: &ArrayBytes<'_>,
    ) -> Result<Vec<(u64, u64)>, CodecError>
        ensures answer { Gives places_in result
            (form_written (coder_form self.now) (selection_of indexer.now) new.now) }
        ensures checked { Gives (λ _. tt) result
            (new_check self.now (selection_of indexer.now) new.now) }
        ensures filled { IfOk result (λ runs. All (λ run. 0 < run.1) runs.items) }
        ensures inside { IfOk result (λ runs. EndWithin (product self.now.encoded) runs.items) }
        ensures apart { IfOk result (λ runs. AreApart runs.items) }
        ensures places { IfOk result
            (λ runs. reader_places self.now indexer.now ≡ Ok (places_in runs)) }
        ensures fit { IfOk result (FitsPlacesIn (coder_form self.now).type new.now) }
    {
        let runs = self.runs(alloc, indexer)?;
        check_data(new, runs.as_slice(), &self.data_type)?;
        Ok(runs)
    }

    /// The region that the indexer selects, where new elements are written in it as a region: one that
    /// goes through the array-to-array codecs as one, or any that lies inside the chunk and has
    /// elements, where there are no such codecs.
    #[inline(always)]
    fn written_region<'i>(&self, indexer: &'i Indexer) -> Option<&'i ArraySubset>
        ensures region { IfSome result (λ region. IsWrittenRegion self.now indexer.now region.now) }
        ensures others { IfNone result (kept_region_of (coder_form
            self.now).chain.array_to_array self.now.shape (selection_of indexer.now) ≡ None) }
    {
        self.is_sound();
        let codecs = self.chain.array_to_array_codecs();
        if codecs.is_empty() {
            return filled_box(&self.shape, indexer);
        }
        kept_region(codecs, &self.shape, indexer)
    }

    /// New elements of a region, one for each of its places, lent. Errors: those of
    /// `ArrayBytes::validate_data`.
    #[inline(always)]
    fn region_data<'e>(
        &self,
        codec: &BytesCodec,
        region: &ArraySubset,
        elements: &'e ArrayBytes<'_>,
    ) -> Result<ArrayBytes<'e>, CodecError>
        requires writes_in_place { form_in_place (coder_form self.now) ≡ Some codec.now }
        requires inside { is_box_inside self.now.shape region.now.starts region.now.lengths ≡ true }
        ensures checked { seen (λ _. tt) result
            ≡ new_check self.now (subset_of region.now) elements.now }
        ensures lent { IfOk result (LendsData self.now.data_type region.now elements.now) }
        ensures no_fault { is_fault result ≡ false }
    {
        self.is_sound();
        let count = region.num_elements()?;
        elements.validate_data(count, &self.data_type)?;
        let bytes = elements.as_fixed()?;
        Ok(ArrayBytes::new_flen(CowSlice::Borrowed(bytes)))
    }

    /// The runs of a region where the array-to-array codecs take it, and new elements of the region
    /// as they stand there. Errors, the first that holds: those of `ArrayBytes::validate_data`;
    /// `OutOfMemory`.
    fn encoded_region<'e>(
        &self,
        alloc: Global,
        codec: &BytesCodec,
        region: &ArraySubset,
        elements: &'e ArrayBytes<'_>,
    ) -> Result<(Vec<(u64, u64)>, ArrayBytes<'e>), CodecError>
        requires writes_in_place { form_in_place (coder_form self.now) ≡ Some codec.now }
        requires inside { is_box_inside self.now.shape region.now.starts region.now.lengths ≡ true }
        requires filled { 0 < product region.now.lengths }
        requires region_kept { coder_keeps_regions self.now ≡ true }
        ensures checked { Gives (λ _. tt) result
            (new_check self.now (subset_of region.now) elements.now) }
        ensures there { IfOk result (λ it. StandsThere self.now
            codec.now region.now elements.now it.0.items it.1) }
    {
        self.is_sound();
        let codecs = self.chain.array_to_array_codecs();
        let lent = self.region_data(codec, region, elements)?;
        let (runs, encoded) = encode_region(
            alloc,
            codecs,
            &self.shape,
            region,
            lent,
            &self.data_type,
        )?;
        Ok((runs, encoded))
    }

    /// The same where the codecs are none or one that moves few axes, and the runs are few: these are
    /// put into `runs`, and the new elements are returned; `None` otherwise.
    #[inline(always)]
    fn few_region<'e>(
        &self,
        alloc: Global,
        codec: &BytesCodec,
        region: &ArraySubset,
        elements: &'e ArrayBytes<'_>,
        runs: &mut FewRuns,
    ) -> Result<Option<ArrayBytes<'e>>, CodecError>
        requires writes_in_place { form_in_place (coder_form self.now) ≡ Some codec.now }
        requires inside { is_box_inside self.now.shape region.now.starts region.now.lengths ≡ true }
        requires filled { 0 < product region.now.lengths }
        requires region_kept { coder_keeps_regions self.now ≡ true }
        requires empty { runs.old.items ≡ [] }
        ensures checked { ChecksSome result
            (new_check self.now (subset_of region.now) elements.now) }
        ensures no_fault { is_fault result ≡ false }
        ensures there { IfOk result (λ it. IfSome it (λ held. StandsThere self.now
            codec.now region.now elements.now runs.new.items held)) }
    {
        self.is_sound();
        let codecs = self.chain.array_to_array_codecs();
        if !few_region_runs(runs, codecs, &self.shape, region) {
            return Ok(None);
        }
        let lent = self.region_data(codec, region, elements)?;
        let encoded = encode_first(alloc, codecs, region, lent, &self.data_type)?;
        Ok(Some(encoded))
    }

    /// Writes the new elements of a region, as they stand where the array-to-array codecs take it,
    /// at its runs there.
    #[inline(always)]
    fn write_there<H: BytesPartialEncoderTraits>(
        &self,
        alloc: Global,
        codec: &BytesCodec,
        handle: &mut H,
        region: &ArraySubset,
        elements: &ArrayBytes<'_>,
        runs: &mut [(u64, u64)],
        encoded: ArrayBytes<'_>,
    ) -> Result<(), CodecError>
        requires writes_in_place { form_in_place (coder_form self.now) ≡ Some codec.now }
        requires inside { is_box_inside self.now.shape region.now.starts region.now.lengths ≡ true }
        requires checked { new_check self.now (subset_of region.now) elements.now ≡ Ok tt }
        requires there { StandsThere self.now codec.now region.now elements.now runs.old encoded }
        ensures writes { CoderWrites H.state self.now (Some codec.now) handle.old handle.new
            (subset_of region.now) elements.now result }
        ensures unread { FailsByWriting H.state handle.old handle.new result }
        ensures counted { ReplacesPlaces H.calls H.state self.now.data_type
            (coder_standing self.now region.now) handle.old handle.new result }
        ensures left { HandleWrites H.state H.lent H.atomic handle.old handle.new result }
    {
        codec.write_given_runs(
            alloc,
            handle,
            &self.encoded,
            &self.data_type,
            &self.fill_value,
            runs,
            encoded,
        )
    }

    /// The same as `write_region`, by a list of the region's runs.
    #[inline(never)]
    fn write_many<H: BytesPartialEncoderTraits>(
        &self,
        alloc: Global,
        codec: &BytesCodec,
        handle: &mut H,
        region: &ArraySubset,
        elements: &ArrayBytes<'_>,
    ) -> Result<(), CodecError>
        requires writes_in_place { form_in_place (coder_form self.now) ≡ Some codec.now }
        requires inside { is_box_inside self.now.shape region.now.starts region.now.lengths ≡ true }
        requires filled { 0 < product region.now.lengths }
        requires region_kept { coder_keeps_regions self.now ≡ true }
        ensures writes { CoderWrites H.state self.now (Some codec.now) handle.old handle.new
            (subset_of region.now) elements.now result }
        ensures unread { FailsByWriting H.state handle.old handle.new result }
        ensures counted { ReplacesPlaces H.calls H.state self.now.data_type
            (coder_standing self.now region.now) handle.old handle.new result }
        ensures left { HandleWrites H.state H.lent H.atomic handle.old handle.new result }
    {
        let (mut runs, encoded) = self.encoded_region(alloc, codec, region, elements)?;
        self.write_there(alloc, codec, handle, region, elements, &mut runs, encoded)
    }

    /// The same as `write_in_place`, of a region that goes through the array-to-array codecs as
    /// one: its new elements are encoded and written in its window of the moved chunk. Where its
    /// runs are few, no list of them is taken.
    fn write_region<H: BytesPartialEncoderTraits>(
        &self,
        alloc: Global,
        codec: &BytesCodec,
        handle: &mut H,
        region: &ArraySubset,
        elements: &ArrayBytes<'_>,
    ) -> Result<(), CodecError>
        requires writes_in_place { form_in_place (coder_form self.now) ≡ Some codec.now }
        requires inside { is_box_inside self.now.shape region.now.starts region.now.lengths ≡ true }
        requires filled { 0 < product region.now.lengths }
        requires region_kept { coder_keeps_regions self.now ≡ true }
        ensures writes { CoderWrites H.state self.now (Some codec.now) handle.old handle.new
            (subset_of region.now) elements.now result }
        ensures unread { FailsByWriting H.state handle.old handle.new result }
        ensures counted { ReplacesPlaces H.calls H.state self.now.data_type
            (coder_standing self.now region.now) handle.old handle.new result }
        ensures left { HandleWrites H.state H.lent H.atomic handle.old handle.new result }
    {
        let mut few = FewRuns::new();
        match self.few_region(alloc, codec, region, elements, &mut few)? {
            None => self.write_many(alloc, codec, handle, region, elements),
            Some(encoded) => {
                let runs = few.as_mut_slice();
                self.write_there(alloc, codec, handle, region, elements, runs, encoded)
            }
        }
    }

    /// Writes new elements at the places that the indexer selects, where the chain is
    /// array-to-array codecs and this codec `bytes` alone: of a stored value the places' bytes
    /// alone are replaced. Errors: those of `Indexer::check`; those of `ArrayBytes::validate_data`;
    /// `OutOfMemory` and `Storage`.
    pub(crate) fn write_in_place<H: BytesPartialEncoderTraits>(
        &self,
        alloc: Global,
        codec: &BytesCodec,
        handle: &mut H,
        indexer: &Indexer,
        elements: &ArrayBytes<'_>,
    ) -> Result<(), CodecError>
        requires writes_in_place { form_in_place (coder_form self.now) ≡ Some codec.now }
        ensures writes { CoderWrites H.state self.now (Some codec.now) handle.old handle.new
            (selection_of indexer.now) elements.now result }
        ensures unread { FailsByWriting H.state handle.old handle.new result }
        ensures counted { CountsEditThrough H.calls H.state (coder_form self.now)
            (selection_of indexer.now) handle.old handle.new result }
        ensures left { HandleWrites H.state H.lent H.atomic handle.old handle.new result }
    {
        self.is_sound();
        if let Some(region) = self.written_region(indexer) {
            return self.write_region(alloc, codec, handle, region, elements);
        }
        let mut runs = self.placed_runs(alloc, indexer, elements)?;
        codec.write_runs(
            alloc,
            handle,
            &self.encoded,
            &self.data_type,
            &self.fill_value,
            &mut runs,
            elements,
        )
    }
}
