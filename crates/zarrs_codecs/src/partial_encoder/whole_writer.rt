//! Writing a chunk in part by its whole value.
ghost use Rattle.std.specs.Prelude.{◌≡◌, ◌<◌, ◌^◌, Ok, IfOk, OnErr, OnOk, false, length, None, IfErr};
ghost use Rattle.zarrs_chunk.specs.Answer.{is_fault, Answers, AnswersBy, Gives, memory_or_fault};
ghost use Rattle.zarrs_chunk.specs.ChunkShape.{product};
ghost use Rattle.zarrs_chunk.specs.Runs.{joined_runs, EndWithin, places_in};
ghost use Rattle.zarrs_array_bytes.specs.Validity.{data_fit, validity, Holds};
ghost use Rattle.zarrs_codec.specs.ArrayWriter.{LeftByRefusal};
ghost use Rattle.zarrs_codec.specs.Calls.{MakesReads};
ghost use Rattle.zarrs_codec.specs.CodersOverHandles.{HandleWrites};
ghost use Rattle.zarrs_codec.specs.StorageState.{after_reading, KeptIfAtomic, LeftByWriting};
ghost use Rattle.zarrs_codecs.specs.ChunkWrite.{RunsInside, FitsRuns, FitsPlacesIn, WritesChunk, started_chunk, value_left};
ghost use Rattle.zarrs_chunk.specs.Indexer.{selection_of};
ghost use Rattle.zarrs_codec.specs.ChunkEdits.{data_places};
ghost use Rattle.zarrs_array_bytes.specs.Held.{items_of};

use crate::chunk_coder::ChunkCoder;
use std::alloc::Global;
use std::borrow::CowSlice;
use zarrs_array_bytes::{ArrayBytes, ArrayBytesRaw, update_runs};
use zarrs_chunk::{ChunkShape, CodecError, Indexer, count_places};
use zarrs_codec::{BytesPartialDecoderTraits, BytesPartialEncoderTraits, BytesToBytesCodecTraits};
use zarrs_data_type::DataType;

/// Whether there is one new element of the type for each place of the runs. Errors: those of
/// `ArrayBytes::validate_data`.
#[inline(always)]
pub(crate) fn check_data(
    elements: &ArrayBytes<'_>,
    runs: &[(u64, u64)],
    data_type: &DataType,
) -> Result<(), CodecError>
    requires count { length (joined_runs runs.now) < 2 ^ 64 }
    ensures exact { result ≡ data_fit data_type.now (length (joined_runs runs.now)) elements.now }
    ensures no_fault { is_fault result ≡ false }
{
    elements.validate_data(count_places(runs), data_type)
}

/// The runs of the places that the indexer selects, where there is one new element for each.
/// Errors, the first that holds, `OutOfMemory` aside: those of `Indexer::places`; those of
/// `ArrayBytes::validate_data`.
fn checked_runs(
    alloc: Global,
    indexer: &Indexer,
    shape: &ChunkShape,
    data_type: &DataType,
    elements: &ArrayBytes<'_>,
) -> Result<Vec<(u64, u64)>, CodecError>
    ensures answer { Gives places_in result
        (data_places shape.now data_type.now (selection_of indexer.now) elements.now) }
    ensures below { IfOk result (λ runs. EndWithin (product shape.now) runs.items) }
    ensures fit { IfOk result (FitsPlacesIn data_type.now elements.now) }
{
    let runs = indexer.runs(alloc, shape)?;
    check_data(elements, runs.as_slice(), data_type)?;
    Ok(runs)
}

impl<'a, B: BytesToBytesCodecTraits> ChunkCoder<'a, B> {
    ghost use Rattle.zarrs_codecs.specs.ChunkCoder.{coder_form};
    ghost use Rattle.zarrs_codecs.specs.ChunkWriter.{CountsRenewal, GivesEdited, CoderWritesRuns};

    /// The chunk that an edit starts from: the one that the stored value stands for, or one of fill
    /// values. Errors: `Storage`; those of `CodecChain::decode`; `Overflow` where 64 bits don't
    /// count the bytes of fill values.
    fn start<H: BytesPartialDecoderTraits>(
        &self,
        alloc: Global,
        handle: &mut H,
    ) -> Result<ArrayBytes<'static>, CodecError>
        ensures answer { AnswersBy memory_or_fault (Holds self.now.data_type) result
            (started_chunk B.functions (coder_form self.now) (H.state handle.old).value) }
        ensures counted { MakesReads H.calls 1 handle.old handle.new result }
        ensures left { H.state handle.new ≡ after_reading result (H.state handle.old) }
        ensures same_reference { H.lent handle.new ≡ H.lent handle.old }
    {
        match handle.decode(alloc)? {
            None => {
                let count = self.shape.num_elements()?;
                ArrayBytes::new_fill_value(alloc, &self.data_type, count, &self.fill_value)
            }
            Some(value) => self.chain.decode(
                alloc,
                CowSlice::Owned(value),
                &self.shape,
                &self.data_type,
                &self.fill_value,
            ),
        }
    }

    /// The value of the chunk with new elements at the places of the runs. Errors: those of
    /// `CodecChain::encode`.
    fn value_with(
        &self,
        alloc: Global,
        chunk: ArrayBytes<'static>,
        runs: &[(u64, u64)],
        elements: &ArrayBytes<'_>,
    ) -> Result<ArrayBytesRaw<'static>, CodecError>
        requires valid { validity self.now.data_type (product self.now.shape) chunk ≡ Ok tt }
        requires below { RunsInside (coder_form self.now) runs.now }
        requires fit { FitsRuns (coder_form self.now) runs.now elements.now }
        ensures answer { GivesEdited self.now chunk.entry runs.now elements.now result }
    {
        let count = self.shape.num_elements()?;
        let edited = update_runs(alloc, chunk, count, runs, elements, &self.data_type)?;
        self.chain.encode(
            alloc,
            edited,
            &self.shape,
            &self.data_type,
            &self.fill_value,
        )
    }

    /// The value that new elements at the places of the runs leave. Nothing is written yet. Errors:
    /// `Storage`; those of `CodecChain::decode`; those of `CodecChain::encode`.
    fn new_value<H: BytesPartialDecoderTraits>(
        &self,
        alloc: Global,
        handle: &mut H,
        runs: &[(u64, u64)],
        elements: &ArrayBytes<'_>,
    ) -> Result<ArrayBytesRaw<'static>, CodecError>
        requires below { RunsInside (coder_form self.now) runs.now }
        requires fit { FitsRuns (coder_form self.now) runs.now elements.now }
        ensures answer { Answers memory_or_fault items_of result (value_left B.functions (coder_form
            self.now) None (H.state handle.old).value (joined_runs runs.now) elements.now) }
        ensures counted { MakesReads H.calls 1 handle.old handle.new result }
        ensures left { H.state handle.new ≡ after_reading result (H.state handle.old) }
        ensures same_reference { H.lent handle.new ≡ H.lent handle.old }
    {
        self.is_sound();
        let chunk = self.start(alloc, handle)?;
        self.value_with(alloc, chunk, runs, elements)
    }

    /// The same, written: by one call of the handle.
    fn replace_value<H: BytesPartialEncoderTraits>(
        &self,
        alloc: Global,
        handle: &mut H,
        runs: &[(u64, u64)],
        new: &ArrayBytes<'_>,
    ) -> Result<(), CodecError>
        requires below { RunsInside (coder_form self.now) runs.now }
        requires fit { FitsRuns (coder_form self.now) runs.now new.now }
        ensures answer { CoderWritesRuns H.state self.now handle.old handle.new runs.now new.now result }
        ensures counted { CountsRenewal H.calls H.state handle.old handle.new result }
        ensures one_write { OnOk result (LeftByWriting H.state handle.old handle.new result) }
        ensures refused { OnErr result (LeftByRefusal H.state handle.old handle.new result) }
        ensures kept_if_atomic { KeptIfAtomic H.atomic H.state handle.old handle.new result }
        ensures unharmed { IfErr result
            (λ cause. memory_or_fault cause ≡ false → H.state handle.new ≡ H.state handle.old) }
        ensures same_reference { H.lent handle.new ≡ H.lent handle.old }
    {
        let value = self.new_value(alloc, handle, runs, new)?;
        handle.replace(alloc, value.as_slice())
    }

    /// Writes new elements at the places that the indexer selects, by the whole value. Errors:
    /// those of `ArrayPartialEncoder::partial_encode`.
    pub(crate) fn write_whole<H: BytesPartialEncoderTraits>(
        &self,
        alloc: Global,
        handle: &mut H,
        indexer: &Indexer,
        new: &ArrayBytes<'_>,
    ) -> Result<(), CodecError>
        ensures writes { WritesChunk B.functions (coder_form self.now) None (H.state handle.old)
            (H.state handle.new) (selection_of indexer.now) new.now result }
        ensures counted { CountsRenewal H.calls H.state handle.old handle.new result }
        ensures left { HandleWrites H.state H.lent H.atomic handle.old handle.new result }
    {
        let runs = checked_runs(alloc, indexer, &self.shape, &self.data_type, new)?;
        self.replace_value(alloc, handle, runs.as_slice(), new)
    }
}
