//! The ranges of bytes that a read asks for, where it asks for the bytes of its places alone.
ghost use Rattle.std.specs.Prelude.{◌≡◌, ◌<◌, All, IfOk, IfSome, Ok, option_map, true};
ghost use Rattle.zarrs_chunk.specs.Answer.{Gives};
ghost use Rattle.zarrs_chunk.specs.Indexer.{selection_of};
ghost use Rattle.zarrs_chunk.specs.Runs.{AreApart, places_in};
ghost use Rattle.zarrs_chunk.specs.Tuples.{is_box_inside};
ghost use Rattle.zarrs_chain.specs.ChainView.{plain_chain};
ghost use Rattle.zarrs_codecs.specs.ChunkRead.{PlansRead, planned_order, planned_region as planned_region_of, reads_places};

use crate::chunk_coder::ChunkCoder;
use crate::partial_decoder::codec_read::{codec_in_place, planned_runs, plans_reads};
use std::alloc::Global;
use zarrs_array_regions::region_runs;
use zarrs_chain::CodecChain;
use zarrs_chain::stages::Form;
use zarrs_chunk::{ArraySubset, CodecError, Indexer};
use zarrs_codec::{ByteRange, BytesToBytesCodecTraits};

impl<'a, B: BytesToBytesCodecTraits> ChunkCoder<'a, B> {
    ghost use Rattle.zarrs_codecs.specs.ChunkCoder.{IsKeptRegion, AreInside, coder_form, coder_keeps_regions, coder_standing};

    /// The places where a region stands in the moved chunk, in their order, as runs: those of its
    /// window. Errors: `OutOfMemory`.
    fn standing_runs(
        &self,
        alloc: Global,
        region: &ArraySubset,
    ) -> Result<Vec<(u64, u64)>, CodecError>
        requires inside { is_box_inside self.now.shape region.now.starts region.now.lengths ≡ true }
        requires region_kept { coder_keeps_regions self.now ≡ true }
        ensures places { Gives places_in result (Ok (coder_standing self.now region.now)) }
        ensures filled { IfOk result (λ runs. All (λ run. 0 < run.1) runs.items) }
        ensures inside { IfOk result (λ runs. AreInside self.now runs.items) }
        ensures apart { IfOk result (λ runs. AreApart runs.items) }
    {
        self.is_sound();
        let codecs = self.chain.array_to_array_codecs();
        region_runs(alloc, codecs, &self.shape, region)
    }

    /// The box that the indexer selects, where its bytes are planned in the order in which they
    /// stand.
    fn planned_region<'i>(&self, indexer: &'i Indexer) -> Option<&'i ArraySubset>
        ensures region { option_map (λ box. box.now) result
            ≡ planned_region_of (coder_form self.now) (selection_of indexer.now) }
        ensures region_kept { IfSome result (λ box. IsKeptRegion self.now indexer.now box.now) }
    {
        match codec_in_place(self.chain) {
            Some(_) => self.kept_region(indexer),
            None => None,
        }
    }

    /// Where the places that an indexer selects go in the chunk that the array-to-bytes codec gets,
    /// in the order in which their bytes are planned, as runs. Errors: those of `Indexer::check`;
    /// `OutOfMemory`.
    fn ordered_runs(&self, alloc: Global, indexer: &Indexer) -> Result<Vec<(u64, u64)>, CodecError>
        ensures answer { Gives places_in result
            (planned_order (coder_form self.now) (selection_of indexer.now)) }
        ensures filled { IfOk result (λ runs. All (λ run. 0 < run.1) runs.items) }
        ensures inside { IfOk result (λ runs. AreInside self.now runs.items) }
        ensures apart { IfOk result (λ runs. AreApart runs.items) }
    {
        self.is_sound();
        match self.planned_region(indexer) {
            Some(region) => self.standing_runs(alloc, region),
            None => self.runs(alloc, indexer),
        }
    }

    /// The ranges of bytes that a read asks for, where it asks for the bytes of its places alone.
    /// Errors: those of `Indexer::check`; `OutOfMemory`.
    pub(crate) fn planned_ranges(
        &self,
        alloc: Global,
        indexer: &Indexer,
    ) -> Result<Option<Vec<ByteRange>>, CodecError>
        ensures plan { PlansRead B.functions (coder_form self.now)
            (selection_of indexer.now) result }
    {
        let runs = self.ordered_runs(alloc, indexer)?;
        if !asks_for_places(self.chain) {
            return Ok(None);
        }
        let form = Form {
            shape: &self.encoded,
            data_type: &self.data_type,
            fill_value: &self.fill_value,
        };
        let codec = self.chain.array_to_bytes_codec();
        let ranges = planned_runs::<B>(alloc, codec, form, &runs)?;
        Ok(Some(ranges))
    }
}

/// Whether a read asks for the bytes of its places alone.
fn asks_for_places<B: BytesToBytesCodecTraits>(chain: &CodecChain<B>) -> bool
    ensures value { result ≡ reads_places (plain_chain chain.now).bytes_to_bytes
        (plain_chain chain.now).array_to_bytes }
{
    match chain.bytes_to_bytes_codecs() {
        [] => plans_reads(chain.array_to_bytes_codec()),
        _ => false,
    }
}
