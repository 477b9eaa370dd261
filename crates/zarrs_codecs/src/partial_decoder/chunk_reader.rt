//! Reading a chunk in part through a chain, over a handle that the caller keeps.
ghost use Rattle.std.specs.Prelude.{◌≡◌, ◌<◌, ◌+◌, ◌*◌, ◌^◌, All, Ok, Err, IfOk, IfErr, IfSome, option_map, length, is_some, min, [], true, false};
ghost use Rattle.zarrs_chunk.specs.Answer.{Gives, GivesItems, is_fault};
ghost use Rattle.zarrs_chunk.specs.ChunkShape.{product};
ghost use Rattle.zarrs_chunk.specs.Indexer.{selection_of};
ghost use Rattle.zarrs_chunk.specs.Runs.{joined_runs, AreApart, places_in};
ghost use Rattle.zarrs_array_bytes.specs.Tight.{IsTight};
ghost use Rattle.zarrs_codec.specs.Calls.{after_reads, ok_count};
ghost use Rattle.zarrs_codec.specs.HandleCalls.{NeverFailsIf, Tells};
ghost use Rattle.zarrs_codec.specs.StorageState.{after_reading};
ghost use Rattle.zarrs_codecs.specs.ChunkRead.{decodes_parts, ReadsStoredChunk, WhereSureBy};
ghost use Rattle.zarrs_codecs.specs.ChunkSource.{held_by, is_cache, is_source_stored};
ghost use Rattle.zarrs_codecs.specs.KeptIndex.{IsIndexOf, asks_index};
ghost use Rattle.zarrs_array_regions.specs.KeptRegions.{kept_region as kept_region_of};
ghost use Rattle.zarrs_chain.specs.ChainView.{plain_chain, plain_codec, plain_sharding};

use crate::chunk_coder::ChunkCoder;
use crate::partial_decoder::cache::Cache;
use crate::partial_decoder::codec_read::codec_in_place;
use crate::partial_decoder::encoded_runs::encoded_runs;
use crate::sharding::kept_index::stored_index;
use crate::sharding::shard_index::ShardIndex;
use std::alloc::Global;
use zarrs_array_bytes::ArrayBytes;
use zarrs_array_regions::{filled_box, keeps_regions, kept_region};
use zarrs_array_to_array::encoded_places;
use zarrs_bytes::BytesCodec;
use zarrs_chain::stages::Form;
use zarrs_chain::{ArrayToBytesCodec, ShardingCodec};
use zarrs_chunk::{ArraySubset, CodecError, Indexer};
use zarrs_codec::{BytesPartialDecoderTraits, BytesToBytesCodecTraits, CodecTraits};

impl<'a, B: BytesToBytesCodecTraits> ChunkCoder<'a, B> {
    ghost use Rattle.zarrs_codecs.specs.ChunkCoder.{IsFilledFrom, IsIndexFrom, coder_form, coder_is_cached, coder_knows_index, coder_wants_index, IsKeptRegion, AreInside, CoderAsksOnce, LeavesAlone, ReadsSelected, RefusedAtIndexer, SureSelected, IsInPlace, reader_places, reader_source};

    /// Whether all codecs of the chain decode a part.
    pub(crate) fn decodes_parts(&self) -> bool
        ensures value { result ≡ decodes_parts B.reads_in_part (coder_form self.now) }
    {
        self.chain.partial_decoder_capability().partial_decode
    }

    /// Where the places that an indexer selects go in the chunk that the array-to-bytes codec gets,
    /// as runs, none of which starts where the one before it ends.
    pub(crate) fn runs(
        &self,
        alloc: Global,
        indexer: &Indexer,
    ) -> Result<Vec<(u64, u64)>, CodecError>
        ensures answer { Gives places_in result (reader_places self.now indexer.now) }
        ensures filled { IfOk result (λ runs. All (λ run. 0 < run.1) runs.items) }
        ensures inside { IfOk result (λ runs. AreInside self.now runs.items) }
        ensures count { IfOk result (λ runs. length (joined_runs runs.items) < 2 ^ 64) }
        ensures apart { IfOk result (λ runs. AreApart runs.items) }
    {
        self.is_sound();
        encoded_runs(
            alloc,
            self.chain.array_to_array_codecs(),
            &self.shape,
            indexer,
        )
    }

    /// The same places one by one.
    fn places(&self, alloc: Global, indexer: &Indexer) -> Result<Vec<u64>, CodecError>
        ensures answer { GivesItems result (reader_places self.now indexer.now) }
        ensures below { IfOk result (λ v. All (λ place. place < product self.now.encoded) v.items) }
    {
        self.is_sound();
        encoded_places(
            alloc,
            self.chain.array_to_array_codecs(),
            &self.shape,
            indexer,
        )
    }

    /// The box that the indexer selects, where it goes through the array-to-array codecs as a box.
    pub(crate) fn kept_region<'i>(&self, indexer: &'i Indexer) -> Option<&'i ArraySubset>
        ensures region { option_map (λ box. box.now) result ≡ kept_region_of (plain_chain
            self.now.chain.now).array_to_array self.now.shape (selection_of indexer.now) }
        ensures region_kept { IfSome result (λ box. IsKeptRegion self.now indexer.now box.now) }
    {
        kept_region(self.chain.array_to_array_codecs(), &self.shape, indexer)
    }

    /// The box that the indexer selects, where it has elements and goes through the array-to-array
    /// codecs, if there are any, as a box.
    fn selected_box<'i>(&self, indexer: &'i Indexer) -> Option<&'i ArraySubset>
        ensures region_kept { IfSome result (λ box. IsKeptRegion self.now indexer.now box.now) }
    {
        if !keeps_regions(self.chain.array_to_array_codecs()) {
            return None;
        }
        filled_box(&self.shape, indexer)
    }

    /// The codec `bytes`, where the indexer is a list of tuples whose bytes are asked for by
    /// themselves: there are no bytes-to-bytes codecs, and nothing is kept.
    fn lister(&self, indexer: &Indexer) -> Option<&BytesCodec>
        ensures writes_in_place { IfSome result (λ codec. IsInPlace self.now codec.now) }
        ensures uncached { IfSome result (λ _. self.now.cache ≡ Cache.Handle) }
    {
        match (&self.cache, indexer) {
            (Cache::Handle, Indexer::Indices(_)) => codec_in_place(self.chain),
            (Cache::Handle, Indexer::Tuples(_)) => codec_in_place(self.chain),
            _ => None,
        }
    }

    /// The elements that a list of tuples select, in its order, over `bytes` alone: the places'
    /// bytes are read a batch at a time, and no list of runs is made. Errors, the first that holds,
    /// `OutOfMemory` aside: those of `Indexer::check`; `Storage`; `InvalidByteRange`.
    fn read_listed<H: BytesPartialDecoderTraits>(
        &self,
        alloc: Global,
        codec: &BytesCodec,
        handle: &mut H,
        indexer: &Indexer,
    ) -> Result<ArrayBytes<'static>, CodecError>
        requires writes_in_place { IsInPlace self.now codec.now }
        requires uncached { self.now.cache ≡ Cache.Handle }
        ensures answer { ReadsSelected self.now (H.state handle.old)
            (selection_of indexer.now) result }
        ensures tight { IfOk result (IsTight self.now.data_type) }
        ensures indexer_first { RefusedAtIndexer self.now indexer.now result }
        ensures sure { SureSelected self.now (H.state handle.old)
            (selection_of indexer.now) result }
        ensures counted { CoderAsksOnce H.calls self.now handle.old handle.new result }
        ensures left { H.state handle.new ≡ after_reading result (H.state handle.old) }
        ensures same_reference { H.lent handle.new ≡ H.lent handle.old }
    {
        let places = self.places(alloc, indexer)?;
        codec.read_places(alloc, handle, &self.data_type, &self.fill_value, places)
    }

    /// The elements that the indexer selects, in its order. Errors, the first that holds,
    /// `OutOfMemory` aside: those of `Indexer::check`; `Storage`; those of the bytes-to-bytes
    /// codecs that a cache leaves, and those that `partial_decode` of `ArrayPartialDecoder` names
    /// of the array-to-bytes codec.
    pub(crate) fn read<H: BytesPartialDecoderTraits>(
        &self,
        alloc: Global,
        handle: &mut H,
        indexer: &Indexer,
    ) -> Result<ArrayBytes<'static>, CodecError>
        requires index { IsIndexFrom B.functions self.now (H.state handle.old).value }
        ensures answer { ReadsSelected self.now (H.state handle.old)
            (selection_of indexer.now) result }
        ensures tight { IfOk result (IsTight self.now.data_type) }
        ensures indexer_first { RefusedAtIndexer self.now indexer.now result }
        ensures sure { SureSelected self.now (H.state handle.old)
            (selection_of indexer.now) result }
        ensures alone { LeavesAlone self.now handle.old handle.new }
        ensures counted { CoderAsksOnce H.calls self.now handle.old handle.new result }
        ensures left { H.state handle.new ≡ after_reading result (H.state handle.old) }
        ensures same_reference { H.lent handle.new ≡ H.lent handle.old }
        ensures no_fault_if_cached { NeverFailsIf (is_cache self.now.cache) result }
    {
        if let Some(region) = self.selected_box(indexer) {
            return self.read_region(alloc, handle, region);
        }
        if let Some(codec) = self.lister(indexer) {
            return self.read_listed(alloc, codec, handle, indexer);
        }
        let runs = self.runs(alloc, indexer)?;
        self.read_runs(alloc, handle, &runs)
    }

    /// The elements that the indexer selects, in its order, of the chunk whose value the handle
    /// keeps, where the cache, if there is one, was filled from that value. Errors: those of
    /// `ArrayPartialDecoder::partial_decode`.
    pub(crate) fn read_chunk<H: BytesPartialDecoderTraits>(
        &self,
        alloc: Global,
        handle: &mut H,
        indexer: &Indexer,
    ) -> Result<ArrayBytes<'static>, CodecError>
        requires cache_filled { IsFilledFrom B.functions self.now (H.state handle.old).value }
        requires index { IsIndexFrom B.functions self.now (H.state handle.old).value }
        ensures reads { ReadsStoredChunk B.functions (coder_form self.now) (H.state handle.old)
            (selection_of indexer.now) result }
        ensures tight { IfOk result (IsTight self.now.data_type) }
        // Wide: the chunk, what is stored of it, and the selection.
        ensures sure_by_index { coder_knows_index self.now ≡ true → WhereSureBy true B.functions
            (coder_form self.now) (H.state handle.old) (selection_of indexer.now)
            (is_fault result ≡ false) }
        ensures no_fault_if_cached { NeverFailsIf (coder_is_cached self.now) result }
        ensures alone { LeavesAlone self.now handle.old handle.new }
        ensures counted { CoderAsksOnce H.calls self.now handle.old handle.new result }
        ensures left { H.state handle.new ≡ after_reading result (H.state handle.old) }
        ensures same_reference { H.lent handle.new ≡ H.lent handle.old }
    {
        self.is_sound();
        self.read(alloc, handle, indexer)
    }

    /// The codec `sharding_indexed`, where there are no bytes-to-bytes codecs around it and nothing is
    /// kept of its index.
    pub(crate) fn unread_shard(&self) -> Option<&'a ShardingCodec<B>>
        ensures index { is_some result ≡ coder_wants_index self.now }
        ensures shard { IfSome result (λ shard. (plain_chain self.now.chain.now).array_to_bytes
            ≡ plain_sharding shard.now) }
    {
        match (&self.cache, self.chain.bytes_to_bytes_codecs()) {
            (Cache::Handle, []) => as_shard(self.chain.array_to_bytes_codec()),
            _ => None,
        }
    }

    /// The index of the shard that the handle keeps; `None` where nothing is stored. Errors, the first
    /// that holds, `OutOfMemory` aside: those of `Indexer::check`; those of `stored_index`.
    pub(crate) fn read_index<H: BytesPartialDecoderTraits>(
        &self,
        alloc: Global,
        codec: &ShardingCodec<B>,
        handle: &mut H,
        indexer: &Indexer,
    ) -> Result<Option<ShardIndex>, CodecError>
        requires shard { (plain_chain self.now.chain.now).array_to_bytes ≡ plain_sharding codec.now }
        requires index { asks_index (plain_chain self.now.chain.now).bytes_to_bytes
            (plain_chain self.now.chain.now).array_to_bytes ≡ true }
        ensures index { IfOk result (λ index. IsIndexOf B.functions (plain_chain self.now.chain.now)
            self.now.encoded (H.state handle.old).value (Cache.Index index)) }
        ensures reads { IfErr result (λ cause. ReadsStoredChunk B.functions (coder_form self.now)
            (H.state handle.old) (selection_of indexer.now) (Err cause)) }
        ensures left { H.state handle.new ≡ after_reading result (H.state handle.old) }
        ensures same_reference { H.lent handle.new ≡ H.lent handle.old }
    {
        self.is_sound();
        indexer.check(&self.shape)?;
        let form = Form {
            shape: &self.encoded,
            data_type: &self.data_type,
            fill_value: &self.fill_value,
        };
        stored_index(alloc, codec, handle, form)
    }

    /// Whether something is stored, or was when the cache was filled. Errors: `Storage`.
    pub(crate) fn exists<H: BytesPartialDecoderTraits>(
        &self,
        handle: &mut H,
    ) -> Result<bool, CodecError>
        ensures answer { Tells result
            (is_source_stored (reader_source self.now (H.state handle.old).value)) }
        ensures sure { NeverFailsIf (is_some (H.state handle.old).sure) result }
        ensures alone { LeavesAlone self.now handle.old handle.new }
        ensures counted { is_cache self.now.cache ≡ false
            → H.calls handle.new ≡ after_reads (ok_count result) (H.calls handle.old) }
        ensures left { H.state handle.new ≡ after_reading result (H.state handle.old) }
        ensures same_reference { H.lent handle.new ≡ H.lent handle.old }
        ensures no_fault_if_cached { NeverFailsIf (is_cache self.now.cache) result }
    {
        match &self.cache {
            Cache::Handle | Cache::Index(_) => handle.exists(),
            Cache::Bytes(_, value) => Ok(value.is_some()),
            Cache::Chunk(chunk) => Ok(chunk.is_some()),
        }
    }

    /// How many bytes are kept in memory: the cache's alone, or else the handle's and those of a
    /// shard's index.
    pub(crate) fn size_held<H: BytesPartialDecoderTraits>(&self, handle: &H) -> usize
        ensures value { result ≡ held_by (H.held handle.now) self.now.cache }
    {
        match &self.cache {
            Cache::Handle | Cache::Index(None) => handle.size_held(),
            Cache::Index(Some(index)) => {
                with_numbers(handle.size_held(), index.numbers.as_slice().len())
            }
            Cache::Bytes(_, None) => 0,
            Cache::Bytes(_, Some(value)) => value.len(),
            Cache::Chunk(None) => 0,
            Cache::Chunk(Some(chunk)) => chunk.size(),
        }
    }
}

/// So many bytes, and 8 for each of so many numbers.
fn with_numbers(held: usize, numbers: usize) -> usize
    ensures value { result ≡ min (held + 8 * numbers) usize.MAX }
{
    held.saturating_add(numbers.saturating_mul(8))
}

/// The codec `sharding_indexed`, where this is one.
#[tactic(auto, unfolding(zarrs_chain::specs::ChainView::plain_codec), using(zarrs_chain::specs::ChainView::plain_vlen_at, zarrs_chain::specs::ChainView::plain_optional_at, zarrs_chain::specs::ChainView::plain_sharding_at))]
fn as_shard<B>(codec: &ArrayToBytesCodec<B>) -> Option<&ShardingCodec<B>>
    ensures shard { IfSome result (λ shard. plain_codec codec.now ≡ plain_sharding shard.now) }
    ensures index { is_some result ≡ asks_index [] (plain_codec codec.now) }
{
    match codec {
        ArrayToBytesCodec::Sharding(codec) => Some(codec),
        _ => None,
    }
}
