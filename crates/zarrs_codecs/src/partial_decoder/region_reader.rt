//! Reading a region of a chunk: it stays one through the array-to-array codecs, and one of a shard whose
//! index is kept is read as a box there.
ghost use Rattle.std.specs.Prelude.{◌≡◌, ◌<◌, IfOk, IfErr, IfSome, true};
ghost use Rattle.zarrs_chunk.specs.ChunkShape.{product};
ghost use Rattle.zarrs_chunk.specs.Selection.{subset as subset_of};
ghost use Rattle.zarrs_chunk.specs.Tuples.{is_box_inside};
ghost use Rattle.zarrs_array_bytes.specs.Tight.{IsTight};
ghost use Rattle.zarrs_codec.specs.HandleCalls.{NeverFailsIf};
ghost use Rattle.zarrs_codec.specs.StorageState.{after_reading};
ghost use Rattle.zarrs_codecs.specs.ChunkSource.{is_cache};
ghost use Rattle.zarrs_array_regions.specs.WindowLaws.{region_places};

use crate::chunk_coder::ChunkCoder;
use crate::partial_decoder::cache::Cache;
use crate::partial_decoder::codec_read::read_box;
use crate::sharding::shard_index::ShardIndex;
use std::alloc::Global;
use zarrs_array_bytes::ArrayBytes;
use zarrs_array_regions::{decoded_window, region_runs, region_window};
use zarrs_chain::stages::Form;
use zarrs_chunk::{ArraySubset, CodecError};
use zarrs_codec::{BytesPartialDecoderTraits, BytesToBytesCodecTraits};

impl<'a, B: BytesToBytesCodecTraits> ChunkCoder<'a, B> {
    ghost use Rattle.zarrs_codecs.specs.ChunkCoder.{IsIndexFrom, CoderAsksOnce, LeavesAlone, ReadsSelected, SureSelected, ReadsSourcePlaces, StandsAsBox, SurePlacesOf, coder_keeps_regions, coder_standing, reader_source};

    /// The index that is kept of a shard that is stored, and the box of it to which a region goes.
    fn shard_box<'c>(
        &'c self,
        alloc: Global,
        region: &ArraySubset,
    ) -> Result<Option<(&'c ShardIndex, ArraySubset)>, CodecError>
        requires inside { is_box_inside self.now.shape region.now.starts region.now.lengths ≡ true }
        requires filled { 0 < product region.now.lengths }
        requires region_kept { coder_keeps_regions self.now ≡ true }
        ensures kept { IfOk result (λ found. IfSome found
            (λ it. self.now.cache ≡ Cache.Index (Some it.0.now))) }
        ensures standing { IfOk result (λ found. IfSome found
            (λ it. StandsAsBox self.now region.now it.1)) }
        ensures refused { IfErr result (λ error. error ≡ CodecError.OutOfMemory) }
    {
        let Cache::Index(Some(index)) = &self.cache else {
            return Ok(None);
        };
        self.is_sound();
        let codecs = self.chain.array_to_array_codecs();
        let window = region_window(alloc, codecs, &self.shape, region)?;
        if window.sizes != self.encoded {
            return Ok(None);
        }
        Ok(Some((index, window.region)))
    }

    /// The elements of a box of a shard, which no array-to-array codec moves any more, in row-major
    /// order, by the index that is kept. Errors, the first that holds, `OutOfMemory` aside: `Storage`;
    /// those that `partial_decode` of `ArrayPartialDecoder` names of `sharding_indexed`, but for those
    /// of the index.
    fn read_box<H: BytesPartialDecoderTraits>(
        &self,
        alloc: Global,
        handle: &mut H,
        index: &ShardIndex,
        region: &ArraySubset,
    ) -> Result<ArrayBytes<'static>, CodecError>
        requires kept { self.now.cache ≡ Cache.Index (Some index.now) }
        requires index { IsIndexFrom B.functions self.now (H.state handle.old).value }
        requires inside { is_box_inside self.now.encoded region.now.starts region.now.lengths ≡ true }
        requires filled { 0 < product region.now.lengths }
        ensures answer { ReadsSourcePlaces B.functions self.now (reader_source self.now
            (H.state handle.old).value) (region_places self.now.encoded region.now) result }
        ensures tight { IfOk result (IsTight self.now.data_type) }
        ensures sure { SurePlacesOf self.now (H.state handle.old)
            (region_places self.now.encoded region.now) result }
        ensures counted { CoderAsksOnce H.calls self.now handle.old handle.new result }
        ensures left { H.state handle.new ≡ after_reading result (H.state handle.old) }
        ensures same_reference { H.lent handle.new ≡ H.lent handle.old }
    {
        let form = Form {
            shape: &self.encoded,
            data_type: &self.data_type,
            fill_value: &self.fill_value,
        };
        let codec = self.chain.array_to_bytes_codec();
        read_box::<H, B>(alloc, codec, handle, index, form, region)
    }

    /// The elements at the places where a region stands in the moved chunk: of a shard whose index is
    /// kept those of the box there, else by the window's own runs.
    fn read_standing<H: BytesPartialDecoderTraits>(
        &self,
        alloc: Global,
        handle: &mut H,
        region: &ArraySubset,
    ) -> Result<ArrayBytes<'static>, CodecError>
        requires inside { is_box_inside self.now.shape region.now.starts region.now.lengths ≡ true }
        requires filled { 0 < product region.now.lengths }
        requires region_kept { coder_keeps_regions self.now ≡ true }
        requires index { IsIndexFrom B.functions self.now (H.state handle.old).value }
        ensures answer { ReadsSourcePlaces B.functions self.now (reader_source self.now
            (H.state handle.old).value) (coder_standing self.now region.now) result }
        ensures tight { IfOk result (IsTight self.now.data_type) }
        ensures sure { SurePlacesOf self.now (H.state handle.old)
            (coder_standing self.now region.now) result }
        ensures alone { LeavesAlone self.now handle.old handle.new }
        ensures counted { CoderAsksOnce H.calls self.now handle.old handle.new result }
        ensures left { H.state handle.new ≡ after_reading result (H.state handle.old) }
        ensures same_reference { H.lent handle.new ≡ H.lent handle.old }
        ensures no_fault_if_cached { NeverFailsIf (is_cache self.now.cache) result }
    {
        if let Some((index, window)) = self.shard_box(alloc, region)? {
            return self.read_box(alloc, handle, index, &window);
        }
        self.is_sound();
        let codecs = self.chain.array_to_array_codecs();
        let runs = region_runs(alloc, codecs, &self.shape, region)?;
        self.read_runs(alloc, handle, &runs)
    }

    /// The elements of a region that goes through the array-to-array codecs as one, in row-major
    /// order: those of its window in the moved chunk are read and decoded. Errors, the first that
    /// holds, `OutOfMemory` aside: `Storage`; those of the bytes-to-bytes codecs that a cache leaves,
    /// and those that `partial_decode` of `ArrayPartialDecoder` names of the array-to-bytes codec.
    pub(crate) fn read_region<H: BytesPartialDecoderTraits>(
        &self,
        alloc: Global,
        handle: &mut H,
        region: &ArraySubset,
    ) -> Result<ArrayBytes<'static>, CodecError>
        requires inside { is_box_inside self.now.shape region.now.starts region.now.lengths ≡ true }
        requires filled { 0 < product region.now.lengths }
        requires region_kept { coder_keeps_regions self.now ≡ true }
        requires index { IsIndexFrom B.functions self.now (H.state handle.old).value }
        ensures answer { ReadsSelected self.now (H.state handle.old) (subset_of region.now) result }
        ensures tight { IfOk result (IsTight self.now.data_type) }
        ensures sure { SureSelected self.now (H.state handle.old) (subset_of region.now) result }
        ensures alone { LeavesAlone self.now handle.old handle.new }
        ensures counted { CoderAsksOnce H.calls self.now handle.old handle.new result }
        ensures left { H.state handle.new ≡ after_reading result (H.state handle.old) }
        ensures same_reference { H.lent handle.new ≡ H.lent handle.old }
        ensures no_fault_if_cached { NeverFailsIf (is_cache self.now.cache) result }
    {
        self.is_sound();
        let held = self.read_standing(alloc, handle, region)?;
        decoded_window(
            alloc,
            self.chain.array_to_array_codecs(),
            &self.shape,
            region,
            held,
            &self.data_type,
            &self.fill_value,
        )
    }
}
