//! Where the answer to a read in part comes from: the handle, bytes that are kept, or a chunk that is.
ghost use Rattle.std.specs.Prelude.{◌≡◌, ◌<◌, ◌≤◌, ◌^◌, All, IfOk, length, option_map, true, false};
ghost use Rattle.zarrs_chunk.specs.Runs.{joined_runs};
ghost use Rattle.zarrs_array_bytes.specs.Tight.{IsTight};
ghost use Rattle.zarrs_array_bytes.specs.Held.{items_of};
ghost use Rattle.zarrs_codec.specs.Calls.{MakesReads};
ghost use Rattle.zarrs_codec.specs.HandleCalls.{NeverFailsIf};
ghost use Rattle.zarrs_codec.specs.StorageState.{after_reading};
ghost use Rattle.zarrs_chain.specs.ChainView.{plain_chain};
ghost use Rattle.zarrs_codecs.specs.ChunkCalls.{WholeOnce};
ghost use Rattle.zarrs_codecs.specs.ChunkSource.{is_cache, bytes_above, chunk_below as chunk_source, is_cache_of};
ghost use Rattle.zarrs_codecs.specs.KeptIndex.{IsIndexOf};
ghost use Rattle.zarrs_chunk.specs.ChunkShape.{product};
ghost use Rattle.zarrs_array_bytes.specs.Elements.{elements};
ghost use Rattle.zarrs_codecs.specs.CacheTight.{CacheIsTight};

use crate::chunk_coder::ChunkCoder;
use crate::partial_decoder::cache::Cache;
use crate::partial_decoder::codec_read::{read_by_index, read_runs, read_runs_of_bytes};
use crate::partial_decoder::fill_runs::fill_runs;
use crate::partial_decoder::make_cache::{chunk_below as chunk_of_value, codec_reads};
use crate::sharding::shard_index::ShardIndex;
use std::alloc::Global;
use std::borrow::CowSlice;
use zarrs_array_bytes::{ArrayBytes, ArrayBytesRaw};
use zarrs_chain::stages::{Form, decode_bytes};
use zarrs_chunk::CodecError;
use zarrs_codec::{BytesPartialDecoderTraits, BytesToBytesCodecTraits};

impl<'a, B: BytesToBytesCodecTraits> ChunkCoder<'a, B> {
    ghost use Rattle.zarrs_codecs.specs.ChunkCoder.{reader_reads_parts, CoderAsksOnce, GivesOpened, IsIndexFrom, SureSource, SureSourceBy, AreInside, LeavesAlone, ReadsStored, GivesSource, ReadsSource, reader_source};

    /// The elements at the places of these runs, by the bytes above so many of the first
    /// bytes-to-bytes codecs, or by none. Errors, the first that holds, `OutOfMemory` aside:
    /// `BytesCodec` of the last of these codecs, then of the one before; of the array-to-bytes
    /// codec those that `partial_decode` of `ArrayPartialDecoder` names.
    fn read_above(
        &self,
        alloc: Global,
        value: Option<ArrayBytesRaw<'_>>,
        below: usize,
        runs: &[(u64, u64)],
    ) -> Result<ArrayBytes<'static>, CodecError>
        requires in_part { reader_reads_parts self.now ≡ true }
        requires known { below ≤ length (plain_chain self.now.chain.now).bytes_to_bytes }
        requires filled { All (λ run. 0 < run.1) runs.now }
        requires inside { AreInside self.now runs.now }
        requires count { length (joined_runs runs.now) < 2 ^ 64 }
        ensures answer { GivesSource B.functions self.now
            (bytes_above below (option_map (λ v. items_of v) value.entry)) runs.now result }
        ensures tight { IfOk result (IsTight self.now.data_type) }
    {
        let form = Form {
            shape: &self.encoded,
            data_type: &self.data_type,
            fill_value: &self.fill_value,
        };
        let codec = self.chain.array_to_bytes_codec();
        match value {
            None => read_runs_of_bytes::<B>(alloc, codec, None, form, runs),
            Some(value) => {
                let codecs = &self.chain.bytes_to_bytes_codecs()[..below];
                let bytes = decode_bytes(alloc, codecs, &self.representation, value)?;
                read_runs_of_bytes::<B>(alloc, codec, Some(bytes.as_slice()), form, runs)
            }
        }
    }

    /// The same, by what the handle keeps. Without bytes-to-bytes codecs the handle is asked for
    /// what the places rest on alone, and else for the whole value.
    fn read_stored<H: BytesPartialDecoderTraits>(
        &self,
        alloc: Global,
        handle: &mut H,
        runs: &[(u64, u64)],
    ) -> Result<ArrayBytes<'static>, CodecError>
        requires in_part { reader_reads_parts self.now ≡ true }
        requires filled { All (λ run. 0 < run.1) runs.now }
        requires inside { AreInside self.now runs.now }
        requires count { length (joined_runs runs.now) < 2 ^ 64 }
        ensures answer { ReadsStored B.functions self.now (H.state handle.old) runs.now result }
        ensures tight { IfOk result (IsTight self.now.data_type) }
        ensures sure { SureSourceBy false self.now (H.state handle.old) runs.now result }
        ensures counted { WholeOnce H.calls
            (plain_chain self.now.chain.now) handle.old handle.new result }
        ensures left { H.state handle.new ≡ after_reading result (H.state handle.old) }
        ensures same_reference { H.lent handle.new ≡ H.lent handle.old }
    {
        if self.chain.bytes_to_bytes_codecs().is_empty() {
            let form = Form {
                shape: &self.encoded,
                data_type: &self.data_type,
                fill_value: &self.fill_value,
            };
            let codec = self.chain.array_to_bytes_codec();
            return read_runs::<H, B>(alloc, codec, handle, form, runs);
        }
        let value = match handle.decode(alloc)? {
            None => None,
            Some(value) => Some(CowSlice::Owned(value)),
        };
        let below = self.chain.bytes_to_bytes_codecs().len();
        self.read_above(alloc, value, below, runs)
    }

    /// The same, where the array-to-bytes codec reads no part: by the whole chunk.
    fn read_whole<H: BytesPartialDecoderTraits>(
        &self,
        alloc: Global,
        handle: &mut H,
        runs: &[(u64, u64)],
    ) -> Result<ArrayBytes<'static>, CodecError>
        requires whole { reader_reads_parts self.now ≡ false }
        requires inside { AreInside self.now runs.now }
        requires count { length (joined_runs runs.now) < 2 ^ 64 }
        ensures answer { ReadsStored B.functions self.now (H.state handle.old) runs.now result }
        ensures tight { IfOk result (IsTight self.now.data_type) }
        ensures counted { MakesReads H.calls 1 handle.old handle.new result }
        ensures left { H.state handle.new ≡ after_reading result (H.state handle.old) }
        ensures same_reference { H.lent handle.new ≡ H.lent handle.old }
    {
        match handle.decode(alloc)? {
            None => fill_runs(alloc, &self.data_type, &self.fill_value, runs),
            Some(value) => self.runs_of_value(alloc, value, runs),
        }
    }

    /// The elements at the places of these runs of the chunk that the array-to-bytes codec reads of
    /// a value.
    fn runs_of_value(
        &self,
        alloc: Global,
        value: Vec<u8>,
        runs: &[(u64, u64)],
    ) -> Result<ArrayBytes<'static>, CodecError>
        requires inside { AreInside self.now runs.now }
        ensures answer { GivesOpened B.functions self.now value.items runs.now result }
        ensures tight { IfOk result (IsTight self.now.data_type) }
    {
        let form = Form {
            shape: &self.encoded,
            data_type: &self.data_type,
            fill_value: &self.fill_value,
        };
        let held = chunk_of_value(alloc, self.chain, form, &self.representation, value)?;
        let count = self.encoded.num_elements()?;
        held.extract_runs(alloc, runs, count, &self.data_type)
    }

    /// The elements at the places of these runs, of a chunk that is kept, or of none.
    fn read_kept(
        &self,
        alloc: Global,
        chunk: &Option<ArrayBytes<'static>>,
        runs: &[(u64, u64)],
    ) -> Result<ArrayBytes<'static>, CodecError>
        requires fits { is_cache_of self.now.chain.now self.now.encoded self.now.data_type
            (Cache.Chunk chunk.now) ≡ true }
        requires inside { AreInside self.now runs.now }
        requires count { length (joined_runs runs.now) < 2 ^ 64 }
        ensures answer { GivesSource B.functions self.now (chunk_source (option_map
            (elements self.now.data_type (product self.now.encoded)) chunk.now)) runs.now result }
        ensures tight { CacheIsTight self.now.data_type (Cache.Chunk chunk.now)
            → IfOk result (IsTight self.now.data_type) }
    {
        match chunk {
            None => fill_runs(alloc, &self.data_type, &self.fill_value, runs),
            Some(held) => {
                let count = self.encoded.num_elements()?;
                held.extract_runs(alloc, runs, count, &self.data_type)
            }
        }
    }

    /// The same, by what the handle keeps and the index of the shard that it keeps.
    fn read_by_index<H: BytesPartialDecoderTraits>(
        &self,
        alloc: Global,
        handle: &mut H,
        index: &Option<ShardIndex>,
        runs: &[(u64, u64)],
    ) -> Result<ArrayBytes<'static>, CodecError>
        requires index { IsIndexOf B.functions (plain_chain self.now.chain.now) self.now.encoded
            (H.state handle.old).value (Cache.Index index.now) }
        requires filled { All (λ run. 0 < run.1) runs.now }
        requires inside { AreInside self.now runs.now }
        requires count { length (joined_runs runs.now) < 2 ^ 64 }
        ensures answer { ReadsStored B.functions self.now (H.state handle.old) runs.now result }
        ensures tight { IfOk result (IsTight self.now.data_type) }
        ensures sure { SureSourceBy true self.now (H.state handle.old) runs.now result }
        ensures counted { WholeOnce H.calls
            (plain_chain self.now.chain.now) handle.old handle.new result }
        ensures left { H.state handle.new ≡ after_reading result (H.state handle.old) }
        ensures same_reference { H.lent handle.new ≡ H.lent handle.old }
    {
        let form = Form {
            shape: &self.encoded,
            data_type: &self.data_type,
            fill_value: &self.fill_value,
        };
        let codec = self.chain.array_to_bytes_codec();
        read_by_index::<H, B>(alloc, codec, handle, index, form, runs)
    }

    /// The elements at the places of these runs of the chunk that the array-to-bytes codec gets.
    pub(crate) fn read_runs<H: BytesPartialDecoderTraits>(
        &self,
        alloc: Global,
        handle: &mut H,
        runs: &[(u64, u64)],
    ) -> Result<ArrayBytes<'static>, CodecError>
        requires index { IsIndexFrom B.functions self.now (H.state handle.old).value }
        requires filled { All (λ run. 0 < run.1) runs.now }
        requires inside { AreInside self.now runs.now }
        requires count { length (joined_runs runs.now) < 2 ^ 64 }
        ensures answer { ReadsSource B.functions self.now
            (reader_source self.now (H.state handle.old).value) runs.now result }
        ensures tight { IfOk result (IsTight self.now.data_type) }
        ensures sure { SureSource self.now (H.state handle.old) runs.now result }
        ensures alone { LeavesAlone self.now handle.old handle.new }
        ensures counted { CoderAsksOnce H.calls self.now handle.old handle.new result }
        ensures left { H.state handle.new ≡ after_reading result (H.state handle.old) }
        ensures same_reference { H.lent handle.new ≡ H.lent handle.old }
        ensures no_fault_if_cached { NeverFailsIf (is_cache self.now.cache) result }
    {
        match &self.cache {
            Cache::Handle => {
                if codec_reads(self.chain).partial_decode {
                    self.read_stored(alloc, handle, runs)
                } else {
                    self.read_whole(alloc, handle, runs)
                }
            }
            Cache::Index(index) => self.read_by_index(alloc, handle, index, runs),
            Cache::Bytes(below, value) => self.read_above(alloc, lent_bytes(value), *below, runs),
            Cache::Chunk(chunk) => self.read_kept(alloc, chunk, runs),
        }
    }
}

/// The bytes that are kept, lent.
fn lent_bytes(value: &Option<Vec<u8>>) -> Option<ArrayBytesRaw<'_>>
    ensures value { option_map (λ v. items_of v) result ≡ option_map (λ v. v.items) value.now }
{
    match value {
        None => None,
        Some(value) => Some(CowSlice::Borrowed(value.as_slice())),
    }
}
