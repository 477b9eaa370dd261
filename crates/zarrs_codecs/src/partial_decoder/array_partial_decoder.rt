ghost use Rattle.zarrs_codecs.specs.ChunkCoder.{IsFilledFrom, IsIndexFrom, coder_form, coder_is_cached, reader_source};
ghost use Rattle.std.specs.Prelude.{◌≡◌, ◌&&◌, Ok, Err, IfOk, IfErr, IsOk, is_some, true, false};
ghost use Rattle.std.proofs.Props.{props};
ghost use Rattle.zarrs_chunk.specs.Indexer.{selection_of};
ghost use Rattle.zarrs_array_bytes.specs.Tight.{IsTight};
ghost use Rattle.zarrs_codec.specs.Calls.{after_reads, ok_count};
ghost use Rattle.zarrs_codec.specs.HandleCalls.{NeverFailsIf, Tells};
ghost use Rattle.zarrs_chain_meaning.specs.Chain.{chain_reads};
ghost use Rattle.zarrs_codecs.specs.ChunkRead.{PlansRead, decodes_parts, ReadsStoredChunk, WhereSureBy};
ghost use Rattle.zarrs_codecs.specs.ChunkSource.{source_made};
ghost use Rattle.zarrs_codecs.specs.ElementCode.{Chunk-set};
ghost use Rattle.zarrs_codecs.specs.ChunkCalls.{WholeOnce};
ghost use Rattle.zarrs_codecs.specs.KeptIndex.{IsIndexOf-prop};
ghost use Rattle.zarrs_chain.specs.ChainView.{plain_chain};
ghost use Rattle.zarrs_chunk.specs.Answer.{is_fault};
ghost use Rattle.zarrs_codec.specs.CodersOverHandles.{OnlyReads};

use crate::chunk_coder::ChunkCoder;
use crate::partial_decoder::cache::Cache;
use std::alloc::Global;
use zarrs_array_bytes::ArrayBytes;
use zarrs_chain::CodecChain;
use zarrs_chunk::{ChunkShape, CodecError, Indexer};
use zarrs_codec::{
    ArrayPartialDecoderTraits, ByteRange, BytesPartialDecoderTraits, BytesToBytesCodecTraits,
    Refused,
};
use zarrs_data_type::{DataType, FillValue};

/// Reads a chunk of a [`CodecChain`] in part, over a storage handle that it owns. The chain is
/// borrowed.
///
/// Without bytes-to-bytes codecs, over `bytes` and `packbits`, a read looks at the bytes of the
/// places that are asked for and at no others: it checks neither the value's length nor what else
/// stands there. Over a plain `vlen`, whose index chain is `bytes` with a byte order and whose data
/// chain is `bytes`, both alone, it looks at the offsets and at the bytes of the elements that are
/// asked for. Over `sharding_indexed` it looks at the index and, of the inner chunks that have any of
/// the places, at what the inner chain looks at; the index is read by the first read, and kept: later
/// reads look at inner chunks alone. Where a codec can't read or decode a part, what it makes is kept
/// in a cache, which is filled once, when the decoder is made; after that the handle is left alone.
/// One that was an encoder (`ArrayPartialEncoder::into_decoder`) has no cache: through such a codec
/// each of its reads decodes the whole value.
#[derive(Drop)]
pub struct ArrayPartialDecoder<'a, H: BytesPartialDecoderTraits, B: BytesToBytesCodecTraits> {
    pub(crate) handle: H,
    pub(crate) coder: ChunkCoder<'a, B>,
    ghost kept: { IsFilledFrom B.functions coder (H.state handle).value } by { Prim.hlevel (props, Chunk-set) },
    ghost index: { IsIndexFrom B.functions coder (H.state handle).value } by { IsIndexOf-prop B.functions (plain_chain coder.chain.now) coder.encoded (H.state handle).value coder.cache },
    ghost wanted: { coder_is_cached coder ≡ true → source_made B.functions B.reads_in_part (coder_form coder) (H.state handle).value ≡ Ok (reader_source coder (H.state handle).value) } by { Prim.hlevel (props, Chunk-set) },
}

impl<'a, H: BytesPartialDecoderTraits, B: BytesToBytesCodecTraits> ArrayPartialDecoder<'a, H, B> {
    ghost use Rattle.zarrs_codecs.specs.PartialDecoder.{decoder_held, decoder_form, handle_of, is_bare, is_cached, is_indexed, KeepsCache, KeepsHandle, KeepsIndex, LeavesIndex, wants_index};

    /// The type of the elements.
    pub fn data_type(&self) -> &DataType
        ensures value { result.now ≡ (decoder_form self.now).type }
    {
        self.coder.data_type()
    }

    /// Reads the index of a shard, where the chain has one and it isn't kept yet, and keeps it. Errors:
    /// those of `ChunkCoder::read_index`.
    fn keep_index(&mut self, alloc: Global, indexer: &Indexer) -> Result<(), CodecError>
        // Wide: the chunk, what is stored of it, and the selection.
        ensures reads { IfErr result (λ cause. ReadsStoredChunk B.functions
            (decoder_form self.old) (H.state (handle_of self.old)) (selection_of indexer.now)
            (Err cause)) }
        ensures left { OnlyReads (λ it. H.state (handle_of it)) (λ it. H.lent (handle_of it)) decoder_form
            self.old self.new result }
        ensures cache_kept { is_cached self.new ≡ is_cached self.old }
        ensures index { LeavesIndex self.old self.new result }
        ensures sure_by_index { is_indexed self.old ≡ true → IsOk result }
        ensures no_fault_if_cached { is_cached self.old ≡ true → IsOk result }
        ensures alone { wants_index self.old ≡ false → handle_of self.new ≡ handle_of self.old }
    {
        let Some(codec) = self.coder.unread_shard() else {
            return Ok(());
        };
        let index = self
            .coder
            .read_index(alloc, codec, &mut self.handle, indexer)?;
        self.coder.cache = Cache::Index(index);
        Ok(())
    }

    /// The elements that the indexer selects, in its order: those of the chunk that the stored
    /// value stands for, and the fill value at each place where nothing is stored. Without
    /// bytes-to-bytes codecs, over `bytes` and `packbits`, the answer rests on the places' bytes
    /// alone, over a plain `vlen` on the value's length, the offsets and the elements' bytes, and
    /// over `sharding_indexed` on the value's length, the index and what the inner chain's reads
    /// rest on of the inner chunks that have any of the places, whatever else is stored. In what is
    /// given offsets begin at 0 and end at the length of the bytes, mask bytes are 0 and 1, and
    /// absent elements stand over blank ones.
    ///
    /// Errors, the first that holds, `OutOfMemory` aside: those of `Indexer::check`; `Storage`, but
    /// never of a decoder that has a cache, nor where the answer rests on such bytes alone and all
    /// of these are sure, but for the index's where that is kept; `BytesCodec` of the last
    /// bytes-to-bytes codec, then of the one before, of a decoder that has a cache only of those
    /// below it; over `bytes` and `packbits` `InvalidByteRange` where a place's bytes lie past the
    /// end; over a plain `vlen` those of `zarrs_plain_vlen::read_runs`, also where the indexer
    /// selects no place; over `sharding_indexed`, also where it selects none,
    /// `InvalidBytesLength` where the value has fewer bytes than the index and those of the index
    /// chain, and then of each inner chunk that has any of the places, in the order of their
    /// numbers, `InvalidByteRange` where its bytes end behind the value and those of the inner
    /// chain's read; over `optional`, `vlen-utf8`, `vlen-bytes` and any other `vlen`, without a
    /// cache, what `CodecChain::decode` rejects of the value of this codec:
    ///
    /// - of `vlen` `InvalidBytesLength`, `IndexLength`, `Overflow`, those of the index chain,
    ///   `InvalidOffsets`, those of the data chain;
    /// - of `vlen-utf8` and `vlen-bytes` `InvalidBytesLength`, `ElementCount`,
    ///   `InvalidBytesLength`;
    /// - of `optional` `InvalidBytesLength`, `HeaderOverflow`, `InvalidBytesLength`, those of the
    ///   mask chain, `MaskValue`, those of the data chain.
    ///
    /// With a cache over these codecs, it was rejected when the decoder was made.
    pub fn partial_decode(
        &mut self,
        alloc: Global,
        indexer: &Indexer,
    ) -> Result<ArrayBytes<'static>, CodecError>
        ensures reads { ReadsStoredChunk B.functions (decoder_form self.old) (H.state (handle_of self.old))
            (selection_of indexer.now) result }
        ensures tight { IfOk result (IsTight (decoder_form self.old).type) }
        ensures no_fault_if_cached { NeverFailsIf (is_cached self.old) result }
        ensures alone { is_cached self.old ≡ true → handle_of self.new ≡ handle_of self.old }
        ensures counted { is_cached self.old ≡ false → WholeOnce H.calls (decoder_form self.old).chain
            (handle_of self.old) (handle_of self.new) result }
        ensures left { OnlyReads (λ it. H.state (handle_of it)) (λ it. H.lent (handle_of it)) decoder_form
            self.old self.new result }
        ensures cache_kept { is_cached self.new ≡ is_cached self.old }
        ensures index { LeavesIndex self.old self.new result }
        ensures sure_by_index { is_indexed self.old ≡ true → WhereSureBy true B.functions (decoder_form
            self.old) (H.state (handle_of self.old)) (selection_of indexer.now) (is_fault result ≡ false) }
    {
        self.keep_index(alloc, indexer)?;
        self.coder.read_chunk(alloc, &mut self.handle, indexer)
    }

    /// Whether a value is stored; of a decoder that has a cache, whether one was when it was made.
    /// Errors: `Storage`, but never of a decoder that has a cache, nor where the handle has sure
    /// bytes.
    pub fn exists(&mut self) -> Result<bool, CodecError>
        ensures answer { Tells result (is_some (H.state (handle_of self.old)).value) }
        ensures sure { NeverFailsIf (is_some (H.state (handle_of self.old)).sure) result }
        ensures no_fault_if_cached { NeverFailsIf (is_cached self.old) result }
        ensures alone { is_cached self.old ≡ true → handle_of self.new ≡ handle_of self.old }
        ensures counted { is_cached self.old ≡ false → H.calls (handle_of self.new)
            ≡ after_reads (ok_count result) (H.calls (handle_of self.old)) }
        ensures left { OnlyReads (λ it. H.state (handle_of it)) (λ it. H.lent (handle_of it)) decoder_form
            self.old self.new result }
        ensures cache_kept { is_cached self.new ≡ is_cached self.old }
    {
        self.coder.exists(&mut self.handle)
    }

    /// How many bytes are kept in memory: the cache's alone, or without a cache the handle's and those
    /// of a shard's index, 16 for each inner chunk.
    pub fn size_held(&self) -> usize
        ensures handle { is_bare self.now ≡ true → result ≡ H.held (handle_of self.now) }
        ensures shardless { KeepsHandle H.held self.now result }
        ensures index { KeepsIndex H.state B.functions H.held self.now result }
        ensures cache { KeepsCache H.state B.functions B.reads_in_part self.now result }
        ensures value { result ≡ decoder_held self.now (H.held (handle_of self.now)) }
    {
        self.coder.size_held(&self.handle)
    }

    /// The ranges, in bytes of the stored value, that a read asks for, where it asks for the bytes
    /// of its places alone: they are these bytes and no others. They come in the order in which the
    /// places do, neighbours joined; over `bytes` those of a box that goes through the
    /// array-to-array codecs as one in the order in which they stand. `None` where bytes-to-bytes
    /// codecs, or chains inside the array-to-bytes codec, stand in the way. Errors, the first that
    /// holds: those of `Indexer::check`; `OutOfMemory`.
    pub fn planned_ranges(
        &self,
        alloc: Global,
        indexer: &Indexer,
    ) -> Result<Option<Vec<ByteRange>>, CodecError>
        ensures plan { PlansRead B.functions (decoder_form self.now) (selection_of indexer.now) result }
    {
        self.coder.planned_ranges(alloc, indexer)
    }

    /// Whether a part is read without the rest: where all codecs of the chain decode a part, and the
    /// handle reads ranges by themselves.
    pub fn supports_partial_decode(&self) -> bool
        ensures value { result ≡ decodes_parts B.reads_in_part (decoder_form self.now)
            && H.reads_ranges }
    {
        self.coder.decodes_parts() && self.handle.supports_partial_decode()
    }

    /// The handle, as it stands.
    pub fn into_handle(self) -> H
        ensures value { result ≡ handle_of self.entry }
    {
        let ArrayPartialDecoder { handle, coder: _ } = self;
        handle
    }
}

impl<'a, H: BytesPartialDecoderTraits, B: BytesToBytesCodecTraits> ArrayPartialDecoderTraits
    for ArrayPartialDecoder<'a, H, B> {
    ghost use Rattle.zarrs_codecs.specs.PartialDecoder.{chunk_reader, decoder_held, decoder_form, handle_of, is_cached};

    ghost reader = { λ decoder. chunk_reader B.functions (decoder_form decoder) (is_cached decoder) (H.state (handle_of decoder)).sure (H.state (handle_of decoder)).value ((chain_reads B.reads_in_part (decoder_form decoder).chain).partial_decode && H.reads_ranges) };

    ghost state = { λ decoder. H.state (handle_of decoder) };

    ghost lent = { λ decoder. H.lent (handle_of decoder) };

    ghost held = { λ decoder. decoder_held decoder (H.held (handle_of decoder)) };

    ghost use Rattle.zarrs_codecs.specs.CountLaws.{chunk_counts};

    ghost counts = { λ decoder. chunk_counts B.functions (decoder_form decoder) (is_cached decoder) (H.state (handle_of decoder)).sure (H.state (handle_of decoder)).value ((chain_reads B.reads_in_part (decoder_form decoder).chain).partial_decode && H.reads_ranges) };

    fn data_type(&self) -> &DataType {
        ArrayPartialDecoder::data_type(self)
    }

    fn exists(&mut self) -> Result<bool, CodecError> {
        ArrayPartialDecoder::exists(self)
    }

    fn size_held(&self) -> usize {
        ArrayPartialDecoder::size_held(self)
    }

    fn partial_decode(
        &mut self,
        alloc: Global,
        indexer: &Indexer,
    ) -> Result<ArrayBytes<'static>, CodecError> {
        ArrayPartialDecoder::partial_decode(self, alloc, indexer)
    }

    fn supports_partial_decode(&self) -> bool {
        ArrayPartialDecoder::supports_partial_decode(self)
    }
}
