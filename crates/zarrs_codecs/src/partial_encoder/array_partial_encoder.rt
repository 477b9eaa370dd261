ghost use Rattle.zarrs_codecs.specs.ChunkCoder.{coder_keeps_nothing};
ghost use Rattle.std.specs.Prelude.{◌≡◌, ◌<◌, ◌&&◌, All, Ok, IfOk, None, is_some, false, true, OnErr};
ghost use Rattle.zarrs_chunk.specs.Answer.{Answers, fault};
ghost use Rattle.zarrs_chunk.specs.Indexer.{selection_of};
ghost use Rattle.zarrs_array_bytes.specs.Tight.{IsTight};
ghost use Rattle.zarrs_codec.specs.BytesToBytesCodec.{AreBytes};
ghost use Rattle.zarrs_codec.specs.Calls.{after_reads, ok_count};
ghost use Rattle.zarrs_codec.specs.HandleCalls.{NeverFailsIf, Tells};
ghost use Rattle.zarrs_chain_meaning.specs.Chain.{chain_reads, chain_writes};
ghost use Rattle.zarrs_chain_meaning.specs.Laws.{IsChainOfMappings};
ghost use Rattle.zarrs_codecs.specs.ChunkRead.{PlansRead, decodes_parts, ReadsStoredChunk, form_in_place};
ghost use Rattle.zarrs_codecs.specs.ChunkWrite.{encodes_parts, EditsStored};
ghost use Rattle.zarrs_codecs.specs.ChunkCalls.{CountsEditThrough, WholeOnce};
ghost use Rattle.zarrs_bytes.specs.PartialWrite.{FailsByWriting};
ghost use Rattle.zarrs_codec.specs.StorageState.{apart_from_value, after_writing};
ghost use Rattle.zarrs_codec.specs.CodersOverHandles.{OnlyReads, OnlyWrites};

use crate::chunk_coder::ChunkCoder;
use crate::partial_decoder::array_partial_decoder::ArrayPartialDecoder;
use std::alloc::Global;
use zarrs_array_bytes::ArrayBytes;
use zarrs_chain::CodecChain;
use zarrs_chunk::{ChunkShape, CodecError, Indexer};
use zarrs_codec::{
    ArrayPartialDecoderTraits, ArrayPartialEncoderTraits, ByteRange, BytesPartialEncoderTraits,
    BytesToBytesCodecTraits, Refused, bytes_are,
};
use zarrs_data_type::{DataType, FillValue};

/// Writes a chunk of a [`CodecChain`] in part, over a storage handle that it owns, and reads it in
/// part. The chain is borrowed.
///
/// It has no cache: each call asks the handle, so what is read is what was written last. Over
/// `bytes` without bytes-to-bytes codecs a write over a stored value replaces the bytes of its
/// places alone; through every other chain the whole value is decoded, encoded and replaced. A
/// chunk of fill values is stored like any other.
#[derive(Drop)]
pub struct ArrayPartialEncoder<'a, H: BytesPartialEncoderTraits, B: BytesToBytesCodecTraits> {
    pub(crate) handle: H,
    pub(crate) coder: ChunkCoder<'a, B>,
    ghost uncached: { coder_keeps_nothing coder ≡ true },
}

impl<'a, H: BytesPartialEncoderTraits, B: BytesToBytesCodecTraits> ArrayPartialEncoder<'a, H, B> {
    ghost use Rattle.zarrs_codecs.specs.PartialDecoder.{decoder_form, handle_of, is_bare, is_cached};
    ghost use Rattle.zarrs_codecs.specs.PartialEncoder.{encoder_form, encoder_handle};

    /// What the chain, the shape and the fill value are made of holds.
    pub(crate) fn is_sound(&self)
        ensures mappings { IsChainOfMappings (encoder_form self.now).chain }
        ensures positive { All (λ size. 0 < size) (encoder_form self.now).sizes }
        ensures fill_bytes { AreBytes (encoder_form self.now).fill }
    {
        self.coder.is_sound();
        bytes_are(self.coder.fill_value.as_ne_bytes());
    }

    /// The type of the elements.
    pub fn data_type(&self) -> &DataType
        ensures value { result.now ≡ (encoder_form self.now).type }
    {
        self.coder.data_type()
    }

    /// The elements that the indexer selects, in its order: those of the chunk that the stored
    /// value stands for, and the fill value at each place where nothing is stored. Without
    /// bytes-to-bytes codecs, over `bytes` and `packbits`, the answer rests on the places' bytes
    /// alone, over a plain `vlen` on the value's length, the offsets and the elements' bytes, and
    /// over `sharding_indexed` on the value's length, the index and what the inner chain's reads
    /// rest on of the inner chunks that have any of the places, whatever else is stored. In what is
    /// given offsets begin at 0 and end at the length of the bytes, mask bytes are 0 and 1, and
    /// absent elements stand over blank ones.
    ///
    /// Errors, the first that holds, `OutOfMemory` aside: those of `Indexer::check`; `Storage`, but
    /// never where the answer rests on such bytes alone and all of these are sure; `BytesCodec` of
    /// the last bytes-to-bytes codec, then of the one before; over `bytes` and `packbits`
    /// `InvalidByteRange` where a place's bytes lie past the end; over a plain `vlen` those of
    /// `zarrs_plain_vlen::read_runs`, also where the indexer selects no place; over
    /// `sharding_indexed`, also where it selects none, `InvalidBytesLength` where the value has
    /// fewer bytes than the index and those of the index chain, and then of each inner chunk that
    /// has any of the places, in the order of their numbers, `InvalidByteRange` where its bytes end
    /// behind the value and those of the inner chain's read; over `optional`, `vlen-utf8`,
    /// `vlen-bytes` and any other `vlen` what `CodecChain::decode` rejects of the value of this
    /// codec:
    ///
    /// - of `vlen` `InvalidBytesLength`, `IndexLength`, `Overflow`, those of the index chain,
    ///   `InvalidOffsets`, those of the data chain;
    /// - of `vlen-utf8` and `vlen-bytes` `InvalidBytesLength`, `ElementCount`,
    ///   `InvalidBytesLength`;
    /// - of `optional` `InvalidBytesLength`, `HeaderOverflow`, `InvalidBytesLength`, those of the
    ///   mask chain, `MaskValue`, those of the data chain.
    pub fn partial_decode(
        &mut self,
        alloc: Global,
        indexer: &Indexer,
    ) -> Result<ArrayBytes<'static>, CodecError>
        ensures reads { ReadsStoredChunk B.functions (encoder_form self.old)
            (H.state (encoder_handle self.old)) (selection_of indexer.now) result }
        ensures tight { IfOk result (IsTight (encoder_form self.old).type) }
        ensures counted { WholeOnce H.calls (encoder_form self.old).chain (encoder_handle self.old)
            (encoder_handle self.new) result }
        ensures left { OnlyReads (λ it. H.state (encoder_handle it)) (λ it. H.lent (encoder_handle it))
            encoder_form self.old self.new result }
    {
        self.coder.read_chunk(alloc, &mut self.handle, indexer)
    }

    /// Whether a value is stored. Errors: `Storage`, but never where the handle has sure bytes.
    pub fn exists(&mut self) -> Result<bool, CodecError>
        ensures answer { Tells result (is_some (H.state (encoder_handle self.old)).value) }
        ensures sure { NeverFailsIf (is_some (H.state (encoder_handle self.old)).sure) result }
        ensures counted { H.calls (encoder_handle self.new)
            ≡ after_reads (ok_count result) (H.calls (encoder_handle self.old)) }
        ensures left { OnlyReads (λ it. H.state (encoder_handle it)) (λ it. H.lent (encoder_handle it))
            encoder_form self.old self.new result }
    {
        self.handle.exists()
    }

    /// How many bytes the handle keeps in memory.
    pub fn size_held(&self) -> usize
        ensures value { result ≡ H.held (encoder_handle self.now) }
    {
        self.handle.size_held()
    }

    /// The ranges, in bytes of the stored value, that a read asks for, where it asks for the bytes
    /// of its places alone: they are these bytes and no others. They come in the order in which the
    /// places do, neighbours joined; over `bytes` those of a box that goes through the
    /// array-to-array codecs as one in the order in which they stand. `None` where bytes-to-bytes
    /// codecs, or chains inside the array-to-bytes codec, stand in the way. Errors, the first that
    /// holds: those of `Indexer::check`; `OutOfMemory`.
    pub fn planned_ranges(
        &self,
        alloc: Global,
        indexer: &Indexer,
    ) -> Result<Option<Vec<ByteRange>>, CodecError>
        ensures plan { PlansRead B.functions (encoder_form self.now)
            (selection_of indexer.now) result }
    {
        self.coder.planned_ranges(alloc, indexer)
    }

    /// Whether a part is read without the rest: where all codecs of the chain decode a part, and the
    /// handle reads ranges by themselves.
    pub fn supports_partial_decode(&self) -> bool
        ensures value { result ≡ decodes_parts B.reads_in_part (encoder_form self.now)
            && H.reads_ranges }
    {
        self.coder.decodes_parts() && self.handle.supports_partial_decode()
    }

    /// Writes these elements at the places that the indexer selects, in its order: where a place
    /// comes twice, the last one stands. The value afterwards is the one that is written for the
    /// chunk with these elements, which begins as the chunk that the stored value stands for, or as
    /// fill values where nothing is stored; that one is written whole, for an indexer without
    /// places too. Over `bytes` without bytes-to-bytes codecs every stored value is accepted and
    /// none of it is read: the places' bytes alone are replaced, and it grows with zeros up to the
    /// furthest place.
    ///
    /// Errors, the first that holds, `OutOfMemory` aside: those of `Indexer::check`; level by level
    /// `ArrayBytesKind` or `DataMismatch` of the new elements; then, once the handle is asked,
    /// `Storage` of the reading; but over `bytes` without bytes-to-bytes codecs, what
    /// `CodecChain::decode` rejects of a value that is stored, and what `CodecChain::encode`
    /// rejects of the chunk with these elements; `Storage` of the writing. What these two reject is
    ///
    /// - of a stored value `BytesCodec` of the last bytes-to-bytes codec, then of the one before;
    ///   of `bytes` and `packbits` `InvalidBytesLength`, of `packbits` `PaddingByte`; of `vlen`
    ///   `InvalidBytesLength`, `IndexLength`, `Overflow`, those of the index chain,
    ///   `InvalidOffsets`, those of the data chain; of `vlen-utf8` and `vlen-bytes`
    ///   `InvalidBytesLength`, `ElementCount`, `InvalidBytesLength`; of `optional`
    ///   `InvalidBytesLength`, `HeaderOverflow`, `InvalidBytesLength`, those of the mask chain,
    ///   `MaskValue`, those of the data chain; of `sharding_indexed` `InvalidBytesLength`, those of
    ///   the index chain, and then of each inner chunk that is stored `InvalidByteRange`, those of
    ///   the inner chain;
    /// - of the chunk `Overflow` where 64 bits don't count its elements' bytes or offsets; of
    ///   `vlen` `OffsetTooLarge`, those of the index chain, `OffsetNotKept`, those of the data
    ///   chain; of `vlen-utf8` and `vlen-bytes` `OffsetTooLarge`; of `optional` those of the mask
    ///   chain, those of the data chain; of `sharding_indexed` those of the inner chain, of the
    ///   inner chunks that aren't left out, those of the index chain, `OffsetNotKept`.
    ///
    /// One that is accepted makes exactly one reading and one writing call of the handle. One that
    /// is rejected makes no writing call, or the one that rejected it, and leaves the value as it
    /// was, but where that call is rejected and the handle isn't atomic.
    pub fn partial_encode(
        &mut self,
        alloc: Global,
        indexer: &Indexer,
        elements: &ArrayBytes<'_>,
    ) -> Result<(), CodecError>
        ensures edits { EditsStored B.functions (encoder_form self.old) (H.state (encoder_handle self.old))
            (H.state (encoder_handle self.new)) (selection_of indexer.now) elements.now result }
        ensures unread { is_some (form_in_place (encoder_form self.old)) ≡ true
            → FailsByWriting H.state (encoder_handle self.old) (encoder_handle self.new) result }
        ensures counted { CountsEditThrough H.calls H.state (encoder_form self.old) (selection_of
            indexer.now) (encoder_handle self.old) (encoder_handle self.new) result }
        ensures left { OnlyWrites (λ it. H.state (encoder_handle it)) (λ it. H.lent (encoder_handle it))
            encoder_form H.atomic self.old self.new result }
    {
        self.coder.is_sound();
        self.coder.write(alloc, &mut self.handle, indexer, elements)
    }

    /// Leaves no value; there may have been none. Errors: `Storage`. It makes exactly one writing
    /// call of the handle. An error leaves the value as it was where the handle is atomic.
    pub fn erase(&mut self) -> Result<(), CodecError>
        ensures answer { Answers fault (λ _. (H.state (encoder_handle self.new)).value) result
            (Ok None) }
        ensures one_write { apart_from_value (H.state (encoder_handle self.new)) ≡ after_writing result
            (H.state (encoder_handle self.old)) }
        ensures kept_if_atomic { OnErr result (H.atomic ≡ true → (H.state (encoder_handle self.new)).value
            ≡ (H.state (encoder_handle self.old)).value) }
        ensures same_reference { H.lent (encoder_handle self.new) ≡ H.lent (encoder_handle self.old) }
        ensures form_kept { encoder_form self.new ≡ encoder_form self.old }
    {
        self.handle.erase()
    }

    /// Whether a part is written without the rest: where all codecs of the chain write a part, and the
    /// handle writes pieces by themselves.
    pub fn supports_partial_encode(&self) -> bool
        ensures value { result ≡ encodes_parts B.writes_in_part (encoder_form self.now)
            && H.writes_ranges }
    {
        self.coder.encodes_parts() && self.handle.supports_partial_encode()
    }

    /// The decoder over the same handle. It has no cache either, and knows no index yet.
    pub fn into_decoder(self) -> ArrayPartialDecoder<'a, H, B>
        ensures over { handle_of result ≡ encoder_handle self.entry }
        ensures form { decoder_form result ≡ encoder_form self.entry }
        ensures uncached { is_cached result ≡ false }
        ensures index { is_bare result ≡ true }
    {
        let ArrayPartialEncoder { handle, coder } = self;
        ArrayPartialDecoder { handle, coder }
    }

    /// The handle, as it stands.
    pub fn into_handle(self) -> H
        ensures value { result ≡ encoder_handle self.entry }
    {
        let ArrayPartialEncoder { handle, coder: _ } = self;
        handle
    }
}

impl<'a, H: BytesPartialEncoderTraits, B: BytesToBytesCodecTraits> ArrayPartialDecoderTraits
    for ArrayPartialEncoder<'a, H, B> {
    ghost use Rattle.zarrs_codecs.specs.ChunkWrite.{chunk_writer};
    ghost use Rattle.zarrs_codecs.specs.PartialDecoder.{chunk_reader};
    ghost use Rattle.zarrs_codecs.specs.PartialEncoder.{encoder_form, encoder_handle};

    ghost reader = { λ encoder. chunk_reader B.functions (encoder_form encoder) false (H.state (encoder_handle encoder)).sure (H.state (encoder_handle encoder)).value ((chain_reads B.reads_in_part (encoder_form encoder).chain).partial_decode && H.reads_ranges) };

    ghost writer = { λ encoder. chunk_writer B.functions (encoder_form encoder) (H.state (encoder_handle encoder)).sure ((chain_reads B.reads_in_part (encoder_form encoder).chain).partial_decode && H.reads_ranges) };

    ghost state = { λ encoder. H.state (encoder_handle encoder) };

    ghost lent = { λ encoder. H.lent (encoder_handle encoder) };

    ghost held = { λ encoder. H.held (encoder_handle encoder) };

    ghost use Rattle.zarrs_codecs.specs.CountLaws.{chunk_counts};

    ghost counts = { λ encoder. chunk_counts B.functions (encoder_form encoder) false (H.state (encoder_handle encoder)).sure (H.state (encoder_handle encoder)).value ((chain_reads B.reads_in_part (encoder_form encoder).chain).partial_decode && H.reads_ranges) };

    fn data_type(&self) -> &DataType {
        ArrayPartialEncoder::data_type(self)
    }

    fn exists(&mut self) -> Result<bool, CodecError> {
        ArrayPartialEncoder::exists(self)
    }

    fn size_held(&self) -> usize {
        ArrayPartialEncoder::size_held(self)
    }

    fn partial_decode(
        &mut self,
        alloc: Global,
        indexer: &Indexer,
    ) -> Result<ArrayBytes<'static>, CodecError> {
        ArrayPartialEncoder::partial_decode(self, alloc, indexer)
    }

    fn supports_partial_decode(&self) -> bool {
        ArrayPartialEncoder::supports_partial_decode(self)
    }
}

impl<'a, H: BytesPartialEncoderTraits, B: BytesToBytesCodecTraits> ArrayPartialEncoderTraits
    for ArrayPartialEncoder<'a, H, B> {
    ghost use Rattle.std.proofs.Common.{refl};
    ghost use Rattle.zarrs_codecs.specs.PartialEncoder.{encoder_form, encoder_handle};

    ghost atomic = { H.atomic };

    ghost writes_part = { λ encoder. (chain_writes B.writes_in_part (encoder_form encoder).chain).partial_encode && H.writes_ranges };

    ghost tells = { λ _. refl };

    ghost use Rattle.zarrs_codec.specs.CountLaws.{checks_of_data};
    ghost use Rattle.zarrs_codecs.specs.ChunkWrite.{stored_written};
    ghost use Rattle.zarrs_codecs.specs.PartialDecoder.{chunk_reader};

    ghost checks_data = { λ encoder. checks_of_data (chunk_reader B.functions (encoder_form encoder) false (H.state (encoder_handle encoder)).sure (H.state (encoder_handle encoder)).value ((chain_reads B.reads_in_part (encoder_form encoder).chain).partial_decode && H.reads_ranges)) (λ stored. chunk_reader B.functions (encoder_form encoder) false (H.state (encoder_handle encoder)).sure stored ((chain_reads B.reads_in_part (encoder_form encoder).chain).partial_decode && H.reads_ranges)) (stored_written B.functions (encoder_form encoder)) };

    fn partial_encode(
        &mut self,
        alloc: Global,
        indexer: &Indexer,
        elements: &ArrayBytes<'_>,
    ) -> Result<(), CodecError> {
        ArrayPartialEncoder::partial_encode(self, alloc, indexer, elements)
    }

    fn erase(&mut self) -> Result<(), CodecError> {
        ArrayPartialEncoder::erase(self)
    }

    fn supports_partial_encode(&self) -> bool {
        ArrayPartialEncoder::supports_partial_encode(self)
    }
}
