//! Writing a chunk in part through a chain, over a handle that the caller keeps.
ghost use Rattle.std.specs.Prelude.{◌≡◌, is_some, true};
ghost use Rattle.zarrs_codec.specs.CodersOverHandles.{HandleWrites};
ghost use Rattle.zarrs_codecs.specs.ChunkWrite.{encodes_parts};
ghost use Rattle.zarrs_chunk.specs.Indexer.{selection_of};
ghost use Rattle.zarrs_bytes.specs.PartialWrite.{FailsByWriting};
ghost use Rattle.zarrs_codecs.specs.ChunkRead.{form_in_place};
ghost use Rattle.zarrs_codecs.specs.ChunkCalls.{CountsEditThrough};

use crate::chunk_coder::ChunkCoder;
use crate::partial_decoder::codec_read::codec_in_place;
use std::alloc::Global;
use zarrs_array_bytes::ArrayBytes;
use zarrs_chunk::{CodecError, Indexer};
use zarrs_codec::{BytesPartialEncoderTraits, BytesToBytesCodecTraits, CodecTraits};

impl<'a, B: BytesToBytesCodecTraits> ChunkCoder<'a, B> {
    ghost use Rattle.zarrs_codecs.specs.ChunkCoder.{coder_form};
    ghost use Rattle.zarrs_codecs.specs.ChunkWriter.{CoderWrites};

    /// Writes new elements at the places that the indexer selects. Errors: those of
    /// `ArrayPartialEncoder::partial_encode`.
    pub(crate) fn write<H: BytesPartialEncoderTraits>(
        &self,
        alloc: Global,
        handle: &mut H,
        indexer: &Indexer,
        new: &ArrayBytes<'_>,
    ) -> Result<(), CodecError>
        ensures writes { CoderWrites H.state self.now (form_in_place (coder_form self.now))
            handle.old handle.new (selection_of indexer.now) new.now result }
        ensures unread { is_some (form_in_place (coder_form self.now)) ≡ true
            → FailsByWriting H.state handle.old handle.new result }
        ensures counted { CountsEditThrough H.calls H.state (coder_form self.now)
            (selection_of indexer.now) handle.old handle.new result }
        ensures left { HandleWrites H.state H.lent H.atomic handle.old handle.new result }
    {
        match codec_in_place(self.chain) {
            Some(codec) => self.write_in_place(alloc, codec, handle, indexer, new),
            None => self.write_whole(alloc, handle, indexer, new),
        }
    }

    /// Whether all codecs of the chain write a part.
    pub(crate) fn encodes_parts(&self) -> bool
        ensures value { result ≡ encodes_parts B.writes_in_part (coder_form self.now) }
    {
        self.chain.partial_encoder_capability().partial_encode
    }
}
