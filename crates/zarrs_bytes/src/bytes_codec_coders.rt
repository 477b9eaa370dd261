//! Decoders and encoders in part of `bytes` as every reader and writer of chunks.
use crate::bytes_codec_partial::BytesCodecPartial;
use std::alloc::Global;
use zarrs_array_bytes::ArrayBytes;
use zarrs_chunk::{CodecError, Indexer};
use zarrs_codec::{
    ArrayPartialDecoderTraits, ArrayPartialEncoderTraits, BytesPartialDecoderTraits,
    BytesPartialEncoderTraits,
};
use zarrs_data_type::DataType;

impl<H: BytesPartialDecoderTraits> ArrayPartialDecoderTraits for BytesCodecPartial<H> {
    ghost use Rattle.zarrs_bytes.specs.BytesCodecPartial.{bytes_form_of, bytes_handle_of, bytes_reader, bytes_writer, coder_calls, read_count};
    ghost use Rattle.zarrs_chunk.specs.Selection.{places_of};
    ghost use Rattle.zarrs_codec.specs.Calls.{count_of};

    ghost reader = { λ decoder. bytes_reader (bytes_form_of decoder) (H.state (bytes_handle_of decoder)).value (H.state (bytes_handle_of decoder)).sure H.reads_ranges };

    ghost writer = { λ decoder. bytes_writer (bytes_form_of decoder) (H.state (bytes_handle_of decoder)).sure H.reads_ranges };

    ghost state = { λ decoder. H.state (bytes_handle_of decoder) };

    ghost lent = { λ decoder. H.lent (bytes_handle_of decoder) };

    ghost calls = { coder_calls H.calls };

    ghost read_calls = { λ decoder selection. count_of (read_count H.state decoder) (places_of selection (bytes_form_of decoder).sizes) };

    ghost held = { λ decoder. H.held (bytes_handle_of decoder) };

    ghost use Rattle.zarrs_bytes.specs.CountLaws.{bytes_counts};

    ghost counts = { λ decoder. bytes_counts (bytes_form_of decoder) (H.state (bytes_handle_of decoder)).value (H.state (bytes_handle_of decoder)).sure H.reads_ranges };

    fn data_type(&self) -> &DataType {
        BytesCodecPartial::data_type(self)
    }

    fn exists(&mut self) -> Result<bool, CodecError> {
        BytesCodecPartial::exists(self)
    }

    fn size_held(&self) -> usize {
        BytesCodecPartial::size_held(self)
    }

    fn partial_decode(
        &mut self,
        alloc: Global,
        indexer: &Indexer,
    ) -> Result<ArrayBytes<'static>, CodecError> {
        BytesCodecPartial::partial_decode(self, alloc, indexer)
    }

    fn supports_partial_decode(&self) -> bool {
        BytesCodecPartial::supports_partial_decode(self)
    }
}

impl<H: BytesPartialEncoderTraits> ArrayPartialEncoderTraits for BytesCodecPartial<H> {
    ghost use Rattle.std.proofs.Common.{refl};

    ghost atomic = { H.atomic };

    ghost writes_part = { λ _. H.writes_ranges };

    ghost tells = { λ _. refl };

    ghost use Rattle.zarrs_bytes.specs.BytesCodecPartial.{bytes_form_of, bytes_handle_of, bytes_reader, form_in};
    ghost use Rattle.zarrs_bytes.specs.PartialWrite.{bytes_written};
    ghost use Rattle.zarrs_codec.specs.CountLaws.{checks_of_data};

    ghost checks_data = { λ encoder. checks_of_data (bytes_reader (bytes_form_of encoder) (H.state (bytes_handle_of encoder)).value (H.state (bytes_handle_of encoder)).sure H.reads_ranges) (λ stored. bytes_reader (bytes_form_of encoder) stored (H.state (bytes_handle_of encoder)).sure H.reads_ranges) (bytes_written (bytes_form_of encoder).order (form_in (bytes_form_of encoder))) };

    fn partial_encode(
        &mut self,
        alloc: Global,
        indexer: &Indexer,
        elements: &ArrayBytes<'_>,
    ) -> Result<(), CodecError> {
        BytesCodecPartial::partial_encode(self, alloc, indexer, elements)
    }

    fn erase(&mut self) -> Result<(), CodecError> {
        BytesCodecPartial::erase(self)
    }

    fn supports_partial_encode(&self) -> bool {
        BytesCodecPartial::supports_partial_encode(self)
    }
}
