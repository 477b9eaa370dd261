//! Reads and writes of a chunk in part, over the reader or the writer of the moved chunk.
ghost use Rattle.std.specs.Prelude.{◌≡◌, ◌&&◌, Ok, IfOk, IfErr};
ghost use Rattle.zarrs_chunk.specs.Answer.{seen};
ghost use Rattle.zarrs_codec.specs.ArrayReader.{mapped_reader};
ghost use Rattle.zarrs_codec.specs.ArrayWriter.{mapped_writer};
ghost use Rattle.zarrs_array_to_array.specs.ArrayToArrayCodecPartial.{codec_of, input_of, sizes_of};
ghost use Rattle.zarrs_codec.specs.Refused.{outcome};
ghost use Rattle.zarrs_array_to_array.specs.Mapping.{mapping_of};
ghost use Rattle.zarrs_array_to_array.specs.Stages.{MakesMover, IsStageOfMapping, MakesParts};
ghost use Rattle.zarrs_data_type.specs.Form.{form_of};

use crate::array_to_array_codec::ArrayToArrayCodec;
use std::alloc::Global;
use zarrs_array_bytes::ArrayBytes;
use zarrs_chunk::{ChunkShape, CodecError, Indexer};
use zarrs_codec::{
    ArrayPartialDecoderTraits, ArrayPartialEncoderTraits, ArrayToArrayCodecTraits, Refused,
};
use zarrs_data_type::{DataType, FillValue};

/// Reads a chunk in part over the reader of its moved chunk, which it owns: it asks that one for the
/// moved indexer, and for nothing else. Over a writer it writes too, the same elements at the moved
/// indexer. The indexer is checked against the decoded shape first.
#[derive(Drop)]
pub struct ArrayToArrayCodecPartial<C, I> {
    input: I,
    codec: C,
    shape: ChunkShape,
}

/// The reader over this input, or the error that is due.
pub(crate) fn partial_decoder_of<C, I>(
    parts: Result<(C, ChunkShape), CodecError>,
    input: I,
) -> Result<ArrayToArrayCodecPartial<C, I>, Refused<I>>
    ensures answer { outcome result ≡ seen (λ _. tt) parts }
    ensures over { IfOk result (λ stage. input_of stage ≡ input) }
    ensures form { IfOk result (λ stage. parts ≡ Ok (codec_of stage, sizes_of stage)) }
    ensures handed_back { IfErr result (λ refused. refused.handle ≡ input) }
{
    match parts {
        Ok((codec, shape)) => Ok(ArrayToArrayCodecPartial {
            input,
            codec,
            shape,
        }),
        Err(error) => Err(Refused {
            error,
            handle: input,
        }),
    }
}

impl<C: Drop, I> ArrayToArrayCodecPartial<C, I> {
    /// The input, as it stands.
    pub fn into_input(self) -> I
        ensures value { result ≡ input_of self }
    {
        let ArrayToArrayCodecPartial {
            input,
            codec: _,
            shape: _,
        } = self;
        input
    }
}

impl<C: ArrayToArrayCodecTraits, I: ArrayPartialDecoderTraits> ArrayPartialDecoderTraits
    for ArrayToArrayCodecPartial<C, I> {
    ghost reader = { λ stage. mapped_reader (C.coordinates (codec_of stage) (sizes_of stage)) (C.asked (codec_of stage) (sizes_of stage)) (C.reads_in_part (codec_of stage)).partial_decode (sizes_of stage) (I.reader (input_of stage)) };

    ghost writer = { λ stage. mapped_writer (C.coordinates (codec_of stage) (sizes_of stage)) (C.asked (codec_of stage) (sizes_of stage)) (C.reads_in_part (codec_of stage)).partial_decode (sizes_of stage) (I.writer (input_of stage)) };

    ghost state = { λ stage. I.state (input_of stage) };

    ghost lent = { λ stage. I.lent (input_of stage) };

    ghost calls = { λ stage. I.calls (input_of stage) };

    ghost use Rattle.zarrs_codec.specs.ArrayReader.{image_calls};
    ghost use Rattle.zarrs_codec.specs.MappedSelection.{image_of};

    ghost read_calls = { λ stage selection. image_calls (I.read_calls (input_of stage)) (image_of (C.coordinates (codec_of stage) (sizes_of stage)) (C.asked (codec_of stage) (sizes_of stage)) (sizes_of stage) selection) };

    ghost held = { λ stage. I.held (input_of stage) };

    ghost use Rattle.zarrs_codec.specs.MappedLaws.{mapped_reader-counts};

    ghost counts = { λ stage. mapped_reader-counts (C.coordinates (codec_of stage) (sizes_of stage)) (C.asked (codec_of stage) (sizes_of stage)) (C.reads_in_part (codec_of stage)).partial_decode (sizes_of stage) (I.reader (input_of stage)) (C.counts (codec_of stage) (sizes_of stage)) (I.counts (input_of stage)) };

    fn data_type(&self) -> &DataType {
        self.input.data_type()
    }

    fn exists(&mut self) -> Result<bool, CodecError> {
        self.input.exists()
    }

    fn size_held(&self) -> usize {
        self.input.size_held()
    }

    fn partial_decode(
        &mut self,
        alloc: Global,
        indexer: &Indexer,
    ) -> Result<ArrayBytes<'static>, CodecError> {
        match self.codec.encoded_indexer(alloc, indexer, &self.shape) {
            Ok(encoded) => self.input.partial_decode(alloc, &encoded),
            Err(error) => Err(error),
        }
    }

    fn supports_partial_decode(&self) -> bool {
        self.codec.partial_decoder_capability().partial_decode
            && self.input.supports_partial_decode()
    }
}

impl<C: ArrayToArrayCodecTraits, I: ArrayPartialEncoderTraits> ArrayPartialEncoderTraits
    for ArrayToArrayCodecPartial<C, I> {
    ghost use Rattle.std.proofs.Common.{ap};

    ghost atomic = { I.atomic };

    ghost writes_part = { λ stage. (C.writes_in_part (codec_of stage)).partial_encode && I.writes_part (input_of stage) };

    ghost tells = { λ stage. ap (mapped_reader (C.coordinates (codec_of stage) (sizes_of stage)) (C.asked (codec_of stage) (sizes_of stage)) (C.reads_in_part (codec_of stage)).partial_decode (sizes_of stage)) (I.tells (input_of stage)) };

    ghost use Rattle.zarrs_codec.specs.MappedLaws.{mapped_writer-checks};

    ghost checks_data = { λ stage. mapped_writer-checks (C.coordinates (codec_of stage) (sizes_of stage)) (C.asked (codec_of stage) (sizes_of stage)) (C.reads_in_part (codec_of stage)).partial_decode (sizes_of stage) (I.reader (input_of stage)) (I.writer (input_of stage)) (C.counts (codec_of stage) (sizes_of stage)) (I.checks_data (input_of stage)) };

    fn partial_encode(
        &mut self,
        alloc: Global,
        indexer: &Indexer,
        elements: &ArrayBytes<'_>,
    ) -> Result<(), CodecError> {
        match self.codec.encoded_indexer(alloc, indexer, &self.shape) {
            Ok(encoded) => self.input.partial_encode(alloc, &encoded, elements),
            Err(refusal) => Err(refusal),
        }
    }

    fn erase(&mut self) -> Result<(), CodecError> {
        self.input.erase()
    }

    fn supports_partial_encode(&self) -> bool {
        self.codec.partial_encoder_capability().partial_encode
            && self.input.supports_partial_encode()
    }
}

impl ArrayToArrayCodec {
    /// What a reader keeps of a chunk that the codec accepts.
    fn parts_of_decoder(
        &self,
        alloc: Global,
        shape: &ChunkShape,
        data_type: &DataType,
        fill_value: &FillValue,
    ) -> Result<(ArrayToArrayCodec, ChunkShape), CodecError>
        ensures answer { MakesParts mapping_of self.now (mapping_of self.now) (form_of shape.now data_type.now fill_value.now) result }
    {
        self.encoded_representation(alloc, shape, data_type, fill_value)?;
        let codec = self.clone()?;
        let shape = shape.clone()?;
        Ok((codec, shape))
    }

    /// A reader of a chunk in part, over the reader of the moved chunk. Errors: those of
    /// `encoded_representation`; `OutOfMemory`. An error hands the input back as it was.
    pub fn partial_decoder<I: ArrayPartialDecoderTraits>(
        &self,
        alloc: Global,
        input: I,
        shape: &ChunkShape,
        data_type: &DataType,
        fill_value: &FillValue,
    ) -> Result<ArrayToArrayCodecPartial<ArrayToArrayCodec, I>, Refused<I>>
        ensures answer { MakesMover self.now shape.now data_type.now fill_value.now result }
        ensures form { IfOk result (IsStageOfMapping (mapping_of self.now) shape.now) }
        ensures over { IfOk result (λ stage. input_of stage ≡ input) }
        ensures handed_back { IfErr result (λ refused. refused.handle ≡ input) }
    {
        partial_decoder_of(
            self.parts_of_decoder(alloc, shape, data_type, fill_value),
            input,
        )
    }
    /// A reader of a chunk in part that writes too, over the writer of the moved chunk. Errors:
    /// those of `encoded_representation`; `OutOfMemory`. An error hands the input back as it was.
    pub fn partial_encoder<I: ArrayPartialEncoderTraits>(
        &self,
        alloc: Global,
        input: I,
        shape: &ChunkShape,
        data_type: &DataType,
        fill_value: &FillValue,
    ) -> Result<ArrayToArrayCodecPartial<ArrayToArrayCodec, I>, Refused<I>>
        ensures answer { MakesMover self.now shape.now data_type.now fill_value.now result }
        ensures form { IfOk result (IsStageOfMapping (mapping_of self.now) shape.now) }
        ensures over { IfOk result (λ stage. input_of stage ≡ input) }
        ensures handed_back { IfErr result (λ refused. refused.handle ≡ input) }
    {
        self.partial_decoder(alloc, input, shape, data_type, fill_value)
    }
}
