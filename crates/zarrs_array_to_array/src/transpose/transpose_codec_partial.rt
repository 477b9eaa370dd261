//! The codec `transpose` in part.
ghost use Rattle.std.specs.Prelude.{◌≡◌, IfOk, IfErr};
ghost use Rattle.zarrs_array_to_array.specs.ArrayToArrayCodec.{transpose};
ghost use Rattle.zarrs_array_to_array.specs.ArrayToArrayCodecPartial.{input_of};
ghost use Rattle.zarrs_array_to_array.specs.Stages.{MakesTransposer, IsStageOf, MakesParts};
ghost use Rattle.zarrs_data_type.specs.Form.{form_of};

use crate::array_to_array_codec_partial::{ArrayToArrayCodecPartial, partial_decoder_of};
use crate::transpose::transpose_codec::TransposeCodec;
use std::alloc::Global;
use zarrs_chunk::{ChunkShape, CodecError};
use zarrs_codec::{
    ArrayPartialDecoderTraits, ArrayPartialEncoderTraits, ArrayToArrayCodecTraits, Refused,
};
use zarrs_data_type::{DataType, FillValue};

/// Reads a chunk of [`TransposeCodec`] in part, over the reader of its moved chunk, and writes it over
/// a writer.
pub type TransposeCodecPartial<I> = ArrayToArrayCodecPartial<TransposeCodec, I>;

impl TransposeCodec {
    /// What a reader keeps of a chunk that the codec accepts.
    fn parts_of_decoder(
        &self,
        alloc: Global,
        shape: &ChunkShape,
        data_type: &DataType,
        fill: &FillValue,
    ) -> Result<(TransposeCodec, ChunkShape), CodecError>
        ensures answer { MakesParts (λ codec. codec) self.now (transpose self.now) (form_of shape.now data_type.now fill.now) result }
    {
        self.encoded_representation(alloc, shape, data_type, fill)?;
        let codec = self.clone()?;
        let shape = shape.clone()?;
        Ok((codec, shape))
    }

    /// A reader of a chunk in part, over the reader of the moved chunk. Errors: those of
    /// `encoded_representation`; `OutOfMemory`. An error hands the input back as it was.
    pub fn partial_decoder<I: ArrayPartialDecoderTraits>(
        &self,
        alloc: Global,
        input: I,
        shape: &ChunkShape,
        data_type: &DataType,
        fill_value: &FillValue,
    ) -> Result<ArrayToArrayCodecPartial<TransposeCodec, I>, Refused<I>>
        ensures answer { MakesTransposer self.now shape.now data_type.now fill_value.now result }
        ensures form { IfOk result (IsStageOf self.now shape.now) }
        ensures over { IfOk result (λ stage. input_of stage ≡ input) }
        ensures handed_back { IfErr result (λ refused. refused.handle ≡ input) }
    {
        partial_decoder_of(
            self.parts_of_decoder(alloc, shape, data_type, fill_value),
            input,
        )
    }
    /// A reader of a chunk in part that writes too, over the writer of the moved chunk. Errors:
    /// those of `encoded_representation`; `OutOfMemory`. An error hands the input back as it was.
    pub fn partial_encoder<I: ArrayPartialEncoderTraits>(
        &self,
        alloc: Global,
        input: I,
        shape: &ChunkShape,
        data_type: &DataType,
        fill_value: &FillValue,
    ) -> Result<ArrayToArrayCodecPartial<TransposeCodec, I>, Refused<I>>
        ensures answer { MakesTransposer self.now shape.now data_type.now fill_value.now result }
        ensures form { IfOk result (IsStageOf self.now shape.now) }
        ensures over { IfOk result (λ stage. input_of stage ≡ input) }
        ensures handed_back { IfErr result (λ refused. refused.handle ≡ input) }
    {
        self.partial_decoder(alloc, input, shape, data_type, fill_value)
    }
}
