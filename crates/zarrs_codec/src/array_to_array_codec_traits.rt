//! Codecs that move the elements of a chunk.
ghost use Rattle.std.specs.Prelude.{◌≡◌, ℕ, List, Option, Result, Ok, false, IfOk};
ghost use Rattle.zarrs_chunk.specs.Answer.{AnswersValue, memory, is_fault};
ghost use Rattle.zarrs_chunk.specs.Selection.{Selection};
ghost use Rattle.zarrs_chunk.specs.declared.codec_error.CodecError.{CodecError};
ghost use Rattle.zarrs_data_type.specs.ElementType.{ElementType};
ghost use Rattle.zarrs_data_type.specs.Form.{form_of};
ghost use Rattle.zarrs_array_bytes.specs.Tight.{KeepsTight};
ghost use Rattle.zarrs_codec.specs.CoordinateMap.{CoordinateMap, MapsSizes, IsMapTo};
ghost use Rattle.zarrs_codec.specs.MappedChunk.{EncodesType, GivesSizes, EncodesForm, IsSource, EncodesMoved, DecodesMoved, KeepsUnfit};
ghost use Rattle.zarrs_codec.specs.MappedSelection.{KeepsCount, KeepsPlaces, image_of, AsksImage};

use crate::codec_traits::{ArrayCodecTraits, CodecTraits};
use std::alloc::Global;
use zarrs_array_bytes::ArrayBytes;
use zarrs_chunk::{ChunkShape, CodecError, Indexer};
use zarrs_data_type::{DataType, FillValue};

/// An array-to-array codec. It moves elements: each element of a chunk goes to a place of its own in
/// the moved chunk, which has as many. The type of the elements and the fill value stay.
pub trait ArrayToArrayCodecTraits: ArrayCodecTraits {
    // What the codec does to chunks of some sizes, or the first error.
    ghost coordinates: { Self → List ℕ → Result CoordinateMap CodecError };

    // That the codec accepts elements of a type, or its error.
    ghost takes: { Self → ElementType → Result (Unit {0}) CodecError };

    // The sizes of a decoded chunk where those of the moved one fix them, or the error.
    ghost decoded_sizes: { Self → List ℕ → Result (Option (List ℕ)) CodecError };

    // What is asked for of a chunk of the second sizes where one of the first is selected.
    ghost asked: { Self → List ℕ → List ℕ → Selection → Selection };

    /// The type of the moved elements: the same. Errors: those of a type that the codec doesn't
    /// accept; `OutOfMemory`.
    fn encoded_data_type(
        &self,
        alloc: Global,
        decoded_data_type: &DataType,
    ) -> Result<DataType, CodecError>
        ensures answer { EncodesType (takes self.now) decoded_data_type.now result };

    /// The fill value of the moved elements: the same. Errors: `OutOfMemory`.
    fn encoded_fill_value(
        &self,
        _alloc: Global,
        _decoded_data_type: &DataType,
        decoded_fill_value: &FillValue,
    ) -> Result<FillValue, CodecError>
        ensures answer { AnswersValue memory result (Ok decoded_fill_value.now) }
    {
        decoded_fill_value.clone()
    }

    /// The shape of the moved chunk. Errors: those of a shape that the codec doesn't accept;
    /// `OutOfMemory`.
    fn encoded_shape(
        &self,
        alloc: Global,
        decoded_shape: &ChunkShape,
    ) -> Result<ChunkShape, CodecError>
        ensures answer { GivesSizes result (coordinates self.now decoded_shape.now) }
        ensures map { MapsSizes (coordinates self.now) decoded_shape.now result };

    /// The shape of the decoded chunk, or `None` where that of the moved one doesn't fix it.
    /// Errors: those of a shape that the codec doesn't make; `OutOfMemory`.
    fn decoded_shape(
        &self,
        alloc: Global,
        encoded_shape: &ChunkShape,
    ) -> Result<Option<ChunkShape>, CodecError>
        ensures answer { AnswersValue memory result (decoded_sizes self.now encoded_shape.now) }
        ensures source { IfOk result (IsSource (coordinates self.now) encoded_shape.now) };

    /// The shape, the type and the fill value of the moved chunk. Errors, the first that holds,
    /// `OutOfMemory` aside: those of `encoded_data_type` and of `encoded_shape`.
    fn encoded_representation(
        &self,
        alloc: Global,
        decoded_shape: &ChunkShape,
        decoded_data_type: &DataType,
        decoded_fill_value: &FillValue,
    ) -> Result<(ChunkShape, DataType, FillValue), CodecError>
        ensures answer { EncodesForm (takes self.now) (coordinates self.now)
            (form_of decoded_shape.now decoded_data_type.now decoded_fill_value.now) result }
        ensures map { IfOk result
            (λ it. IsMapTo (coordinates self.now decoded_shape.now) decoded_shape.now it.0) }
    {
        let data_type = self.encoded_data_type(alloc, decoded_data_type)?;
        let shape = self.encoded_shape(alloc, decoded_shape)?;
        let fill_value = self.encoded_fill_value(alloc, decoded_data_type, decoded_fill_value)?;
        Ok((shape, data_type, fill_value))
    }

    /// The moved chunk of a decoded one of this shape, type and fill value. Where the codec accepts
    /// them and the container holds a chunk, the one error is `OutOfMemory`; else the container is
    /// handed on as it is, or the first error is returned. Where the container is fixed by its
    /// elements, so is what is made.
    fn encode<'a>(
        &self,
        alloc: Global,
        bytes: ArrayBytes<'a>,
        shape: &ChunkShape,
        data_type: &DataType,
        fill_value: &FillValue,
    ) -> Result<ArrayBytes<'a>, CodecError>
        ensures moved { EncodesMoved (takes self.now) (coordinates self.now)
            data_type.now shape.now bytes.entry result }
        ensures unfit { KeepsUnfit takes coordinates self.now
            data_type.now shape.now bytes.entry result }
        ensures tight { KeepsTight data_type.now bytes.entry result }
        ensures no_fault { is_fault result ≡ false };

    /// The decoded chunk, of this shape, type and fill value, of a moved one. Errors, and
    /// what fixes the container, as `encode`.
    fn decode<'a>(
        &self,
        alloc: Global,
        bytes: ArrayBytes<'a>,
        shape: &ChunkShape,
        data_type: &DataType,
        fill_value: &FillValue,
    ) -> Result<ArrayBytes<'a>, CodecError>
        ensures moved { DecodesMoved (takes self.now) (coordinates self.now)
            data_type.now shape.now bytes.entry result }
        ensures unfit { KeepsUnfit takes coordinates self.now
            data_type.now shape.now bytes.entry result }
        ensures tight { KeepsTight data_type.now bytes.entry result }
        ensures no_fault { is_fault result ≡ false };

    /// The indexer of the moved chunk: its places there are those where the indexer's elements go,
    /// in their order. Errors, the first that holds, `OutOfMemory` aside: those of
    /// `Indexer::check`, of `encoded_shape` and of `Indexer::len`.
    fn encoded_indexer<'b>(
        &self,
        alloc: Global,
        indexer: &Indexer,
        decoded_shape: &ChunkShape,
    ) -> Result<Indexer<'b>, CodecError>
        ensures answer { AsksImage (coordinates self.now) (asked self.now) decoded_shape.now
            indexer.now result }
        ensures places { KeepsPlaces (coordinates self.now) decoded_shape.now indexer.now result };

    // What is asked for of the moved chunk are as many tuples as are selected.
    ghost counts: { (codec : Self) (sizes : List ℕ) → KeepsCount (image_of (coordinates codec sizes) (asked codec sizes) sizes) };
}
