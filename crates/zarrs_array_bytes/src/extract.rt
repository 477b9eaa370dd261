//! Elements of a container at the tuples of an indexer, or at runs.
ghost use Rattle.std.specs.Prelude.{◌+◌, ◌≤◌, IfOk, All};
ghost use Rattle.zarrs_chunk.specs.Runs.{joined_runs};
ghost use Rattle.zarrs_array_bytes.specs.Tight.{ExtractsTight, GivesFlush};
ghost use Rattle.zarrs_array_bytes.specs.Extracted.{IsSmall, GivesHeldAt};
ghost use Rattle.zarrs_array_bytes.specs.Chunks.{chunk_at, selected_chunk};
ghost use Rattle.zarrs_array_bytes.specs.Validity.{HasElements, Holds};
ghost use Rattle.zarrs_chunk.specs.Answer.{GivesBy};
ghost use Rattle.zarrs_chunk.specs.Indexer.{selection_of};

use crate::array_bytes::{ArrayBytes, Parts};
use crate::gather::{gather_cuts, gather_flags, gather_pieces};
use std::alloc::Global;
use std::borrow::CowSlice;
use zarrs_chunk::{ChunkShape, CodecError, Indexer};
use zarrs_data_type::DataType;

impl<'a> ArrayBytes<'a> {
    /// The elements of a chunk of this shape and type at the indexer's tuples, in their order, in a
    /// container whose offsets begin at 0. The bytes of a run are copied at once. Errors, the first that applies, `OutOfMemory` aside:
    /// those of the indexer (`IncompatibleDimensionality`, `OutOfBounds`, and `Overflow` where the
    /// shape has `2^64` elements or more), and then those of `validate` at the shape's element count.
    pub fn extract_array_subset(
        &self,
        alloc: Global,
        indexer: &Indexer,
        shape: &ChunkShape,
        data_type: &DataType,
    ) -> Result<ArrayBytes<'static>, CodecError>
        ensures exact { GivesBy (Holds data_type.now) result
            (selected_chunk data_type.now shape.now (selection_of indexer.now) self.now) }
        ensures flush { GivesFlush result }
        ensures tight { ExtractsTight data_type.now self.now result }
    {
        let runs = indexer.runs(alloc, shape)?;
        let count = shape.num_elements()?;
        self.extract_runs(alloc, runs.as_slice(), count, data_type)
    }

    /// The elements at the places of the runs, each a start and a length, in their order, of a chunk of
    /// `count` elements of the type, in a container whose offsets begin at 0. The bytes of a run are copied at once. Errors, the first that
    /// applies, `OutOfMemory` aside: those of `validate` at `count`.
    pub fn extract_runs<'b>(
        &self,
        alloc: Global,
        runs: &[(u64, u64)],
        count: u64,
        data_type: &DataType,
    ) -> Result<ArrayBytes<'b>, CodecError>
        requires inside { All (λ run. run.0 + run.1 ≤ count) runs.now }
        ensures answer { GivesBy (Holds data_type.now) result
            (chunk_at data_type.now count (joined_runs runs.now) self.now) }
        ensures flush { GivesFlush result }
        ensures tight { ExtractsTight data_type.now self.now result }
    {
        self.validate(count, data_type)?;
        self.at_runs(alloc, runs, count, data_type)
    }

    #[tactic(auto, using(crate::proofs::ExtractCalls::extract_calls))]
    pub(crate) fn at_runs<'b>(
        &self,
        alloc: Global,
        runs: &[(u64, u64)],
        count: u64,
        data_type: &DataType,
    ) -> Result<ArrayBytes<'b>, CodecError>
        requires valid { HasElements data_type.now count self.now }
        requires inside { All (λ run. run.0 + run.1 ≤ count) runs.now }
        ensures small { IfOk result IsSmall }
        ensures flush { GivesFlush result }
        ensures exact { GivesHeldAt data_type.now self.now (joined_runs runs.now) result }
    {
        match &self.parts {
            Parts::Fixed(bytes) => {
                let size = data_type.fixed_size().unwrap();
                let bytes = gather_pieces(alloc, bytes.as_slice(), size, runs)?;
                Ok(ArrayBytes::new_flen(CowSlice::Owned(bytes)))
            }
            Parts::Variable(bytes, offsets) => {
                let (bytes, offsets) = gather_cuts(
                    alloc,
                    bytes.as_slice(),
                    offsets.as_slice(),
                    runs,
                )?;
                Ok(ArrayBytes::of_variable(bytes, offsets))
            }
            Parts::Optional(inner, mask) => {
                let inner_type = data_type.as_optional().unwrap();
                let inner = inner.at_runs(alloc, runs, count, inner_type)?;
                let mask = gather_flags(alloc, mask.as_slice(), runs)?;
                ArrayBytes::of_masked(alloc, inner, mask)
            }
        }
    }
}
