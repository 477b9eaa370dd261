//! Where an indexer's places go through the array-to-array codecs of a chain.
ghost use Rattle.std.specs.Prelude.{◌<◌, ◌^◌, IfOk, All, length};
ghost use Rattle.zarrs_chunk.specs.Answer.{Gives};
ghost use Rattle.zarrs_chunk.specs.ChunkShape.{product};
ghost use Rattle.zarrs_chunk.specs.Runs.{joined_runs, AreApart, EndWithin, places_in};
ghost use Rattle.zarrs_array_to_array.specs.Mapping.{places_through};

use std::alloc::Global;
use zarrs_array_to_array::{ArrayToArrayCodec, encoded_places};
use zarrs_chunk::{ChunkShape, CodecError, Indexer, runs_of_places};

/// Where the places that an indexer selects go through the codecs, in order, as runs of a start and
/// a length, none of which starts where the one before it ends. Without codecs the indexer's own
/// runs are lent on, so that no place is written down by itself. Errors, the first that holds,
/// `OutOfMemory` aside: those of `Indexer::places`, and then those of each codec's `encoded_shape`.
#[inline(always)]
pub(crate) fn encoded_runs(
    alloc: Global,
    codecs: &[ArrayToArrayCodec],
    shape: &ChunkShape,
    indexer: &Indexer,
) -> Result<Vec<(u64, u64)>, CodecError>
    ensures answer { Gives places_in result (places_through codecs.now indexer.now shape.now) }
    ensures filled { IfOk result (λ runs. All (λ run. 0 < run.1) runs.items) }
    ensures below { IfOk result (λ runs. EndWithin (product shape.now) runs.items) }
    ensures count { IfOk result (λ runs. length (joined_runs runs.items) < 2 ^ 64) }
    ensures apart { IfOk result (λ runs. AreApart runs.items) }
{
    if codecs.is_empty() {
        return indexer.runs(alloc, shape);
    }
    let places = encoded_places(alloc, codecs, shape, indexer)?;
    runs_of_places(alloc, &places)
}
