//! Who reads parts of stored chunks.
ghost use Rattle.std.specs.Prelude.{◌≡◌, ℕ, List, Ok, Option, Result, length};
ghost use Rattle.zarrs_array_bytes.specs.Validity.{Holds};
ghost use Rattle.zarrs_chunk.specs.Answer.{AnswersBy, memory_or_fault};
ghost use Rattle.zarrs_chunk.specs.Region.{Region};
ghost use Rattle.zarrs_chunk.specs.Tuples.{box_tuples};
ghost use Rattle.zarrs_chunk.specs.declared.codec_error.CodecError.{CodecError};
ghost use Rattle.zarrs_data_type.specs.Element.{Chunk};
ghost use Rattle.zarrs_data_type.specs.ElementType.{ElementType};
ghost use Rattle.zarrs_stores.specs.StoreState.{AsksOnly, after_get};

use std::alloc::Global;
use zarrs_array_bytes::ArrayBytes;
use zarrs_chunk::{ArraySubset, CodecError};
use zarrs_stores::ReadableStore;

/// Reads a part of a chunk that is stored under a key, or isn't stored.
pub trait ChunkPartReader<S: ReadableStore> {
    // The type of the elements.
    ghost element_type: { Self → ElementType };

    // What is read of a box of a chunk, by the value that is stored for the chunk, or none: the elements, in row-major order, or the first error.
    ghost reads: { Self → Option (List ℕ) → Region → Result Chunk CodecError };

    /// The elements of a box of the chunk with this key, in row-major order. Errors: those of the value
    /// and the box, `OutOfMemory`, `Storage`.
    fn read_part(
        &self,
        alloc: Global,
        store: &mut S,
        key: &str,
        part: &ArraySubset,
    ) -> Result<ArrayBytes<'static>, CodecError>
        ensures answer { AnswersBy memory_or_fault (Holds (element_type self.now)) result
            (reads self.now ((S.state store.old).values key.now) part.now) }
        ensures left { S.state store.new ≡ after_get result (S.state store.old) }
        ensures asked { AsksOnly key.now (S.asked store.old) (S.asked store.new) };

    // What is read has an element for each tuple of the box.
    ghost counts: { (reader : Self) (stored : Option (List ℕ)) (part : Region) (chunk : Chunk)
        → reads reader stored part ≡ Ok chunk → length chunk ≡ length (box_tuples part.starts part.lengths) };
}
