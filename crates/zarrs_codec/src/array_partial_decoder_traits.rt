//! Readers of chunks in part.
ghost use Rattle.std.specs.Prelude.{◌≡◌, ℕ, List, Option, None, IfOk, Err, IfErr};
ghost use Rattle.zarrs_chunk.specs.Indexer.{selection_of};
ghost use Rattle.zarrs_array_bytes.specs.Tight.{IsTight};
ghost use Rattle.zarrs_codec.specs.ArrayReader.{ArrayReader, IsCounted};
ghost use Rattle.zarrs_codec.specs.ArrayWriter.{ArrayWriter, no_writer};
ghost use Rattle.zarrs_codec.specs.Calls.{Calls, MakesKnownReads};
ghost use Rattle.zarrs_codec.specs.CodersOverHandles.{OnlyReads};
ghost use Rattle.zarrs_codec.specs.HandleCalls.{NeverFailsIf, Tells};
ghost use Rattle.zarrs_codec.specs.Lent.{Lent};
ghost use Rattle.zarrs_codec.specs.StorageState.{StorageState};
ghost use Rattle.zarrs_array_bytes.specs.Validity.{Holds};
ghost use Rattle.zarrs_chunk.specs.Answer.{AnswersBy, memory_or_fault, memory};
ghost use Rattle.zarrs_chunk.specs.Selection.{Selection, bounds_of};

use std::alloc::Global;
use zarrs_array_bytes::ArrayBytes;
use zarrs_chunk::{CodecError, Indexer};
use zarrs_data_type::DataType;

/// Reads a chunk in part, over a storage handle or over the reader of a moved chunk.
///
/// Reading leaves what the reader answers as it is, and of the handle all but the failure that is
/// answered.
pub trait ArrayPartialDecoderTraits {
    // The chunk, and what is answered of it.
    ghost reader: { Self → ArrayReader };

    // What is read of each value that may be stored, and what a write leaves of it. A chunk that is only read needs none.
    ghost writer: { Self → ArrayWriter } = { λ _. no_writer };

    // The handle under the reader, and the references that it is made of.
    ghost state: { Self → StorageState };

    ghost lent: { Self → List Lent };

    // The record of the handle's calls, where it keeps one, and how many reading calls a read of a selection makes that answers. A reader of which this isn't known states nothing of them.
    ghost calls: { Self → Option Calls } = { λ _. None };

    ghost read_calls: { Self → Selection → Option ℕ } = { λ _ _. None };

    // How many bytes are kept in memory.
    ghost held: { Self → ℕ };

    /// The type of the elements.
    fn data_type(&self) -> &DataType
        ensures value { result.now ≡ (reader self.now).type };

    /// Whether the chunk is stored. Errors: `Storage`.
    fn exists(&mut self) -> Result<bool, CodecError>
        ensures answer { Tells result (reader self.old).is_stored }
        ensures left { OnlyReads state lent reader self.old self.new result }
        ensures writer_kept { writer self.new ≡ writer self.old };

    /// How many bytes are kept in memory.
    fn size_held(&self) -> usize
        ensures value { result ≡ held self.now };

    /// The elements that the indexer selects, in its order, in a container that they fix: offsets begin
    /// at 0, mask bytes are 0 or 1, and blank elements stand under absent ones.
    /// Errors: those of `Indexer::check` at the chunk's shape come before the handle is asked;
    /// `Storage`, but never for an indexer of which the reader is sure; `OutOfMemory`, and those of
    /// the codecs.
    fn partial_decode(
        &mut self,
        alloc: Global,
        indexer: &Indexer,
    ) -> Result<ArrayBytes<'static>, CodecError>
        ensures answer { AnswersBy memory_or_fault (Holds (reader self.old).type) result
            ((reader self.old).answer (selection_of indexer.now)) }
        ensures indexer_first { IfErr (bounds_of (selection_of indexer.now) (reader self.old).sizes)
            (λ cause. AnswersBy memory (Holds (reader self.old).type) result (Err cause)) }
        ensures sure { NeverFailsIf ((reader self.old).sure (selection_of indexer.now)) result }
        ensures counted { MakesKnownReads calls (read_calls self.old (selection_of indexer.now))
            self.old self.new result }
        ensures tight { IfOk result (IsTight (reader self.old).type) }
        ensures left { OnlyReads state lent reader self.old self.new result }
        ensures writer_kept { writer self.new ≡ writer self.old };

    /// Whether a part is read without the rest of the chunk.
    fn supports_partial_decode(&self) -> bool
        ensures value { result ≡ (reader self.now).in_part };

    // What is answered is of places inside the chunk, and has an element for each.
    ghost counts: { (decoder : Self) → IsCounted (reader decoder) };
}
