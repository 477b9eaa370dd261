//! Writers of chunks in part.
ghost use Rattle.std.specs.Prelude.{◌≡◌, Bool, None, Ok, OnErr, Err, IfErr};
ghost use Rattle.zarrs_chunk.specs.Answer.{Answers, AnswersValue, fault, memory, memory_or_fault};
ghost use Rattle.zarrs_codec.specs.ArrayWriter.{ChecksData, written_value, edit_check};
ghost use Rattle.zarrs_codec.specs.CodersOverHandles.{OnlyWrites};
ghost use Rattle.zarrs_codec.specs.StorageState.{KeptIfAtomic, LeftByWriting};
ghost use Rattle.zarrs_chunk.specs.Indexer.{selection_of};
ghost use Rattle.zarrs_chunk.specs.Selection.{bounds_of};

use crate::array_partial_decoder_traits::ArrayPartialDecoderTraits;
use std::alloc::Global;
use zarrs_array_bytes::ArrayBytes;
use zarrs_chunk::{CodecError, Indexer};

/// Writes a chunk in part, over a storage handle or over the writer of a moved chunk.
///
/// A call that is accepted makes exactly one writing call of the handle. One that fails makes none, or
/// the one that failed, and leaves the stored value as it was, but where that writing call may leave
/// any. One that answers neither `Storage` nor `OutOfMemory` leaves the handle as it was. What is read
/// afterwards is what the value stands for that is stored then.
pub trait ArrayPartialEncoderTraits: ArrayPartialDecoderTraits {
    // Whether a writing call of the handle that fails leaves the value as it was.
    ghost atomic: { Bool };

    // Whether a part is written without the rest of the chunk.
    ghost writes_part: { Self → Bool };

    /// Writes these elements at the places that the indexer selects, in its order: where a place comes
    /// twice, the last one stands. Where nothing is stored, the chunk begins as fill values, and all
    /// of it is written, for an indexer without places too. Errors, the first that holds: those of
    /// `Indexer::check` at the chunk's shape; those of `ArrayBytes::validate_data` for so many places
    /// (`ArrayBytesKind`, `DataMismatch`); then, once the handle is asked, those of the codecs and
    /// `Storage`. `OutOfMemory` may come at any time.
    fn partial_encode(
        &mut self,
        alloc: Global,
        indexer: &Indexer,
        elements: &ArrayBytes<'_>,
    ) -> Result<(), CodecError>
        ensures answer { Answers memory_or_fault (λ _. (Self.state self.new).value) result
            (written_value (Self.writer self.old) (Self.state self.old) indexer.now elements.now) }
        ensures left { OnlyWrites Self.state Self.lent Self.writer atomic self.old self.new result }
        ensures untouched { OnErr (edit_check (Self.writer self.old) indexer.now elements.now)
            (Self.state self.new ≡ Self.state self.old) }
        ensures checked_first { IfErr (edit_check (Self.writer self.old) indexer.now elements.now)
            (λ cause. AnswersValue memory result (Err cause)) }
        ensures indexer_first { IfErr (bounds_of (selection_of indexer.now)
            (Self.reader self.old).sizes) (λ cause. AnswersValue memory result (Err cause)) };

    /// Leaves no value; there may have been none. Errors: `Storage`.
    fn erase(&mut self) -> Result<(), CodecError>
        ensures answer { Answers fault (λ _. (Self.state self.new).value) result (Ok None) }
        ensures left { LeftByWriting Self.state self.old self.new result }
        ensures kept_if_atomic { KeptIfAtomic atomic Self.state self.old self.new result }
        ensures same_reference { Self.lent self.new ≡ Self.lent self.old }
        ensures writer_kept { Self.writer self.new ≡ Self.writer self.old };

    /// Whether a part is written without the rest of the chunk.
    fn supports_partial_encode(&self) -> bool
        ensures value { result ≡ writes_part self.now };

    // What is read is what the stored value stands for.
    ghost tells: { (encoder : Self) → Self.reader encoder ≡ (Self.writer encoder).reads (Self.state encoder).value };

    // What is rejected whatever is stored are selections that aren't inside the chunk, and new elements
    // that don't fit.
    ghost checks_data: { (encoder : Self) → ChecksData (Self.reader encoder) (Self.writer encoder) };
}
