//! A handle over pieces of a value.
ghost use Rattle.std.specs.Prelude.{◌≡◌, IfErr, IfOk, Ok, Some, true};
ghost use Rattle.zarrs_chunk.specs.declared.codec_error.CodecError.TheVariants.{OutOfMemory};
ghost use Rattle.zarrs_chunk.specs.Answer.{is_fault, memory, seen, Answers};
ghost use Rattle.zarrs_lent_handles.specs.Lacking.{are_all_lacking, are_of_failure, ranges_kept, LacksOne};
ghost use Rattle.zarrs_codec.specs.ByteRanges.{range_indices, ranges_are_sure, read_ranges};
ghost use Rattle.zarrs_codec.specs.HandleCalls.{NeverFailsIf, ReadsBytes};
ghost use Rattle.zarrs_codec.specs.StorageState.{after_reading, value_indices, value_is_sure};
ghost use Rattle.zarrs_lent_handles.specs.Pieces.{are_apart as stand_apart, pieces_seen};

use crate::elsewhere::Elsewhere;
use crate::lacking::find_lacking;
use crate::piece::{Piece, are_apart, gather, whole, whole_range};
use std::alloc::Global;
use std::marker::{Brand, PhantomData};
use zarrs_chunk::{CodecError, StorageError};
use zarrs_codec::{ByteRange, BytesPartialDecoderTraits};

/// A handle on a value of `len` bytes of which these pieces are at hand, lent by a caller.
///
/// Reads of the pieces' bytes never fail, but for lack of memory; a read of any other byte answers
/// `Storage` with the code 0, and keeps what was lacking. As pieces stand apart, a range whose
/// bytes are all at hand lies in one.
///
/// Its contracts speak of the value that has the bytes of `E` where no piece is. So what is proved
/// over a handle with any `E` holds of each value that has the pieces.
#[derive(Drop)]
pub struct PiecesHandle<'a, E = Brand> {
    len: u64,
    pieces: Vec<Piece<'a>>,
    faults: u64,
    failure: Option<StorageError>,
    lacking: Option<Vec<ByteRange>>,
    of: PhantomData<E>,
    ghost apart: { stand_apart len 0 (pieces_seen pieces.items) ≡ true },
    ghost lack: { are_all_lacking len (pieces_seen pieces.items) (ranges_kept lacking) ≡ true },
    ghost failed: { are_of_failure failure (ranges_kept lacking) ≡ true },
}

impl<'a, E: Elsewhere> PiecesHandle<'a, E> {
    ghost use Rattle.zarrs_lent_handles.specs.PiecesHandle.{are_unsure, lacking_ranges, made_around, state_around, HandleLacks, KeepsLacking};

    /// A handle over these pieces of a value of `len` bytes. Errors: `InvalidByteRange` where they
    /// don't come in order, with at least a byte between one and the next, or one ends behind the
    /// value.
    pub fn new(len: u64, pieces: Vec<Piece<'a>>) -> Result<PiecesHandle<'a, E>, CodecError>
        ensures answer { seen (state_around E.elsewhere) result
            ≡ made_around E.elsewhere len (pieces_seen pieces.entry.items) }
    {
        if !are_apart(len, pieces.as_slice()) {
            return Err(CodecError::InvalidByteRange);
        }
        Ok(PiecesHandle {
            len,
            pieces,
            faults: 0,
            failure: None,
            lacking: None,
            of: PhantomData,
        })
    }

    /// What the last call asked for that failed, and isn't at hand: the ranges that a caller gets
    /// before it reads again, over more pieces. Each byte of the ranges that it asked for is
    /// among them that the value has and no piece. None where no call has failed.
    pub fn lacking(&self) -> &[ByteRange]
        ensures value { result.now ≡ lacking_ranges self.now }
        ensures unsure { are_unsure (state_around E.elsewhere self.now) result.now ≡ true }
        ensures failed { are_of_failure (state_around E.elsewhere self.now).failure result.now ≡ true }
    {
        match &self.lacking {
            None => &[],
            Some(ranges) => ranges.as_slice(),
        }
    }

    /// The bytes of these ranges that the value has and no piece, as ranges in order with at least a
    /// byte between one and the next: of the ranges that a read plans to ask for, all that are
    /// to be got. Errors: `OutOfMemory`.
    pub fn lacking_of(
        &self,
        alloc: Global,
        asked: &[ByteRange],
    ) -> Result<Vec<ByteRange>, CodecError>
        ensures lacking { IfOk result (λ ranges. HandleLacks self.now asked.now ranges.items) }
        ensures memory { IfErr result (λ error. error ≡ OutOfMemory) }
    {
        find_lacking(alloc, self.len, self.pieces.as_slice(), asked)
    }

    /// Counts the failure of a read of these ranges, where the answer is one, and keeps what was
    /// lacking. Errors: the answer's; `OutOfMemory`, and then nothing is counted.
    fn counted(
        &mut self,
        alloc: Global,
        asked: &[ByteRange],
        answer: Result<Vec<u8>, CodecError>,
    ) -> Result<Option<Vec<u8>>, CodecError>
        requires lacks { is_fault answer ≡ true
            → LacksOne self.old.len (pieces_seen self.old.pieces.items) asked.now }
        ensures answered { Answers memory (λ bytes. bytes) result (seen Some answer) }
        ensures len { self.new.len ≡ self.old.len }
        ensures pieces { self.new.pieces ≡ self.old.pieces }
        ensures left { state_around E.elsewhere self.new ≡ after_reading result (state_around E.elsewhere self.old) }
        ensures lacking { KeepsLacking asked.now self.old self.new result }
    {
        match answer {
            Ok(bytes) => Ok(Some(bytes)),
            Err(CodecError::Storage(failure)) => {
                let lacking = find_lacking(alloc, self.len, self.pieces.as_slice(), asked)?;
                self.faults = self.faults.wrapping_add(1);
                self.failure = Some(failure);
                self.lacking = Some(lacking);
                Err(CodecError::Storage(failure))
            }
            Err(error) => Err(error),
        }
    }
}

impl<'a, E: Elsewhere> BytesPartialDecoderTraits for PiecesHandle<'a, E> {
    ghost use Rattle.std.specs.Prelude.{true, [], ◌∷◌};
    ghost use Rattle.zarrs_lent_handles.specs.PiecesHandle.{state_around, whole_span, KeepsLacking, ReadsSure};

    ghost state = { state_around E.elsewhere };

    ghost lent = { λ _. [] };

    ghost held = { λ handle. 0 };

    ghost reads_ranges = { true };

    fn exists(&mut self) -> Result<bool, CodecError> {
        Ok(true)
    }

    #[tactic(auto, using(crate::proofs::PieceLemmas::value_length))]
    fn size(&mut self) -> Result<Option<u64>, CodecError> {
        Ok(Some(self.len))
    }

    /// None: the pieces are lent.
    fn size_held(&self) -> usize {
        0
    }

    /// The ranges' bytes, joined in order. A byte that isn't at hand is never among them: a read that asks
    /// for one fails.
    fn partial_decode_many(
        &mut self,
        alloc: Global,
        ranges: &[ByteRange],
    ) -> Result<Option<Vec<u8>>, CodecError>
        ensures answer { ReadsBytes result (read_ranges (state_around E.elsewhere self.old).value ranges.now) }
        ensures sure { NeverFailsIf (ranges_are_sure (state_around E.elsewhere self.old) ranges.now) result }
        ensures at_hand { ReadsSure self.old (range_indices ranges.now) result }
        ensures left { state_around E.elsewhere self.new ≡ after_reading result (state_around E.elsewhere self.old) }
        ensures lacking { KeepsLacking ranges.now self.old self.new result }
    {
        let answer = gather::<E>(alloc, self.len, self.pieces.as_slice(), ranges);
        self.counted(alloc, ranges, answer)
    }

    /// The whole value, where all of its bytes are at hand.
    fn decode(&mut self, alloc: Global) -> Result<Option<Vec<u8>>, CodecError>
        ensures answer { ReadsBytes result (Ok (state_around E.elsewhere self.old).value) }
        ensures sure { NeverFailsIf (value_is_sure (state_around E.elsewhere self.old)) result }
        ensures at_hand { ReadsSure self.old (value_indices (state_around E.elsewhere self.old).value) result }
        ensures left { state_around E.elsewhere self.new ≡ after_reading result (state_around E.elsewhere self.old) }
        ensures lacking { KeepsLacking (whole_span (state_around E.elsewhere self.old).value ∷ [])
            self.old self.new result }
    {
        let answer = whole::<E>(alloc, self.len, self.pieces.as_slice());
        self.counted(alloc, &[whole_range(self.len)], answer)
    }

    fn supports_partial_decode(&self) -> bool {
        true
    }
}
