//! A handle of which one call fails, and leaves the value as it is or tears it.
ghost use Rattle.std.specs.Prelude.{◌≡◌, Ok, Some, None, OnOk, OnErr, is_some, length};
ghost use Rattle.std.specs.Option.{option_map};
ghost use Rattle.zarrs_chunk.specs.Answer.{Answers, memory};
ghost use Rattle.zarrs_codec.specs.BytePieces.{pieces_fit};
ghost use Rattle.zarrs_codec.specs.ByteRanges.{read_ranges};
ghost use Rattle.zarrs_codec.specs.FailingCall.{FailsInTurn, TearsInTurn};
ghost use Rattle.zarrs_codec.specs.WatchedHandle.{Tears, first_half, half_of_pieces, watched_state, watched_turn};
ghost use Rattle.zarrs_codec.specs.HandleCalls.{Accepts, ReadsBytes, Tells, WritesPieces};
ghost use Rattle.zarrs_codec.specs.MemoryHandle.{handle_value};
ghost use Rattle.zarrs_codec.specs.StorageState.{LeftByWriting, after_reading, value_size};

use crate::byte_pieces::check_pieces;
use crate::byte_range::ByteRange;
use crate::bytes_partial_decoder_traits::BytesPartialDecoderTraits;
use crate::bytes_partial_encoder_traits::BytesPartialEncoderTraits;
use crate::memory_handle::MemoryHandle;
use crate::testing::failing_call::FailingCall;
use std::alloc::Global;
use zarrs_chunk::CodecError;

/// A handle over memory of which one call fails: a [`FailingHandle`], or a [`TornHandle`] where it
/// tears what it was to write.
///
/// Of its calls by `&mut self`, counted from 1, the `n`-th answers `Storage` with code `n`, and no
/// other does. None fails where `n` is 0.
#[derive(Drop)]
pub struct WatchedHandle<const TEARS: bool> {
    memory: MemoryHandle,
    calls: FailingCall,
}

/// A handle over memory of which one call fails, before anything else is done, and leaves the value
/// as it is.
pub type FailingHandle = WatchedHandle<false>;

/// A handle over memory of which one call fails, and leaves half of the value where it is to write.
///
/// A write that fails leaves the first half, rounded down, of the value that it was to make, and an
/// erase that of the old one. A write of pieces that don't fit has no value to make, and leaves the
/// old one. Half of a new value takes memory: `OutOfMemory` may come in place of the failure, and
/// then the value stays.
pub type TornHandle = WatchedHandle<true>;

/// Leaves the first half of the value that the pieces make. Where they don't fit, no value is to be
/// made, and the one that is there stays.
fn tear_pieces(
    alloc: Global,
    handle: &mut MemoryHandle,
    pieces: &[(u64, u64)],
    bytes: &[u8],
) -> Result<(), CodecError>
    ensures memory_alone { Answers memory (λ torn. torn) result (Ok tt) }
    ensures torn { OnOk result
        (handle_value handle.new ≡ half_of_pieces pieces.now bytes.now (handle_value handle.old)) }
    ensures kept { OnErr result (handle_value handle.new ≡ handle_value handle.old) }
{
    if check_pieces(pieces, bytes.len()).is_ok() {
        handle.partial_encode_many(alloc, pieces, bytes)?;
        handle.halve();
    }
    Ok(())
}

impl<const TEARS: bool> WatchedHandle<TEARS> {
    /// A handle with this value, or without one, whose `n`-th call fails.
    pub fn new(value: Option<Vec<u8>>, n: u32) -> WatchedHandle<TEARS>
        ensures value { (watched_state result).value ≡ option_map (λ bytes. bytes.items) value }
        ensures nothing_sure { (watched_state result).sure ≡ None }
        ensures no_faults { (watched_state result).faults ≡ 0 }
        ensures no_failure { (watched_state result).failure ≡ None }
        ensures no_writes { (watched_state result).writes ≡ 0 }
        ensures none_accepted { (watched_state result).accepted_writes ≡ 0 }
        ensures turn { watched_turn result ≡ record { left = n; code = n } }
    {
        let memory = match value {
            None => MemoryHandle::new(),
            Some(value) => MemoryHandle::with_value(value),
        };
        WatchedHandle {
            memory,
            calls: FailingCall::new(n),
        }
    }

    /// The value, or `None`.
    pub fn value(&self) -> Option<&[u8]>
        ensures value { option_map (λ bytes. bytes.now) result ≡ (watched_state self.now).value }
    {
        self.memory.value()
    }

    /// How many calls failed, modulo 2^64.
    pub fn faults(&self) -> u64
        ensures value { result ≡ (watched_state self.now).faults }
    {
        self.calls.faults
    }

    /// How many writing calls there were, those that failed among them, modulo 2^64.
    pub fn write_calls(&self) -> u64
        ensures value { result ≡ (watched_state self.now).writes }
    {
        self.calls.write_calls
    }

    /// How many writing calls were accepted, modulo 2^64.
    pub fn accepted_writes(&self) -> u64
        ensures value { result ≡ (watched_state self.now).accepted_writes }
    {
        self.calls.accepted_writes
    }
}

impl<const TEARS: bool> BytesPartialDecoderTraits for WatchedHandle<TEARS> {
    ghost use Rattle.std.specs.Prelude.{true, []};
    ghost use Rattle.zarrs_codec.specs.StorageState.{held_bytes};

    ghost state = { watched_state };

    ghost lent = { λ _. [] };

    ghost held = { λ handle. held_bytes (watched_state handle).value };

    ghost reads_ranges = { true };

    fn exists(&mut self) -> Result<bool, CodecError>
        ensures answer { Tells result (is_some (watched_state self.old).value) }
        ensures left { watched_state self.new ≡ after_reading result (watched_state self.old) }
        ensures in_turn { FailsInTurn result (watched_turn self.old) (watched_turn self.new) }
    {
        self.calls.pass()?;
        self.memory.exists()
    }

    fn size(&mut self) -> Result<Option<u64>, CodecError>
        ensures answer { Tells result (value_size (watched_state self.old).value) }
        ensures left { watched_state self.new ≡ after_reading result (watched_state self.old) }
        ensures in_turn { FailsInTurn result (watched_turn self.old) (watched_turn self.new) }
    {
        self.calls.pass()?;
        self.memory.size()
    }

    fn size_held(&self) -> usize {
        self.memory.size_held()
    }

    fn partial_decode_many(
        &mut self,
        alloc: Global,
        ranges: &[ByteRange],
    ) -> Result<Option<Vec<u8>>, CodecError>
        ensures answer { ReadsBytes result (read_ranges (watched_state self.old).value ranges.now) }
        ensures left { watched_state self.new ≡ after_reading result (watched_state self.old) }
        ensures in_turn { FailsInTurn result (watched_turn self.old) (watched_turn self.new) }
    {
        self.calls.pass()?;
        self.memory.partial_decode_many(alloc, ranges)
    }

    fn decode(&mut self, alloc: Global) -> Result<Option<Vec<u8>>, CodecError>
        ensures answer { ReadsBytes result (Ok (watched_state self.old).value) }
        ensures left { watched_state self.new ≡ after_reading result (watched_state self.old) }
        ensures in_turn { FailsInTurn result (watched_turn self.old) (watched_turn self.new) }
    {
        self.calls.pass()?;
        self.memory.decode(alloc)
    }

    fn supports_partial_decode(&self) -> bool {
        true
    }
}

impl<const TEARS: bool> BytesPartialEncoderTraits for WatchedHandle<TEARS> {
    ghost use Rattle.std.specs.Prelude.{true, not};

    ghost atomic = { not TEARS };

    ghost writes_ranges = { true };

    fn partial_encode_many(
        &mut self,
        alloc: Global,
        pieces: &[(u64, u64)],
        bytes: &[u8],
    ) -> Result<(), CodecError>
        ensures answer { Accepts result (pieces_fit pieces.now (length bytes.now)) }
        ensures written { WritesPieces watched_state self.old self.new pieces.now bytes.now result }
        ensures torn { Tears TEARS (half_of_pieces pieces.now bytes.now) self.old self.new result }
        ensures left { LeftByWriting watched_state self.old self.new result }
        ensures in_turn { TearsInTurn TEARS result (watched_turn self.old) (watched_turn self.new) }
    {
        self.calls.count_write();
        if let Some(failure) = self.calls.next() {
            if TEARS {
                tear_pieces(alloc, &mut self.memory, pieces, bytes)?;
            }
            return Err(self.calls.fail(failure));
        }
        self.memory.partial_encode_many(alloc, pieces, bytes)?;
        self.calls.accept_write();
        Ok(())
    }

    fn replace(&mut self, alloc: Global, bytes: &[u8]) -> Result<(), CodecError>
        ensures answer { Accepts result (Ok tt) }
        ensures written { OnOk result ((watched_state self.new).value ≡ Some bytes.now) }
        ensures torn { Tears TEARS (λ _. Some (first_half bytes.now)) self.old self.new result }
        ensures left { LeftByWriting watched_state self.old self.new result }
        ensures in_turn { TearsInTurn TEARS result (watched_turn self.old) (watched_turn self.new) }
    {
        self.calls.count_write();
        if let Some(failure) = self.calls.next() {
            if TEARS {
                self.memory.replace(alloc, &bytes[..bytes.len() / 2])?;
            }
            return Err(self.calls.fail(failure));
        }
        self.memory.replace(alloc, bytes)?;
        self.calls.accept_write();
        Ok(())
    }

    fn erase(&mut self) -> Result<(), CodecError>
        ensures answer { Tells result tt }
        ensures written { OnOk result ((watched_state self.new).value ≡ None) }
        ensures torn { Tears TEARS (option_map first_half) self.old self.new result }
        ensures left { LeftByWriting watched_state self.old self.new result }
        ensures in_turn { FailsInTurn result (watched_turn self.old) (watched_turn self.new) }
    {
        self.calls.count_write();
        if let Some(failure) = self.calls.next() {
            if TEARS {
                self.memory.halve();
            }
            return Err(self.calls.fail(failure));
        }
        self.memory.erase()?;
        self.calls.accept_write();
        Ok(())
    }

    fn supports_partial_encode(&self) -> bool {
        true
    }

    fn is_atomic(&self) -> bool {
        !TEARS
    }
}
