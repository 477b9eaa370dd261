//! A store of which one call fails, and which counts the calls for one key.
ghost use Rattle.std.specs.Prelude.{◌≡◌, None, Ok, string_bytes};
ghost use Rattle.zarrs_codec.specs.ByteRanges.{read_ranges};
ghost use Rattle.zarrs_codec.specs.FailingCall.{FailsInTurn};
ghost use Rattle.zarrs_codec.specs.HandleCalls.{ReadsBytes, Tells};
ghost use Rattle.zarrs_codec.specs.StorageState.{value_size};
ghost use Rattle.zarrs_stores.specs.MemoryStore.{memory_values};
ghost use Rattle.zarrs_stores.specs.StoreState.{AsksOnly, after_get};
ghost use Rattle.zarrs_stores.specs.WatchedStore.{counted_for, times_asked, watched_store_state, watched_store_turn};

use crate::memory_store::MemoryStore;
use crate::readable_store::ReadableStore;
use std::alloc::Global;
use zarrs_chunk::{CodecError, StorageError};
use zarrs_codec::ByteRange;

/// A store over memory of which one call fails, before anything else is done, and which counts the calls
/// that ask for one key, those that fail among them.
///
/// Of its calls by `&mut self`, counted from 1, the `n`-th answers `Storage` with code `n`, and no other
/// does. None fails where `n` is 0.
#[derive(Drop)]
pub struct WatchedStore {
    memory: MemoryStore,
    // How many calls there are up to the one that fails, itself among them. For 0 none fails.
    left: u32,
    code: u32,
    faults: u64,
    failure: Option<StorageError>,
    key: String,
    asked: u64,
}

impl WatchedStore {
    /// A store with these values, whose `n`-th call fails, and which counts those for this key.
    pub fn new(memory: MemoryStore, n: u32, key: String) -> WatchedStore
        ensures values { (watched_store_state result).values ≡ memory_values memory }
        ensures no_faults { (watched_store_state result).faults ≡ 0 }
        ensures no_failure { (watched_store_state result).failure ≡ None }
        ensures turn { watched_store_turn result ≡ record { left = n; code = n } }
        ensures none_asked { times_asked result ≡ λ _. 0 }
    {
        WatchedStore {
            memory,
            left: n,
            code: n,
            faults: 0,
            failure: None,
            key,
            asked: 0,
        }
    }

    /// How many calls failed, modulo 2^64.
    pub fn faults(&self) -> u64
        ensures value { result ≡ (watched_store_state self.now).faults }
    {
        self.faults
    }

    /// How many calls asked for the key that is watched, modulo 2^64.
    pub fn asked(&self) -> u64
        ensures value { result ≡ times_asked self.now (string_bytes self.now.key) }
    {
        self.asked
    }

    /// Counts a call for a key, which fails where it is its turn.
    fn pass(&mut self, key: &str) -> Result<(), CodecError>
        ensures answer { Tells result tt }
        ensures left { watched_store_state self.new ≡ after_get result (watched_store_state self.old) }
        ensures asked { times_asked self.new ≡ counted_for (string_bytes self.old.key) key.now
            (times_asked self.old) }
        ensures in_turn { FailsInTurn result (watched_store_turn self.old) (watched_store_turn self.new) }
    {
        if self.key.as_str() == key {
            self.asked = self.asked.wrapping_add(1);
        }
        let due = self.left == 1;
        self.left = self.left.saturating_sub(1);
        if !due {
            return Ok(());
        }
        let failure = StorageError { code: self.code };
        self.faults = self.faults.wrapping_add(1);
        self.failure = Some(failure);
        Err(CodecError::Storage(failure))
    }
}

impl ReadableStore for WatchedStore {
    ghost use Rattle.std.specs.Prelude.{true};

    ghost state = { watched_store_state };

    ghost asked = { times_asked };

    ghost gets_ranges = { true };

    fn get(&mut self, alloc: Global, key: &str) -> Result<Option<Vec<u8>>, CodecError>
        ensures answer { ReadsBytes result (Ok ((watched_store_state self.old).values key.now)) }
        ensures left { watched_store_state self.new ≡ after_get result (watched_store_state self.old) }
        ensures asked { AsksOnly key.now (times_asked self.old) (times_asked self.new) }
        ensures in_turn { FailsInTurn result (watched_store_turn self.old) (watched_store_turn self.new) }
    {
        self.pass(key)?;
        self.memory.get(alloc, key)
    }

    fn get_partial_many(
        &mut self,
        alloc: Global,
        key: &str,
        ranges: &[ByteRange],
    ) -> Result<Option<Vec<u8>>, CodecError>
        ensures answer { ReadsBytes result (read_ranges ((watched_store_state self.old).values key.now) ranges.now) }
        ensures left { watched_store_state self.new ≡ after_get result (watched_store_state self.old) }
        ensures asked { AsksOnly key.now (times_asked self.old) (times_asked self.new) }
        ensures in_turn { FailsInTurn result (watched_store_turn self.old) (watched_store_turn self.new) }
    {
        self.pass(key)?;
        self.memory.get_partial_many(alloc, key, ranges)
    }

    fn size_key(&mut self, key: &str) -> Result<Option<u64>, CodecError>
        ensures answer { Tells result (value_size ((watched_store_state self.old).values key.now)) }
        ensures left { watched_store_state self.new ≡ after_get result (watched_store_state self.old) }
        ensures asked { AsksOnly key.now (times_asked self.old) (times_asked self.new) }
        ensures in_turn { FailsInTurn result (watched_store_turn self.old) (watched_store_turn self.new) }
    {
        self.pass(key)?;
        self.memory.size_key(key)
    }

    fn supports_get_partial(&self) -> bool {
        true
    }
}
