//! Values in memory as a store.
ghost use Rattle.std.specs.Prelude.{◌≡◌, None, OnErr, OnOk, Some};
ghost use Rattle.std.specs.Option.{option_map};
ghost use Rattle.zarrs_stores.specs.MemoryStore.{memory_values};
ghost use Rattle.zarrs_stores.specs.StoreState.{SetsValue};

use crate::readable_store::ReadableStore;
use std::alloc::{AllocError, Global};
use std::collections::BTreeMap;
use zarrs_chunk::CodecError;
use zarrs_codec::{ByteRange, gather};

/// A store whose values are in memory. It never fails, but for lack of memory.
#[derive(Drop)]
pub struct MemoryStore {
    values: BTreeMap<String, Vec<u8>>,
}

impl MemoryStore {
    /// A store without values.
    pub fn new(alloc: Global) -> MemoryStore
        ensures made { memory_values result ≡ λ _. None }
    {
        MemoryStore {
            values: BTreeMap::new(alloc),
        }
    }

    /// The value of a key, or `None`.
    pub fn value(&self, key: &str) -> Option<&[u8]>
        ensures value { option_map (λ bytes. bytes.now) result ≡ memory_values self.now key.now }
    {
        match self.values.get(key) {
            None => None,
            Some(value) => Some(value.as_slice()),
        }
    }

    /// Sets the value of a key. An error leaves the store as it was.
    pub fn set(&mut self, alloc: Global, key: &str, value: Vec<u8>) -> Result<(), AllocError>
        ensures value { OnOk result (SetsValue key.now (Some value.items)
            (memory_values self.old) (memory_values self.new)) }
        ensures kept { OnErr result (memory_values self.new ≡ memory_values self.old) }
    {
        let key = String::from_str(alloc, key)?;
        match self.values.insert(key, value) {
            Ok(_) => Ok(()),
            Err(_) => Err(AllocError),
        }
    }

    /// Takes the value of a key out of the store, where it has one.
    pub fn erase(&mut self, key: &str)
        ensures value { SetsValue key.now None (memory_values self.old) (memory_values self.new) }
    {
        self.values.remove(key);
    }
}

impl ReadableStore for MemoryStore {
    ghost use Rattle.std.specs.Prelude.{true};
    ghost use Rattle.zarrs_stores.specs.MemoryStore.{memory_store_state};

    ghost state = { memory_store_state };

    ghost gets_ranges = { true };

    fn get(&mut self, alloc: Global, key: &str) -> Result<Option<Vec<u8>>, CodecError> {
        match self.value(key) {
            None => Ok(None),
            Some(value) => Ok(Some(Vec::from_slice(alloc, value)?)),
        }
    }

    fn get_partial_many(
        &mut self,
        alloc: Global,
        key: &str,
        ranges: &[ByteRange],
    ) -> Result<Option<Vec<u8>>, CodecError> {
        match self.value(key) {
            None => Ok(None),
            Some(value) => Ok(Some(gather(alloc, value, ranges)?)),
        }
    }

    fn size_key(&mut self, key: &str) -> Result<Option<u64>, CodecError> {
        match self.value(key) {
            None => Ok(None),
            Some(value) => Ok(Some(value.len() as u64)),
        }
    }

    fn supports_get_partial(&self) -> bool {
        true
    }
}
