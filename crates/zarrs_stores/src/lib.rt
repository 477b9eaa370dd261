//! Stores: values that are kept by keys, and a key's value as a storage handle.
//!
//! A store keeps a **value**, a list of bytes, under each of its keys. [`ReadableStore`] is one that can be
//! read, and [`MemoryStore`] has its values in memory. A [`StoreHandle`] is one key of a store, as coders
//! of chunks in part read it. [`testing`] has a store that fails.
#![tactic(auto)]

mod memory_store;
mod readable_store;
mod store_handle;
pub mod testing;

pub use memory_store::MemoryStore;
pub use readable_store::ReadableStore;
pub use store_handle::{AsLent, StoreHandle};
pub use zarrs_codec::{ByteRange, CodecError, StorageError};
