//! Stores for tests.

mod watched_store;

pub use watched_store::WatchedStore;
