//! Stores that can be read.
ghost use Rattle.std.specs.Prelude.{◌≡◌, ℕ, Bool, List, Ok};
ghost use Rattle.zarrs_codec.specs.ByteRanges.{read_ranges};
ghost use Rattle.zarrs_codec.specs.HandleCalls.{ReadsBytes, Tells};
ghost use Rattle.zarrs_codec.specs.StorageState.{value_size};
ghost use Rattle.zarrs_stores.specs.StoreState.{AsksOnly, StoreState, after_get};

use std::alloc::Global;
use zarrs_chunk::CodecError;
use zarrs_codec::ByteRange;

/// A store that can be read: it keeps a value, a list of bytes, under each of its keys.
///
/// Reading leaves all values as they are. A call answers `Storage` exactly where the store failed in that
/// call, with what the store reported, so a failure never passes for a key without a value. An
/// implementer keeps how many of its calls have failed (modulo 2^64) and what the last of them answered:
/// both are part of its `state`, and what each call leaves of the state speaks of them. It may keep them
/// in fields of its own, or leave them as they began where it never fails.
///
/// A store may keep how often each key was asked for. Code that is generic over its store can't see
/// whether that is kept, so what it states of it holds of every store's traffic.
pub trait ReadableStore {
    // The value of each key, and the failures.
    ghost state: { Self → StoreState };

    // How often each key was asked for, where the store keeps that. One that keeps nothing states nothing of it.
    ghost asked: { Self → List ℕ → ℕ } = { λ _ _. 0 };

    // Whether ranges of a value are read without the rest.
    ghost gets_ranges: { Bool };

    /// The whole value of a key, or `None`. Errors: `OutOfMemory`, `Storage`.
    fn get(&mut self, alloc: Global, key: &str) -> Result<Option<Vec<u8>>, CodecError>
        ensures answer { ReadsBytes result (Ok ((state self.old).values key.now)) }
        ensures left { state self.new ≡ after_get result (state self.old) }
        ensures asked { AsksOnly key.now (asked self.old) (asked self.new) };

    /// The ranges' bytes of a key's value, joined in order, or `None` where the key has none. Errors:
    /// `InvalidByteRange` where a range ends past the value; `OutOfMemory` and `Storage`, which may come
    /// before.
    fn get_partial_many(
        &mut self,
        alloc: Global,
        key: &str,
        ranges: &[ByteRange],
    ) -> Result<Option<Vec<u8>>, CodecError>
        ensures answer { ReadsBytes result (read_ranges ((state self.old).values key.now) ranges.now) }
        ensures left { state self.new ≡ after_get result (state self.old) }
        ensures asked { AsksOnly key.now (asked self.old) (asked self.new) };

    /// How many bytes a key's value has, or `None` where the key has none. Errors: `Storage`.
    fn size_key(&mut self, key: &str) -> Result<Option<u64>, CodecError>
        ensures answer { Tells result (value_size ((state self.old).values key.now)) }
        ensures left { state self.new ≡ after_get result (state self.old) }
        ensures asked { AsksOnly key.now (asked self.old) (asked self.new) };

    /// Whether ranges of a value are read without the rest. No contract can measure it: it is the
    /// implementer's word.
    fn supports_get_partial(&self) -> bool
        ensures value { result ≡ gets_ranges };
}
