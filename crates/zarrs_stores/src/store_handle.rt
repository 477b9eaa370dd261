//! One key of a store as a handle.
ghost use Rattle.std.specs.Prelude.{◌≡◌, None, Option};
ghost use Rattle.std.specs.Option.{ForSome};
ghost use Rattle.std.proofs.Props.{props};
ghost use Rattle.zarrs_stores.specs.Lending.{Lending};
ghost use Rattle.zarrs_stores.specs.StoreState.{AsksOnly};

use crate::readable_store::ReadableStore;
use std::alloc::Global;
use std::marker::{Brand, PhantomData};
use zarrs_chunk::CodecError;
use zarrs_codec::{ByteRange, BytesPartialDecoderTraits};

/// How a store stood when it was lent to a [`StoreHandle`], and for which key. It is for proofs alone:
/// who lends a store to a handle `StoreHandle<'_, S, L>`, and gets that handle back from code which knows
/// nothing of stores, learns by `L` that the values are the same, and that no other key was asked for.
/// Where it is none, nothing is stated.
pub trait AsLent {
    ghost as_lent: { Option Lending };
}

impl AsLent for Brand {
    ghost as_lent = { None };
}

/// A handle on one key of a store that is lent. Each of its calls is one of the store's, for this key.
#[derive(Drop)]
pub struct StoreHandle<'s, S: ReadableStore, L: AsLent = Brand> {
    store: &'s mut S,
    key: &'s str,
    of: PhantomData<L>,
    ghost key_is: { ForSome L.as_lent (λ lending. key.now ≡ lending.key) },
    ghost values_kept: { ForSome L.as_lent (λ lending. (S.state store.now).values ≡ lending.values) },
    ghost asks_only: { ForSome L.as_lent (λ lending. AsksOnly lending.key lending.asked (S.asked store.now)) },
}

impl<'s, S: ReadableStore, L: AsLent> StoreHandle<'s, S, L> {
    ghost use Rattle.zarrs_stores.specs.StoreHandle.{lender_name, store_of};

    /// A handle on this key. It takes no memory, and asks for nothing.
    pub fn new(store: &'s mut S, key: &'s str) -> StoreHandle<'s, S, L>
        requires same { ForSome L.as_lent (λ lending. key.now ≡ lending.key) }
        requires values { ForSome L.as_lent (λ lending. (S.state store.old).values ≡ lending.values) }
        requires asked { ForSome L.as_lent (λ lending. S.asked store.old ≡ lending.asked) }
        ensures over { store_of result ≡ store.old }
        ensures key { result.key.now ≡ key.now }
        ensures same_reference { lender_name result ≡ store.entry.ghost_name }
    {
        StoreHandle {
            store,
            key,
            of: PhantomData,
        }
    }

    /// The key.
    pub fn key(&self) -> &str
        ensures value { result.now ≡ self.now.key.now }
    {
        self.key
    }
}

impl<'s, S: ReadableStore, L: AsLent> BytesPartialDecoderTraits for StoreHandle<'s, S, L> {
    ghost use Rattle.std.specs.Prelude.{[], ◌∷◌};
    ghost use Rattle.zarrs_codec.specs.Lent.{whole_reference};
    ghost use Rattle.zarrs_stores.specs.StoreHandle.{lender_name, store_of};
    ghost use Rattle.zarrs_stores.specs.StoreState.{key_state};

    ghost state = { λ handle. key_state (S.state (store_of handle)) handle.key.now };

    ghost lent = { λ handle. whole_reference (lender_name handle) ∷ [] };

    ghost held = { λ handle. 0 };

    ghost reads_ranges = { S.gets_ranges };

    fn exists(&mut self) -> Result<bool, CodecError> {
        let size = self.store.size_key(self.key)?;
        Ok(size.is_some())
    }

    fn size(&mut self) -> Result<Option<u64>, CodecError> {
        self.store.size_key(self.key)
    }

    /// None: the store has the value.
    fn size_held(&self) -> usize {
        0
    }

    fn partial_decode_many(
        &mut self,
        alloc: Global,
        ranges: &[ByteRange],
    ) -> Result<Option<Vec<u8>>, CodecError> {
        self.store.get_partial_many(alloc, self.key, ranges)
    }

    fn decode(&mut self, alloc: Global) -> Result<Option<Vec<u8>>, CodecError> {
        self.store.get(alloc, self.key)
    }

    fn supports_partial_decode(&self) -> bool {
        self.store.supports_get_partial()
    }
}
