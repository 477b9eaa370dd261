//! What a handle keeps: put there, taken, freed.
ghost use Rattle.std.specs.Prelude.{◌≡◌, Some, None, option_map};
ghost use Rattle.zarrs_kept_chains.specs.Kept.{header_shown};
ghost use Rattle.zarrs_kept_chains.specs.KeptChain.{kept_header};

use crate::kept::Kept;
use crate::kept_chain::KeptChain;
use crate::place::Place;
use std::alloc::Global;
use std::mem;

impl KeptChain {
    /// A handle that keeps nothing, as C's is that begins zeroed.
    pub fn none(alloc: Global) -> KeptChain
        ensures empty { kept_header result ≡ None }
    {
        KeptChain {
            is_there: false,
            place: Place::none(alloc),
        }
    }

    /// A handle that keeps a header.
    fn some(kept: Box<Kept>) -> KeptChain
        ensures header_kept { kept_header result ≡ Some (header_shown kept.value) }
    {
        KeptChain {
            is_there: true,
            place: Place::of_box(kept),
        }
    }

    /// What a handle keeps, or none. The handle is used up: so an owner in Rust lets one go.
    pub fn into_kept(self) -> Option<Box<Kept>>
        ensures value { option_map (λ kept. header_shown kept.value) result ≡ kept_header self }
    {
        let KeptChain { is_there, place } = self;
        if is_there {
            Some(place.into_box())
        } else {
            place.leave();
            None
        }
    }

    /// What the handle keeps, or none. It keeps nothing from then on: a call that only reads puts it
    /// back by [`keep`](KeptChain::keep).
    pub fn take(&mut self, alloc: Global) -> Option<Box<Kept>>
        ensures value { option_map (λ kept. header_shown kept.value) result ≡ kept_header self.old }
        ensures empty { kept_header self.new ≡ None }
    {
        mem::replace(self, KeptChain::none(alloc)).into_kept()
    }

    /// Keeps a header, in place of what the handle kept, which is freed.
    pub fn keep(&mut self, kept: Box<Kept>)
        ensures header_kept { kept_header self.new ≡ Some (header_shown kept.value) }
    {
        drop(mem::replace(self, KeptChain::some(kept)).into_kept());
    }

    /// Frees what the handle keeps. It keeps nothing from then on, and may be used, or cleared, again.
    pub fn clear(&mut self, alloc: Global)
        ensures empty { kept_header self.new ≡ None }
    {
        drop(self.take(alloc));
    }
}
