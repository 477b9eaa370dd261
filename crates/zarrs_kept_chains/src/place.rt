//! The address of what is kept.
ghost use Rattle.std.specs.Prelude.{◌≡◌, Option, Some, None, is_some, true};
ghost use Rattle.zarrs_kept_chains.specs.declared.kept.Kept.{Kept as KeptValue};
ghost use Rattle.zarrs_kept_chains.specs.Place.{kept_coded, place_owns};

use crate::kept::Kept;
use std::alloc::Global;
use std::marker::Model;
use std::ptr;

/// The address of something kept, which it owns, or of nothing.
#[repr(C)]
pub(crate) struct Place {
    at: *mut u8,
    alloc: Global,
    pub(crate) ghost kept: { Option KeptValue } by { kept_coded },
}

impl Model for Place {
    ghost also_owns = { λ place. place_owns
        (⟦<Global as std::alloc::Allocator>⟧.dealloc_token place.alloc) place.kept place.at };
}

unsafe impl Send for Place {}

impl Place {
    /// The address of nothing.
    pub(crate) fn none(alloc: Global) -> Place
        ensures empty { result.kept ≡ None }
    {
        let at = ptr::null_mut();
        Place { at, alloc }
    }

    /// The address of what a box holds.
    pub(crate) fn of_box(kept: Box<Kept>) -> Place
        ensures header_kept { result.kept ≡ Some kept.value }
    {
        let (at, alloc) = Box::into_raw_with_allocator(kept);
        Place {
            at: at as *mut u8,
            alloc,
        }
    }

    /// What is kept at the address, in its box.
    pub(crate) fn into_box(self) -> Box<Kept>
        requires some { is_some self.kept ≡ true }
        ensures value { self.kept ≡ Some result.value }
    {
        let Place { at, alloc } = self;
        unsafe { Box::from_raw(alloc, at as *mut Kept) }
    }

    /// Lets the address of nothing go.
    pub(crate) fn leave(self)
        requires empty { self.kept ≡ None }
    {
        let Place { at: _, alloc: _ } = self;
    }
}
