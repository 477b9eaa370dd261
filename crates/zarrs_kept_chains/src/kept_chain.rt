//! C's handle on a header that is kept.
ghost use Rattle.std.specs.Prelude.{◌≡◌, is_some};

use crate::place::Place;

/// A chunk's header that C keeps between calls, or none: in C
/// `struct { bool is_there; void *at; }`.
///
/// What C owes, since nothing checks it: the struct begins with all its bytes zero, and from then on
/// is as the last call left it; it isn't copied, since it owns what it keeps; one call at a time has
/// it. It may go to another thread, in the way that a lock, a start or a join of threads orders.
/// Threads that use one header at once have a handle each ([`Kept::share`](crate::Kept::share)).
/// What is kept is freed by [`clear`](KeptChain::clear) alone, or as something else is kept.
#[repr(C)]
pub struct KeptChain {
    pub(crate) is_there: bool,
    pub(crate) place: Place,
    ghost told: { is_some place.kept ≡ is_there },
}
