//! Laws of the windows of a shard, for each shape of inner chunks that divides it, and elements of any
//! type. The functions do nothing: their contracts are the laws.
ghost use Rattle.zarrs_shard_runs.specs.BoxParts.{BoxesAreGrouped, PartsArePlaced, PartsArePut};

/// The inner chunks that a window touches, each with its places of the part of the window in it, are the
/// inner chunks that have any of the window's places, in the order of their numbers.
pub fn boxes_are_grouped()
    ensures law { BoxesAreGrouped }
{}

/// The part of a window in an inner chunk that it touches is a box inside that inner chunk and one inside
/// the window, and has elements; the inner chunk is one of those of the shard.
pub fn parts_are_placed()
    ensures law { PartsArePlaced }
{}

/// An answer as long as the window has elements is the window's elements in order, once what is read of
/// the part in each inner chunk that it touches is put at the part's places.
pub fn parts_are_put<A>()
    ensures law { PartsArePut A }
{}
