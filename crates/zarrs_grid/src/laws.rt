//! Laws of grids, for each shape of chunks without a zero, each region of as many axes, and elements of
//! any type. The functions do nothing: their contracts are the laws.
ghost use Rattle.zarrs_grid.specs.GridLaws.{TouchedHaveElements, PartsCutTheRegion, PartsHavePlaces};
ghost use Rattle.zarrs_grid.specs.JoinedParts.{PartIsJoined, AllPartsAreJoined};
ghost use Rattle.zarrs_grid.specs.RegionWrites.{WritesChangeTheRegion};

/// The chunks that a region touches are those that have an element of it.
pub fn touched_have_elements()
    ensures law { TouchedHaveElements }
{}

/// The part of a region in a chunk is a box inside the chunk and one inside the region, and has the same
/// elements by either. Each element of the region is in the part of the chunk that has it, and in that of
/// no other chunk.
pub fn parts_cut_the_region()
    ensures law { PartsCutTheRegion }
{}

/// What is gathered or scattered by a part's box, in its chunk or in the region, is the part, and no error
/// but lack of memory is due, where 64 bits count the elements of the chunk or the region.
pub fn parts_have_places()
    ensures law { PartsHavePlaces }
{}

/// An answer that has the elements of some chunks has those of one chunk more, once that chunk's part is
/// scattered into it. With those of all chunks that a region touches, in whatever order they came, it is
/// the region's elements in order.
pub fn parts_make_the_region<A>()
    ensures one { PartIsJoined A }
    ensures all { AllPartsAreJoined A }
{}

/// Where its part of a region's new elements is written into each chunk that the region touches, and no
/// other chunk is written, the array has the new elements in the region, in order, and its old ones
/// elsewhere.
pub fn writes_change_the_region<A>()
    ensures law { WritesChangeTheRegion A }
{}
