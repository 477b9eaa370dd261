//! Laws of parts as bytes. The functions do nothing: their contracts are the laws.
ghost use Rattle.zarrs_array_calls.specs.ArrayLaws.{PartsAreTaken, PutsAreJoined};

/// What a read of a part's box of its chunk gives, put into a region's bytes by the part's numbers in a
/// plan, adds the array's elements of this chunk to those that are there; and no error is due. So once the
/// parts of all planned chunks are put, in whatever order, the bytes are the region's elements
/// ([`parts_make_the_region`](zarrs_array_plan::laws::parts_make_the_region)).
pub fn puts_are_joined()
    ensures law { PutsAreJoined }
{}

/// What is taken of a region's new elements by a part's numbers in a plan are the part's, in row-major
/// order: what a write into the part's box of its chunk takes; and no error is due.
pub fn parts_are_taken()
    ensures law { PartsAreTaken }
{}
