//! Laws of plans, for each array and each region of it, and elements of any type. The functions do
//! nothing: their contracts are the laws.
ghost use Rattle.zarrs_array_plan.specs.ChunkArrays.{PartsAreRead, PartsWriteTheRegion};
ghost use Rattle.zarrs_array_plan.specs.ChunkKeys.{KeysDiffer};
ghost use Rattle.zarrs_array_plan.specs.Joined.{AllChunksMakeTheRegion};
ghost use Rattle.zarrs_array_plan.specs.PlanLaws.{PlansCutTheRegion};

/// Two chunks of an array don't share a key.
pub fn keys_differ()
    ensures law { KeysDiffer }
{}

/// Each element of a region is in the part of one planned chunk, and in that of no other. No two planned
/// chunks share a key.
pub fn plans_cut_the_region()
    ensures law { PlansCutTheRegion }
{}

/// What a read of a part's box of its chunk gives are the array's elements in the part.
pub fn parts_are_read()
    ensures law { PartsAreRead }
{}

/// What the parts of all planned chunks were joined to, in whatever order, is the region's elements, in
/// order. That each join adds a part is the clause `chunk_joined` of [`join_part`](crate::join_part).
pub fn parts_make_the_region()
    ensures law { AllChunksMakeTheRegion }
{}

/// Where its part of a region's new elements is written into each chunk that the region touches, and no
/// other chunk is written, the array has the new elements in the region, in order, and its old ones
/// elsewhere. That a part is cut out of them is the clause `part_cut` of [`part_of`](crate::part_of).
pub fn parts_write_the_region()
    ensures law { PartsWriteTheRegion }
{}
