//! Laws of the codec, over its definitions. The functions do nothing; their contracts are the laws.
ghost use Rattle.zarrs_bytes.specs.AskedRanges.{AskedAsPlanned, RunIsOneRange};
ghost use Rattle.zarrs_bytes.specs.Laws.{WrittenStands, StandsForOne, WrittenAlike, HasRepresentedLength, ReadSelects, ReadsAlike, WriteUpdates, LengthByCount, LengthGrows};

/// A value that is written for a chunk stands for it.
pub fn written_stands()
    ensures law { WrittenStands }
{}

/// A value stands for at most one chunk.
pub fn stands_for_one()
    ensures law { StandsForOne }
{}

/// Two chunks are written alike exactly if they are equal.
pub fn written_alike()
    ensures law { WrittenAlike }
{}

/// A written value has the length that the representation declares.
pub fn has_represented_length()
    ensures law { HasRepresentedLength }
{}

/// Of a value that stands for a chunk, a read of places inside selects the chunk's elements.
pub fn read_selects()
    ensures law { ReadSelects }
{}

/// A read rests on the bytes of its places alone: two values that both have these bytes, and the
/// same ones, are read alike.
pub fn reads_alike()
    ensures law { ReadsAlike }
{}

/// What is left where new elements are written at places inside is what is written for the chunk
/// with these elements: over a value that stands for a chunk, and where nothing is stored.
pub fn write_updates()
    ensures law { WriteUpdates }
{}

/// How long a value is, or why there is none, depends on the sizes by the count of elements alone.
pub fn length_by_count()
    ensures law { LengthByCount }
{}

/// Each element more makes a value longer by the bytes of one element.
pub fn length_grows()
    ensures law { LengthGrows }
{}

/// The ranges that are asked for at places are their plan: one for each run of consecutive places,
/// none of them empty, and none beginning where the one before it ends.
pub fn asked_as_planned()
    ensures law { AskedAsPlanned }
{}

/// Consecutive places are one range.
pub fn run_is_one_range()
    ensures law { RunIsOneRange }
{}
