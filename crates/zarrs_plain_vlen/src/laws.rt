//! Laws of reads in part through a plain `vlen`, over the definitions alone: each function's contract is
//! one.
ghost use Rattle.zarrs_codec.specs.BytesToBytesCodec.{BytesCodecs};
ghost use Rattle.zarrs_plain_vlen.specs.Laws.{VlenReadSelects, PartSelects, VlenReadsAlike, IndexIsRefusedInOrder};

/// Of a value that stands for a chunk, a read of places inside selects the chunk's elements.
pub fn read_selects<B>()
    ensures law { (f : BytesCodecs B) → VlenReadSelects f }
{}

/// Of a stored value that stands for a chunk, a read in part answers the chunk's elements that the
/// selection selects, or the selection's error.
pub fn part_selects<B>()
    ensures law { (f : BytesCodecs B) → PartSelects f }
{}

/// A read rests on the bytes of the index's length, of the index and of the elements alone.
pub fn reads_alike()
    ensures law { VlenReadsAlike }
{}

/// An index is rejected in this order: `Overflow` where 64 bits don't count the offsets, or their
/// bytes; `InvalidBytesLength` where it has another length; `InvalidOffsets` where its offsets
/// fall.
pub fn index_is_refused_in_order()
    ensures law { IndexIsRefusedInOrder }
{}
