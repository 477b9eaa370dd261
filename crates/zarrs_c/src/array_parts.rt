//! The calls `zarrs_part_put` and `zarrs_part_take`.
ghost use Rattle.std.specs.Prelude.{length};
ghost use Rattle.zarrs_array_calls.specs.PartBytes.{part_put, part_taken, FillsBuffer};

use std::alloc::Global;

/// Puts a part's elements at their places among a region's, an element of `size` bytes each. What a plan
/// of the region gives as the numbers of a part is `part`, and `elements` are what a read of its box of
/// the chunk gives. All other bytes of `region` stay, and parts may come in any order.
///
/// Errors, the first that holds, `OutOfMemory` aside: `ZeroSize` where a length of the region is zero,
/// since it has no parts then; `Argument` where the part hasn't four numbers an axis; `Overflow` where a
/// range of it ends past `2^64 - 1`; those of `ArrayBytesFixedView::new`; `TargetMismatch` where the part
/// has more or fewer elements. Each leaves `region` as it was.
#[unsafe(no_mangle)]
pub extern "C" fn zarrs_part_put(
    alloc: Global,
    size: usize,
    lengths: &[u64],
    part: &[u64],
    elements: &[u8],
    region: &mut [u8],
) -> u32
    ensures told { FillsBuffer (part_put size lengths.now part.now elements.now region.old) result
        region.old region.new }
{
    zarrs_array_calls::zarrs_part_put(alloc, size, lengths, part, elements, region)
}

/// Takes a part's elements out of a region's, of `size` bytes each, one behind another: what a write into
/// the part's box of its chunk takes. What a plan of the region gives as the numbers of a part is `part`,
/// and `elements` has just as many bytes as the part's elements.
///
/// Errors, the first that holds, `OutOfMemory` aside: those of `zarrs_part_put`. Each leaves `elements` as
/// it was.
#[unsafe(no_mangle)]
pub extern "C" fn zarrs_part_take(
    alloc: Global,
    size: usize,
    lengths: &[u64],
    part: &[u64],
    region: &[u8],
    elements: &mut [u8],
) -> u32
    // Wide: what is taken has five parts, and the buffer is given before and after.
    ensures told { FillsBuffer
        (part_taken size lengths.now part.now region.now (length elements.old)) result
        elements.old elements.new }
{
    zarrs_array_calls::zarrs_part_take(alloc, size, lengths, part, region, elements)
}
