//! The elements of a transposed chunk, where all have one size.
ghost use Rattle.std.specs.Prelude.{◌≡◌, ◌≤◌, ◌<◌, ◌+◌, ◌*◌, ◌^◌, ◌∷◌, [], true, length, All, Ok, None};
ghost use Rattle.zarrs_array_bytes.specs.Pieces.{fixed_of};
ghost use Rattle.zarrs_array_bytes.specs.Turned.{WholeComponents, turned_bytes};
ghost use Rattle.zarrs_array_to_array.specs.WrittenElements.{PutsItems};
ghost use Rattle.zarrs_chunk.specs.ChunkShape.{product};
ghost use Rattle.zarrs_metadata.specs.Orders.{is_order};
ghost use Rattle.zarrs_array_to_array.specs.Transpose.{transposed_bytes};
ghost use Rattle.zarrs_chunk.specs.Answer.{GivesValue};

use crate::transpose::axis::{Axis, ONE, put_ordered_axes};
use crate::transpose::planes::put_moved;
use std::alloc::{AllocError, Global};
use std::borrow::CowSlice;
use zarrs_array_bytes::ArrayBytes;
use zarrs_chunk::CodecError;

/// So many axes are few: they and their strides take no memory.
const FEW: usize = 8;

/// Writes the bytes of elements of one size, with the axes of their chunk in this order. The axes and
/// their strides are written into the room that is given.
fn put_in_order(
    alloc: Global,
    items: &mut [u8],
    bytes: &[u8],
    size: usize,
    order: &[usize],
    sizes: &[u64],
    turn: Option<usize>,
    axes: &mut [Axis],
    steps: &mut [u64],
) -> Result<(), AllocError>
    requires order { is_order order.now ≡ true }
    requires axes { length order.now ≡ length sizes.now }
    requires positive { All (λ size. 0 < size) sizes.now }
    requires fits { product sizes.now < 2 ^ 64 }
    requires sized { 0 < size }
    requires turn { WholeComponents size turn }
    requires whole { length bytes.now ≡ product sizes.now * size }
    requires len { length items.old ≡ product sizes.now * size }
    requires steps { length steps.old ≡ length sizes.now }
    requires room { length order.now + 2 ≤ length axes.old }
    ensures written { PutsItems items.old items.new result (turned_bytes turn (transposed_bytes size order.now sizes.now bytes.now)) }
{
    let count = put_ordered_axes(axes, steps, order, sizes);
    put_moved(alloc, items, bytes, size, &axes[..count], turn)
}

/// Whether the order swaps two axes.
#[inline(always)]
fn swaps_two(order: &[usize]) -> bool
    ensures value { result ≡ true → order.now ≡ 1 ∷ 0 ∷ [] }
{
    match order {
        [first, second] => *first == 1 && *second == 0,
        _ => false,
    }
}

/// Writes the bytes of elements of one size, with the two axes of their chunk swapped: each is an axis
/// of its own, so nothing is made of them first.
#[inline(always)]
fn put_swapped(
    alloc: Global,
    items: &mut [u8],
    bytes: &[u8],
    size: usize,
    sizes: &[u64],
    turn: Option<usize>,
) -> Result<(), AllocError>
    requires axes { length sizes.now ≡ 2 }
    requires positive { All (λ size. 0 < size) sizes.now }
    requires fits { product sizes.now < 2 ^ 64 }
    requires sized { 0 < size }
    requires turn { WholeComponents size turn }
    requires whole { length bytes.now ≡ product sizes.now * size }
    requires len { length items.old ≡ product sizes.now * size }
    ensures written { PutsItems items.old items.new result (turned_bytes turn (transposed_bytes size (1 ∷ 0 ∷ []) sizes.now bytes.now)) }
{
    let count = sizes[1] as usize;
    let rows = Axis {
        size: count,
        step: 1,
    };
    let columns = Axis {
        size: sizes[0] as usize,
        step: count,
    };
    put_moved(alloc, items, bytes, size, &[rows, columns], turn)
}

/// Writes the bytes of elements of one size, with the axes of their chunk in this order, whatever they
/// are.
#[inline(never)]
fn put_ordered(
    alloc: Global,
    items: &mut [u8],
    bytes: &[u8],
    size: usize,
    order: &[usize],
    sizes: &[u64],
    turn: Option<usize>,
) -> Result<(), AllocError>
    requires order { is_order order.now ≡ true }
    requires axes { length order.now ≡ length sizes.now }
    requires positive { All (λ size. 0 < size) sizes.now }
    requires fits { product sizes.now < 2 ^ 64 }
    requires sized { 0 < size }
    requires turn { WholeComponents size turn }
    requires whole { length bytes.now ≡ product sizes.now * size }
    requires len { length items.old ≡ product sizes.now * size }
    ensures written { PutsItems items.old items.new result (turned_bytes turn (transposed_bytes size order.now sizes.now bytes.now)) }
{
    let count = sizes.len();
    if count <= FEW {
        let mut axes = [ONE; 10];
        let mut steps = [0; FEW];
        return put_in_order(
            alloc,
            items,
            bytes,
            size,
            order,
            sizes,
            turn,
            &mut axes,
            &mut steps[..count],
        );
    }
    let mut axes = vec![in alloc; ONE; count + 2]?;
    let mut steps = vec![in alloc; 0; count]?;
    put_in_order(
        alloc,
        items,
        bytes,
        size,
        order,
        sizes,
        turn,
        axes.as_mut_slice(),
        steps.as_mut_slice(),
    )
}

/// Writes the bytes of elements of one size, with the axes of their chunk in this order, their components
/// of `turn` bytes turned round. A chunk of one row is no matter of two axes: it stays as it is.
#[inline(always)]
pub(crate) fn put_transposed(
    alloc: Global,
    items: &mut [u8],
    bytes: &[u8],
    size: usize,
    order: &[usize],
    sizes: &[u64],
    turn: Option<usize>,
) -> Result<(), AllocError>
    requires order { is_order order.now ≡ true }
    requires axes { length order.now ≡ length sizes.now }
    requires positive { All (λ size. 0 < size) sizes.now }
    requires fits { product sizes.now < 2 ^ 64 }
    requires sized { 0 < size }
    requires turn { WholeComponents size turn }
    requires whole { length bytes.now ≡ product sizes.now * size }
    requires len { length items.old ≡ product sizes.now * size }
    ensures written { PutsItems items.old items.new result (turned_bytes turn (transposed_bytes size order.now sizes.now bytes.now)) }
{
    if swaps_two(order) && sizes[0] != 1 {
        return put_swapped(alloc, items, bytes, size, sizes, turn);
    }
    put_ordered(alloc, items, bytes, size, order, sizes, turn)
}

/// The elements of one size of a chunk with its axes in this order.
#[inline(always)]
pub(crate) fn transpose_fixed<'b>(
    alloc: Global,
    bytes: &[u8],
    size: usize,
    order: &[usize],
    sizes: &[u64],
) -> Result<ArrayBytes<'b>, CodecError>
    requires order { is_order order.now ≡ true }
    requires axes { length order.now ≡ length sizes.now }
    requires positive { All (λ size. 0 < size) sizes.now }
    requires fits { product sizes.now < 2 ^ 64 }
    requires sized { 0 < size }
    requires whole { length bytes.now ≡ product sizes.now * size }
    ensures exact { GivesValue result (Ok (fixed_of (transposed_bytes size order.now sizes.now bytes.now))) }
{
    let mut moved = vec![in alloc; 0; bytes.len()]?;
    put_transposed(alloc, &mut moved, bytes, size, order, sizes, None)?;
    Ok(ArrayBytes::new_flen(CowSlice::Owned(moved)))
}
