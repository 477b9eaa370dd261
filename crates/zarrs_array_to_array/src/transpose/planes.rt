//! The elements of a chunk, written row by row and plane by plane where they belong.
ghost use Rattle.std.specs.Prelude.{◌≡◌, ℕ, ◌<◌, ◌≤◌, ◌+◌, ◌*◌, ◌^◌, length, ◌∷◌, []};
ghost use Rattle.zarrs_array_bytes.specs.Pieces.{pieces_at};
ghost use Rattle.zarrs_array_bytes.specs.Turned.{WholeComponents, turned_bytes};
ghost use Rattle.zarrs_array_to_array.specs.WrittenElements.{PutsItems};
ghost use Rattle.zarrs_array_to_array.specs.Axes.{reach, axes_places, plane_end, plane_places, tuples, PlaneInside, behind, stretches_at};
ghost use Rattle.zarrs_array_to_array.specs.Strides.{next_rows, row};
ghost use Rattle.zarrs_array_to_array.specs.Tiles.{HasTiles};

use crate::transpose::axis::Axis;
use crate::transpose::element_rows::{put_row, put_row_of};
use crate::transpose::near_rows::put_near_rows;
use std::alloc::{AllocError, Global};
use zarrs_array_bytes::turn_in_place;

/// How many bytes a row of a block has: two lines of memory, which are often brought together.
const BLOCK: usize = 128;

/// How many bytes stay in the nearest cache, so that blocks of them bring nothing.
const NEAR: usize = 16384;

/// Writes the elements of a plane, each of so many bytes, row by row.
#[inline(always)]
pub(crate) fn put_rows_of(
    items: &mut [u8],
    bytes: &[u8],
    size: usize,
    front: usize,
    rows: Axis,
    columns: Axis,
)
    requires sized { 0 < size }
    requires some { 0 < rows.size }
    requires len { length items.old ≡ rows.size * (columns.size * size) }
    requires starts { (r : ℕ) → r < rows.size → front + r * rows.step < 2 ^ 64 }
    requires inside { PlaneInside size front rows columns bytes.now }
    ensures written { items.new ≡ pieces_at size bytes.now (plane_places front rows columns) }
{
    let len = columns.size * size;
    for index in 0..rows.size {
        let start = index * len;
        put_row_of(
            &mut items[start..start + len],
            bytes,
            size,
            front + index * rows.step,
            columns,
            size,
        );
    }
}

/// Writes the elements of a plane, row by row, where elements of so many bytes have tiles. Rows that begin
/// one behind another are made tile by tile, if they are as long as a tile.
#[inline(always)]
fn put_tiled_rows(
    items: &mut [u8],
    bytes: &[u8],
    size: usize,
    front: usize,
    rows: Axis,
    columns: Axis,
)
    requires tiles { HasTiles size }
    requires some { 0 < rows.size }
    requires len { length items.old ≡ rows.size * (columns.size * size) }
    requires starts { (r : ℕ) → r < rows.size → front + r * rows.step < 2 ^ 64 }
    requires inside { PlaneInside size front rows columns bytes.now }
    ensures written { items.new ≡ pieces_at size bytes.now (plane_places front rows columns) }
{
    if rows.step == 1 && 16 / size <= columns.size {
        return put_near_rows(items, bytes, size, front, rows, columns);
    }
    put_rows_of(items, bytes, size, front, rows, columns)
}

/// Writes the elements of a plane, row by row. The sizes of most are constants here, and chosen once,
/// so that each element is a move or two, or a part of a tile.
fn put_rows(items: &mut [u8], bytes: &[u8], size: usize, front: usize, rows: Axis, columns: Axis)
    requires sized { 0 < size }
    requires some { 0 < rows.size }
    requires len { length items.old ≡ rows.size * (columns.size * size) }
    requires starts { (r : ℕ) → r < rows.size → front + r * rows.step < 2 ^ 64 }
    requires inside { PlaneInside size front rows columns bytes.now }
    ensures written { items.new ≡ pieces_at size bytes.now (plane_places front rows columns) }
{
    match size {
        1 => put_tiled_rows(items, bytes, 1, front, rows, columns),
        2 => put_tiled_rows(items, bytes, 2, front, rows, columns),
        4 => put_tiled_rows(items, bytes, 4, front, rows, columns),
        8 => put_tiled_rows(items, bytes, 8, front, rows, columns),
        16 => put_rows_of(items, bytes, 16, front, rows, columns),
        _ => put_rows_of(items, bytes, size, front, rows, columns),
    }
}

/// Writes the elements of a plane, its rows one after another. Elements that stand one behind
/// another are copied together.
fn put_plane(items: &mut [u8], bytes: &[u8], size: usize, front: usize, rows: Axis, columns: Axis)
    requires sized { 0 < size }
    requires some { 0 < rows.size }
    requires len { length items.old ≡ rows.size * (columns.size * size) }
    requires inside { plane_end front rows columns * size ≤ length bytes.now }
    ensures written { items.new ≡ pieces_at size bytes.now (plane_places front rows columns) }
{
    if columns.step == 1 {
        return put_row(items, bytes, size, front, rows, columns.size * size);
    }
    put_rows(items, bytes, size, front, rows, columns)
}

/// Writes the columns of a block, one after another: it has `count` rows of `width` elements.
fn put_columns(items: &mut [u8], block: &[u8], size: usize, count: usize, width: usize)
    requires sized { 0 < size }
    requires wide { 0 < width }
    requires whole { length block.now ≡ count * (width * size) }
    requires len { length items.old ≡ width * (count * size) }
    ensures written { items.new ≡ pieces_at size block.now (next_rows width count (row 0 1 width)) }
{
    let columns = Axis {
        size: width,
        step: 1,
    };
    let rows = Axis {
        size: count,
        step: width,
    };
    put_rows(items, block, size, 0, columns, rows)
}

/// Writes so many bytes from the element of each tuple over the axes on, the last axis fastest.
fn put_stretches(
    items: &mut [u8],
    bytes: &[u8],
    size: usize,
    front: usize,
    axes: &[Axis],
    len: usize,
)
    requires sized { 0 < size }
    requires axes { 1 ≤ length axes.now }
    requires some { 0 < tuples axes.now }
    requires len { length items.old ≡ tuples axes.now * len }
    requires inside { (front + reach axes.now) * size + len ≤ length bytes.now }
    ensures written { items.new ≡ stretches_at len size bytes.now (behind axes.now (front ∷ [])) }
{
    let first = axes[0];
    if axes.len() == 1 {
        return put_row(items, bytes, size, front, first, len);
    }
    let part = items.len() / first.size;
    for index in 0..first.size {
        let start = index * part;
        put_stretches(
            &mut items[start..start + part],
            bytes,
            size,
            front + index * first.step,
            &axes[1..],
            len,
        );
    }
}

/// Writes so many neighbouring columns, one after another: a column has the elements of all tuples
/// over the axes. The block that they are in is copied together first, row by row, so that each row
/// comes from memory once; components are turned round while they are near.
fn put_block(
    items: &mut [u8],
    block: &mut [u8],
    bytes: &[u8],
    size: usize,
    front: usize,
    axes: &[Axis],
    width: usize,
    turn: Option<usize>,
)
    requires sized { 0 < size }
    requires turn { WholeComponents size turn }
    requires axes { 1 ≤ length axes.now }
    requires some { 0 < tuples axes.now }
    requires wide { 0 < width }
    requires room { length block.old ≡ tuples axes.now * (width * size) }
    requires len { length items.old ≡ width * (tuples axes.now * size) }
    requires inside { (front + reach axes.now) * size + width * size ≤ length bytes.now }
    ensures written { items.new ≡ turned_bytes turn (pieces_at size bytes.now (behind axes.now (row front 1 width))) }
{
    let len = width * size;
    put_stretches(block, bytes, size, front, axes, len);
    let count = block.len() / len;
    put_columns(items, block, size, count, width);
    turn_in_place(items, turn);
}

/// How many neighbours along the first axis of a chunk of so many bytes a block takes: one where blocks
/// bring nothing.
fn block_width(size: usize, first: Axis, len: usize) -> usize
    requires sized { 0 < size }
{
    if first.step != 1 || len <= NEAR {
        return 1;
    }
    (BLOCK / size).min(first.size / 2)
}

/// How many bytes the blocks of a chunk of so many bytes have at most: none where there are no blocks.
fn block_room(size: usize, axes: &[Axis], len: usize) -> usize
    requires sized { 0 < size }
{
    let mut rest = len;
    for axis in axes {
        rest /= axis.size.max(1);
        let width = block_width(size, *axis, len);
        if width > 1 {
            return rest.saturating_mul(width);
        }
    }
    0
}

/// Writes `count` neighbouring columns, one after another, so many elements wide blocks at a time.
fn put_blocks(
    items: &mut [u8],
    block: &mut [u8],
    bytes: &[u8],
    size: usize,
    front: usize,
    axes: &[Axis],
    count: usize,
    wide: usize,
    turn: Option<usize>,
)
    requires sized { 0 < size }
    requires turn { WholeComponents size turn }
    requires axes { 1 ≤ length axes.now }
    requires some { 0 < tuples axes.now }
    requires wide { 0 < wide }
    requires counted { 0 < count }
    requires room { wide * (tuples axes.now * size) ≤ length block.old }
    requires len { length items.old ≡ count * (tuples axes.now * size) }
    requires inside { (front + reach axes.now + count) * size ≤ length bytes.now }
    ensures written { items.new ≡ turned_bytes turn (pieces_at size bytes.now (behind axes.now (row front 1 count))) }
{
    let column = items.len() / count;
    let mut done = 0;
    while done < count {
        let width = wide.min(count - done);
        let start = done * column;
        let len = width * column;
        put_block(
            &mut items[start..start + len],
            &mut block[..len],
            bytes,
            size,
            front + done,
            axes,
            width,
            turn,
        );
        done += width;
    }
}

/// Writes the elements of all tuples over the axes, plane by plane, their components turned round.
/// Where neighbours come along the first axis, they are turned block by block, whatever the axes behind
/// it are, as far as the room for a block is enough.
fn put_tuples(
    items: &mut [u8],
    block: &mut [u8],
    bytes: &[u8],
    size: usize,
    front: usize,
    axes: &[Axis],
    turn: Option<usize>,
)
    requires sized { 0 < size }
    requires turn { WholeComponents size turn }
    requires plane { 2 ≤ length axes.now }
    requires some { 0 < tuples axes.now }
    requires len { length items.old ≡ tuples axes.now * size }
    requires inside { (front + reach axes.now + 1) * size ≤ length bytes.now }
    ensures written { items.new ≡ turned_bytes turn (pieces_at size bytes.now (behind axes.now (front ∷ []))) }
{
    let first = axes[0];
    let part = items.len() / first.size;
    let wide = block_width(size, first, bytes.len());
    if first.step == 1 && wide > 1 && part <= block.len() / wide {
        let rest = &axes[1..];
        return put_blocks(
            items, block, bytes, size, front, rest, first.size, wide, turn,
        );
    }
    if axes.len() == 2 {
        put_plane(items, bytes, size, front, first, axes[1]);
        turn_in_place(items, turn);
        return;
    }
    for index in 0..first.size {
        let start = index * part;
        put_tuples(
            &mut items[start..start + part],
            block,
            bytes,
            size,
            front + index * first.step,
            &axes[1..],
            turn,
        );
    }
}

/// Writes the elements of all tuples over the axes, the last axis fastest, their components of `turn`
/// bytes turned round.
#[inline(always)]
pub(crate) fn put_moved(
    alloc: Global,
    items: &mut [u8],
    bytes: &[u8],
    size: usize,
    axes: &[Axis],
    turn: Option<usize>,
) -> Result<(), AllocError>
    requires sized { 0 < size }
    requires turn { WholeComponents size turn }
    requires plane { 2 ≤ length axes.now }
    requires some { 0 < tuples axes.now }
    requires len { length items.old ≡ tuples axes.now * size }
    requires inside { (reach axes.now + 1) * size ≤ length bytes.now }
    ensures written { PutsItems items.old items.new result (turned_bytes turn (pieces_at size bytes.now (axes_places axes.now))) }
{
    let mut block = vec![in alloc; 0; block_room(size, axes, bytes.len())]?;
    put_tuples(items, &mut block, bytes, size, 0, axes, turn);
    Ok(())
}
