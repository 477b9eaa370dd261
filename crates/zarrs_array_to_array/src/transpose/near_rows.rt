//! Rows that begin one behind another: as many of them are made at a time as a vector of sixteen bytes
//! has elements.
ghost use Rattle.std.specs.Prelude.{◌≡◌, ℕ, ◌+◌, ◌*◌, ◌/◌, ◌^◌, ◌<◌, ◌≤◌, length};
ghost use Rattle.zarrs_array_bytes.specs.Pieces.{pieces_at};
ghost use Rattle.zarrs_array_to_array.specs.Axes.{stretches_at, plane_places, RowInside, PlaneInside};
ghost use Rattle.zarrs_array_to_array.specs.Strides.{next_rows, row};
ghost use Rattle.zarrs_array_to_array.specs.Tiles.{HasTiles};

use crate::transpose::axis::Axis;
use crate::transpose::planes::put_rows_of;
use crate::transpose::tiles::turn_tile;

/// Writes the elements of as many rows as a vector has elements, which begin one behind another, one row
/// after another. The last tile ends where the rows end: the elements that it has in common with the one
/// before it are written twice.
#[inline(always)]
fn put_group(items: &mut [u8], bytes: &[u8], size: usize, front: usize, columns: Axis)
    requires tiles { HasTiles size }
    requires wide { 16 / size ≤ columns.size }
    requires len { length items.old ≡ columns.size * 16 }
    requires inside { RowInside 16 size front columns.step columns.size bytes.now }
    ensures written { items.new ≡ stretches_at size size bytes.now
        (next_rows columns.step columns.size (row front 1 (16 / size))) }
{
    let group = 16 / size;
    let len = columns.size * size;
    let mut done = 0;
    while done < columns.size {
        let at = done.min(columns.size - group);
        let start = front + at * columns.step;
        turn_tile(items, len, at * size, bytes, size, start, columns.step);
        done = at + group;
    }
}

/// Writes the elements of so many rows, which begin one behind another, one row after another. The rows
/// are long enough for a tile.
#[inline(always)]
pub(crate) fn put_near_rows(
    items: &mut [u8],
    bytes: &[u8],
    size: usize,
    front: usize,
    rows: Axis,
    columns: Axis,
)
    requires tiles { HasTiles size }
    requires wide { 16 / size ≤ columns.size }
    requires near { rows.step ≡ 1 }
    requires some { 0 < rows.size }
    requires len { length items.old ≡ rows.size * (columns.size * size) }
    requires starts { (r : ℕ) → r < rows.size → front + r < 2 ^ 64 }
    requires inside { PlaneInside size front rows columns bytes.now }
    ensures written { items.new ≡ pieces_at size bytes.now (plane_places front rows columns) }
{
    let group = 16 / size;
    let len = columns.size * size;
    let mut done = 0;
    while group <= rows.size - done {
        let start = done * len;
        put_group(
            &mut items[start..start + group * len],
            bytes,
            size,
            front + done,
            columns,
        );
        done += group;
    }
    if done == rows.size {
        return;
    }
    let rest = Axis {
        size: rows.size - done,
        step: 1,
    };
    put_rows_of(
        &mut items[done * len..],
        bytes,
        size,
        front + done,
        rest,
        columns,
    )
}
