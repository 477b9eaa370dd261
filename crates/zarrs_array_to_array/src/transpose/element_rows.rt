//! The elements of a row, written one behind another.
ghost use Rattle.std.specs.Prelude.{◌≡◌, ◌<◌, ◌*◌, length};
ghost use Rattle.zarrs_array_to_array.specs.Axes.{stretches_at, RowInside};
ghost use Rattle.zarrs_array_to_array.specs.Strides.{row};

use crate::transpose::axis::Axis;

/// Writes so many bytes from each element of a row on, one behind another.
#[inline(always)]
pub(crate) fn put_row_of(
    items: &mut [u8],
    bytes: &[u8],
    size: usize,
    front: usize,
    axis: Axis,
    len: usize,
)
    requires len { length items.old ≡ axis.size * len }
    requires sized { 0 < size }
    requires inside { RowInside len size front axis.step axis.size bytes.now }
    ensures written { items.new ≡ stretches_at len size bytes.now (row front axis.step axis.size) }
{
    for index in 0..axis.size {
        let start = index * len;
        let from = (front + index * axis.step) * size;
        items[start..start + len].copy_from_slice(&bytes[from..from + len]);
    }
}

/// Writes so many bytes from each element of a row on, one behind another. The lengths of most are
/// constants here, so that each is a move or two and no call to copy.
pub(crate) fn put_row(
    items: &mut [u8],
    bytes: &[u8],
    size: usize,
    front: usize,
    axis: Axis,
    len: usize,
)
    requires len { length items.old ≡ axis.size * len }
    requires sized { 0 < size }
    requires inside { RowInside len size front axis.step axis.size bytes.now }
    ensures written { items.new ≡ stretches_at len size bytes.now (row front axis.step axis.size) }
{
    match len {
        2 => put_row_of(items, bytes, size, front, axis, 2),
        4 => put_row_of(items, bytes, size, front, axis, 4),
        8 => put_row_of(items, bytes, size, front, axis, 8),
        16 => put_row_of(items, bytes, size, front, axis, 16),
        64 => put_row_of(items, bytes, size, front, axis, 64),
        128 => put_row_of(items, bytes, size, front, axis, 128),
        _ => put_row_of(items, bytes, size, front, axis, len),
    }
}
