//! Tiles of elements of 1, 2, 4 or 8 bytes, turned in registers. A row of a tile is a vector of sixteen
//! bytes, and a tile has as many rows as a row has elements.
ghost use Rattle.std.specs.Prelude.{◌≡◌, ◌+◌, ◌*◌, ◌/◌, ◌<◌, ◌≤◌, ◌++◌, map, take, drop, length};
ghost use Rattle.zarrs_array_to_array.specs.Axes.{stretch, RowInside};
ghost use Rattle.zarrs_array_to_array.specs.Strides.{row};
ghost use Rattle.zarrs_array_to_array.specs.Tiles.{AreVectors, HasTiles, interleaved, columns, turned_rows, with_vectors};

use std::simd::prelude::*;

/// The first eight bytes of one and of the other, in turn.
#[inline(always)]
fn first_ones(one: u8x16, other: u8x16) -> u8x16
    ensures value { result ≡ interleaved 1 0 8 one other }
{
    one.shuffle(
        other,
        [0, 16, 1, 17, 2, 18, 3, 19, 4, 20, 5, 21, 6, 22, 7, 23],
    )
}

/// The last eight bytes of one and of the other, in turn.
#[inline(always)]
fn last_ones(one: u8x16, other: u8x16) -> u8x16
    ensures value { result ≡ interleaved 1 8 8 one other }
{
    one.shuffle(
        other,
        [8, 24, 9, 25, 10, 26, 11, 27, 12, 28, 13, 29, 14, 30, 15, 31],
    )
}

/// The first four pairs of bytes of one and of the other, in turn.
#[inline(always)]
fn first_twos(one: u8x16, other: u8x16) -> u8x16
    ensures value { result ≡ interleaved 2 0 4 one other }
{
    one.shuffle(
        other,
        [0, 1, 16, 17, 2, 3, 18, 19, 4, 5, 20, 21, 6, 7, 22, 23],
    )
}

/// The last four pairs of bytes of one and of the other, in turn.
#[inline(always)]
fn last_twos(one: u8x16, other: u8x16) -> u8x16
    ensures value { result ≡ interleaved 2 4 4 one other }
{
    one.shuffle(
        other,
        [8, 9, 24, 25, 10, 11, 26, 27, 12, 13, 28, 29, 14, 15, 30, 31],
    )
}

/// The first two groups of four bytes of one and of the other, in turn.
#[inline(always)]
fn first_fours(one: u8x16, other: u8x16) -> u8x16
    ensures value { result ≡ interleaved 4 0 2 one other }
{
    one.shuffle(
        other,
        [0, 1, 2, 3, 16, 17, 18, 19, 4, 5, 6, 7, 20, 21, 22, 23],
    )
}

/// The last two groups of four bytes of one and of the other, in turn.
#[inline(always)]
fn last_fours(one: u8x16, other: u8x16) -> u8x16
    ensures value { result ≡ interleaved 4 2 2 one other }
{
    one.shuffle(
        other,
        [8, 9, 10, 11, 24, 25, 26, 27, 12, 13, 14, 15, 28, 29, 30, 31],
    )
}

/// The first halves of one and of the other.
#[inline(always)]
fn first_eights(one: u8x16, other: u8x16) -> u8x16
    ensures value { result ≡ interleaved 8 0 1 one other }
{
    one.shuffle(
        other,
        [0, 1, 2, 3, 4, 5, 6, 7, 16, 17, 18, 19, 20, 21, 22, 23],
    )
}

/// The last halves of one and of the other.
#[inline(always)]
fn last_eights(one: u8x16, other: u8x16) -> u8x16
    ensures value { result ≡ interleaved 8 1 1 one other }
{
    one.shuffle(
        other,
        [8, 9, 10, 11, 12, 13, 14, 15, 24, 25, 26, 27, 28, 29, 30, 31],
    )
}

/// A tile of two by two elements of eight bytes, turned: its columns.
#[inline(always)]
fn turned_eights(rows: [u8x16; 2]) -> [u8x16; 2]
    ensures value { result ≡ columns 8 2 rows }
{
    [
        first_eights(rows[0], rows[1]),
        last_eights(rows[0], rows[1]),
    ]
}

/// A tile of four by four elements of four bytes, turned: its columns. The elements of two rows, in turn,
/// are rows of pairs of elements.
#[inline(always)]
fn turned_fours(rows: [u8x16; 4]) -> [u8x16; 4]
    requires whole { AreVectors rows }
    ensures value { result ≡ columns 4 4 rows }
{
    let front = turned_eights([first_fours(rows[0], rows[1]), first_fours(rows[2], rows[3])]);
    let back = turned_eights([last_fours(rows[0], rows[1]), last_fours(rows[2], rows[3])]);
    [front[0], front[1], back[0], back[1]]
}

/// A tile of eight by eight elements of two bytes, turned: its columns, by the same step.
#[inline(always)]
fn turned_twos(rows: [u8x16; 8]) -> [u8x16; 8]
    requires whole { AreVectors rows }
    ensures value { result ≡ columns 2 8 rows }
{
    let front = turned_fours([
        first_twos(rows[0], rows[1]),
        first_twos(rows[2], rows[3]),
        first_twos(rows[4], rows[5]),
        first_twos(rows[6], rows[7]),
    ]);
    let back = turned_fours([
        last_twos(rows[0], rows[1]),
        last_twos(rows[2], rows[3]),
        last_twos(rows[4], rows[5]),
        last_twos(rows[6], rows[7]),
    ]);
    [
        front[0], front[1], front[2], front[3], back[0], back[1], back[2], back[3],
    ]
}

/// A tile of sixteen by sixteen bytes, turned: its columns, by the same step.
#[inline(always)]
fn turned_ones(rows: [u8x16; 16]) -> [u8x16; 16]
    requires whole { AreVectors rows }
    ensures value { result ≡ columns 1 16 rows }
{
    let front = turned_twos([
        first_ones(rows[0], rows[1]),
        first_ones(rows[2], rows[3]),
        first_ones(rows[4], rows[5]),
        first_ones(rows[6], rows[7]),
        first_ones(rows[8], rows[9]),
        first_ones(rows[10], rows[11]),
        first_ones(rows[12], rows[13]),
        first_ones(rows[14], rows[15]),
    ]);
    let back = turned_twos([
        last_ones(rows[0], rows[1]),
        last_ones(rows[2], rows[3]),
        last_ones(rows[4], rows[5]),
        last_ones(rows[6], rows[7]),
        last_ones(rows[8], rows[9]),
        last_ones(rows[10], rows[11]),
        last_ones(rows[12], rows[13]),
        last_ones(rows[14], rows[15]),
    ]);
    [
        front[0], front[1], front[2], front[3], front[4], front[5], front[6], front[7], back[0],
        back[1], back[2], back[3], back[4], back[5], back[6], back[7],
    ]
}

/// Sixteen bytes from an element on.
#[inline(always)]
fn sixteen_at(bytes: &[u8], size: usize, place: usize) -> u8x16
    requires inside { place * size + 16 ≤ length bytes.now }
    ensures value { result ≡ stretch 16 size bytes.now place }
{
    let from = place * size;
    u8x16::from_slice(&bytes[from..from + 16])
}

/// The rows of a tile: sixteen bytes from each of so many elements on, which stand a step apart.
#[inline(always)]
fn tile_at<const N: usize>(bytes: &[u8], size: usize, front: usize, step: usize) -> [u8x16; N]
    requires sized { 0 < size }
    requires inside { RowInside 16 size front step N bytes.now }
    ensures value { result ≡ map (stretch 16 size bytes.now) (row front step N) }
{
    let mut rows = [u8x16::splat(0); N];
    for index in 0..N {
        rows[index] = sixteen_at(bytes, size, front + index * step);
    }
    rows
}

/// Writes sixteen bytes behind so many.
#[inline(always)]
fn put_sixteen(items: &mut [u8], at: usize, sixteen: u8x16)
    requires inside { at + 16 ≤ length items.old }
    ensures written { items.new ≡ take at items.old ++ (sixteen ++ drop 16 (drop at items.old)) }
{
    sixteen.copy_to_slice(&mut items[at..at + 16]);
}

/// Writes the rows of a tile into rows of `len` bytes, behind the first `at` bytes of each.
#[inline(always)]
fn put_tile<const N: usize>(items: &mut [u8], len: usize, at: usize, rows: [u8x16; N])
    requires whole { AreVectors rows }
    requires wide { at + 16 ≤ len }
    requires room { N * len ≤ length items.old }
    ensures written { items.new ≡ with_vectors len at rows.entry items.old }
{
    for index in 0..N {
        put_sixteen(items, index * len + at, rows[index]);
    }
}

/// Turns a tile of elements of one byte, as `turn_tile`.
#[inline(always)]
fn turn_ones(items: &mut [u8], len: usize, at: usize, bytes: &[u8], front: usize, step: usize)
    requires inside { RowInside 16 1 front step 16 bytes.now }
    requires wide { at + 16 ≤ len }
    requires room { 16 * len ≤ length items.old }
    ensures written { items.new ≡ with_vectors len at (turned_rows 1 front step 16 bytes.now) items.old }
{
    let rows = tile_at::<16>(bytes, 1, front, step);
    put_tile::<16>(items, len, at, turned_ones(rows));
}

/// Turns a tile of elements of two bytes, as `turn_tile`.
#[inline(always)]
fn turn_twos(items: &mut [u8], len: usize, at: usize, bytes: &[u8], front: usize, step: usize)
    requires inside { RowInside 16 2 front step 8 bytes.now }
    requires wide { at + 16 ≤ len }
    requires room { 8 * len ≤ length items.old }
    ensures written { items.new ≡ with_vectors len at (turned_rows 2 front step 8 bytes.now) items.old }
{
    let rows = tile_at::<8>(bytes, 2, front, step);
    put_tile::<8>(items, len, at, turned_twos(rows));
}

/// Turns a tile of elements of four bytes, as `turn_tile`.
#[inline(always)]
fn turn_fours(items: &mut [u8], len: usize, at: usize, bytes: &[u8], front: usize, step: usize)
    requires inside { RowInside 16 4 front step 4 bytes.now }
    requires wide { at + 16 ≤ len }
    requires room { 4 * len ≤ length items.old }
    ensures written { items.new ≡ with_vectors len at (turned_rows 4 front step 4 bytes.now) items.old }
{
    let rows = tile_at::<4>(bytes, 4, front, step);
    put_tile::<4>(items, len, at, turned_fours(rows));
}

/// Turns a tile of elements of eight bytes, as `turn_tile`.
#[inline(always)]
fn turn_eights(items: &mut [u8], len: usize, at: usize, bytes: &[u8], front: usize, step: usize)
    requires inside { RowInside 16 8 front step 2 bytes.now }
    requires wide { at + 16 ≤ len }
    requires room { 2 * len ≤ length items.old }
    ensures written { items.new ≡ with_vectors len at (turned_rows 8 front step 2 bytes.now) items.old }
{
    let rows = tile_at::<2>(bytes, 8, front, step);
    put_tile::<2>(items, len, at, turned_eights(rows));
}

/// Turns a tile: the elements of as many rows as a vector has elements, which begin one behind another,
/// and as many of each. They are written into rows of `len` bytes, behind the first `at` bytes of each.
#[inline(always)]
pub(crate) fn turn_tile(
    items: &mut [u8],
    len: usize,
    at: usize,
    bytes: &[u8],
    size: usize,
    front: usize,
    step: usize,
)
    requires tiles { HasTiles size }
    requires inside { RowInside 16 size front step (16 / size) bytes.now }
    requires wide { at + 16 ≤ len }
    requires room { 16 / size * len ≤ length items.old }
    ensures written { items.new ≡ with_vectors len at (turned_rows size front step (16 / size) bytes.now) items.old }
{
    match size {
        1 => turn_ones(items, len, at, bytes, front, step),
        2 => turn_twos(items, len, at, bytes, front, step),
        4 => turn_fours(items, len, at, bytes, front, step),
        _ => turn_eights(items, len, at, bytes, front, step),
    }
}
