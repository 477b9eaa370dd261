//! The runs of a region that makes few, which take no memory.
ghost use Rattle.std.specs.Prelude.{◌≡◌, ◌<◌, ◌≤◌, ◌^◌, ◌+◌, ◌*◌, ◌∷◌, [], true, length, map, nat_le, All};
ghost use Rattle.std.specs.List.{range_with_len};
ghost use Rattle.arrayvec.specs.ArrayVec.{array_vec_len};
ghost use Rattle.zarrs_chunk.specs.ChunkShape.{product};
ghost use Rattle.zarrs_chunk.specs.Rows.{AreBoxRuns};
ghost use Rattle.zarrs_chunk.specs.Tuples.{is_box_inside};
ghost use Rattle.zarrs_array_to_array.specs.ArrayToArrayCodec.{transpose};
ghost use Rattle.zarrs_array_to_array.specs.Mapping.{mapping_of};
ghost use Rattle.zarrs_array_to_array.specs.Orders.{permuted};
ghost use Rattle.zarrs_bytes.specs.ReadingCalls.{consecutive_runs};
ghost use Rattle.zarrs_array_regions.specs.FewRuns.{PutsRows, HasRegionRuns, TakesFew, region_run_count, has_few_runs};
ghost use Rattle.zarrs_array_regions.specs.OrderedRuns.{fronts_over, ordered_places, AreAxes, HasRoom};
ghost use Rattle.zarrs_array_regions.specs.Windows.{TakesRegion};

use crate::ordered_runs::{count_elements, last_row, outer_axes};
use crate::runs::{FEW, few_axes};
use arrayvec::ArrayVec;
use zarrs_array_to_array::{ArrayToArrayCodec, TransposeCodec};
use zarrs_chunk::{ArraySubset, ChunkShape, Row};

/// Runs of a region that makes few, each a start and a length. They lie in the value itself. Room for
/// so many is cleared by plain stores, and room for one more by a call.
pub type FewRuns = ArrayVec<(u64, u64), 15>;

/// Puts the rows behind so many fronts behind the runs, one after another, where there is room for all of
/// them; returns whether there is.
#[inline(always)]
fn put_rows(out: &mut FewRuns, first: u64, count: u64, row: Row) -> bool
    requires room { (first + count) * row.step < 2 ^ 64 }
    requires start { row.start ≤ row.step }
    requires step { 0 < row.step }
    ensures appended { PutsRows row (range_with_len first count) out.old out.new result }
    ensures count { result ≡ nat_le (array_vec_len out.old + count) 15 }
{
    if count > out.remaining_capacity() as u64 {
        return false;
    }
    for index in 0..count {
        out.push(((first + index) * row.step + row.start, row.len));
    }
    true
}

/// The same of the rows of the region behind a front, over these axes.
fn put_fronts(
    out: &mut FewRuns,
    order: &[usize],
    sizes: &[u64],
    starts: &[u64],
    lengths: &[u64],
    front: u64,
    row: Row,
) -> bool
    requires axes { AreAxes order.now sizes.now starts.now lengths.now }
    requires room { HasRoom front order.now sizes.now row }
    requires len { array_vec_len out.old ≤ 15 }
    ensures appended { PutsRows row (fronts_over order.now sizes.now
        starts.now lengths.now (front ∷ [])) out.old out.new result }
    ensures count { result ≡ nat_le (array_vec_len out.old + length (fronts_over order.now sizes.now
        starts.now lengths.now (front ∷ []))) 15 }
{
    match order {
        [] => put_rows(out, front, 1, row),
        [axis, rest @ ..] => {
            let first = front * sizes[*axis] + starts[*axis];
            let count = lengths[*axis];
            if rest.is_empty() {
                return put_rows(out, first, count, row);
            }
            for index in 0..count {
                if !put_fronts(out, rest, sizes, starts, lengths, first + index, row) {
                    return false;
                }
            }
            true
        }
    }
}

/// The runs of a region of a chunk of these sizes, with the axes of both in this order, as
/// [`ordered_runs`](crate::ordered_runs::ordered_runs) returns them, where there is room for all of
/// them; returns whether there is.
#[inline(always)]
fn put_ordered(
    out: &mut FewRuns,
    order: &[usize],
    sizes: &[u64],
    starts: &[u64],
    lengths: &[u64],
) -> bool
    requires empty { out.old.items ≡ [] }
    requires axes { AreAxes order.now sizes.now starts.now lengths.now }
    requires filled { All (λ len. 0 < len) lengths.now }
    requires fits { product (permuted order.now sizes.now) < 2 ^ 64 }
    ensures places { result ≡ true → AreBoxRuns (permuted order.now sizes.now)
        (permuted order.now starts.now) (permuted order.now lengths.now) out.new.items }
    ensures count { result ≡ nat_le (length (consecutive_runs (ordered_places order.now
        sizes.now starts.now lengths.now))) 15 }
{
    let axes = outer_axes(order, sizes, starts, lengths);
    if axes == 0 {
        out.push((0, count_elements(order, sizes)));
        return true;
    }
    let row = last_row(order, sizes, starts, lengths, axes);
    if axes == 2 {
        // With one axis before the last one there is one row at each of its places, and no call.
        let axis = order[0];
        return put_rows(out, starts[axis], lengths[axis], row);
    }
    put_fronts(out, &order[..axes - 1], sizes, starts, lengths, 0, row)
}

/// The runs of a region that has elements where transposition takes it.
#[inline(always)]
fn put_transposed(
    out: &mut FewRuns,
    codec: &TransposeCodec,
    shape: &ChunkShape,
    region: &ArraySubset,
) -> bool
    requires empty { out.old.items ≡ [] }
    requires region { TakesRegion (transpose codec.now ∷ []) shape.now region.now }
    requires filled { 0 < product region.now.lengths }
    ensures runs { result ≡ true
        → HasRegionRuns (transpose codec.now ∷ []) shape.now region.now out.new.items }
    ensures count { result
        ≡ nat_le (region_run_count (transpose codec.now ∷ []) shape.now region.now) 15 }
{
    put_ordered(
        out,
        codec.order(),
        shape.as_slice(),
        region.start(),
        region.shape(),
    )
}

/// The runs of a region that has elements, of a chunk of few axes. They are those of the order that
/// leaves each axis where it is.
#[inline(always)]
fn put_own(out: &mut FewRuns, shape: &ChunkShape, region: &ArraySubset) -> bool
    requires empty { out.old.items ≡ [] }
    requires few { length shape.now ≤ 8 }
    requires inside { is_box_inside shape.now region.now.starts region.now.lengths ≡ true }
    requires counted { product shape.now < 2 ^ 64 }
    requires filled { 0 < product region.now.lengths }
    ensures runs { result ≡ true → HasRegionRuns [] shape.now region.now out.new.items }
    ensures count { result ≡ nat_le (region_run_count [] shape.now region.now) 15 }
{
    let axes: [usize; FEW] = [0, 1, 2, 3, 4, 5, 6, 7];
    let sizes = shape.as_slice();
    put_ordered(
        out,
        &axes[..sizes.len()],
        sizes,
        region.start(),
        region.shape(),
    )
}

/// Puts the runs of a region where the codecs take it, as [`region_runs`](crate::region_runs) returns
/// them, where the codecs are none or one transposition of few axes, and the runs at most fifteen;
/// returns whether they are put. The codecs accept the chunk, the region has elements, and lies inside.
#[inline(always)]
pub fn few_region_runs(
    out: &mut FewRuns,
    codecs: &[ArrayToArrayCodec],
    shape: &ChunkShape,
    region: &ArraySubset,
) -> bool
    requires empty { out.old.items ≡ [] }
    requires region { TakesRegion (map mapping_of codecs.now) shape.now region.now }
    requires filled { 0 < product region.now.lengths }
    ensures value { result ≡ has_few_runs (map mapping_of codecs.now) shape.now region.now }
    ensures few { result ≡ true → TakesFew (map mapping_of codecs.now) shape.now region.now }
    ensures runs { result ≡ true
        → HasRegionRuns (map mapping_of codecs.now) shape.now region.now out.new.items }
{
    if codecs.is_empty() && shape.as_slice().len() <= FEW {
        return put_own(out, shape, region);
    }
    match few_axes(codecs) {
        Some(codec) => put_transposed(out, codec, shape, region),
        None => false,
    }
}
