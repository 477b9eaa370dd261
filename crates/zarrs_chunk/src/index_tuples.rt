//! Index tuples whose numbers stand one after another.
ghost use Rattle.std.specs.Prelude.{◌≡◌, ◌≤◌, ◌+◌, ◌*◌, ◌&&◌, length, take, drop};
ghost use Rattle.std.specs.Bool.{nat_eq};
ghost use Rattle.std.specs.Cmp.Lexicographic.{pointwise};
ghost use Rattle.std.specs.Cmp.Rules.{comparing};
ghost use Rattle.std.proofs.Common.{rules};
ghost use Rattle.zarrs_chunk.specs.IndexTuples.{tuples_lent, tuples_of_numbers};

use crate::tuple_list::TupleList;
use std::marker::Model;

/// A list of index tuples, lent as all their numbers: those of the first tuple, then those of the
/// second, and so on. No vector is made for a tuple.
#[derive(Debug, Drop)]
pub struct IndexTuples<'a> {
    axes: usize,
    count: usize,
    numbers: &'a [u64],
}

impl<'a> Model for IndexTuples<'a> {
    ghost use Rattle.std.specs.Prelude.{◌≡◌, ◌*◌, length};
    ghost use Rattle.zarrs_chunk.specs.IndexTuples.{TupleNumbers};

    ghost Value = { TupleNumbers };

    ghost view = { λ tuples. record { axes = tuples.axes; count = tuples.count; numbers = tuples.numbers.now } };

    ghost invariant = { λ tuples. tuples.axes * tuples.count ≡ length tuples.numbers.now };
}

impl<'a> IndexTuples<'a> {
    /// So many tuples, `count`, of `axes` numbers each; or `None` where there aren't just so many
    /// numbers. Tuples of no number are as many as `count` says.
    ///
    /// ```
    /// // [1, 2, 3] and [4, 5, 6]
    /// let tuples = IndexTuples::new(3, 2, &[1, 2, 3, 4, 5, 6]);
    /// ```
    pub fn new(axes: usize, count: usize, numbers: &'a [u64]) -> Option<IndexTuples<'a>>
        ensures answer { result ≡ tuples_of_numbers axes count numbers.now }
    {
        if axes as u128 * count as u128 != numbers.len() as u128 {
            return None;
        }
        Some(IndexTuples {
            axes,
            count,
            numbers,
        })
    }

    /// The same tuples, lent again.
    pub fn clone(&self) -> IndexTuples<'a>
        ensures copy { result ≡ self.now }
    {
        IndexTuples {
            axes: self.axes,
            count: self.count,
            numbers: self.numbers,
        }
    }
}

/// So many numbers behind those of the tuples before.
fn row(axes: usize, numbers: &[u64], index: usize) -> &[u64]
    requires ends { index * axes + axes ≤ length numbers.now }
    ensures value { result.now ≡ take axes (drop (index * axes) numbers.now) }
{
    let rest = &numbers[index * axes..];
    &rest[..axes]
}

impl<'a> TupleList for IndexTuples<'a> {
    ghost tuples = { tuples_lent };

    fn count(&self) -> usize {
        self.count
    }

    fn have_axes(&self, axes: usize) -> bool {
        self.count == 0 || self.axes == axes
    }

    fn tuple(&self, index: usize) -> &[u64] {
        row(self.axes, self.numbers, index)
    }
}

impl<'a> PartialEq for IndexTuples<'a> {
    ghost eq = { λ one other. nat_eq one.axes other.axes && (nat_eq one.count other.count && pointwise nat_eq one.numbers other.numbers) };

    ghost laws = { Prim.search (comparing, rules) };

    fn eq(&self, other: &IndexTuples<'a>) -> bool {
        self.axes == other.axes && self.count == other.count && self.numbers == other.numbers
    }
}

impl<'a> Eq for IndexTuples<'a> {
    ghost laws = { Prim.search (comparing, rules) };
}
