//! Lists of index tuples, in whichever form they are held.
ghost use Rattle.std.specs.Prelude.{◌≡◌, ◌==◌, ◌<◌, [], ℕ, List, get_or, length};
ghost use Rattle.std.specs.List.{list_all};
ghost use Rattle.zarrs_chunk.specs.Numbering.{are_of_axes};
ghost use Rattle.zarrs_chunk.specs.Selection.{tuples_seen};

use crate::indices::ArrayIndices;

/// A list of index tuples.
pub trait TupleList {
    /// The tuples, in list order.
    ghost tuples: { Self → List (List ℕ) };

    /// How many tuples there are.
    fn count(&self) -> usize
        ensures count { result ≡ length (tuples self.now) };

    /// Whether each of the tuples has so many numbers.
    fn have_axes(&self, axes: usize) -> bool
        ensures value { result ≡ are_of_axes axes (tuples self.now) };

    /// The tuple that stands at this index of the list.
    fn tuple(&self, index: usize) -> &[u64]
        requires known { index < length (tuples self.now) }
        ensures value { result.now ≡ get_or (tuples self.now) index [] };
}

fn all_have(axes: usize, tuples: &[ArrayIndices]) -> bool
    ensures value { result ≡ list_all (λ tuple. length tuple.items == axes) tuples.now }
{
    tuples.iter().all(|tuple| tuple.len() == axes)
}

impl TupleList for Vec<ArrayIndices> {
    ghost tuples = { λ list. tuples_seen list.items };

    fn count(&self) -> usize {
        self.len()
    }

    fn have_axes(&self, axes: usize) -> bool {
        all_have(axes, self)
    }

    fn tuple(&self, index: usize) -> &[u64] {
        self[index].as_slice()
    }
}
