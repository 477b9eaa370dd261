//! Which bytes stand where no piece is.
ghost use Rattle.std.specs.Prelude.{ℕ};
ghost use Rattle.zarrs_lent_handles.specs.Pieces.{zeros};

use std::marker::Brand;

/// Which byte stands at each number where no piece is, as the ghost member says. It is for proofs
/// alone: what is proved over a [`PiecesHandle`](crate::PiecesHandle) with any implementor holds of
/// each value that has the pieces, and no answer rests on a byte that isn't there.
pub trait Elsewhere {
    ghost elsewhere: { ℕ → ℕ };
}

impl Elsewhere for Brand {
    ghost elsewhere = { zeros };
}
