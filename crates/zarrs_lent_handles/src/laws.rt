//! Laws of reads over pieces, and in rounds. The functions do nothing; their contracts are the laws.
ghost use Rattle.zarrs_lent_handles.specs.Elsewhere.{EachHasPieces, ValuesHavePieces};
ghost use Rattle.zarrs_lent_handles.specs.Rounds.{RoundIsEnough, RoundsEnd};

/// Each value that has the pieces is that of a [`PiecesHandle`](crate::PiecesHandle) with its own
/// bytes elsewhere: so what is proved over a handle with any bytes elsewhere
/// ([`Elsewhere`](crate::Elsewhere)) holds of each of these values.
pub fn each_has_pieces()
    ensures law { EachHasPieces }
{}

/// And the value of a handle over pieces has them, whichever bytes stand elsewhere.
pub fn values_have_pieces()
    ensures law { ValuesHavePieces }
{}

/// Over pieces that have besides what was lacking, the read that lacked it is answered, as
/// [`PiecesHandle::lacking`](crate::PiecesHandle::lacking) names all that the read asked for.
pub fn a_round_is_enough()
    ensures law { RoundIsEnough }
{}

/// A caller who gets what is lacking, and reads again, comes to an end: each round has a byte more,
/// so there are at most as many as the value has bytes.
pub fn rounds_end()
    ensures law { RoundsEnd }
{}
