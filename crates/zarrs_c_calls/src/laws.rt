//! A law of calls that read in part, over their definitions. The function does nothing; its contract is
//! the law.
ghost use Rattle.zarrs_c_calls.specs.Enough.{PlanIsEnough};

/// Pieces that have all bytes of the ranges that
/// [`zarrs_planned_ranges`](crate::zarrs_planned_ranges) returns are enough for
/// [`zarrs_read_pieces`](crate::zarrs_read_pieces): all bytes that a read plans to ask for are
/// among them.
pub fn plan_is_enough()
    ensures law { PlanIsEnough }
{}
