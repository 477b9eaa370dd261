//! Handles on bytes that a caller has in memory and lends: the whole value, or pieces of it; and on
//! a span of what another handle keeps.
//!
//! [`LentHandle`] is a handle on a value, or on none. [`PiecesHandle`] is one on a value of which
//! pieces alone are at hand, as those that were fetched for a read: a read of their bytes never fails,
//! and a read of any other byte does, so no answer rests on a byte that isn't there: which bytes stand
//! there is free ([`Elsewhere`]), and what is proved whichever they are holds of each value that has the
//! pieces. The handle then names the ranges that are lacking, for a caller who gets them and reads
//! again. [`join_ranges`] makes of the ranges that a read asks for those whose bytes are such pieces.
//! [`SpanHandle`] is a handle on a span of another handle's value, through which a part of a value is
//! read as a value.
#![tactic(auto)]

mod ahead_handle;
mod elsewhere;
mod joined;
mod lacking;
pub mod laws;
mod lent_handle;
mod piece;
mod pieces_handle;
mod span_handle;

pub use ahead_handle::{AheadHandle, ReadAheadTraits};
pub use elsewhere::Elsewhere;
pub use joined::join_ranges;
pub use lent_handle::LentHandle;
pub use piece::Piece;
pub use pieces_handle::PiecesHandle;
pub use span_handle::SpanHandle;
