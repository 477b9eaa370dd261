//! A bytes-to-bytes codec that is a table: pairs of decoded and of encoded bytes, which the caller
//! hands over. So a chain whose compressor isn't in this library is encoded and decoded by what the
//! compressor made of each value.
#![tactic(auto)]

mod copied_metadata;
pub mod laws;
mod pair;
mod pairs_codec;
mod pairs_maker;
mod pairs_table;
mod rows;

pub use pair::Pair;
pub use pairs_codec::PairsCodec;
pub use pairs_maker::PairsMaker;
pub use pairs_table::PairsTable;
