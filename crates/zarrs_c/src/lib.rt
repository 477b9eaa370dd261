//! The library's calls as C calls them: each is the call of the same name in `zarrs_c_calls`, or of arrays in
//! `zarrs_array_calls`, with its contract. `include/zarrs_codecs.h` declares them, and says what C has to keep.
#![tactic(auto)]

mod array_parts;
mod array_plan;
mod chain;
mod check;
mod decode;
mod edit;
mod encode;
mod error_name;
mod lacking;
mod planned_ranges;
mod read;
mod read_many;
mod read_pieces;
mod reencode;
mod representation;
mod write;

pub use array_parts::{zarrs_part_put, zarrs_part_take};
pub use array_plan::zarrs_array_plan;
pub use chain::{zarrs_chain_free, zarrs_chain_new, zarrs_chain_share};
pub use check::zarrs_check;
pub use decode::{zarrs_chain_decode, zarrs_decode};
pub use edit::{zarrs_chain_edit, zarrs_edit};
pub use encode::{zarrs_chain_encode, zarrs_encode};
pub use error_name::zarrs_error_name;
pub use lacking::{zarrs_chain_lacking, zarrs_lacking};
pub use planned_ranges::{zarrs_chain_planned_ranges, zarrs_planned_ranges};
pub use read::{zarrs_chain_read, zarrs_read};
pub use read_many::{zarrs_chain_read_many, zarrs_read_many};
pub use read_pieces::{zarrs_chain_read_pieces, zarrs_read_pieces};
pub use reencode::{zarrs_chain_reencode, zarrs_reencode};
pub use representation::{zarrs_chain_representation, zarrs_representation};
pub use write::{zarrs_chain_write, zarrs_write};
