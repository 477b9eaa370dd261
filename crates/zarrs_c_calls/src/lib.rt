//! The library's calls for C: bytes, numbers and structs of numbers in and out, and a code for each
//! error. The static library `zarrs_c` exports them.
//!
//! Each call begins with a header, the JSON text of a chunk's `shape`, `data_type`, `fill_value`
//! and `codecs`, or with a chain that was made of one and is kept ([`zarrs_chain_new`]): both forms of
//! a call are one function of the header that was read. Elements cross in three buffers, masks,
//! offsets and bytes ([`Sizes`]), and a selection of them as numbers ([`zarrs_read`]). A call returns
//! 0 where all is done, 1 where a buffer is too short, and else the code of the first error; a call
//! that fails leaves the caller's buffers and counts as they were.
#![tactic(auto)]

mod buffer_handle;
mod calls;
mod cause;
mod chain;
mod check;
mod decode;
mod edit;
mod edits;
mod encode;
mod error_name;
mod fetched;
mod from_elements;
mod given;
mod lacking;
pub mod laws;
mod many_reads;
mod names;
mod one_write_handle;
mod part_reads;
mod part_writes;
mod plan;
mod planned_ranges;
mod read;
mod read_many;
mod read_pieces;
mod reencode;
mod representation;
mod rounds;
mod selection;
mod sizes;
mod tell;
mod tell_many;
mod write;
mod written;

pub use chain::{zarrs_chain_free, zarrs_chain_new, zarrs_chain_share};
pub use check::zarrs_check;
pub use decode::{zarrs_chain_decode, zarrs_decode};
pub use edit::{zarrs_chain_edit, zarrs_edit};
pub use encode::{zarrs_chain_encode, zarrs_encode};
pub use error_name::zarrs_error_name;
pub use lacking::{zarrs_chain_lacking, zarrs_lacking};
pub use planned_ranges::{zarrs_chain_planned_ranges, zarrs_planned_ranges};
pub use read::{zarrs_chain_read, zarrs_read};
pub use read_many::{zarrs_chain_read_many, zarrs_read_many};
pub use read_pieces::{zarrs_chain_read_pieces, zarrs_read_pieces};
pub use reencode::{zarrs_chain_reencode, zarrs_reencode};
pub use representation::{zarrs_chain_representation, zarrs_representation};
pub use sizes::{EditSize, SelectionSize, Sizes};
pub use write::{zarrs_chain_write, zarrs_write};
