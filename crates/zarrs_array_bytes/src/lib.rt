//! Containers of a chunk's elements: of one size, of any length, or under masks.
//!
//! The elements of a container are read by a data type, in row-major order.
#![tactic(auto)]

mod append;
mod array_bytes;
mod array_bytes_decode_into_target;
mod array_bytes_fixed_view;
mod array_bytes_offsets;
mod array_bytes_raw;
mod byte_order;
mod extract;
mod fill;
mod gather;
pub mod laws;
mod masked_bytes;
mod present;
mod repeat;
mod runs;
mod sources;
mod splice;
mod update;
mod validate;
mod write;

pub use append::append_elements;
pub use array_bytes::ArrayBytes;
pub use array_bytes_decode_into_target::ArrayBytesDecodeIntoTarget;
pub use array_bytes_fixed_view::ArrayBytesFixedView;
pub use array_bytes_offsets::ArrayBytesOffsets;
pub use array_bytes_raw::ArrayBytesRaw;
pub use byte_order::{hold_turned, turn, turn_in_place};
pub use present::count_present;
pub use repeat::append_copies;
pub use update::{update_array_bytes, update_runs};
