//! The types of a chunk's elements, and fill values.
//!
//! In memory an element is its components in order, each of whole bytes, the lowest byte first
//! (Zarr v3 core specification, "Data types"; zarr-extensions for the sub-byte, string, bytes and
//! optional types).
#![tactic(auto)]

mod components;
mod data_type;
mod endianness;
mod fill_value;

pub use components::{Components, HasComponents};
pub use data_type::DataType;
pub use endianness::Endianness;
pub use fill_value::FillValue;
