//! The metadata of an array, the text `zarr.json`, read (Zarr v3 core specification, "Array metadata";
//! zarrs for its names).
//!
//! What is read is checked key by key, in one order, and the first error is returned, which names its
//! key. Attributes, and keys that Zarr doesn't know, are kept as they are. The chain of codecs isn't
//! made here: its metadata is kept, as `zarrs_metadata` reads it.
//!
//! No memory is taken by what sizes say: what is kept is no more than what the JSON lists.
#![tactic(auto)]

mod array_metadata_error;
mod array_metadata_v3;
mod chunks;
mod codecs;
mod kept_members;
pub mod laws;
mod needed;
mod others;
mod written;

pub use array_metadata_error::{ArrayKey, ArrayMetadataError, KeyName};
pub use array_metadata_v3::ArrayMetadataV3;
