//! What chains of codecs are made of: the stages of array-to-array codecs and of bytes-to-bytes
//! codecs, the parts of the values of `vlen` and `optional`, and the configurations of these and of
//! `sharding_indexed`.
//!
//! The definitions of chains stand here, over plain data, and the [`laws`] that hold of them. The codecs
//! themselves, with chains inside, are those of `zarrs_chain`.
#![tactic(auto)]

pub mod array_stages;
pub mod arrays_into;
pub mod bytes_stages;
pub mod codec_name;
pub mod laws;
pub mod machine_bytes;
pub mod optional;
pub mod sharding;
pub mod vlen;
