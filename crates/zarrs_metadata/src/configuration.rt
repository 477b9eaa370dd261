//! The configurations of codecs, read from the members of a JSON object and written as them, a module
//! for each codec.
//!
//! Keys that a codec doesn't have are passed over. A number that is a float, at any depth and under
//! any key, is rejected.
pub mod bytes;
pub mod codecs;
pub mod optional;
pub mod packbits;
pub mod reshape;
pub mod sharding;
pub mod squeeze;
pub mod transpose;
pub mod vlen;
