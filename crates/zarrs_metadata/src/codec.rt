//! What the configurations of codecs hold, a module for each codec.
pub mod packbits;
pub mod reshape;
pub mod sharding;
pub mod transpose;
pub mod vlen;
