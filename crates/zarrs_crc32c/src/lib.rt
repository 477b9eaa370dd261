//! The codec `crc32c`: a bytes-to-bytes codec that puts a checksum behind the bytes, and rejects
//! bytes whose checksum is another. It is the model that a codec of one's own is written by.
#![tactic(auto)]

mod checksum;
mod crc32c_codec;
mod crc32c_maker;
pub mod laws;
mod quotient;
mod table;

pub use checksum::checksum_of;
pub use crc32c_codec::{CRC32C, Crc32cCodec};
pub use crc32c_maker::Crc32cMaker;
