//! The codec `crc32c`: checksums that are known elsewhere, and the codec as any bytes-to-bytes codec is
//! called.
mod codec;
mod metadata;
mod vectors;
