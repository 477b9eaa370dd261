//! What all codecs share: the traits of codecs, of coders in part and of makers of bytes-to-bytes
//! codecs; how long encoded bytes are; what can be done in part; storage handles and ranges of their
//! bytes; and two bytes-to-bytes codecs as samples.
//!
//! A **value** is the encoded chunk that a store keeps under a key: a list of bytes. A storage handle
//! keeps one value, or none. A coder that reads a chunk in part does so over such a handle, a
//! [`BytesPartialDecoderTraits`], and one that writes over a [`BytesPartialEncoderTraits`].
//! [`MemoryHandle`] is one whose value is in memory, and [`testing`] has some that fail, and one that
//! keeps a record of its calls.
#![tactic(auto)]

mod array_partial_decoder_traits;
mod array_partial_encoder_traits;
mod array_to_array_codec_traits;
mod array_to_bytes_codec_traits;
mod byte_pieces;
mod byte_range;
mod bytes_codec_maker;
mod bytes_partial_decoder_traits;
mod bytes_partial_encoder_traits;
mod bytes_representation;
mod bytes_to_bytes_codec_traits;
mod capabilities;
mod codec_traits;
mod machine_bytes;
mod memory_handle;
mod range_reads;
mod refused;
mod sample_bytes_codec;
mod sample_maker;
pub mod testing;

pub use array_partial_decoder_traits::ArrayPartialDecoderTraits;
pub use array_partial_encoder_traits::ArrayPartialEncoderTraits;
pub use array_to_array_codec_traits::ArrayToArrayCodecTraits;
pub use array_to_bytes_codec_traits::ArrayToBytesCodecTraits;
#[doc(hidden)]
pub use byte_pieces::{check_pieces, checked_end, furthest_end_of, write_pieces};
pub use byte_range::ByteRange;
pub use bytes_codec_maker::BytesCodecMaker;
pub use bytes_partial_decoder_traits::BytesPartialDecoderTraits;
pub use bytes_partial_encoder_traits::BytesPartialEncoderTraits;
pub use bytes_representation::BytesRepresentation;
pub use bytes_to_bytes_codec_traits::BytesToBytesCodecTraits;
pub use capabilities::{PartialDecoderCapability, PartialEncoderCapability};
pub use codec_traits::{ArrayCodecTraits, CodecTraits};
#[doc(hidden)]
pub use machine_bytes::{bytes_are, fixed_are_bytes};
pub use memory_handle::MemoryHandle;
#[doc(hidden)]
pub use range_reads::{append_piece, gather, room_for};
pub use refused::Refused;
pub use sample_bytes_codec::SampleBytesCodec;
pub use sample_maker::SampleMaker;
pub use zarrs_chunk::{CodecError, CodecName, StorageError};
