//! Laws over the definitions alone: each function's contract is one. They are of all chains, those
//! with chains inside too: the laws of chains, and below them those of re-encoding.
ghost use Rattle.zarrs_codec.specs.BytesToBytesCodec.{BytesCodecs};
ghost use Rattle.zarrs_chain.specs.ReencodeLaws.{WrittenIsCanonical, ReencodedIsWritten, ReencodedIsCanonical, ReencodedTwice, ReencodedBack};

pub use zarrs_chain_meaning::laws::{
    chains_are_made_again, chains_are_made_alike, normal_moved, normal_twice, normal_updated,
    stands_for_one, stands_is_answered, value_is_written, written_alike, written_keeps,
    written_once, written_stands,
};

/// What is written for a chunk is the canonical value of the chunk's normal form: it stands for the
/// normal form, and is written for it.
pub fn written_is_canonical<B>()
    ensures law { (f : BytesCodecs B) → WrittenIsCanonical f }
{}

/// A value that stands for a chunk is re-encoded, into any chain, as exactly what is written for
/// the chunk.
pub fn reencoded_is_written<B, C>()
    ensures law { (f : BytesCodecs B) (g : BytesCodecs C) → ReencodedIsWritten f g }
{}

/// Into its own chain a value is re-encoded as the canonical value of its chunk's normal form.
pub fn reencoded_is_canonical<B>()
    ensures law { (f : BytesCodecs B) → ReencodedIsCanonical f }
{}

/// Re-encoding into the same chain twice gives what once gives.
pub fn reencoded_twice<B>()
    ensures law { (f : BytesCodecs B) → ReencodedTwice f }
{}

/// From a canonical value into a chain whose normal form keeps the value's chunk, and back, gives
/// the value.
pub fn reencoded_back<B, C>()
    ensures law { (f : BytesCodecs B) (g : BytesCodecs C) → ReencodedBack f g }
{}
