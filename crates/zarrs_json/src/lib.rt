//! What the line tool and the calls for C read and write as JSON: the header of a chunk, which is its
//! shape, the type of its elements, its fill value and the codecs that it goes through; data types,
//! elements, indexers and edits; the errors of lines; and the bytes-to-bytes codecs that a header
//! may name.
#![tactic(auto)]

mod containers;
mod data_types;
mod edits;
mod element;
mod element_lists;
mod header;
mod hex_lists;
mod indexers;
mod known_bytes_codec;
mod known_maker;
pub mod laws;
mod refusal;
mod shown;
mod trees;

pub use data_types::data_type;
pub use edits::{Edit, read_edit};
pub use element_lists::read_elements;
pub use header::{ChunkHeader, read_codecs, read_header};
pub use indexers::indexer;
pub use known_bytes_codec::KnownBytesCodec;
pub use known_maker::KnownMaker;
pub use refusal::Refusal;
pub use shown::ok_elements;
pub use trees::{Members, hex_bytes, numbers, object, ok_hex, tree};
pub use zarrs_metadata::member;
