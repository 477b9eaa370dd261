//! Shapes of chunks, selections of their elements, and the one error of all layers.
//!
//! A chunk's elements are numbered row-major, the last axis fastest (Zarr v3 core specification,
//! "Chunks" and "Chunk grids"). An [`Indexer`] names index tuples; its places are their numbers.
#![tactic(auto)]

mod array_subset;
mod boxes;
mod chunk_shape;
mod codec_error;
mod index_lists;
mod index_tuples;
mod indexer;
mod indices;
pub mod laws;
mod rows;
mod runs;
mod tuple_list;

pub use array_subset::ArraySubset;
pub use chunk_shape::ChunkShape;
pub use codec_error::{CodecError, CodecName, StorageError};
pub use index_tuples::IndexTuples;
pub use indexer::{Indexer, subset_runs};
pub use indices::{ArrayIndices, ravel_indices, unravel_index};
pub use rows::{Row, push_rows};
pub use runs::{count_places, runs_of_places};
pub use tuple_list::TupleList;
