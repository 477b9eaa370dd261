//! Arrays over many chunks, as plans: which chunks a region of an array touches, under which keys they
//! are stored, which part of the region is in each, and the region's elements put together from the
//! parts and cut into them. How chunks are stored, read and written is left to the caller.
#![tactic(auto)]

mod array_grid;
mod chunk_key_encoding;
pub mod laws;
mod plan;
mod planned_chunk;
mod region_elements;

pub use array_grid::ArrayGrid;
pub use chunk_key_encoding::{ChunkKeyEncoding, ChunkKeySeparator};
pub use planned_chunk::PlannedChunk;
pub use region_elements::{fill_region, join_part, part_of};
