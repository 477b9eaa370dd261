//! Regions of arrays over stores, read chunk by chunk. How a part of a chunk is read is left to a
//! [`ChunkPartReader`]: [`read_region`] asks it for the part of the region in each chunk that the region
//! touches, one chunk after another, and puts the parts together.
#![tactic(auto)]

mod chunk_part_reader;
mod region_reads;

pub use chunk_part_reader::ChunkPartReader;
pub use region_reads::read_region;
