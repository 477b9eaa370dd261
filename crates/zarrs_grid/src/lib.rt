//! Regular grids: the chunks of a grid that a region of an array touches, the part of the region in
//! each, and the region's elements put together from these parts, and cut into them.
//!
//! A grid divides an array into chunks of one shape, from the array's first element on (Zarr v3 core
//! specification, "Regular grids"). The array is one that is stored in many chunks, or a shard, whose
//! inner chunks are then what is called chunks here. A chunk at the array's end is whole: the grid
//! never asks for the array's shape, and whoever has one looks first whether the region lies inside.
//!
//! [`plan_region`] says what a region needs of each chunk, as boxes of both. [`gather_elements`] takes
//! the elements of a box out of a list, and [`scatter_elements`] puts them into one. That these make
//! the region again, in whatever order chunks come, is in [`laws`].
#![tactic(auto)]

mod chunk_grid;
mod chunk_part;
mod gather;
mod known_box;
pub mod laws;
mod region_parts;
mod scatter;

pub use chunk_grid::chunks_in_array_subset;
pub use chunk_part::{ChunkPart, part_in_chunk};
pub use gather::gather_elements;
pub use region_parts::plan_region;
pub use scatter::scatter_elements;
