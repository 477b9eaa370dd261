//! What is planned of one chunk.

use zarrs_grid::ChunkPart;

/// A chunk that a region touches: its key, and the region's part in it.
#[derive(Debug, Drop)]
pub struct PlannedChunk {
    /// The key of the chunk.
    pub key: String,
    /// The region's part in the chunk.
    pub part: ChunkPart,
}
