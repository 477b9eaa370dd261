//! The form of a chunk.
use zarrs_chunk::ChunkShape;
use zarrs_data_type::{DataType, FillValue};

/// The form of a chunk, lent: what calls below the public ones need to know of it beside its elements
/// or its value.
#[derive(Clone, Copy, Debug)]
pub struct Form<'a> {
    /// The sizes of the chunk.
    pub shape: &'a ChunkShape,
    /// The type of its elements.
    pub data_type: &'a DataType,
    /// The fill value.
    pub fill_value: &'a FillValue,
}
