//! The codec `vlen` over plain chains.
use zarrs_data_type::Endianness;
use zarrs_metadata::{VlenIndexDataType, VlenIndexLocation};

/// A plain `vlen`: its index chain is `bytes` with a byte order, its data chain `bytes`, both alone.
/// What the data chain says of a byte order changes nothing, as the data are single bytes.
#[derive(Clone, Copy, Debug)]
pub struct PlainVlen {
    /// The byte order of the offsets.
    pub endianness: Endianness,
    /// The type of the offsets.
    pub index_data_type: VlenIndexDataType,
    /// Where the index stands.
    pub index_location: VlenIndexLocation,
}
