//! Metadata of codecs, read from JSON trees and written as them; the configurations of the eight
//! codecs, and the types of settings that meet a condition; and the one error of reading metadata and
//! of making a codec from it.
//!
//! Zarr v3 codecs `transpose`, `bytes` and `sharding_indexed`, of zarr-extensions the codecs `reshape`
//! and `packbits`, and of codec.zarrs.dev the codecs `squeeze`, `vlen` and `optional`. A configuration
//! has an enum over its versions, whose fields are the keys.
#![tactic(auto)]

mod codec;
mod configuration;
mod json;
pub mod laws;
mod metadata_v3;
mod plugin_create_error;

pub use codec::packbits::PackBitsPaddingEncoding;
pub use codec::reshape::{ReshapeDim, ReshapeShape, count_autos};
pub use codec::sharding::ShardingIndexLocation;
pub use codec::transpose::TransposeOrder;
pub use codec::vlen::{VlenIndexDataType, VlenIndexLocation};
pub use configuration::bytes::{BytesCodecConfiguration, BytesCodecConfigurationV1};
pub use configuration::optional::{OptionalCodecConfiguration, OptionalCodecConfigurationV1};
pub use configuration::packbits::{PackBitsCodecConfiguration, PackBitsCodecConfigurationV1};
pub use configuration::reshape::{ReshapeCodecConfiguration, ReshapeCodecConfigurationV1};
pub use configuration::sharding::{ShardingCodecConfiguration, ShardingCodecConfigurationV1};
pub use configuration::squeeze::{SqueezeCodecConfiguration, SqueezeCodecConfigurationV0};
pub use configuration::transpose::{TransposeCodecConfiguration, TransposeCodecConfigurationV1};
pub use configuration::vlen::{
    VlenCodecConfiguration, VlenCodecConfigurationV0, VlenCodecConfigurationV0_1,
};
#[doc(hidden)]
pub use json::{holds_float, member};
pub use metadata_v3::{Configuration, MetadataV3};
pub use plugin_create_error::PluginCreateError;
