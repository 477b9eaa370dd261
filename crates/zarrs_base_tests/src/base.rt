//! Calls of the crates below all codecs: `zarrs_chunk`, `zarrs_data_type`, `zarrs_metadata`,
//! `zarrs_array_bytes` and `zarrs_grid`.
mod containers;
mod copies;
mod errors;
mod grids;
mod indexers;
pub(crate) mod metadata;
mod selections;
mod views;
