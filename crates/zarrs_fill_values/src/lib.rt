//! Element types by their names in `zarr.json`, and fill values (Zarr v3 core specification, "Data
//! types" and "Fill value list"; zarr-extensions for the sub-byte, string, bytes and `bfloat16` types;
//! zarrs for `zarrs.optional`).
//!
//! A name says more of a type than chunks know: those of `float32` have the components of `uint32`.
//! What JSON says of a fill value are the bytes of an element, the lowest first: of `int8` the tree
//! `-1` is `ff`, of `float32` the text `"NaN"` is `0000c07f`, and of an optional `uint8` the tree `[5]`
//! is `0501`. Each fill value is written in one way, which is read again as the same bytes ([`laws`]).
//!
//! A number is what `serde_json` keeps of it: a whole number of 64 bits as it is, any other as the
//! binary64 nearest to its text. It is rounded to the nearest number of the type, a tie to the one
//! whose last bit is 0, and rejected past the range: of `float16` from 65520 on.
#![tactic(auto)]

mod element_error;
mod element_name;
mod fill_values;
mod floats;
mod integers;
pub mod laws;
mod name_tree;
mod names;
mod shown;
mod words;

pub use element_error::ElementError;
pub use element_name::{ElementName, FloatName, IntegerName, PlainName};
