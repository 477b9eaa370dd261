//! What `optional` is made of: the parts of its values, its configuration.
pub mod configuration;
pub mod optional_parts;
