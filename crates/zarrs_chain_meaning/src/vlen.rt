//! What `vlen` is made of: its offsets, the parts of its values, its configuration, its plain form.
pub mod configuration;
pub mod length_fields;
pub mod plain_vlen;
pub mod vlen_offsets;
pub mod vlen_parts;
