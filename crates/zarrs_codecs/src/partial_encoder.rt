pub(crate) mod array_partial_encoder;
mod chunk_writer;
pub(crate) mod edits;
mod place_writer;
mod whole_writer;
