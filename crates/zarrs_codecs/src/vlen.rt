//! Reading a chunk of `vlen` in part.
pub(crate) mod vlen_partial_decoder;
pub(crate) mod vlen_runs;
