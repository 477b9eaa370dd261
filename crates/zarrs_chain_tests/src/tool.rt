//! Tests of `run` over what no transcript shows: bytes that are no text, readers that fail, and writers
//! that fail or are flushed.
mod sent;
mod writers;
