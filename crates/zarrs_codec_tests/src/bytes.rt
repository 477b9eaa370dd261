//! The codec `bytes` in part, over handles that are lent and handles that fail, and handles by
//! themselves.
mod failing_handle;
mod handles;
mod parts;
