//! The codec `vlen`: elements of any length.
pub(crate) mod create;
pub(crate) mod plain_form;
pub(crate) mod vlen_codec;
pub(crate) mod vlen_codec_traits;
pub(crate) mod vlen_decode;
pub(crate) mod vlen_encode;
pub(crate) mod vlen_kept;
