//! The codec `optional`: elements that may be absent.
pub(crate) mod create;
pub(crate) mod mask_room;
pub(crate) mod optional_codec;
pub(crate) mod optional_codec_traits;
