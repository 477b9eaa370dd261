//! What the tests share.
use std::alloc::{AllocError, Global};
use std::fmt::Debug;
use std::process::Abort;
use zarrs_array_metadata::{ArrayMetadataError, ArrayMetadataV3};

/// What came is what is wanted.
pub(crate) fn is<T: PartialEq + Debug>(rt: &impl Abort, name: &str, came: &T, wanted: &T) {
    assert_eq!(rt; *came, *wanted, "{name}");
}

/// The members of the metadata of an array of 5 by 0 bytes.
const BYTES: &'static str =
    r#""zarr_format":3,"node_type":"array","shape":[5,0],"data_type":"uint8","chunk_grid":{"name":"regular","configuration":{"chunk_shape":[2,3]}},"chunk_key_encoding":"default","fill_value":0,"codecs":["bytes"]"#;

/// The text of such an array with members more, which stand in place of those of the same keys.
pub(crate) fn with(alloc: Global, members: &str) -> Result<String, AllocError> {
    format!(in alloc; "{{{BYTES},{members}}}")
}

fn is_error(
    rt: &impl Abort,
    text: &str,
    error: &ArrayMetadataError,
    name: &str,
    key: Option<&str>,
) -> Result<(), ArrayMetadataError> {
    if matches!(error, ArrayMetadataError::OutOfMemory) {
        return Err(ArrayMetadataError::OutOfMemory);
    }
    is(rt, text, &error.name(), &name);
    is(rt, text, &error.key(), &key);
    Ok(())
}

/// The text says what can't be read, by the error's name and its key. A lack of memory is an error of
/// the test.
pub(crate) fn refuses(
    rt: &impl Abort,
    text: &str,
    came: Result<ArrayMetadataV3, ArrayMetadataError>,
    name: &str,
    key: Option<&str>,
) -> Result<(), ArrayMetadataError> {
    match came.err() {
        None => {
            is(rt, text, &"read", &name);
            Ok(())
        }
        Some(error) => is_error(rt, text, &error, name, key),
    }
}
