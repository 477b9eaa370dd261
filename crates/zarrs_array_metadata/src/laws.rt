//! What follows from the definitions of arrays' metadata. The functions do nothing: each is its
//! contract.
ghost use Rattle.zarrs_array_metadata.specs.Laws.{WrittenIsRead, ReadIsWritten, KeptAsItWas};

/// What is written of an array's metadata is read again as the same: each bit of its fill value, the
/// separator of its keys, its codecs, and what is kept.
pub fn metadata_is_read_again()
    ensures law { WrittenIsRead }
{}

/// The metadata of an array that is read can be written, and is read again as the same.
pub fn read_metadata_is_written()
    ensures law { ReadIsWritten }
{}

/// Attributes and keys that Zarr doesn't know are written as they were read.
pub fn keys_are_kept()
    ensures law { KeptAsItWas }
{}
