//! Bytes that are owned or borrowed.
ghost use Rattle.std.specs.Prelude.{◌≡◌, ◌≤◌, Ok, false, drop, length};
ghost use Rattle.zarrs_chunk.specs.Answer.{Answers, memory, seen};
ghost use Rattle.zarrs_array_bytes.specs.Given.{MakesItems};
ghost use Rattle.zarrs_array_bytes.specs.Held.{raw_of, items_of};

use std::alloc::Global;
use std::borrow::CowSlice;
use zarrs_chunk::CodecError;

/// Bytes that are owned, or borrowed for `'a`.
pub type ArrayBytesRaw<'a> = CowSlice<'a, u8>;

/// Equal bytes. Borrowed bytes stay borrowed.
pub(crate) fn clone_raw<'a>(raw: &ArrayBytesRaw<'a>) -> Result<ArrayBytesRaw<'a>, CodecError>
    ensures copy { Answers memory raw_of result (Ok (raw_of raw.now)) }
    ensures lent { (raw_of raw.now).is_owned ≡ false → seen raw_of result ≡ Ok (raw_of raw.now) }
{
    match raw {
        CowSlice::Borrowed(bytes) => Ok(CowSlice::Borrowed(*bytes)),
        CowSlice::Owned(bytes) => Ok(CowSlice::Owned(bytes.clone()?)),
    }
}

/// The bytes behind the first `count`. Borrowed bytes stay borrowed, owned ones are moved to the front.
pub(crate) fn behind(raw: ArrayBytesRaw<'_>, count: usize) -> ArrayBytesRaw<'_>
    requires inside { count ≤ length (items_of raw) }
    ensures items { items_of result ≡ drop count (items_of raw.entry) }
    ensures owner { (raw_of result).is_owned ≡ (raw_of raw.entry).is_owned }
{
    match raw {
        CowSlice::Borrowed(bytes) => CowSlice::Borrowed(&bytes[count..]),
        CowSlice::Owned(mut bytes) => {
            bytes.drain(..count);
            CowSlice::Owned(bytes)
        }
    }
}

/// The bytes as owned ones. Owned bytes are returned as they are.
pub(crate) fn owned_bytes(alloc: Global, raw: ArrayBytesRaw<'_>) -> Result<Vec<u8>, CodecError>
    ensures exact { MakesItems result (items_of raw.entry) }
{
    match raw {
        CowSlice::Borrowed(bytes) => Ok(bytes.to_vec(alloc)?),
        CowSlice::Owned(bytes) => Ok(bytes),
    }
}
