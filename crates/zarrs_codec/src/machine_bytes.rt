//! What holds of all bytes of a machine: they are below 256.
ghost use Rattle.std.specs.Prelude.{◌≡◌, ◌<◌, ℕ, slice_index};
ghost use Rattle.zarrs_array_bytes.specs.Held.{Raw, flen};
ghost use Rattle.zarrs_codec.specs.BytesToBytesCodec.{AreBytes};

use zarrs_array_bytes::ArrayBytes;

/// Each byte is below 256.
fn each_is_small(_bytes: &[u8])
    ensures small { (i : ℕ) → slice_index _bytes.now i < 256 }
{}

/// Bytes are bytes.
pub fn bytes_are(bytes: &[u8])
    ensures bytes { AreBytes bytes.now }
    ensures small { (i : ℕ) → slice_index bytes.now i < 256 }
{
    each_is_small(bytes);
}

/// Those of elements of one size.
pub fn fixed_are_bytes(elements: &ArrayBytes<'_>)
    ensures fixed { (raw : Raw) → elements.now ≡ flen raw → AreBytes raw.items }
    ensures small { (raw : Raw) → elements.now ≡ flen raw
        → (i : ℕ) → slice_index raw.items i < 256 }
{
    if let Ok(bytes) = elements.as_fixed() {
        bytes_are(bytes);
    }
}
