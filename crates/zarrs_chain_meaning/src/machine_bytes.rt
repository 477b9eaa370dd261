//! That the bytes of elements are below 256, which the laws of chains ask for.
ghost use Rattle.std.specs.Prelude.{◌≡◌, All, ℕ, List};
ghost use Rattle.zarrs_data_type.specs.Element.{Chunk};
ghost use Rattle.zarrs_data_type.specs.ElementType.{ElementType};
ghost use Rattle.zarrs_array_bytes.specs.Validity.{Holds};
ghost use Rattle.zarrs_packbits.specs.Laws.{HasBytes};
ghost use Rattle.zarrs_codec.specs.BytesToBytesCodec.{AreBytes};
ghost use Rattle.zarrs_array_bytes.specs.Held.{Raw, vlen};
ghost use Rattle.zarrs_chain_meaning.specs.MachineBytes.{HeldHasBytes};

use zarrs_array_bytes::ArrayBytes;
use zarrs_codec::{bytes_are, fixed_are_bytes};

/// The bytes of elements of any length are bytes.
fn variable_are_bytes(elements: &ArrayBytes<'_>)
    ensures variable { (raw : Raw) (offsets : List ℕ)
        → elements.now ≡ vlen raw offsets → AreBytes raw.items }
{
    if let Ok((bytes, _)) = elements.as_variable() {
        bytes_are(bytes);
    }
}

/// Those of elements, under all masks.
pub fn elements_are_bytes(elements: &ArrayBytes<'_>)
    ensures bytes { HeldHasBytes elements.now }
{
    fixed_are_bytes(elements);
    variable_are_bytes(elements);
    if let Ok((inner, _)) = elements.as_optional() {
        elements_are_bytes(inner);
    }
}

/// Those of the chunk that a container holds.
#[tactic(auto, using(crate::proofs::HeldBytes::chunk_bytes))]
pub fn chunks_are_bytes(elements: &ArrayBytes<'_>)
    ensures chunks { (type : ElementType) (chunk : Chunk)
        → Holds type elements.now chunk → All HasBytes chunk }
{
    elements_are_bytes(elements);
}
