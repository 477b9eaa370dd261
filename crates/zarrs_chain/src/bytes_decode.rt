//! The chunk that a value of the codec `bytes` stands for, behind array-to-array codecs.
ghost use Rattle.zarrs_array_bytes.specs.Tight.{IsTight};
ghost use Rattle.std.specs.Prelude.{◌≡◌, IfOk, None, map, true};
ghost use Rattle.std.specs.List.{list_all};
ghost use Rattle.zarrs_array_to_array.specs.Mapping.{mapping_of};
ghost use Rattle.zarrs_bytes.specs.BytesCodec.{BytesTakes, turn_size};
ghost use Rattle.zarrs_bytes.specs.GivenBytes.{HoldsGiven};
ghost use Rattle.zarrs_array_to_array.specs.ArrayToArrayCodec.{keeps_places};
ghost use Rattle.zarrs_chain.specs.CodecCalls.{ReadsBehind};
ghost use Rattle.zarrs_chain.specs.FormView.{lent_form};

use crate::form::Form;
use std::alloc::Global;
use zarrs_array_bytes::{ArrayBytes, ArrayBytesRaw};
use zarrs_array_to_array::ArrayToArrayCodec;
use zarrs_bytes::BytesCodec;
use zarrs_chain_meaning::array_stages::decode_arrays;
use zarrs_chunk::CodecError;

/// The chunk of this shape that a value of the codec stands for, as the array-to-array codecs
/// decode it. They move the elements as they are stored, and what they made is turned round where
/// it stands: of a borrowed value one copy is made, and not one for each of the two. Errors:
/// `InvalidBytesLength`; `OutOfMemory`.
pub(crate) fn bytes_decode<'a>(
    alloc: Global,
    codec: &BytesCodec,
    codecs: &[ArrayToArrayCodec],
    value: ArrayBytesRaw<'a>,
    form: Form<'_>,
) -> Result<ArrayBytes<'a>, CodecError>
    requires taken { BytesTakes codec.now (lent_form form) }
    ensures answer { ReadsBehind codec.now codecs.now (lent_form form.entry) value.entry result }
    ensures tight { IfOk result (IsTight form.entry.data_type.now) }
    ensures kept { turn_size codec.now form.entry.data_type.now ≡ None
        → list_all keeps_places (map mapping_of codecs.now) ≡ true → HoldsGiven value.entry result }
{
    let Form {
        shape,
        data_type,
        fill_value,
    } = form;
    shape.as_slice();
    let stored = BytesCodec::little().decode(alloc, value, shape, data_type, fill_value)?;
    let moved = decode_arrays(alloc, codecs, stored, shape, data_type, fill_value)?;
    let raw = moved.into_fixed()?;
    codec.decode(alloc, raw, shape, data_type, fill_value)
}
