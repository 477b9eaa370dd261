//! A read of elements by runs of places.
ghost use Rattle.std.specs.Prelude.{◌≡◌, ◌≤◌, ◌+◌, true, All, IfOk, IfSome, is_some, length};
ghost use Rattle.zarrs_data_type.specs.ElementType.{is_variable};
ghost use Rattle.zarrs_array_bytes.specs.Tight.{IsTight};
ghost use Rattle.zarrs_codec.specs.Calls.{MakesReads};
ghost use Rattle.zarrs_codec.specs.StorageState.{after_reading};
ghost use Rattle.zarrs_plain_vlen.specs.ReadingCalls.{calls_behind_size, stored_vlen_calls};
ghost use Rattle.zarrs_plain_vlen.specs.StoredBytes.{stored_bytes, SureAt};
ghost use Rattle.zarrs_plain_vlen.specs.StoredElements.{HoldsStored};
ghost use Rattle.zarrs_chunk.specs.Answer.{AnswersBy, memory_or_fault};
ghost use Rattle.zarrs_chunk.specs.Runs.{joined_runs};
ghost use Rattle.zarrs_array_bytes.specs.Validity.{Holds};
ghost use Rattle.zarrs_chain_meaning.specs.vlen.PlainVlen.{plain_form};
ghost use Rattle.zarrs_plain_vlen.specs.VlenRead.{rests_on, stored_rests_on, stored_vlen_read, vlen_read};

use crate::elements::read_elements;
use crate::index::read_index;
use crate::layout::read_layout;
use std::alloc::Global;
use zarrs_array_bytes::ArrayBytes;
use zarrs_chain_meaning::vlen::plain_vlen::PlainVlen;
use zarrs_chunk::CodecError;
use zarrs_codec::BytesPartialDecoderTraits;
use zarrs_data_type::DataType;

/// The elements at the places of these runs of the stored value, which has `size` bytes. Errors:
/// those of `read_runs`.
fn read_stored<H: BytesPartialDecoderTraits>(
    alloc: Global,
    handle: &mut H,
    codec: PlainVlen,
    size: u64,
    count: u64,
    data_type: &DataType,
    runs: &[(u64, u64)],
) -> Result<ArrayBytes<'static>, CodecError>
    requires stored { is_some (H.state handle.old).value ≡ true }
    requires len { length (stored_bytes (H.state handle.old)) ≡ size }
    requires variable { is_variable data_type.now ≡ true }
    requires inside { All (λ run. run.0 + run.1 ≤ count) runs.now }
    ensures answer { AnswersBy memory_or_fault (Holds data_type.now) result (vlen_read
        (plain_form codec) count (stored_bytes (H.state handle.old)) (joined_runs runs.now)) }
    ensures tight { IfOk result (IsTight data_type.now) }
    ensures sure { SureAt (H.state handle.old) (rests_on (plain_form codec) count
        (stored_bytes (H.state handle.old)) (joined_runs runs.now)) result }
    ensures left { H.state handle.new ≡ after_reading result (H.state handle.old) }
    ensures same_reference { H.lent handle.new ≡ H.lent handle.old }
    ensures counted { MakesReads H.calls (calls_behind_size (plain_form codec) count
        (stored_bytes (H.state handle.old)) (joined_runs runs.now)) handle.old handle.new result }
{
    let layout = read_layout(alloc, handle, size, codec.index_location)?;
    let offsets = read_index(alloc, handle, codec, count, layout.index)?;
    read_elements(alloc, handle, &offsets, layout.content, data_type, runs)
}

/// The elements at the places of these runs, each a start and a length, in their order, of a chunk
/// of `count` elements; `None` where nothing is stored.
///
/// Of the stored value the length of the index is read, the index, and of the data the bytes of
/// these elements alone, by one call. The container's offsets begin at 0, and it has no other
/// bytes. Errors, the first that holds, also where there are no runs: `InvalidBytesLength` where
/// the value is shorter than the length of an index; `IndexLength`; `Overflow` where 64 bits don't
/// count the offsets, or their bytes; `InvalidBytesLength` where the index has another length;
/// `InvalidOffsets`; `InvalidByteRange` where an element that isn't empty ends behind the data.
/// `OutOfMemory` and `Storage` may come at any time, `Storage` never where all bytes that are named
/// above are sure.
///
/// The handle is asked by one reading call for the size, and, where something is stored, by one for the
/// length of the index, one for the index, and one for the bytes of the elements, none where they have
/// none.
pub fn read_runs<H: BytesPartialDecoderTraits>(
    codec: PlainVlen,
    alloc: Global,
    handle: &mut H,
    count: u64,
    data_type: &DataType,
    runs: &[(u64, u64)],
) -> Result<Option<ArrayBytes<'static>>, CodecError>
    requires variable { is_variable data_type.now ≡ true }
    requires inside { All (λ run. run.0 + run.1 ≤ count) runs.now }
    ensures answer { AnswersBy memory_or_fault (HoldsStored data_type.now) result (stored_vlen_read
        (plain_form codec) count (H.state handle.old).value (joined_runs runs.now)) }
    ensures tight { IfOk result (λ elements. IfSome elements (IsTight data_type.now)) }
    ensures sure { SureAt (H.state handle.old) (stored_rests_on (plain_form codec) count
        (H.state handle.old).value (joined_runs runs.now)) result }
    ensures left { H.state handle.new ≡ after_reading result (H.state handle.old) }
    ensures same_reference { H.lent handle.new ≡ H.lent handle.old }
    ensures counted { MakesReads H.calls (stored_vlen_calls (plain_form codec) count
        (H.state handle.old).value (joined_runs runs.now)) handle.old handle.new result }
{
    match handle.size()? {
        None => Ok(None),
        Some(size) => {
            let elements = read_stored(alloc, handle, codec, size, count, data_type, runs)?;
            Ok(Some(elements))
        }
    }
}
