//! Reading a chunk in part, before the elements are returned to C.
ghost use Rattle.std.specs.Prelude.{◌≡◌, IfOk, false};
ghost use Rattle.zarrs_chunk.specs.Answer.{is_fault, memory, AnswersBy};
ghost use Rattle.zarrs_array_bytes.specs.Tight.{IsTight};
ghost use Rattle.zarrs_json.specs.HeaderRead.{header_seen};
ghost use Rattle.zarrs_lent_handles.specs.LentHandle.{lent_value};
ghost use Rattle.zarrs_c_calls.specs.Calls.{known_header};
ghost use Rattle.zarrs_c_calls.specs.Codes.{cause_memory};
ghost use Rattle.zarrs_c_calls.specs.Reads.{part_read, stored_value, lent_stored, ReadsForm};
ghost use Rattle.zarrs_c_calls.specs.Told.{HoldsThese};

use crate::cause::Cause;
use crate::selection::selection_given;
use std::alloc::Global;
use zarrs_array_bytes::ArrayBytes;
use zarrs_chunk::{CodecError, Indexer};
use zarrs_codecs::CodecChainPartialTraits;
use zarrs_json::ChunkHeader;
use zarrs_lent_handles::LentHandle;

/// A value, where it is stored.
pub(crate) fn stored_given(is_stored: bool, value: &[u8]) -> Option<&[u8]>
    ensures value { lent_stored result ≡ stored_value is_stored value.now }
{
    if is_stored { Some(value) } else { None }
}

/// The elements that an indexer selects of what is stored, by a decoder that is made for this call.
pub(crate) fn read_part(
    alloc: Global,
    form: &ChunkHeader,
    handle: LentHandle<'_>,
    indexer: &Indexer,
) -> Result<ArrayBytes<'static>, CodecError>
    ensures answer { ReadsForm memory form.now (lent_value handle.entry) indexer.now result }
    ensures tight { IfOk result (IsTight (header_seen form.now).data_type) }
    ensures no_fault { is_fault result ≡ false }
{
    let chain = &form.chain;
    match chain.partial_decoder(
        alloc,
        handle,
        &form.shape,
        &form.data_type,
        &form.fill_value,
    ) {
        Err(refused) => Err(refused.error),
        Ok(mut decoder) => decoder.partial_decode(alloc, indexer),
    }
}

/// The selected elements of a value, or of nothing.
pub(crate) fn read(
    alloc: Global,
    form: &ChunkHeader,
    stored: Option<&[u8]>,
    tuples: u64,
    numbers: &[u64],
) -> Result<ArrayBytes<'static>, Cause>
    ensures answer { AnswersBy cause_memory HoldsThese result
        (part_read (known_header form.now) (lent_stored stored.entry) tuples numbers.now) }
{
    let indexer = selection_given(alloc, form, tuples, numbers)?;
    let elements = read_part(alloc, form, LentHandle::new(stored), &indexer)?;
    Ok(elements)
}
