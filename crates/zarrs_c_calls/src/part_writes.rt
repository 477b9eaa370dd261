//! Writing a chunk in part, before the value is returned to C.
ghost use Rattle.std.specs.Prelude.{◌≡◌, OnErr};
ghost use Rattle.zarrs_chunk.specs.Answer.{memory, memory_or_fault, Answers};
ghost use Rattle.zarrs_codec.specs.CodersOverHandles.{HandleWrites};
ghost use Rattle.zarrs_c_calls.specs.Calls.{known_header};
ghost use Rattle.zarrs_c_calls.specs.OneWriteHandle.{apart_bytes, apart_name, fresh_state, newly_written, once_state, once_value, out_bytes, out_name};
ghost use Rattle.zarrs_c_calls.specs.Reads.{stored_value};
ghost use Rattle.zarrs_c_calls.specs.Writes.{write_due, stored_due, WritesEdit};
ghost use Rattle.zarrs_c_calls.specs.Written.{WritesDue};

use crate::cause::Cause;
use crate::given::elements_given;
use crate::one_write_handle::{Before, OneWriteHandle};
use crate::selection::selection_given;
use crate::written::Written;
use std::alloc::Global;
use std::marker::Brand;
use zarrs_array_bytes::ArrayBytes;
use zarrs_chunk::{CodecError, Indexer};
use zarrs_codec::BytesPartialEncoderTraits;
use zarrs_codecs::CodecChainPartialTraits;
use zarrs_json::ChunkHeader;

/// Writes new elements over what a handle has, by an encoder that is made for this call, and gives the
/// handle back.
fn write_handle<H: BytesPartialEncoderTraits>(
    alloc: Global,
    form: &ChunkHeader,
    handle: H,
    indexer: &Indexer,
    new: &ArrayBytes<'_>,
    outcome: &mut Result<(), CodecError>,
) -> H
    ensures answer { Answers memory_or_fault (λ _. (H.state result).value) outcome.new
        (stored_due form.now (H.state handle).value indexer.now new.now) }
    ensures left { HandleWrites H.state H.lent H.atomic handle result outcome.new }
{
    let chain = &form.chain;
    match chain.partial_encoder(
        alloc,
        handle,
        &form.shape,
        &form.data_type,
        &form.fill_value,
    ) {
        Err(refused) => {
            *outcome = Err(refused.error);
            refused.handle
        }
        Ok(mut encoder) => {
            *outcome = encoder.partial_encode(alloc, indexer, new);
            encoder.into_handle()
        }
    }
}

/// Writes new elements over what a handle is on that wasn't written yet, and gives the handle back.
fn write_once<'h, B: Before>(
    alloc: Global,
    form: &ChunkHeader,
    handle: OneWriteHandle<'h, B>,
    indexer: &Indexer,
    new: &ArrayBytes<'_>,
    outcome: &mut Result<(), CodecError>,
) -> OneWriteHandle<'h, B>
    requires no_writes { once_state handle ≡ fresh_state (once_value handle) }
    ensures answer { Answers memory (λ _. newly_written result) outcome.new
        (stored_due form.now (once_value handle.entry) indexer.now new.now) }
    ensures kept { OnErr outcome.new (out_bytes result ≡ B.before) }
    ensures same_reference { out_name result ≡ out_name handle.entry }
    ensures lent { apart_name result ≡ apart_name handle.entry }
{
    write_handle(alloc, form, handle, indexer, new, outcome)
}

/// Writes new elements over what is stored, into a buffer that is as `B` says, and gives the handle on it
/// back: by that its caller learns what the buffer is.
fn write_buffer<'h, B: Before>(
    alloc: Global,
    form: &ChunkHeader,
    is_stored: bool,
    value: &'h [u8],
    indexer: &Indexer,
    new: &ArrayBytes<'_>,
    out: &'h mut [u8],
    apart: &'h mut Vec<u8>,
    outcome: &mut Result<Written, CodecError>,
) -> OneWriteHandle<'h, B>
    requires same { out.old ≡ B.before }
    ensures writes { WritesDue memory (write_due form.now (stored_value is_stored value.now)
        indexer.now new.now) B.before (out_bytes result) (apart_bytes result) outcome.new }
    ensures same_reference { out_name result ≡ out.entry.ghost_name }
    ensures lent { apart_name result ≡ apart.entry.ghost_name }
{
    let handle = OneWriteHandle::<B>::new(is_stored, value, out, apart);
    let mut edited = Ok(());
    let handle = write_once(alloc, form, handle, indexer, new, &mut edited);
    *outcome = match edited {
        Err(error) => Err(error),
        Ok(()) => Ok(handle.written()),
    };
    handle
}

/// Writes new elements over what is stored, into a buffer that is as `B` says.
fn write_branded<B: Before>(
    alloc: Global,
    form: &ChunkHeader,
    is_stored: bool,
    value: &[u8],
    indexer: &Indexer,
    new: &ArrayBytes<'_>,
    out: &mut [u8],
    apart: &mut Vec<u8>,
) -> Result<Written, CodecError>
    requires same { out.old ≡ B.before }
    ensures writes { WritesDue memory (write_due form.now (stored_value is_stored value.now)
        indexer.now new.now) B.before out.new apart.new.items result }
{
    let mut outcome = Ok(Written::Nothing);
    let _handle = write_buffer::<B>(
        alloc,
        form,
        is_stored,
        value,
        indexer,
        new,
        out,
        apart,
        &mut outcome,
    );
    outcome
}

/// Writes new elements over what is stored, into the buffer where it has room, and else apart.
fn write_part(
    alloc: Global,
    form: &ChunkHeader,
    is_stored: bool,
    value: &[u8],
    indexer: &Indexer,
    new: &ArrayBytes<'_>,
    out: &mut [u8],
    apart: &mut Vec<u8>,
) -> Result<Written, CodecError>
    ensures writes { WritesDue memory (write_due form.now (stored_value is_stored value.now)
        indexer.now new.now) out.old out.new apart.new.items result }
{
    write_branded::<Brand>(alloc, form, is_stored, value, indexer, new, out, apart)
}

/// New elements, and where they go: as they cross.
#[derive(Clone, Copy)]
pub(crate) struct Edit<'a> {
    pub(crate) tuples: u64,
    pub(crate) numbers: &'a [u64],
    pub(crate) masks: &'a [u8],
    pub(crate) offsets: &'a [u64],
    pub(crate) bytes: &'a [u8],
}

/// Writes the value that new elements at the selected places leave of a value, or of nothing, into the
/// buffer where it has room, and else apart.
pub(crate) fn write(
    alloc: Global,
    form: &ChunkHeader,
    is_stored: bool,
    value: &[u8],
    edit: &Edit<'_>,
    out: &mut [u8],
    apart: &mut Vec<u8>,
) -> Result<Written, Cause>
    ensures writes { WritesEdit (known_header form.now) (stored_value is_stored value.now)
        edit.now out.old out.new apart.new.items result }
{
    let indexer = selection_given(alloc, form, edit.tuples, edit.numbers)?;
    let new = elements_given(alloc, &form.data_type, edit.masks, edit.offsets, edit.bytes)?;
    let written = write_part(alloc, form, is_stored, value, &indexer, &new, out, apart)?;
    Ok(written)
}
