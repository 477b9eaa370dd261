//! Edits of a chunk in a caller's own value, before their outcome is returned to C.
ghost use Rattle.std.specs.Prelude.{◌≡◌, ◌≤◌, OnErr, Some, true, drop, length};
ghost use Rattle.zarrs_chunk.specs.Answer.{memory, Answers, AnswersValue};
ghost use Rattle.zarrs_chunk.specs.Indexer.{selection_of};
ghost use Rattle.zarrs_json.specs.HeaderRead.{header_seen};
ghost use Rattle.zarrs_codecs.specs.PartialEncoder.{encoder_form};
ghost use Rattle.zarrs_c_calls.specs.BufferHandle.{buffer_bytes, buffer_is_stored, buffer_name};
ghost use Rattle.zarrs_c_calls.specs.Calls.{known_header};
ghost use Rattle.zarrs_c_calls.specs.Codes.{cause_memory};
ghost use Rattle.zarrs_c_calls.specs.Edits.{all_are_taken, edits_in_place, edits_opened, has_all_bytes as has_all};
ghost use Rattle.zarrs_c_calls.specs.EditRuns.{buffer_of, encoder_bytes, AreTaken, EditsValue, IsRepresented, MakesEdit, EditsInOrder};
ghost use Rattle.zarrs_c_calls.specs.Reads.{form_seen};
ghost use Rattle.zarrs_c_calls.specs.Writes.{known_written};

use crate::buffer_handle::BufferHandle;
use crate::cause::Cause;
use crate::given::elements_given;
use crate::many_reads::numbers_behind;
use crate::part_writes::Edit;
use crate::selection::selection_given;
use crate::sizes::EditSize;
use std::alloc::Global;
use zarrs_array_bytes::ArrayBytes;
use zarrs_chunk::{CodecError, Indexer};
use zarrs_codec::{BytesRepresentation, CodecTraits};
use zarrs_codecs::{ArrayPartialEncoder, CodecChainPartialTraits};
use zarrs_json::{ChunkHeader, KnownBytesCodec, Refusal};

/// A list of edits as they cross: what each takes of the numbers and of the bytes of all of them, joined.
#[derive(Clone, Copy)]
pub(crate) struct Edits<'a> {
    pub(crate) sizes: &'a [EditSize],
    pub(crate) numbers: &'a [u64],
    pub(crate) bytes: &'a [u8],
}

/// What came of a list of edits: how many were made, and why the next one wasn't.
#[derive(Clone, Copy)]
pub(crate) struct EditsOutcome {
    pub(crate) done: usize,
    pub(crate) refusal: Option<Cause>,
}

/// Whether each edit takes its numbers and bytes in front of those that are left, and none are over.
fn take_all(sizes: &[EditSize], numbers: usize, bytes: usize) -> bool
    ensures value { result ≡ all_are_taken sizes.now numbers bytes }
{
    let mut numbers_left = numbers;
    let mut bytes_left = bytes;
    for size in sizes {
        if size.numbers > numbers_left || size.bytes > bytes_left {
            return false;
        }
        numbers_left -= size.numbers;
        bytes_left -= size.bytes;
    }
    numbers_left == 0 && bytes_left == 0
}

/// Whether a value of so many bytes has all bytes of a chunk.
fn has_all_bytes(representation: BytesRepresentation, len: usize) -> bool
    ensures value { result ≡ has_all representation len }
{
    match representation {
        BytesRepresentation::FixedSize(size) => size <= len as u64,
        BytesRepresentation::BoundedSize(_) | BytesRepresentation::UnboundedSize => false,
    }
}

/// Whether edits are written where a value of so many bytes stands.
fn are_in_place(alloc: Global, form: &ChunkHeader, len: usize) -> Result<bool, CodecError>
    ensures answer { AnswersValue memory result (edits_in_place (header_seen form.now) len) }
{
    let representation = form
        .chain
        .encoded_representation(alloc, &form.shape, &form.data_type, &form.fill_value)?;
    let in_part = form.chain.partial_encoder_capability().partial_encode;
    Ok(in_part && has_all_bytes(representation, len))
}

/// Whether edits of a value of so many bytes are taken.
fn check_edits(
    alloc: Global,
    form: &ChunkHeader,
    len: usize,
    edits: &Edits<'_>,
) -> Result<(), Cause>
    // Wide: a header, a value and what edits take of three lists.
    ensures answer { Answers cause_memory (λ _. header_seen form.now) result
        (edits_opened (known_header form.now) len
        edits.now.sizes.now (length edits.now.numbers.now) (length edits.now.bytes.now)) }
{
    if !take_all(edits.sizes, edits.numbers.len(), edits.bytes.len()) {
        return Err(Cause::Argument);
    }
    if !are_in_place(alloc, form, len)? {
        return Err(Cause::NotInPlace);
    }
    Ok(())
}

/// Writes new elements by an encoder of the header's chunks.
fn write_new(
    alloc: Global,
    form: &ChunkHeader,
    encoder: &mut ArrayPartialEncoder<'_, BufferHandle<'_>, KnownBytesCodec>,
    indexer: &Indexer,
    new: &ArrayBytes<'_>,
) -> Result<(), CodecError>
    requires form { encoder_form encoder.old ≡ form_seen form.now }
    requires represented { IsRepresented form.now }
    requires stored { buffer_is_stored (buffer_of encoder.old) ≡ true }
    ensures answer { Answers memory (λ _. encoder_bytes encoder.new) result (known_written
        (form_seen form.now) (Some (encoder_bytes encoder.old)) (selection_of indexer.now) new.now) }
    ensures kept { OnErr result (encoder_bytes encoder.new ≡ encoder_bytes encoder.old) }
    ensures stored { buffer_is_stored (buffer_of encoder.new) ≡ true }
    ensures same_reference { buffer_name (buffer_of encoder.new) ≡ buffer_name (buffer_of encoder.old) }
    ensures form_kept { encoder_form encoder.new ≡ encoder_form encoder.old }
{
    encoder.partial_encode(alloc, indexer, new)
}

/// Makes one edit by an encoder of the header's chunks.
fn make_edit(
    alloc: Global,
    form: &ChunkHeader,
    encoder: &mut ArrayPartialEncoder<'_, BufferHandle<'_>, KnownBytesCodec>,
    edit: &Edit<'_>,
) -> Result<(), Cause>
    requires form { encoder_form encoder.old ≡ form_seen form.now }
    requires represented { IsRepresented form.now }
    requires stored { buffer_is_stored (buffer_of encoder.old) ≡ true }
    ensures answer { MakesEdit form.now encoder.old encoder.new edit.now result }
    ensures stored { buffer_is_stored (buffer_of encoder.new) ≡ true }
    ensures same_reference { buffer_name (buffer_of encoder.new) ≡ buffer_name (buffer_of encoder.old) }
    ensures form_kept { encoder_form encoder.new ≡ encoder_form encoder.old }
{
    let indexer = selection_given(alloc, form, edit.tuples, edit.numbers)?;
    let new = elements_given(alloc, &form.data_type, edit.masks, edit.offsets, edit.bytes)?;
    write_new(alloc, form, encoder, &indexer, &new)?;
    Ok(())
}

/// The bytes behind so many.
#[tactic(auto, using(std::proofs::lemmas::List::take_rest))]
fn bytes_behind(bytes: &[u8], count: usize) -> &[u8]
    requires inside { count ≤ length bytes.now }
    ensures value { result.now ≡ drop count bytes.now }
{
    &bytes[count..]
}

/// Makes edits one after another by an encoder of the header's chunks, up to the first one that
/// fails.
fn make_edits(
    alloc: Global,
    form: &ChunkHeader,
    encoder: &mut ArrayPartialEncoder<'_, BufferHandle<'_>, KnownBytesCodec>,
    edits: &Edits<'_>,
) -> EditsOutcome
    requires form { encoder_form encoder.old ≡ form_seen form.now }
    requires represented { IsRepresented form.now }
    requires stored { buffer_is_stored (buffer_of encoder.old) ≡ true }
    requires taken { AreTaken edits.now }
    ensures runs { EditsInOrder form.now (encoder_bytes encoder.old) (encoder_bytes encoder.new)
        edits.now result }
    ensures stored { buffer_is_stored (buffer_of encoder.new) ≡ true }
    ensures same_reference { buffer_name (buffer_of encoder.new) ≡ buffer_name (buffer_of encoder.old) }
{
    let mut numbers = edits.numbers;
    let mut bytes = edits.bytes;
    for (done, size) in edits.sizes.iter().enumerate() {
        let edit = Edit {
            tuples: size.tuples,
            numbers: &numbers[..size.numbers],
            masks: &[],
            offsets: &[],
            bytes: &bytes[..size.bytes],
        };
        if let Err(cause) = make_edit(alloc, form, encoder, &edit) {
            return EditsOutcome {
                done,
                refusal: Some(cause),
            };
        }
        numbers = numbers_behind(numbers, size.numbers);
        bytes = bytes_behind(bytes, size.bytes);
    }
    EditsOutcome {
        done: edits.sizes.len(),
        refusal: None,
    }
}

/// Makes edits in a caller's own value, by an encoder that is made for them, and gives the handle on it
/// back: by that its caller learns what the value is.
fn edit_buffer<'h>(
    alloc: Global,
    form: &ChunkHeader,
    value: &'h mut [u8],
    edits: &Edits<'_>,
    outcome: &mut EditsOutcome,
) -> BufferHandle<'h>
    requires represented { IsRepresented form.now }
    requires taken { AreTaken edits.now }
    ensures runs { EditsInOrder form.now value.old (buffer_bytes result) edits.now outcome.new }
    ensures same_reference { buffer_name result ≡ value.entry.ghost_name }
{
    let chain = &form.chain;
    match chain.partial_encoder(
        alloc,
        BufferHandle::new(value),
        &form.shape,
        &form.data_type,
        &form.fill_value,
    ) {
        Err(refused) => {
            *outcome = EditsOutcome {
                done: 0,
                refusal: Some(Cause::Refused(Refusal::Codec(refused.error))),
            };
            refused.handle
        }
        Ok(mut encoder) => {
            *outcome = make_edits(alloc, form, &mut encoder, edits);
            encoder.into_handle()
        }
    }
}

/// Makes edits in a caller's own value.
fn edit_value(
    alloc: Global,
    form: &ChunkHeader,
    value: &mut [u8],
    edits: &Edits<'_>,
) -> EditsOutcome
    requires represented { IsRepresented form.now }
    requires taken { AreTaken edits.now }
    ensures runs { EditsInOrder form.now value.old value.new edits.now result }
{
    let mut outcome = EditsOutcome {
        done: 0,
        refusal: None,
    };
    let _handle = edit_buffer(alloc, form, value, edits, &mut outcome);
    outcome
}

/// Makes edits of a header's chunk in a caller's own value, one after another, up to the first one
/// that fails.
pub(crate) fn edit(
    alloc: Global,
    form: &ChunkHeader,
    value: &mut [u8],
    edits: &Edits<'_>,
) -> EditsOutcome
    ensures edits { EditsValue (known_header form.now) value.old value.new edits.now result }
{
    match check_edits(alloc, form, value.len(), edits) {
        Err(cause) => EditsOutcome {
            done: 0,
            refusal: Some(cause),
        },
        Ok(()) => edit_value(alloc, form, value, edits),
    }
}
