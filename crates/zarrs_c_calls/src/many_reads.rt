//! Reading a list of selections of a chunk, before the elements are returned to C.
ghost use Rattle.std.specs.Prelude.{◌≡◌, ◌≤◌, IfOk, drop, length};
ghost use Rattle.zarrs_chunk.specs.Answer.{memory, AnswersBy};
ghost use Rattle.zarrs_array_bytes.specs.Tight.{IsTight};
ghost use Rattle.zarrs_json.specs.HeaderRead.{header_seen};
ghost use Rattle.zarrs_codecs.specs.PartialDecoder.{decoder_form};
ghost use Rattle.zarrs_lent_handles.specs.LentHandle.{lent_value};
ghost use Rattle.zarrs_c_calls.specs.Calls.{known_header};
ghost use Rattle.zarrs_c_calls.specs.Codes.{cause_memory};
ghost use Rattle.zarrs_c_calls.specs.EachRead.{decoder_value, front_given, FirstIsGiven, GivesEach, IsSourced};
ghost use Rattle.zarrs_c_calls.specs.ManyReads.{front_read, many_read, HoldEach};
ghost use Rattle.zarrs_c_calls.specs.Reads.{form_seen, lent_stored, ReadsForm};
ghost use Rattle.zarrs_c_calls.specs.Selections.{Selects};
ghost use Rattle.zarrs_c_calls.specs.Told.{HoldsThese};

use crate::cause::Cause;
use crate::selection::selection_given;
use crate::sizes::SelectionSize;
use std::alloc::Global;
use zarrs_array_bytes::ArrayBytes;
use zarrs_chunk::{CodecError, Indexer};
use zarrs_codecs::{ArrayPartialDecoder, CodecChainPartialTraits};
use zarrs_json::{ChunkHeader, KnownBytesCodec, Refusal};
use zarrs_lent_handles::LentHandle;

/// The indexer of a selection whose numbers stand in front of those that are left.
fn front_selection<'n>(
    alloc: Global,
    form: &ChunkHeader,
    size: &SelectionSize,
    numbers: &'n [u64],
) -> Result<Indexer<'n>, Cause>
    ensures answer { Selects result (front_given (header_seen form.now) size.now numbers.now) }
    ensures count { IfOk result (λ _. size.now.numbers ≤ length numbers.now) }
{
    if size.numbers > numbers.len() {
        return Err(Cause::Argument);
    }
    selection_given(alloc, form, size.tuples, &numbers[..size.numbers])
}

/// The elements that an indexer selects, by a decoder of the header's chunks.
fn read_one(
    alloc: Global,
    form: &ChunkHeader,
    decoder: &mut ArrayPartialDecoder<'_, LentHandle<'_>, KnownBytesCodec>,
    indexer: &Indexer,
) -> Result<ArrayBytes<'static>, CodecError>
    requires form { decoder_form decoder.old ≡ form_seen form.now }
    requires sourced { IsSourced (form_seen form.now) (decoder_value decoder.old) }
    ensures answer { ReadsForm memory form.now (decoder_value decoder.old) indexer.now result }
    ensures tight { IfOk result (IsTight (header_seen form.now).data_type) }
    ensures value_kept { decoder_value decoder.new ≡ decoder_value decoder.old }
    ensures form_kept { decoder_form decoder.new ≡ decoder_form decoder.old }
{
    decoder.partial_decode(alloc, indexer)
}

/// The elements of a selection whose numbers stand in front of those that are left.
fn read_front(
    alloc: Global,
    form: &ChunkHeader,
    decoder: &mut ArrayPartialDecoder<'_, LentHandle<'_>, KnownBytesCodec>,
    size: &SelectionSize,
    numbers: &[u64],
) -> Result<ArrayBytes<'static>, Cause>
    requires form { decoder_form decoder.old ≡ form_seen form.now }
    requires sourced { IsSourced (form_seen form.now) (decoder_value decoder.old) }
    ensures answer { AnswersBy cause_memory HoldsThese result
        (front_read (header_seen form.now) (decoder_value decoder.old) size.now numbers.now) }
    ensures count { IfOk result (λ _. size.now.numbers ≤ length numbers.now) }
    ensures value_kept { decoder_value decoder.new ≡ decoder_value decoder.old }
    ensures form_kept { decoder_form decoder.new ≡ decoder_form decoder.old }
{
    let indexer = front_selection(alloc, form, size, numbers)?;
    let elements = read_one(alloc, form, decoder, &indexer)?;
    Ok(elements)
}

/// The numbers behind so many.
#[tactic(auto, using(std::proofs::lemmas::List::take_rest))]
pub(crate) fn numbers_behind(numbers: &[u64], count: usize) -> &[u64]
    requires inside { count ≤ length numbers.now }
    ensures value { result.now ≡ drop count numbers.now }
{
    &numbers[count..]
}

/// The elements of each selection, by a decoder of the header's chunks.
fn read_each(
    alloc: Global,
    form: &ChunkHeader,
    decoder: &mut ArrayPartialDecoder<'_, LentHandle<'_>, KnownBytesCodec>,
    sizes: &[SelectionSize],
    numbers: &[u64],
) -> Result<Vec<ArrayBytes<'static>>, Cause>
    requires form { decoder_form decoder.old ≡ form_seen form.now }
    requires sourced { IsSourced (form_seen form.now) (decoder_value decoder.old) }
    ensures answer { GivesEach form.now (decoder_value decoder.old) sizes.now numbers.now result }
{
    let mut answers = Vec::with_capacity(alloc, sizes.len())?;
    let mut left = numbers;
    for size in sizes {
        let elements = read_front(alloc, form, decoder, size, left)?;
        answers.push(elements)?;
        left = numbers_behind(left, size.numbers);
    }
    if left.len() != 0 {
        return Err(Cause::Argument);
    }
    Ok(answers)
}

/// The same, by a decoder that is made for them, where the first selection's numbers are read: an
/// error of these comes before one of the construction.
fn read_some(
    alloc: Global,
    form: &ChunkHeader,
    handle: LentHandle<'_>,
    sizes: &[SelectionSize],
    numbers: &[u64],
) -> Result<Vec<ArrayBytes<'static>>, Cause>
    requires first { FirstIsGiven (header_seen form.now) sizes.now numbers.now }
    ensures answer { GivesEach form.now (lent_value handle.entry) sizes.now numbers.now result }
{
    let chain = &form.chain;
    match chain.partial_decoder(
        alloc,
        handle,
        &form.shape,
        &form.data_type,
        &form.fill_value,
    ) {
        Err(refused) => Err(Cause::Refused(Refusal::Codec(refused.error))),
        Ok(mut decoder) => read_each(alloc, form, &mut decoder, sizes, numbers),
    }
}

/// The elements of each selection of a list, of a value or of nothing.
pub(crate) fn read_many(
    alloc: Global,
    form: &ChunkHeader,
    stored: Option<&[u8]>,
    sizes: &[SelectionSize],
    numbers: &[u64],
) -> Result<Vec<ArrayBytes<'static>>, Cause>
    ensures answer { AnswersBy cause_memory (λ v. HoldEach v.items) result
        (many_read (known_header form.now) (lent_stored stored.entry) sizes.now numbers.now) }
{
    if sizes.len() == 0 {
        if numbers.len() != 0 {
            return Err(Cause::Argument);
        }
        return Ok(Vec::new(alloc));
    }
    front_selection(alloc, form, &sizes[0], numbers)?;
    read_some(alloc, form, LentHandle::new(stored), sizes, numbers)
}
