//! What the calls answer, before it is returned to C.
ghost use Rattle.zarrs_chunk.specs.Answer.{Answers, AnswersBy, AnswersItems, AnswersValue};
ghost use Rattle.std.specs.Prelude.{◌≡◌, ◌<◌, Some};
ghost use Rattle.zarrs_array_bytes.specs.Pieces.{fixed_of};
ghost use Rattle.zarrs_chain.specs.FrontWrites.{PutsFront};
ghost use Rattle.zarrs_data_type.specs.ElementType.{fixed_size_of};
ghost use Rattle.zarrs_json.specs.HeaderRead.{header_seen};
ghost use Rattle.zarrs_c_calls.specs.Buffers.{buffers};
ghost use Rattle.zarrs_c_calls.specs.Calls.{header_given, known_header, represented, encoded, value_decoded, reencoded};
ghost use Rattle.zarrs_c_calls.specs.Codes.{cause_memory};
ghost use Rattle.zarrs_c_calls.specs.Told.{HoldsThese};

use crate::cause::Cause;
use crate::given::elements_given;
use std::alloc::Global;
use std::borrow::CowSlice;
use zarrs_array_bytes::ArrayBytes;
use zarrs_chain::moved_into::{decode_into, encode_into};
use zarrs_chain::reencode::reencode;
use zarrs_chain::stages::Form;
use zarrs_codec::BytesRepresentation;
use zarrs_json::{ChunkHeader, KnownMaker, read_codecs, read_header};

/// The header that a text is.
pub(crate) fn form_given(alloc: Global, text: &[u8]) -> Result<ChunkHeader, Cause>
    ensures answer { Answers cause_memory header_seen result (header_given text.now) }
{
    Ok(read_header(alloc, &KnownMaker::Shipped, text)?)
}

/// How many bytes the value of a header's chunk has.
pub(crate) fn representation(
    alloc: Global,
    form: &ChunkHeader,
) -> Result<BytesRepresentation, Cause>
    ensures answer { AnswersValue cause_memory result (represented (known_header form.now)) }
{
    let representation = form
        .chain
        .encoded_representation(alloc, &form.shape, &form.data_type, &form.fill_value)?;
    Ok(representation)
}

/// Writes the value for the chunk of these elements in front of the buffer, where that has room for it:
/// how many bytes it has.
pub(crate) fn encode(
    alloc: Global,
    header: &ChunkHeader,
    masks: &[u8],
    offsets: &[u64],
    bytes: &[u8],
    out: &mut [u8],
) -> Result<usize, Cause>
    ensures written { PutsFront out.old out.new result (λ answer. Answers cause_memory (λ items. items) answer
        (encoded (known_header header.now) (buffers masks.now offsets.now bytes.now))) }
{
    let elements = elements_given(alloc, &header.data_type, masks, offsets, bytes)?;
    let form = Form {
        shape: &header.shape,
        data_type: &header.data_type,
        fill_value: &header.fill_value,
    };
    let count = encode_into(alloc, &header.chain, elements, form, out)?;
    Ok(count)
}

/// The chunk that a value stands for.
pub(crate) fn decode<'a>(
    alloc: Global,
    header: &ChunkHeader,
    value: &'a [u8],
) -> Result<ArrayBytes<'a>, Cause>
    ensures answer { AnswersBy cause_memory HoldsThese result (value_decoded (header_seen header.now) value.now) }
{
    let elements = header.chain.decode(
        alloc,
        CowSlice::Borrowed(value),
        &header.shape,
        &header.data_type,
        &header.fill_value,
    )?;
    Ok(elements)
}

/// Writes the elements, all of `size` bytes, of the chunk that a value stands for in front of the buffer,
/// where that has room for them: how many bytes they have.
pub(crate) fn decode_front(
    alloc: Global,
    header: &ChunkHeader,
    value: &[u8],
    size: usize,
    bytes: &mut [u8],
) -> Result<usize, Cause>
    requires some { 0 < size }
    requires sized { fixed_size_of (header_seen header.now).data_type ≡ Some size }
    ensures written { PutsFront bytes.old bytes.new result (λ answer. AnswersBy cause_memory
        (λ items. HoldsThese (fixed_of items)) answer (value_decoded (header_seen header.now) value.now)) }
{
    let form = Form {
        shape: &header.shape,
        data_type: &header.data_type,
        fill_value: &header.fill_value,
    };
    let value = CowSlice::Borrowed(value);
    let count = decode_into(alloc, &header.chain, value, form, size, bytes)?;
    Ok(count)
}

/// The value that the chain of these codecs writes for the chunk that a value stands for.
pub(crate) fn reencode_value(
    alloc: Global,
    form: &ChunkHeader,
    value: &[u8],
    codecs: &[u8],
) -> Result<Vec<u8>, Cause>
    ensures answer { AnswersItems cause_memory result
        (reencoded (known_header form.now) value.now codecs.now) }
{
    let to = read_codecs(alloc, &KnownMaker::Shipped, codecs)?;
    let other = reencode(
        alloc,
        &form.chain,
        &to,
        value,
        &form.shape,
        &form.data_type,
        &form.fill_value,
    )?;
    Ok(other)
}
