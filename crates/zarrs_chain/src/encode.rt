//! The value of a chunk, through a chain.
ghost use Rattle.zarrs_chunk.specs.Answer.{Gives, is_fault, checked_u64};
ghost use Rattle.std.specs.Prelude.{◌≡◌, Ok, false};
ghost use Rattle.zarrs_chunk.specs.ChunkShape.{product};
ghost use Rattle.zarrs_array_bytes.specs.Held.{items_of};
ghost use Rattle.zarrs_array_bytes.specs.Validity.{validity};
ghost use Rattle.zarrs_bytes.specs.GivenBytes.{IsGiven};
ghost use Rattle.zarrs_chain_meaning.specs.CallAnswers.{GivesPartValue};
ghost use Rattle.zarrs_chain_meaning.specs.KeptBytes.{KeepsBytes};
ghost use Rattle.zarrs_chain_meaning.specs.Chain.{held_value, row_sizes};
ghost use Rattle.zarrs_chain.specs.ChainView.{plain_chain};

use crate::array_to_bytes_codec::codec_encode;
use crate::codec_chain::CodecChain;
use crate::form::Form;
use crate::representation::taken_form;
use std::alloc::Global;
use std::borrow::CowSlice;
use zarrs_array_bytes::{ArrayBytes, ArrayBytesRaw};
use zarrs_chain_meaning::array_stages::encode_arrays;
use zarrs_chain_meaning::bytes_stages::encode_bytes;
use zarrs_chunk::{ChunkShape, CodecError};
use zarrs_codec::BytesToBytesCodecTraits;
use zarrs_data_type::{DataType, FillValue};

/// That the container holds a chunk of this shape and type. Errors: those of
/// `ArrayBytes::validate`.
pub(crate) fn check_elements(
    elements: &ArrayBytes<'_>,
    shape: &ChunkShape,
    data_type: &DataType,
) -> Result<(), CodecError>
    requires counted { checked_u64 (product shape.now) ≡ Ok (product shape.now) }
    ensures answer { result ≡ validity data_type.now (product shape.now) elements.now }
    ensures no_fault { is_fault result ≡ false }
{
    let count = shape.num_elements()?;
    elements.validate(count, data_type)
}

/// The value that the chain writes of the chunk that `held` holds. Errors: those of
/// `CodecChain::encode`.
#[cycle(encode)]
pub(crate) fn chain_encode<'a, B: BytesToBytesCodecTraits>(
    alloc: Global,
    chain: &CodecChain<B>,
    held: ArrayBytes<'a>,
    form: Form<'_>,
) -> Result<ArrayBytesRaw<'a>, CodecError>
    ensures exact { Gives items_of result (held_value B.functions (plain_chain chain.now)
        form.entry.shape.now form.entry.data_type.now form.entry.fill_value.now held.entry) }
    ensures kept { KeepsBytes (plain_chain chain.now) form.entry.data_type.now
        → IsGiven held.entry result }
{
    let taken = taken_form(alloc, chain, form)?;
    let Form {
        shape,
        data_type,
        fill_value,
    } = form;
    check_elements(&held, shape, data_type)?;
    let chunk = encode_arrays(
        alloc,
        &chain.array_to_array,
        held,
        shape,
        data_type,
        fill_value,
    )?;
    let inside = Form {
        shape: &taken.shape,
        ..form
    };
    let below = codec_encode(alloc, &chain.array_to_bytes, chunk, inside)?;
    encode_bytes(alloc, &chain.bytes_to_bytes, below)
}

/// What the chain writes of a row of so many elements: nothing of none. Errors: those of
/// `chain_encode`.
#[cycle(encode)]
pub(crate) fn part_encode<'a, B: BytesToBytesCodecTraits>(
    alloc: Global,
    chain: &CodecChain<B>,
    held: ArrayBytes<'a>,
    count: u64,
    kind: &DataType,
    fill: &FillValue,
) -> Result<ArrayBytesRaw<'a>, CodecError>
    ensures exact { GivesPartValue B.functions (plain_chain chain.now)
        count kind.now fill.now held.entry result }
{
    match row_of(alloc, count)? {
        Some(row) => {
            let form = Form {
                shape: &row,
                data_type: kind,
                fill_value: fill,
            };
            chain_encode(alloc, chain, held, form)
        }
        None => Ok(CowSlice::Owned(Vec::new(alloc))),
    }
}

/// The shape of a row of so many elements, if there are any.
#[tactic(auto, using(zarrs_chain_meaning::proofs::PartSteps::row_shape))]
pub(crate) fn row_of(alloc: Global, count: u64) -> Result<Option<ChunkShape>, CodecError>
    ensures answer { Gives (λ row. row) result (Ok (row_sizes count)) }
{
    let mut sizes = Vec::with_capacity(alloc, 1)?;
    sizes.push(count)?;
    Ok(ChunkShape::new(sizes))
}
