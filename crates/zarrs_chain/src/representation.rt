//! How many bytes the value of a chunk has, through a chain.
ghost use Rattle.zarrs_chunk.specs.Answer.{Gives, checked_u64};
ghost use Rattle.std.specs.Prelude.{◌≡◌, IfOk, Ok};
ghost use Rattle.zarrs_chunk.specs.ChunkShape.{product};
ghost use Rattle.zarrs_chain_meaning.specs.Chain.{taken_form as taken_form_of};
ghost use Rattle.zarrs_chain.specs.ChainCalls.{MapsArrays};
ghost use Rattle.zarrs_chain.specs.ChainView.{plain_chain};
ghost use Rattle.zarrs_chain.specs.FormView.{lent_form};
ghost use Rattle.zarrs_chain_meaning.specs.CallAnswers.{GivesChainRepresentation};

use crate::array_to_bytes_codec::codec_representation;
use crate::codec_chain::CodecChain;
use crate::form::Form;
use std::alloc::Global;
use zarrs_chain_meaning::array_stages::shape_through;
use zarrs_chain_meaning::bytes_stages::outer_representation;
use zarrs_chunk::{ChunkShape, CodecError};
use zarrs_codec::{BytesRepresentation, BytesToBytesCodecTraits};

/// What a chain's array-to-bytes codec gets, and how many bytes it makes of it.
#[derive(Drop)]
pub(crate) struct TakenForm {
    pub(crate) shape: ChunkShape,
    pub(crate) representation: BytesRepresentation,
}

/// What the chain's array-to-bytes codec gets of such a chunk. Errors: those of
/// `encoded_representation`.
#[cycle(representation)]
#[tactic(auto, using(zarrs_chain_meaning::proofs::ChainCounts::chain_counted))]
pub(crate) fn taken_form<B: BytesToBytesCodecTraits>(
    alloc: Global,
    chain: &CodecChain<B>,
    form: Form<'_>,
) -> Result<TakenForm, CodecError>
    // Wide: the parts of a form.
    ensures answer { Gives (λ taken. (taken.shape, taken.representation)) result
        (taken_form_of B.functions (plain_chain chain.now)
        form.entry.shape.now form.entry.data_type.now form.entry.fill_value.now) }
    ensures map { MapsArrays chain.now form.entry.data_type.now form.entry.shape.now result }
    ensures counted { IfOk result (λ _.
        checked_u64 (product form.entry.shape.now) ≡ Ok (product form.entry.shape.now)) }
{
    let encoded = shape_through(alloc, &chain.array_to_array, form.shape, form.data_type)?;
    let inside = Form {
        shape: &encoded,
        ..form
    };
    let representation = codec_representation(alloc, &chain.array_to_bytes, inside)?;
    Ok(TakenForm {
        shape: encoded,
        representation,
    })
}

/// How many bytes the value of such a chunk has. Errors: those of `encoded_representation`.
#[cycle(representation)]
#[tactic(auto, using(zarrs_chain_meaning::proofs::ChainSteps::form_representation))]
pub(crate) fn chain_representation<B: BytesToBytesCodecTraits>(
    alloc: Global,
    chain: &CodecChain<B>,
    form: Form<'_>,
) -> Result<BytesRepresentation, CodecError>
    ensures answer { GivesChainRepresentation B.functions (plain_chain chain.now)
        (lent_form form.entry) result }
{
    let taken = taken_form(alloc, chain, form)?;
    Ok(outer_representation(&chain.bytes_to_bytes, taken.representation))
}
