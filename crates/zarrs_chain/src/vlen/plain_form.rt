//! Which codecs `vlen` are plain: their index chain is `bytes` with a byte order, and their data chain
//! is `bytes`, both alone.
ghost use Rattle.std.specs.Prelude.{◌≡◌, option_map};
ghost use Rattle.zarrs_chain_meaning.specs.Chain.{codec_reads};
ghost use Rattle.zarrs_chain_meaning.specs.CodecFacts.{facts, if_alone};
ghost use Rattle.zarrs_chain_meaning.specs.vlen.PlainForm.{form_of_chains};
ghost use Rattle.zarrs_chain_meaning.specs.vlen.PlainVlen.{plain_form};
ghost use Rattle.zarrs_chain_meaning.specs.vlen.VlenSettings.{is_wide, is_at_end};
ghost use Rattle.zarrs_chain.specs.ChainView.{plain_chain, plain_vlen};

use crate::array_to_bytes_codec::ArrayToBytesCodec;
use crate::codec_chain::CodecChain;
use crate::vlen::vlen_codec::VlenCodec;
use zarrs_chain_meaning::vlen::plain_vlen::PlainVlen;
use zarrs_codec::PartialDecoderCapability;
use zarrs_data_type::Endianness;
use zarrs_metadata::{VlenIndexDataType, VlenIndexLocation};

/// The byte order of a chain that is a lone codec `bytes`, or that it has none; `None` for any other
/// chain.
#[tactic(auto, unfolding(crate::specs::ChainView::plain_codec), using(crate::specs::ChainView::plain_vlen_at, crate::specs::ChainView::plain_optional_at, crate::specs::ChainView::plain_sharding_at, crate::proofs::PlainForms::arrays_before, crate::proofs::PlainForms::bytes_behind, crate::proofs::PlainForms::none_around, crate::proofs::PlainForms::none_else))]
pub(crate) fn lone_bytes<B>(chain: &CodecChain<B>) -> Option<Option<Endianness>>
    ensures value { result ≡ if_alone (plain_chain chain.now).array_to_array (facts
        (plain_chain chain.now).array_to_bytes).order (plain_chain chain.now).bytes_to_bytes }
{
    if !chain.array_to_array.is_empty() {
        return None;
    }
    if !chain.bytes_to_bytes.is_empty() {
        return None;
    }
    match &chain.array_to_bytes {
        ArrayToBytesCodec::Bytes(codec) => Some(codec.endianness()),
        _ => None,
    }
}

/// The plain form of a codec `vlen` with these settings, over chains of which this is known; `None`
/// where it has none.
pub(crate) fn form_of_parts(
    index: Option<Option<Endianness>>,
    content: Option<Option<Endianness>>,
    index_data_type: VlenIndexDataType,
    index_location: VlenIndexLocation,
) -> Option<PlainVlen>
    ensures form { option_map plain_form result
        ≡ form_of_chains index content (is_wide index_data_type) (is_at_end index_location) }
{
    match (index, content) {
        (Some(Some(endianness)), Some(_)) => Some(PlainVlen {
            endianness,
            index_data_type,
            index_location,
        }),
        _ => None,
    }
}

/// What a codec `vlen` reads in part: all where it is plain, else nothing.
#[tactic(auto, using(crate::proofs::PlainForms::reads_by_form))]
pub(crate) fn vlen_reads<B>(codec: &VlenCodec<B>) -> PartialDecoderCapability
    ensures value { result ≡ codec_reads (plain_vlen codec.now) }
{
    let is_plain = codec.plain_form().is_some();
    PartialDecoderCapability {
        partial_read: is_plain,
        partial_decode: is_plain,
    }
}
