//! A chunk that is taken from one chain to another.
ghost use Rattle.std.specs.Prelude.{◌≡◌, IfOk, true};
ghost use Rattle.zarrs_codecs.specs.ChainGrammar.{chain_grammar};
ghost use Rattle.zarrs_codecs.specs.ChainView.{plain_chain};
ghost use Rattle.zarrs_codecs.specs.CodecMeaning.{normal_form};
ghost use Rattle.zarrs_codecs.specs.Element.{Chunk};
ghost use Rattle.zarrs_codecs.specs.Form.{form_of};

use std::alloc::Global;
use std::borrow::CowSlice;
use zarrs_codecs::laws::tight_containers_are_same;
use zarrs_codecs::{
    BytesToBytesCodecTraits, ChunkShape, CodecChain, CodecError, DataType, FillValue, reencode,
};

/// Takes a value from the chain `from` to the chain `to`, decodes both values, each by its chain, and
/// says whether both chunks are the same bytes: they are wherever `to` leaves nothing out of the chunk.
///
/// It rests on `decoded_again` of `reencode`, on `decodes` and `tight` of `CodecChain::decode`, and on
/// `zarrs_codecs::laws::tight_containers_are_same`.
pub fn is_kept<B: BytesToBytesCodecTraits, C: BytesToBytesCodecTraits>(
    alloc: Global,
    from: &CodecChain<B>,
    to: &CodecChain<C>,
    value: &[u8],
    shape: &ChunkShape,
    data_type: &DataType,
    fill_value: &FillValue,
) -> Result<bool, CodecError>
    // Wide: two chains, and a chunk's form as three parameters.
    ensures same { (chunk : Chunk) → (chain_grammar B.functions (plain_chain from.now)).Stands
        (form_of shape.now data_type.now fill_value.now) value.now chunk
        → normal_form (plain_chain to.now).array_to_bytes data_type.now chunk ≡ chunk
        → IfOk result (λ same. same ≡ true) }
{
    tight_containers_are_same();
    let new = reencode(alloc, from, to, value, shape, data_type, fill_value)?;
    let old = CowSlice::Borrowed(value);
    let before = from.decode(alloc, old, shape, data_type, fill_value)?;
    let after = to.decode(alloc, CowSlice::Owned(new), shape, data_type, fill_value)?;
    Ok(before == after)
}
