//! Re-encoding: a value of one chain as the value of another, of the same chunk.
ghost use Rattle.std.specs.Prelude.{◌≡◌, true, Ok, IsOk};
ghost use Rattle.zarrs_chunk.specs.Answer.{Gives};
ghost use Rattle.zarrs_data_type.specs.Form.{form_of};
ghost use Rattle.zarrs_array_bytes.specs.Held.{raw_of, items_of};
ghost use Rattle.zarrs_chain.specs.ChainView.{plain_chain};
ghost use Rattle.zarrs_chain.specs.EncodedAgain.{ReencodedStands};
ghost use Rattle.zarrs_chain.specs.Reencode.{Reencodes};

use crate::codec_chain::{CodecChain, chain_is_sound};
use std::alloc::Global;
use std::borrow::CowSlice;
use zarrs_array_bytes::ArrayBytesRaw;
use zarrs_chunk::{ChunkShape, CodecError};
use zarrs_codec::BytesToBytesCodecTraits;
use zarrs_data_type::{DataType, FillValue};

/// The bytes as a vector: owned ones as they are, and borrowed ones copied.
fn owned(alloc: Global, bytes: ArrayBytesRaw<'_>) -> Result<Vec<u8>, CodecError>
    ensures answer { Gives (λ owned. owned.items) result (Ok (items_of bytes.entry)) }
    ensures owned { (raw_of bytes.entry).is_owned ≡ true → IsOk result }
{
    match bytes {
        CowSlice::Borrowed(bytes) => Ok(Vec::from_slice(alloc, bytes)?),
        CowSlice::Owned(bytes) => Ok(bytes),
    }
}

/// The value that the chain `to` writes for the chunk that `value` stands for under the chain
/// `from`. Errors, the first that holds, `OutOfMemory` aside: those of `CodecChain::decode` of
/// `from`; those of `CodecChain::encode` of `to`.
///
/// Into the same chain the answer is the chunk's canonical value, which `value` need not be. Bytes
/// that both chains leave as they are are copied once; bytes that a codec made are handed out.
///
/// Under `to` the answer stands for the normal form of the chunk that `value` stands for under `from`:
/// for what `to` keeps of it.
pub fn reencode<B: BytesToBytesCodecTraits, C: BytesToBytesCodecTraits>(
    alloc: Global,
    from: &CodecChain<B>,
    to: &CodecChain<C>,
    value: &[u8],
    shape: &ChunkShape,
    data_type: &DataType,
    fill_value: &FillValue,
) -> Result<Vec<u8>, CodecError>
    // Wide: two chains with their bytes-to-bytes codecs, and the form of a chunk as three
    // parameters.
    ensures reencodes { Reencodes
        B.functions (plain_chain from.now) C.functions (plain_chain to.now)
        (form_of shape.now data_type.now fill_value.now) value.now result }
    // Wide: the same.
    ensures decoded_again { ReencodedStands
        B.functions (plain_chain from.now) C.functions (plain_chain to.now)
        (form_of shape.now data_type.now fill_value.now) value.now result }
{
    chain_is_sound(from);
    shape.as_slice();
    let lent = CowSlice::Borrowed(value);
    let elements = from.decode(alloc, lent, shape, data_type, fill_value)?;
    let written = to.encode(alloc, elements, shape, data_type, fill_value)?;
    owned(alloc, written)
}
