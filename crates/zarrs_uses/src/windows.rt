//! A window of a stored chunk is that part of the decoded chunk.
ghost use Rattle.std.specs.Prelude.{◌≡◌, IfOk, true};
ghost use Rattle.zarrs_codecs.specs.Tight.{IsTight};
ghost use Rattle.zarrs_codecs.specs.Validity.{Holds};
ghost use Rattle.zarrs_codecs.specs.Answer.{AnswersBy, memory_or_fault};
ghost use Rattle.zarrs_codecs.specs.Indexer.{selection_of};
ghost use Rattle.zarrs_codecs.specs.Selection.{subset};
ghost use Rattle.zarrs_codecs.specs.ChunkRead.{chunk_of};
ghost use Rattle.zarrs_codecs.specs.MadeCoder.{made_read};
ghost use Rattle.zarrs_uses.specs.Windows.{ReadsWindow};

use std::alloc::Global;
use std::borrow::CowSlice;
use zarrs_codecs::laws::{chain_is_sound, standing_is_opened, tight_containers_are_same};
use zarrs_codecs::{
    ArrayBytes, ArraySubset, BytesPartialDecoderTraits, BytesToBytesCodecTraits, ChunkShape,
    CodecChain, CodecChainPartialTraits, CodecError, DataType, FillValue, Indexer, LentHandle,
};

/// Reads what an indexer selects of a stored chunk, through a decoder that is made for this call.
fn read_selected<H: BytesPartialDecoderTraits, B: BytesToBytesCodecTraits>(
    alloc: Global,
    chain: &CodecChain<B>,
    handle: &mut H,
    indexer: &Indexer,
    shape: &ChunkShape,
    data_type: &DataType,
    fill_value: &FillValue,
) -> Result<ArrayBytes<'static>, CodecError>
    ensures selected { ReadsWindow B.functions (chunk_of chain.now shape.now data_type.now fill_value.now)
        (H.state handle.old).value (selection_of indexer.now) result }
    // Wide: the chunk's form as three parameters, and what bytes-to-bytes codecs read in part.
    ensures exact { AnswersBy memory_or_fault (Holds data_type.now) result
        (made_read B.functions B.reads_in_part
        (chunk_of chain.now shape.now data_type.now fill_value.now)
        (H.state handle.old).value (selection_of indexer.now)) }
    ensures tight { IfOk result (IsTight data_type.now) }
{
    standing_is_opened::<B>();
    chain_is_sound(chain);
    shape.as_slice();
    match chain.partial_decoder(alloc, handle, shape, data_type, fill_value) {
        Err(refused) => Err(refused.error),
        Ok(mut decoder) => decoder.partial_decode(alloc, indexer),
    }
}

/// Reads a window of a chunk that is stored behind a handle. Where the stored value stands for a chunk, it
/// answers the chunk's elements at the window's places, row by row, or the window's error; else the
/// first error is that of the decoder's construction, and then that of the read. A lack of memory or a
/// failure of the handle may come in its place.
///
/// It rests on `answer`, `form` and `over_state` of `CodecChain::partial_decoder`, on `reads` of
/// `ArrayPartialDecoder::partial_decode`, its parts `selected` and `exact`, and on
/// `zarrs_codecs::laws::standing_is_opened`.
pub fn read_window<H: BytesPartialDecoderTraits, B: BytesToBytesCodecTraits>(
    alloc: Global,
    chain: &CodecChain<B>,
    handle: &mut H,
    window: ArraySubset,
    shape: &ChunkShape,
    data_type: &DataType,
    fill_value: &FillValue,
) -> Result<ArrayBytes<'static>, CodecError>
    ensures selected { ReadsWindow B.functions (chunk_of chain.now shape.now data_type.now fill_value.now)
        (H.state handle.old).value (subset window) result }
    // Wide: the chunk's form as three parameters, and what bytes-to-bytes codecs read in part.
    ensures exact { AnswersBy memory_or_fault (Holds data_type.now) result
        (made_read B.functions B.reads_in_part
        (chunk_of chain.now shape.now data_type.now fill_value.now)
        (H.state handle.old).value (subset window)) }
    ensures tight { IfOk result (IsTight data_type.now) }
{
    let indexer = Indexer::Subset(window);
    read_selected(alloc, chain, handle, &indexer, shape, data_type, fill_value)
}

/// Reads a window of a value in two ways, in part and of the whole decoded chunk, and says whether both
/// are the same bytes: they always are.
///
/// It rests on `read_window`, on `decodes` of `CodecChain::decode`, on `exact` of
/// `ArrayBytes::extract_array_subset`, and on `zarrs_codecs::laws::tight_containers_are_same`.
pub fn windows_agree<B: BytesToBytesCodecTraits>(
    alloc: Global,
    chain: &CodecChain<B>,
    value: &[u8],
    window: ArraySubset,
    shape: &ChunkShape,
    data_type: &DataType,
    fill_value: &FillValue,
) -> Result<bool, CodecError>
    ensures same { IfOk result (λ same. same ≡ true) }
{
    tight_containers_are_same();
    let whole = chain.decode(
        alloc,
        CowSlice::Borrowed(value),
        shape,
        data_type,
        fill_value,
    )?;
    let copy = window.clone()?;
    let indexer = Indexer::Subset(copy);
    let cut = whole.extract_array_subset(alloc, &indexer, shape, data_type)?;
    let mut handle = LentHandle::new(Some(value));
    let read = read_window(
        alloc,
        chain,
        &mut handle,
        window,
        shape,
        data_type,
        fill_value,
    )?;
    Ok(read == cut)
}
