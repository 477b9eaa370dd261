//! What a partial decoder keeps of the stored value when it is made.
ghost use Rattle.std.specs.Prelude.{◌≡◌, ◌≤◌, ℕ, IfOk, Ok, Some, length, map, true, false};
ghost use Rattle.zarrs_chunk.specs.Answer.{is_fault, GivesBy, GivesItems};
ghost use Rattle.zarrs_array_bytes.specs.Held.{items_of};
ghost use Rattle.zarrs_array_bytes.specs.Tight.{IsTight};
ghost use Rattle.zarrs_array_bytes.specs.Validity.{Holds};
ghost use Rattle.zarrs_codec.specs.StorageState.{after_reading};
ghost use Rattle.zarrs_chain_meaning.specs.Chain.{codec_reads as codec_reads_of};
ghost use Rattle.zarrs_chain.specs.ChainView.{plain_chain};
ghost use Rattle.zarrs_codecs.specs.ChunkSource.{undecoded_codecs, cache_stage as cache_stage_of, has_cache, is_cache, kept_stage, stage_by, is_cache_of, is_stage_of, opened_chunk, upper_bytes, FilledOnce, FillsCache};
ghost use Rattle.zarrs_codecs.specs.CacheTight.{CacheIsTight};
ghost use Rattle.zarrs_codecs.specs.KeptIndex.{knows_index};
ghost use Rattle.zarrs_codecs.specs.ChunkRead.{TakenBy};
ghost use Rattle.zarrs_chain.specs.FormView.{lent_form};

use crate::partial_decoder::cache::{Cache, CacheStage};
use std::alloc::Global;
use std::borrow::CowSlice;
use zarrs_array_bytes::{ArrayBytes, ArrayBytesRaw};
use zarrs_chain::CodecChain;
use zarrs_chain::stages::{Form, codec_decode, decode_bytes, outer_representation};
use zarrs_chunk::CodecError;
use zarrs_codec::{
    BytesPartialDecoderTraits, BytesRepresentation, BytesToBytesCodecTraits, CodecTraits,
    PartialDecoderCapability,
};

/// How many of the first bytes-to-bytes codecs a cache leaves undecoded, where one of the codecs
/// wants a cache.
fn codecs_left<B: BytesToBytesCodecTraits>(codecs: &[B]) -> Option<usize>
    ensures value { result ≡ undecoded_codecs (map B.reads_in_part codecs.now) }
    ensures known { (left : ℕ) → result ≡ Some left → left ≤ length codecs.now }
{
    match codecs {
        [] => None,
        [first, rest @ ..] => {
            let reads = first.partial_decoder_capability();
            if !reads.partial_decode {
                Some(0)
            } else if !reads.partial_read {
                Some(1)
            } else {
                match codecs_left(rest) {
                    None => None,
                    Some(left) => Some(left + 1),
                }
            }
        }
    }
}

/// Where a cache stands, by what the array-to-bytes codec reads in part and by how many
/// bytes-to-bytes codecs it leaves.
fn stage_of(codec: PartialDecoderCapability, left: Option<usize>) -> CacheStage
    ensures value { result ≡ stage_by codec left }
{
    if !codec.partial_decode {
        return CacheStage::Chunk;
    }
    if !codec.partial_read {
        return CacheStage::Bytes(0);
    }
    match left {
        None => CacheStage::Nowhere,
        Some(left) => CacheStage::Bytes(left),
    }
}

/// What the array-to-bytes codec reads in part.
pub(crate) fn codec_reads<B: BytesToBytesCodecTraits>(
    chain: &CodecChain<B>,
) -> PartialDecoderCapability
    ensures value { result ≡ codec_reads_of (plain_chain chain.now).array_to_bytes }
{
    chain.array_to_bytes_codec().partial_decoder_capability()
}

/// Where the cache of a chain stands.
pub(crate) fn cache_stage<B: BytesToBytesCodecTraits>(chain: &CodecChain<B>) -> CacheStage
    ensures value { result ≡ cache_stage_of B.reads_in_part (plain_chain chain.now) }
    ensures fits { is_stage_of (plain_chain chain.now) result ≡ true }
{
    let codec = codec_reads(chain);
    stage_of(codec, codecs_left(chain.bytes_to_bytes_codecs()))
}

/// The bytes as a vector.
fn into_vec(alloc: Global, bytes: ArrayBytesRaw<'_>) -> Result<Vec<u8>, CodecError>
    ensures answer { GivesItems result (Ok (items_of bytes.entry)) }
{
    match bytes {
        CowSlice::Borrowed(bytes) => Ok(Vec::from_slice(alloc, bytes)?),
        CowSlice::Owned(bytes) => Ok(bytes),
    }
}

/// The bytes above so many of the first codecs, that a value stands for. Errors: `BytesCodec` of
/// the last codec, then of the one before.
fn bytes_above<B: BytesToBytesCodecTraits>(
    alloc: Global,
    codecs: &[B],
    below: usize,
    size: BytesRepresentation,
    value: Vec<u8>,
) -> Result<Vec<u8>, CodecError>
    requires known { below ≤ length codecs.now }
    ensures answer { GivesItems result (upper_bytes B.functions codecs.now below size value.items) }
{
    let above = outer_representation(&codecs[..below], size);
    let bytes = decode_bytes(alloc, &codecs[below..], &above, CowSlice::Owned(value))?;
    into_vec(alloc, bytes)
}

/// The chunk that the array-to-bytes codec reads. Errors: `BytesCodec` of the last bytes-to-bytes
/// codec, then of the one before; those of the array-to-bytes codec.
pub(crate) fn chunk_below<B: BytesToBytesCodecTraits>(
    alloc: Global,
    chain: &CodecChain<B>,
    form: Form<'_>,
    representation: &BytesRepresentation,
    value: Vec<u8>,
) -> Result<ArrayBytes<'static>, CodecError>
    requires taken { TakenBy B.functions (plain_chain chain.now).array_to_bytes (lent_form form) }
    ensures answer { GivesBy (Holds form.entry.data_type.now) result (opened_chunk B.functions
        (plain_chain chain.now) (lent_form form.entry) representation.now value.items) }
    ensures tight { IfOk result (IsTight form.entry.data_type.now) }
{
    let bytes = decode_bytes(
        alloc,
        chain.bytes_to_bytes_codecs(),
        representation,
        CowSlice::Owned(value),
    )?;
    codec_decode(
        alloc,
        chain.array_to_bytes_codec(),
        bytes,
        form.shape,
        form.data_type,
        form.fill_value,
    )
}

/// What is kept of the stored value where the cache stands here. The handle is asked once, and not
/// at all without a cache. Errors, the first that holds, `OutOfMemory` aside: `Storage`; those of
/// what decodes the value up to the cache.
pub(crate) fn make_cache<H: BytesPartialDecoderTraits, B: BytesToBytesCodecTraits>(
    alloc: Global,
    chain: &CodecChain<B>,
    handle: &mut H,
    stage: CacheStage,
    form: Form<'_>,
    representation: BytesRepresentation,
) -> Result<Cache, CodecError>
    requires taken { TakenBy B.functions (plain_chain chain.now).array_to_bytes (lent_form form) }
    requires stage { is_stage_of (plain_chain chain.now) stage ≡ true }
    ensures answer { FillsCache B.functions (plain_chain chain.now) representation stage (lent_form
        form.entry) (H.state handle.old).value result }
    ensures fits { IfOk result (λ cache. is_cache_of chain.now form.entry.shape.now
        form.entry.data_type.now cache ≡ true) }
    ensures tight { IfOk result (CacheIsTight form.entry.data_type.now) }
    ensures stage { IfOk result (λ cache. kept_stage cache ≡ stage) }
    ensures left { H.state handle.new ≡ after_reading result (H.state handle.old) }
    ensures same_reference { H.lent handle.new ≡ H.lent handle.old }
    ensures counted { IfOk result
        (λ cache. FilledOnce H.calls (is_cache cache) handle.old handle.new) }
    ensures cached { IfOk result (λ cache. is_cache cache ≡ has_cache stage) }
    ensures index { IfOk result (λ cache. knows_index cache ≡ false) }
    ensures no_fault_if_uncached { stage ≡ CacheStage.Nowhere → is_fault result ≡ false }
{
    match stage {
        CacheStage::Nowhere => Ok(Cache::Handle),
        CacheStage::Bytes(below) => match handle.decode(alloc)? {
            None => Ok(Cache::Bytes(below, None)),
            Some(value) => {
                let codecs = chain.bytes_to_bytes_codecs();
                let bytes = bytes_above(alloc, codecs, below, representation, value)?;
                Ok(Cache::Bytes(below, Some(bytes)))
            }
        },
        CacheStage::Chunk => match handle.decode(alloc)? {
            None => Ok(Cache::Chunk(None)),
            Some(value) => {
                let held = chunk_below(alloc, chain, form, &representation, value)?;
                Ok(Cache::Chunk(Some(held)))
            }
        },
    }
}
