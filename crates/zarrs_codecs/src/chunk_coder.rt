//! What reading and writing a chunk in part share: the chain, the form of the chunk, and the cache.
ghost use Rattle.std.specs.Prelude.{◌≡◌, ◌<◌, ◌^◌, All, Ok, IfOk, length, is_ok, true};
ghost use Rattle.zarrs_chunk.specs.ChunkShape.{product};
ghost use Rattle.zarrs_data_type.specs.FillValue.{fill_fits};
ghost use Rattle.zarrs_codec.specs.StorageState.{after_reading};
ghost use Rattle.zarrs_chain_meaning.specs.Chain.{codec_reads as codec_reads_of, taken_form as taken_form_of};
ghost use Rattle.zarrs_chain.specs.ChainView.{plain_chain};
ghost use Rattle.zarrs_chain.specs.FormView.{lent_form};
ghost use Rattle.zarrs_codecs.specs.CachePlace.{SureWithoutCache, has_cache_place};
ghost use Rattle.zarrs_codecs.specs.ChunkRead.{chunk_form, form_taken};
ghost use Rattle.zarrs_codecs.specs.ChunkSource.{FilledOnce, MakesSource, cache_fits, is_cache};
ghost use Rattle.zarrs_codecs.specs.CacheTight.{CacheIsTight, CacheIsTight-prop};
ghost use Rattle.zarrs_chain_meaning.specs.Laws.{IsChainOfMappings};
ghost use Rattle.zarrs_chain_meaning.specs.CodecMeaning.{codec_representation};
ghost use Rattle.zarrs_chunk.specs.Answer.{Gives};
ghost use Rattle.zarrs_codecs.specs.RefusedFirst.{RefusedFirst};

use crate::partial_decoder::cache::Cache;
use crate::partial_decoder::make_cache::{cache_stage, make_cache};
use std::alloc::Global;
use zarrs_chain::CodecChain;
use zarrs_chain::stages::{Form, chain_is_sound, taken_form};
use zarrs_chunk::{ChunkShape, CodecError};
use zarrs_codec::{BytesPartialDecoderTraits, BytesRepresentation, BytesToBytesCodecTraits};
use zarrs_data_type::{DataType, FillValue};

/// What reads and writes a chunk in part, but for the handle: the chain, the chunk's form, and what a cache keeps
/// of the stored value.
#[derive(Drop)]
pub(crate) struct ChunkCoder<'a, B: BytesToBytesCodecTraits> {
    pub(crate) chain: &'a CodecChain<B>,
    pub(crate) cache: Cache,
    pub(crate) shape: ChunkShape,
    pub(crate) encoded: ChunkShape,
    pub(crate) data_type: DataType,
    pub(crate) fill_value: FillValue,
    pub(crate) representation: BytesRepresentation,
    ghost taken: { taken_form_of B.functions (plain_chain chain.now) shape data_type fill_value ≡ Ok (encoded, representation) },
    ghost measured: { is_ok (codec_representation B.functions (plain_chain chain.now).array_to_bytes encoded data_type fill_value) ≡ true },
    ghost filling: { fill_fits data_type fill_value ≡ true },
    ghost counted: { product encoded < 2 ^ 64 },
    ghost counted_whole: { product shape < 2 ^ 64 },
    ghost fits: { cache_fits (codec_reads_of (plain_chain chain.now).array_to_bytes) data_type (product encoded) (length (plain_chain chain.now).bytes_to_bytes) cache ≡ true },
    ghost tight: { CacheIsTight data_type cache } by { CacheIsTight-prop data_type cache },
}

impl<'a, B: BytesToBytesCodecTraits> ChunkCoder<'a, B> {
    ghost use Rattle.zarrs_codecs.specs.ChunkCoder.{coder_form, coder_keeps_nothing, reader_source, IsFilledFrom, IsIndexFrom};

    /// A coder of such a chunk without a cache. Errors: those of the chain's representation.
    pub(crate) fn uncached(
        alloc: Global,
        chain: &'a CodecChain<B>,
        form: Form<'_>,
    ) -> Result<ChunkCoder<'a, B>, CodecError>
        ensures answer { Gives (λ it. (it.encoded, it.representation)) result
            (form_taken B.functions chain.now (lent_form form.entry)) }
        ensures form { IfOk result (λ it. coder_form it
            ≡ chunk_form (plain_chain chain.now) (lent_form form.entry)) }
        ensures uncached { IfOk result (λ coder. coder_keeps_nothing coder ≡ true) }
    {
        let shape = form.shape.clone()?;
        let data_type = form.data_type.clone()?;
        let fill_value = form.fill_value.clone()?;
        let (encoded, representation) = taken_form(alloc, chain, &shape, &data_type, &fill_value)?;
        Ok(ChunkCoder {
            chain,
            cache: Cache::Handle,
            shape,
            encoded,
            data_type,
            fill_value,
            representation,
        })
    }

    /// A coder of such a chunk, whose cache is filled from the handle. Errors, the first that
    /// holds, `OutOfMemory` aside: those of the chain's representation, before the handle is asked;
    /// with a cache, `Storage` and those of what decodes the value up to the cache.
    pub(crate) fn new<H: BytesPartialDecoderTraits>(
        alloc: Global,
        chain: &'a CodecChain<B>,
        handle: &mut H,
        form: Form<'_>,
    ) -> Result<ChunkCoder<'a, B>, CodecError>
        ensures answer { MakesSource reader_source B.functions B.reads_in_part (chunk_form
            (plain_chain chain.now) (lent_form form.entry)) (H.state handle.old).value result }
        ensures form { IfOk result (λ it. coder_form it
            ≡ chunk_form (plain_chain chain.now) (lent_form form.entry)) }
        ensures cached { IfOk result
            (λ it. is_cache it.cache ≡ has_cache_place B.reads_in_part chain.now) }
        ensures no_fault_if_uncached { SureWithoutCache B.reads_in_part chain.now result }
        ensures measured_first { RefusedFirst
            (form_taken B.functions chain.now (lent_form form.entry)) result }
        ensures cache_filled { IfOk result
            (λ it. IsFilledFrom B.functions it (H.state handle.old).value) }
        ensures index { IfOk result
            (λ it. IsIndexFrom B.functions it (H.state handle.old).value) }
        ensures counted { IfOk result
            (λ it. FilledOnce H.calls (is_cache it.cache) handle.old handle.new) }
        ensures left { H.state handle.new ≡ after_reading result (H.state handle.old) }
        ensures same_reference { H.lent handle.new ≡ H.lent handle.old }
    {
        let stage = cache_stage(chain);
        let shape = form.shape.clone()?;
        let data_type = form.data_type.clone()?;
        let fill_value = form.fill_value.clone()?;
        let (encoded, representation) = taken_form(alloc, chain, &shape, &data_type, &fill_value)?;
        let moved = Form {
            shape: &encoded,
            data_type: &data_type,
            fill_value: &fill_value,
        };
        let cache = make_cache(alloc, chain, handle, stage, moved, representation)?;
        Ok(ChunkCoder {
            chain,
            cache,
            shape,
            encoded,
            data_type,
            fill_value,
            representation,
        })
    }

    /// The type of the elements.
    pub(crate) fn data_type(&self) -> &DataType
        ensures value { result.now ≡ (coder_form self.now).type }
    {
        &self.data_type
    }

    /// What the chain and the shape are made of holds.
    pub(crate) fn is_sound(&self)
        ensures mappings { IsChainOfMappings (coder_form self.now).chain }
        ensures positive { All (λ size. 0 < size) (coder_form self.now).sizes }
    {
        chain_is_sound(self.chain);
        self.shape.as_slice();
    }
}
