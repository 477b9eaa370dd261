//! The coders of a chunk in part that a chain makes.
ghost use Rattle.std.specs.Prelude.{◌≡◌, IfOk, IfErr, true, false};
ghost use Rattle.zarrs_codecs.specs.CachePlace.{SureWithoutCache, has_cache_place};
ghost use Rattle.zarrs_codecs.specs.ChunkRead.{HasChunkForm, asks_in_part, chunk_of};
ghost use Rattle.zarrs_codecs.specs.ChunkSource.{FilledOnce, MakesSource};
ghost use Rattle.zarrs_codecs.specs.CodersMade.{MadeOver};
ghost use Rattle.zarrs_codecs.specs.PartialDecoder.{decoder_form, decoder_source, handle_of, is_cached, made};
ghost use Rattle.zarrs_codecs.specs.PartialEncoder.{encoder_form, encoder_handle};
ghost use Rattle.zarrs_chain.specs.ChainView.{plain_chain};
ghost use Rattle.zarrs_chunk.specs.Answer.{is_fault, GivesValue, seen};
ghost use Rattle.zarrs_codecs.specs.RefusedFirst.{RefusedFirst};
ghost use Rattle.zarrs_chain_meaning.specs.CodecMeaning.{chain_representation};
ghost use Rattle.zarrs_codec.specs.StorageState.{after_reading};
ghost use Rattle.zarrs_codec.specs.Refused.{outcome};

use crate::chunk_coder::ChunkCoder;
use crate::partial_decoder::array_partial_decoder::ArrayPartialDecoder;
use crate::partial_encoder::array_partial_encoder::ArrayPartialEncoder;
use std::alloc::Global;
use zarrs_chain::CodecChain;
use zarrs_chain::stages::Form;
use zarrs_chunk::ChunkShape;
use zarrs_codec::{
    BytesPartialDecoderTraits, BytesPartialEncoderTraits, BytesToBytesCodecTraits, Refused,
};
use zarrs_data_type::{DataType, FillValue};

/// What a [`CodecChain`] makes to read and to write a chunk in part. What is promised of it stands at the
/// methods of the impl for [`CodecChain`].
pub trait CodecChainPartialTraits<B: BytesToBytesCodecTraits> {
    /// A decoder of a chunk in part, over a handle. An error hands the handle back; which ones
    /// there are stands at the method of the impl.
    fn partial_decoder<'a, H: BytesPartialDecoderTraits>(
        &'a self,
        alloc: Global,
        handle: H,
        shape: &ChunkShape,
        data_type: &DataType,
        fill_value: &FillValue,
    ) -> Result<ArrayPartialDecoder<'a, H, B>, Refused<H>>;

    /// An encoder of a chunk in part, over a handle. An error hands the handle back; which ones
    /// there are stands at the method of the impl.
    fn partial_encoder<'a, H: BytesPartialEncoderTraits>(
        &'a self,
        alloc: Global,
        handle: H,
        shape: &ChunkShape,
        data_type: &DataType,
        fill_value: &FillValue,
    ) -> Result<ArrayPartialEncoder<'a, H, B>, Refused<H>>;
}

impl<B: BytesToBytesCodecTraits> CodecChainPartialTraits<B> for CodecChain<B> {
    /// A decoder of a chunk in part, over a handle. Errors, the first that holds, `OutOfMemory`
    /// aside: those of `encoded_representation`, before the handle is asked; with a cache,
    /// `Storage`, and then those of what decodes the value up to the cache: `BytesCodec` of the
    /// last bytes-to-bytes codec, then of the one before; and where the cache holds elements, over
    /// `optional`, `vlen-utf8`, `vlen-bytes` and a `vlen` that isn't plain, what
    /// `CodecChain::decode` rejects of the value of this codec:
    ///
    /// - of `vlen` `InvalidBytesLength`, `IndexLength`, `Overflow`, those of the index chain,
    ///   `InvalidOffsets`, those of the data chain;
    /// - of `vlen-utf8` and `vlen-bytes` `InvalidBytesLength`, `ElementCount`,
    ///   `InvalidBytesLength`;
    /// - of `optional` `InvalidBytesLength`, `HeaderOverflow`, `InvalidBytesLength`, those of the
    ///   mask chain, `MaskValue`, those of the data chain.
    ///
    /// An error hands the handle back, as it stands. With a cache the handle is asked once, and
    /// without one never: the index of a shard is read by the decoder's first read, and kept.
    fn partial_decoder<'a, H: BytesPartialDecoderTraits>(
        &'a self,
        alloc: Global,
        handle: H,
        shape: &ChunkShape,
        data_type: &DataType,
        fill_value: &FillValue,
    ) -> Result<ArrayPartialDecoder<'a, H, B>, Refused<H>>
        ensures answer { MakesSource decoder_source B.functions B.reads_in_part (chunk_of self.now
            shape.now data_type.now fill_value.now) (H.state handle).value (made result) }
        ensures form { HasChunkForm decoder_form self.now shape.now data_type.now fill_value.now
            result }
        ensures cached { IfOk result
            (λ it. is_cached it ≡ has_cache_place B.reads_in_part self.now) }
        ensures over_state { MadeOver H.state handle result }
        ensures counted { IfOk result
            (λ it. FilledOnce H.calls (is_cached it) handle (handle_of it)) }
        ensures over_reference { MadeOver H.lent handle result }
        ensures handed_left { IfErr result
            (λ refused. H.state refused.handle ≡ after_reading (made result) (H.state handle)) }
        ensures handed_reference { IfErr result (λ refused. H.lent refused.handle ≡ H.lent handle) }
        ensures no_fault_if_uncached { SureWithoutCache B.reads_in_part self.now (made result) }
        ensures measured_first { RefusedFirst (chain_representation B.functions
            (plain_chain self.now) shape.now data_type.now fill_value.now) (made result) }
        ensures no_fault_if_in_part { asks_in_part (plain_chain self.now).bytes_to_bytes
            (plain_chain self.now).array_to_bytes ≡ true → is_fault (made result) ≡ false }
    {
        let mut handle = handle;
        let form = Form {
            shape,
            data_type,
            fill_value,
        };
        match ChunkCoder::new(alloc, self, &mut handle, form) {
            Ok(coder) => Ok(ArrayPartialDecoder { handle, coder }),
            Err(error) => Err(Refused { error, handle }),
        }
    }

    /// An encoder of a chunk in part, over a handle, which isn't asked yet. Errors: those of
    /// `encoded_representation`; `OutOfMemory`. An error hands the handle back as it was.
    fn partial_encoder<'a, H: BytesPartialEncoderTraits>(
        &'a self,
        alloc: Global,
        handle: H,
        shape: &ChunkShape,
        data_type: &DataType,
        fill_value: &FillValue,
    ) -> Result<ArrayPartialEncoder<'a, H, B>, Refused<H>>
        ensures answer { GivesValue (outcome result) (seen (λ _. tt) (chain_representation
            B.functions (plain_chain self.now) shape.now data_type.now fill_value.now)) }
        ensures form { HasChunkForm encoder_form self.now shape.now data_type.now fill_value.now
            result }
        ensures over { IfOk result (λ encoder. encoder_handle encoder ≡ handle) }
        ensures handed_back { IfErr result (λ refused. refused.handle ≡ handle) }
    {
        let form = Form {
            shape,
            data_type,
            fill_value,
        };
        match ChunkCoder::uncached(alloc, self, form) {
            Ok(coder) => Ok(ArrayPartialEncoder { handle, coder }),
            Err(error) => Err(Refused { error, handle }),
        }
    }
}
