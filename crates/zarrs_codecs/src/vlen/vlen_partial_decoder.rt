ghost use Rattle.zarrs_codecs.specs.vlen.VlenRuns.{GivesForm};
ghost use Rattle.zarrs_codecs.specs.ChunkRead.{TakenBy};
ghost use Rattle.zarrs_chain.specs.FormView.{lent_form};
ghost use Rattle.zarrs_data_type.specs.Form.{form_of};
ghost use Rattle.std.specs.Prelude.{◌≡◌, ◌<◌, ◌^◌, ◌&&◌, IfOk, IfErr, is_ok, is_some, true};
ghost use Rattle.zarrs_chunk.specs.ChunkShape.{product};
ghost use Rattle.zarrs_chunk.specs.Indexer.{selection_of};
ghost use Rattle.zarrs_data_type.specs.FillValue.{fill_fits};
ghost use Rattle.zarrs_array_bytes.specs.Tight.{IsTight};
ghost use Rattle.zarrs_codec.specs.HandleCalls.{NeverFailsIf, Tells};
ghost use Rattle.zarrs_chain_meaning.specs.Chain.{codec_reads};
ghost use Rattle.zarrs_chain.specs.ChainView.{plain_vlen};
ghost use Rattle.zarrs_chain_meaning.specs.CodecMeaning.{codec_representation};
ghost use Rattle.zarrs_chunk.specs.Answer.{GivesValue, seen};
ghost use Rattle.zarrs_codec.specs.Refused.{outcome};

use crate::vlen::vlen_runs::vlen_runs;
use std::alloc::Global;
use zarrs_array_bytes::ArrayBytes;
use zarrs_chain::VlenCodec;
use zarrs_chain::stages::{Form, vlen_is_sound};
use zarrs_chunk::{ChunkShape, CodecError, Indexer};
use zarrs_codec::{
    ArrayPartialDecoderTraits, BytesPartialDecoderTraits, BytesToBytesCodecTraits, CodecTraits,
    Refused,
};
use zarrs_data_type::{DataType, FillValue};

/// Reads a chunk of a [`VlenCodec`] in part, over a storage handle that it owns. The codec is
/// borrowed.
///
/// Where the codec is plain, its index chain `bytes` with a byte order and its data chain `bytes`,
/// both alone, each read asks the handle for the offsets and for the bytes of the elements that are
/// selected, whatever else is stored. Else it asks for the whole value, decodes it, and takes these
/// elements out. Nothing is kept in between.
#[derive(Drop)]
pub struct VlenPartialDecoder<'a, H: BytesPartialDecoderTraits, B: BytesToBytesCodecTraits> {
    handle: H,
    codec: &'a VlenCodec<B>,
    shape: ChunkShape,
    data_type: DataType,
    fill_value: FillValue,
    ghost taken: { is_ok (codec_representation B.functions (plain_vlen codec.now) shape data_type fill_value) ≡ true },
    ghost filling: { fill_fits data_type fill_value ≡ true },
    ghost counted: { product shape < 2 ^ 64 },
}

/// What a partial decoder keeps of a chunk that the codec takes. Errors: those of
/// `encoded_representation`.
fn parts_of_decoder<B: BytesToBytesCodecTraits>(
    codec: &VlenCodec<B>,
    form: Form<'_>,
) -> Result<(ChunkShape, DataType, FillValue), CodecError>
    ensures answer { GivesForm B.functions codec.now (lent_form form.entry) result }
    ensures taken { IfOk result (λ parts. TakenBy B.functions (plain_vlen codec.now) (form_of
        parts.0 parts.1 parts.2)) }
    ensures filling { IfOk result (λ parts. fill_fits parts.1 parts.2 ≡ true) }
    ensures counted { IfOk result (λ parts. product parts.0 < 2 ^ 64) }
{
    codec.encoded_representation(form.shape, form.data_type, form.fill_value)?;
    let shape = form.shape.clone()?;
    let data_type = form.data_type.clone()?;
    let fill_value = form.fill_value.clone()?;
    Ok((shape, data_type, fill_value))
}

/// What a [`VlenCodec`] makes to read a chunk in part. What is promised of it stands at the method of
/// the impl for [`VlenCodec`].
pub trait VlenCodecPartialTraits<B: BytesToBytesCodecTraits> {
    /// A decoder of a chunk in part, over a handle. An error hands the handle back; which ones
    /// there are stands at the method of the impl.
    fn partial_decoder<'a, H: BytesPartialDecoderTraits>(
        &'a self,
        alloc: Global,
        handle: H,
        shape: &ChunkShape,
        data_type: &DataType,
        fill_value: &FillValue,
    ) -> Result<VlenPartialDecoder<'a, H, B>, Refused<H>>;
}

impl<B: BytesToBytesCodecTraits> VlenCodecPartialTraits<B> for VlenCodec<B> {
    ghost use Rattle.zarrs_codecs.specs.vlen.VlenPartialDecoder.{vlen_handle_of, vlen_form};

    /// A decoder of a chunk in part, over a handle. Errors, the first that holds: those of
    /// `encoded_representation`; `OutOfMemory`. An error hands the handle back as it was.
    fn partial_decoder<'a, H: BytesPartialDecoderTraits>(
        &'a self,
        alloc: Global,
        handle: H,
        shape: &ChunkShape,
        data_type: &DataType,
        fill_value: &FillValue,
    ) -> Result<VlenPartialDecoder<'a, H, B>, Refused<H>>
        ensures answer { GivesValue (outcome result) (seen (λ _. tt) (codec_representation
            B.functions (plain_vlen self.now) shape.now data_type.now fill_value.now)) }
        // Wide: a record, field by field.
        ensures form { IfOk result (λ it. vlen_form it ≡ record {
          codec = plain_vlen self.now;
          sizes
              = shape.now;
          type = data_type.now;
          fill = fill_value.now;
        }) }
        ensures over { IfOk result (λ decoder. vlen_handle_of decoder ≡ handle) }
        ensures handed_back { IfErr result (λ refused. refused.handle ≡ handle) }
    {
        let form = Form {
            shape,
            data_type,
            fill_value,
        };
        match parts_of_decoder(self, form) {
            Ok((shape, data_type, fill_value)) => Ok(VlenPartialDecoder {
                handle,
                codec: self,
                shape,
                data_type,
                fill_value,
            }),
            Err(error) => Err(Refused { error, handle }),
        }
    }
}

impl<'a, H: BytesPartialDecoderTraits, B: BytesToBytesCodecTraits> VlenPartialDecoder<'a, H, B> {
    ghost use Rattle.zarrs_codecs.specs.vlen.VlenPartialDecoder.{ReadsVlen, vlen_form, vlen_handle_of, VlenLeaves};

    /// The type of the elements.
    pub fn data_type(&self) -> &DataType
        ensures value { result.now ≡ (vlen_form self.now).type }
    {
        &self.data_type
    }

    /// The elements that the indexer selects, in its order: those of the chunk that the stored
    /// value stands for, and the fill value at each place where nothing is stored. Of a plain codec
    /// the answer rests on the value's length, its offsets and the bytes of these elements alone.
    ///
    /// Errors, the first that holds, `OutOfMemory` aside: those of `Indexer::check`; `Storage`, but
    /// never of a plain codec where all the bytes that the answer rests on are sure; of a plain
    /// codec those of `zarrs_plain_vlen::read_runs`, also where the indexer selects no place; of
    /// any other those of `VlenCodec::decode`.
    pub fn partial_decode(
        &mut self,
        alloc: Global,
        indexer: &Indexer,
    ) -> Result<ArrayBytes<'static>, CodecError>
        ensures reads { ReadsVlen B.functions (vlen_form self.old)
            (H.state (vlen_handle_of self.old)) (selection_of indexer.now) result }
        ensures tight { IfOk result (IsTight (vlen_form self.old).type) }
        ensures left { VlenLeaves H.state H.lent self.old self.new result }
    {
        vlen_is_sound(self.codec);
        self.shape.as_slice();
        let runs = indexer.runs(alloc, &self.shape)?;
        let form = Form {
            shape: &self.shape,
            data_type: &self.data_type,
            fill_value: &self.fill_value,
        };
        vlen_runs(alloc, self.codec, &mut self.handle, form, &runs)
    }

    /// Whether a value is stored. Errors: `Storage`, but never where the handle has sure bytes.
    pub fn exists(&mut self) -> Result<bool, CodecError>
        ensures answer { Tells result (is_some (H.state (vlen_handle_of self.old)).value) }
        ensures sure { NeverFailsIf (is_some (H.state (vlen_handle_of self.old)).sure) result }
        ensures left { VlenLeaves H.state H.lent self.old self.new result }
    {
        self.handle.exists()
    }

    /// How many bytes the handle keeps in memory.
    pub fn size_held(&self) -> usize
        ensures value { result ≡ H.held (vlen_handle_of self.now) }
    {
        self.handle.size_held()
    }

    /// Whether a part is read without the rest: where the codec is plain, and the handle reads ranges
    /// by themselves.
    pub fn supports_partial_decode(&self) -> bool
        ensures value { result ≡ (codec_reads (vlen_form self.now).codec).partial_decode
            && H.reads_ranges }
    {
        self.codec.partial_decoder_capability().partial_decode
            && self.handle.supports_partial_decode()
    }

    /// The handle, as it stands.
    pub fn into_handle(self) -> H
        ensures value { result ≡ vlen_handle_of self.entry }
    {
        let VlenPartialDecoder {
            handle,
            codec: _,
            shape: _,
            data_type: _,
            fill_value: _,
        } = self;
        handle
    }
}

impl<'a, H: BytesPartialDecoderTraits, B: BytesToBytesCodecTraits> ArrayPartialDecoderTraits
    for VlenPartialDecoder<'a, H, B> {
    ghost use Rattle.zarrs_codecs.specs.vlen.VlenPartialDecoder.{codec_reader, vlen_form, vlen_handle_of};

    ghost reader = { λ decoder. codec_reader B.functions (vlen_form decoder) (H.state (vlen_handle_of decoder)).sure (H.state (vlen_handle_of decoder)).value ((codec_reads (vlen_form decoder).codec).partial_decode && H.reads_ranges) };

    ghost state = { λ decoder. H.state (vlen_handle_of decoder) };

    ghost lent = { λ decoder. H.lent (vlen_handle_of decoder) };

    ghost held = { λ decoder. H.held (vlen_handle_of decoder) };

    ghost use Rattle.zarrs_codecs.specs.CountLaws.{codec_counts};

    ghost counts = { λ decoder. codec_counts B.functions (vlen_form decoder) (H.state (vlen_handle_of decoder)).sure (H.state (vlen_handle_of decoder)).value ((codec_reads (vlen_form decoder).codec).partial_decode && H.reads_ranges) };

    fn data_type(&self) -> &DataType {
        VlenPartialDecoder::data_type(self)
    }

    fn exists(&mut self) -> Result<bool, CodecError> {
        VlenPartialDecoder::exists(self)
    }

    fn size_held(&self) -> usize {
        VlenPartialDecoder::size_held(self)
    }

    fn partial_decode(
        &mut self,
        alloc: Global,
        indexer: &Indexer,
    ) -> Result<ArrayBytes<'static>, CodecError> {
        VlenPartialDecoder::partial_decode(self, alloc, indexer)
    }

    fn supports_partial_decode(&self) -> bool {
        VlenPartialDecoder::supports_partial_decode(self)
    }
}
