//! A chain and the form of the chunks that it takes.
ghost use Rattle.std.specs.Prelude.{◌≡◌, ◌<◌, ◌^◌, All, IfOk, Ok, true};
ghost use Rattle.zarrs_chain.specs.ChainView.{plain_chain};
ghost use Rattle.zarrs_chain.specs.FormView.{lent_form};
ghost use Rattle.zarrs_chain_meaning.specs.CodecMeaning.{codec_representation};
ghost use Rattle.zarrs_chunk.specs.Answer.{Gives};
ghost use Rattle.zarrs_chunk.specs.ChunkShape.{product};
ghost use Rattle.zarrs_codecs.specs.ChunkRead.{chunk_form, form_taken};
ghost use Rattle.zarrs_data_type.specs.FillValue.{fill_fits};

use std::alloc::Global;
use zarrs_chain::CodecChain;
use zarrs_chain::stages::{Form, taken_form};
use zarrs_chunk::{ChunkShape, CodecError};
use zarrs_codec::{BytesRepresentation, BytesToBytesCodecTraits};

/// A chain and the form of the chunks that it takes: made once for all inner chunks of a shard.
#[derive(Drop)]
pub(crate) struct TakenChain<'c, B: BytesToBytesCodecTraits> {
    pub(crate) chain: &'c CodecChain<B>,
    pub(crate) form: Form<'c>,
    encoded: ChunkShape,
    pub(crate) measured: BytesRepresentation,
    ghost takes: { form_taken B.functions chain.now (lent_form form) ≡ Ok (encoded, measured) },
    ghost positive: { All (λ size. 0 < size) form.shape.now },
    ghost counted: { product form.shape.now < 2 ^ 64 },
    ghost filling: { fill_fits form.data_type.now form.fill_value.now ≡ true },
    ghost codec_takes: { codec_representation B.functions (plain_chain chain.now).array_to_bytes encoded form.data_type.now form.fill_value.now ≡ Ok measured },
    ghost moved_counted: { product encoded < 2 ^ 64 },
}

impl<'c, B: BytesToBytesCodecTraits> TakenChain<'c, B> {
    ghost use Rattle.zarrs_codecs.specs.TakenChain.{inner_form, moved_sizes, moved_taken};

    /// A chain that takes chunks of this form. Errors: those of `encoded_representation`.
    pub(crate) fn new(
        alloc: Global,
        chain: &'c CodecChain<B>,
        form: Form<'c>,
    ) -> Result<TakenChain<'c, B>, CodecError>
        ensures answer { Gives moved_taken result
            (form_taken B.functions chain.now (lent_form form.entry)) }
        ensures form { IfOk result (λ it. inner_form it
            ≡ chunk_form (plain_chain chain.now) (lent_form form.entry)) }
    {
        let Form {
            shape,
            data_type,
            fill_value,
        } = form;
        shape.as_slice();
        let (encoded, measured) = taken_form(alloc, chain, shape, data_type, fill_value)?;
        Ok(TakenChain {
            chain,
            form,
            encoded,
            measured,
        })
    }

    /// The form of the chunk that the array-to-bytes codec gets.
    pub(crate) fn moved_form(&self) -> Form<'_>
        ensures shape { result.shape.now ≡ moved_sizes self.now }
        ensures data_type { result.data_type.now ≡ (inner_form self.now).type }
        ensures fill_value { result.fill_value.now ≡ (inner_form self.now).fill }
    {
        Form {
            shape: &self.encoded,
            ..self.form
        }
    }
}
