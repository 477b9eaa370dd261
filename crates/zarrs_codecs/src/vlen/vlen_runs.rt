//! Reading runs of places through a `vlen`: of a plain one by the offsets and the elements' bytes alone,
//! of any other by the whole value.
ghost use Rattle.std.specs.Prelude.{◌≡◌, ◌<◌, ◌^◌, Ok, IfOk, length, option_map, true};
ghost use Rattle.zarrs_chunk.specs.Answer.{GivesBy};
ghost use Rattle.zarrs_chunk.specs.ChunkShape.{product};
ghost use Rattle.zarrs_chunk.specs.Runs.{EndWithin, joined_runs};
ghost use Rattle.zarrs_data_type.specs.ElementType.{is_variable};
ghost use Rattle.zarrs_data_type.specs.FillValue.{fill_fits};
ghost use Rattle.zarrs_array_bytes.specs.Tight.{IsTight};
ghost use Rattle.zarrs_array_bytes.specs.Validity.{Holds};
ghost use Rattle.zarrs_codec.specs.StorageState.{after_reading};
ghost use Rattle.zarrs_chain.specs.ChainView.{plain_vlen};
ghost use Rattle.zarrs_chain.specs.FormView.{lent_form};
ghost use Rattle.zarrs_codecs.specs.ChunkRead.{AnswersRuns, ChunkReadsRuns, TakenBy};
ghost use Rattle.zarrs_codecs.specs.vlen.VlenRuns.{vlen_whole_runs, ReadsPlain, SurePlain, SureVlenRuns};

use crate::partial_decoder::fill_runs::fill_runs;
use std::alloc::Global;
use std::borrow::CowSlice;
use zarrs_array_bytes::ArrayBytes;
use zarrs_chain::VlenCodec;
use zarrs_chain::stages::{Form, vlen_decode};
use zarrs_chain_meaning::vlen::plain_vlen::PlainVlen;
use zarrs_chunk::CodecError;
use zarrs_codec::{BytesPartialDecoderTraits, BytesToBytesCodecTraits};

/// The elements at the places of these runs of a chunk that the codec takes, by its whole value:
/// the fill value at each place where there is none. Errors: those of `VlenCodec::decode`.
fn runs_of_value<B: BytesToBytesCodecTraits>(
    alloc: Global,
    codec: &VlenCodec<B>,
    value: Option<Vec<u8>>,
    form: Form<'_>,
    runs: &[(u64, u64)],
) -> Result<ArrayBytes<'static>, CodecError>
    requires taken { TakenBy B.functions (plain_vlen codec.now) (lent_form form) }
    requires filling { fill_fits form.data_type.now form.fill_value.now ≡ true }
    requires counted { product form.shape.now < 2 ^ 64 }
    requires inside { EndWithin (product form.shape.now) runs.now }
    requires count { length (joined_runs runs.now) < 2 ^ 64 }
    ensures answer { GivesBy (Holds form.entry.data_type.now) result (vlen_whole_runs B.functions
        codec.now (lent_form form.entry) (option_map (λ items. items.items) value) runs.now) }
    ensures tight { IfOk result (IsTight form.entry.data_type.now) }
{
    let Form {
        shape,
        data_type,
        fill_value,
    } = form;
    match value {
        None => fill_runs(alloc, data_type, fill_value, runs),
        Some(value) => {
            let value = CowSlice::Owned(value);
            let chunk = vlen_decode(alloc, codec, value, shape, data_type, fill_value)?;
            let count = shape.num_elements()?;
            chunk.extract_runs(alloc, runs, count, data_type)
        }
    }
}

/// The elements at the places of these runs of a chunk of a plain `vlen`: those of the stored value, and
/// the fill value at each place where nothing is stored. Errors: those of `zarrs_plain_vlen::read_runs`.
fn plain_runs<H: BytesPartialDecoderTraits>(
    alloc: Global,
    codec: PlainVlen,
    handle: &mut H,
    form: Form<'_>,
    runs: &[(u64, u64)],
) -> Result<ArrayBytes<'static>, CodecError>
    requires variable { is_variable form.data_type.now ≡ true }
    requires filling { fill_fits form.data_type.now form.fill_value.now ≡ true }
    requires counted { product form.shape.now < 2 ^ 64 }
    requires inside { EndWithin (product form.shape.now) runs.now }
    requires count { length (joined_runs runs.now) < 2 ^ 64 }
    ensures answer { ReadsPlain codec (lent_form form.entry) (H.state handle.old) runs.now result }
    ensures tight { IfOk result (IsTight form.entry.data_type.now) }
    ensures sure { SurePlain codec (lent_form form.entry) (H.state handle.old) runs.now result }
    ensures left { H.state handle.new ≡ after_reading result (H.state handle.old) }
    ensures same_reference { H.lent handle.new ≡ H.lent handle.old }
{
    let count = form.shape.num_elements()?;
    match zarrs_plain_vlen::read_runs(codec, alloc, handle, count, form.data_type, runs)? {
        Some(elements) => Ok(elements),
        None => fill_runs(alloc, form.data_type, form.fill_value, runs),
    }
}

/// The elements at the places of these runs of a chunk that the codec takes, by the whole value
/// that the handle keeps. Errors: `Storage`; those of `VlenCodec::decode`.
fn whole_runs<H: BytesPartialDecoderTraits, B: BytesToBytesCodecTraits>(
    alloc: Global,
    codec: &VlenCodec<B>,
    handle: &mut H,
    form: Form<'_>,
    runs: &[(u64, u64)],
) -> Result<ArrayBytes<'static>, CodecError>
    requires taken { TakenBy B.functions (plain_vlen codec.now) (lent_form form) }
    requires filling { fill_fits form.data_type.now form.fill_value.now ≡ true }
    requires counted { product form.shape.now < 2 ^ 64 }
    requires inside { EndWithin (product form.shape.now) runs.now }
    requires count { length (joined_runs runs.now) < 2 ^ 64 }
    ensures answer { AnswersRuns form.entry.data_type.now (vlen_whole_runs B.functions codec.now
        (lent_form form.entry) (H.state handle.old).value runs.now) result }
    ensures tight { IfOk result (IsTight form.entry.data_type.now) }
    ensures left { H.state handle.new ≡ after_reading result (H.state handle.old) }
    ensures same_reference { H.lent handle.new ≡ H.lent handle.old }
{
    let value = handle.decode(alloc)?;
    runs_of_value(alloc, codec, value, form, runs)
}

/// The elements at the places of these runs of a chunk that the codec takes, over a handle that
/// keeps its value: the fill value at each place where nothing is stored. Errors, the first that
/// holds, `OutOfMemory` aside: `Storage`; those of `zarrs_plain_vlen::read_runs` of a plain `vlen`,
/// and those of `VlenCodec::decode` of any other.
pub(crate) fn vlen_runs<H: BytesPartialDecoderTraits, B: BytesToBytesCodecTraits>(
    alloc: Global,
    codec: &VlenCodec<B>,
    handle: &mut H,
    form: Form<'_>,
    runs: &[(u64, u64)],
) -> Result<ArrayBytes<'static>, CodecError>
    requires taken { TakenBy B.functions (plain_vlen codec.now) (lent_form form) }
    requires inside { EndWithin (product form.shape.now) runs.now }
    requires count { length (joined_runs runs.now) < 2 ^ 64 }
    ensures answer { ChunkReadsRuns B.functions (plain_vlen codec.now) (lent_form form.entry)
        (H.state handle.old) runs.now result }
    ensures tight { IfOk result (IsTight form.entry.data_type.now) }
    ensures sure { SureVlenRuns B.functions codec.now (lent_form form.entry) (H.state handle.old)
        runs.now result }
    ensures left { H.state handle.new ≡ after_reading result (H.state handle.old) }
    ensures same_reference { H.lent handle.new ≡ H.lent handle.old }
{
    match codec.plain_form() {
        Some(plain) => plain_runs(alloc, plain, handle, form, runs),
        None => whole_runs(alloc, codec, handle, form, runs),
    }
}
