//! Stages of the codecs over an input of `bytes` in memory, which reads and writes: what they
//! report, read and write, each by the call of the traits. And each codec behind the enum.

use crate::array_to_array::calls::{does_chunk, has_bytes, maps};
use crate::array_to_array::examples::{Example, RESHAPED, SQUEEZED, Step, TURNED};
use crate::array_to_array::forms::{ChunkForm, chunk_form, codec, lend, made};
use crate::base::metadata::metadata;
use crate::checks::{Asked, answers, indexer, is};
use std::alloc::Global;
use std::process::Abort;
use zarrs_array_to_array::{
    ArrayToArrayCodec, ArrayToArrayCodecPartial, ReshapeCodec, SqueezeCodec, TransposeCodec,
    keep_places,
};
use zarrs_bytes::{BytesCodec, BytesCodecPartial};
use zarrs_chunk::{CodecError, Indexer};
use zarrs_codec::{
    ArrayPartialDecoderTraits, ArrayPartialEncoderTraits, ArrayToArrayCodecTraits, MemoryHandle,
    Refused,
};
use zarrs_metadata::PluginCreateError;

/// A coder of `bytes` over a value in memory.
type Input = BytesCodecPartial<MemoryHandle>;

/// The stage of a codec, or why it wasn't made, with the input.
type Made<C> = Result<ArrayToArrayCodecPartial<C, Input>, Refused<Input>>;

/// The coder of such moved chunks in part, the highest byte of an element first, over this value.
fn input(alloc: Global, form: &ChunkForm, value: &[u8]) -> Result<Input, CodecError> {
    let handle = MemoryHandle::with_value(value.to_vec(alloc)?);
    match BytesCodec::big().partial_encoder(
        alloc,
        handle,
        &form.shape,
        &form.data_type,
        &form.fill_value,
    ) {
        Ok(input) => Ok(input),
        Err(refused) => Err(refused.error),
    }
}

/// What is asked of a chunk has this answer.
fn reads<D: ArrayPartialDecoderTraits>(
    rt: &impl Abort,
    alloc: Global,
    about: &str,
    decoder: &mut D,
    asked: &Asked,
    wanted: &Result<&[u8], CodecError>,
) -> Result<(), CodecError> {
    let asked = indexer(alloc, asked)?;
    has_bytes(rt, about, decoder.partial_decode(alloc, &asked), wanted)
}

fn writes_at<E: ArrayPartialEncoderTraits>(
    rt: &impl Abort,
    alloc: Global,
    about: &str,
    encoder: &mut E,
    at: &Indexer,
    elements: &[u8],
    wanted: &Result<(), CodecError>,
) -> Result<(), CodecError> {
    let came = encoder.partial_encode(alloc, at, &lend(elements));
    answers(rt, about, &came, wanted)
}

/// A write of these elements has this answer.
fn writes<E: ArrayPartialEncoderTraits>(
    rt: &impl Abort,
    alloc: Global,
    about: &str,
    encoder: &mut E,
    at: &Asked,
    elements: &[u8],
    wanted: &Result<(), CodecError>,
) -> Result<(), CodecError> {
    let at = indexer(alloc, at)?;
    writes_at(rt, alloc, about, encoder, &at, elements, wanted)
}

/// The value goes.
fn erases<E: ArrayPartialEncoderTraits>(
    rt: &impl Abort,
    about: &str,
    stage: &mut E,
) -> Result<(), CodecError> {
    stage.erase()?;
    is(rt, about, &stage.exists()?, &false);
    Ok(())
}

/// What a stage reports without reading.
fn tells<E: ArrayPartialEncoderTraits>(
    rt: &impl Abort,
    stage: &mut E,
    example: &Example,
) -> Result<(), CodecError> {
    let size = stage.data_type().fixed_size();
    is(rt, example.name, &size, &Some(example.chunk.fill.len()));
    let told = (
        stage.size_held(),
        stage.supports_partial_decode(),
        stage.supports_partial_encode(),
        stage.exists()?,
    );
    let wanted = (example.value.len(), true, true, true);
    is(rt, example.name, &told, &wanted);
    Ok(())
}

fn does<E: ArrayPartialEncoderTraits>(
    rt: &impl Abort,
    alloc: Global,
    about: &str,
    stage: &mut E,
    step: &Step,
) -> Result<(), CodecError> {
    match step {
        Step::Read { asked, answer } => reads(rt, alloc, about, stage, asked, answer),
        Step::Write {
            at,
            elements,
            answer,
        } => writes(rt, alloc, about, stage, at, elements, answer),
        Step::Erase => erases(rt, about, stage),
    }
}

fn does_steps<E: ArrayPartialEncoderTraits>(
    rt: &impl Abort,
    alloc: Global,
    stage: &mut E,
    example: &Example,
) -> Result<(), CodecError> {
    tells(rt, stage, example)?;
    for step in example.steps.iter() {
        does(rt, alloc, example.name, stage, step)?;
    }
    Ok(())
}

/// The handle has the value that is left.
fn has_left(rt: &impl Abort, handle: &MemoryHandle, example: &Example) {
    let came = (handle.value(), handle.write_calls());
    let wanted = (Some(example.left), example.writing_calls);
    is(rt, example.name, &came, &wanted);
}

/// What is left under the input, once all is done.
fn is_left(
    rt: &impl Abort,
    done: Result<(), CodecError>,
    input: Input,
    example: &Example,
) -> Result<(), CodecError> {
    let handle = input.into_handle();
    if done.is_ok() {
        has_left(rt, &handle, example);
    }
    done
}

/// The stage does what the example says.
fn finishes<C: ArrayToArrayCodecTraits + Drop>(
    rt: &impl Abort,
    alloc: Global,
    mut stage: ArrayToArrayCodecPartial<C, Input>,
    example: &Example,
) -> Result<(), CodecError> {
    let done = does_steps(rt, alloc, &mut stage, example);
    is_left(rt, done, stage.into_input(), example)
}

/// The stage is made and does what the example says.
fn works<C: ArrayToArrayCodecTraits + Drop>(
    rt: &impl Abort,
    alloc: Global,
    made: Made<C>,
    example: &Example,
) -> Result<(), CodecError> {
    match made {
        Ok(stage) => finishes(rt, alloc, stage, example),
        Err(refused) => Err(refused.error),
    }
}

/// What a codec is given of an example: its chunk, and the moved one.
#[derive(Drop)]
struct Forms {
    decoded: ChunkForm,
    encoded: ChunkForm,
}

fn make_forms(alloc: Global, example: &Example) -> Result<Forms, CodecError> {
    Ok(Forms {
        decoded: chunk_form(alloc, &example.chunk)?,
        encoded: chunk_form(alloc, &example.encoded)?,
    })
}

fn transpose_works(
    rt: &impl Abort,
    alloc: Global,
    codec: &TransposeCodec,
    forms: &Forms,
    example: &Example,
) -> Result<(), CodecError> {
    let below = input(alloc, &forms.encoded, example.value)?;
    let form = &forms.decoded;
    let made = codec.partial_encoder(alloc, below, &form.shape, &form.data_type, &form.fill_value);
    works(rt, alloc, made, example)
}

fn reshape_works(
    rt: &impl Abort,
    alloc: Global,
    codec: &ReshapeCodec,
    forms: &Forms,
    example: &Example,
) -> Result<(), CodecError> {
    let below = input(alloc, &forms.encoded, example.value)?;
    let form = &forms.decoded;
    let made = codec.partial_encoder(alloc, below, &form.shape, &form.data_type, &form.fill_value);
    works(rt, alloc, made, example)
}

fn squeeze_works(
    rt: &impl Abort,
    alloc: Global,
    codec: &SqueezeCodec,
    forms: &Forms,
    example: &Example,
) -> Result<(), CodecError> {
    let below = input(alloc, &forms.encoded, example.value)?;
    let form = &forms.decoded;
    let made = codec.partial_encoder(alloc, below, &form.shape, &form.data_type, &form.fill_value);
    works(rt, alloc, made, example)
}

fn any_works(
    rt: &impl Abort,
    alloc: Global,
    codec: &ArrayToArrayCodec,
    forms: &Forms,
    example: &Example,
) -> Result<(), CodecError> {
    let below = input(alloc, &forms.encoded, example.value)?;
    let form = &forms.decoded;
    let made = codec.partial_encoder(alloc, below, &form.shape, &form.data_type, &form.fill_value);
    works(rt, alloc, made, example)
}

/// What the codec keeps of a chunk.
fn keeps(rt: &impl Abort, codec: &ArrayToArrayCodec, example: &Example) {
    is(
        rt,
        example.name,
        &codec.keeps_places(),
        &example.keeps_places,
    );
    is(rt, example.name, &codec.keeps_boxes(), &example.keeps_boxes);
}

/// All calls of the codec behind the enum.
fn any_does(
    rt: &impl Abort,
    alloc: Global,
    codec: &ArrayToArrayCodec,
    forms: &Forms,
    example: &Example,
) -> Result<(), CodecError> {
    keeps(rt, codec, example);
    does_chunk(rt, alloc, codec, &forms.decoded, example)?;
    maps(rt, alloc, example.name, codec, &example.mapped)?;
    any_works(rt, alloc, codec, forms, example)
}

/// A copy of the codec of this metadata.
fn any_copy(alloc: Global, metadata: &str) -> Result<ArrayToArrayCodec, CodecError> {
    let codec = codec(alloc, metadata)?;
    codec.clone()
}

fn any_of_forms(
    rt: &impl Abort,
    alloc: Global,
    forms: &Forms,
    example: &Example,
) -> Result<(), CodecError> {
    let codec = any_copy(alloc, example.metadata)?;
    any_does(rt, alloc, &codec, forms, example)
}

fn any_of_example(rt: &impl Abort, alloc: Global, example: &Example) -> Result<(), CodecError> {
    let forms = make_forms(alloc, example)?;
    any_of_forms(rt, alloc, &forms, example)
}

#[test]
fn behind_the_enum(rt: HostRuntime) -> Result<(), CodecError> {
    let known = ArrayToArrayCodec::is_named("reshape");
    is(&rt, "known by its name", &known, &true);
    is(&rt, "none moves an element", &keep_places(&[]), &true);
    any_of_example(&rt, rt.alloc(), TURNED)?;
    any_of_example(&rt, rt.alloc(), RESHAPED)?;
    any_of_example(&rt, rt.alloc(), SQUEEZED)
}

fn transpose(alloc: Global) -> Result<TransposeCodec, PluginCreateError> {
    TransposeCodec::create(alloc, &metadata(alloc, TURNED.metadata)?)
}

fn transposes(rt: &impl Abort, alloc: Global, forms: &Forms) -> Result<(), CodecError> {
    let codec = made(transpose(alloc))?;
    transpose_works(rt, alloc, &codec, forms, TURNED)
}

#[test]
fn an_order_turns_the_axes(rt: HostRuntime) -> Result<(), CodecError> {
    let forms = make_forms(rt.alloc(), TURNED)?;
    transposes(&rt, rt.alloc(), &forms)
}

fn reshape(alloc: Global) -> Result<ReshapeCodec, PluginCreateError> {
    ReshapeCodec::create(alloc, &metadata(alloc, RESHAPED.metadata)?)
}

fn reshapes(rt: &impl Abort, alloc: Global, forms: &Forms) -> Result<(), CodecError> {
    let codec = made(reshape(alloc))?;
    reshape_works(rt, alloc, &codec, forms, RESHAPED)
}

#[test]
fn sizes_give_other_axes(rt: HostRuntime) -> Result<(), CodecError> {
    let forms = make_forms(rt.alloc(), RESHAPED)?;
    reshapes(&rt, rt.alloc(), &forms)
}

#[test]
fn a_squeezing_codec_leaves_an_axis_out(rt: HostRuntime) -> Result<(), CodecError> {
    let forms = make_forms(rt.alloc(), SQUEEZED)?;
    squeeze_works(&rt, rt.alloc(), &SqueezeCodec::new(), &forms, SQUEEZED)
}
