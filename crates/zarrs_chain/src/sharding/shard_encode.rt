//! The value of a chunk through `sharding_indexed`: its inner chunks in order, and their index.
ghost use Rattle.std.specs.Prelude.{◌≡◌, ◌+◌, ◌≤◌, All, Ok, length, true};
ghost use Rattle.zarrs_chunk.specs.Runs.{joined_runs};
ghost use Rattle.zarrs_chunk.specs.Answer.{checked_u64};
ghost use Rattle.zarrs_chunk.specs.ChunkShape.{product};
ghost use Rattle.zarrs_array_bytes.specs.Validity.{validity};
ghost use Rattle.zarrs_data_type.specs.FillValue.{fill_fits};
ghost use Rattle.zarrs_chain_meaning.specs.sharding.InnerChunks.{grid as grid_of};
ghost use Rattle.zarrs_chain.specs.sharding.ShardingCalls.{IsNormalFill, IsShardForm, TakesInside, WritesInside};
ghost use Rattle.zarrs_shard_bytes.specs.InnerPlaces.{places_from};
ghost use Rattle.zarrs_chain.specs.sharding.ShardWalk.{KeepsInner, WritesAll, WritesInner, WritesInnerAt};
ghost use Rattle.zarrs_chain.specs.FormView.{lent_form};
ghost use Rattle.zarrs_chain_meaning.specs.CallAnswers.{IsTaken};
ghost use Rattle.zarrs_chain_meaning.specs.CallAnswers.{GivesCodecValue};
ghost use Rattle.zarrs_chain.specs.ChainView.{plain_sharding};

use crate::codec_chain::CodecChain;
use crate::encode::{chain_encode, check_elements};
use crate::form::Form;
use crate::sharding::kept_inner_chunk::{keeps_inner, write_kept};
use crate::sharding::left_out::is_left_out;
use crate::sharding::shard_form::shard_form;
use crate::sharding::shard_index::{index_encode, index_size};
use crate::sharding::sharding_codec::ShardingCodec;
use std::alloc::Global;
use std::borrow::CowSlice;
use zarrs_array_bytes::{ArrayBytes, ArrayBytesRaw};
use zarrs_chain_meaning::sharding::inner_chunks::inner_chunk_grid;
use zarrs_chunk::{ChunkShape, CodecError};
use zarrs_codec::BytesToBytesCodecTraits;
use zarrs_shard_bytes::inner_places::{first_place, first_runs, moved_runs};
use zarrs_shard_bytes::value_room::value_room;
use zarrs_shard_bytes::written_shard::{WrittenShard, first_offset, place_index};

/// Writes the inner chunk of this shape that a container holds, unless it is left out. Errors:
/// those of the chain.
#[cycle(encode)]
fn write_inner<B: BytesToBytesCodecTraits>(
    alloc: Global,
    chain: &CodecChain<B>,
    form: Form<'_>,
    elements: ArrayBytes<'_>,
    written: &mut WrittenShard,
) -> Result<(), CodecError>
    requires counted { checked_u64 (product form.shape.now) ≡ Ok (product form.shape.now) }
    requires valid { validity form.data_type.now (product form.shape.now) elements ≡ Ok tt }
    requires filling { fill_fits form.data_type.now form.fill_value.now ≡ true }
    requires normal { IsNormalFill chain.now.array_to_bytes form.data_type.now form.fill_value.now }
    // Wide: the form, the container, and what was written before and after.
    ensures answer { WritesInner B.functions chain.now (lent_form form.entry)
        elements.entry written.old written.new result }
{
    let Form {
        shape,
        data_type,
        fill_value,
    } = form;
    let count = shape.num_elements()?;
    let codec = &chain.array_to_bytes;
    if is_left_out(alloc, codec, &elements, count, data_type, fill_value)? {
        return written.leave_out();
    }
    let value = chain_encode(alloc, chain, elements, form)?;
    written.append(value.as_slice())
}

/// Writes the inner chunk at the runs of the first one, each run further on by so many elements,
/// unless it is left out; where the chain hands on its bytes, without a copy in between. Errors:
/// those of the chain.
#[cycle(encode)]
fn write_next<B: BytesToBytesCodecTraits>(
    alloc: Global,
    chain: &CodecChain<B>,
    inner: &ChunkShape,
    held: &ArrayBytes<'_>,
    form: Form<'_>,
    start: u64,
    runs: &[(u64, u64)],
    keeps: bool,
    written: &mut WrittenShard,
) -> Result<(), CodecError>
    requires form { IsShardForm inner.now form.shape.now form.data_type.now form.fill_value.now }
    requires normal { IsNormalFill chain.now.array_to_bytes form.data_type.now form.fill_value.now }
    requires valid { validity form.data_type.now (product form.shape.now) held.now ≡ Ok tt }
    requires count { length (joined_runs runs.now) ≡ product inner.now }
    requires inside { All (λ run. start + (run.0 + run.1) ≤ product form.shape.now) runs.now }
    requires kept { keeps ≡ true
        → KeepsInner B.functions chain.now inner.now form.data_type.now form.fill_value.now }
    // Wide: the form, the places, the container, and what was written.
    ensures answer { WritesInnerAt B.functions chain.now inner.now (lent_form form.entry)
        (places_from start runs.now) held.now written.old written.new result }
{
    if keeps {
        return write_kept(
            held.as_fixed()?,
            form.fill_value.as_ne_bytes(),
            start,
            runs,
            written,
        );
    }
    let count = form.shape.num_elements()?;
    let moved = moved_runs(alloc, runs, start)?;
    let elements = held.extract_runs(alloc, moved.as_slice(), count, form.data_type)?;
    write_inner(
        alloc,
        chain,
        Form {
            shape: inner,
            ..form
        },
        elements,
        written,
    )
}

/// Writes all inner chunks of the chunk that `held` holds, in order. Errors: those of the chain, of
/// the first inner chunk that has one.
#[cycle(encode)]
fn write_all<B: BytesToBytesCodecTraits>(
    alloc: Global,
    chain: &CodecChain<B>,
    inner: &ChunkShape,
    held: &ArrayBytes<'_>,
    form: Form<'_>,
    grid: &ChunkShape,
    written: &mut WrittenShard,
) -> Result<(), CodecError>
    requires form { IsShardForm inner.now form.shape.now form.data_type.now form.fill_value.now }
    requires normal { IsNormalFill chain.now.array_to_bytes form.data_type.now form.fill_value.now }
    requires grid { grid.now ≡ grid_of inner.now form.shape.now }
    requires valid { validity form.data_type.now (product form.shape.now) held.now ≡ Ok tt }
    // Wide: the form, the container, and what was written before and after.
    ensures answer { WritesAll B.functions chain.now inner.now (lent_form form.entry)
        held.now written.old written.new result }
{
    let sizes = form.shape.as_slice();
    let parts = inner.as_slice();
    let counts = grid.as_slice();
    let keeps = keeps_inner(
        alloc,
        chain,
        Form {
            shape: inner,
            ..form
        },
    );
    let runs = first_runs(alloc, form.shape, inner)?;
    for number in 0..grid.num_elements()? {
        let start = first_place(sizes, parts, counts, number);
        write_next(
            alloc,
            chain,
            inner,
            held,
            form,
            start,
            runs.as_slice(),
            keeps,
            written,
        )?;
    }
    Ok(())
}

/// The value of the chunk that `held` holds, as many elements as the shape has, where the codec
/// takes such chunks. Errors: those of the inner chain, of the first inner chunk that has one;
/// those of the index chain; `OffsetNotKept`.
#[cycle(encode)]
fn shard_encode<'a, B: BytesToBytesCodecTraits>(
    alloc: Global,
    codec: &ShardingCodec<B>,
    held: &ArrayBytes<'_>,
    form: Form<'_>,
) -> Result<ArrayBytesRaw<'a>, CodecError>
    requires taken { TakesInside B.functions codec.now (lent_form form) }
    requires valid { validity form.data_type.now (product form.shape.now) held.now ≡ Ok tt }
    ensures answer { WritesInside B.functions codec.now (lent_form form.entry) held.now result }
{
    let Form {
        shape,
        data_type,
        fill_value,
    } = form;
    let inner = &codec.chunk_shape;
    shard_form(
        &codec.codecs,
        &codec.index_codecs,
        inner,
        shape,
        data_type,
        fill_value,
    );
    let grid = inner_chunk_grid(alloc, shape, inner)?;
    let size = index_size(alloc, &codec.index_codecs, &grid)? as usize;
    let front = first_offset(size, codec.index_location);
    let room = value_room(alloc, held, inner, shape, &grid, fill_value).saturating_add(size);
    let mut written = WrittenShard::new(alloc, front, room)?;
    write_all(alloc, &codec.codecs, inner, held, form, &grid, &mut written)?;
    let WrittenShard { bytes, numbers } = written;
    let part = index_encode(alloc, &codec.index_codecs, numbers.as_slice(), &grid)?;
    let value = place_index(bytes, part.as_slice(), size, codec.index_location)?;
    Ok(CowSlice::Owned(value))
}

/// The value of the chunk that `held` holds, where the codec takes such chunks. Errors: those of
/// `ShardingCodec::encode` behind those of `encoded_representation`.
#[cycle(encode)]
#[tactic(auto, using(crate::proofs::ShardAt::takes_at, crate::proofs::ShardAt::value_at))]
pub(crate) fn sharding_encode<'a, B: BytesToBytesCodecTraits>(
    alloc: Global,
    codec: &ShardingCodec<B>,
    held: ArrayBytes<'a>,
    form: Form<'_>,
) -> Result<ArrayBytesRaw<'a>, CodecError>
    requires taken { IsTaken B.functions (plain_sharding codec.now) (lent_form form) }
    ensures answer { GivesCodecValue B.functions (plain_sharding codec.now) (lent_form form.entry)
        held.entry result }
{
    check_elements(&held, form.shape, form.data_type)?;
    shard_encode(alloc, codec, &held, form)
}
