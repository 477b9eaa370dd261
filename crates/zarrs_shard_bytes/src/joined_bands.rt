//! The elements of a band of inner chunks, which share their place along the first axes: its rows,
//! one after another, behind those of the bands before it.
ghost use Rattle.std.specs.List.{flat_map};
ghost use Rattle.std.specs.Prelude.{◌≡◌, ◌+◌, ◌*◌, ◌<◌, ◌≤◌, ◌^◌, All, IfOk, Ok, length, true};
ghost use Rattle.zarrs_array_bytes.specs.Tight.{IsTight};
ghost use Rattle.zarrs_array_bytes.specs.Validity.{validity};
ghost use Rattle.zarrs_chunk.specs.ChunkShape.{product};
ghost use Rattle.zarrs_chain_meaning.specs.sharding.InnerChunks.{inner_chunk_count, is_divided};
ghost use Rattle.zarrs_shard_bytes.specs.Bands.{AreJoinable, Extends, IsElementPart, chunks_of, part_elements, run_elements};

use crate::joined_rows::is_row;
use crate::lent_run::lent_run;
use std::alloc::Global;
use zarrs_array_bytes::{ArrayBytes, append_elements};
use zarrs_chunk::{ChunkShape, CodecError};
use zarrs_data_type::DataType;

/// The `done` elements, and behind them `each` of an inner chunk of `whole` elements, from `first` on:
/// their bytes are copied once. Errors: `OutOfMemory`.
fn append_run<'b>(
    alloc: Global,
    elements: ArrayBytes<'b>,
    done: u64,
    content: &ArrayBytes<'_>,
    whole: u64,
    first: u64,
    each: u64,
    data_type: &DataType,
) -> Result<ArrayBytes<'b>, CodecError>
    requires valid { validity data_type.now done elements ≡ Ok tt }
    requires content_valid { validity data_type.now whole content.now ≡ Ok tt }
    requires tight { IsTight data_type.now elements }
    requires content_tight { IsTight data_type.now content.now }
    requires inside { first + each ≤ whole }
    ensures answer { Extends data_type.now done elements.entry
        (run_elements data_type.now first each content.now) result }
    ensures tight { IfOk result (IsTight data_type.now) }
{
    if each == whole {
        return append_elements(alloc, elements, done, content, whole, data_type);
    }
    let run = lent_run(alloc, content, first as usize, each as usize, data_type)?;
    append_elements(alloc, elements, done, &run, each, data_type)
}

/// The `done` elements, and behind them `each` of each of these inner chunks, from `first` on.
/// Errors: `OutOfMemory`.
fn append_row<'b>(
    alloc: Global,
    elements: ArrayBytes<'b>,
    done: u64,
    contents: &[ArrayBytes<'_>],
    whole: u64,
    first: u64,
    each: u64,
    data_type: &DataType,
) -> Result<ArrayBytes<'b>, CodecError>
    requires joinable { AreJoinable data_type.now done whole elements contents.now }
    requires inside { first + each ≤ whole }
    requires counted { done + length contents.now * each < 2 ^ 64 }
    ensures answer { Extends data_type.now done elements.entry
        (flat_map (run_elements data_type.now first each) contents.now) result }
    ensures tight { IfOk result (IsTight data_type.now) }
{
    let mut elements = elements;
    let mut done = done;
    for content in contents {
        elements = append_run(
            alloc, elements, done, content, whole, first, each, data_type,
        )?;
        done += each;
    }
    Ok(elements)
}

/// The `done` elements, and behind them those of a part of a chunk, row by row. The part has the
/// chunk's last axes, of these sizes, and the inner chunks' of that shape: `count` inner chunks from
/// that of a number on, and `each` elements of each, from `first` on. Errors: `OutOfMemory`.
fn append_part<'b>(
    alloc: Global,
    elements: ArrayBytes<'b>,
    done: u64,
    contents: &[ArrayBytes<'_>],
    whole: u64,
    shape: &[u64],
    sizes: &[u64],
    number: u64,
    count: u64,
    first: u64,
    each: u64,
    data_type: &DataType,
) -> Result<ArrayBytes<'b>, CodecError>
    requires part { IsElementPart (length contents.now) whole number count first each
        shape.now sizes.now }
    requires axes { length shape.now ≡ length sizes.now }
    requires joinable { AreJoinable data_type.now done whole elements contents.now }
    requires counted { done + count * each < 2 ^ 64 }
    // Wide: the elements so far, and those of the part.
    ensures answer { Extends data_type.now done elements.entry
        (part_elements (chunks_of data_type.now whole contents.now) number first shape.now sizes.now)
        result }
    ensures tight { IfOk result (IsTight data_type.now) }
{
    if is_row(shape, sizes) {
        let row = &contents[number as usize..(number + count) as usize];
        return append_row(alloc, elements, done, row, whole, first, each, data_type);
    }
    let (part, len) = (shape[0], sizes[0]);
    let (count, each) = (count / (len / part), each / part);
    let mut elements = elements;
    for index in 0..len {
        elements = append_part(
            alloc,
            elements,
            done + index * (count * each),
            contents,
            whole,
            &shape[1..],
            &sizes[1..],
            number + index / part * count,
            count,
            first + index % part * each,
            each,
            data_type,
        )?;
    }
    Ok(elements)
}

/// The `done` elements, and behind them those of a band of this shape, whose inner chunks these are.
/// Errors: `OutOfMemory`.
pub fn append_band<'b>(
    alloc: Global,
    elements: ArrayBytes<'b>,
    done: u64,
    contents: &[ArrayBytes<'_>],
    whole: u64,
    inner: &ChunkShape,
    band: &ChunkShape,
    data_type: &DataType,
) -> Result<ArrayBytes<'b>, CodecError>
    requires divided { is_divided inner.now band.now ≡ true }
    requires all { length contents.now ≡ inner_chunk_count inner.now band.now }
    requires inner_long { whole ≡ product inner.now }
    requires joinable { AreJoinable data_type.now done whole elements contents.now }
    requires counted { done + product band.now < 2 ^ 64 }
    // Wide: the elements so far, and those of the band.
    ensures answer { Extends data_type.now done elements.entry
        (part_elements (chunks_of data_type.now whole contents.now) 0 0 inner.now band.now) result }
    ensures tight { IfOk result (IsTight data_type.now) }
{
    append_part(
        alloc,
        elements,
        done,
        contents,
        whole,
        inner.as_slice(),
        band.as_slice(),
        0,
        contents.len() as u64,
        0,
        whole,
        data_type,
    )
}
