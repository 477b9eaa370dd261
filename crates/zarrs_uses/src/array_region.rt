//! A region of an array whose chunks lie one behind another along the first axis.
ghost use Rattle.std.specs.Prelude.{◌≡◌, ◌+◌, ◌-◌, ◌*◌, ◌<◌, ◌≤◌, ◌^◌, ◌++◌, ◌∷◌, Ok, IfOk, All, map, get_or, length, true};
ghost use Rattle.zarrs_codecs.specs.Answer.{AnswersBy, GivesItems, GivesValue, memory_or_fault, seen};
ghost use Rattle.zarrs_codecs.specs.ArraySubset.{ends_fit};
ghost use Rattle.zarrs_codecs.specs.ChunkShape.{product};
ghost use Rattle.zarrs_codecs.specs.Selection.{subset as subset_of};
ghost use Rattle.zarrs_codecs.specs.Form.{form_of};
ghost use Rattle.zarrs_codecs.specs.Elements.{elements};
ghost use Rattle.zarrs_codecs.specs.Validity.{Holds, validity};
ghost use Rattle.zarrs_codecs.specs.ArrayReader.{ArrayReader};
ghost use Rattle.zarrs_uses.specs.ChunkedArray.{AppendsFrom, AppendsPart, ReadsRegion, ReadsRows};

use std::alloc::Global;
use zarrs_codecs::laws::{
    boxes_are_cut, fewer_are_excused, numbers_name_elements, rows_are_alike, tuples_go_by_axis,
};
use zarrs_codecs::{
    ArrayBytes, ArrayPartialDecoderTraits, ArraySubset, ChunkShape, CodecError, DataType,
    FillValue, Indexer, append_elements,
};

/// A number, and others behind it.
fn with_first(alloc: Global, first: u64, rest: &[u64]) -> Result<Vec<u64>, CodecError>
    ensures answer { GivesItems result (Ok (first ∷ rest.now)) }
{
    let mut numbers = Vec::with_capacity(alloc, rest.len().saturating_add(1))?;
    numbers.push(first)?;
    numbers.extend_from_slice(rest)?;
    Ok(numbers)
}

/// So many rows of a box, from one on.
fn take_rows(
    alloc: Global,
    row: u64,
    count: u64,
    starts: &[u64],
    lengths: &[u64],
) -> Result<ArraySubset, CodecError>
    requires axes { length starts.now ≡ length lengths.now }
    requires ends { ends_fit (row ∷ starts.now) (count ∷ lengths.now) ≡ true }
    ensures part { GivesValue result
        (Ok (record { starts = row ∷ starts.now; lengths = count ∷ lengths.now })) }
{
    let starts = with_first(alloc, row, starts)?;
    let lengths = with_first(alloc, count, lengths)?;
    ArraySubset::new_with_start_shape(starts, lengths)
}

/// The elements with those of a part of a chunk behind them.
fn append_part<D: ArrayPartialDecoderTraits>(
    alloc: Global,
    joined: ArrayBytes<'static>,
    done: u64,
    decoder: &mut D,
    part: ArraySubset,
    data_type: &DataType,
) -> Result<ArrayBytes<'static>, CodecError>
    requires reads { (D.reader decoder.old).type ≡ data_type.now }
    requires valid { validity data_type.now done joined ≡ Ok tt }
    requires few { done + product part.lengths < 2 ^ 64 }
    ensures exact { AppendsPart data_type.now done joined.entry
        ((D.reader decoder.old).answer (subset_of part)) result }
    ensures valid { IfOk result
        (λ it. validity data_type.now (done + product part.lengths) it ≡ Ok tt) }
    ensures kept { D.reader decoder.new ≡ D.reader decoder.old }
{
    fewer_are_excused();
    let count = part.num_elements()?;
    let more = decoder.partial_decode(alloc, &Indexer::Subset(part))?;
    append_elements(alloc, joined, done, &more, count, data_type)
}

/// The same by the decoder with this number. Errors: `OutOfBounds` where there is none; those of its
/// read.
fn append_from<D: ArrayPartialDecoderTraits>(
    alloc: Global,
    joined: ArrayBytes<'static>,
    done: u64,
    decoders: &mut [D],
    number: u64,
    part: ArraySubset,
    data_type: &DataType,
) -> Result<ArrayBytes<'static>, CodecError>
    requires reads { All (λ reader. reader.type ≡ data_type.now) (map D.reader decoders.old) }
    requires valid { validity data_type.now done joined ≡ Ok tt }
    requires few { done + product part.lengths < 2 ^ 64 }
    ensures exact { AppendsFrom (map D.reader decoders.old) number part
        data_type.now done joined.entry result }
    ensures valid { IfOk result
        (λ it. validity data_type.now (done + product part.lengths) it ≡ Ok tt) }
    ensures kept { map D.reader decoders.new ≡ map D.reader decoders.old }
{
    let number = number as usize;
    if number >= decoders.len() {
        return Err(CodecError::OutOfBounds);
    }
    append_part(alloc, joined, done, &mut decoders[number], part, data_type)
}

/// The rows of a box from `start` to `end`, of an array whose chunks have so many rows each.
fn join_rows<D: ArrayPartialDecoderTraits>(
    alloc: Global,
    empty: ArrayBytes<'static>,
    decoders: &mut [D],
    data_type: &DataType,
    rows: u64,
    start: u64,
    end: u64,
    starts: &[u64],
    lengths: &[u64],
) -> Result<ArrayBytes<'static>, CodecError>
    requires reads { All (λ reader. reader.type ≡ data_type.now) (map D.reader decoders.old) }
    requires empty { validity data_type.now 0 empty ≡ Ok tt }
    requires positive { 0 < rows }
    requires order { start ≤ end }
    requires axes { length starts.now ≡ length lengths.now }
    requires ends { ends_fit starts.now lengths.now ≡ true }
    requires few { (end - start) * product lengths.now < 2 ^ 64 }
    ensures exact { ReadsRows (map D.reader decoders.old) data_type.now rows
        start end starts.now lengths.now result }
    ensures kept { map D.reader decoders.new ≡ map D.reader decoders.old }
{
    boxes_are_cut();
    rows_are_alike();
    numbers_name_elements();
    tuples_go_by_axis();
    let mut joined = empty;
    let mut done = 0;
    let mut row = start;
    'parts: while row < end {
        let count = (rows - row % rows).min(end - row);
        let part = take_rows(alloc, row % rows, count, starts, lengths)?;
        let more = part.num_elements()?;
        joined = append_from(alloc, joined, done, decoders, row / rows, part, data_type)?;
        done += more;
        row += count;
    }
    Ok(joined)
}

/// A region of an array whose chunks lie one behind another along the first axis, read by a decoder for
/// each chunk. Each element that is returned is that of the chunk in which it lies. The decoders
/// of chunks that have none of them aren't asked.
///
/// It rests on `answer` of `ArrayPartialDecoderTraits::partial_decode`, on the trait's member `counts`
/// and on `answer` of `append_elements`.
pub fn read_region<D: ArrayPartialDecoderTraits>(
    alloc: Global,
    decoders: &mut [D],
    shape: &ChunkShape,
    data_type: &DataType,
    fill_value: &FillValue,
    region: &ArraySubset,
) -> Result<ArrayBytes<'static>, CodecError>
    requires alike { All (λ reader. reader.type ≡ data_type.now) (map D.reader decoders.old) }
    ensures elements { ReadsRegion (map D.reader decoders.old)
        (form_of shape.now data_type.now fill_value.now) region.now result }
    ensures kept { map D.reader decoders.new ≡ map D.reader decoders.old }
{
    fewer_are_excused();
    shape.num_elements()?;
    region.num_elements()?;
    let empty = ArrayBytes::new_fill_value(alloc, data_type, 0, fill_value)?;
    match (shape.as_slice(), region.start(), region.shape()) {
        ([rows, ..], [start, starts @ ..], [len, lengths @ ..]) => {
            let end = *start + *len;
            join_rows(
                alloc, empty, decoders, data_type, *rows, *start, end, starts, lengths,
            )
        }
        _ => Err(CodecError::IncompatibleDimensionality),
    }
}
