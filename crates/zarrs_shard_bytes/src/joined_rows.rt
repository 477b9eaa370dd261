//! The chunk of inner chunks whose elements have one size: its rows, one after another.
ghost use Rattle.std.specs.Prelude.{◌≡◌, ◌<◌, ◌≤◌, ◌+◌, ◌*◌, ◌^◌, All, IfOk, Ok, Some, drop, length, map, nat_eq, take, true};
ghost use Rattle.std.specs.Cmp.Lexicographic.{pointwise};
ghost use Rattle.std.specs.List.{flat_map, between};
ghost use Rattle.zarrs_array_bytes.specs.Held.{items_of};
ghost use Rattle.zarrs_array_bytes.specs.Tight.{IsTight};
ghost use Rattle.zarrs_array_bytes.specs.Validity.{Holds, sizes_fit};
ghost use Rattle.zarrs_chunk.specs.Answer.{Appends, GivesBy, checked_u64};
ghost use Rattle.zarrs_chunk.specs.ChunkShape.{product};
ghost use Rattle.zarrs_data_type.specs.ElementType.{fixed_size_of};
ghost use Rattle.zarrs_chain_meaning.specs.sharding.InnerChunks.{inner_chunk_count, is_divided, joined_inner_chunks};
ghost use Rattle.zarrs_shard_bytes.specs.Rows.{AreContents, IsPart, chunks_in, part_bytes};

use std::alloc::{AllocError, Global};
use std::borrow::CowSlice;
use zarrs_array_bytes::{ArrayBytes, ArrayBytesRaw};
use zarrs_chunk::{ChunkShape, CodecError};
use zarrs_data_type::DataType;

/// Appends the bytes from `from` to `to` of each inner chunk.
fn append_between(
    out: &mut Vec<u8>,
    contents: &[ArrayBytesRaw<'_>],
    from: usize,
    to: usize,
) -> Result<(), AllocError>
    requires order { from ≤ to }
    requires inside { All (λ content. to ≤ length (items_of content)) contents.now }
    ensures appended { Appends out.old out.new result
        (flat_map (λ content. between from to (items_of content)) contents.now) }
{
    for content in contents {
        out.extend_from_slice(&content.as_slice()[from..to])?;
    }
    Ok(())
}

/// Whether no axis behind the first is divided.
pub(crate) fn is_row(shape: &[u64], sizes: &[u64]) -> bool
    requires axes { length shape.now ≡ length sizes.now }
    ensures value { result ≡ pointwise nat_eq (drop 1 shape.now) (drop 1 sizes.now) }
{
    shape.len() < 2 || shape[1..] == sizes[1..]
}

/// Appends the elements of a part of a chunk, row by row. The part has the chunk's last axes, of these
/// sizes, and the inner chunks' of that shape: `count` inner chunks from that of a number on, and
/// `each` elements of each, from `first` on.
fn append_rows(
    out: &mut Vec<u8>,
    contents: &[ArrayBytesRaw<'_>],
    shape: &[u64],
    sizes: &[u64],
    number: usize,
    count: usize,
    first: usize,
    each: usize,
    size: usize,
) -> Result<(), AllocError>
    requires part { IsPart size (map items_of contents.now) number count first each shape.now sizes.now }
    requires axes { length shape.now ≡ length sizes.now }
    ensures appended { Appends out.old out.new result
        (part_bytes size (map items_of contents.now) number first shape.now sizes.now) }
{
    if is_row(shape, sizes) {
        let row = &contents[number..number + count];
        return append_between(out, row, first * size, (first + each) * size);
    }
    let (part, len) = (shape[0] as usize, sizes[0] as usize);
    let count = count / (len / part);
    let each = each / part;
    for index in 0..len {
        let number = number + index / part * count;
        let first = first + index % part * each;
        append_rows(
            out,
            contents,
            &shape[1..],
            &sizes[1..],
            number,
            count,
            first,
            each,
            size,
        )?;
    }
    Ok(())
}

/// The chunk of these inner chunks, whose elements have so many bytes. The bytes are appended in the
/// chunk's order, each once, so none is written in vain. Errors: `OutOfMemory`.
pub fn joined_rows<'b>(
    alloc: Global,
    contents: &[ArrayBytesRaw<'_>],
    inner: &ChunkShape,
    shape: &ChunkShape,
    data_type: &DataType,
    size: usize,
) -> Result<ArrayBytes<'b>, CodecError>
    requires valid { AreContents data_type.now size contents.now inner.now shape.now }
    ensures answer { GivesBy (Holds data_type.now) result (Ok (joined_inner_chunks inner.now shape.now
        (chunks_in data_type.now (product inner.now) contents.now))) }
    ensures tight { IfOk result (IsTight data_type.now) }
{
    let (parts, sizes) = (inner.as_slice(), shape.as_slice());
    let each = inner.num_elements()? as usize;
    let mut out = Vec::with_capacity(alloc, shape.num_elements()? as usize * size)?;
    append_rows(
        &mut out,
        contents,
        parts,
        sizes,
        0,
        contents.len(),
        0,
        each,
        size,
    )?;
    Ok(ArrayBytes::new_flen(CowSlice::Owned(out)))
}
