//! The value that a write leaves, in a caller's buffer where that has room.
ghost use Rattle.std.specs.Prelude.{◌≡◌, ◌≤◌, Ok, length, max};
ghost use Rattle.zarrs_codec.specs.BytePieces.{furthest_end, pieces_fit, with_pieces, with_zeros};
ghost use Rattle.zarrs_c_calls.specs.Written.{is_written as written_of, TellsWritten, WritesOnce};
ghost use Rattle.zarrs_c_calls.specs.Reads.{stored_value};
ghost use Rattle.zarrs_codec.specs.StorageState.{value_or_empty};

use crate::tell::{DONE, tell_bytes};
use std::alloc::{AllocError, Global};
use zarrs_codec::{furthest_end_of, write_pieces};

/// What a write left, and where.
#[derive(Clone, Copy)]
pub(crate) enum Written {
    /// There was none.
    Nothing,
    /// A value of so many bytes, in front of the buffer.
    Front(usize),
    /// A value that is kept apart, since the buffer is too short for it.
    Apart,
    /// No value.
    Erased,
}

impl Written {
    /// Whether there was a write.
    pub(crate) fn is_written(&self) -> bool
        ensures value { result ≡ written_of self.now }
    {
        match self {
            Written::Nothing => false,
            Written::Front(_) | Written::Apart | Written::Erased => true,
        }
    }
}

/// Copies a value, with zeros behind it.
fn copy_grown(front: &mut [u8], value: &[u8])
    requires inside { length value.now ≤ length front.old }
    ensures written { front.new ≡ with_zeros value.now (length front.old) }
{
    front[..value.len()].copy_from_slice(value);
    front[value.len()..].fill(0);
}

/// Copies a value, as far as pieces reach with zeros behind it, and writes the pieces over it.
fn copy_edited(front: &mut [u8], value: &[u8], pieces: &[(u64, u64)], bytes: &[u8])
    requires fit { pieces_fit pieces.now (length bytes.now) ≡ Ok tt }
    requires room { length front.old ≡ max (length value.now) (furthest_end pieces.now) }
    ensures edited { front.new ≡ with_pieces value.now pieces.now bytes.now }
{
    copy_grown(front, value);
    write_pieces(front, pieces, bytes);
}

/// A value, where it is stored, or an empty one.
pub(crate) fn stored_or_empty(is_stored: bool, value: &[u8]) -> &[u8]
    ensures value { result.now ≡ value_or_empty (stored_value is_stored value.now) }
{
    if is_stored { value } else { &[] }
}

/// Writes pieces over a copy of a value, in front of the buffer where that has room, and else apart.
pub(crate) fn write_over(
    alloc: Global,
    value: &[u8],
    out: &mut [u8],
    apart: &mut Vec<u8>,
    pieces: &[(u64, u64)],
    bytes: &[u8],
) -> Result<Written, AllocError>
    requires fit { pieces_fit pieces.now (length bytes.now) ≡ Ok tt }
    ensures written { WritesOnce (with_pieces value.now pieces.now bytes.now)
        out.old out.new apart.new.items result }
{
    let count = value.len().max(furthest_end_of(pieces, bytes.len()));
    if count <= out.len() {
        copy_edited(&mut out[..count], value, pieces, bytes);
        return Ok(Written::Front(count));
    }
    let mut grown = vec![in alloc; 0; count]?;
    copy_edited(&mut grown, value, pieces, bytes);
    *apart = grown;
    Ok(Written::Apart)
}

/// Writes a value in front of the buffer where that has room, and else apart.
pub(crate) fn write_whole(
    alloc: Global,
    out: &mut [u8],
    apart: &mut Vec<u8>,
    bytes: &[u8],
) -> Result<Written, AllocError>
    ensures written { WritesOnce bytes.now out.old out.new apart.new.items result }
{
    if bytes.len() <= out.len() {
        out[..bytes.len()].copy_from_slice(bytes);
        return Ok(Written::Front(bytes.len()));
    }
    *apart = Vec::from_slice(alloc, bytes)?;
    Ok(Written::Apart)
}

/// Returns what a write left: where it is in the buffer, how many bytes it has.
pub(crate) fn tell_written(
    written: Written,
    apart: &[u8],
    out: &mut [u8],
    needed: &mut usize,
) -> u32
    ensures told { TellsWritten written apart.now result out.old out.new needed.new }
{
    match written {
        Written::Front(count) => {
            *needed = count;
            DONE
        }
        Written::Nothing | Written::Apart | Written::Erased => tell_bytes(apart, out, needed),
    }
}
