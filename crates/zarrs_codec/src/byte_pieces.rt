//! Writing pieces of bytes into a value in memory.
ghost use Rattle.std.specs.Prelude.{◌≡◌, ◌+◌, ◌≤◌, ◌<◌, ◌^◌, Ok, IfOk, length, max};
ghost use Rattle.zarrs_chunk.specs.Answer.{seen};
ghost use Rattle.zarrs_chunk.specs.Runs.{joined_runs};
ghost use Rattle.zarrs_array_bytes.specs.Update.{update};
ghost use Rattle.zarrs_codec.specs.BytePieces.{pieces_fit, end_of, furthest_end, with_bytes};

use zarrs_chunk::CodecError;

/// The further one of this end and a piece's.
fn further(end: usize, start: u64, count: u64) -> usize
    requires fits { start + count < 2 ^ 64 }
    ensures value { result ≡ max end (end_of start count) }
{
    if count == 0 {
        return end;
    }
    end.max((start + count) as usize)
}

/// The furthest end of the pieces that aren't empty, where they can be written with so many bytes.
#[inline(always)]
pub fn checked_end(pieces: &[(u64, u64)], len: usize) -> Result<usize, CodecError>
    ensures fit { seen (λ _. tt) result ≡ pieces_fit pieces.now len }
    ensures end { IfOk result (λ end. end ≡ furthest_end pieces.now) }
{
    let mut sum: u64 = 0;
    let mut end = 0;
    for (start, count) in pieces {
        if *count > u64::MAX - *start {
            return Err(CodecError::Overflow);
        }
        match sum.checked_add(*count) {
            None => return Err(CodecError::Overflow),
            Some(more) => sum = more,
        }
        end = further(end, *start, *count);
    }
    let len = len as u64;
    if len == sum {
        Ok(end)
    } else {
        Err(CodecError::InvalidBytesLength { len, expected: sum })
    }
}

/// Whether pieces can be written with so many bytes.
pub fn check_pieces(pieces: &[(u64, u64)], len: usize) -> Result<(), CodecError>
    ensures exact { result ≡ pieces_fit pieces.now len }
{
    checked_end(pieces, len)?;
    Ok(())
}

/// The furthest end of the pieces that aren't empty.
pub fn furthest_end_of(pieces: &[(u64, u64)], len: usize) -> usize
    requires fit { pieces_fit pieces.now len ≡ Ok tt }
    ensures value { result ≡ furthest_end pieces.now }
{
    let mut end = 0;
    for (start, count) in pieces {
        end = further(end, *start, *count);
    }
    end
}

/// Writes a piece from a byte on.
#[inline(always)]
fn overwrite(value: &mut [u8], start: usize, piece: &[u8])
    requires inside { start + length piece.now ≤ length value.old }
    ensures written { value.new ≡ with_bytes value.old start piece.now }
{
    value[start..start + piece.len()].copy_from_slice(piece);
}

/// Writes a piece from a byte on, an empty one anywhere. The sizes of most elements and of short rows
/// of them are constants here, so that each of these is a move or two and no call to copy.
#[inline(always)]
fn write_piece(value: &mut [u8], start: usize, piece: &[u8])
    requires inside { end_of start (length piece.now) ≤ length value.old }
    ensures written { value.new ≡ with_bytes value.old start piece.now }
{
    match piece.len() {
        0 => {}
        1 => overwrite(value, start, &piece[..1]),
        2 => overwrite(value, start, &piece[..2]),
        4 => overwrite(value, start, &piece[..4]),
        8 => overwrite(value, start, &piece[..8]),
        16 => overwrite(value, start, &piece[..16]),
        32 => overwrite(value, start, &piece[..32]),
        _ => overwrite(value, start, piece),
    }
}

/// Writes the pieces, one after another.
pub fn write_pieces(value: &mut [u8], pieces: &[(u64, u64)], bytes: &[u8])
    requires fit { pieces_fit pieces.now (length bytes.now) ≡ Ok tt }
    requires inside { furthest_end pieces.now ≤ length value.old }
    ensures written { value.new ≡ update value.old (joined_runs pieces.now) bytes.now }
{
    let mut done = 0;
    for (start, count) in pieces {
        let end = done + *count as usize;
        write_piece(value, *start as usize, &bytes[done..end]);
        done = end;
    }
}
