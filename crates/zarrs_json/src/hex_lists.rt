//! Lists of hex texts of one length, read from JSON as the text goes by.
ghost use Rattle.std.specs.Prelude.{◌≡◌, length, true, IfOk, IfSome, IsUtf8};
ghost use Rattle.zarrs_json.specs.HexLists.{AppendsHex, TakesText, TakesTexts, IsHexList, ListsHexTexts};

use json::{Reader, Scratch, Token};
use std::alloc::{AllocError, Global};

/// Appends the bytes of a hex text by way of a piece, or answers `false` where the text isn't one of
/// as many bytes as the piece has.
fn append_hex(text: &str, piece: &mut [u8], bytes: &mut Vec<u8>) -> Result<bool, AllocError>
    ensures appended { IfOk result (λ is_hex. is_hex ≡ true
        → AppendsHex (length piece.old) text.now bytes.old.items bytes.new.items) }
{
    if hex::decode_to_slice(text, piece).is_err() {
        return Ok(false);
    }
    bytes.extend_from_slice(piece)?;
    Ok(true)
}

/// As `append_hex`, for the next text of a list; answers `false` where something else is next.
fn append_next(
    reader: &mut Reader<'_>,
    piece: &mut [u8],
    bytes: &mut Vec<u8>,
) -> Result<bool, AllocError>
    ensures appended { IfOk result (λ is_hex. is_hex ≡ true
        → TakesText (length piece.old) reader.old reader.new bytes.old.items bytes.new.items) }
{
    match reader.next() {
        Some(Token::String(text)) => append_hex(text, piece, bytes),
        _ => Ok(false),
    }
}

/// The bytes of hex texts up to the end of the list that they are in, or `None` where anything
/// else is among them.
fn bytes_among(
    alloc: Global,
    reader: &mut Reader<'_>,
    piece: &mut [u8],
) -> Result<Option<Vec<u8>>, AllocError>
    ensures value { IfOk result (λ found. IfSome found
        (λ bytes. TakesTexts (length piece.old) reader.old reader.new bytes.items)) }
{
    let mut bytes = Vec::new(alloc);
    'texts: while !reader.take_end_array() {
        if !append_next(reader, piece, &mut bytes)? {
            return Ok(None);
        }
    }
    Ok(Some(bytes))
}

fn bytes_of(
    alloc: Global,
    size: usize,
    reader: &mut Reader<'_>,
) -> Result<Option<Vec<u8>>, AllocError>
    ensures value { IfOk result (λ found. IfSome found
        (λ bytes. IsHexList size reader.old bytes.items)) }
{
    let Some(Token::BeginArray) = reader.next() else {
        return Ok(None);
    };
    let mut piece = vec![in alloc; 0u8; size]?;
    let bytes = bytes_among(alloc, reader, &mut piece)?;
    match reader.next() {
        None => Ok(bytes),
        Some(_) => Ok(None),
    }
}

#[tactic(auto, using(crate::proofs::HexListLemmas::hex_list_read))]
fn bytes_in(alloc: Global, size: usize, text: &str) -> Result<Option<Vec<u8>>, AllocError>
    ensures value { IfOk result (λ found. IfSome found
        (λ bytes. ListsHexTexts size text.now bytes.items)) }
{
    let mut scratch = Scratch::new(alloc);
    let mut reader = Reader::new(text, &mut scratch)?;
    bytes_of(alloc, size, &mut reader)
}

/// The bytes of the hex texts, each of so many bytes, that a text lists, or `None` where the text is
/// anything else. It fails only for lack of memory.
pub(crate) fn hex_list(
    alloc: Global,
    size: usize,
    text: &[u8],
) -> Result<Option<Vec<u8>>, AllocError>
    ensures value { IfOk result (λ found. IfSome found
        (λ bytes. IsUtf8 text.now × ListsHexTexts size text.now bytes.items)) }
{
    if size > text.len() {
        return Ok(None);
    }
    match std::str::from_utf8(text) {
        Ok(text) => bytes_in(alloc, size, text),
        Err(_) => Ok(None),
    }
}
