//! Stores a chunk of 4 by 6 bytes, reads a window of it, edits the window and decodes the whole.
//!
//! The chunk is transposed, and a checksum stands behind the value. The window is read and edited
//! through a storage handle, as if the whole chunk were there.
#![tactic(auto)]

use std::alloc::Global;
use std::borrow::CowSlice;
use std::io;
use std::process::ExitCode;
use thiserror::Error;
use zarrs_codecs::{
    ArrayBytes, ArraySubset, ChainJsonError, ChunkShape, CodecChain, CodecChainPartialTraits,
    CodecError, Crc32cCodec, Crc32cMaker, DataType, FillValue, Indexer, MemoryHandle,
};

/// What stopped the program.
#[derive(Debug, Drop, Error)]
enum Fault {
    #[error("{0}")]
    Chain(#[from] ChainJsonError),
    #[error("{0}")]
    Codec(#[from] CodecError),
    #[error("{0}")]
    Print(#[from] io::Error),
}

/// The codecs of the chain, as an array's metadata has them.
const CODECS: &'static str = r#"[
    {"name": "transpose", "configuration": {"order": [1, 0]}},
    "bytes",
    "crc32c"
]"#;

/// The elements of the chunk, row by row.
const ELEMENTS: &'static [u8] = &[
    0, 1, 2, 3, 4, 5, //
    10, 11, 12, 13, 14, 15, //
    20, 21, 22, 23, 24, 25, //
    30, 31, 32, 33, 34, 35,
];

/// Which chunks are encoded: their shape, the type of their elements, and the fill value.
#[derive(Drop)]
struct Form {
    shape: ChunkShape,
    data_type: DataType,
    fill_value: FillValue,
}

fn example_form(alloc: Global) -> Result<Form, CodecError> {
    let sizes = Vec::from_slice(alloc, &[4, 6])?;
    Ok(Form {
        shape: ChunkShape::new(sizes).ok_or(CodecError::Overflow)?,
        data_type: DataType::uint8(),
        fill_value: FillValue::new(Vec::from_slice(alloc, &[0])?),
    })
}

/// Encodes the whole chunk, and stores its value.
fn store(
    alloc: Global,
    chain: &CodecChain<Crc32cCodec>,
    form: &Form,
) -> Result<MemoryHandle, CodecError> {
    let Form {
        shape,
        data_type,
        fill_value,
    } = form;
    let elements = ArrayBytes::new_flen(CowSlice::Borrowed(ELEMENTS));
    let value = chain.encode(alloc, elements, shape, data_type, fill_value)?;
    Ok(MemoryHandle::with_value(value.into_owned(alloc)?))
}

/// Reads the window of rows 1 and 2, columns 2 to 4, and writes other elements there.
fn edit<R: Print + AllocGlobal>(
    rt: &R,
    chain: &CodecChain<Crc32cCodec>,
    form: &Form,
    handle: MemoryHandle,
) -> Result<MemoryHandle, Fault> {
    let Form {
        shape,
        data_type,
        fill_value,
    } = form;
    let alloc = rt.alloc();
    let window = Indexer::Subset(ArraySubset::new_with_ranges(alloc, &[1..3, 2..5])?);
    let mut encoder = chain
        .partial_encoder(alloc, handle, shape, data_type, fill_value)
        .map_err(|refused| refused.error)?;
    let read = encoder.partial_decode(alloc, &window)?;
    println!(rt; "window {:?}", read.as_fixed()?)?;
    let new = ArrayBytes::new_flen(CowSlice::Borrowed(&[90, 91, 92, 93, 94, 95]));
    encoder.partial_encode(alloc, &window, &new)?;
    Ok(encoder.into_handle())
}

/// Decodes the whole chunk of what is stored.
fn decode<R: Print + AllocGlobal>(
    rt: &R,
    chain: &CodecChain<Crc32cCodec>,
    form: &Form,
    value: &[u8],
) -> Result<(), Fault> {
    let Form {
        shape,
        data_type,
        fill_value,
    } = form;
    let value = CowSlice::Borrowed(value);
    let decoded = chain.decode(rt.alloc(), value, shape, data_type, fill_value)?;
    for row in decoded.as_fixed()?.chunks_exact(6) {
        println!(rt; "{row:?}")?;
    }
    Ok(())
}

fn show<R: Print + AllocGlobal>(rt: &R) -> Result<(), Fault> {
    let chain = CodecChain::from_json(rt.alloc(), CODECS, &Crc32cMaker)?;
    let form = example_form(rt.alloc())?;
    let handle = edit(rt, &chain, &form, store(rt.alloc(), &chain, &form)?)?;
    match handle.value() {
        Some(value) => decode(rt, &chain, &form, value),
        None => Ok(()),
    }
}

fn main(rt: HostRuntime) -> ExitCode {
    match show(&rt) {
        Ok(()) => ExitCode::SUCCESS,
        Err(fault) => {
            let _ = eprintln!(rt; "{fault}");
            ExitCode::FAILURE
        }
    }
}
