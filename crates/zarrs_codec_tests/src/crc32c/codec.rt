//! The codec, called as any bytes-to-bytes codec is, with bytes that are lent and with owned ones.
use crate::checks::{Answer, answers, is};
use BytesRepresentation::{BoundedSize, FixedSize, UnboundedSize};
use std::alloc::Global;
use std::borrow::CowSlice;
use std::process::Abort;
use zarrs_array_bytes::ArrayBytesRaw;
use zarrs_chunk::CodecError;
use zarrs_codec::{
    BytesRepresentation, BytesToBytesCodecTraits, PartialDecoderCapability,
    PartialEncoderCapability,
};
use zarrs_crc32c::Crc32cCodec;

/// These bytes came, or this error.
fn is_coded(
    rt: &impl Abort,
    name: &str,
    came: Result<ArrayBytesRaw<'_>, CodecError>,
    wanted: Answer<'_>,
) -> Result<(), CodecError> {
    match came {
        Ok(bytes) => answers(rt, name, Ok(bytes.as_slice()), wanted),
        Err(cause) => answers(rt, name, Err(cause), wanted),
    }
}

/// Bytes that are lent, or owned ones.
fn make_raw<'a>(
    alloc: Global,
    bytes: &'a [u8],
    is_owned: bool,
) -> Result<ArrayBytesRaw<'a>, CodecError> {
    if !is_owned {
        return Ok(CowSlice::Borrowed(bytes));
    }
    Ok(CowSlice::Owned(bytes.to_vec(alloc)?))
}

/// Bytes, and what they are encoded as.
struct Encoded {
    name: &'static str,
    bytes: &'static [u8],
    encoded: &'static [u8],
}

const ENCODED: &'static [Encoded] = &[
    Encoded {
        name: "no bytes",
        bytes: &[],
        encoded: &[0, 0, 0, 0],
    },
    Encoded {
        name: "two bytes",
        bytes: &[1, 2],
        encoded: &[1, 2, 0x52, 0x9f, 0xf8, 0x03],
    },
    Encoded {
        name: "a word and a byte",
        bytes: b"123456789",
        encoded: &[
            0x31, 0x32, 0x33, 0x34, 0x35, 0x36, 0x37, 0x38, 0x39, 0x83, 0x92, 0x06, 0xe3,
        ],
    },
];

/// The row's bytes are encoded so, and the encoded bytes are decoded to them.
fn codes<C: BytesToBytesCodecTraits>(
    rt: &impl Abort,
    alloc: Global,
    codec: &C,
    row: &Encoded,
    is_owned: bool,
) -> Result<(), CodecError> {
    let encoded = codec.encode(alloc, make_raw(alloc, row.bytes, is_owned)?);
    is_coded(rt, row.name, encoded, Ok(row.encoded))?;
    let decoded = codec.decode(
        alloc,
        make_raw(alloc, row.encoded, is_owned)?,
        &UnboundedSize,
    );
    is_coded(rt, row.name, decoded, Ok(row.bytes))
}

#[test]
fn bytes_are_encoded_and_decoded(rt: HostRuntime) -> Result<(), CodecError> {
    for row in ENCODED.iter() {
        codes(&rt, rt.alloc(), &Crc32cCodec, row, false)?;
        codes(&rt, rt.alloc(), &Crc32cCodec, row, true)?;
    }
    Ok(())
}

/// Encoded bytes, and why they aren't decoded.
struct Rejected {
    name: &'static str,
    encoded: &'static [u8],
    error: CodecError,
}

const REJECTED: &'static [Rejected] = &[
    Rejected {
        name: "no checksum",
        encoded: &[],
        error: CodecError::BytesCodec(1),
    },
    Rejected {
        name: "a byte less than a checksum has",
        encoded: &[0, 0, 0],
        error: CodecError::BytesCodec(1),
    },
    Rejected {
        name: "another checksum than that of no bytes",
        encoded: &[0, 0, 0, 1],
        error: CodecError::BytesCodec(2),
    },
    Rejected {
        name: "another byte",
        encoded: &[1, 3, 0x52, 0x9f, 0xf8, 0x03],
        error: CodecError::BytesCodec(2),
    },
    Rejected {
        name: "the checksum's bytes, the highest first",
        encoded: &[1, 2, 0x03, 0xf8, 0x9f, 0x52],
        error: CodecError::BytesCodec(2),
    },
];

fn rejects(
    rt: &impl Abort,
    alloc: Global,
    row: &Rejected,
    is_owned: bool,
) -> Result<(), CodecError> {
    let encoded = make_raw(alloc, row.encoded, is_owned)?;
    let decoded = BytesToBytesCodecTraits::decode(&Crc32cCodec, alloc, encoded, &UnboundedSize);
    is_coded(rt, row.name, decoded, Err(row.error))
}

#[test]
fn other_bytes_are_rejected(rt: HostRuntime) -> Result<(), CodecError> {
    for row in REJECTED.iter() {
        rejects(&rt, rt.alloc(), row, false)?;
        rejects(&rt, rt.alloc(), row, true)?;
    }
    Ok(())
}

/// How many bytes there are, and how many they are with a checksum.
struct Represented {
    name: &'static str,
    bytes: BytesRepresentation,
    encoded: BytesRepresentation,
}

const REPRESENTED: &'static [Represented] = &[
    Represented {
        name: "just so many",
        bytes: FixedSize(18446744073709551611),
        encoded: FixedSize(18446744073709551615),
    },
    Represented {
        name: "more than 64 bits count",
        bytes: FixedSize(18446744073709551612),
        encoded: UnboundedSize,
    },
    Represented {
        name: "at most so many",
        bytes: BoundedSize(0),
        encoded: BoundedSize(4),
    },
    Represented {
        name: "a bound too great for 64 bits",
        bytes: BoundedSize(18446744073709551615),
        encoded: UnboundedSize,
    },
    Represented {
        name: "any number",
        bytes: UnboundedSize,
        encoded: UnboundedSize,
    },
];

const READS_WHOLE: PartialDecoderCapability = PartialDecoderCapability {
    partial_read: false,
    partial_decode: false,
};

const WRITES_WHOLE: PartialEncoderCapability = PartialEncoderCapability {
    partial_encode: false,
};

/// What a codec answers without any bytes.
fn represents<C: BytesToBytesCodecTraits>(rt: &impl Abort, codec: &C, row: &Represented) {
    let encoded = codec.encoded_representation(&row.bytes);
    is(rt, row.name, &encoded, &row.encoded);
    let reading = codec.partial_decoder_capability();
    is(rt, row.name, &reading, &READS_WHOLE);
    let writing = codec.partial_encoder_capability();
    is(rt, row.name, &writing, &WRITES_WHOLE);
}

#[test]
fn four_bytes_are_added(rt: HostRuntime) {
    for row in REPRESENTED.iter() {
        represents(&rt, &Crc32cCodec, row);
    }
}
