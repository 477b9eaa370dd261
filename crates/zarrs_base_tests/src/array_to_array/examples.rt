//! One chunk for each codec: what the codec makes of it, and what is read and written of it through a
//! stage.

use crate::array_to_array::forms::{Chunk, Type};
use crate::checks::Asked;
use zarrs_chunk::CodecError;

const AXES: CodecError = CodecError::IncompatibleDimensionality;

/// What is done with a stage: a read and its answer, a write and the error it fails with, if any,
/// or the value is erased.
pub(crate) enum Step {
    Read {
        asked: Asked,
        answer: Result<&'static [u8], CodecError>,
    },
    Write {
        at: Asked,
        elements: &'static [u8],
        answer: Result<(), CodecError>,
    },
    Erase,
}

/// Sizes of a chunk, those of the moved chunk, and those of the chunk whose moved one has the
/// sizes. Then what is asked of the chunk, and the places of that in the moved one.
pub(crate) struct Mapped {
    pub(crate) sizes: &'static [u64],
    pub(crate) encoded: Result<&'static [u64], CodecError>,
    pub(crate) decoded: Result<Option<&'static [u64]>, CodecError>,
    pub(crate) asked: Asked,
    pub(crate) places: Result<&'static [u64], CodecError>,
}

/// A codec by its metadata, and whether it keeps places and boxes; a chunk and its moved chunk, with the
/// elements of both, the lowest byte of each first. Then the value of a stage's input, the highest byte of an
/// element first, what is done with the stage, and the value that this leaves, after so many
/// writing calls.
pub(crate) struct Example {
    pub(crate) name: &'static str,
    pub(crate) metadata: &'static str,
    pub(crate) keeps_places: bool,
    pub(crate) keeps_boxes: bool,
    pub(crate) chunk: Chunk,
    pub(crate) encoded: Chunk,
    pub(crate) mapped: Mapped,
    pub(crate) elements: &'static [u8],
    pub(crate) moved: &'static [u8],
    pub(crate) value: &'static [u8],
    pub(crate) steps: &'static [Step],
    pub(crate) left: &'static [u8],
    pub(crate) writing_calls: u64,
}

/// The axes are turned round. The words are 0 to 5, and the fill value is 256 + 9.
pub(crate) const TURNED: &'static Example = &Example {
    name: "transpose",
    metadata: r#"{"configuration":{"order":[2,1,0]},"name":"transpose"}"#,
    keeps_places: false,
    keeps_boxes: true,
    chunk: Chunk {
        sizes: &[2, 1, 3],
        data_type: Type::Word,
        fill: &[9, 1],
    },
    encoded: Chunk {
        sizes: &[3, 1, 2],
        data_type: Type::Word,
        fill: &[9, 1],
    },
    mapped: Mapped {
        sizes: &[2, 1, 3],
        encoded: Ok(&[3, 1, 2]),
        decoded: Ok(Some(&[3, 1, 2])),
        asked: Asked::Ranges(&[1..2, 0..1, 0..3]),
        places: Ok(&[1, 3, 5]),
    },
    elements: &[0, 0, 1, 0, 2, 0, 3, 0, 4, 0, 5, 0],
    moved: &[0, 0, 3, 0, 1, 0, 4, 0, 2, 0, 5, 0],
    value: &[0, 0, 0, 3, 0, 1, 0, 4, 0, 2, 0, 5],
    steps: &[
        Step::Read {
            asked: Asked::Tuples(&[&[1, 0, 0], &[0, 0, 2]]),
            answer: Ok(&[3, 0, 2, 0]),
        },
        // A region of the moved chunk isn't one of the chunk.
        Step::Read {
            asked: Asked::Ranges(&[0..3, 0..1, 0..2]),
            answer: Err(CodecError::OutOfBounds),
        },
        // Of two elements for one place the last stands.
        Step::Write {
            at: Asked::Tuples(&[&[0, 0, 0], &[0, 0, 0]]),
            elements: &[7, 0, 8, 0],
            answer: Ok(()),
        },
        Step::Write {
            at: Asked::Ranges(&[0..1]),
            elements: &[],
            answer: Err(AXES),
        },
        Step::Write {
            at: Asked::Ranges(&[0..3, 0..1, 0..2]),
            elements: &[],
            answer: Err(CodecError::OutOfBounds),
        },
        // One element for two places.
        Step::Write {
            at: Asked::Ranges(&[0..1, 0..1, 0..2]),
            elements: &[1, 0],
            answer: Err(CodecError::DataMismatch),
        },
        Step::Read {
            asked: Asked::Ranges(&[0..2, 0..1, 0..3]),
            answer: Ok(&[8, 0, 1, 0, 2, 0, 3, 0, 4, 0, 5, 0]),
        },
        Step::Erase,
        Step::Write {
            at: Asked::Ranges(&[0..1, 0..1, 1..3]),
            elements: &[7, 0, 8, 0],
            answer: Ok(()),
        },
    ],
    left: &[1, 9, 1, 9, 0, 7, 1, 9, 0, 8, 1, 9],
    writing_calls: 3,
};

/// One axis of all elements.
pub(crate) const RESHAPED: &'static Example = &Example {
    name: "reshape",
    metadata: r#"{"configuration":{"shape":[-1]},"name":"reshape"}"#,
    keeps_places: true,
    keeps_boxes: false,
    chunk: Chunk {
        sizes: &[2, 3],
        data_type: Type::Byte,
        fill: &[5],
    },
    encoded: Chunk {
        sizes: &[6],
        data_type: Type::Byte,
        fill: &[5],
    },
    mapped: Mapped {
        sizes: &[2, 3],
        encoded: Ok(&[6]),
        decoded: Ok(None),
        asked: Asked::Ranges(&[1..2, 0..3]),
        places: Ok(&[3, 4, 5]),
    },
    elements: &[0, 1, 2, 3, 4, 5],
    moved: &[0, 1, 2, 3, 4, 5],
    value: &[0, 1, 2, 3, 4, 5],
    steps: &[
        Step::Read {
            asked: Asked::Ranges(&[0..2, 1..3]),
            answer: Ok(&[1, 2, 4, 5]),
        },
        Step::Read {
            asked: Asked::Tuples(&[&[2, 0]]),
            answer: Err(CodecError::OutOfBounds),
        },
        // The last column.
        Step::Write {
            at: Asked::Ranges(&[0..2, 2..3]),
            elements: &[7, 8],
            answer: Ok(()),
        },
        // The axis of the moved chunk.
        Step::Write {
            at: Asked::Ranges(&[0..6]),
            elements: &[0, 0, 0, 0, 0, 0],
            answer: Err(AXES),
        },
        Step::Read {
            asked: Asked::Ranges(&[0..2, 0..3]),
            answer: Ok(&[0, 1, 7, 3, 4, 8]),
        },
        Step::Erase,
        Step::Write {
            at: Asked::Ranges(&[0..2, 2..3]),
            elements: &[7, 8],
            answer: Ok(()),
        },
    ],
    left: &[5, 5, 7, 5, 5, 8],
    writing_calls: 3,
};

/// The axis of size 1 is left out. The numbers of four bytes are 0 to 3.
pub(crate) const SQUEEZED: &'static Example = &Example {
    name: "squeeze",
    metadata: r#"{"configuration":{},"name":"zarrs.squeeze"}"#,
    keeps_places: true,
    keeps_boxes: true,
    chunk: Chunk {
        sizes: &[2, 1, 2],
        data_type: Type::Long,
        fill: &[1, 2, 3, 4],
    },
    encoded: Chunk {
        sizes: &[2, 2],
        data_type: Type::Long,
        fill: &[1, 2, 3, 4],
    },
    mapped: Mapped {
        sizes: &[2, 1, 2],
        encoded: Ok(&[2, 2]),
        decoded: Ok(None),
        asked: Asked::Ranges(&[1..2, 0..1, 0..2]),
        places: Ok(&[2, 3]),
    },
    elements: &[0, 0, 0, 0, 1, 0, 0, 0, 2, 0, 0, 0, 3, 0, 0, 0],
    moved: &[0, 0, 0, 0, 1, 0, 0, 0, 2, 0, 0, 0, 3, 0, 0, 0],
    value: &[0, 0, 0, 0, 0, 0, 0, 1, 0, 0, 0, 2, 0, 0, 0, 3],
    steps: &[
        Step::Read {
            asked: Asked::Ranges(&[0..2, 0..1, 1..2]),
            answer: Ok(&[1, 0, 0, 0, 3, 0, 0, 0]),
        },
        // The axes of the moved chunk.
        Step::Read {
            asked: Asked::Ranges(&[0..2, 0..2]),
            answer: Err(AXES),
        },
        Step::Write {
            at: Asked::Tuples(&[&[1, 0, 1], &[0, 0, 0]]),
            elements: &[7, 0, 0, 0, 8, 0, 0, 0],
            answer: Ok(()),
        },
        Step::Write {
            at: Asked::Tuples(&[&[0, 1, 0]]),
            elements: &[9, 0, 0, 0],
            answer: Err(CodecError::OutOfBounds),
        },
        Step::Read {
            asked: Asked::Ranges(&[0..2, 0..1, 0..2]),
            answer: Ok(&[8, 0, 0, 0, 1, 0, 0, 0, 2, 0, 0, 0, 7, 0, 0, 0]),
        },
        Step::Erase,
        Step::Write {
            at: Asked::Tuples(&[&[0, 0, 1], &[0, 0, 0]]),
            elements: &[7, 0, 0, 0, 8, 0, 0, 0],
            answer: Ok(()),
        },
    ],
    left: &[0, 0, 0, 8, 0, 0, 0, 7, 4, 3, 2, 1, 4, 3, 2, 1],
    writing_calls: 3,
};
