//! Codecs of metadata, through the enum of the codecs: shapes and indexers of moved chunks, where they
//! are of another kind than in the examples.

use crate::array_to_array::calls::maps;
use crate::array_to_array::examples::Mapped;
use crate::array_to_array::forms::{SQUEEZE, TURN, codec};
use crate::checks::Asked;
use std::alloc::Global;
use std::process::Abort;
use zarrs_chunk::CodecError;

const AXES: CodecError = CodecError::IncompatibleDimensionality;

/// A codec by its metadata, and what it maps.
struct Row {
    name: &'static str,
    codec: &'static str,
    mapped: Mapped,
}

const ROWS: &'static [Row] = &[
    Row {
        name: "the last axis comes first",
        codec: r#"{"name":"transpose","configuration":{"order":[2,0,1]}}"#,
        mapped: Mapped {
            sizes: &[2, 3, 4],
            encoded: Ok(&[4, 2, 3]),
            decoded: Ok(Some(&[3, 4, 2])),
            asked: Asked::Tuples(&[&[1, 0, 0], &[0, 1, 0], &[0, 0, 1], &[1, 2, 3]]),
            places: Ok(&[3, 1, 6, 23]),
        },
    },
    Row {
        name: "no axes, and what is passed over",
        codec: r#"{"name":"transpose","configuration":{"order":[],"x":"C"},"must_understand":false}"#,
        mapped: Mapped {
            sizes: &[],
            encoded: Ok(&[]),
            decoded: Ok(Some(&[])),
            asked: Asked::Ranges(&[]),
            places: Ok(&[0]),
        },
    },
    Row {
        name: "an empty region is turned",
        codec: TURN,
        mapped: Mapped {
            sizes: &[2, 3],
            encoded: Ok(&[3, 2]),
            decoded: Ok(Some(&[3, 2])),
            asked: Asked::Ranges(&[1..1, 0..3]),
            places: Ok(&[]),
        },
    },
    Row {
        name: "an order of fewer axes",
        codec: TURN,
        mapped: Mapped {
            sizes: &[2, 3, 4],
            encoded: Err(AXES),
            decoded: Err(AXES),
            asked: Asked::Ranges(&[0..2, 0..3, 0..4]),
            places: Err(AXES),
        },
    },
    Row {
        name: "the region comes before the order, which has two axes",
        codec: TURN,
        mapped: Mapped {
            sizes: &[2],
            encoded: Err(AXES),
            decoded: Err(AXES),
            asked: Asked::Ranges(&[0..3]),
            places: Err(CodecError::OutOfBounds),
        },
    },
    Row {
        name: "the last axis before the others",
        codec: r#"{"name":"reshape","configuration":{"shape":[[2],[0,1]]}}"#,
        mapped: Mapped {
            sizes: &[2, 3, 4],
            encoded: Ok(&[4, 6]),
            decoded: Ok(None),
            asked: Asked::Ranges(&[1..2, 1..3, 1..4]),
            places: Ok(&[17, 18, 19, 21, 22, 23]),
        },
    },
    Row {
        name: "all forms of a size, and a tuple that comes twice",
        codec: r#"{"name":"reshape","configuration":{"shape":[[0,1],-1,[3],10]}}"#,
        mapped: Mapped {
            sizes: &[2, 3, 20, 4],
            encoded: Ok(&[6, 2, 4, 10]),
            decoded: Ok(None),
            asked: Asked::Tuples(&[&[1, 2, 19, 3], &[0, 0, 0, 1], &[1, 2, 19, 3]]),
            places: Ok(&[479, 1, 479]),
        },
    },
    Row {
        name: "the product of no axes",
        codec: r#"{"name":"reshape","configuration":{"shape":[[],[0]]}}"#,
        mapped: Mapped {
            sizes: &[4],
            encoded: Ok(&[1, 4]),
            decoded: Ok(None),
            asked: Asked::Ranges(&[1..3]),
            places: Ok(&[1, 2]),
        },
    },
    Row {
        name: "no axis 4",
        codec: r#"{"name":"reshape","configuration":{"shape":[-1,2,2,[4]]}}"#,
        mapped: Mapped {
            sizes: &[5, 4, 4, 3],
            encoded: Err(CodecError::ReshapeDimension),
            decoded: Ok(None),
            asked: Asked::Ranges(&[0..5, 0..4, 0..4, 0..3]),
            places: Err(CodecError::ReshapeDimension),
        },
    },
    Row {
        name: "the region comes before the sizes, as 240 elements aren't 8",
        codec: r#"{"name":"reshape","configuration":{"shape":[2,2,2]}}"#,
        mapped: Mapped {
            sizes: &[5, 4, 4, 3],
            encoded: Err(CodecError::ReshapeElements),
            decoded: Ok(None),
            asked: Asked::Ranges(&[0..6, 0..4, 0..4, 0..3]),
            places: Err(CodecError::OutOfBounds),
        },
    },
    Row {
        name: "a region of two axes among three of one",
        codec: SQUEEZE,
        mapped: Mapped {
            sizes: &[1, 4, 1, 4, 1],
            encoded: Ok(&[4, 4]),
            decoded: Ok(None),
            asked: Asked::Ranges(&[0..1, 1..3, 0..1, 1..4, 0..1]),
            places: Ok(&[5, 6, 7, 9, 10, 11]),
        },
    },
    Row {
        name: "squeeze by its other name, and a tuple outside",
        codec: r#"{"name":"https://codec.zarrs.dev/array_to_array/squeeze","configuration":{"x":1}}"#,
        mapped: Mapped {
            sizes: &[1, 3],
            encoded: Ok(&[3]),
            decoded: Ok(None),
            asked: Asked::Tuples(&[&[1, 0]]),
            places: Err(CodecError::OutOfBounds),
        },
    },
    Row {
        name: "an empty range along the axis that is left out",
        codec: SQUEEZE,
        mapped: Mapped {
            sizes: &[1, 3],
            encoded: Ok(&[3]),
            decoded: Ok(None),
            asked: Asked::Ranges(&[1..1, 0..3]),
            places: Ok(&[]),
        },
    },
    Row {
        name: "the same where no other axis is, so that one stays",
        codec: SQUEEZE,
        mapped: Mapped {
            sizes: &[1, 1],
            encoded: Ok(&[1]),
            decoded: Ok(None),
            asked: Asked::Ranges(&[0..1, 1..1]),
            places: Ok(&[]),
        },
    },
    Row {
        name: "a range outside along that axis",
        codec: SQUEEZE,
        mapped: Mapped {
            sizes: &[1, 1],
            encoded: Ok(&[1]),
            decoded: Ok(None),
            asked: Asked::Ranges(&[0..1, 1..2]),
            places: Err(CodecError::OutOfBounds),
        },
    },
];

fn is_mapped(rt: &impl Abort, alloc: Global, row: &Row) -> Result<(), CodecError> {
    let codec = codec(alloc, row.codec)?;
    maps(rt, alloc, row.name, &codec, &row.mapped)
}

#[test]
fn codecs_map_shapes_and_indexers(rt: HostRuntime) -> Result<(), CodecError> {
    for row in ROWS.iter() {
        is_mapped(&rt, rt.alloc(), row)?;
    }
    Ok(())
}
