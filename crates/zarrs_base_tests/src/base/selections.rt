//! Elements selected and updated at the places of an indexer. The tool makes neither call.

use crate::base::containers::{Elements, Held, Type, answers, container, data_type};
use crate::checks::{Asked, indexer, shape};
use Asked::{Ranges, Tuples};
use std::alloc::Global;
use std::process::Abort;
use zarrs_array_bytes::{ArrayBytes, update_array_bytes};
use zarrs_chunk::{ChunkShape, CodecError, Indexer};
use zarrs_data_type::DataType;

/// A chunk and its sizes, what is asked for, and what is selected of it; new elements for the same
/// places, and the chunk afterwards. Under a mask, an absent element has its own bytes too. Of a
/// tuple that comes twice the last new element stands.
struct Row {
    name: &'static str,
    data_type: Type,
    chunk: Held,
    sizes: &'static [u64],
    at: Asked,
    selected: Held,
    new: Held,
    updated: Held,
}

const ROWS: &'static [Row] = &[
    Row {
        name: "bytes, and a place twice",
        data_type: Type::Byte,
        chunk: Held {
            masks: &[],
            bytes: &[1, 2, 3, 4],
            offsets: None,
        },
        sizes: &[2, 2],
        at: Tuples(&[&[1, 1], &[0, 0], &[1, 1]]),
        selected: Held {
            masks: &[],
            bytes: &[4, 1, 4],
            offsets: None,
        },
        new: Held {
            masks: &[],
            bytes: &[9, 8, 7],
            offsets: None,
        },
        updated: Held {
            masks: &[],
            bytes: &[8, 2, 3, 7],
            offsets: None,
        },
    },
    Row {
        name: "bytes under a mask, and a place twice",
        data_type: Type::OptionalByte,
        chunk: Held {
            masks: &[&[1, 0, 1]],
            bytes: &[5, 9, 7],
            offsets: None,
        },
        sizes: &[3],
        at: Tuples(&[&[2], &[0], &[2]]),
        selected: Held {
            masks: &[&[1, 1, 1]],
            bytes: &[7, 5, 7],
            offsets: None,
        },
        new: Held {
            masks: &[&[1, 0, 1]],
            bytes: &[6, 4, 8],
            offsets: None,
        },
        updated: Held {
            masks: &[&[0, 0, 1]],
            bytes: &[4, 9, 8],
            offsets: None,
        },
    },
    Row {
        name: "texts under a mask",
        data_type: Type::OptionalText,
        chunk: Held {
            masks: &[&[1, 0, 0]],
            bytes: b"xabc",
            offsets: Some(&[1, 2, 4, 4]),
        },
        sizes: &[3],
        at: Ranges(&[1..3]),
        selected: Held {
            masks: &[&[0, 0]],
            bytes: b"bc",
            offsets: Some(&[0, 2, 2]),
        },
        new: Held {
            masks: &[&[0, 1]],
            bytes: b"Z",
            offsets: Some(&[0, 0, 1]),
        },
        updated: Held {
            masks: &[&[1, 0, 1]],
            bytes: b"aZ",
            offsets: Some(&[0, 1, 1, 2]),
        },
    },
    Row {
        name: "two masks, and a place twice",
        data_type: Type::OptionalTwice,
        chunk: Held {
            masks: &[&[1, 0, 0], &[1, 1, 0]],
            bytes: &[42, 0, 3],
            offsets: None,
        },
        sizes: &[3],
        at: Tuples(&[&[2], &[0], &[2]]),
        selected: Held {
            masks: &[&[0, 1, 0], &[0, 1, 0]],
            bytes: &[3, 42, 3],
            offsets: None,
        },
        new: Held {
            masks: &[&[1, 0, 0], &[1, 0, 1]],
            bytes: &[42, 0, 7],
            offsets: None,
        },
        updated: Held {
            masks: &[&[0, 0, 0], &[0, 1, 1]],
            bytes: &[0, 0, 7],
            offsets: None,
        },
    },
];

/// The type and the shape of a chunk, and which of its elements are selected.
#[derive(Drop)]
struct Selection {
    data_type: DataType,
    shape: ChunkShape,
    at: Indexer<'static>,
}

fn make_selection(alloc: Global, row: &Row) -> Result<Selection, CodecError> {
    Ok(Selection {
        data_type: data_type(alloc, &row.data_type)?,
        shape: shape(alloc, row.sizes)?,
        at: indexer(alloc, &row.at)?,
    })
}

fn select(alloc: Global, row: &Row, selection: &Selection) -> Elements {
    match container(alloc, &row.chunk) {
        Ok(chunk) => {
            chunk.extract_array_subset(alloc, &selection.at, &selection.shape, &selection.data_type)
        }
        Err(cause) => Err(cause),
    }
}

fn update_by(
    alloc: Global,
    row: &Row,
    selection: &Selection,
    new: &ArrayBytes<'static>,
) -> Elements {
    match container(alloc, &row.chunk) {
        Ok(chunk) => {
            update_array_bytes(
                alloc,
                chunk,
                &selection.shape,
                &selection.at,
                new,
                &selection.data_type,
            )
        }
        Err(cause) => Err(cause),
    }
}

fn update(alloc: Global, row: &Row, selection: &Selection) -> Elements {
    match container(alloc, &row.new) {
        Ok(new) => update_by(alloc, row, selection, &new),
        Err(cause) => Err(cause),
    }
}

fn are_both(
    rt: &impl Abort,
    alloc: Global,
    row: &Row,
    selection: &Selection,
) -> Result<(), CodecError> {
    answers(
        rt,
        alloc,
        row.name,
        select(alloc, row, selection),
        &row.selected,
    )?;
    answers(
        rt,
        alloc,
        row.name,
        update(alloc, row, selection),
        &row.updated,
    )
}

fn select_and_update(rt: &impl Abort, alloc: Global, row: &Row) -> Result<(), CodecError> {
    let selection = make_selection(alloc, row)?;
    are_both(rt, alloc, row, &selection)
}

#[test]
fn select_and_update_elements(rt: HostRuntime) -> Result<(), CodecError> {
    for row in ROWS.iter() {
        select_and_update(&rt, rt.alloc(), row)?;
    }
    Ok(())
}
