//! Elements written into an array of the caller's.

use crate::checks::{are, shape};
use std::alloc::Global;
use std::ops::Range;
use std::process::Abort;
use zarrs_array_bytes::ArrayBytesFixedView;
use zarrs_chunk::{ArraySubset, CodecError};

/// The elements of a subset of an array: how many bytes each of them has, the array's sizes, and the
/// ranges of the subset.
struct Form {
    element_size: usize,
    sizes: &'static [u64],
    ranges: &'static [Range<u64>],
}

fn view<'a>(
    alloc: Global,
    bytes: &'a mut [u8],
    form: &Form,
) -> Result<ArrayBytesFixedView<'a>, CodecError> {
    let subset = ArraySubset::new_with_ranges(alloc, form.ranges)?;
    ArrayBytesFixedView::new(
        alloc,
        bytes,
        form.element_size,
        &shape(alloc, form.sizes)?,
        subset,
    )
}

/// Elements that are written, and the array's six bytes afterwards. Before, each byte is 0.
struct Written {
    name: &'static str,
    form: Form,
    elements: &'static [u8],
    after: &'static [u8],
}

const WRITTEN: &'static [Written] = &[
    Written {
        name: "a column",
        form: Form {
            element_size: 1,
            sizes: &[2, 3],
            ranges: &[0..2, 1..2],
        },
        elements: &[1, 2],
        after: &[0, 1, 0, 0, 2, 0],
    },
    Written {
        name: "the whole",
        form: Form {
            element_size: 1,
            sizes: &[2, 3],
            ranges: &[0..2, 0..3],
        },
        elements: &[1, 2, 3, 4, 5, 6],
        after: &[1, 2, 3, 4, 5, 6],
    },
    Written {
        name: "nothing",
        form: Form {
            element_size: 1,
            sizes: &[6],
            ranges: &[2..2],
        },
        elements: &[],
        after: &[0; 6],
    },
    Written {
        name: "no axes",
        form: Form {
            element_size: 6,
            sizes: &[],
            ranges: &[],
        },
        elements: &[1, 2, 3, 4, 5, 6],
        after: &[1, 2, 3, 4, 5, 6],
    },
    Written {
        name: "two bytes",
        form: Form {
            element_size: 2,
            sizes: &[3],
            ranges: &[1..2],
        },
        elements: &[1, 2],
        after: &[0, 0, 1, 2, 0, 0],
    },
    Written {
        name: "a column of two bytes",
        form: Form {
            element_size: 2,
            sizes: &[3, 1],
            ranges: &[1..3, 0..1],
        },
        elements: &[1, 2, 3, 4],
        after: &[0, 0, 1, 2, 3, 4],
    },
];

fn is_written(
    rt: &impl Abort,
    row: &Written,
    view: &mut ArrayBytesFixedView<'_>,
) -> Result<(), CodecError> {
    view.copy_from_slice(row.elements)?;
    are(rt, row.name, view.as_slice(), row.after);
    Ok(())
}

fn writes(rt: &impl Abort, alloc: Global, row: &Written) -> Result<(), CodecError> {
    let mut bytes = [0u8; 6];
    is_written(rt, row, &mut view(alloc, &mut bytes, &row.form)?)?;
    // The view has been dropped, which writes nothing more.
    are(rt, row.name, &bytes, row.after);
    Ok(())
}

#[test]
fn take_the_elements_of_a_subset(rt: HostRuntime) -> Result<(), CodecError> {
    for row in WRITTEN.iter() {
        writes(&rt, rt.alloc(), row)?;
    }
    Ok(())
}
