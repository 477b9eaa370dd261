//! Parts put into a region's elements, and taken out of them.

use crate::calls::{has_memory, is};
use std::alloc::AllocError;
use zarrs_array_calls::{zarrs_part_put, zarrs_part_take};

/// The part of a region of 3 by 3 that is its last two rows and columns, as a plan has its numbers.
const PART: &'static [u64] = &[1, 1, 0, 0, 2, 2, 1, 1];

/// A region's elements, of two bytes each.
const REGION: [u8; 18] = [1, 1, 2, 2, 3, 3, 4, 4, 5, 5, 6, 6, 7, 7, 8, 8, 9, 9];

#[test]
fn a_part_is_put(rt: HostRuntime) -> Result<(), AllocError> {
    let mut region = [0u8; 18];
    let elements = [5, 5, 6, 6, 8, 8, 9, 9];
    let code = zarrs_part_put(rt.alloc(), 2, &[3, 3], PART, &elements, &mut region);
    is(&rt, "done", &has_memory(code)?, &0);
    is(
        &rt,
        "region",
        &region,
        &[0, 0, 0, 0, 0, 0, 0, 0, 5, 5, 6, 6, 0, 0, 8, 8, 9, 9],
    );
    Ok(())
}

#[test]
fn a_part_is_taken(rt: HostRuntime) -> Result<(), AllocError> {
    let mut elements = [0u8; 8];
    let code = zarrs_part_take(rt.alloc(), 2, &[3, 3], PART, &REGION, &mut elements);
    is(&rt, "done", &has_memory(code)?, &0);
    is(&rt, "elements", &elements, &[5, 5, 6, 6, 8, 8, 9, 9]);
    Ok(())
}

/// Of a region without axes the one element.
#[test]
fn one_element(rt: HostRuntime) -> Result<(), AllocError> {
    let mut region = [0u8; 3];
    let code = zarrs_part_put(rt.alloc(), 3, &[], &[], &[7, 8, 9], &mut region);
    is(&rt, "done", &has_memory(code)?, &0);
    is(&rt, "region", &region, &[7, 8, 9]);
    Ok(())
}

/// What is given to a take, and its code.
struct Refused {
    name: &'static str,
    size: usize,
    lengths: &'static [u64],
    part: &'static [u64],
    code: u32,
}

const REFUSED: &'static [Refused] = &[
    Refused {
        name: "a region without elements",
        size: 0,
        lengths: &[3, 0],
        part: &[],
        code: 56,
    },
    Refused {
        name: "numbers of one axis",
        size: 0,
        lengths: &[3, 3],
        part: &[0, 0, 1, 1],
        code: 3,
    },
    Refused {
        name: "a range past 64 bits",
        size: 0,
        lengths: &[3, 3],
        part: &[1, 1, 0, 0, 2, 2, 18446744073709551615, 1],
        code: 18,
    },
    Refused {
        name: "elements without a byte",
        size: 0,
        lengths: &[3, 3],
        part: &[1, 1, 0, 0, 2, 2, 2, 1],
        code: 34,
    },
    Refused {
        name: "a row behind the last",
        size: 3,
        lengths: &[3, 3],
        part: &[1, 1, 0, 0, 2, 2, 2, 1],
        code: 17,
    },
    Refused {
        name: "a region of more bytes",
        size: 3,
        lengths: &[3, 3],
        part: &[1, 1, 0, 0, 2, 1, 1, 1],
        code: 15,
    },
    Refused {
        name: "a part of fewer elements",
        size: 2,
        lengths: &[3, 3],
        part: &[1, 1, 0, 0, 2, 1, 1, 1],
        code: 34,
    },
];

#[test]
fn parts_are_refused(rt: HostRuntime) -> Result<(), AllocError> {
    for row in REFUSED.iter() {
        let mut elements = [0u8; 8];
        let code = zarrs_part_take(
            rt.alloc(),
            row.size,
            row.lengths,
            row.part,
            &REGION,
            &mut elements,
        );
        is(&rt, row.name, &has_memory(code)?, &row.code);
        is(&rt, row.name, &elements, &[0; 8]);
    }
    Ok(())
}
