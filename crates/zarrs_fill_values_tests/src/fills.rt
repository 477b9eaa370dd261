//! Fill values, read and written again.
use crate::names::{element_name, is, tree};
use std::alloc::Global;
use std::process::Abort;
use zarrs_fill_values::ElementError;

/// A fill value of a type, its bytes, and how it is written again.
struct Row {
    data_type: &'static str,
    fill: &'static str,
    bytes: &'static [u8],
    again: &'static str,
}

const NUMBERS: &'static [Row] = &[
    Row {
        data_type: r#""bool""#,
        fill: "true",
        bytes: &[1],
        again: "true",
    },
    Row {
        data_type: r#""bool""#,
        fill: "false",
        bytes: &[0],
        again: "false",
    },
    Row {
        data_type: r#""int8""#,
        fill: "-1",
        bytes: &[255],
        again: "-1",
    },
    Row {
        data_type: r#""int2""#,
        fill: "-2",
        bytes: &[254],
        again: "-2",
    },
    Row {
        data_type: r#""int4""#,
        fill: "7",
        bytes: &[7],
        again: "7",
    },
    Row {
        data_type: r#""uint2""#,
        fill: "3",
        bytes: &[3],
        again: "3",
    },
    Row {
        data_type: r#""int16""#,
        fill: "-32768",
        bytes: &[0, 128],
        again: "-32768",
    },
    Row {
        data_type: r#""uint32""#,
        fill: "258",
        bytes: &[2, 1, 0, 0],
        again: "258",
    },
    Row {
        data_type: r#""int64""#,
        fill: "-9223372036854775808",
        bytes: &[0, 0, 0, 0, 0, 0, 0, 128],
        again: "-9223372036854775808",
    },
    Row {
        data_type: r#""uint64""#,
        fill: "18446744073709551615",
        bytes: &[255, 255, 255, 255, 255, 255, 255, 255],
        again: "18446744073709551615",
    },
];

const FLOATS: &'static [Row] = &[
    Row {
        data_type: r#""float32""#,
        fill: "1.0",
        bytes: &[0, 0, 128, 63],
        again: "1.0",
    },
    Row {
        data_type: r#""float32""#,
        fill: "1",
        bytes: &[0, 0, 128, 63],
        again: "1.0",
    },
    Row {
        data_type: r#""float32""#,
        fill: r#""NaN""#,
        bytes: &[0, 0, 192, 127],
        again: r#""NaN""#,
    },
    Row {
        data_type: r#""float32""#,
        fill: r#""0x7fc00000""#,
        bytes: &[0, 0, 192, 127],
        again: r#""NaN""#,
    },
    Row {
        data_type: r#""float32""#,
        fill: r#""0x7FC00001""#,
        bytes: &[1, 0, 192, 127],
        again: r#""0x7fc00001""#,
    },
    Row {
        data_type: r#""float32""#,
        fill: r#""-Infinity""#,
        bytes: &[0, 0, 128, 255],
        again: r#""-Infinity""#,
    },
    Row {
        data_type: r#""float32""#,
        fill: "0.1",
        bytes: &[205, 204, 204, 61],
        again: "0.10000000149011612",
    },
    Row {
        data_type: r#""float32""#,
        fill: "-0.0",
        bytes: &[0, 0, 0, 128],
        again: "-0.0",
    },
    Row {
        data_type: r#""float64""#,
        fill: "0.1",
        bytes: &[154, 153, 153, 153, 153, 153, 185, 63],
        again: "0.1",
    },
    Row {
        data_type: r#""float64""#,
        fill: r#""NaN""#,
        bytes: &[0, 0, 0, 0, 0, 0, 248, 127],
        again: r#""NaN""#,
    },
    Row {
        data_type: r#""float16""#,
        fill: r#""NaN""#,
        bytes: &[0, 126],
        again: r#""NaN""#,
    },
    Row {
        data_type: r#""float16""#,
        fill: "1.5",
        bytes: &[0, 62],
        again: "1.5",
    },
    Row {
        data_type: r#""float16""#,
        fill: "0.1",
        bytes: &[102, 46],
        again: "0.0999755859375",
    },
    Row {
        data_type: r#""float16""#,
        fill: "-65519",
        bytes: &[255, 251],
        again: "-65504.0",
    },
    Row {
        data_type: r#""float16""#,
        fill: "-1e-9",
        bytes: &[0, 128],
        again: "-0.0",
    },
    Row {
        data_type: r#""bfloat16""#,
        fill: r#""Infinity""#,
        bytes: &[128, 127],
        again: r#""Infinity""#,
    },
    Row {
        data_type: r#""bfloat16""#,
        fill: "1.00390625",
        bytes: &[128, 63],
        again: "1.0",
    },
    Row {
        data_type: r#""complex64""#,
        fill: r#"[1.0,"-Infinity"]"#,
        bytes: &[0, 0, 128, 63, 0, 0, 128, 255],
        again: r#"[1.0,"-Infinity"]"#,
    },
];

const BYTES: &'static [Row] = &[
    Row {
        data_type: r#""r16""#,
        fill: "[1,2]",
        bytes: &[1, 2],
        again: "[1,2]",
    },
    Row {
        data_type: r#""r16""#,
        fill: r#""AQI=""#,
        bytes: &[1, 2],
        again: "[1,2]",
    },
    Row {
        data_type: r#""string""#,
        fill: r#""é""#,
        bytes: &[195, 169],
        again: r#""é""#,
    },
    Row {
        data_type: r#""bytes""#,
        fill: r#""AQI=""#,
        bytes: &[1, 2],
        again: r#""AQI=""#,
    },
    Row {
        data_type: r#""variable_length_bytes""#,
        fill: "[1,2]",
        bytes: &[1, 2],
        again: r#""AQI=""#,
    },
    Row {
        data_type: r#"{"name":"zarrs.optional","configuration":{"name":"uint8"}}"#,
        fill: "null",
        bytes: &[0],
        again: "null",
    },
    Row {
        data_type: r#"{"name":"optional","configuration":{"name":"uint8","configuration":{}}}"#,
        fill: "[5]",
        bytes: &[5, 1],
        again: "[5]",
    },
];

/// The fill value has these bytes, and is written so.
fn has_bytes(rt: &impl Abort, alloc: Global, row: &Row) -> Result<(), ElementError> {
    let name = element_name(alloc, row.data_type)?;
    let fill = name.fill_value_from_metadata(alloc, &tree(alloc, row.fill)?)?;
    is(rt, row.fill, &fill.as_ne_bytes(), &row.bytes);
    let text = name.metadata_fill_value(alloc, &fill)?.to_string(alloc)?;
    is(rt, row.fill, &text.as_str(), &row.again);
    Ok(())
}

#[test]
fn numbers_are_read_and_written_again(rt: HostRuntime) -> Result<(), ElementError> {
    for row in NUMBERS.iter() {
        has_bytes(&rt, rt.alloc(), row)?;
    }
    Ok(())
}

#[test]
fn floats_are_read_and_written_again(rt: HostRuntime) -> Result<(), ElementError> {
    for row in FLOATS.iter() {
        has_bytes(&rt, rt.alloc(), row)?;
    }
    Ok(())
}

#[test]
fn bytes_are_read_and_written_again(rt: HostRuntime) -> Result<(), ElementError> {
    for row in BYTES.iter() {
        has_bytes(&rt, rt.alloc(), row)?;
    }
    Ok(())
}

/// A type, and a tree that is no fill value of it.
struct Refused {
    data_type: &'static str,
    fill: &'static str,
}

const REFUSED: &'static [Refused] = &[
    Refused {
        data_type: r#""bool""#,
        fill: "1",
    },
    Refused {
        data_type: r#""uint8""#,
        fill: "256",
    },
    Refused {
        data_type: r#""uint8""#,
        fill: "1.0",
    },
    Refused {
        data_type: r#""int4""#,
        fill: "8",
    },
    Refused {
        data_type: r#""int8""#,
        fill: "-129",
    },
    Refused {
        data_type: r#""uint64""#,
        fill: "18446744073709551616",
    },
    Refused {
        data_type: r#""float32""#,
        fill: "1e39",
    },
    Refused {
        data_type: r#""float32""#,
        fill: r#""nan""#,
    },
    Refused {
        data_type: r#""float32""#,
        fill: r#""0x7fc0000""#,
    },
    Refused {
        data_type: r#""float64""#,
        fill: r#""0x7fc00000""#,
    },
    Refused {
        data_type: r#""float16""#,
        fill: r#""0x+e00""#,
    },
    Refused {
        data_type: r#""float16""#,
        fill: "65520",
    },
    Refused {
        data_type: r#""bfloat16""#,
        fill: "3.4e38",
    },
    Refused {
        data_type: r#""complex64""#,
        fill: "[1.0]",
    },
    Refused {
        data_type: r#""complex64""#,
        fill: "[1.0,2.0,3.0]",
    },
    Refused {
        data_type: r#""r16""#,
        fill: "[1]",
    },
    Refused {
        data_type: r#""r16""#,
        fill: "[1,256]",
    },
    Refused {
        data_type: r#""r16""#,
        fill: r#""AQI""#,
    },
    Refused {
        data_type: r#""bytes""#,
        fill: "null",
    },
    Refused {
        data_type: r#""string""#,
        fill: "5",
    },
    Refused {
        data_type: r#"{"name":"optional","configuration":{"name":"uint8"}}"#,
        fill: "5",
    },
    Refused {
        data_type: r#"{"name":"optional","configuration":{"name":"uint8"}}"#,
        fill: "[5,6]",
    },
];

fn is_refused(rt: &impl Abort, alloc: Global, row: &Refused) -> Result<(), ElementError> {
    let name = element_name(alloc, row.data_type)?;
    let cause = name
        .fill_value_from_metadata(alloc, &tree(alloc, row.fill)?)
        .err();
    if let Some(ElementError::OutOfMemory) = cause {
        return Err(ElementError::OutOfMemory);
    }
    is(rt, row.fill, &cause, &Some(ElementError::InvalidFillValue));
    Ok(())
}

#[test]
fn others_are_refused(rt: HostRuntime) -> Result<(), ElementError> {
    for row in REFUSED.iter() {
        is_refused(&rt, rt.alloc(), row)?;
    }
    Ok(())
}
