//! Calls that fill no buffer: headers that are checked, codes and their names, how many bytes a value
//! has, and values that are edited where they stand.

use crate::calls::{has_memory, is};
use crate::rows::{BOX, FOUR};
use std::alloc::{AllocError, Global};
use std::process::Abort;
use zarrs_c_calls::{EditSize, zarrs_check, zarrs_edit, zarrs_error_name, zarrs_representation};

/// A text, the code of its check, and that code's name.
struct Header {
    text: &'static str,
    code: u32,
    name: &'static str,
}

const HEADERS: &'static [Header] = &[
    Header {
        text: r#"{"shape":[2],"data_type":"uint8","fill_value":"00","codecs":["bytes"]}"#,
        code: 0,
        name: "Done",
    },
    Header {
        text: "",
        code: 2,
        name: "Syntax",
    },
    Header {
        text: r#"{"shape":[2],"data_type":"uint8","fill_value":"00","codecs":["gzip"]}"#,
        code: 50,
        name: "UnknownName",
    },
    Header {
        text: r#"{"shape":[2],"data_type":"uint16","fill_value":"0000","codecs":["bytes"]}"#,
        code: 13,
        name: "EndiannessMissing",
    },
];

fn has_name(rt: &impl Abort, code: u32, wanted: &str) {
    let mut name = [0u8; 24];
    let mut needed = 0;
    let told = zarrs_error_name(code, &mut name, &mut needed);
    is(rt, wanted, &told, &0);
    is(rt, wanted, &name.get(..needed), &Some(wanted.as_bytes()));
}

fn is_checked(rt: &impl Abort, alloc: Global, header: &Header) -> Result<(), AllocError> {
    let code = has_memory(zarrs_check(alloc, header.text.as_bytes()))?;
    is(rt, header.name, &code, &header.code);
    has_name(rt, code, header.name);
    Ok(())
}

#[test]
fn headers_are_checked_and_codes_have_names(rt: HostRuntime) -> Result<(), AllocError> {
    for header in HEADERS.iter() {
        is_checked(&rt, rt.alloc(), header)?;
    }
    Ok(())
}

#[test]
fn a_code_without_a_name(rt: HostRuntime) {
    has_name(&rt, 99, "");
}

#[test]
fn a_value_has_so_many_bytes(rt: HostRuntime) -> Result<(), AllocError> {
    let (mut kind, mut size) = (7, 7);
    let code = zarrs_representation(rt.alloc(), FOUR.as_bytes(), &mut kind, &mut size);
    is(&rt, "done", &has_memory(code)?, &0);
    is(&rt, "kind and size", &(kind, size), &(0, 4));
    Ok(())
}

/// The first column, and then one element.
const EDITS: &'static [EditSize] = &[
    EditSize {
        tuples: BOX,
        numbers: 4,
        bytes: 2,
    },
    EditSize {
        tuples: 1,
        numbers: 2,
        bytes: 1,
    },
];

#[test]
fn a_value_is_edited_where_it_stands(rt: HostRuntime) -> Result<(), AllocError> {
    let mut value = [1u8, 2, 3, 4];
    let mut done = 0;
    let code = zarrs_edit(
        rt.alloc(),
        FOUR.as_bytes(),
        &mut value,
        EDITS,
        &[0, 0, 2, 1, 1, 1],
        &[5, 6, 7],
        &mut done,
    );
    is(&rt, "done", &has_memory(code)?, &0);
    is(&rt, "edits", &done, &2);
    is(&rt, "value", &value, &[5, 2, 6, 7]);
    Ok(())
}
