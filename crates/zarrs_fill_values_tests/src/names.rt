//! Names of element types, read and written again.
use serde_json::Value;
use std::alloc::Global;
use std::fmt::Debug;
use std::process::Abort;
use zarrs_data_type::DataType;
use zarrs_fill_values::{ElementError, ElementName};

/// What came is what is wanted.
pub(crate) fn is<T: PartialEq + Debug>(rt: &impl Abort, name: &str, came: &T, wanted: &T) {
    assert_eq!(rt; *came, *wanted, "{name}");
}

/// The tree of a text that reads.
pub(crate) fn tree(alloc: Global, text: &str) -> Result<Value, ElementError> {
    match Value::from_str(alloc, text) {
        Ok(tree) => Ok(tree),
        Err(_) => Err(ElementError::OutOfMemory),
    }
}

/// The type that a text names.
pub(crate) fn element_name(alloc: Global, text: &str) -> Result<ElementName, ElementError> {
    ElementName::from_value(&tree(alloc, text)?)
}

/// A text, and how the type that it names is written again.
struct Row {
    read: &'static str,
    again: &'static str,
}

const NAMES: &'static [Row] = &[
    Row {
        read: r#""bool""#,
        again: r#""bool""#,
    },
    Row {
        read: r#""int2""#,
        again: r#""int2""#,
    },
    Row {
        read: r#""bfloat16""#,
        again: r#""bfloat16""#,
    },
    Row {
        read: r#""complex_float32""#,
        again: r#""complex64""#,
    },
    Row {
        read: r#""complex128""#,
        again: r#""complex128""#,
    },
    Row {
        read: r#""r24""#,
        again: r#""r24""#,
    },
    Row {
        read: r#""variable_length_bytes""#,
        again: r#""bytes""#,
    },
    Row {
        read: r#"{"name":"uint8"}"#,
        again: r#""uint8""#,
    },
    Row {
        read: r#"{"name":"uint8","configuration":null}"#,
        again: r#""uint8""#,
    },
    Row {
        read: r#"{"name":"uint8","configuration":{},"must_understand":false}"#,
        again: r#""uint8""#,
    },
    Row {
        read: r#"{"name":"optional","configuration":{"name":"string"}}"#,
        again: r#"{"configuration":{"name":"string"},"name":"zarrs.optional"}"#,
    },
];

fn is_written(rt: &impl Abort, alloc: Global, row: &Row) -> Result<(), ElementError> {
    let text = element_name(alloc, row.read)?
        .to_value(alloc)?
        .to_string(alloc)?;
    is(rt, row.read, &text.as_str(), &row.again);
    Ok(())
}

#[test]
fn names_are_read_and_written_again(rt: HostRuntime) -> Result<(), ElementError> {
    for row in NAMES.iter() {
        is_written(&rt, rt.alloc(), row)?;
    }
    Ok(())
}

const REFUSED: &'static [&'static str] = &[
    r#""float""#,
    r#""uint3""#,
    r#""r8 ""#,
    r#""r0""#,
    r#""r08""#,
    r#""r+8""#,
    r#""r12""#,
    r#""r18446744073709551624""#,
    r#""optional""#,
    "5",
    r#"{"configuration":{}}"#,
    r#"{"name":"uint8","configuration":{"a":1}}"#,
    r#"{"name":"optional","configuration":"uint8"}"#,
    r#"{"name":"unknown","must_understand":false}"#,
];

fn is_refused(rt: &impl Abort, alloc: Global, text: &str) -> Result<(), ElementError> {
    let tree = tree(alloc, text)?;
    let cause = ElementName::from_value(&tree).err();
    is(rt, text, &cause, &Some(ElementError::UnsupportedDataType));
    Ok(())
}

#[test]
fn other_names_are_refused(rt: HostRuntime) -> Result<(), ElementError> {
    for text in REFUSED.iter() {
        is_refused(&rt, rt.alloc(), text)?;
    }
    Ok(())
}

#[test]
fn floats_have_the_components_of_unsigned_numbers(rt: HostRuntime) -> Result<(), ElementError> {
    let float = element_name(rt.alloc(), r#""float32""#)?.data_type(rt.alloc())?;
    is(&rt, "float32", &float, &DataType::uint32());
    Ok(())
}
