//! The names of the numbers that calls answer.
ghost use Rattle.std.specs.Prelude.{◌≡◌};
ghost use Rattle.zarrs_c_calls.specs.Names.{call_name as name_of_call, shape_name as name_of_shape, content_name as name_of_content, making_name as name_of_making, code_name as name_of_code};

/// What every call may answer.
fn call_name(code: u32) -> &'static str
    ensures value { result.now ≡ name_of_call code }
{
    match code {
        0 => "Done",
        1 => "Short",
        2 => "Syntax",
        3 => "Argument",
        4 => "NotInPlace",
        _ => "",
    }
}

/// Errors of codecs: of memory, handles, types, selections and shapes.
fn shape_name(code: u32) -> &'static str
    ensures value { result.now ≡ name_of_shape code }
{
    match code {
        10 => "OutOfMemory",
        11 => "Storage",
        12 => "UnsupportedDataType",
        13 => "EndiannessMissing",
        14 => "ArrayBytesKind",
        15 => "InvalidBytesLength",
        16 => "IncompatibleDimensionality",
        17 => "OutOfBounds",
        18 => "Overflow",
        19 => "InvalidFillValue",
        20 => "ReshapeDimension",
        21 => "ReshapeElements",
        _ => "",
    }
}

/// Errors of codecs: of bytes and targets.
fn content_name(code: u32) -> &'static str
    ensures value { result.now ≡ name_of_content code }
{
    match code {
        22 => "BitRange",
        23 => "PaddingByte",
        24 => "IndexLength",
        25 => "InvalidOffsets",
        26 => "OffsetTooLarge",
        27 => "OffsetNotKept",
        28 => "MaskValue",
        29 => "HeaderOverflow",
        30 => "InvalidByteRange",
        31 => "BytesCodec",
        32 => "DataMismatch",
        33 => "UnsupportedTarget",
        34 => "TargetMismatch",
        35 => "ReversedRange",
        36 => "ElementCount",
        37 => "IndivisibleShape",
        38 => "IndexNotFixed",
        _ => "",
    }
}

/// Errors of metadata.
fn making_name(code: u32) -> &'static str
    ensures value { result.now ≡ name_of_making code }
{
    match code {
        50 => "UnknownName",
        51 => "InvalidConfiguration",
        52 => "MissingArrayToBytes",
        53 => "MultipleArrayToBytes",
        54 => "BitOrder",
        55 => "MultipleAuto",
        56 => "ZeroSize",
        57 => "NotAPermutation",
        _ => "",
    }
}

/// The name of a number that calls return, the library's own for an error; none for any other
/// number.
pub(crate) fn code_name(code: u32) -> &'static str
    ensures value { result.now ≡ name_of_code code }
{
    if code < 10 {
        return call_name(code);
    }
    if code < 22 {
        return shape_name(code);
    }
    if code < 50 {
        return content_name(code);
    }
    making_name(code)
}
