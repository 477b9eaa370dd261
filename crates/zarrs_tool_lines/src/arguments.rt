//! What the tool's first argument asks for, and what it prints about itself.
ghost use Rattle.std.specs.Prelude.{◌≡◌};
ghost use Rattle.zarrs_tool_lines.specs.Arguments.{request_of as request_of_word};

/// The answer to `--version`, a line.
pub const VERSION: &'static str = "zarrs_chain_tool 0.1.0\n";

/// The answer to `--help`.
pub const HELP: &'static str =
    r#"zarrs_chain_tool encodes, decodes, re-encodes, reads and writes one chunk of a Zarr array.

It takes lines on the standard input. The first one is the header, a JSON object:

    {"shape":[2,3],"data_type":"uint8","fill_value":"00","codecs":["bytes"]}

One line answers each line after it:

    encode ["00","01",..]                     the value of these elements, in hex
    load "0001.."                             stores the value
    decode                                    the stored value's chunk
    read {"ranges":[[0,2],[1,3]]}             elements of the stored value's chunk
    read {"indices":[[0,0],[1,2]]}            the same
    write {"at":{"indices":[[1,0]]},"data":["07"]}
                                              stores the value with these elements; ranges too
    erase                                     stores nothing
    reencode ["bytes"]                        the value under these codecs; the stored one stays
    value                                     the stored value

An answer is ok and JSON, ok none where nothing is stored, or error and its name. So

    printf '%s\n' '{"shape":[2],"data_type":"uint8","fill_value":"00","codecs":["bytes"]}' \
        'encode ["0a","0b"]' 'value' | zarrs_chain_tool

prints ok "0a0b" and ok none. The exit status is 0 at the end, 1 where reading or writing failed,
and 2 after a bad header. Arguments are passed over, but for one of these as the first:

    --help       shows this
    --version    shows the version
"#;

/// What the tool's first argument asks for.
#[derive(Clone, Copy, Debug, PartialEq, Eq)]
pub enum Request {
    /// The lines of the standard input are to be answered.
    Lines,
    /// The help is to be printed.
    Help,
    /// The version is to be printed.
    Version,
}

/// What the first argument behind the program's name asks for. Where there is none, it is empty.
pub fn request_of(word: &[u8]) -> Request
    ensures value { result ≡ request_of_word word.now }
{
    if word == b"--help".as_slice() {
        Request::Help
    } else if word == b"--version".as_slice() {
        Request::Version
    } else {
        Request::Lines
    }
}
