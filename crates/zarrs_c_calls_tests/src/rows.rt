//! A call as plain data: what it is given, and what it returns.

use zarrs_c_calls::SelectionSize;

/// Which call is made.
#[derive(Clone, Copy)]
pub(crate) enum Call {
    Encode,
    Decode,
    Reencode,
    Read,
    ReadMany,
    ReadPieces,
    Lacking,
    PlannedRanges,
    Write,
}

/// What a call returns: its code, the items at the front of its buffers, and how many it counts of masks,
/// of numbers and of bytes. Numbers are offsets of elements, or starts and ends of ranges.
#[derive(Clone, Copy)]
pub(crate) struct Told {
    pub(crate) code: u32,
    pub(crate) masks: &'static [u8],
    pub(crate) numbers: &'static [u64],
    pub(crate) bytes: &'static [u8],
    pub(crate) needed: (usize, usize, usize),
    pub(crate) is_planned: bool,
}

/// All is done, and nothing is returned.
pub(crate) const NOTHING: Told = Told {
    code: 0,
    masks: &[],
    numbers: &[],
    bytes: &[],
    needed: (0, 0, 0),
    is_planned: true,
};

/// A call, what it is given, and what it returns. No call takes all of it.
#[derive(Clone, Copy)]
pub(crate) struct Row {
    pub(crate) name: &'static str,
    pub(crate) call: Call,
    pub(crate) header: &'static str,
    pub(crate) is_stored: bool,
    /// The value, or the joined bytes of the pieces that were fetched of one.
    pub(crate) value: &'static [u8],
    /// How many bytes that one has, and where these pieces start and end.
    pub(crate) len: u64,
    pub(crate) ranges: &'static [u64],
    /// The selection, or the size of each of several.
    pub(crate) tuples: u64,
    pub(crate) numbers: &'static [u64],
    pub(crate) selections: &'static [SelectionSize],
    /// Elements that are encoded or written.
    pub(crate) masks: &'static [u8],
    pub(crate) offsets: &'static [u64],
    pub(crate) bytes: &'static [u8],
    /// The chain that a value is written by again.
    pub(crate) codecs: &'static str,
    /// How many bytes or ranges there is room for.
    pub(crate) room: usize,
    pub(crate) told: Told,
}

/// A selection with this count of tuples is a box.
pub(crate) const BOX: u64 = 18446744073709551615;

/// Two rows of two bytes.
pub(crate) const FOUR: &'static str =
    r#"{"shape":[2,2],"data_type":"uint8","fill_value":"09","codecs":["bytes"]}"#;

/// The same, and their checksum.
pub(crate) const SUMMED: &'static str =
    r#"{"shape":[2,2],"data_type":"uint8","fill_value":"09","codecs":["bytes","crc32c"]}"#;

/// Two texts behind their offsets.
pub(crate) const TWO_TEXTS: &'static str =
    r#"{"shape":[2],"data_type":"string","fill_value":"","codecs":[{"name":"zarrs.vlen","configuration":{"index_codecs":[{"name":"bytes","configuration":{"endian":"little"}}],"data_codecs":["bytes"],"index_data_type":"uint32"}}]}"#;

/// The bytes 1, 2, 3 and 4 are stored, and no element of them is asked for.
pub(crate) const STORED: Row = Row {
    name: "stored",
    call: Call::Read,
    header: FOUR,
    is_stored: true,
    value: &[1, 2, 3, 4],
    len: 4,
    ranges: &[],
    tuples: BOX,
    numbers: &[],
    selections: &[],
    masks: &[],
    offsets: &[],
    bytes: &[],
    codecs: "[]",
    room: 32,
    told: NOTHING,
};
