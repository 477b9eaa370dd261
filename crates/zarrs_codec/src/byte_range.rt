//! Ranges of bytes.
ghost use Rattle.std.specs.Prelude.{◌≡◌, ◌≤◌, MatchOption, ◌<◌};

use std::marker::Model;
use std::ops::Range;

/// A range of bytes of a stored value. It never ends before it starts.
#[derive(Clone, Copy, Debug, PartialEq, Eq)]
pub struct ByteRange {
    start: u64,
    end: u64,
}

impl Model for ByteRange {
    ghost use Rattle.std.specs.Prelude.{◌≤◌};
    ghost use Rattle.zarrs_codec.specs.ByteSpan.{ByteSpan};

    ghost Value = { ByteSpan };

    ghost view = { λ range. record { start = range.start; end = range.end } };

    ghost invariant = { λ range. range.start ≤ range.end };

    ghost inverse = { λ span. record { start = span.start; end = span.end } };
}

impl ByteRange {
    /// The range from `start`, up to and without `end`, or `None` where it ends before it starts.
    pub fn new(range: Range<u64>) -> Option<ByteRange>
        ensures answer { MatchOption result (range.end < range.start)
            (λ made. made ≡ record { start = range.start; end = range.end }) }
    {
        if range.start <= range.end {
            Some(ByteRange {
                start: range.start,
                end: range.end,
            })
        } else {
            None
        }
    }

    /// The number of the first byte.
    pub fn start(&self) -> u64
        ensures value { result ≡ self.now.start }
    {
        self.start
    }

    /// The number of the first byte behind the range.
    pub fn end(&self) -> u64
        ensures value { result ≡ self.now.end }
        ensures ordered { self.now.start ≤ result }
    {
        self.end
    }
}
