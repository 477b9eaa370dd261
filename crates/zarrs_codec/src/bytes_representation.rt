//! How many bytes a value has.
ghost use Rattle.std.specs.Prelude.{◌≡◌};
ghost use Rattle.zarrs_codec.specs.BytesRepresentation.{greatest_size};

/// How many bytes the value of a chunk has.
#[derive(Clone, Copy, Debug, PartialEq, Eq)]
pub enum BytesRepresentation {
    /// Just so many.
    FixedSize(u64),
    /// At most so many.
    BoundedSize(u64),
    /// Any number.
    UnboundedSize,
}

impl BytesRepresentation {
    /// The number of bytes, or the greatest one; `None` where there is no bound.
    pub fn size(&self) -> Option<u64>
        ensures value { result ≡ greatest_size self.now }
    {
        match self {
            BytesRepresentation::FixedSize(size) | BytesRepresentation::BoundedSize(size) => {
                Some(*size)
            }
            BytesRepresentation::UnboundedSize => None,
        }
    }
}
