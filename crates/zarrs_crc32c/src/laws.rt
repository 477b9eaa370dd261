//! Laws of the definitions that the contracts of this crate cite. The functions do nothing: their
//! contracts hold for all bytes, and proofs may take them from here.
ghost use Rattle.zarrs_crc32c.specs.Laws.{FindsReplacedByte, IsLinear, StandardVectors};
ghost use Rattle.zarrs_crc32c.specs.Quotient.{SixTerms};

/// The checksum is the one that RFC 3720 shows in its examples.
pub fn standard_vectors_hold()
    ensures law { StandardVectors }
{}

/// Bytes with their checksum of which one byte was replaced by another one are rejected.
pub fn replaced_bytes_are_found()
    ensures law { FindsReplacedByte }
{}

/// The register is linear: what is added to the bytes, bit by bit, moves by itself.
pub fn registers_are_linear()
    ensures law { IsLinear }
{}

/// A polynomial with six terms is a multiple of the divisor: long division by it needs no table.
pub fn multiple_has_six_terms()
    ensures law { SixTerms }
{}
