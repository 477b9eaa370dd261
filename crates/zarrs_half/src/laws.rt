//! Laws of floats of 16 bits. The functions do nothing: their contracts are the laws.
ghost use Rattle.zarrs_half.specs.Laws.{NumbersComeBack};

/// The number that 16 bits are has these bits.
pub fn numbers_come_back()
    ensures law { NumbersComeBack }
{}
