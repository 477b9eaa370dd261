//! Where elements of any length begin and end in their bytes.
ghost use Rattle.std.specs.Prelude.{◌≡◌, ◌∷◌, Ok, true};
ghost use Rattle.std.specs.Bool.{nat_eq};
ghost use Rattle.std.specs.Cmp.Lexicographic.{pointwise};
ghost use Rattle.std.specs.Cmp.Rules.{comparing};
ghost use Rattle.std.proofs.Common.{rules};
ghost use Rattle.zarrs_chunk.specs.Answer.{Answers, memory};
ghost use Rattle.zarrs_array_bytes.specs.Offsets.{offsets_of, is_offsets, rises};
ghost use Rattle.zarrs_array_bytes.specs.Tight.{from_first};

use std::marker::Model;
use zarrs_chunk::CodecError;

/// Where elements of any length begin in their bytes, and where the last one ends: at least one
/// number, and none less than the one before.
#[derive(Debug, Drop)]
pub struct ArrayBytesOffsets {
    offsets: Vec<usize>,
}

impl Model for ArrayBytesOffsets {
    ghost use Rattle.std.specs.Prelude.{List, ℕ, ◌≡◌, true};
    ghost use Rattle.zarrs_array_bytes.specs.Offsets.{is_offsets};

    ghost Value = { List ℕ };

    ghost view = { λ a. a.offsets.items };

    ghost invariant = { λ a. is_offsets a.offsets.items ≡ true };
}

impl ArrayBytesOffsets {
    /// The offsets, one more than elements. Errors: `InvalidOffsets` where there is none, or one
    /// is less than the one before.
    pub fn new(offsets: Vec<usize>) -> Result<ArrayBytesOffsets, CodecError>
        ensures answer { result ≡ offsets_of offsets.items }
    {
        if !are_rising(offsets.as_slice()) {
            return Err(CodecError::InvalidOffsets);
        }
        Ok(ArrayBytesOffsets { offsets })
    }

    pub(crate) fn of_rising(offsets: Vec<usize>) -> ArrayBytesOffsets
        requires rising { is_offsets offsets.items ≡ true }
        ensures made { result ≡ offsets.items }
    {
        ArrayBytesOffsets { offsets }
    }

    /// The offsets as a vector of their own.
    pub(crate) fn into_numbers(self) -> Vec<usize>
        ensures value { result.items ≡ self }
        ensures rising { is_offsets self ≡ true }
    {
        self.offsets
    }

    /// The offsets counted from the first one, in place.
    pub(crate) fn from_first(self) -> ArrayBytesOffsets
        ensures moved { result ≡ from_first self }
    {
        let mut offsets = self.offsets;
        move_to_zero(offsets.as_mut_slice());
        ArrayBytesOffsets { offsets }
    }

    /// The offsets, one more than elements.
    pub fn as_slice(&self) -> &[usize]
        ensures value { result.now ≡ self.now }
        ensures rising { is_offsets self.now ≡ true }
    {
        self.offsets.as_slice()
    }

    /// Equal offsets. Errors: `OutOfMemory`.
    pub fn clone(&self) -> Result<ArrayBytesOffsets, CodecError>
        ensures copy { Answers memory (λ copy. copy) result (Ok self.now) }
    {
        let offsets = self.offsets.clone()?;
        Ok(ArrayBytesOffsets { offsets })
    }
}

impl PartialEq for ArrayBytesOffsets {
    ghost eq = { λ one other. pointwise nat_eq one other };

    ghost laws = { Prim.search (comparing, rules) };

    fn eq(&self, other: &ArrayBytesOffsets) -> bool {
        self.offsets == other.offsets
    }
}

impl Eq for ArrayBytesOffsets {
    ghost laws = { Prim.search (comparing, rules) };
}

/// Counts the offsets from the first one.
#[tactic(auto, using(crate::proofs::FlushLemmas::from_zero))]
fn move_to_zero(offsets: &mut [usize])
    requires rising { is_offsets offsets.old ≡ true }
    ensures moved { offsets.new ≡ from_first offsets.old }
    ensures rising { is_offsets offsets.new ≡ true }
{
    let first = offsets[0];
    if first == 0 {
        return;
    }
    for offset in offsets.iter_mut() {
        *offset -= first;
    }
}

fn are_rising(offsets: &[usize]) -> bool
    ensures value { result ≡ is_offsets offsets.now }
{
    match offsets {
        [] => false,
        [first, rest @ ..] => rises_from(*first, rest),
    }
}

fn rises_from(first: usize, rest: &[usize]) -> bool
    ensures value { result ≡ rises (first ∷ rest.now) }
{
    let mut last = first;
    for offset in rest {
        if *offset < last {
            return false;
        }
        last = *offset;
    }
    true
}
