//! Lengths as they stand in values: 8 bytes, the lowest first.
ghost use Rattle.std.specs.Prelude.{◌≡◌, ◌≤◌, length, take};
ghost use Rattle.zarrs_chain_meaning.specs.Parts.{length_of};

/// The number that the first 8 bytes spell, the lowest first.
#[tactic(auto, unfolding(crate::specs::Parts::length_of))]
pub fn read_length(bytes: &[u8]) -> u64
    requires len { 8 ≤ length bytes.now }
    ensures value { result ≡ length_of (take 8 bytes.now) }
{
    u64::from_le_bytes([
        bytes[0], bytes[1], bytes[2], bytes[3], bytes[4], bytes[5], bytes[6], bytes[7],
    ])
}
