//! What handles say of a value that lies in memory.

use crate::checks::is;
use std::alloc::Global;
use std::process::Abort;
use zarrs_chunk::CodecError;
use zarrs_codec::testing::RecordingHandle;
use zarrs_codec::{BytesPartialDecoderTraits, MemoryHandle};
use zarrs_lent_handles::LentHandle;

const VALUE: &'static [u8] = &[1, 2, 3];

fn tells(
    rt: &impl Abort,
    name: &str,
    handle: impl BytesPartialDecoderTraits + Drop,
    wanted: Option<&[u8]>,
) {
    is(
        rt,
        name,
        "value in memory",
        &handle.value_in_memory(),
        &wanted,
    );
}

fn all_tell(rt: &impl Abort, alloc: Global) -> Result<(), CodecError> {
    let mut memory = MemoryHandle::with_value(VALUE.to_vec(alloc)?);
    tells(rt, "a reference", &mut memory, Some(VALUE));
    tells(rt, "memory", memory, Some(VALUE));
    tells(rt, "lent", LentHandle::new(Some(VALUE)), Some(VALUE));
    tells(rt, "nothing", MemoryHandle::new(), None);
    let recording = RecordingHandle::new(alloc, Some(VALUE.to_vec(alloc)?));
    tells(rt, "recording", recording, None);
    Ok(())
}

#[test]
fn a_value_in_memory_is_told(rt: HostRuntime) -> Result<(), CodecError> {
    all_tell(&rt, rt.alloc())
}
