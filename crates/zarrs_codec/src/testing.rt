//! Storage handles that fail where a test wants them to: by the number of the call
//! ([`FailingHandle`], [`TornHandle`]), or outside some bytes ([`FencedHandle`]); and one that keeps a
//! record of its calls ([`RecordingHandle`]). Else they answer as
//! [`MemoryHandle`](crate::MemoryHandle) does.

mod failing_call;
mod fenced_handle;
mod recording_handle;
mod watched_handle;

pub use fenced_handle::FencedHandle;
pub use recording_handle::RecordingHandle;
pub use watched_handle::{FailingHandle, TornHandle, WatchedHandle};
