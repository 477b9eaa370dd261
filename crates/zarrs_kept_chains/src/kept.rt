//! What is kept: a header that several may share.
ghost use Rattle.std.specs.Prelude.{◌≡◌, IfOk};
ghost use Rattle.zarrs_kept_chains.specs.Kept.{header_of};

use std::alloc::{AllocError, Global};
use std::sync::Arc;
use zarrs_json::ChunkHeader;

/// A chunk's header that is kept. Several of these may share one header, in several threads; it is
/// freed with the last of them.
#[derive(Drop)]
pub struct Kept {
    header: Arc<ChunkHeader>,
}

impl Kept {
    /// A header to be kept, in a box of its own. The one error is lack of memory.
    pub fn new(alloc: Global, header: ChunkHeader) -> Result<Box<Kept>, AllocError>
        ensures made { IfOk result (λ kept. header_of kept.value ≡ header) }
    {
        let header = Arc::new(alloc, header)?;
        Ok(Box::new(alloc, Kept { header })?)
    }

    /// The same header, to be kept once more. Nothing is read again: the header is shared. The one
    /// error is lack of memory.
    pub fn share(&self, alloc: Global) -> Result<Box<Kept>, AllocError>
        ensures copy { IfOk result (λ kept. header_of kept.value ≡ header_of self.now) }
    {
        let header = Arc::clone(&self.header)?;
        Ok(Box::new(alloc, Kept { header })?)
    }

    /// The header.
    pub fn header(&self) -> &ChunkHeader
        ensures value { result.now ≡ header_of self.now }
    {
        &self.header
    }
}
