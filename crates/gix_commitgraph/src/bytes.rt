//! Packed bytes, which copies share.
ghost use Rattle.std.specs.Prelude.{◌≡◌, IfOk};
ghost use Rattle.gix_commitgraph.specs.Bytes.{packed_bytes};

use std::alloc::AllocError;
use std::sync::Arc;

/// Bytes that don't change. Copies share them, but where there was no memory for the count of their owners each copy has its own.
#[derive(Debug)]
pub(super) enum Bytes {
    Shared(Arc<Vec<u8>>),
    Own(Vec<u8>),
}

impl Drop for Bytes {
    fn drop(self) {
        match self {
            Bytes::Shared(_) => {}
            Bytes::Own(_) => {}
        }
    }
}

impl Bytes {
    pub(super) fn new(bytes: Vec<u8>) -> Bytes
        ensures { packed_bytes result ≡ bytes.items }
    {
        match Arc::new(*bytes.allocator(), bytes) {
            Ok(shared) => Bytes::Shared(shared),
            Err(refused) => Bytes::Own(refused.value),
        }
    }

    #[inline(always)]
    pub(super) fn as_slice(&self) -> &[u8]
        ensures { result.now ≡ packed_bytes self.now }
    {
        match self {
            Bytes::Shared(bytes) => bytes.as_slice(),
            Bytes::Own(bytes) => bytes.as_slice(),
        }
    }

    pub(super) fn copy(&self) -> Result<Bytes, AllocError>
        ensures { IfOk result (λ copy. packed_bytes copy ≡ packed_bytes self.now) }
    {
        match self {
            Bytes::Shared(bytes) => Ok(Bytes::Shared(Arc::try_clone(bytes)?)),
            Bytes::Own(bytes) => {
                let copy = Vec::from_slice(*bytes.allocator(), bytes.as_slice())?;
                Ok(Bytes::Own(copy))
            }
        }
    }
}
