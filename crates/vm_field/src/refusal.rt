use std::alloc::{AllocError, AllocFailed};
use thiserror::Error;

/// Memory was refused.
#[derive(Clone, Copy, Debug, PartialEq, Eq, Error)]
pub enum Memory {
    /// The system gave no memory.
    #[error("out of memory")]
    Memory,
}

impl From<AllocError> for Memory {
    fn from(_error: AllocError) -> Memory {
        Memory::Memory
    }
}

impl<T: Drop> From<AllocFailed<T>> for Memory {
    fn from(_error: AllocFailed<T>) -> Memory {
        Memory::Memory
    }
}

/// The number is no element: it is 2^64 - 2^32 + 1 or more.
#[derive(Clone, Copy, Debug, PartialEq, Eq, Error)]
#[error("the number is not below 2^64 - 2^32 + 1")]
pub struct NotCanonical;
