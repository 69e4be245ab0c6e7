use std::alloc::{AllocError, AllocFailed};

/// Why a call has no answer.
#[derive(Clone, Copy)]
pub(crate) enum CallFault {
    /// It is no call.
    Bad,
    /// Memory ran out.
    NoMemory,
}

impl From<AllocError> for CallFault {
    fn from(_e: AllocError) -> CallFault {
        CallFault::NoMemory
    }
}

impl<T: Drop> From<AllocFailed<T>> for CallFault {
    fn from(_e: AllocFailed<T>) -> CallFault {
        CallFault::NoMemory
    }
}
