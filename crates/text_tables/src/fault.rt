use std::alloc::{AllocError, AllocFailed};
use usda_values::{PartFault, ValueFault};

/// Why a call has no answer.
#[derive(Clone, Copy)]
pub(crate) enum CallFault {
    /// It is no call.
    Bad,
    /// Memory ran out.
    NoMemory,
}

impl From<AllocError> for CallFault {
    fn from(_e: AllocError) -> CallFault {
        CallFault::NoMemory
    }
}

impl<T: Drop> From<AllocFailed<T>> for CallFault {
    fn from(_e: AllocFailed<T>) -> CallFault {
        CallFault::NoMemory
    }
}

impl From<PartFault> for CallFault {
    fn from(fault: PartFault) -> CallFault {
        match fault {
            PartFault::Refused(_) => CallFault::Bad,
            PartFault::NoMemory => CallFault::NoMemory,
        }
    }
}

impl From<ValueFault> for CallFault {
    fn from(fault: ValueFault) -> CallFault {
        match fault {
            ValueFault::Refused { kind: _, at: _ } => CallFault::Bad,
            ValueFault::NoMemory => CallFault::NoMemory,
        }
    }
}
