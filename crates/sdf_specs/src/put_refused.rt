use std::alloc::{AllocError, AllocFailed};
use thiserror::Error;

/// Why a spec was not put into a layer.
#[derive(Clone, Copy, Debug, PartialEq, Eq, Error)]
pub enum PutRefused {
    /// The path without its last element is neither `/` nor in the table.
    #[error("the layer has no spec for the owner of this path")]
    NoParent,
    /// Memory ran out.
    #[error("out of memory")]
    NoMemory,
}

impl From<AllocError> for PutRefused {
    ghost use Rattle.std.specs.Prelude.{◌≡◌};
    ghost use Rattle.sdf_specs.specs.declared.put_refused.PutRefused.TheVariants.{NoMemory};

    ghost from_gives = { λ _ e. e ≡ NoMemory };

    fn from(_error: AllocError) -> PutRefused {
        PutRefused::NoMemory
    }
}

impl<T: Drop> From<AllocFailed<T>> for PutRefused {
    ghost use Rattle.std.specs.Prelude.{◌≡◌};
    ghost use Rattle.sdf_specs.specs.declared.put_refused.PutRefused.TheVariants.{NoMemory};

    ghost from_gives = { λ _ e. e ≡ NoMemory };

    fn from(_error: AllocFailed<T>) -> PutRefused {
        PutRefused::NoMemory
    }
}
