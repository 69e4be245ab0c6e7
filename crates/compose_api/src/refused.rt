use std::alloc::{AllocError, AllocFailed};
use thiserror::Error;

/// Why a stage was not composed.
#[derive(Clone, Copy, Debug, PartialEq, Eq, Error)]
pub enum StageRefused {
    /// It has more places than may be composed.
    #[error("too many places")]
    Full,
    /// Memory ran out.
    #[error("out of memory")]
    NoMemory,
}

impl From<AllocError> for StageRefused {
    ghost use Rattle.std.specs.Prelude.{◌≡◌};
    ghost use Rattle.compose_api.specs.declared.refused.StageRefused.TheVariants.{NoMemory};

    ghost from_gives = { λ _ e. e ≡ NoMemory };

    fn from(_e: AllocError) -> StageRefused {
        StageRefused::NoMemory
    }
}

impl<T: Drop> From<AllocFailed<T>> for StageRefused {
    ghost use Rattle.std.specs.Prelude.{◌≡◌};
    ghost use Rattle.compose_api.specs.declared.refused.StageRefused.TheVariants.{NoMemory};

    ghost from_gives = { λ _ e. e ≡ NoMemory };

    fn from(_e: AllocFailed<T>) -> StageRefused {
        StageRefused::NoMemory
    }
}
