use std::alloc::{AllocError, AllocFailed};
use thiserror::Error;

/// Why there is no path.
#[derive(Debug, Drop, Error)]
pub enum PathFault {
    /// The text is no path. A call that makes a path of others gives 0: what would come out is no path.
    #[error("no path goes on at byte {at}")]
    Bad {
        /// The first byte with which no path goes on, or past a limit the first byte too many; 0 where no text is read.
        at: usize,
    },
    /// Memory ran out.
    #[error("out of memory")]
    NoMemory,
}

impl From<AllocError> for PathFault {
    ghost use Rattle.std.specs.Prelude.{◌≡◌};
    ghost use Rattle.sdf_paths.specs.declared.fault.PathFault.TheVariants.{NoMemory};

    ghost from_gives = { λ _ e. e ≡ NoMemory };

    fn from(_e: AllocError) -> PathFault {
        PathFault::NoMemory
    }
}

impl<T: Drop> From<AllocFailed<T>> for PathFault {
    ghost use Rattle.std.specs.Prelude.{◌≡◌};
    ghost use Rattle.sdf_paths.specs.declared.fault.PathFault.TheVariants.{NoMemory};

    ghost from_gives = { λ _ e. e ≡ NoMemory };

    fn from(_e: AllocFailed<T>) -> PathFault {
        PathFault::NoMemory
    }
}
