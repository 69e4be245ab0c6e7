use asset_names::AssetId;
use spec_parts::Refusal;
use std::alloc::{AllocError, AllocFailed};
use thiserror::Error;

/// Why layers are not loaded.
#[derive(Debug, Drop, Error)]
pub enum LoadFault {
    /// A file could not be read.
    #[error("reading failed")]
    ReadFault,
    /// The root or the session layer is not there, or is refused.
    #[error("the root or the session layer is absent or refused")]
    RootRefused {
        /// The name of the layer.
        name: AssetId,
        /// Why the layer is refused; none where it is absent.
        refusal: Option<Refusal>,
    },
    /// There are more names than a world may have, or more bytes were fetched in all than may be.
    #[error("too many layers or bytes")]
    WorldTooLarge,
    /// Memory ran out.
    #[error("out of memory")]
    NoMemory,
}

impl From<AllocError> for LoadFault {
    ghost use Rattle.std.specs.Prelude.{◌≡◌};
    ghost use Rattle.layer_load.specs.declared.fault.LoadFault.TheVariants.{NoMemory};

    ghost from_gives = { λ _ e. e ≡ NoMemory };

    fn from(_error: AllocError) -> LoadFault {
        LoadFault::NoMemory
    }
}

impl<T: Drop> From<AllocFailed<T>> for LoadFault {
    ghost use Rattle.std.specs.Prelude.{◌≡◌};
    ghost use Rattle.layer_load.specs.declared.fault.LoadFault.TheVariants.{NoMemory};

    ghost from_gives = { λ _ e. e ≡ NoMemory };

    fn from(_error: AllocFailed<T>) -> LoadFault {
        LoadFault::NoMemory
    }
}
