//! Why a part of an act, or a value, is refused.
ghost use Rattle.std.specs.Prelude.{◌≡◌};

use sdf_values::RefusalKind;
use std::alloc::{AllocError, AllocFailed};

/// Why a part of an act is refused, without its place, which the draft of the layer knows.
#[derive(Clone, Copy, Debug, PartialEq, Eq)]
pub enum PartFault {
    /// The token is refused.
    Refused(RefusalKind),
    /// Memory ran out.
    NoMemory,
}

/// A value that its place does not take.
pub fn shape_fault() -> PartFault
    ensures { result ≡ PartFault.Refused RefusalKind.ValueShape }
{
    PartFault::Refused(RefusalKind::ValueShape)
}

/// Why there is no value.
#[derive(Clone, Copy, Debug, PartialEq, Eq)]
pub enum ValueFault {
    /// A token is refused, or the end of the text.
    Refused {
        /// The kind of the refusal.
        kind: RefusalKind,
        /// The byte at which the token begins, or the length of the text at its end; 0 where no token is seen, as by `take_shape`.
        at: usize,
    },
    /// Memory ran out.
    NoMemory,
}

impl From<AllocError> for PartFault {
    ghost use Rattle.std.specs.Prelude.{◌≡◌};
    ghost use Rattle.usda_values.specs.declared.fault.PartFault.TheVariants.{NoMemory};

    ghost from_gives = { λ _ e. e ≡ NoMemory };

    fn from(_e: AllocError) -> PartFault {
        PartFault::NoMemory
    }
}

impl<T: Drop> From<AllocFailed<T>> for PartFault {
    ghost use Rattle.std.specs.Prelude.{◌≡◌};
    ghost use Rattle.usda_values.specs.declared.fault.PartFault.TheVariants.{NoMemory};

    ghost from_gives = { λ _ e. e ≡ NoMemory };

    fn from(_e: AllocFailed<T>) -> PartFault {
        PartFault::NoMemory
    }
}

impl From<AllocError> for ValueFault {
    ghost use Rattle.std.specs.Prelude.{◌≡◌};
    ghost use Rattle.usda_values.specs.declared.fault.ValueFault.TheVariants.{NoMemory};

    ghost from_gives = { λ _ e. e ≡ NoMemory };

    fn from(_e: AllocError) -> ValueFault {
        ValueFault::NoMemory
    }
}
