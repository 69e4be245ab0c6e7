//! Why a token adds nothing to a draft.
ghost use Rattle.std.specs.Prelude.{◌≡◌, Err};
ghost use Rattle.usda_drafts.specs.Refusals.{refused, Places};

use sdf_values::RefusalKind;
use std::alloc::{AllocError, AllocFailed};
use usda_values::PartFault;

/// A refusal and the number of the byte, from 0, at which it stands: where the token begins, or the name that is there twice.
#[derive(Clone, Copy, Debug, PartialEq, Eq)]
pub struct Refused {
    /// Why the token is refused.
    pub kind: RefusalKind,
    /// The number of the byte.
    pub at: usize,
}

/// Why a token adds nothing to a draft.
#[derive(Clone, Copy, Debug, PartialEq, Eq)]
pub enum ActFault {
    /// The token is refused.
    Refused(Refused),
    /// Memory ran out.
    NoMemory,
}

/// The fault of a part of an act, where a refusal stands at this byte.
pub fn placed(fault: PartFault, at: usize) -> ActFault
    ensures { Places result fault at }
{
    match fault {
        PartFault::Refused(kind) => ActFault::Refused(Refused { kind, at }),
        PartFault::NoMemory => ActFault::NoMemory,
    }
}

/// A refusal.
pub fn refuse<T>(kind: RefusalKind, at: usize) -> Result<T, ActFault>
    ensures { result ≡ Err (ActFault.Refused (refused kind at)) }
{
    Err(ActFault::Refused(Refused { kind, at }))
}

impl From<AllocError> for ActFault {
    ghost use Rattle.std.specs.Prelude.{◌≡◌};
    ghost use Rattle.usda_drafts.specs.declared.fault.ActFault.TheVariants.{NoMemory};

    ghost from_gives = { λ _ e. e ≡ NoMemory };

    fn from(_e: AllocError) -> ActFault {
        ActFault::NoMemory
    }
}

impl<T: Drop> From<AllocFailed<T>> for ActFault {
    ghost use Rattle.std.specs.Prelude.{◌≡◌};
    ghost use Rattle.usda_drafts.specs.declared.fault.ActFault.TheVariants.{NoMemory};

    ghost from_gives = { λ _ e. e ≡ NoMemory };

    fn from(_e: AllocFailed<T>) -> ActFault {
        ActFault::NoMemory
    }
}
