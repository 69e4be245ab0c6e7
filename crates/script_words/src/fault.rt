use std::alloc::AllocError;
use usda_values::PartFault;

/// Why a part of a line was not read.
#[derive(Clone, Copy, Debug, PartialEq, Eq)]
pub enum LineFault {
    /// It does not stand there.
    Bad,
    /// Memory ran out.
    NoMemory,
}

impl From<AllocError> for LineFault {
    ghost use Rattle.std.specs.Prelude.{◌≡◌};
    ghost use Rattle.script_words.specs.declared.fault.LineFault.TheVariants.{NoMemory};

    ghost from_gives = { λ _ e. e ≡ NoMemory };

    fn from(_e: AllocError) -> LineFault {
        LineFault::NoMemory
    }
}

impl From<PartFault> for LineFault {
    ghost use Rattle.std.specs.Prelude.{◌≡◌};
    ghost use Rattle.script_words.specs.Answers.{of_act};

    ghost from_gives = { λ fault e. e ≡ of_act fault };

    fn from(fault: PartFault) -> LineFault {
        match fault {
            PartFault::Refused(_) => LineFault::Bad,
            PartFault::NoMemory => LineFault::NoMemory,
        }
    }
}
