//! Why a script is not read on.

use std::alloc::AllocError;
use thiserror::Error;

/// What is wrong with a line.
#[derive(Clone, Copy, Debug, PartialEq, Eq)]
pub enum ScriptKind {
    /// It is no line of a script, or stands where it may not.
    BadLine,
    /// The script ends before the `commit` of a batch.
    Unfinished,
    /// The script has more than 16,777,216 bytes, and this line has the first one too many.
    TooLong,
}

/// Why a script gave no step.
#[derive(Clone, Copy, Debug, PartialEq, Eq, Error)]
pub enum ScriptFault {
    /// This line, counted from 1, is refused, and no line behind it is taken.
    #[error("line {line}: {kind:?}")]
    Refused {
        /// The line's number. Where the script ends too early, it is that after the last line.
        line: u64,
        /// What is wrong with it.
        kind: ScriptKind,
    },
    /// The source failed.
    #[error("reading failed")]
    ReadFault,
    /// Memory ran out.
    #[error("out of memory")]
    NoMemory,
}

impl From<AllocError> for ScriptFault {
    ghost use Rattle.std.specs.Prelude.{◌≡◌};
    ghost use Rattle.session_script.specs.declared.faults.ScriptFault.TheVariants.{NoMemory};

    ghost from_gives = { λ _ e. e ≡ NoMemory };

    fn from(_e: AllocError) -> ScriptFault {
        ScriptFault::NoMemory
    }
}
