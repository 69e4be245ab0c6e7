//! Why a text is not read.
ghost use Rattle.usda_reader.specs.Reading.{Places};
ghost use Rattle.usda_reader.specs.Texts.{refusal_at};
ghost use Rattle.std.specs.Prelude.{◌≡◌};

use spec_parts::Refusal;
use std::alloc::{AllocError, AllocFailed};
use usda_drafts::{ActFault, Refused};
use usda_lexer::place_of;

/// Why a text is not read as a layer.
#[derive(Clone, Copy, Debug, PartialEq, Eq)]
pub enum LayerFault {
    /// No layer has this text: the first reason and its place.
    Refused(Refusal),
    /// Memory ran out.
    NoMemory,
}

impl From<AllocError> for LayerFault {
    ghost use Rattle.std.specs.Prelude.{◌≡◌};
    ghost use Rattle.usda_reader.specs.declared.fault.LayerFault.TheVariants.{NoMemory};

    ghost from_gives = { λ _ e. e ≡ NoMemory };

    fn from(_e: AllocError) -> LayerFault {
        LayerFault::NoMemory
    }
}

impl<T: Drop> From<AllocFailed<T>> for LayerFault {
    ghost use Rattle.std.specs.Prelude.{◌≡◌};
    ghost use Rattle.usda_reader.specs.declared.fault.LayerFault.TheVariants.{NoMemory};

    ghost from_gives = { λ _ e. e ≡ NoMemory };

    fn from(_e: AllocFailed<T>) -> LayerFault {
        LayerFault::NoMemory
    }
}

/// A refusal with its line and column.
pub fn refusal_at(bytes: &[u8], refused: Refused) -> Refusal
    ensures { result ≡ refusal_at bytes.now refused }
{
    let place = place_of(bytes, refused.at);
    Refusal {
        kind: refused.kind,
        line: place.line,
        column: place.column,
    }
}

/// The fault of a word, with its line and column.
pub fn placed(bytes: &[u8], fault: ActFault) -> LayerFault
    ensures { Places result bytes.now fault }
{
    match fault {
        ActFault::Refused(refused) => LayerFault::Refused(refusal_at(bytes, refused)),
        ActFault::NoMemory => LayerFault::NoMemory,
    }
}
