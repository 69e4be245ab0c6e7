use plain_data::ExactClone;
use sdf_specs::Refusal;
use std::alloc::{AllocError, AllocFailed};
use thiserror::Error;

/// Why an operation is refused.
#[derive(Clone, Copy, Debug, PartialEq, Eq, Error)]
pub enum EditFault {
    /// The layer is not present.
    #[error("the layer is not present")]
    NoLayer,
    /// A new layer is present already.
    #[error("the layer is present already")]
    LayerThere,
    /// The world would have more than 4,096 names of layers.
    #[error("too many layers")]
    LayerLimit,
    /// The root or the session layer would be absent or broken.
    #[error("the root or the session layer has to stay")]
    RootLayer,
    /// The text of a new layer is refused.
    #[error("the text of the layer is refused: {0:?}")]
    LayerText(Refusal),
    /// The path is not of the kind that the operation is for.
    #[error("the path is not of this operation's kind")]
    WrongPath,
    /// What the prim, variant or property would stand in has no spec.
    #[error("the layer has no spec for the owner of this path")]
    NoParent,
    /// There is no spec at the path, or one of the other kind of property.
    #[error("there is no such spec")]
    NoSpec,
    /// There is a spec at the path already.
    #[error("there is such a spec already")]
    SpecThere,
    /// There is no such type of attributes.
    #[error("there is no such type")]
    NoSuchType,
    /// The type or the key does not take the value.
    #[error("the type or the key does not take the value")]
    ValueShape,
    /// A time is more than 10^12 away from 0 or has more than 18 decimals.
    #[error("the time is out of range")]
    TimeRange,
    /// An offset is not whole and within 1,000,000,000 of 0, or a scale is not whole and from 1 to 1,000,000.
    #[error("the offset or the scale is out of range")]
    OffsetRange,
    /// A class, reference or payload has a path that is not that of a prim, or that selects a variant, or an asset that names no
    /// layer.
    #[error("the arc leads to no prim")]
    BadArc,
}

impl ExactClone for EditFault {
    ghost use Rattle.std.proofs.Common.{rules};

    ghost copy_is_same = { Prim.search rules };
}

/// Why one operation was not carried out.
#[derive(Clone, Copy, Debug, PartialEq, Eq, Error)]
pub enum OpRefused {
    /// It is refused.
    #[error("{0}")]
    Fault(EditFault),
    /// Memory ran out.
    #[error("out of memory")]
    NoMemory,
}

impl From<AllocError> for OpRefused {
    ghost use Rattle.std.specs.Prelude.{◌≡◌};
    ghost use Rattle.edit_batches.specs.declared.fault.OpRefused.TheVariants.{NoMemory};

    ghost from_gives = { λ _ e. e ≡ NoMemory };

    fn from(_e: AllocError) -> OpRefused {
        OpRefused::NoMemory
    }
}

impl<T: Drop> From<AllocFailed<T>> for OpRefused {
    ghost use Rattle.std.specs.Prelude.{◌≡◌};
    ghost use Rattle.edit_batches.specs.declared.fault.OpRefused.TheVariants.{NoMemory};

    ghost from_gives = { λ _ e. e ≡ NoMemory };

    fn from(_e: AllocFailed<T>) -> OpRefused {
        OpRefused::NoMemory
    }
}

/// Why a batch was not applied.
#[derive(Clone, Copy, Debug, PartialEq, Eq, Error)]
pub enum EditRefused {
    /// An operation is refused; those before it are not.
    #[error("operation {op}: {fault}")]
    Op {
        /// The number of the operation in the batch, counted from 1.
        op: u32,
        /// Why it is refused.
        fault: EditFault,
    },
    /// Memory ran out.
    #[error("out of memory")]
    NoMemory,
}

impl From<AllocError> for EditRefused {
    ghost use Rattle.std.specs.Prelude.{◌≡◌};
    ghost use Rattle.edit_batches.specs.declared.fault.EditRefused.TheVariants.{NoMemory};

    ghost from_gives = { λ _ e. e ≡ NoMemory };

    fn from(_e: AllocError) -> EditRefused {
        EditRefused::NoMemory
    }
}

impl<T: Drop> From<AllocFailed<T>> for EditRefused {
    ghost use Rattle.std.specs.Prelude.{◌≡◌};
    ghost use Rattle.edit_batches.specs.declared.fault.EditRefused.TheVariants.{NoMemory};

    ghost from_gives = { λ _ e. e ≡ NoMemory };

    fn from(_e: AllocFailed<T>) -> EditRefused {
        EditRefused::NoMemory
    }
}
