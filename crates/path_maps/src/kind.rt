use plain_data::{ExactClone, ExactEq};

/// What an arc of composition is.
#[derive(Clone, Copy, Debug, PartialEq, Eq)]
pub enum ArcKind {
    /// To a class whose opinions the prim inherits.
    Inherits,
    /// To a variant that is selected for the prim.
    Variant,
    /// To a prim of a layer stack.
    Reference,
    /// To a prim of a layer stack that need not be loaded.
    Payload,
    /// To a class whose opinions are weaker than all others of the prim.
    Specializes,
}

impl ExactClone for ArcKind {
    ghost use Rattle.std.proofs.Common.{rules};

    ghost copy_is_same = { Prim.search rules };
}

impl ExactEq for ArcKind {
    ghost use Rattle.std.proofs.Common.{rules};

    ghost equal_is_same = { Prim.search rules };
}
