use plain_data::{ExactClone, ExactEq, ExactOrd, Text};

/// One step of a path. In the order of paths a prim's name sorts before a property's, and that before a selection.
#[derive(Clone, Debug, Drop, PartialEq, Eq, PartialOrd, Ord)]
pub enum Element {
    /// The name of a prim, an identifier.
    Prim(Text),
    /// The name of a property: identifiers joined by `:`, but not `inf` or `nan`, which are numbers.
    Property(Text),
    /// The choice of a variant in a variant set.
    Selection {
        /// The name of the variant set.
        set: Text,
        /// The name of the variant.
        variant: Text,
    },
}

impl ExactClone for Element {
    ghost use Rattle.std.proofs.Common.{rules};

    ghost copy_is_same = { Prim.search rules };
}

impl ExactEq for Element {
    ghost use Rattle.std.proofs.Common.{rules};

    ghost equal_is_same = { Prim.search rules };
}

impl ExactOrd for Element {
    ghost use Rattle.sdf_paths.specs.DerivedOrder.{element_tie};

    ghost tie_is_same = { element_tie };
}
