use plain_data::{ExactClone, ExactEq, Items, Text};

/// The variants that are chosen: pairs of a set and a variant, in the order in which they were
/// decided.
///
/// The empty variant is a choice too.
pub type Choices = Items<(Text, Text)>;

/// A variant set that is met at a site, and the variant of it that is selected there, if one is.
#[derive(Clone, Debug, Drop, PartialEq, Eq)]
pub struct Met {
    /// The set.
    pub set: Text,
    /// The variant that this site selects.
    pub opinion: Option<Text>,
}

impl ExactClone for Met {
    ghost use Rattle.std.proofs.Common.{rules};

    ghost copy_is_same = { Prim.search rules };
}

impl ExactEq for Met {
    ghost use Rattle.std.proofs.Common.{rules};

    ghost equal_is_same = { Prim.search rules };
}
