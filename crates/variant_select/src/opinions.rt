ghost use Rattle.std.specs.Prelude.{◌≡◌, ℕ, List, IfOk};

use crate::met::{Choices, Met};
use std::alloc::AllocError;

/// What selects variants, as the sites of a prim do.
///
/// With each list of choices other sites may be met, and with them other sets and opinions. The
/// ghost member says which sets are met with which choices, each with its opinion. A set may be met
/// more than once: sets are chosen in the order in which each is met first, and of the opinions on
/// a set the first counts.
pub trait Opinions {
    ghost use Rattle.variant_select.specs.declared.met.Met.{Met};

    ghost met_with: { Self → List (List ℕ × List ℕ) → List Met };

    /// The sets that are met with these choices. No call changes what is met.
    fn met(&mut self, chosen: &Choices) -> Result<Vec<Met>, AllocError>
        ensures met { IfOk result (λ found. found.items ≡ met_with self.old chosen.now) }
        ensures same { met_with self.new ≡ met_with self.old };
}
