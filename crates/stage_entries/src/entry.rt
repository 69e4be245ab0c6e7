ghost use Rattle.std.specs.Prelude.{◌≡◌, IfOk};

use plain_data::{ExactClone, ExactEq};
use prim_view::PrimView;
use std::alloc::{AllocError, Global};
use std::marker::Model;
use std::sync::Arc;

/// A composed prim that its copies share. A copy takes no memory.
///
/// Contracts see the prim.
#[derive(Drop)]
pub struct StageEntry {
    view: Arc<PrimView>,
}

impl Model for StageEntry {
    ghost use Rattle.prim_view.specs.contracts.view.PrimView.{the_row};
    ghost use Rattle.prim_view.specs.declared.view.PrimView.{PrimView};
    ghost use Rattle.std.specs.Arc.{arc_value};

    ghost Value = { PrimView };

    ghost coded = { the_row.coded };

    ghost view = { λ e. arc_value e.view };
}

impl StageEntry {
    /// Room for a composed prim, which the copies of the entry will share.
    ///
    /// # Errors
    ///
    /// Memory ran out.
    pub fn of(alloc: Global, view: PrimView) -> Result<StageEntry, AllocError>
        ensures { IfOk result (λ entry. entry ≡ view) }
    {
        Ok(StageEntry {
            view: Arc::new(alloc, view)?,
        })
    }

    /// The composed prim.
    pub fn view(&self) -> &PrimView
        ensures { result.now ≡ self.now }
    {
        &self.view
    }
}

impl Clone for StageEntry {
    ghost use Rattle.std.specs.Prelude.{◌≡◌};

    ghost is_clone = { λ x y. y ≡ x };

    fn clone(&self) -> Result<StageEntry, AllocError> {
        Ok(StageEntry {
            view: self.view.clone()?,
        })
    }
}

impl ExactClone for StageEntry {
    ghost copy_is_same = { λ x y h. h };
}

impl PartialEq for StageEntry {
    ghost use Rattle.std.specs.Cmp.{partial_equiv_from_equiv};
    ghost use Rattle.sdf_values.specs.Equality.{same_value, value_equiv};
    ghost use Rattle.prim_view.specs.contracts.view.PrimView.{the_row};

    ghost eq = { same_value the_row.coded };

    ghost laws = { partial_equiv_from_equiv (value_equiv the_row.coded) };

    fn eq(&self, other: &Self) -> bool {
        self.view() == other.view()
    }
}

impl Eq for StageEntry {
    ghost use Rattle.sdf_values.specs.Equality.{value_equiv};
    ghost use Rattle.prim_view.specs.contracts.view.PrimView.{the_row};

    ghost laws = { value_equiv the_row.coded };
}

impl ExactEq for StageEntry {
    ghost use Rattle.sdf_values.specs.Equality.{value_same};
    ghost use Rattle.prim_view.specs.contracts.view.PrimView.{the_row};

    ghost equal_is_same = { value_same the_row.coded };
}
