//! Copies that are the value itself, and equality that tells every two apart.
ghost use Rattle.std.specs.Prelude.{◌≡◌, ◌↔◌, IsTrue};

use crate::fault::{
    ArcFault, ArcReason, FaultItem, FaultOffset, ItemSource, PrimFault, SublayerFault,
    SublayerReason, TargetFault, TimeFault,
};
use crate::stack_name::StackName;
use plain_data::{ExactClone, ExactEq, same};

impl ExactClone for StackName {
    ghost use Rattle.std.proofs.Common.{rules};

    ghost copy_is_same = { Prim.search rules };
}

impl ExactClone for SublayerReason {
    ghost use Rattle.std.proofs.Common.{rules};

    ghost copy_is_same = { Prim.search rules };
}

impl ExactClone for SublayerFault {
    ghost use Rattle.std.proofs.Common.{rules};

    ghost copy_is_same = { Prim.search rules };
}

impl ExactClone for ArcReason {
    ghost use Rattle.std.proofs.Common.{rules};

    ghost copy_is_same = { Prim.search rules };
}

impl ExactClone for ItemSource {
    ghost use Rattle.std.proofs.Common.{rules};

    ghost copy_is_same = { Prim.search rules };
}

impl ExactClone for FaultOffset {
    ghost use Rattle.std.proofs.Common.{rules};

    ghost copy_is_same = { Prim.search rules };
}

impl ExactClone for FaultItem {
    ghost use Rattle.std.proofs.Common.{rules};

    ghost copy_is_same = { Prim.search rules };
}

impl ExactClone for ArcFault {
    ghost use Rattle.std.proofs.Common.{rules};

    ghost copy_is_same = { Prim.search rules };
}

impl ExactClone for TimeFault {
    ghost use Rattle.std.proofs.Common.{rules};

    ghost copy_is_same = { Prim.search rules };
}

impl ExactClone for TargetFault {
    ghost use Rattle.std.proofs.Common.{rules};

    ghost copy_is_same = { Prim.search rules };
}

impl ExactClone for PrimFault {
    ghost use Rattle.std.proofs.Common.{rules};

    ghost copy_is_same = { Prim.search rules };
}

impl ExactEq for StackName {
    ghost use Rattle.std.proofs.Common.{rules};

    ghost equal_is_same = { Prim.search rules };
}

impl ExactEq for SublayerReason {
    ghost use Rattle.std.proofs.Common.{rules};

    ghost equal_is_same = { Prim.search rules };
}

impl ExactEq for SublayerFault {
    ghost use Rattle.std.proofs.Common.{rules};

    ghost equal_is_same = { Prim.search rules };
}

impl ExactEq for ArcReason {
    ghost use Rattle.std.proofs.Common.{rules};

    ghost equal_is_same = { Prim.search rules };
}

impl ExactEq for ItemSource {
    ghost use Rattle.std.proofs.Common.{rules};

    ghost equal_is_same = { Prim.search rules };
}

impl ExactEq for FaultOffset {
    ghost use Rattle.std.proofs.Common.{rules};

    ghost equal_is_same = { Prim.search rules };
}

impl PartialEq for FaultItem {
    ghost use Rattle.std.specs.Cmp.{partial_equiv_from_equiv};
    ghost use Rattle.sdf_values.specs.Equality.{same_value, value_equiv};
    ghost use Rattle.prim_view.specs.contracts.fault.FaultItem.{the_row};

    ghost eq = { same_value the_row.coded };

    ghost laws = { partial_equiv_from_equiv (value_equiv the_row.coded) };

    fn eq(&self, other: &Self) -> bool {
        same_item(self, other)
    }
}

impl Eq for FaultItem {
    ghost use Rattle.sdf_values.specs.Equality.{value_equiv};
    ghost use Rattle.prim_view.specs.contracts.fault.FaultItem.{the_row};

    ghost laws = { value_equiv the_row.coded };
}

impl ExactEq for FaultItem {
    ghost use Rattle.sdf_values.specs.Equality.{value_same};
    ghost use Rattle.prim_view.specs.contracts.fault.FaultItem.{the_row};

    ghost equal_is_same = { value_same the_row.coded };
}

/// Whether the two are one, field by field.
fn same_item(a: &FaultItem, b: &FaultItem) -> bool
    ensures { IsTrue result ↔ (a.now ≡ b.now) }
{
    same(&a.source, &b.source) && same(&a.path, &b.path) && same(&a.offset, &b.offset)
}

impl PartialEq for ArcFault {
    ghost use Rattle.std.specs.Cmp.{partial_equiv_from_equiv};
    ghost use Rattle.sdf_values.specs.Equality.{same_value, value_equiv};
    ghost use Rattle.prim_view.specs.contracts.fault.ArcFault.{the_row};

    ghost eq = { same_value the_row.coded };

    ghost laws = { partial_equiv_from_equiv (value_equiv the_row.coded) };

    fn eq(&self, other: &Self) -> bool {
        same_arc(self, other)
    }
}

impl Eq for ArcFault {
    ghost use Rattle.sdf_values.specs.Equality.{value_equiv};
    ghost use Rattle.prim_view.specs.contracts.fault.ArcFault.{the_row};

    ghost laws = { value_equiv the_row.coded };
}

impl ExactEq for ArcFault {
    ghost use Rattle.sdf_values.specs.Equality.{value_same};
    ghost use Rattle.prim_view.specs.contracts.fault.ArcFault.{the_row};

    ghost equal_is_same = { value_same the_row.coded };
}

/// Whether the two are one, field by field.
fn same_arc(a: &ArcFault, b: &ArcFault) -> bool
    ensures { IsTrue result ↔ (a.now ≡ b.now) }
{
    same(&a.reason, &b.reason)
        && same(&a.layer, &b.layer)
        && same(&a.site, &b.site)
        && same(&a.kind, &b.kind)
        && same(&a.item, &b.item)
}

impl PartialEq for TimeFault {
    ghost use Rattle.std.specs.Cmp.{partial_equiv_from_equiv};
    ghost use Rattle.sdf_values.specs.Equality.{same_value, value_equiv};
    ghost use Rattle.prim_view.specs.contracts.fault.TimeFault.{the_row};

    ghost eq = { same_value the_row.coded };

    ghost laws = { partial_equiv_from_equiv (value_equiv the_row.coded) };

    fn eq(&self, other: &Self) -> bool {
        same_time(self, other)
    }
}

impl Eq for TimeFault {
    ghost use Rattle.sdf_values.specs.Equality.{value_equiv};
    ghost use Rattle.prim_view.specs.contracts.fault.TimeFault.{the_row};

    ghost laws = { value_equiv the_row.coded };
}

impl ExactEq for TimeFault {
    ghost use Rattle.sdf_values.specs.Equality.{value_same};
    ghost use Rattle.prim_view.specs.contracts.fault.TimeFault.{the_row};

    ghost equal_is_same = { value_same the_row.coded };
}

/// Whether the two are one, field by field.
fn same_time(a: &TimeFault, b: &TimeFault) -> bool
    ensures { IsTrue result ↔ (a.now ≡ b.now) }
{
    same(&a.layer, &b.layer) && same(&a.site, &b.site) && same(&a.name, &b.name)
}

impl PartialEq for TargetFault {
    ghost use Rattle.std.specs.Cmp.{partial_equiv_from_equiv};
    ghost use Rattle.sdf_values.specs.Equality.{same_value, value_equiv};
    ghost use Rattle.prim_view.specs.contracts.fault.TargetFault.{the_row};

    ghost eq = { same_value the_row.coded };

    ghost laws = { partial_equiv_from_equiv (value_equiv the_row.coded) };

    fn eq(&self, other: &Self) -> bool {
        same_target(self, other)
    }
}

impl Eq for TargetFault {
    ghost use Rattle.sdf_values.specs.Equality.{value_equiv};
    ghost use Rattle.prim_view.specs.contracts.fault.TargetFault.{the_row};

    ghost laws = { value_equiv the_row.coded };
}

impl ExactEq for TargetFault {
    ghost use Rattle.sdf_values.specs.Equality.{value_same};
    ghost use Rattle.prim_view.specs.contracts.fault.TargetFault.{the_row};

    ghost equal_is_same = { value_same the_row.coded };
}

/// Whether the two are one, field by field.
fn same_target(a: &TargetFault, b: &TargetFault) -> bool
    ensures { IsTrue result ↔ (a.now ≡ b.now) }
{
    same(&a.layer, &b.layer)
        && same(&a.site, &b.site)
        && same(&a.name, &b.name)
        && same(&a.target, &b.target)
}

impl PartialEq for PrimFault {
    ghost use Rattle.std.specs.Cmp.{partial_equiv_from_equiv};
    ghost use Rattle.sdf_values.specs.Equality.{same_value, value_equiv};
    ghost use Rattle.prim_view.specs.contracts.fault.PrimFault.{the_row};

    ghost eq = { same_value the_row.coded };

    ghost laws = { partial_equiv_from_equiv (value_equiv the_row.coded) };

    fn eq(&self, other: &Self) -> bool {
        same_fault(self, other)
    }
}

impl Eq for PrimFault {
    ghost use Rattle.sdf_values.specs.Equality.{value_equiv};
    ghost use Rattle.prim_view.specs.contracts.fault.PrimFault.{the_row};

    ghost laws = { value_equiv the_row.coded };
}

impl ExactEq for PrimFault {
    ghost use Rattle.sdf_values.specs.Equality.{value_same};
    ghost use Rattle.prim_view.specs.contracts.fault.PrimFault.{the_row};

    ghost equal_is_same = { value_same the_row.coded };
}

/// Whether the two are one.
fn same_fault(a: &PrimFault, b: &PrimFault) -> bool
    ensures { IsTrue result ↔ (a.now ≡ b.now) }
{
    match a {
        PrimFault::Sublayer(a) => match b {
            PrimFault::Sublayer(b) => same(a, b),
            _ => false,
        },
        PrimFault::Arc(a) => match b {
            PrimFault::Arc(b) => same(a, b),
            _ => false,
        },
        PrimFault::TimeOutside(a) => match b {
            PrimFault::TimeOutside(b) => same(a, b),
            _ => false,
        },
        PrimFault::TargetOutside(a) => match b {
            PrimFault::TargetOutside(b) => same(a, b),
            _ => false,
        },
        PrimFault::ChildTooLong(a) => match b {
            PrimFault::ChildTooLong(b) => same(a, b),
            _ => false,
        },
        PrimFault::Overgrown => matches!(b, PrimFault::Overgrown),
    }
}
