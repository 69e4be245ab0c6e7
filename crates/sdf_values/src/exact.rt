//! A copy is the value, and values that compare equal are one.

use crate::decimal::{Decimal, Num};
use crate::offset::LayerOffset;
use crate::refusal::RefusalKind;
use crate::time::TimeCode;
use crate::type_name::{ElementType, Matrix, Precision, Role, TypeName, Width};
use crate::value::{DictItem, DictType, Value};
use plain_data::{ExactClone, ExactEq, ExactOrd};

impl ExactClone for Decimal {
    ghost copy_is_same = { λ x y h. h };
}

impl ExactClone for TimeCode {
    ghost copy_is_same = { λ x y h. h };
}

impl ExactClone for LayerOffset {
    ghost copy_is_same = { λ x y h. h };
}

impl ExactClone for Num {
    ghost copy_is_same = { λ x y h. h };
}

impl ExactClone for TypeName {
    ghost copy_is_same = { λ x y h. h };
}

impl ExactClone for DictType {
    ghost copy_is_same = { λ x y h. h };
}

impl ExactEq for Decimal {
    ghost use Rattle.std.proofs.Common.{rules};

    ghost equal_is_same = { Prim.search rules };
}

impl ExactEq for TimeCode {
    ghost use Rattle.std.proofs.Common.{rules};

    ghost equal_is_same = { Prim.search rules };
}

impl ExactEq for LayerOffset {
    ghost use Rattle.std.proofs.Common.{rules};

    ghost equal_is_same = { Prim.search rules };
}

impl ExactEq for Num {
    ghost use Rattle.std.proofs.Common.{rules};

    ghost equal_is_same = { Prim.search rules };
}

impl ExactEq for TypeName {
    ghost use Rattle.std.proofs.Common.{rules};
    ghost use Rattle.std.proofs.lemmas.Grind.{common_steps};

    ghost equal_is_same = { λ x y h. Prim.search (rules, common_steps) };
}

impl ExactEq for DictType {
    ghost use Rattle.std.proofs.Common.{rules};
    ghost use Rattle.std.proofs.lemmas.Grind.{common_steps};

    ghost equal_is_same = { λ x y h. Prim.search (rules, common_steps) };
}

impl ExactOrd for TimeCode {
    ghost use Rattle.std.proofs.Common.{rules};

    ghost tie_is_same = { Prim.search rules };
}

impl ExactEq for Precision {
    ghost use Rattle.std.proofs.Common.{rules};

    ghost equal_is_same = { λ x y h. Prim.search rules };
}

impl ExactEq for Width {
    ghost use Rattle.std.proofs.Common.{rules};

    ghost equal_is_same = { λ x y h. Prim.search rules };
}

impl ExactEq for Role {
    ghost use Rattle.std.proofs.Common.{rules};

    ghost equal_is_same = { λ x y h. Prim.search rules };
}

impl ExactEq for Matrix {
    ghost use Rattle.std.proofs.Common.{rules};

    ghost equal_is_same = { λ x y h. Prim.search rules };
}

impl ExactEq for ElementType {
    ghost use Rattle.std.proofs.Common.{rules};

    ghost equal_is_same = { λ x y h. Prim.search rules };
}

impl ExactEq for RefusalKind {
    ghost use Rattle.std.proofs.Common.{rules};

    ghost equal_is_same = { λ x y h. Prim.search rules };
}

impl ExactEq for Value {
    ghost use Rattle.sdf_values.specs.Equality.{value_same};
    ghost use Rattle.sdf_values.specs.contracts.value.Value.{the_row};

    ghost equal_is_same = { value_same the_row.coded };
}

impl ExactEq for DictItem {
    ghost use Rattle.sdf_values.specs.Equality.{value_same};
    ghost use Rattle.sdf_values.specs.contracts.value.DictItem.{the_row};

    ghost equal_is_same = { value_same the_row.coded };
}

impl ExactOrd for LayerOffset {
    ghost use Rattle.std.proofs.Common.{rules};

    ghost tie_is_same = { λ x y h. Prim.search rules };
}

impl ExactOrd for Decimal {
    ghost use Rattle.std.proofs.Common.{rules};

    ghost tie_is_same = { λ x y h. Prim.search rules };
}

impl ExactOrd for Num {
    ghost use Rattle.std.proofs.Common.{rules};

    ghost tie_is_same = { λ x y h. Prim.search rules };
}
