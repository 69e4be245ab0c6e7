//! Copies of the small parts that are the part itself, and equality that tells every two apart.
ghost use Rattle.std.specs.Prelude.{◌≡◌, ◌↔◌, IsTrue};

use crate::items::{RefItem, SubLayer, VariantSet};
use plain_data::{ExactClone, ExactEq, copy, same};
use std::alloc::AllocError;

impl Clone for SubLayer {
    ghost is_clone = { λ x y. y ≡ x };

    fn clone(&self) -> Result<SubLayer, AllocError> {
        Ok(SubLayer {
            asset: copy(&self.asset)?,
            offset: self.offset,
        })
    }
}

impl ExactClone for SubLayer {
    ghost copy_is_same = { λ x y h. h };
}

impl Clone for RefItem {
    ghost is_clone = { λ x y. y ≡ x };

    fn clone(&self) -> Result<RefItem, AllocError> {
        Ok(RefItem {
            asset: copy(&self.asset)?,
            path: copy(&self.path)?,
            offset: self.offset,
        })
    }
}

impl ExactClone for RefItem {
    ghost copy_is_same = { λ x y h. h };
}

impl Clone for VariantSet {
    ghost is_clone = { λ x y. y ≡ x };

    fn clone(&self) -> Result<VariantSet, AllocError> {
        Ok(VariantSet {
            set: copy(&self.set)?,
            variants: self.variants.copy()?,
        })
    }
}

impl ExactClone for VariantSet {
    ghost copy_is_same = { λ x y h. h };
}

impl PartialEq for SubLayer {
    ghost use Rattle.std.specs.Cmp.{partial_equiv_from_equiv};
    ghost use Rattle.sdf_values.specs.Equality.{same_value, value_equiv};
    ghost use Rattle.spec_parts.specs.contracts.items.SubLayer.{the_row};

    ghost eq = { same_value the_row.coded };

    ghost laws = { partial_equiv_from_equiv (value_equiv the_row.coded) };

    fn eq(&self, other: &Self) -> bool {
        same_sublayer(self, other)
    }
}

impl Eq for SubLayer {
    ghost use Rattle.sdf_values.specs.Equality.{value_equiv};
    ghost use Rattle.spec_parts.specs.contracts.items.SubLayer.{the_row};

    ghost laws = { value_equiv the_row.coded };
}

impl ExactEq for SubLayer {
    ghost use Rattle.sdf_values.specs.Equality.{value_same};
    ghost use Rattle.spec_parts.specs.contracts.items.SubLayer.{the_row};

    ghost equal_is_same = { value_same the_row.coded };
}

/// Whether the two are one, field by field.
fn same_sublayer(a: &SubLayer, b: &SubLayer) -> bool
    ensures { IsTrue result ↔ (a.now ≡ b.now) }
{
    same(&a.asset, &b.asset) && same(&a.offset, &b.offset)
}

impl PartialEq for RefItem {
    ghost use Rattle.std.specs.Cmp.{partial_equiv_from_equiv};
    ghost use Rattle.sdf_values.specs.Equality.{same_value, value_equiv};
    ghost use Rattle.spec_parts.specs.contracts.items.RefItem.{the_row};

    ghost eq = { same_value the_row.coded };

    ghost laws = { partial_equiv_from_equiv (value_equiv the_row.coded) };

    fn eq(&self, other: &Self) -> bool {
        same_item(self, other)
    }
}

impl Eq for RefItem {
    ghost use Rattle.sdf_values.specs.Equality.{value_equiv};
    ghost use Rattle.spec_parts.specs.contracts.items.RefItem.{the_row};

    ghost laws = { value_equiv the_row.coded };
}

impl ExactEq for RefItem {
    ghost use Rattle.sdf_values.specs.Equality.{value_same};
    ghost use Rattle.spec_parts.specs.contracts.items.RefItem.{the_row};

    ghost equal_is_same = { value_same the_row.coded };
}

/// Whether the two are one, field by field.
fn same_item(a: &RefItem, b: &RefItem) -> bool
    ensures { IsTrue result ↔ (a.now ≡ b.now) }
{
    same(&a.asset, &b.asset) && same(&a.path, &b.path) && same(&a.offset, &b.offset)
}

impl PartialEq for VariantSet {
    ghost use Rattle.std.specs.Cmp.{partial_equiv_from_equiv};
    ghost use Rattle.sdf_values.specs.Equality.{same_value, value_equiv};
    ghost use Rattle.spec_parts.specs.contracts.items.VariantSet.{the_row};

    ghost eq = { same_value the_row.coded };

    ghost laws = { partial_equiv_from_equiv (value_equiv the_row.coded) };

    fn eq(&self, other: &Self) -> bool {
        same_set(self, other)
    }
}

impl Eq for VariantSet {
    ghost use Rattle.sdf_values.specs.Equality.{value_equiv};
    ghost use Rattle.spec_parts.specs.contracts.items.VariantSet.{the_row};

    ghost laws = { value_equiv the_row.coded };
}

impl ExactEq for VariantSet {
    ghost use Rattle.sdf_values.specs.Equality.{value_same};
    ghost use Rattle.spec_parts.specs.contracts.items.VariantSet.{the_row};

    ghost equal_is_same = { value_same the_row.coded };
}

/// Whether the two are one, field by field.
fn same_set(a: &VariantSet, b: &VariantSet) -> bool
    ensures { IsTrue result ↔ (a.now ≡ b.now) }
{
    same(&a.set, &b.set) && same(&a.variants, &b.variants)
}
