//! Copies of heads and specs that are the original itself, and equality that tells every two apart.
ghost use Rattle.std.specs.Prelude.{◌≡◌, ◌↔◌, IsTrue, OnOk};

use crate::spec::{ArcPart, BodyPart, Head, Spec};
use plain_data::{ExactClone, ExactEq, copy, copy_two, same};
use std::alloc::AllocError;

impl Clone for Head {
    ghost is_clone = { λ x y. y ≡ x };

    fn clone(&self) -> Result<Head, AllocError> {
        Ok(Head {
            sublayers: self.sublayers.copy()?,
            default_prim: copy(&self.default_prim)?,
            meta: copy(&self.meta)?,
            root_names: self.root_names.copy()?,
            root_order: self.root_order.copy()?,
        })
    }
}

impl ExactClone for Head {
    ghost copy_is_same = { λ x y h. h };
}

/// Copies the lists of classes into the place of others.
fn copy_classes(from: &ArcPart, into: &mut ArcPart) -> Result<(), AllocError>
    ensures { OnOk result (into.new ≡ record into.old { inherits = from.now.inherits; specializes = from.now.specializes }) }
{
    into.inherits = copy(&from.inherits)?;
    into.specializes = copy(&from.specializes)?;
    Ok(())
}

/// Copies the lists of references and payloads into the place of others.
fn copy_targets(from: &ArcPart, into: &mut ArcPart) -> Result<(), AllocError>
    ensures { OnOk result (into.new ≡ record into.old { references = from.now.references; payloads = from.now.payloads }) }
{
    into.references = copy(&from.references)?;
    into.payloads = copy(&from.payloads)?;
    Ok(())
}

/// Copies the variant sets and the selections into the place of others.
fn copy_variants(from: &ArcPart, into: &mut ArcPart) -> Result<(), AllocError>
    ensures { OnOk result (into.new ≡ record into.old { variant_sets = from.now.variant_sets; selections = from.now.selections }) }
{
    into.variant_sets = copy(&from.variant_sets)?;
    into.selections = copy(&from.selections)?;
    Ok(())
}

/// Copies all arcs into the place of others.
fn copy_arcs(from: &ArcPart, into: &mut ArcPart) -> Result<(), AllocError>
    ensures { OnOk result (into.new ≡ from.now) }
{
    copy_classes(from, into)?;
    copy_targets(from, into)?;
    copy_variants(from, into)
}

impl Clone for ArcPart {
    ghost is_clone = { λ x y. y ≡ x };

    fn clone(&self) -> Result<ArcPart, AllocError> {
        let mut copied = ArcPart::blank(self.inherits.deleted.allocator());
        match copy_arcs(self, &mut copied) {
            Ok(()) => Ok(copied),
            Err(error) => {
                drop(copied);
                Err(error)
            }
        }
    }
}

impl ExactClone for ArcPart {
    ghost copy_is_same = { λ x y h. h };
}

/// Copies the type and the metadata into the place of others.
fn copy_fields(from: &BodyPart, into: &mut BodyPart) -> Result<(), AllocError>
    ensures { OnOk result (into.new ≡ record into.old { type_name = from.now.type_name; meta = from.now.meta }) }
{
    into.type_name = copy(&from.type_name)?;
    into.meta = copy(&from.meta)?;
    Ok(())
}

/// Copies the lists of schemas and of clip sets into the place of others.
fn copy_lists(from: &BodyPart, into: &mut BodyPart) -> Result<(), AllocError>
    ensures { OnOk result (into.new ≡ record into.old { api_schemas = from.now.api_schemas; clip_sets = from.now.clip_sets }) }
{
    into.api_schemas = copy(&from.api_schemas)?;
    into.clip_sets = copy(&from.clip_sets)?;
    Ok(())
}

/// Copies the names of what stands below and their order into the place of others.
fn copy_names(from: &BodyPart, into: &mut BodyPart) -> Result<(), AllocError>
    ensures { OnOk result (into.new ≡ record into.old { children = from.now.children; child_order = from.now.child_order }) }
{
    into.children = from.children.copy()?;
    into.child_order = from.child_order.copy()?;
    Ok(())
}

/// Copies the properties and their order into the place of others.
fn copy_properties(from: &BodyPart, into: &mut BodyPart) -> Result<(), AllocError>
    ensures { OnOk result (into.new ≡ record into.old { properties = from.now.properties; property_order = from.now.property_order }) }
{
    into.properties = copy(&from.properties)?;
    into.property_order = from.property_order.copy()?;
    Ok(())
}

/// Copies a body into the place of another with its specifier.
fn copy_body(from: &BodyPart, into: &mut BodyPart) -> Result<(), AllocError>
    requires { into.old.specifier ≡ from.now.specifier }
    ensures { OnOk result (into.new ≡ from.now) }
{
    copy_fields(from, into)?;
    copy_lists(from, into)?;
    copy_names(from, into)?;
    copy_properties(from, into)?;
    into.variant_names = from.variant_names.copy()?;
    Ok(())
}

impl Clone for BodyPart {
    ghost is_clone = { λ x y. y ≡ x };

    fn clone(&self) -> Result<BodyPart, AllocError> {
        let mut copied = BodyPart::blank(self.children.allocator(), self.specifier);
        match copy_body(self, &mut copied) {
            Ok(()) => Ok(copied),
            Err(error) => {
                drop(copied);
                Err(error)
            }
        }
    }
}

impl ExactClone for BodyPart {
    ghost copy_is_same = { λ x y h. h };
}

impl Clone for Spec {
    ghost is_clone = { λ x y. y ≡ x };

    fn clone(&self) -> Result<Spec, AllocError> {
        let (arcs, body) = copy_two(&self.arcs, &self.body)?;
        Ok(Spec { arcs, body })
    }
}

impl ExactClone for Spec {
    ghost copy_is_same = { λ x y h. h };
}

impl PartialEq for Head {
    ghost use Rattle.std.specs.Cmp.{partial_equiv_from_equiv};
    ghost use Rattle.sdf_values.specs.Equality.{same_value, value_equiv};
    ghost use Rattle.spec_parts.specs.contracts.spec.Head.{the_row};

    ghost eq = { same_value the_row.coded };

    ghost laws = { partial_equiv_from_equiv (value_equiv the_row.coded) };

    fn eq(&self, other: &Self) -> bool {
        same_head(self, other)
    }
}

impl Eq for Head {
    ghost use Rattle.sdf_values.specs.Equality.{value_equiv};
    ghost use Rattle.spec_parts.specs.contracts.spec.Head.{the_row};

    ghost laws = { value_equiv the_row.coded };
}

impl ExactEq for Head {
    ghost use Rattle.sdf_values.specs.Equality.{value_same};
    ghost use Rattle.spec_parts.specs.contracts.spec.Head.{the_row};

    ghost equal_is_same = { value_same the_row.coded };
}

/// Whether the two are one, field by field.
fn same_head(a: &Head, b: &Head) -> bool
    ensures { IsTrue result ↔ (a.now ≡ b.now) }
{
    same(&a.sublayers, &b.sublayers)
        && same(&a.default_prim, &b.default_prim)
        && same(&a.meta, &b.meta)
        && same(&a.root_names, &b.root_names)
        && same(&a.root_order, &b.root_order)
}

impl PartialEq for ArcPart {
    ghost use Rattle.std.specs.Cmp.{partial_equiv_from_equiv};
    ghost use Rattle.sdf_values.specs.Equality.{same_value, value_equiv};
    ghost use Rattle.spec_parts.specs.contracts.spec.ArcPart.{the_row};

    ghost eq = { same_value the_row.coded };

    ghost laws = { partial_equiv_from_equiv (value_equiv the_row.coded) };

    fn eq(&self, other: &Self) -> bool {
        same_arcs(self, other)
    }
}

impl Eq for ArcPart {
    ghost use Rattle.sdf_values.specs.Equality.{value_equiv};
    ghost use Rattle.spec_parts.specs.contracts.spec.ArcPart.{the_row};

    ghost laws = { value_equiv the_row.coded };
}

impl ExactEq for ArcPart {
    ghost use Rattle.sdf_values.specs.Equality.{value_same};
    ghost use Rattle.spec_parts.specs.contracts.spec.ArcPart.{the_row};

    ghost equal_is_same = { value_same the_row.coded };
}

/// Whether the two are one, field by field.
fn same_arcs(a: &ArcPart, b: &ArcPart) -> bool
    ensures { IsTrue result ↔ (a.now ≡ b.now) }
{
    same(&a.inherits, &b.inherits)
        && same(&a.specializes, &b.specializes)
        && same(&a.references, &b.references)
        && same(&a.payloads, &b.payloads)
        && same(&a.variant_sets, &b.variant_sets)
        && same(&a.selections, &b.selections)
}

impl PartialEq for BodyPart {
    ghost use Rattle.std.specs.Cmp.{partial_equiv_from_equiv};
    ghost use Rattle.sdf_values.specs.Equality.{same_value, value_equiv};
    ghost use Rattle.spec_parts.specs.contracts.spec.BodyPart.{the_row};

    ghost eq = { same_value the_row.coded };

    ghost laws = { partial_equiv_from_equiv (value_equiv the_row.coded) };

    fn eq(&self, other: &Self) -> bool {
        same_body(self, other)
    }
}

impl Eq for BodyPart {
    ghost use Rattle.sdf_values.specs.Equality.{value_equiv};
    ghost use Rattle.spec_parts.specs.contracts.spec.BodyPart.{the_row};

    ghost laws = { value_equiv the_row.coded };
}

impl ExactEq for BodyPart {
    ghost use Rattle.sdf_values.specs.Equality.{value_same};
    ghost use Rattle.spec_parts.specs.contracts.spec.BodyPart.{the_row};

    ghost equal_is_same = { value_same the_row.coded };
}

/// Whether the two are one, field by field.
fn same_body(a: &BodyPart, b: &BodyPart) -> bool
    ensures { IsTrue result ↔ (a.now ≡ b.now) }
{
    a.specifier == b.specifier
        && same(&a.type_name, &b.type_name)
        && same(&a.meta, &b.meta)
        && same(&a.api_schemas, &b.api_schemas)
        && same(&a.clip_sets, &b.clip_sets)
        && same(&a.children, &b.children)
        && same(&a.child_order, &b.child_order)
        && same(&a.properties, &b.properties)
        && same(&a.property_order, &b.property_order)
        && same(&a.variant_names, &b.variant_names)
}

impl PartialEq for Spec {
    ghost use Rattle.std.specs.Cmp.{partial_equiv_from_equiv};
    ghost use Rattle.sdf_values.specs.Equality.{same_value, value_equiv};
    ghost use Rattle.spec_parts.specs.contracts.spec.Spec.{the_row};

    ghost eq = { same_value the_row.coded };

    ghost laws = { partial_equiv_from_equiv (value_equiv the_row.coded) };

    fn eq(&self, other: &Self) -> bool {
        same_spec(self, other)
    }
}

impl Eq for Spec {
    ghost use Rattle.sdf_values.specs.Equality.{value_equiv};
    ghost use Rattle.spec_parts.specs.contracts.spec.Spec.{the_row};

    ghost laws = { value_equiv the_row.coded };
}

impl ExactEq for Spec {
    ghost use Rattle.sdf_values.specs.Equality.{value_same};
    ghost use Rattle.spec_parts.specs.contracts.spec.Spec.{the_row};

    ghost equal_is_same = { value_same the_row.coded };
}

/// Whether the two are one, field by field.
fn same_spec(a: &Spec, b: &Spec) -> bool
    ensures { IsTrue result ↔ (a.now ≡ b.now) }
{
    same(&a.arcs, &b.arcs) && same(&a.body, &b.body)
}
