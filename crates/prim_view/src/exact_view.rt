//! The composed prim: copies that are the value itself, and equality that tells every two apart.
ghost use Rattle.std.specs.Prelude.{◌≡◌, ◌↔◌, IsTrue, OnOk};

use crate::site::Site;
use crate::view::{PrimView, PropertyView};
use plain_data::{ExactClone, ExactEq, Items, Text, copy, copy_three, copy_two, same};
use spec_parts::Specifier;
use spec_properties::Meta;
use std::alloc::{AllocError, Global};

impl Clone for Site {
    ghost use Rattle.std.specs.Prelude.{◌≡◌};

    ghost is_clone = { λ x y. y ≡ x };

    fn clone(&self) -> Result<Site, AllocError> {
        Ok(Site {
            stack: copy(&self.stack)?,
            path: copy(&self.path)?,
            maps: copy(&self.maps)?,
            offset: self.offset,
            by_class: self.by_class,
            has_spec: self.has_spec,
        })
    }
}

impl ExactClone for Site {
    ghost copy_is_same = { λ x y h. h };
}

impl PartialEq for Site {
    ghost use Rattle.std.specs.Cmp.{partial_equiv_from_equiv};
    ghost use Rattle.sdf_values.specs.Equality.{same_value, value_equiv};
    ghost use Rattle.prim_view.specs.contracts.site.Site.{the_row};

    ghost eq = { same_value the_row.coded };

    ghost laws = { partial_equiv_from_equiv (value_equiv the_row.coded) };

    fn eq(&self, other: &Self) -> bool {
        same_site(self, other)
    }
}

impl Eq for Site {
    ghost use Rattle.sdf_values.specs.Equality.{value_equiv};
    ghost use Rattle.prim_view.specs.contracts.site.Site.{the_row};

    ghost laws = { value_equiv the_row.coded };
}

impl ExactEq for Site {
    ghost use Rattle.sdf_values.specs.Equality.{value_same};
    ghost use Rattle.prim_view.specs.contracts.site.Site.{the_row};

    ghost equal_is_same = { value_same the_row.coded };
}

/// Whether the two are one, field by field.
fn same_site(a: &Site, b: &Site) -> bool
    ensures { IsTrue result ↔ (a.now ≡ b.now) }
{
    same(&a.stack, &b.stack)
        && same(&a.path, &b.path)
        && same(&a.maps, &b.maps)
        && same(&a.offset, &b.offset)
        && a.by_class == b.by_class
        && a.has_spec == b.has_spec
}

impl Clone for PropertyView {
    ghost use Rattle.std.specs.Prelude.{◌≡◌};

    ghost is_clone = { λ x y. y ≡ x };

    fn clone(&self) -> Result<PropertyView, AllocError> {
        match self {
            PropertyView::Attr {
                name,
                ty,
                custom,
                uniform,
                default,
                samples,
                connections,
                meta,
            } => {
                let (name, default, samples) = copy_three(name, default, samples)?;
                match copy_two(connections, meta) {
                    Ok((connections, meta)) => Ok(PropertyView::Attr {
                        name,
                        ty: *ty,
                        custom: *custom,
                        uniform: *uniform,
                        default,
                        samples,
                        connections,
                        meta,
                    }),
                    Err(error) => {
                        drop((name, default, samples));
                        Err(error)
                    }
                }
            }
            PropertyView::Rel {
                name,
                custom,
                targets,
                meta,
            } => {
                let (name, targets, meta) = copy_three(name, targets, meta)?;
                Ok(PropertyView::Rel {
                    name,
                    custom: *custom,
                    targets,
                    meta,
                })
            }
        }
    }
}

impl ExactClone for PropertyView {
    ghost copy_is_same = { λ x y h. h };
}

impl PartialEq for PropertyView {
    ghost use Rattle.std.specs.Cmp.{partial_equiv_from_equiv};
    ghost use Rattle.sdf_values.specs.Equality.{same_value, value_equiv};
    ghost use Rattle.prim_view.specs.contracts.view.PropertyView.{the_row};

    ghost eq = { same_value the_row.coded };

    ghost laws = { partial_equiv_from_equiv (value_equiv the_row.coded) };

    fn eq(&self, other: &Self) -> bool {
        same_property(self, other)
    }
}

impl Eq for PropertyView {
    ghost use Rattle.sdf_values.specs.Equality.{value_equiv};
    ghost use Rattle.prim_view.specs.contracts.view.PropertyView.{the_row};

    ghost laws = { value_equiv the_row.coded };
}

impl ExactEq for PropertyView {
    ghost use Rattle.sdf_values.specs.Equality.{value_same};
    ghost use Rattle.prim_view.specs.contracts.view.PropertyView.{the_row};

    ghost equal_is_same = { value_same the_row.coded };
}

/// Whether the two are one, field by field.
fn same_property(a: &PropertyView, b: &PropertyView) -> bool
    ensures { IsTrue result ↔ (a.now ≡ b.now) }
{
    match a {
        PropertyView::Attr {
            name,
            ty,
            custom,
            uniform,
            default,
            samples,
            connections,
            meta,
        } => match b {
            PropertyView::Attr {
                name: name_b,
                ty: ty_b,
                custom: custom_b,
                uniform: uniform_b,
                default: default_b,
                samples: samples_b,
                connections: connections_b,
                meta: meta_b,
            } => {
                same(name, name_b)
                    && same(ty, ty_b)
                    && custom == custom_b
                    && uniform == uniform_b
                    && same(default, default_b)
                    && same(samples, samples_b)
                    && same(connections, connections_b)
                    && same(meta, meta_b)
            }
            PropertyView::Rel { .. } => false,
        },
        PropertyView::Rel {
            name,
            custom,
            targets,
            meta,
        } => match b {
            PropertyView::Attr { .. } => false,
            PropertyView::Rel {
                name: name_b,
                custom: custom_b,
                targets: targets_b,
                meta: meta_b,
            } => {
                same(name, name_b)
                    && custom == custom_b
                    && same(targets, targets_b)
                    && same(meta, meta_b)
            }
        },
    }
}

/// A view that says nothing but its specifier and its version. Takes no memory.
fn blank_view(alloc: Global, specifier: Specifier, since: u64) -> PrimView
    ensures specifier { result.specifier ≡ specifier }
    ensures since { result.since ≡ since }
{
    PrimView {
        specifier,
        type_name: None,
        meta: Meta::new(alloc),
        api_schemas: None,
        clip_sets: None,
        properties: Items::new(alloc),
        children: Items::new(alloc),
        choices: Items::new(alloc),
        sites: Items::new(alloc),
        faults: Items::new(alloc),
        since,
    }
}

/// Copies the type and the metadata into the place of others.
fn copy_fields(from: &PrimView, into: &mut PrimView) -> Result<(), AllocError>
    ensures { OnOk result (into.new ≡ record into.old { type_name = from.now.type_name; meta = from.now.meta }) }
{
    into.type_name = copy(&from.type_name)?;
    into.meta = copy(&from.meta)?;
    Ok(())
}

/// Copies the lists of schemas and of clip sets into the place of others.
fn copy_lists(from: &PrimView, into: &mut PrimView) -> Result<(), AllocError>
    ensures { OnOk result (into.new ≡ record into.old { api_schemas = from.now.api_schemas; clip_sets = from.now.clip_sets }) }
{
    into.api_schemas = copy(&from.api_schemas)?;
    into.clip_sets = copy(&from.clip_sets)?;
    Ok(())
}

/// Copies the properties and the names of the children into the place of others.
fn copy_content(from: &PrimView, into: &mut PrimView) -> Result<(), AllocError>
    ensures { OnOk result (into.new ≡ record into.old { properties = from.now.properties; children = from.now.children }) }
{
    into.properties = copy(&from.properties)?;
    into.children = copy(&from.children)?;
    Ok(())
}

/// Copies the choices and the sites into the place of others.
fn copy_sites(from: &PrimView, into: &mut PrimView) -> Result<(), AllocError>
    ensures { OnOk result (into.new ≡ record into.old { choices = from.now.choices; sites = from.now.sites }) }
{
    into.choices = copy(&from.choices)?;
    into.sites = copy(&from.sites)?;
    Ok(())
}

/// Copies a view into the place of another of its specifier and its version.
fn copy_view(from: &PrimView, into: &mut PrimView) -> Result<(), AllocError>
    requires specifier { into.old.specifier ≡ from.now.specifier }
    requires since { into.old.since ≡ from.now.since }
    ensures { OnOk result (into.new ≡ from.now) }
{
    copy_fields(from, into)?;
    copy_lists(from, into)?;
    copy_content(from, into)?;
    copy_sites(from, into)?;
    into.faults = copy(&from.faults)?;
    Ok(())
}

impl Clone for PrimView {
    ghost use Rattle.std.specs.Prelude.{◌≡◌};

    ghost is_clone = { λ x y. y ≡ x };

    fn clone(&self) -> Result<PrimView, AllocError> {
        let mut copied = blank_view(self.sites.allocator(), self.specifier, self.since);
        match copy_view(self, &mut copied) {
            Ok(()) => Ok(copied),
            Err(error) => {
                drop(copied);
                Err(error)
            }
        }
    }
}

impl ExactClone for PrimView {
    ghost copy_is_same = { λ x y h. h };
}

impl PartialEq for PrimView {
    ghost use Rattle.std.specs.Cmp.{partial_equiv_from_equiv};
    ghost use Rattle.sdf_values.specs.Equality.{same_value, value_equiv};
    ghost use Rattle.prim_view.specs.contracts.view.PrimView.{the_row};

    ghost eq = { same_value the_row.coded };

    ghost laws = { partial_equiv_from_equiv (value_equiv the_row.coded) };

    fn eq(&self, other: &Self) -> bool {
        same_view(self, other)
    }
}

impl Eq for PrimView {
    ghost use Rattle.sdf_values.specs.Equality.{value_equiv};
    ghost use Rattle.prim_view.specs.contracts.view.PrimView.{the_row};

    ghost laws = { value_equiv the_row.coded };
}

impl ExactEq for PrimView {
    ghost use Rattle.sdf_values.specs.Equality.{value_same};
    ghost use Rattle.prim_view.specs.contracts.view.PrimView.{the_row};

    ghost equal_is_same = { value_same the_row.coded };
}

/// Whether the two are one, field by field.
fn same_view(a: &PrimView, b: &PrimView) -> bool
    ensures { IsTrue result ↔ (a.now ≡ b.now) }
{
    a.specifier == b.specifier
        && same(&a.type_name, &b.type_name)
        && same(&a.meta, &b.meta)
        && same(&a.api_schemas, &b.api_schemas)
        && same(&a.clip_sets, &b.clip_sets)
        && same(&a.properties, &b.properties)
        && same(&a.children, &b.children)
        && same_choices(a.choices.as_slice(), b.choices.as_slice())
        && same(&a.sites, &b.sites)
        && same(&a.faults, &b.faults)
        && a.since == b.since
}

/// Whether the same variants are chosen, in the same order.
fn same_choices(a: &[(Text, Text)], b: &[(Text, Text)]) -> bool
    ensures { IsTrue result ↔ (a.now ≡ b.now) }
{
    match a.split_first() {
        None => match b.split_first() {
            None => true,
            Some(_) => false,
        },
        Some((x, xs)) => match b.split_first() {
            None => false,
            Some((y, ys)) => same(&x.0, &y.0) && same(&x.1, &y.1) && same_choices(xs, ys),
        },
    }
}
