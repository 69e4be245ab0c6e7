//! The owners of statements.
ghost use Rattle.std.specs.Prelude.{◌≡◌, IfOk, OnOk};
ghost use Rattle.sdf_paths.specs.Order.{text_cmp};
ghost use Rattle.spec_tables.specs.Tables.{with_key};
ghost use Rattle.usda_lists.specs.Acts.{Gives};
ghost use Rattle.usda_drafts.specs.Owners.{owner_of, spec_of, with_child, has_set, with_set, with_variant, marks_at, property_for, with_place, with_returned, settled};

use plain_data::{Items, Text, copy};
use sdf_paths::Path;
use spec_parts::{Spec, Specifier, VariantSet};
use spec_properties::{Properties, Property};
use spec_tables::OrderedTable;
use std::alloc::{AllocError, Global};
use std::mem;
use usda_fields::OwnerDraft;
use usda_statements::{Heading, PropertyDraft, PropertyMarks};
use usda_values::PartFault;

/// A prim, a variant, or the layer itself, to which statements add.
///
/// The layer's path is `/`, its children are the root prims, and its metadata is that of the head. After a
/// fault it is of no use.
#[derive(Debug, Drop)]
pub struct Owner {
    /// Its path, and what its metadata and its orders of names say.
    pub said: OwnerDraft,
    /// Its type, where it has one.
    pub type_name: Option<Text>,
    /// The names of the prims below, in their order.
    pub children: Items<Text>,
    /// Its properties; in the place of the one in hand stands a blank relationship of its name.
    pub properties: Properties,
    /// What may be said of each property once, and was.
    pub marks: OrderedTable<Text, PropertyMarks>,
    /// Its variant sets in their order, each with its variants.
    pub sets: Items<VariantSet>,
    /// The names of its variant sets.
    pub set_names: OrderedTable<Text, bool>,
    /// The name of the set whose variants are read.
    pub set: Text,
}

impl Owner {
    /// An owner of which nothing is said yet but its type.
    #[tactic(auto, unfolding(crate::specs::Owners::owner_of))]
    pub fn new(
        alloc: Global,
        path: Path,
        specifier: Specifier,
        type_name: Option<Text>,
    ) -> Result<Owner, AllocError>
        ensures { IfOk result (λ owner. owner ≡ owner_of path specifier type_name) }
    {
        Ok(Owner {
            said: OwnerDraft::new(alloc, path, specifier)?,
            type_name,
            children: Items::new(alloc),
            properties: Properties::new(alloc),
            marks: OrderedTable::new(alloc),
            sets: Items::new(alloc),
            set_names: OrderedTable::new(alloc),
            set: Text::new(alloc),
        })
    }

    /// The spec that the statements make, whose children and properties stay with no more room than they need; takes no memory.
    #[tactic(auto, unfolding(crate::specs::Owners::spec_of))]
    pub(crate) fn into_spec(self) -> Spec
        ensures { result ≡ spec_of self }
    {
        let Owner {
            said,
            type_name,
            mut children,
            mut properties,
            marks,
            sets,
            set_names,
            set,
        } = self;
        let OwnerDraft {
            path,
            base,
            mut spec,
            ..
        } = said;
        drop((path, base, marks, set_names, set));
        children.fit();
        properties.fit();
        drop(mem::replace(&mut spec.body.type_name, type_name));
        drop(mem::replace(&mut spec.body.children, children));
        drop(mem::replace(&mut spec.body.properties, properties));
        drop(mem::replace(&mut spec.body.variant_names, sets));
        spec
    }

    /// Adds the name of a prim below.
    #[tactic(auto, unfolding(crate::specs::Owners::with_child))]
    pub(crate) fn add_child(&mut self, name: Text) -> Result<(), AllocError>
        ensures { OnOk result (self.new ≡ with_child name self.old) }
    {
        self.children.push(name)
    }

    /// Whether a variant set stands here.
    #[tactic(auto, unfolding(crate::specs::Owners::has_set))]
    pub fn has_set(&self, name: &Text) -> bool
        ensures { result ≡ has_set name.now self.now }
    {
        self.set_names.has(name)
    }

    /// Begins a variant set.
    #[tactic(auto, unfolding(crate::specs::Owners::with_set))]
    pub(crate) fn add_set(&mut self, alloc: Global, name: Text) -> Result<(), AllocError>
        ensures { OnOk result (self.new ≡ with_set name self.old) }
    {
        let key = copy(&name)?;
        let _before = self.set_names.insert(key, true)?;
        let set = copy(&name)?;
        self.sets.push(VariantSet {
            set,
            variants: Items::new(alloc),
        })?;
        self.set = name;
        Ok(())
    }

    /// Adds the name of a variant to the set that is read.
    #[tactic(auto, unfolding(crate::specs::Owners::with_variant))]
    pub fn add_variant(&mut self, name: Text) -> Result<(), AllocError>
        ensures { OnOk result (self.new ≡ with_variant name self.old) }
    {
        let Some(set) = self.sets.pop() else {
            return Ok(());
        };
        let VariantSet { set, mut variants } = set;
        variants.push(name)?;
        self.sets.push(VariantSet { set, variants })
    }

    /// What was said once of the property of a name.
    #[tactic(auto, unfolding(crate::specs::Owners::marks_at))]
    fn marks_at(&self, name: &Text) -> PropertyMarks
        ensures { result ≡ marks_at name.now self.now }
    {
        match self.marks.get(name) {
            Some(marks) => *marks,
            None => PropertyMarks::none(),
        }
    }

    /// Takes the property of a name in hand for a further statement, or begins it; its place is kept. It is refused where it was given
    /// with another type or kind.
    #[tactic(auto, unfolding(crate::specs::Owners::property_for, crate::specs::Owners::with_place))]
    pub(crate) fn take_property(
        &mut self,
        alloc: Global,
        heading: Heading,
        name: Text,
    ) -> Result<PropertyDraft, PartFault>
        ensures given { Gives result (property_for heading name self.old) }
        ensures left { OnOk result (self.new ≡ with_place name self.old) }
    {
        let marks = self.marks_at(&name);
        let place = Property::blank_relationship(alloc, copy(&name)?);
        let before = self.properties.insert(place)?;
        PropertyDraft::join(alloc, heading, name, marks, before)
    }

    /// Puts the property that was in hand into its place, if there was one.
    #[tactic(auto, unfolding(crate::specs::Owners::settled))]
    pub(crate) fn settle(&mut self, property: PropertyDraft) -> Result<(), AllocError>
        ensures { OnOk result (self.new ≡ settled property self.old) }
    {
        if property.is_in_hand() {
            self.put_back(property)
        } else {
            drop(property);
            Ok(())
        }
    }

    /// Notes what was said once of the property that was in hand.
    fn put_marks(&mut self, property: &PropertyDraft) -> Result<(), AllocError>
        ensures { OnOk result (self.new ≡ record self.old { marks = with_key text_cmp property.now.name property.now.marks self.old.marks }) }
    {
        let name = copy(&property.name)?;
        let _before = self.marks.insert(name, property.marks)?;
        Ok(())
    }

    #[tactic(auto, unfolding(crate::specs::Owners::with_returned))]
    fn put_back(&mut self, property: PropertyDraft) -> Result<(), AllocError>
        ensures { OnOk result (self.new ≡ with_returned property self.old) }
    {
        match self.put_marks(&property) {
            Ok(()) => {
                drop(self.properties.insert(property.into_property())?);
                Ok(())
            }
            Err(error) => {
                drop(property);
                Err(error)
            }
        }
    }
}
