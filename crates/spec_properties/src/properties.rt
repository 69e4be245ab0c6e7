ghost use Rattle.std.specs.Prelude.{◌≡◌, ◌↔◌, ◌<◌, ◌^◌, [], ◌∷◌, ◌++◌, length, slice_get, is_some, Some, None, IfOk, IfErr, IfSome, OnOk, OnErr, IsTrue};
ghost use Rattle.std.specs.Iterator.Adapters.{IterYieldsInOrder, IterYieldsInReverse};
ghost use Rattle.std.specs.Option.{option_copied};
ghost use Rattle.std.specs.Slice.Iter.{iter_rest};
ghost use Rattle.spec_properties.specs.Properties.{AreProperties, property_name, property_at, with_property, without_property, blank_relationship};
ghost use Rattle.spec_properties.specs.Places.{IsAbsent, IsPlace};

use crate::names::{FEW, NameIndex};
use crate::property::Property;
use plain_data::{ExactClone, ExactEq, Text, copy};
use std::alloc::{AllocError, Global};
use std::marker::Model;
use std::{mem, slice};

/// Properties, found by name and kept in order.
///
/// Contracts see the list of properties in order, each name once.
#[derive(Debug, Drop)]
pub struct Properties {
    list: Vec<Property>,
    index: NameIndex,
}

impl Model for Properties {
    ghost use Rattle.std.specs.Prelude.{List};
    ghost use Rattle.std.specs.Coded.{codes};
    ghost use Rattle.spec_properties.specs.declared.property.Property.{Property};
    ghost use Rattle.spec_properties.specs.contracts.property.Property as property;
    ghost use Rattle.spec_properties.specs.Properties.{AreProperties};
    ghost use Rattle.spec_properties.specs.Places.{Indexes};

    ghost Value = { List Property };

    ghost coded = { Prim.hlevel (codes, property.the_row.coded) };

    ghost view = { λ t. t.list.items };

    ghost invariant = { λ t. AreProperties t.list.items × Indexes t.index t.list.items };
}

impl Properties {
    /// No properties, which takes no memory.
    pub fn new(alloc: Global) -> Properties
        ensures { result ≡ [] }
    {
        Properties {
            list: Vec::new(alloc),
            index: NameIndex::new(),
        }
    }

    /// How many properties there are.
    pub fn len(&self) -> usize
        ensures len { result ≡ length self.now }
        ensures distinct { AreProperties self.now }
    {
        self.list.len()
    }

    /// Whether there is no property.
    pub fn is_empty(&self) -> bool
        ensures { IsTrue result ↔ (self.now ≡ []) }
    {
        self.list.is_empty()
    }

    /// The property of a name.
    pub fn get(&self, name: &Text) -> Option<&Property>
        ensures property { option_copied result ≡ property_at name.now self.now }
        ensures named { IfSome result (λ p. property_name p.now ≡ name.now) }
    {
        let place = self.place(name)?;
        self.at(place)
    }

    /// Whether there is a property of a name.
    pub fn has(&self, name: &Text) -> bool
        ensures { result ≡ is_some (property_at name.now self.now) }
    {
        self.place(name).is_some()
    }

    /// The properties in their order.
    pub fn as_slice(&self) -> &[Property]
        ensures same { result.now ≡ self.now }
        ensures distinct { AreProperties self.now }
    {
        self.list.as_slice()
    }

    /// The property at this place, counted from 0; nothing past the end. It needs no walk.
    pub fn at(&self, i: usize) -> Option<&Property>
        ensures { option_copied result ≡ slice_get self.now i }
    {
        self.as_slice().get(i)
    }

    /// The properties in their order, from either end.
    pub fn iter(&self) -> slice::Iter<'_, Property>
        ensures rest { iter_rest result ≡ self.now }
        ensures bound { length (iter_rest result) < 2 ^ 64 }
        ensures runs { IterYieldsInOrder Property }
        ensures runs_back { IterYieldsInReverse Property }
    {
        self.as_slice().iter()
    }

    /// Puts a property in the place of the one of its name, which it answers, or else at the end. After want of memory the
    /// properties are as before.
    pub fn insert(&mut self, property: Property) -> Result<Option<Property>, AllocError>
        ensures before { IfOk result (λ before. before ≡ property_at (property_name property) self.old) }
        ensures ok { OnOk result (self.new ≡ with_property property self.old) }
        ensures err { OnErr result (self.new ≡ self.old) }
    {
        match self.place(property.name()) {
            Some(place) => Ok(Some(mem::replace(&mut self.list[place], property))),
            None => {
                self.append(property)?;
                Ok(None)
            }
        }
    }

    /// Puts a property in the place of the one of its name, which it answers; hands the property back where there is none of its
    /// name. Takes no memory.
    pub fn replace(&mut self, property: Property) -> Result<Property, Property>
        ensures before { IfOk result (λ before. property_at (property_name property) self.old ≡ Some before) }
        ensures ok { OnOk result (self.new ≡ with_property property self.old) }
        ensures absent { IfErr result (λ back. (back ≡ property) × (property_at (property_name property) self.old ≡ None)) }
        ensures err { OnErr result (self.new ≡ self.old) }
    {
        match self.place(property.name()) {
            Some(place) => Ok(mem::replace(&mut self.list[place], property)),
            None => Err(property),
        }
    }

    /// Takes a property out and leaves a relationship of its name that says nothing, so that `replace` puts it back in its place.
    /// Nothing where there is no property of the name. After want of memory the properties are as before.
    pub fn take(&mut self, name: &Text) -> Result<Option<Property>, AllocError>
        ensures taken { IfOk result (λ taken. taken ≡ property_at name.now self.old) }
        ensures ok { IfOk result (λ taken. IfSome taken (λ _. self.new ≡ with_property (blank_relationship name.now) self.old)) }
        ensures absent { result ≡ Ok None → self.new ≡ self.old }
        ensures err { OnErr result (self.new ≡ self.old) }
    {
        let blank = Property::blank_relationship(*self.list.allocator(), copy(name)?);
        match self.replace(blank) {
            Ok(taken) => Ok(Some(taken)),
            Err(blank) => {
                drop(blank);
                Ok(None)
            }
        }
    }

    /// Takes the property of a name away, and answers it. The others keep their order, so those behind it move.
    pub fn remove(&mut self, name: &Text) -> Option<Property>
        ensures before { result ≡ property_at name.now self.old }
        ensures removed { self.new ≡ without_property name.now self.old }
    {
        let place = self.place(name)?;
        self.index.remove(name);
        Some(self.list.remove(place))
    }

    /// Gives back the room beyond what the properties take, where the allocator takes it. It cannot fail.
    pub fn fit(&mut self)
        ensures { self.new ≡ self.old }
    {
        self.list.shrink_to_fit();
    }

    /// The place of the property of a name.
    fn place(&self, name: &Text) -> Option<usize>
        ensures { IsPlace name.now self.now result }
    {
        self.index.place(self.list.as_slice(), name)
    }

    /// Puts a property of a new name at the end. After want of memory the properties are as before.
    fn append(&mut self, property: Property) -> Result<(), AllocError>
        requires { IsAbsent (property_name property) self.old }
        ensures ok { OnOk result (self.new ≡ self.old ++ property ∷ []) }
        ensures err { OnErr result (self.new ≡ self.old) }
    {
        let alloc = *self.list.allocator();
        match self
            .index
            .note(alloc, self.list.as_slice(), property.name())
        {
            Ok(()) => match push_within(&mut self.list, property) {
                Ok(()) => Ok(()),
                Err(error) => {
                    self.index.clear();
                    Err(error)
                }
            },
            Err(error) => {
                drop(property);
                Err(error)
            }
        }
    }
}

/// Puts an item at the end of a list, which has no more room than its items take while they are few.
fn push_within<T: Drop>(list: &mut Vec<T>, item: T) -> Result<(), AllocError>
    ensures ok { OnOk result (list.new.items ≡ list.old.items ++ item ∷ []) }
    ensures err { OnErr result (list.new.items ≡ list.old.items) }
{
    if list.len() < FEW {
        list.reserve_exact(1)?;
    }
    list.push(item)?;
    Ok(())
}

/// A copy of a list.
fn copied<T: ExactClone>(list: &Vec<T>) -> Result<Vec<T>, AllocError>
    ensures { IfOk result (λ copy. copy.items ≡ list.now.items) }
{
    list.clone()
}

impl Clone for Properties {
    ghost use Rattle.std.specs.Prelude.{◌≡◌};

    ghost is_clone = { λ x y. y ≡ x };

    fn clone(&self) -> Result<Properties, AllocError> {
        let index = self.index.copy()?;
        Ok(Properties {
            list: copied(&self.list)?,
            index,
        })
    }
}

impl ExactClone for Properties {
    ghost copy_is_same = { λ x y h. h };
}

/// Whether two lists are one.
fn same_items<T: ExactEq>(a: &Vec<T>, b: &Vec<T>) -> bool
    ensures { IsTrue result ↔ (a.now.items ≡ b.now.items) }
{
    a == b
}

impl PartialEq for Properties {
    ghost use Rattle.std.specs.Cmp.{partial_equiv_from_equiv};
    ghost use Rattle.sdf_values.specs.Equality.{same_value, value_equiv};
    ghost use Rattle.spec_properties.specs.contracts.properties.Properties.{the_row};

    ghost eq = { same_value the_row.coded };

    ghost laws = { partial_equiv_from_equiv (value_equiv the_row.coded) };

    fn eq(&self, other: &Self) -> bool {
        same_properties(self, other)
    }
}

impl Eq for Properties {
    ghost use Rattle.sdf_values.specs.Equality.{value_equiv};
    ghost use Rattle.spec_properties.specs.contracts.properties.Properties.{the_row};

    ghost laws = { value_equiv the_row.coded };
}

impl ExactEq for Properties {
    ghost use Rattle.sdf_values.specs.Equality.{value_same};
    ghost use Rattle.spec_properties.specs.contracts.properties.Properties.{the_row};

    ghost equal_is_same = { value_same the_row.coded };
}

/// Whether the two are one: the same properties in the same order.
fn same_properties(a: &Properties, b: &Properties) -> bool
    ensures { IsTrue result ↔ (a.now ≡ b.now) }
{
    same_items(&a.list, &b.list)
}
