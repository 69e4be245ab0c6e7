ghost use Rattle.std.specs.Prelude.{◌≡◌, [], ◌∷◌, ◌++◌, None, IfOk, OnOk, OnErr};
ghost use Rattle.std.specs.Option.{option_map};
ghost use Rattle.indexmap.specs.IndexSet.{insert_key, remove_key};
ghost use Rattle.spec_properties.specs.Properties.{AreProperties, property_names, same_name};
ghost use Rattle.spec_properties.specs.Places.{IsAbsent, IsPlace, Indexes, Keeps};

use crate::property::Property;
use indexmap::IndexSet;
use plain_data::{Text, copy, same};
use std::alloc::{AllocError, Global};
use std::marker::Model;

/// Up to so many properties the one of a name is found by going over them.
pub const FEW: usize = 8;

/// The names of many properties in their order, by which each is found without going over them; of few properties nothing.
///
/// Contracts see the names that are kept, or none.
#[derive(Debug, Drop)]
pub struct NameIndex {
    names: Option<Box<IndexSet<Text>>>,
}

impl Model for NameIndex {
    ghost use Rattle.std.specs.Prelude.{ℕ, List, Option};
    ghost use Rattle.std.specs.Option.{option_map};

    ghost Value = { Option (List (List ℕ)) };

    ghost view = { λ t. option_map (λ names. names.value.keys) t.names };
}

impl NameIndex {
    /// No names, which takes no memory.
    pub fn new() -> NameIndex
        ensures { result ≡ None }
    {
        NameIndex { names: None }
    }

    /// The place of the property of a name among those whose names are kept here.
    pub fn place(&self, list: &[Property], name: &Text) -> Option<usize>
        requires { Indexes self.now list.now }
        ensures { IsPlace name.now list.now result }
    {
        match &self.names {
            Some(names) => names.get_index_of(name),
            None => place_among(list, name),
        }
    }

    /// Notes a new name at the end, where there are many properties. After want of memory the names are as before.
    pub fn note(&mut self, alloc: Global, list: &[Property], name: &Text) -> Result<(), AllocError>
        requires kept { Indexes self.old list.now }
        requires distinct { AreProperties list.now }
        requires absent { IsAbsent name.now list.now }
        ensures ok { OnOk result (Keeps self.new (property_names list.now ++ name.now ∷ [])) }
        ensures err { OnErr result (self.new ≡ self.old) }
    {
        if let Some(names) = &mut self.names {
            return note_name(names, name);
        }
        if list.len() < FEW {
            return Ok(());
        }
        self.names = Some(names_of(alloc, list, name)?);
        Ok(())
    }

    /// Forgets a name.
    pub fn remove(&mut self, name: &Text)
        ensures { self.new ≡ option_map (remove_key (same_name name.now)) self.old }
    {
        if let Some(names) = &mut self.names {
            names.shift_remove(name);
        }
    }

    /// Forgets all names.
    pub fn clear(&mut self)
        ensures { self.new ≡ None }
    {
        self.names = None;
    }

    /// The same names once more.
    pub fn copy(&self) -> Result<NameIndex, AllocError>
        ensures { IfOk result (λ copy. copy ≡ self.now) }
    {
        Ok(NameIndex {
            names: self.names.clone()?,
        })
    }
}

/// The place of the property of a name, by going over all.
fn place_among(list: &[Property], name: &Text) -> Option<usize>
    ensures { IsPlace name.now list.now result }
{
    for (i, property) in list.iter().enumerate() {
        if same(property.name(), name) {
            return Some(i);
        }
    }
    None
}

/// Puts a copy of a name among names. After want of memory they are as before.
fn note_name(names: &mut IndexSet<Text>, name: &Text) -> Result<(), AllocError>
    ensures ok { OnOk result (names.new.keys ≡ insert_key same_name names.old.keys name.now) }
    ensures err { OnErr result (names.new.keys ≡ names.old.keys) }
{
    names.insert(copy(name)?)?;
    Ok(())
}

/// The names of properties, and a new one at the end.
fn names_of(
    alloc: Global,
    list: &[Property],
    name: &Text,
) -> Result<Box<IndexSet<Text>>, AllocError>
    requires distinct { AreProperties list.now }
    requires absent { IsAbsent name.now list.now }
    ensures { IfOk result (λ names. names.value.keys ≡ property_names list.now ++ name.now ∷ []) }
{
    let mut names = IndexSet::with_capacity(alloc, list.len().saturating_add(1))?;
    for property in list {
        note_name(&mut names, property.name())?;
    }
    note_name(&mut names, name)?;
    Ok(Box::new(alloc, names)?)
}
