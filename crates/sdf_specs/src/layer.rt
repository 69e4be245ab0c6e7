ghost use Rattle.std.specs.Prelude.{◌≡◌, ◌≢◌, ◌↔◌, ◌<◌, ◌^◌, [], Ok, Err, true, false, length, is_some, IfOk, OnOk, OnErr, IsTrue};
ghost use Rattle.std.specs.Map.Iter.{ShowsInOrder, deref_pair};
ghost use Rattle.std.specs.Option.{option_copied};
ghost use Rattle.sdf_paths.specs.Paths.{is_property};
ghost use Rattle.spec_parts.specs.Blank.{blank_head};
ghost use Rattle.sdf_specs.specs.Layers.{LayerTable, AreSpecs, spec_at, with_spec, with_spec_for, has_parent, has_tree, without_tree, specs_from};

use crate::put_refused::PutRefused;
use crate::trees::{put_at, remove_tree};
use plain_data::{ExactClone, ExactEq, copy, same};
use sdf_paths::Path;
use shared_tables::{Entries, SharedTable};
use spec_parts::{Head, Spec};
use std::alloc::{AllocError, Global};
use std::marker::Model;
use std::mem;

/// A layer: its head, and its specs by path.
///
/// Contracts see the head and the list of paths and specs in the order of paths, each path once.
#[derive(Debug, Drop)]
pub struct Layer {
    head: Head,
    specs: SharedTable<Path, Spec>,
    alloc: Global,
}

impl Model for Layer {
    ghost use Rattle.std.specs.Coded.{codes};
    ghost use Rattle.spec_parts.specs.contracts.spec.Head as of_head;
    ghost use Rattle.spec_parts.specs.contracts.spec.Spec as of_spec;
    ghost use Rattle.sdf_specs.specs.Layers.{LayerTable};

    ghost Value = { LayerTable };

    ghost coded = { Prim.hlevel (codes, of_head.the_row.coded, of_spec.the_row.coded) };

    ghost view = { λ t. record { head = t.head; specs = t.specs } };
}

impl Layer {
    /// The layer with a blank head and no spec, which takes no memory.
    pub fn new(alloc: Global) -> Layer
        ensures { result ≡ record { head = blank_head; specs = [] } }
    {
        Layer {
            head: Head::blank(alloc),
            specs: SharedTable::new(alloc),
            alloc,
        }
    }

    /// The layer of this head and these specs. Takes no memory.
    pub fn from_parts(alloc: Global, head: Head, specs: SharedTable<Path, Spec>) -> Layer
        ensures { result ≡ record { head = head; specs = specs } }
    {
        Layer { head, specs, alloc }
    }

    /// The spec at a path.
    pub fn get(&self, path: &Path) -> Option<&Spec>
        ensures { option_copied result ≡ spec_at path.now self.now.specs }
    {
        self.specs.get(path)
    }

    /// Whether there is a spec at a path.
    pub fn has(&self, path: &Path) -> bool
        ensures { result ≡ is_some (spec_at path.now self.now.specs) }
    {
        self.specs.has(path)
    }

    /// What the layer says apart from its specs.
    pub fn head(&self) -> &Head
        ensures { result.now ≡ self.now.head }
    {
        &self.head
    }

    /// Changes the head alone. Takes no memory.
    pub fn set_head(&mut self, head: Head)
        ensures { self.new ≡ record self.old { head = head } }
    {
        drop(mem::replace(&mut self.head, head));
    }

    /// Changes the head alone, and answers the one before, so that it can be changed without a copy. Takes no memory.
    pub fn replace_head(&mut self, head: Head) -> Head
        ensures before { result ≡ self.old.head }
        ensures changed { self.new ≡ record self.old { head = head } }
    {
        mem::replace(&mut self.head, head)
    }

    /// How many specs there are.
    pub fn len(&self) -> usize
        ensures len { result ≡ length self.now.specs }
        ensures order { AreSpecs self.now.specs }
    {
        self.specs.len()
    }

    /// Whether there is no spec.
    pub fn is_empty(&self) -> bool
        ensures { IsTrue result ↔ (self.now.specs ≡ []) }
    {
        self.specs.is_empty()
    }

    /// The paths and specs in the order of paths.
    pub fn iter(&self) -> Entries<'_, Path, Spec>
        ensures rest { result ≡ self.now.specs }
        ensures runs { ShowsInOrder (deref_pair {K = Path} {X = Spec}) }
        ensures order { AreSpecs self.now.specs }
        ensures bound { length self.now.specs < 2 ^ 63 }
    {
        self.specs.iter()
    }

    /// The paths and specs from a path on, in the order of paths, found by a search: the path itself and those below it come first.
    pub fn iter_from(&self, path: &Path) -> Entries<'_, Path, Spec>
        ensures rest { result ≡ specs_from path.now self.now.specs }
        ensures runs { ShowsInOrder (deref_pair {K = Path} {X = Spec}) }
        ensures order { AreSpecs self.now.specs }
        ensures bound { length result < 2 ^ 63 }
    {
        self.specs.iter_from(path)
    }

    /// Puts a spec at a path, in place of one that is there.
    ///
    /// # Errors
    ///
    /// `NoParent` where the path without its last element is neither `/` nor in the table. `NoMemory` where memory ran out. The
    /// layer is then as before.
    pub fn put(&mut self, path: &Path, spec: Spec) -> Result<(), PutRefused>
        requires prim { is_property path.now ≡ false }
        requires below { path.now ≢ [] }
        ensures ok { OnOk result (self.new ≡ record self.old { specs = with_spec path.now spec self.old.specs }) }
        ensures owned { OnOk result (has_parent path.now self.old.specs ≡ true) }
        ensures no_parent { result ≡ Err PutRefused.NoParent → has_parent path.now self.old.specs ≡ false }
        ensures err { OnErr result (self.new ≡ self.old) }
    {
        put_at(&mut self.specs, path, spec)
    }

    /// Exchanges the spec at a path that is there, and answers the one before as one's own; nothing where there is none. So a spec
    /// can be taken out for a blank one, changed, and put back; it is copied only where another layer shares it.
    ///
    /// # Errors
    ///
    /// Memory ran out. The layer is as before.
    pub fn replace(&mut self, path: &Path, spec: Spec) -> Result<Option<Spec>, AllocError>
        ensures before { IfOk result (λ before. before ≡ spec_at path.now self.old.specs) }
        ensures ok { OnOk result (self.new ≡ record self.old { specs = with_spec_for path.now spec self.old.specs }) }
        ensures err { OnErr result (self.new ≡ self.old) }
    {
        self.specs.exchange(path, spec)
    }

    /// Takes away what stands at a path and below it, and answers whether anything did. It costs a search for each spec that goes.
    ///
    /// # Errors
    ///
    /// Memory ran out. The layer is as before.
    pub fn remove_tree(&mut self, path: &Path) -> Result<bool, AllocError>
        ensures some { IfOk result (λ some. some ≡ has_tree path.now self.old.specs) }
        ensures ok { OnOk result (self.new ≡ record self.old { specs = without_tree path.now self.old.specs }) }
        ensures err { OnErr result (self.new ≡ self.old) }
    {
        remove_tree(&mut self.specs, self.alloc, path)
    }
}

impl Clone for Layer {
    ghost use Rattle.std.specs.Prelude.{◌≡◌};

    ghost is_clone = { λ x y. y ≡ x };

    fn clone(&self) -> Result<Layer, AllocError> {
        let specs = copy(&self.specs)?;
        match copy(&self.head) {
            Ok(head) => Ok(Layer {
                head,
                specs,
                alloc: self.alloc,
            }),
            Err(error) => {
                drop(specs);
                Err(error)
            }
        }
    }
}

impl ExactClone for Layer {
    ghost copy_is_same = { λ x y h. h };
}

impl PartialEq for Layer {
    ghost use Rattle.std.specs.Cmp.{partial_equiv_from_equiv};
    ghost use Rattle.sdf_values.specs.Equality.{same_value, value_equiv};
    ghost use Rattle.sdf_specs.specs.contracts.layer.Layer.{the_row};

    ghost eq = { same_value the_row.coded };

    ghost laws = { partial_equiv_from_equiv (value_equiv the_row.coded) };

    fn eq(&self, other: &Self) -> bool {
        same_layer(self, other)
    }
}

impl Eq for Layer {
    ghost use Rattle.sdf_values.specs.Equality.{value_equiv};
    ghost use Rattle.sdf_specs.specs.contracts.layer.Layer.{the_row};

    ghost laws = { value_equiv the_row.coded };
}

impl ExactEq for Layer {
    ghost use Rattle.sdf_values.specs.Equality.{value_same};
    ghost use Rattle.sdf_specs.specs.contracts.layer.Layer.{the_row};

    ghost equal_is_same = { value_same the_row.coded };
}

/// Whether the two are one, in head and specs.
fn same_layer(a: &Layer, b: &Layer) -> bool
    ensures { IsTrue result ↔ (a.now ≡ b.now) }
{
    same(&a.head, &b.head) && same(&a.specs, &b.specs)
}
