ghost use Rattle.std.specs.Prelude.{List, ◌≡◌, ◌⊎◌, ◌-◌, [], ◌∷◌, ◌++◌, length, take, Ok, Err, IfOk, IfErr, OnOk, IsSomeAnd, false, string_bytes, IsTrue, ◌↔◌};
ghost use Rattle.std.specs.Option.{option_copied, ForSome};
ghost use Rattle.sdf_paths.specs.Paths.{IsPath, IsReadAs, printed, is_property, is_plain, depth, last_name, has_prefix, HasPrefix};
ghost use Rattle.sdf_paths.specs.Refusal.{IsFaultOf};
ghost use Rattle.sdf_paths.specs.Paths.{parent, IsRefusal, rest_after, replaced, MayFollow, plain, owner};
ghost use Rattle.sdf_paths.specs.declared.element.Element.{Element};

use crate::element::Element;
use crate::fault::PathFault;
use crate::shared::SharedItems;
use crate::{edits, looks, reader};
use plain_data::{ExactClone, ExactEq, ExactOrd, copy};
use std::alloc::{AllocError, Global};
use std::marker::Model;

/// A path from the root to a prim or to a property, with the variants that are selected on the way.
///
/// A path is a front of a list of elements that several paths share: its copies and the paths above it take no memory, and hold the list
/// as long as one of them lives. `/` has no list.
///
/// Contracts see it as the list of its elements, from the root down; `/` is the empty list.
#[derive(Debug, Drop, PartialEq, Eq, PartialOrd, Ord)]
pub struct Path {
    elements: SharedItems<Element>,
}

impl Model for Path {
    ghost use Rattle.std.specs.Prelude.{List};
    ghost use Rattle.sdf_paths.specs.declared.element.Element.{Element};

    ghost Value = { List Element };

    ghost use Rattle.sdf_paths.specs.Paths.{IsPath};

    ghost view = { λ p. p.elements };

    ghost invariant = { λ p. IsPath p.elements };

    ghost inverse = { λ es. record { elements = es } };
}

impl Clone for Path {
    ghost use Rattle.std.specs.Prelude.{◌≡◌};

    ghost is_clone = { λ p q. q ≡ p };

    /// The same path once more, which takes no memory. It fails only where too many share its elements to be counted.
    fn clone(&self) -> Result<Path, AllocError> {
        Ok(Path {
            elements: copy(&self.elements)?,
        })
    }
}

impl ExactClone for Path {
    ghost copy_is_same = { λ x y h. h };
}

impl ExactEq for Path {
    ghost use Rattle.sdf_paths.specs.PathOrder.{path_equal};

    ghost equal_is_same = { path_equal };
}

impl ExactOrd for Path {
    ghost use Rattle.sdf_paths.specs.PathOrder.{path_tie};

    ghost tie_is_same = { path_tie };
}

impl Path {
    /// The path `/`.
    pub fn root(alloc: Global) -> Path
        ensures { result ≡ [] }
    {
        Path {
            elements: SharedItems::new(alloc),
        }
    }

    /// The path that a text is read as.
    ///
    /// A name directly after a selection may be written with its `/` or without it. `Bad` comes
    /// exactly where the text is no path, at the first byte with which none goes on; past 4,096 bytes
    /// at byte 4,096, and past 64 names of prims where the name too many begins, with its `/` where
    /// one stands.
    pub fn parse(alloc: Global, text: &str) -> Result<Path, PathFault>
        ensures ok { IfOk result (λ path. IsReadAs text.now path) }
        ensures read { (path : List Element) → IsReadAs text.now path → (result ≡ Ok path) ⊎ (result ≡ Err PathFault.NoMemory) }
        ensures bad { IfErr result (λ e. IsFaultOf text.now e) }
    {
        match reader::read(alloc, text) {
            Ok(elements) => Ok(Path {
                elements: SharedItems::of(elements)?,
            }),
            Err(fault) => Err(fault),
        }
    }

    /// The elements of the path, from the root down.
    pub fn elements(&self) -> &[Element]
        ensures same { result.now ≡ self.now }
        ensures path { IsPath self.now }
    {
        self.elements.as_slice()
    }

    /// The printed text, which is read as this path again.
    pub fn print(&self) -> Result<String, AllocError>
        ensures text { IfOk result (λ s. string_bytes s ≡ printed self.now) }
        ensures read { IfOk result (λ s. IsReadAs (string_bytes s) self.now) }
    {
        looks::print(self.elements.allocator(), self.elements.as_slice())
    }

    /// Whether the path is `/`.
    pub fn is_root(&self) -> bool
        ensures { IsTrue result ↔ (self.now ≡ []) }
    {
        self.elements.as_slice().is_empty()
    }

    /// Whether the path is that of a property.
    pub fn is_property(&self) -> bool
        ensures { result ≡ is_property self.now }
    {
        looks::is_property(self.elements.as_slice())
    }

    /// Whether the path has no variant selection.
    pub fn is_plain(&self) -> bool
        ensures { result ≡ is_plain self.now }
    {
        looks::is_plain(self.elements.as_slice())
    }

    /// How many names of prims there are; 0 for `/`.
    pub fn depth(&self) -> usize
        ensures { result ≡ depth self.now }
    {
        looks::depth(self.elements.as_slice())
    }

    /// The name of the last element: of a prim, of a property or of a variant. `None` for `/`.
    pub fn last(&self) -> Option<&str>
        ensures { option_copied result ≡ last_name self.now }
    {
        looks::last_name(self.elements.as_slice())
    }

    /// Whether the path begins with all elements of `front`.
    pub fn has_prefix(&self, front: &Path) -> bool
        ensures value { result ≡ has_prefix front.now self.now }
        ensures prefix { IsTrue result ↔ HasPrefix front.now self.now }
    {
        looks::rest_after(front.elements.as_slice(), self.elements.as_slice()).is_some()
    }

    /// Whether the path without its variant selections begins with `front` without those of it.
    pub fn has_plain_prefix(&self, front: &Path) -> bool
        ensures { result ≡ has_prefix (plain front.now) (plain self.now) }
    {
        looks::has_plain_prefix(front.elements.as_slice(), self.elements.as_slice())
    }

    /// The path without its last element. `None` for `/`.
    pub fn parent(&self) -> Result<Option<Path>, AllocError>
        ensures { IfOk result (λ above. above ≡ parent self.now) }
    {
        if self.is_root() {
            return Ok(None);
        }
        Ok(Some(self.up(1)?))
    }

    /// The path so many levels up: without its last elements, so many of them; `/` where it has no more. It takes no memory, and fails only
    /// where too many paths share its elements to be counted.
    pub fn up(&self, levels: usize) -> Result<Path, AllocError>
        ensures { IfOk result (λ above. above ≡ take (length self.now - levels) self.now) }
    {
        let len = self.elements.as_slice().len();
        Ok(Path {
            elements: self.elements.front(len.saturating_sub(levels))?,
        })
    }

    /// The path of a prim below this one.
    ///
    /// `Bad` with `at` 0 comes exactly where the name is no identifier or a limit is passed.
    pub fn append(&self, name: &str) -> Result<Path, PathFault>
        requires { is_property self.now ≡ false }
        ensures ok { IfOk result (λ path. path ≡ self.now ++ Element.Prim name.now ∷ []) }
        ensures path { OnOk result (IsPath (self.now ++ Element.Prim name.now ∷ [])) }
        ensures bad { IfErr result (λ e. IsRefusal (self.now ++ Element.Prim name.now ∷ []) e) }
    {
        if !edits::may_append(self.elements.as_slice(), name) {
            return Err(PathFault::Bad { at: 0 });
        }
        match edits::appended(&self.elements, name) {
            Ok(elements) => Ok(Path { elements }),
            Err(fault) => Err(fault),
        }
    }

    /// The path of a variant of this prim.
    ///
    /// `Bad` with `at` 0 comes exactly where this is `/`, the set is no identifier, the variant is no name of one, or the path
    /// would be too long.
    pub fn select(&self, set: &str, variant: &str) -> Result<Path, PathFault>
        requires { is_property self.now ≡ false }
        ensures ok { IfOk result (λ path. path ≡ self.now ++ Element.Selection set.now variant.now ∷ []) }
        ensures path { OnOk result (IsPath (self.now ++ Element.Selection set.now variant.now ∷ [])) }
        ensures bad { IfErr result (λ e. IsRefusal (self.now ++ Element.Selection set.now variant.now ∷ []) e) }
    {
        if !edits::may_select(self.elements.as_slice(), set, variant) {
            return Err(PathFault::Bad { at: 0 });
        }
        match edits::selected(&self.elements, set, variant) {
            Ok(elements) => Ok(Path { elements }),
            Err(fault) => Err(fault),
        }
    }

    /// The path with `by` in place of its prefix `front`. `None` exactly where it does not begin with
    /// `front`.
    ///
    /// `Bad` with `at` 0 comes exactly where a limit is passed.
    pub fn replace_prefix(&self, front: &Path, by: &Path) -> Result<Option<Path>, PathFault>
        requires { ForSome (rest_after front.now self.now) (λ rest. MayFollow by.now rest) }
        ensures ok { IfOk result (λ path. path ≡ replaced front.now by.now self.now) }
        ensures bad { IfErr result (λ e. IsSomeAnd (replaced front.now by.now self.now) (λ path. IsRefusal path e)) }
    {
        let elements = self.elements.as_slice();
        let Some(rest) = looks::rest_after(front.elements.as_slice(), elements) else {
            return Ok(None);
        };
        if !edits::fits(by.elements.as_slice(), rest) {
            return Err(PathFault::Bad { at: 0 });
        }
        match edits::joined(&by.elements, rest) {
            Ok(elements) => Ok(Some(Path { elements })),
            Err(fault) => Err(fault),
        }
    }

    /// The path without its variant selections.
    pub fn plain(&self) -> Result<Path, AllocError>
        ensures ok { IfOk result (λ path. path ≡ plain self.now) }
        ensures path { IsPath (plain self.now) }
    {
        Ok(Path {
            elements: edits::plain(&self.elements)?,
        })
    }

    /// The path of the prim: without the name of the property, if there is one. It takes no memory, and fails only where too many paths
    /// share its elements to be counted.
    #[tactic(auto, using(crate::proofs::Shapes::owner_above, crate::proofs::Shapes::owner_itself))]
    pub fn owner(&self) -> Result<Path, AllocError>
        ensures { IfOk result (λ path. path ≡ owner self.now) }
    {
        // By the contract of `elements` a property stands last.
        if looks::is_property(self.elements()) {
            self.up(1)
        } else {
            copy(self)
        }
    }
}
