//! Classes, and which arcs lead to one.
ghost use Rattle.std.specs.Prelude.{◌≡◌};
ghost use Rattle.composition.specs.Arcs.{place, same_kind};
ghost use Rattle.composition.specs.Trees.{is_class_of};
ghost use Rattle.composition.specs.Paths.{same_path};
ghost use Rattle.composition.specs.World.{same_stack};

use path_maps::ArcKind;
use plain_data::{ExactClone, ExactEq, ExactOrd, copy, same};
use prim_nodes::Branch;
use prim_view::StackName;
use sdf_paths::Path;
use std::alloc::AllocError;
use std::marker::Model;

/// A class of a node.
///
/// Contracts see it as the pair of the two.
#[derive(Debug, Drop, PartialEq, Eq, PartialOrd, Ord)]
pub struct Class {
    /// How many names of the node's path stand below the author of the arc.
    pub level: usize,
    /// The path of the class, in the node's stack.
    pub target: Path,
}

impl Model for Class {
    ghost use Rattle.std.specs.Prelude.{ℕ, List};
    ghost use Rattle.sdf_paths.specs.declared.element.Element.{Element};

    ghost Value = { ℕ × List Element };

    ghost view = { λ c. (c.level, c.target) };

    ghost inverse = { λ v. record { level = v.0; target = v.1 } };
}

impl Clone for Class {
    ghost use Rattle.std.specs.Prelude.{◌≡◌};

    ghost is_clone = { λ c d. d ≡ c };

    fn clone(&self) -> Result<Class, AllocError> {
        Ok(Class {
            level: self.level,
            target: copy(&self.target)?,
        })
    }
}

impl ExactClone for Class {
    ghost copy_is_same = { λ x y h. h };
}

impl ExactEq for Class {
    ghost use Rattle.class_arcs.specs.Same.{class_equal};

    ghost equal_is_same = { class_equal };
}

impl ExactOrd for Class {
    ghost use Rattle.class_arcs.specs.Same.{class_tie};

    ghost tie_is_same = { class_tie };
}

/// Whether the two kinds are one.
pub fn same_kind(a: ArcKind, b: ArcKind) -> bool
    ensures { result ≡ same_kind a b }
{
    place(a) == place(b)
}

/// The place of the kind in the order of strength.
fn place(kind: ArcKind) -> u8
    ensures { result ≡ place kind }
{
    match kind {
        ArcKind::Inherits => 1,
        ArcKind::Variant => 2,
        ArcKind::Reference => 3,
        ArcKind::Payload => 4,
        ArcKind::Specializes => 5,
    }
}

/// Whether the two paths are one.
pub fn same_path(p: &Path, q: &Path) -> bool
    ensures { result ≡ same_path p.now q.now }
{
    same(p, q)
}

/// Whether the two layer stacks are one.
pub fn same_stack(a: &StackName, b: &StackName) -> bool
    ensures { result ≡ same_stack a.now b.now }
{
    same(a, b)
}

/// Whether the arc is of this kind and leads to the class.
pub fn is_class_of(kind: ArcKind, class: &Class, branch: &Branch) -> bool
    ensures { result ≡ is_class_of kind class.now branch.now }
{
    same_kind(kind, branch.kind)
        && branch.level == class.level
        && same_path(&branch.lead.target, &class.target)
}
