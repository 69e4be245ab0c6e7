//! Whether parts of worlds are one, without a copy.
ghost use Rattle.std.specs.Prelude.{◌≡◌, ◌↔◌, IsTrue};
ghost use Rattle.std.specs.Option.{option_copied, option_map};
ghost use Rattle.layer_set.specs.LookUps.{layer_head, root_names, heading_of, roots_of};

use crate::held::Held;
use plain_data::{ExactEq, same};
use sdf_specs::{ArcPart, BodyPart, Head, Spec};

/// Whether the two are one, or both are missing.
pub fn same_part<T: ExactEq>(a: Option<&T>, b: Option<&T>) -> bool
    ensures { IsTrue result ↔ (option_copied a.entry ≡ option_copied b.entry) }
{
    match (a, b) {
        (Some(a), Some(b)) => same(a, b),
        (None, None) => true,
        _ => false,
    }
}

/// The arcs of a spec that is there.
pub fn arcs_of(spec: Option<&Spec>) -> Option<&ArcPart>
    ensures { option_copied result ≡ option_map (λ s. s.arcs) (option_copied spec.entry) }
{
    match spec {
        Some(spec) => Some(&spec.arcs),
        None => None,
    }
}

/// The body of a spec that is there.
pub fn body_of(spec: Option<&Spec>) -> Option<&BodyPart>
    ensures { option_copied result ≡ option_map (λ s. s.body) (option_copied spec.entry) }
{
    match spec {
        Some(spec) => Some(&spec.body),
        None => None,
    }
}

fn same_head(a: &Head, b: &Head) -> bool
    ensures { IsTrue result ↔ (layer_head a.now ≡ layer_head b.now) }
{
    same(&a.sublayers, &b.sublayers)
        && same(&a.default_prim, &b.default_prim)
        && same(&a.meta, &b.meta)
}

fn same_root_names(a: &Head, b: &Head) -> bool
    ensures { IsTrue result ↔ (root_names a.now ≡ root_names b.now) }
{
    same(&a.root_names, &b.root_names) && same(&a.root_order, &b.root_order)
}

/// Whether presence, refusal and head are one, the names of root prims and their order aside.
pub fn same_heading(a: &Held, b: &Held) -> bool
    ensures { IsTrue result ↔ (heading_of a.now ≡ heading_of b.now) }
{
    match (a, b) {
        (Held::Present(a), Held::Present(b)) => same_head(a.head(), b.head()),
        (Held::Absent, Held::Absent) => true,
        (Held::Broken(a), Held::Broken(b)) => a == b,
        _ => false,
    }
}

/// Whether the names of root prims and their order are one, or both are missing.
pub fn same_roots(a: &Held, b: &Held) -> bool
    ensures { IsTrue result ↔ (roots_of a.now ≡ roots_of b.now) }
{
    match (a, b) {
        (Held::Present(a), Held::Present(b)) => same_root_names(a.head(), b.head()),
        (Held::Present(_), _) => false,
        (_, Held::Present(_)) => false,
        _ => true,
    }
}
