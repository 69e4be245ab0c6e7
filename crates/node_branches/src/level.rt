//! The levels of a path, and the paths at them.
ghost use Rattle.std.specs.Prelude.{◌≡◌, IfOk, take};
ghost use Rattle.composition.specs.Paths.{has_selections, levels};

use class_arcs::path_above;
use sdf_paths::{Element, Path, is_selection};
use std::alloc::AllocError;

/// Whether some element is a selection.
pub fn has_selections(elements: &[Element]) -> bool
    ensures { result ≡ has_selections elements.now }
{
    elements.iter().any(|element| is_selection(element))
}

/// How many levels the path of these elements has.
pub fn levels(elements: &[Element]) -> usize
    ensures { result ≡ levels elements.now }
{
    match elements {
        [] => 0,
        [_, rest @ ..] => {
            if has_selections(rest) {
                levels(rest)
            } else {
                elements.len()
            }
        }
    }
}

/// The path of the first elements, so many of them.
#[tactic(auto, using(crate::proofs::Fronts::front_is))]
pub fn front(path: &Path, count: usize) -> Result<Path, AllocError>
    ensures { IfOk result (λ front. front ≡ take count path.now) }
{
    let above = path_above(path, path.elements().len().saturating_sub(count))?;
    Ok(above)
}
