//! Which texts between `<` and `>` are paths.
ghost use Rattle.std.specs.Prelude.{◌≡◌, IfOk};
ghost use Rattle.usda_values.specs.PathTexts.{is_path, begins_up, behind_ups, is_path_below, is_path_text};

use plain_data::Text;
use sdf_paths::path_of;
use std::alloc::{AllocError, Global};

/// Whether the text is a path from the root down.
#[tactic(auto, using(crate::proofs::PathLaw::is_path_some))]
pub fn is_path(alloc: Global, text: &str) -> Result<bool, AllocError>
    ensures { IfOk result (λ is. is ≡ is_path text.now) }
{
    let path = path_of(alloc, text)?;
    Ok(path.is_some())
}

/// Whether `../` stands in front.
pub fn begins_up(bytes: &[u8]) -> bool
    ensures { result ≡ begins_up bytes.now }
{
    match bytes {
        [first, second, third, ..] => *first == b'.' && *second == b'.' && *third == b'/',
        _ => false,
    }
}

/// What follows each `../` in front.
fn behind_ups(text: &str) -> &str
    ensures { result.now ≡ behind_ups 0 text.now }
{
    let mut rest = text;
    while begins_up(rest.as_bytes()) {
        let (_, behind) = rest.split_at(3);
        rest = behind;
    }
    rest
}

/// Whether the text is a path from a prim down.
fn is_path_below(alloc: Global, text: &str) -> Result<bool, AllocError>
    ensures { IfOk result (λ is. is ≡ is_path_below text.now) }
{
    let bytes = text.as_bytes();
    if bytes.is_empty() {
        return Ok(false);
    }
    let mut whole = Text::of(alloc, if bytes[0] == b'.' { "/a" } else { "/" })?;
    whole.push_str(text)?;
    is_path(alloc, whole.as_str())
}

/// Whether the text is a path, from the root or from a prim down.
#[tactic(auto, unfolding(crate::specs::PathTexts::is_path_text))]
pub fn is_path_text(alloc: Global, text: &str) -> Result<bool, AllocError>
    ensures { IfOk result (λ is. is ≡ is_path_text text.now) }
{
    let bytes = text.as_bytes();
    if !bytes.is_empty() && bytes[0] == b'/' {
        is_path(alloc, text)
    } else {
        is_path_below(alloc, behind_ups(text))
    }
}
