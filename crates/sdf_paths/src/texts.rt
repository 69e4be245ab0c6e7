//! Paths of texts, and texts with paths in them.
ghost use Rattle.std.specs.Prelude.{◌≡◌, ◌↔◌, ◌++◌, List, IfOk, OnOk, Some, string_bytes};
ghost use Rattle.sdf_paths.specs.Paths.{IsReadAs, path_text, printed};
ghost use Rattle.sdf_paths.specs.Reader.{path_of};
ghost use Rattle.sdf_paths.specs.declared.element.Element.{Element};

use crate::fault::PathFault;
use crate::path::Path;
use std::alloc::{AllocError, Global};

/// The path of a text from the root down; nothing where it is none or passes a limit.
pub fn path_of(alloc: Global, text: &str) -> Result<Option<Path>, AllocError>
    ensures path { IfOk result (λ path. path ≡ path_of text.now) }
    // The path that is computed is the one that the text is read as.
    ensures read { (path : List Element) → (path_of text.now ≡ Some path) ↔ IsReadAs text.now path }
{
    match Path::parse(alloc, text) {
        Ok(path) => Ok(Some(path)),
        Err(PathFault::Bad { at: _ }) => Ok(None),
        Err(PathFault::NoMemory) => Err(AllocError),
    }
}

/// Appends a path as it is printed. After want of memory the text is of no use.
pub fn push_path(out: &mut String, path: &Path) -> Result<(), AllocError>
    ensures { OnOk result (string_bytes out.new ≡ string_bytes out.old ++ printed path.now) }
{
    let text = path.print()?;
    out.push_str(text.as_str())
}

/// Appends a path between `<` and `>`. After want of memory the text is of no use.
pub fn push_path_text(out: &mut String, path: &Path) -> Result<(), AllocError>
    ensures { OnOk result (string_bytes out.new ≡ string_bytes out.old ++ path_text path.now) }
{
    out.push_str("<")?;
    push_path(out, path)?;
    out.push_str(">")
}
