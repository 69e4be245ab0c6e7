//! Paths moved from one prefix to another.
ghost use Rattle.std.specs.Prelude.{◌≡◌, IfOk, IfErr, OnOk, IsSomeAnd};
ghost use Rattle.std.specs.Option.{ForSome};
ghost use Rattle.sdf_paths.specs.Paths.{IsPath, IsRefusal, plain, replaced};
ghost use Rattle.path_maps.specs.Maps.{through_class};
ghost use Rattle.path_maps.specs.Prims.{IsOfPrim};

use plain_data::copy;
use sdf_paths::{Path, PathFault};

/// A copy of the path.
pub fn copied(path: &Path) -> Result<Path, PathFault>
    ensures ok { IfOk result (λ copy. copy ≡ path.now) }
    ensures path { IsPath path.now }
    ensures bad { IfErr result (λ e. IsRefusal path.now e) }
{
    // By the contract of `elements` this is a path by the rules, as the clause `path` says.
    let _elements = path.elements();
    Ok(copy(path)?)
}

/// The path without its selections.
pub fn without_selections(path: &Path) -> Result<Path, PathFault>
    ensures ok { IfOk result (λ left. left ≡ plain path.now) }
    ensures path { IsPath (plain path.now) }
    ensures bad { IfErr result (λ e. IsRefusal (plain path.now) e) }
{
    Ok(path.plain()?)
}

/// The path with the author in place of the target that it begins with, if it does.
pub fn through_target(target: &Path, author: &Path, path: &Path) -> Result<Option<Path>, PathFault>
    requires { IsOfPrim author.now }
    ensures ok { IfOk result (λ moved. moved ≡ replaced target.now author.now path.now) }
    ensures path { OnOk result (ForSome (replaced target.now author.now path.now) IsPath) }
    ensures bad { IfErr result (λ e. IsSomeAnd (replaced target.now author.now path.now) (λ moved. IsRefusal moved e)) }
{
    let moved = path.replace_prefix(target, author)?;
    if let Some(there) = &moved {
        // By the contract of `elements` this is a path by the rules, as the clause `path` says.
        let _elements = there.elements();
    }
    Ok(moved)
}

/// The same through a class: a path beside the target stays, unless it is at or below the author.
pub fn through_class(target: &Path, author: &Path, path: &Path) -> Result<Option<Path>, PathFault>
    requires { IsOfPrim author.now }
    ensures ok { IfOk result (λ moved. moved ≡ through_class target.now author.now path.now) }
    ensures path { OnOk result (ForSome (through_class target.now author.now path.now) IsPath) }
    ensures bad { IfErr result (λ e. IsSomeAnd (through_class target.now author.now path.now) (λ moved. IsRefusal moved e)) }
{
    let moved = through_target(target, author, path)?;
    if moved.is_some() {
        return Ok(moved);
    }
    if path.has_plain_prefix(author) {
        return Ok(None);
    }
    Ok(Some(copied(path)?))
}
