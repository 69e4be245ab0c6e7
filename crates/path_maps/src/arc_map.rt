ghost use Rattle.std.specs.Prelude.{◌≡◌, IfOk, IfErr, IsSomeAnd, OnOk};
ghost use Rattle.std.specs.Option.{ForSome};
ghost use Rattle.sdf_paths.specs.Paths.{IsPath, IsRefusal};

use crate::kind::ArcKind;
use crate::moves::{copied, through_class, through_target, without_selections};
use plain_data::copy;
use sdf_paths::{Path, PathFault};
use std::alloc::AllocError;
use std::marker::Model;

/// An arc as a map of paths: from those of the prim that it leads to, to those of the prim that
/// authored it.
///
/// Both are prims or variants of prims: neither `/` nor a property.
#[derive(Debug, Drop, PartialEq, Eq)]
pub struct ArcMap {
    /// What the arc is.
    pub kind: ArcKind,
    /// The path that it leads to.
    pub target: Path,
    /// The path that it was authored at.
    pub author: Path,
}

impl Model for ArcMap {
    ghost use Rattle.path_maps.specs.Maps.{ArcPaths};
    ghost use Rattle.path_maps.specs.Prims.{IsOfPrim};

    ghost Value = { ArcPaths };

    ghost view = { λ m. record { kind = m.kind; target = m.target; author = m.author } };

    ghost invariant = { λ m. IsOfPrim m.target × IsOfPrim m.author };

    ghost inverse = { λ v. record { kind = v.kind; target = v.target; author = v.author } };
}

impl Clone for ArcMap {
    ghost use Rattle.std.specs.Prelude.{◌≡◌};

    ghost is_clone = { λ a b. b ≡ a };

    fn clone(&self) -> Result<ArcMap, AllocError> {
        Ok(ArcMap {
            kind: self.kind,
            target: copy(&self.target)?,
            author: copy(&self.author)?,
        })
    }
}

impl ArcMap {
    ghost use Rattle.path_maps.specs.Maps.{translated, lifted};

    /// The path on the author's side that a path on the target's side stands for. `None` where it
    /// stands for none.
    ///
    /// Through a reference or a payload a path that does not begin with the target has none. Through a
    /// class others stay, but for those at or below the author, which the class does not know. Through
    /// a variant a path is left without its selections. `Bad` with `at` 0 comes exactly where the
    /// answer would pass a limit of paths.
    pub fn translate(&self, p: &Path) -> Result<Option<Path>, PathFault>
        ensures ok { IfOk result (λ moved. moved ≡ translated self.now.kind self.now.target self.now.author p.now) }
        ensures path { OnOk result (ForSome (translated self.now.kind self.now.target self.now.author p.now) IsPath) }
        ensures bad { IfErr result (λ e. IsSomeAnd (translated self.now.kind self.now.target self.now.author p.now) (λ moved. IsRefusal moved e)) }
    {
        match self.kind {
            ArcKind::Inherits | ArcKind::Specializes => through_class(
                &self.target,
                &self.author,
                p,
            ),
            ArcKind::Reference | ArcKind::Payload => through_target(&self.target, &self.author, p),
            ArcKind::Variant => Ok(Some(without_selections(p)?)),
        }
    }

    /// The class at the author that stands for a class at the target: below the target it moves to the
    /// author, and others stay.
    ///
    /// `Bad` with `at` 0 comes exactly where the answer would pass a limit of paths.
    pub fn lift_class(&self, p: &Path) -> Result<Path, PathFault>
        ensures ok { IfOk result (λ moved. moved ≡ lifted self.now.target self.now.author p.now) }
        ensures path { OnOk result (IsPath (lifted self.now.target self.now.author p.now)) }
        ensures bad { IfErr result (λ e. IsRefusal (lifted self.now.target self.now.author p.now) e) }
    {
        match through_target(&self.target, &self.author, p)? {
            Some(moved) => Ok(moved),
            None => copied(p),
        }
    }
}
