//! A layer and a path, with which most operations begin.
ghost use Rattle.std.specs.Prelude.{◌≡◌, IfOk};
ghost use Rattle.script_words.specs.Answers.{Finds, FindsAs};
ghost use Rattle.script_lines.specs.Places.{target_at, prim_base, changed};

use crate::line::Line;
use asset_names::AssetId;
use edit_batches::Op;
use script_words::{LineFault, ended, layer_at, path_at};
use sdf_paths::Path;
use std::alloc::{AllocError, Global};

/// A layer and a path, and the bytes behind them.
#[tactic(auto, unfolding(crate::specs::Places::target_at))]
pub fn target_at(alloc: Global, bytes: &[u8]) -> Result<(AssetId, Path, &[u8]), LineFault>
    ensures { FindsAs (λ x. (x.0, x.1, x.2.now)) result (target_at bytes.now) }
{
    let (layer, rest) = layer_at(alloc, bytes)?;
    let (path, rest) = path_at(alloc, rest)?;
    Ok((layer, path, rest))
}

/// The plain path of the prim of a path, from which paths are taken that do not begin with `/`.
pub fn prim_base(path: &Path) -> Result<Path, AllocError>
    ensures { IfOk result (λ base. base ≡ prim_base path.now) }
{
    path.owner()?.plain()
}

/// The line of an operation, where nothing follows.
#[tactic(auto, unfolding(crate::specs::Places::changed))]
pub fn changed(op: Op, bytes: &[u8]) -> Result<Line, LineFault>
    ensures { Finds result (changed op bytes.now) }
{
    ended(Line::Change(op), bytes)
}
