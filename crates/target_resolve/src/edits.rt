//! The edits of an opinion on the stage.
ghost use Rattle.std.specs.Prelude.{◌≡◌, ◌++◌, filter, filter_map, IfOk, OnOk};
ghost use Rattle.target_resolve.specs.Translating.{is_lost, on_stage, op_on_stage, folded_paths, if_any, tried};

use crate::translate::{Moved, translated_paths};
use list_ops::{ListOp, fold_ordered};
use path_maps::ArcMap;
use plain_data::{Items, copy};
use sdf_paths::Path;
use std::alloc::{AllocError, Global};
use std::mem;

/// Edits with what has a translation, and the items that have none, deletes aside.
#[derive(Drop)]
pub struct Edited {
    /// The edits, of paths on the stage.
    pub op: ListOp<Path>,
    /// The items that have no translation, as they are written; a delete is not told.
    pub lost: Items<Path>,
}

/// Appends the items of another list.
fn append(out: &mut Items<Path>, more: Items<Path>) -> Result<(), AllocError>
    ensures { OnOk result (out.new ≡ out.old ++ more) }
{
    for item in more.as_slice() {
        out.push(copy(item)?)?;
    }
    Ok(())
}

/// Paths on the stage; those that have no translation are appended to others.
fn kept_paths(
    alloc: Global,
    maps: &[ArcMap],
    paths: &Items<Path>,
    lost: &mut Items<Path>,
) -> Result<Items<Path>, AllocError>
    ensures kept { IfOk result (λ kept. kept ≡ filter_map (on_stage maps.now) paths.now) }
    ensures lost { OnOk result (lost.new ≡ lost.old ++ filter (is_lost maps.now) paths.now) }
{
    let moved = translated_paths(alloc, maps, paths.as_slice())?;
    match append(lost, moved.lost) {
        Ok(()) => Ok(moved.kept),
        Err(error) => {
            drop(moved.kept);
            Err(error)
        }
    }
}

/// Puts the items that are added, prepended, appended and reordered, on the stage, in the place of others.
fn put_listed(
    alloc: Global,
    maps: &[ArcMap],
    op: &ListOp<Path>,
    into: &mut ListOp<Path>,
    lost: &mut Items<Path>,
) -> Result<(), AllocError>
    ensures edits { OnOk result (into.new ≡ record (op_on_stage maps.now op.now) { explicit = into.old.explicit; deleted = into.old.deleted }) }
    ensures lost { OnOk result (lost.new ≡ lost.old ++ filter (is_lost maps.now) (op.now.added ++ op.now.prepended ++ op.now.appended ++ op.now.ordered)) }
{
    into.added = kept_paths(alloc, maps, &op.added, lost)?;
    into.prepended = kept_paths(alloc, maps, &op.prepended, lost)?;
    into.appended = kept_paths(alloc, maps, &op.appended, lost)?;
    into.ordered = kept_paths(alloc, maps, &op.ordered, lost)?;
    Ok(())
}

/// Puts all items but explicit ones, on the stage, in the place of others. A delete that has no translation is not told.
fn put_edits(
    alloc: Global,
    maps: &[ArcMap],
    op: &ListOp<Path>,
    into: &mut Edited,
) -> Result<(), AllocError>
    ensures edits { OnOk result (into.new.op ≡ record (op_on_stage maps.now op.now) { explicit = into.old.op.explicit }) }
    ensures lost { OnOk result (into.new.lost ≡ into.old.lost ++ filter (is_lost maps.now) (op.now.added ++ op.now.prepended ++ op.now.appended ++ op.now.ordered)) }
{
    let deleted = translated_paths(alloc, maps, op.deleted.as_slice())?;
    into.op.deleted = deleted.kept;
    put_listed(alloc, maps, op, &mut into.op, &mut into.lost)
}

/// The edits that are not explicit, on the stage.
fn edits_on_stage(alloc: Global, maps: &[ArcMap], op: &ListOp<Path>) -> Result<Edited, AllocError>
    ensures edits { IfOk result (λ e. e.op ≡ record (op_on_stage maps.now op.now) { explicit = None }) }
    ensures lost { IfOk result (λ e. e.lost ≡ filter (is_lost maps.now) (op.now.added ++ op.now.prepended ++ op.now.appended ++ op.now.ordered)) }
{
    let mut edited = Edited {
        op: ListOp::new(alloc),
        lost: Items::new(alloc),
    };
    match put_edits(alloc, maps, op, &mut edited) {
        Ok(()) => Ok(edited),
        Err(error) => {
            drop(edited);
            Err(error)
        }
    }
}

/// The edits with an explicit list.
fn with_explicit(edits: Edited, items: Moved) -> Edited
    ensures edits { result.op ≡ record edits.op { explicit = Some items.kept } }
    ensures lost { result.lost ≡ items.lost }
{
    let mut edits = edits;
    drop(mem::replace(&mut edits.op.explicit, Some(items.kept)));
    drop(mem::replace(&mut edits.lost, items.lost));
    edits
}

/// The edits of an opinion on the stage.
pub fn translated_edits(
    alloc: Global,
    maps: &[ArcMap],
    op: &ListOp<Path>,
) -> Result<Edited, AllocError>
    ensures edits { IfOk result (λ e. e.op ≡ op_on_stage maps.now op.now) }
    ensures lost { IfOk result (λ e. e.lost ≡ filter (is_lost maps.now) (tried op.now)) }
{
    let edits = edits_on_stage(alloc, maps, op)?;
    match &op.explicit {
        None => Ok(edits),
        Some(items) => match translated_paths(alloc, maps, items.as_slice()) {
            Ok(items) => Ok(with_explicit(edits, items)),
            Err(error) => {
                drop(edits);
                Err(error)
            }
        },
    }
}

/// What opinions, given from the strongest to the weakest, make together; none where there is no opinion.
pub fn if_any(
    alloc: Global,
    opinions: Items<ListOp<Path>>,
) -> Result<Option<Items<Path>>, AllocError>
    ensures { IfOk result (λ list. list ≡ if_any opinions) }
{
    if opinions.is_empty() {
        return Ok(None);
    }
    Ok(Some(folded(alloc, opinions)?))
}

/// What opinions, given from the strongest to the weakest, make of the empty list.
fn folded(alloc: Global, opinions: Items<ListOp<Path>>) -> Result<Items<Path>, AllocError>
    ensures { IfOk result (λ list. list ≡ folded_paths opinions) }
{
    let mut opinions = opinions.into_vec();
    opinions.reverse();
    Ok(Items::from_vec(fold_ordered(alloc, &opinions)?))
}
