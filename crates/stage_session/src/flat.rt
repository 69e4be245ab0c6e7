ghost use Rattle.std.specs.Prelude.{◌≡◌, ◌<◌, ◌≤◌, [], length, Err, IfOk};
ghost use Rattle.stage_questions.specs.Answers.{flat_text};
ghost use Rattle.stage_session.specs.Sessions.{most_paths, stage_after};

use crate::session::MAX_PATHS;
use compose_api::{StageRefused, stage_items_within};
use flatten::flatten_text;
use layer_set::World;
use plain_data::Items;
use sdf_paths::Path;
use stage_composer::UsdComposer;
use stage_entries::StageEntry;
use stage_publish::Edition;
use std::alloc::{AllocError, Global};

/// The stage of a world.
fn stage_of_world(alloc: Global, world: &World) -> Result<Items<(Path, StageEntry)>, StageRefused>
    ensures stage { IfOk result (λ items. items ≡ stage_after world.now []) }
    ensures few { IfOk result (λ items. length items ≤ most_paths) }
    ensures full { result ≡ Err StageRefused.Full → most_paths < length (stage_after world.now []) }
{
    let items = stage_items_within(alloc, &UsdComposer::new(alloc), world, MAX_PATHS)?;
    Ok(items)
}

/// The text of the flattened layer of an edition.
fn edition_text(alloc: Global, edition: &Edition<Path, StageEntry>) -> Result<Vec<u8>, AllocError>
    ensures { IfOk result (λ text. text.items ≡ flat_text edition.now.items) }
{
    flatten_text(alloc, &edition.view())
}

/// The text of the flattened layer of the stage of a world.
///
/// # Errors
///
/// `Full` exactly where the stage has more than `MAX_PATHS` paths. `NoMemory` where memory ran out.
pub fn flatten_world(alloc: Global, world: &World) -> Result<Vec<u8>, StageRefused>
    ensures text { IfOk result (λ text. text.items ≡ flat_text (stage_after world.now [])) }
    ensures few { IfOk result (λ _. length (stage_after world.now []) ≤ most_paths) }
    ensures full { result ≡ Err StageRefused.Full → most_paths < length (stage_after world.now []) }
{
    let items = stage_of_world(alloc, world)?;
    let edition = Edition::build(alloc, 0, 0, items, None)?;
    match edition_text(alloc, &edition) {
        Ok(text) => {
            drop(edition);
            Ok(text)
        }
        Err(_) => {
            drop(edition);
            Err(StageRefused::NoMemory)
        }
    }
}
