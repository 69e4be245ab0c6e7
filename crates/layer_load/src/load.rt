//! A world from its files.
ghost use Rattle.std.specs.Prelude.{◌≡◌, Err, IfSome};
ghost use Rattle.io_edges.specs.Causes.{IsCounted};
ghost use Rattle.layer_load.specs.Opening.{most_names};
ghost use Rattle.layer_load.specs.Answers.{Opens};
ghost use Rattle.layer_load.specs.Asking.{AsksMet};

use crate::fault::LoadFault;
use crate::opening::{begin, finished, finished_within, name_at, take_turn};
use asset_names::AssetId;
use io_edges::LayerFiles;
use layer_set::{MAX_LAYER_NAMES, World};
use std::alloc::Global;

/// A world that was opened.
#[derive(Drop)]
pub struct Loaded {
    /// What stands at each name that was met.
    pub world: World,
    /// How many bytes were fetched.
    pub bytes: u64,
}

/// Opens a world in which so many names may have their turn.
fn load_within<F: LayerFiles>(
    alloc: Global,
    files: &mut F,
    root: AssetId,
    session: Option<AssetId>,
    most: usize,
) -> Result<Loaded, LoadFault>
    ensures opens { Opens (F.files files.old) most root session result }
    ensures same { F.files files.new ≡ F.files files.old }
    ensures asks { IfSome (F.files files.old) (λ told. AsksMet told root session (F.asked files.old) (F.asked files.new)) }
    ensures counted { IsCounted (result ≡ Err LoadFault.ReadFault) (F.faults files.old) (F.faults files.new) }
{
    let mut draft = begin(alloc, root, session)?;
    for place in 0..most {
        let name = match name_at(&draft, place)? {
            Some(name) => name,
            None => return Ok(finished(draft)),
        };
        match take_turn(alloc, files, &mut draft, &name) {
            Ok(()) => {}
            Err(fault) => {
                drop(draft);
                return Err(fault);
            }
        }
    }
    finished_within(draft, most)
}

/// The world of a root and a session layer: what stands at these two names, and then, layer by layer, at the names of what the layers
/// name, each once, without load rules; and how many bytes were fetched.
///
/// # Errors
///
/// `ReadFault` where a file could not be read. `RootRefused` where the root or the session layer is not there or is refused.
/// `WorldTooLarge` where more than `MAX_LAYER_NAMES` names have a turn, or more bytes are fetched in all than `MAX_FETCHED`. `NoMemory` where
/// memory ran out. What is met first is answered.
pub fn load_world<F: LayerFiles>(
    alloc: Global,
    files: &mut F,
    root: AssetId,
    session: Option<AssetId>,
) -> Result<Loaded, LoadFault>
    // What is answered is what is defined by the files, which are those that are told.
    ensures opens { Opens (F.files files.old) most_names root session result }
    ensures same { F.files files.new ≡ F.files files.old }
    // No file is asked for but those of the names that are met, and each of these once.
    ensures asks { IfSome (F.files files.old) (λ told. AsksMet told root session (F.asked files.old) (F.asked files.new)) }
    // A fault is told where one happened, and only there: no fetch is tried again.
    ensures counted { IsCounted (result ≡ Err LoadFault.ReadFault) (F.faults files.old) (F.faults files.new) }
{
    load_within(alloc, files, root, session, MAX_LAYER_NAMES)
}
