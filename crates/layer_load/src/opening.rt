//! A world that is being opened.
ghost use Rattle.std.specs.Prelude.{◌≡◌, [], Ok, Err, slice_get, IfOk, OnOk};
ghost use Rattle.io_edges.specs.Causes.{IsCounted};
ghost use Rattle.layer_set.specs.Worlds.{with_held};
ghost use Rattle.layer_set.specs.declared.held.Held.{Held as SaidHeld};
ghost use Rattle.layer_load.specs.Opening.{Opening, Ending, is_session, is_needed, if_needed, refusal_of, with_assets, judged, first_names, begun, by_turn, loaded};
ghost use Rattle.layer_load.specs.Answers.{GoesOn, TakesTurn};
ghost use Rattle.layer_load.specs.Asking.{AsksInTurn};
ghost use Rattle.layer_load.specs.Drafts.{AreMet, opening_of};

use crate::fault::LoadFault;
use crate::load::Loaded;
use crate::names::Names;
use crate::one::load_one;
use crate::walk::assets_of_layer;
use asset_names::AssetId;
use io_edges::LayerFiles;
use layer_set::{Held, World};
use plain_data::{copy, same};
use spec_parts::Refusal;
use std::alloc::{AllocError, Global};
use usda_reader::texts_have_one_answer;

/// A world that is being opened: the names that were met, what stands at those that had their turn, and the bytes so far.
#[derive(Drop)]
pub struct WorldDraft {
    /// The names that were met.
    pub names: Names,
    /// What stands at the names that had their turn.
    pub world: World,
    /// How many bytes the files have together that were read so far.
    pub bytes: u64,
}

fn is_session(world: &World, name: &AssetId) -> bool
    ensures { result ≡ is_session world.now.session name.now }
{
    match world.session() {
        Some(session) => same(name, session),
        None => false,
    }
}

/// Whether the layer of a name has to be there.
fn is_needed(world: &World, name: &AssetId) -> bool
    ensures { result ≡ is_needed world.now name.now }
{
    same(name, world.root()) || is_session(world, name)
}

fn refusal_of(held: &Held) -> Option<Option<Refusal>>
    ensures { result ≡ refusal_of held.now }
{
    match held {
        Held::Present(_) => None,
        Held::Absent => Some(None),
        Held::Broken(refusal) => Some(Some(*refusal)),
    }
}

/// Why the layer of a name that has to be there is not.
fn refusal_at(world: &World, name: &AssetId, held: &Held) -> Option<Option<Refusal>>
    ensures { result ≡ if_needed (is_needed world.now name.now) held.now }
{
    if is_needed(world, name) {
        refusal_of(held)
    } else {
        None
    }
}

/// Adds the names of what a layer names.
fn note_held(
    alloc: Global,
    names: &mut Names,
    name: &AssetId,
    held: &Held,
) -> Result<(), AllocError>
    requires { AreMet names.old }
    ensures listed { OnOk result (names.new.listed ≡ with_assets names.old.listed name.now held.now) }
    ensures met { OnOk result (AreMet names.new) }
{
    match held {
        Held::Present(layer) => {
            let assets = assets_of_layer(alloc, layer)?;
            names.note_assets(alloc, name, assets.as_slice())
        }
        Held::Absent => Ok(()),
        Held::Broken(_) => Ok(()),
    }
}

/// Adds the names of the root and the session layer.
fn note_first(
    names: &mut Names,
    root: &AssetId,
    session: &Option<AssetId>,
) -> Result<(), AllocError>
    requires none { names.old.listed ≡ [] }
    requires met { AreMet names.old }
    ensures listed { OnOk result (names.new.listed ≡ first_names root.now session.now) }
    ensures met { OnOk result (AreMet names.new) }
{
    names.note(copy(root)?)?;
    match session {
        Some(session) => names.note(copy(session)?),
        None => Ok(()),
    }
}

/// The names of the root and the session layer.
fn first_names(
    alloc: Global,
    root: &AssetId,
    session: &Option<AssetId>,
) -> Result<Names, AllocError>
    ensures listed { IfOk result (λ names. names.listed ≡ first_names root.now session.now) }
    ensures met { IfOk result AreMet }
{
    let mut names = Names::new(alloc);
    match note_first(&mut names, root, session) {
        Ok(()) => Ok(names),
        Err(error) => {
            drop(names);
            Err(error)
        }
    }
}

/// The world of a root and a session layer, before any of them had its turn.
pub fn begin(
    alloc: Global,
    root: AssetId,
    session: Option<AssetId>,
) -> Result<WorldDraft, AllocError>
    ensures begun { IfOk result (λ draft. opening_of draft ≡ begun root session) }
    ensures met { IfOk result (λ draft. AreMet draft.names) }
{
    let names = match first_names(alloc, &root, &session) {
        Ok(names) => names,
        Err(error) => {
            drop((root, session));
            return Err(error);
        }
    };
    match World::new(alloc, root, session) {
        Ok(world) => Ok(WorldDraft {
            names,
            world,
            bytes: 0,
        }),
        Err(error) => {
            drop(names);
            Err(error)
        }
    }
}

/// Puts what stands at a name.
fn put_held(world: &mut World, name: &AssetId, held: Held) -> Result<(), AllocError>
    ensures { OnOk result (world.new ≡ with_held name.now held world.old) }
{
    match copy(name) {
        Ok(name) => world.put(name, held),
        Err(error) => {
            drop(held);
            Err(error)
        }
    }
}

/// Adds what stands at a name, and the names of what it names, unless it has to be there and is not. The bytes are then this many.
fn add(
    alloc: Global,
    draft: &mut WorldDraft,
    name: &AssetId,
    held: Held,
    total: u64,
) -> Result<(), LoadFault>
    requires { AreMet draft.old.names }
    ensures met { OnOk result (AreMet draft.new.names) }
    ensures names { OnOk result (draft.new.names.listed ≡ with_assets draft.old.names.listed name.now held) }
    ensures judged { (go : Opening → Ending) → GoesOn result (judged go (opening_of draft.old) name.now held total) (go (opening_of draft.new)) }
    ensures calm { result ≡ Err LoadFault.ReadFault → ⊥ }
{
    if let Some(refusal) = refusal_at(&draft.world, name, &held) {
        drop(held);
        return Err(LoadFault::RootRefused {
            name: copy(name)?,
            refusal,
        });
    }
    match note_held(alloc, &mut draft.names, name, &held) {
        Ok(()) => {
            put_held(&mut draft.world, name, held)?;
            draft.bytes = total;
            Ok(())
        }
        Err(_) => {
            drop(held);
            Err(LoadFault::NoMemory)
        }
    }
}

/// Loads the layer of a name that has its turn, and adds it.
pub fn take_turn<F: LayerFiles>(
    alloc: Global,
    files: &mut F,
    draft: &mut WorldDraft,
    name: &AssetId,
) -> Result<(), LoadFault>
    requires { AreMet draft.old.names }
    ensures met { OnOk result (AreMet draft.new.names) }
    ensures names { OnOk result ((held : SaidHeld) × (draft.new.names.listed ≡ with_assets draft.old.names.listed name.now held)) }
    ensures turn { TakesTurn (F.files files.old) name.now (opening_of draft.old) (opening_of draft.new) result }
    ensures same { F.files files.new ≡ F.files files.old }
    ensures asks { AsksInTurn (F.asked files.old) (F.asked files.new) name.now }
    ensures counted { IsCounted (result ≡ Err LoadFault.ReadFault) (F.faults files.old) (F.faults files.new) }
{
    texts_have_one_answer();
    match load_one(alloc, files, name, draft.bytes) {
        Ok((held, total)) => add(alloc, draft, name, held, total),
        Err(fault) => Err(fault),
    }
}

/// The name that has its turn at this place.
pub fn name_at(draft: &WorldDraft, place: usize) -> Result<Option<AssetId>, AllocError>
    ensures { IfOk result (λ name. name ≡ slice_get draft.now.names.listed place) }
{
    match draft.names.at(place) {
        Some(name) => Ok(Some(copy(name)?)),
        None => Ok(None),
    }
}

/// The world as it is then.
pub fn finished(draft: WorldDraft) -> Loaded
    ensures { result ≡ loaded (opening_of draft) }
{
    let WorldDraft {
        names,
        world,
        bytes,
    } = draft;
    drop(names);
    Loaded { world, bytes }
}

/// The world, unless one more name has its turn.
pub fn finished_within(draft: WorldDraft, most: usize) -> Result<Loaded, LoadFault>
    ensures { result ≡ by_turn (λ _. Err LoadFault.WorldTooLarge) (opening_of draft) (slice_get draft.names.listed most) }
{
    if draft.names.len() > most {
        drop(draft);
        return Err(LoadFault::WorldTooLarge);
    }
    Ok(finished(draft))
}
