//! Worlds from their files.

use crate::fault::CallFault;
use crate::files::AskedFiles;
use crate::printing::{push_held, push_refusal};
use crate::words::{first_word, layer_name};
use asset_names::AssetId;
use layer_load::{LoadFault, Loaded, load_one, load_world};
use layer_set::{Held, World};
use sdf_paths::Path;
use spec_parts::Refusal;
use stage_entries::StageEntry;
use stage_publish::Edition;
use std::alloc::{AllocError, Global};
use std::fmt::Write;
use std::mem;

/// The name of each world's root layer, where the call does not tell it.
const ROOT: &str = "root.usda";

/// The stage of a world.
pub(crate) type Stage = Edition<Path, StageEntry>;

/// A world that was opened, with its stage where that was asked.
#[derive(Drop)]
pub(crate) struct Opened {
    pub world: World,
    pub stage: Option<Stage>,
}

/// The files of a world, the word of its session layer, empty for none, and the world, where a call opened it.
#[derive(Drop)]
pub(crate) struct Trial {
    pub files: AskedFiles,
    pub session: String,
    pub opened: Option<Opened>,
}

/// Appends that the root layer is refused, or absent.
fn push_root_refused(
    out: &mut String,
    name: &AssetId,
    refusal: &Option<Refusal>,
) -> Result<(), AllocError> {
    let name = name.text();
    write!(out, "refused @{name}@ ")?;
    match refusal {
        Some(refusal) => push_refusal(out, *refusal)?,
        None => out.push_str("absent")?,
    }
    out.push_str("\n")
}

/// Appends why a world or a layer was not opened.
fn push_unopened(out: &mut String, fault: &LoadFault) -> Result<(), AllocError> {
    match fault {
        LoadFault::RootRefused { name, refusal } => push_root_refused(out, name, refusal),
        LoadFault::WorldTooLarge => out.push_str("world too large\n"),
        LoadFault::ReadFault => out.push_str("not read\n"),
        LoadFault::NoMemory => out.push_str("no memory\n"),
    }
}

/// The name of the session layer, if there is one.
fn session_of(alloc: Global, word: &str) -> Result<Option<AssetId>, CallFault> {
    if word.is_empty() {
        return Ok(None);
    }
    Ok(Some(layer_name(alloc, word)?))
}

/// Opens the world of files, whose session layer has the name that a word is. Where it is refused, why is appended.
fn opened_files(
    alloc: Global,
    out: &mut String,
    files: &mut AskedFiles,
    session: &str,
) -> Result<Option<Opened>, CallFault> {
    let root = layer_name(alloc, ROOT)?;
    let session = session_of(alloc, session)?;
    match load_world(alloc, files, root, session) {
        Ok(Loaded { world, bytes: _ }) => Ok(Some(Opened { world, stage: None })),
        Err(fault) => {
            push_unopened(out, &fault)?;
            Ok(None)
        }
    }
}

/// Opens the world of the files, where no call did before. Where it is refused, why is appended.
pub(crate) fn open_once(
    alloc: Global,
    out: &mut String,
    trial: &mut Trial,
) -> Result<(), CallFault> {
    if trial.opened.is_none() {
        let opened = opened_files(alloc, out, &mut trial.files, trial.session.as_str())?;
        drop(mem::replace(&mut trial.opened, opened));
    }
    Ok(())
}

/// Appends a line for each name of a world.
fn push_world(out: &mut String, world: &World) -> Result<(), AllocError> {
    for i in 0..world.names() {
        if let Some(name) = world.name_at(i) {
            let text = name.text();
            write!(out, "@{text}@ ")?;
            push_held(out, world.held(name))?;
        }
    }
    Ok(())
}

/// Appends how many bytes were fetched.
fn push_bytes(out: &mut String, bytes: u64) -> Result<(), AllocError> {
    writeln!(out, "{bytes} bytes")
}

/// Appends what was opened: the names of a world, and the bytes.
fn push_loaded(out: &mut String, loaded: &Loaded) -> Result<(), AllocError> {
    push_world(out, &loaded.world)?;
    push_bytes(out, loaded.bytes)
}

/// Appends what stands at the name of a layer, and the bytes.
fn push_one(out: &mut String, held: &Held, bytes: u64) -> Result<(), AllocError> {
    push_held(out, held)?;
    push_bytes(out, bytes)
}

/// Appends the names that were asked, and the world that was opened or why none was.
fn push_answer(
    out: &mut String,
    asked: &str,
    answer: &Result<Loaded, LoadFault>,
) -> Result<(), CallFault> {
    out.push_str(asked)?;
    match answer {
        Ok(loaded) => Ok(push_loaded(out, loaded)?),
        Err(fault) => Ok(push_unopened(out, fault)?),
    }
}

/// The same of a layer by itself.
fn push_one_answer(
    out: &mut String,
    asked: &str,
    answer: &Result<(Held, u64), LoadFault>,
) -> Result<(), CallFault> {
    out.push_str(asked)?;
    match answer {
        Ok((held, bytes)) => Ok(push_one(out, held, *bytes)?),
        Err(fault) => Ok(push_unopened(out, fault)?),
    }
}

/// `open ROOT SESSION`: the names that are asked, what stands at each name, and the bytes.
pub(crate) fn push_open_call(
    alloc: Global,
    out: &mut String,
    files: &mut AskedFiles,
    words: &str,
) -> Result<(), CallFault> {
    let (root, session) = first_word(words);
    let root = layer_name(alloc, root)?;
    let session = session_of(alloc, session)?;
    files.asked = String::new(alloc);
    let answer = load_world(alloc, files, root, session);
    let told = push_answer(out, files.asked.as_str(), &answer);
    drop(answer);
    told
}

/// `one LAYER BYTES`: the same of the layer by itself, where so many bytes were fetched before.
pub(crate) fn push_one_call(
    alloc: Global,
    out: &mut String,
    files: &mut AskedFiles,
    words: &str,
) -> Result<(), CallFault> {
    let (name, before) = first_word(words);
    let name = layer_name(alloc, name)?;
    let Ok(before) = before.parse::<u64>() else {
        return Err(CallFault::Bad);
    };
    files.asked = String::new(alloc);
    let answer = load_one(alloc, files, &name, before);
    let told = push_one_answer(out, files.asked.as_str(), &answer);
    drop(answer);
    told
}

/// Puts the layer of a name into a world.
fn put_layer(
    alloc: Global,
    files: &mut AskedFiles,
    world: &mut World,
    word: &str,
) -> Result<(), CallFault> {
    let name = layer_name(alloc, word)?;
    match load_one(alloc, files, &name, 0) {
        Ok((held, _bytes)) => Ok(world.put(name, held)?),
        Err(_) => Err(CallFault::Bad),
    }
}

/// Puts the layers of names into a world.
fn put_layers(
    alloc: Global,
    files: &mut AskedFiles,
    world: &mut World,
    words: &str,
) -> Result<(), CallFault> {
    for word in words.split_whitespace() {
        put_layer(alloc, files, world, word)?;
    }
    Ok(())
}

/// An empty world, whose session layer has the name that a word is.
fn empty_world(alloc: Global, session: &str) -> Result<World, CallFault> {
    let root = layer_name(alloc, ROOT)?;
    let session = session_of(alloc, session)?;
    Ok(World::new(alloc, root, session)?)
}

/// `bare LAYERS`: makes the world one of what stands at these names alone, the root layer among them or not.
pub(crate) fn make_bare(alloc: Global, trial: &mut Trial, words: &str) -> Result<(), CallFault> {
    let mut world = empty_world(alloc, trial.session.as_str())?;
    match put_layers(alloc, &mut trial.files, &mut world, words) {
        Ok(()) => {
            let opened = Some(Opened { world, stage: None });
            drop(mem::replace(&mut trial.opened, opened));
            Ok(())
        }
        Err(fault) => {
            drop(world);
            Err(fault)
        }
    }
}
