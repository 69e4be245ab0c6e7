//! The answer to a call.

use crate::edits::{push_apply_call, push_batch_call};
use crate::fault::CallFault;
use crate::fields::push_fields_call;
use crate::indexes::{push_index_call, push_site_call, push_sites_call};
use crate::layers::{push_layer_call, push_loaded_call, push_names_call, push_rule_call};
use crate::opening::{Opened, Trial, make_bare, open_once, push_one_call, push_open_call};
use crate::stacks::{push_arcs_call, push_reads_call, push_sets_call, push_stack_call};
use crate::stages::{push_ask_call, push_flatten_call};
use crate::table::Row;
use crate::values::{push_targets_call, push_value_call};
use crate::views::push_view_call;
use crate::words::first_word;
use layer_set::World;
use std::alloc::{AllocError, Global};

/// A look at a world: the first word of the call, and those behind it.
#[derive(Clone, Copy)]
struct Look<'r> {
    word: &'r str,
    words: &'r str,
}

/// Looks at what a prim is composed of.
fn push_composed(
    alloc: Global,
    out: &mut String,
    world: &World,
    look: Look<'_>,
) -> Result<(), CallFault> {
    match look.word {
        "value" => push_value_call(alloc, out, world, look.words),
        "targets" => push_targets_call(alloc, out, world, look.words),
        "fields" => push_fields_call(alloc, out, world, look.words),
        "view" => push_view_call(alloc, out, world, look.words),
        _ => Err(CallFault::Bad),
    }
}

/// Looks at the index of a prim, and the looks of `push_composed`.
fn push_indexes(
    alloc: Global,
    out: &mut String,
    world: &World,
    look: Look<'_>,
) -> Result<(), CallFault> {
    match look.word {
        "index" => push_index_call(alloc, out, world, look.words),
        "sites" => push_sites_call(alloc, out, world, look.words),
        "site" => push_site_call(alloc, out, world, look.words),
        _ => push_composed(alloc, out, world, look),
    }
}

/// Looks at layer stacks, and the looks of `push_indexes`.
fn push_stacks(
    alloc: Global,
    out: &mut String,
    world: &World,
    look: Look<'_>,
) -> Result<(), CallFault> {
    match look.word {
        "stack" => push_stack_call(alloc, out, world, look.words),
        "arcs" => push_arcs_call(alloc, out, world, look.words),
        "reads" => push_reads_call(alloc, out, world, look.words),
        "sets" => push_sets_call(alloc, out, world, look.words),
        _ => push_indexes(alloc, out, world, look),
    }
}

/// Looks at what stands in a world, and the looks of `push_stacks`.
fn push_looks(
    alloc: Global,
    out: &mut String,
    world: &World,
    look: Look<'_>,
) -> Result<(), CallFault> {
    match look.word {
        "layer" => push_layer_call(alloc, out, world, look.words),
        "names" => Ok(push_names_call(out, world)?),
        "rule" => push_rule_call(alloc, out, world, look.words),
        "loaded" => push_loaded_call(alloc, out, world, look.words),
        _ => push_stacks(alloc, out, world, look),
    }
}

/// The calls on a world.
fn push_call(
    alloc: Global,
    out: &mut String,
    opened: &mut Opened,
    row: &Row,
) -> Result<(), CallFault> {
    let (word, words) = first_word(row.call.as_str());
    match word {
        "apply" => push_apply_call(alloc, out, opened, row.given.as_str()),
        "batch" => push_batch_call(alloc, out, opened, row.given.as_str()),
        "ask" => push_ask_call(alloc, out, opened, words),
        "flatten" => push_flatten_call(alloc, out, opened),
        _ => push_looks(alloc, out, &opened.world, Look { word, words }),
    }
}

/// The calls on files, and those on a world.
fn push_trial(
    alloc: Global,
    out: &mut String,
    trial: &mut Trial,
    row: &Row,
) -> Result<(), CallFault> {
    let (word, words) = first_word(row.call.as_str());
    match word {
        "open" => return push_open_call(alloc, out, &mut trial.files, words),
        "one" => return push_one_call(alloc, out, &mut trial.files, words),
        "bare" => return make_bare(alloc, trial, words),
        _ => open_once(alloc, out, trial)?,
    }
    match &mut trial.opened {
        Some(opened) => push_call(alloc, out, opened, row),
        None => Ok(()),
    }
}

/// The lines with which a call is answered, each with its line feed.
pub(crate) fn answer(alloc: Global, trial: &mut Trial, row: &Row) -> Result<String, AllocError> {
    let mut out = String::new(alloc);
    match push_trial(alloc, &mut out, trial, row) {
        Ok(()) => {}
        Err(CallFault::Bad) => out.push_str("no such call\n")?,
        Err(CallFault::NoMemory) => return Err(AllocError),
    }
    Ok(out)
}
