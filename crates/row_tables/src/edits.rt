//! Batches of edits.

use crate::fault::CallFault;
use crate::opening::Opened;
use crate::stacks::push_keys;
use crate::table::{Case, read_table};
use asset_names::AssetId;
use change_core::EditReply;
use edit_batches::{Batch, EditFault, EditRefused, Op};
use io_edges::SureFiles;
use layer_changes::{Applied, apply};
use layer_load::load_one;
use layer_set::{Key, World};
use plain_data::Items;
use script_lines::{Line, read_line};
use stage_questions::push_edit_reply;
use std::alloc::{AllocError, Global};
use std::mem;

/// How the reply to a batch begins that is refused.
const REFUSED: &str = "batch refused: op ";

/// The files of lines, for `open`. A name without one is that of a file that is gone.
fn files_of(alloc: Global, lines: &str) -> Result<SureFiles, AllocError> {
    let mut all = Vec::new(alloc);
    for case in read_table(alloc, lines)?.cases {
        let Case {
            session: _,
            fails: _,
            files,
            rows: _,
        } = case;
        all = files;
    }
    Ok(SureFiles::new(all))
}

/// The operation that puts a layer from its file.
fn opening(alloc: Global, files: &mut SureFiles, id: AssetId) -> Result<Op, CallFault> {
    match load_one(alloc, files, &id, 0) {
        Ok((held, _bytes)) => Ok(Op::PutLayer { id, held }),
        Err(_) => Err(CallFault::Bad),
    }
}

/// Takes a line of a script.
fn take_line(
    alloc: Global,
    files: &mut SureFiles,
    ops: &mut Items<Op>,
    line: &str,
) -> Result<(), CallFault> {
    match read_line(alloc, line.as_bytes())? {
        Some(Line::Change(op)) => Ok(ops.push(op)?),
        Some(Line::Open(id)) => Ok(ops.push(opening(alloc, files, id)?)?),
        Some(Line::Blank) => Ok(()),
        other => {
            drop(other);
            Err(CallFault::Bad)
        }
    }
}

/// Whether a line is one of a file.
fn is_of_file(line: &str) -> bool {
    line.starts_with("|") || line.starts_with("layer ")
}

/// Takes the lines of a script.
fn take_lines(
    alloc: Global,
    files: &mut SureFiles,
    ops: &mut Items<Op>,
    lines: &str,
) -> Result<(), CallFault> {
    for line in lines.split('\n') {
        if !is_of_file(line) {
            take_line(alloc, files, ops, line)?;
        }
    }
    Ok(())
}

/// The operations of lines, with their files.
fn ops_from(alloc: Global, files: &mut SureFiles, lines: &str) -> Result<Items<Op>, CallFault> {
    let mut ops = Items::new(alloc);
    match take_lines(alloc, files, &mut ops, lines) {
        Ok(()) => Ok(ops),
        Err(fault) => {
            drop(ops);
            Err(fault)
        }
    }
}

/// The operations of lines.
fn ops_of(alloc: Global, lines: &str) -> Result<Items<Op>, CallFault> {
    let mut files = files_of(alloc, lines)?;
    ops_from(alloc, &mut files, lines)
}

/// The reply to a batch of which an operation is refused.
fn reply_of(alloc: Global, op: u32, fault: EditFault) -> Result<String, AllocError> {
    let mut reply = Vec::new(alloc);
    push_edit_reply(alloc, &mut reply, &EditReply::Refused { op, fault })?;
    String::from_utf8_lossy(alloc, reply.as_slice())
}

/// Appends which operation is refused, and why.
fn push_refused(
    alloc: Global,
    out: &mut String,
    op: u32,
    fault: EditFault,
) -> Result<(), AllocError> {
    let text = reply_of(alloc, op, fault)?;
    out.push_str("refused ")?;
    match text.as_str().strip_prefix(REFUSED) {
        Some(rest) => out.push_str(rest),
        None => out.push_str(text.as_str()),
    }
}

/// What a batch makes of a world.
fn applied(
    alloc: Global,
    world: &World,
    lines: &str,
) -> Result<Result<Applied, EditRefused>, CallFault> {
    match Batch::of(ops_of(alloc, lines)?) {
        Some(batch) => {
            let answer = apply(alloc, world, &batch);
            drop(batch);
            Ok(answer)
        }
        None => Err(CallFault::Bad),
    }
}

/// Tries a batch: the keys that it changes, or nothing where it is refused, and then why is appended. An accepted batch makes the
/// world a new one.
fn try_batch(
    alloc: Global,
    out: &mut String,
    opened: &mut Opened,
    lines: &str,
) -> Result<Option<Items<Key>>, CallFault> {
    match applied(alloc, &opened.world, lines)? {
        Ok(Applied { world, changed }) => {
            drop(mem::replace(opened, Opened { world, stage: None }));
            Ok(Some(changed))
        }
        Err(EditRefused::Op { op, fault }) => {
            push_refused(alloc, out, op, fault)?;
            Ok(None)
        }
        Err(EditRefused::NoMemory) => Err(CallFault::NoMemory),
    }
}

/// Appends the keys that change.
fn push_changed(out: &mut String, keys: &[Key]) -> Result<(), CallFault> {
    if keys.is_empty() {
        out.push_str("nothing changed\n")?;
    }
    push_keys(out, "changed ", keys)
}

/// `apply`: the keys that change, or why the batch is refused.
pub(crate) fn push_apply_call(
    alloc: Global,
    out: &mut String,
    opened: &mut Opened,
    lines: &str,
) -> Result<(), CallFault> {
    match try_batch(alloc, out, opened, lines)? {
        Some(keys) => push_changed(out, keys.as_slice()),
        None => Ok(()),
    }
}

/// `batch`: whether the batch is accepted, or why it is refused.
pub(crate) fn push_batch_call(
    alloc: Global,
    out: &mut String,
    opened: &mut Opened,
    lines: &str,
) -> Result<(), CallFault> {
    if try_batch(alloc, out, opened, lines)?.is_some() {
        out.push_str("accepted\n")?;
    }
    Ok(())
}
