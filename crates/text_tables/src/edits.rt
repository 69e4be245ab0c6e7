//! Calls on edits of lists, of which each character is an item.

use crate::fault::CallFault;
use crate::printing::push_word;
use list_ops::{ListOp, fold, fold_ordered, reorder, reorder_ordered};
use plain_data::Items;
use std::alloc::{AllocError, Global};
use std::mem;

/// The items of a text: a number for each byte.
fn list_of(alloc: Global, text: &str) -> Result<Vec<u64>, AllocError> {
    let mut list = Vec::new(alloc);
    for byte in text.as_bytes() {
        list.push(u64::from(*byte))?;
    }
    Ok(list)
}

fn items_of(alloc: Global, text: &str) -> Result<Items<u64>, AllocError> {
    Ok(Items::from_vec(list_of(alloc, text)?))
}

/// Appends the items of a list.
fn push_list(out: &mut String, list: &[u64]) -> Result<(), CallFault> {
    for item in list {
        match u8::try_from(*item) {
            Ok(byte) => out.push(char::from(byte))?,
            Err(_) => return Err(CallFault::Bad),
        }
    }
    Ok(push_word(out, "")?)
}

/// A line of a text, by its number from 0; empty where there is none.
fn line_at(text: &str, number: usize) -> &str {
    let mut lines = text.lines();
    for _line in 0..number {
        let _skipped = lines.next();
    }
    lines.next().unwrap_or("")
}

/// What an opinion deletes, adds, prepends, appends and orders, a line each.
fn five_edits(alloc: Global, text: &str) -> Result<ListOp<u64>, AllocError> {
    Ok(ListOp {
        explicit: None,
        deleted: items_of(alloc, line_at(text, 0))?,
        added: items_of(alloc, line_at(text, 1))?,
        prepended: items_of(alloc, line_at(text, 2))?,
        appended: items_of(alloc, line_at(text, 3))?,
        ordered: items_of(alloc, line_at(text, 4))?,
    })
}

/// What an opinion makes of a list, by scans.
fn scanned(alloc: Global, op: &ListOp<u64>, text: &str) -> Result<Vec<u64>, AllocError> {
    let mut list = list_of(alloc, text)?;
    op.apply(&mut list)?;
    Ok(list)
}

/// The same by sets.
fn sorted(alloc: Global, op: &ListOp<u64>, text: &str) -> Result<Vec<u64>, AllocError> {
    let mut list = list_of(alloc, text)?;
    op.apply_ordered(&mut list)?;
    Ok(list)
}

/// Appends what an opinion makes of a list, by scans and by sets.
fn push_applied(
    alloc: Global,
    out: &mut String,
    op: &ListOp<u64>,
    list: &str,
) -> Result<(), CallFault> {
    push_list(out, scanned(alloc, op, list)?.as_slice())?;
    push_list(out, sorted(alloc, op, list)?.as_slice())
}

/// `opinion`: of six lines what an opinion deletes, adds, prepends, appends and orders, and a list; what it makes of the list, by scans and by sets.
pub(crate) fn push_opinion_call(
    alloc: Global,
    out: &mut String,
    text: &str,
) -> Result<(), CallFault> {
    let op = five_edits(alloc, text)?;
    let told = push_applied(alloc, out, &op, line_at(text, 5));
    drop(op);
    told
}

/// Sets items, whatever they were.
fn set(place: &mut Items<u64>, items: Items<u64>) {
    drop(mem::replace(place, items));
}

/// Sets what a line prepends, appends or orders.
fn set_placed(alloc: Global, op: &mut ListOp<u64>, line: &str) -> Result<(), AllocError> {
    if let Some(text) = line.strip_prefix("<") {
        set(&mut op.prepended, items_of(alloc, text)?);
    } else if let Some(text) = line.strip_prefix(">") {
        set(&mut op.appended, items_of(alloc, text)?);
    } else if let Some(text) = line.strip_prefix("%") {
        set(&mut op.ordered, items_of(alloc, text)?);
    }
    Ok(())
}

/// Sets what a line says: its first character tells what the others are.
fn set_edit(alloc: Global, op: &mut ListOp<u64>, line: &str) -> Result<(), AllocError> {
    if let Some(text) = line.strip_prefix("=") {
        let items = items_of(alloc, text)?;
        drop(mem::replace(&mut op.explicit, Some(items)));
    } else if let Some(text) = line.strip_prefix("-") {
        set(&mut op.deleted, items_of(alloc, text)?);
    } else if let Some(text) = line.strip_prefix("+") {
        set(&mut op.added, items_of(alloc, text)?);
    } else {
        set_placed(alloc, op, line)?;
    }
    Ok(())
}

/// The opinion that a line stands for.
fn opinion_of(alloc: Global, line: &str) -> Result<ListOp<u64>, AllocError> {
    let mut op = ListOp::new(alloc);
    match set_edit(alloc, &mut op, line) {
        Ok(()) => Ok(op),
        Err(fault) => {
            drop(op);
            Err(fault)
        }
    }
}

/// The opinions of a text, a line each.
fn opinions_of(alloc: Global, text: &str) -> Result<Vec<ListOp<u64>>, AllocError> {
    let mut ops = Vec::new(alloc);
    for line in text.lines() {
        ops.push(opinion_of(alloc, line)?)?;
    }
    Ok(ops)
}

/// Appends what opinions make of the empty list, by scans and by sets.
fn push_folded(alloc: Global, out: &mut String, ops: &[ListOp<u64>]) -> Result<(), CallFault> {
    push_list(out, fold(alloc, ops)?.as_slice())?;
    push_list(out, fold_ordered(alloc, ops)?.as_slice())
}

/// `opinions`: what opinions, a line each and the weakest first, make of the empty list, by scans and by sets.
pub(crate) fn push_opinions_call(
    alloc: Global,
    out: &mut String,
    text: &str,
) -> Result<(), CallFault> {
    let ops = opinions_of(alloc, text)?;
    push_folded(alloc, out, ops.as_slice())
}

/// `reordered ORDER`: the list of the text in an order, by scans and by sets.
pub(crate) fn push_reordered_call(
    alloc: Global,
    out: &mut String,
    words: &str,
    text: &str,
) -> Result<(), CallFault> {
    let order = list_of(alloc, words)?;
    let mut scanned = list_of(alloc, text)?;
    reorder(&mut scanned, order.as_slice())?;
    push_list(out, scanned.as_slice())?;
    let mut sorted = list_of(alloc, text)?;
    reorder_ordered(&mut sorted, order.as_slice())?;
    push_list(out, sorted.as_slice())
}
