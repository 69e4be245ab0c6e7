//! Calls on the texts of layers.

use crate::fault::CallFault;
use crate::printing::push_word;
use plain_data::same;
use sdf_specs::Layer;
use std::alloc::{AllocError, Global};
use std::fmt::Write;
use usda_reader::{LayerFault, read_layer};
use usda_writer::write_layer;

/// The first line of a layer's text.
const FIRST_LINE: &str = "#usda 1.0\n";

/// Appends the kind, the line and the column of a refusal.
fn push_fault(out: &mut String, fault: LayerFault) -> Result<(), CallFault> {
    match fault {
        LayerFault::Refused(refusal) => {
            let kind = refusal.kind;
            let line = refusal.line;
            let column = refusal.column;
            Ok(writeln!(out, "{kind:?} {line}:{column}")?)
        }
        LayerFault::NoMemory => Err(CallFault::NoMemory),
    }
}

/// Why a text is no layer, if it is none.
fn fault_of(alloc: Global, bytes: &[u8]) -> Option<LayerFault> {
    match read_layer(alloc, bytes) {
        Ok(layer) => {
            drop(layer);
            None
        }
        Err(fault) => Some(fault),
    }
}

/// `whole`: `Ok` where the text is one of a layer, or the refusal.
pub(crate) fn push_whole_call(
    alloc: Global,
    out: &mut String,
    bytes: &[u8],
) -> Result<(), CallFault> {
    match fault_of(alloc, bytes) {
        Some(fault) => push_fault(out, fault),
        None => Ok(push_word(out, "Ok")?),
    }
}

/// A text behind the first line.
fn below(alloc: Global, text: &[u8]) -> Result<Vec<u8>, AllocError> {
    let mut whole = Vec::from_slice(alloc, FIRST_LINE.as_bytes())?;
    whole.extend_from_slice(text)?;
    Ok(whole)
}

/// `below`: the same of the text behind the first line.
pub(crate) fn push_below_call(
    alloc: Global,
    out: &mut String,
    text: &[u8],
) -> Result<(), CallFault> {
    let whole = below(alloc, text)?;
    push_whole_call(alloc, out, whole.as_slice())
}

/// The canonical text of a layer, below its first line.
fn written_below(alloc: Global, layer: &Layer) -> Result<String, CallFault> {
    let written = write_layer(alloc, layer)?;
    let written = String::from_utf8_lossy(alloc, written.as_slice())?;
    let written = written.as_str();
    let below = written.strip_prefix(FIRST_LINE).unwrap_or(written);
    Ok(String::from_str(alloc, below)?)
}

/// A refusal, as it is told.
fn refused(alloc: Global, fault: LayerFault) -> Result<String, CallFault> {
    let mut told = String::new(alloc);
    push_fault(&mut told, fault)?;
    Ok(told)
}

/// The canonical text, below its first line, of a text behind the first line; or the refusal.
fn rewritten(alloc: Global, text: &[u8]) -> Result<String, CallFault> {
    let whole = below(alloc, text)?;
    match read_layer(alloc, whole.as_slice()) {
        Ok(layer) => {
            let written = written_below(alloc, &layer);
            drop(layer);
            written
        }
        Err(fault) => refused(alloc, fault),
    }
}

/// `canonical`: the canonical text, both it and the text that is given below the first line.
pub(crate) fn push_canonical_call(
    alloc: Global,
    out: &mut String,
    text: &[u8],
) -> Result<(), CallFault> {
    let told = rewritten(alloc, text)?;
    Ok(out.push_str(told.as_str())?)
}

/// `again`: whether the canonical text is its own, or what its canonical text is.
pub(crate) fn push_again_call(
    alloc: Global,
    out: &mut String,
    text: &[u8],
) -> Result<(), CallFault> {
    let once = rewritten(alloc, text)?;
    let twice = rewritten(alloc, once.as_bytes())?;
    if twice == once {
        return Ok(push_word(out, "the same")?);
    }
    Ok(out.push_str(twice.as_str())?)
}

/// Whether bytes are the text of a layer, or why they are none.
fn is_text_of(alloc: Global, layer: &Layer, bytes: &[u8]) -> Result<bool, LayerFault> {
    let back = read_layer(alloc, bytes)?;
    let is_same = same(layer, &back);
    drop(back);
    Ok(is_same)
}

/// Appends whether a layer is what its canonical text says.
fn push_back(alloc: Global, out: &mut String, layer: &Layer) -> Result<(), CallFault> {
    let written = write_layer(alloc, layer)?;
    match is_text_of(alloc, layer, written.as_slice()) {
        Ok(true) => Ok(push_word(out, "the same layer")?),
        Ok(false) => Ok(push_word(out, "another layer")?),
        Err(fault) => push_fault(out, fault),
    }
}

/// `round`: whether the layer of a text is what its canonical text says.
pub(crate) fn push_round_call(
    alloc: Global,
    out: &mut String,
    bytes: &[u8],
) -> Result<(), CallFault> {
    match read_layer(alloc, bytes) {
        Ok(layer) => {
            let told = push_back(alloc, out, &layer);
            drop(layer);
            told
        }
        Err(fault) => push_fault(out, fault),
    }
}

/// The line and the column of the byte behind the last one.
fn end_of(bytes: &[u8]) -> (u64, u64) {
    let mut line = 1u64;
    let mut column = 1u64;
    for byte in bytes {
        if *byte == b'\n' {
            line = line.saturating_add(1);
            column = 1;
        } else {
            column = column.saturating_add(1);
        }
    }
    (line, column)
}

/// Whether bytes are read, or refused at one of them or behind the last one.
fn is_told_inside(alloc: Global, bytes: &[u8]) -> Result<bool, CallFault> {
    let (line, column) = end_of(bytes);
    match fault_of(alloc, bytes) {
        None => Ok(true),
        Some(LayerFault::Refused(at)) => {
            Ok(at.line < line || at.line == line && at.column <= column)
        }
        Some(LayerFault::NoMemory) => Err(CallFault::NoMemory),
    }
}

/// `fronts`: how many fronts the text behind the first line has, shorter than itself, and those that are refused outside of them.
pub(crate) fn push_fronts_call(
    alloc: Global,
    out: &mut String,
    text: &[u8],
) -> Result<(), CallFault> {
    let whole = below(alloc, text)?;
    let mut front = Vec::new(alloc);
    for byte in whole.as_slice() {
        if !is_told_inside(alloc, front.as_slice())? {
            writeln!(out, "outside {}", front.len())?;
        }
        front.push(*byte)?;
    }
    Ok(writeln!(out, "{} fronts", whole.len())?)
}
