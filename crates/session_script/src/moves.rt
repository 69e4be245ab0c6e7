//! What comes of a line.

ghost use Rattle.std.specs.Prelude.{◌≡◌, IfOk, OnErr, None, Some};
ghost use Rattle.session_script.specs.Reading.{asked, move};
ghost use Rattle.session_script.specs.Moves.{IsMoved};
ghost use Rattle.script_lines.specs.declared.line.Line.TheVariants as Line;

use crate::steps::Step;
use edit_batches::{Batch, Op};
use plain_data::Items;
use script_lines::Line;
use std::alloc::{AllocError, Global};

/// A batch has fewer operations.
const MAX_OPS: usize = 4_294_967_296;

/// What comes of a line.
#[derive(Drop)]
pub enum Moved {
    /// The script goes on.
    GoesOn,
    /// The script asks for a step.
    Asks(Step),
    /// The line may not stand here.
    Refuses,
}

/// Ends the batch that is open. 2^32 operations, which no script has, are told as want of memory.
fn commit(batch: &mut Option<Items<Op>>) -> Result<Moved, AllocError>
    ensures moves { IfOk result (λ m. IsMoved m batch.new batch.old (move batch.old (Some Line.Commit))) }
    ensures err { OnErr result (batch.new ≡ batch.old) }
{
    let Some(ops) = batch else {
        return Ok(Moved::Refuses);
    };
    if ops.len() >= MAX_OPS {
        return Err(AllocError);
    }
    let Some(ops) = batch.take() else {
        return Ok(Moved::Refuses);
    };
    match Batch::of(ops) {
        Some(batch) => Ok(Moved::Asks(Step::Batch(batch))),
        None => Err(AllocError),
    }
}

/// Begins a batch.
fn begin(alloc: Global, batch: &mut Option<Items<Op>>) -> Moved
    ensures { IsMoved result batch.new batch.old (move batch.old (Some Line.Begin)) }
{
    if batch.is_some() {
        return Moved::Refuses;
    }
    *batch = Some(Items::new(alloc));
    Moved::GoesOn
}

/// Adds an operation to the batch that is open.
fn change(batch: &mut Option<Items<Op>>, op: Op) -> Result<Moved, AllocError>
    ensures moves { IfOk result (λ m. IsMoved m batch.new batch.old (move batch.old (Some (Line.Change op)))) }
    ensures err { OnErr result (batch.new ≡ batch.old) }
{
    match batch {
        Some(ops) => {
            ops.push(op)?;
            Ok(Moved::GoesOn)
        }
        None => {
            drop(op);
            Ok(Moved::Refuses)
        }
    }
}

/// Asks for a step, where no batch is open.
fn ask(batch: &Option<Items<Op>>, step: Step) -> Moved
    ensures { IsMoved result batch.now batch.now (asked batch.now step) }
{
    if batch.is_some() {
        drop(step);
        Moved::Refuses
    } else {
        Moved::Asks(step)
    }
}

/// Takes a line, behind the operations of the batch that is open. After want of memory nothing is taken.
pub fn take_line(
    alloc: Global,
    batch: &mut Option<Items<Op>>,
    line: Line,
) -> Result<Moved, AllocError>
    ensures moves { IfOk result (λ m. IsMoved m batch.new batch.old (move batch.old (Some line))) }
    ensures err { OnErr result (batch.new ≡ batch.old) }
{
    match line {
        Line::Blank => Ok(Moved::GoesOn),
        Line::Begin => Ok(begin(alloc, batch)),
        Line::Change(op) => change(batch, op),
        Line::Commit => commit(batch),
        Line::Open(id) => Ok(ask(batch, Step::OpenLayer(id))),
        Line::Publish => Ok(ask(batch, Step::Publish)),
        Line::Ask(question) => Ok(ask(batch, Step::Ask(question))),
    }
}
