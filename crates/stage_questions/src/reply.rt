//! The replies to batches and publishes.
ghost use Rattle.std.specs.Prelude.{◌≡◌, ◌++◌, OnErr, OnOk, codes};
ghost use Rattle.std.specs.Fmt.{decimal};
ghost use Rattle.std.specs.Io.{StartsWith};
ghost use Rattle.prim_view.specs.Printing.{refusal_name, refusal_text};
ghost use Rattle.stage_questions.specs.Replies.{edit_fault_text, accepted_text, refused_word, refused_op, refused_text, full_text, edit_text, published_text};

use change_core::EditReply;
use edit_batches::EditFault;
use prim_view::refusal_name;
use sdf_values::RefusalKind;
use spec_parts::Refusal;
use std::alloc::{AllocError, Global};

fn push_number(alloc: Global, out: &mut Vec<u8>, number: u64) -> Result<(), AllocError>
    ensures added { OnOk result (out.new.items ≡ out.old.items ++ decimal number) }
    ensures kept { OnErr result (StartsWith out.new.items out.old.items) }
{
    let text = number.to_string(alloc)?;
    out.extend_from_slice(text.as_bytes())
}

/// Appends a number behind a word.
fn push_behind(alloc: Global, out: &mut Vec<u8>, word: &[u8], number: u64) -> Result<(), AllocError>
    ensures added { OnOk result (out.new.items ≡ out.old.items ++ word.now ++ decimal number) }
    ensures kept { OnErr result (StartsWith out.new.items out.old.items) }
{
    out.extend_from_slice(word)?;
    push_number(alloc, out, number)
}

/// Appends the line and the column of a refusal, behind a blank.
fn push_place(alloc: Global, out: &mut Vec<u8>, refusal: Refusal) -> Result<(), AllocError>
    ensures added { OnOk result (out.new.items ≡ out.old.items ++ codes " " ++ decimal refusal.line ++ codes ":" ++ decimal refusal.column) }
    ensures kept { OnErr result (StartsWith out.new.items out.old.items) }
{
    push_behind(alloc, out, b" ", refusal.line)?;
    push_behind(alloc, out, b":", refusal.column)
}

/// Appends the name of a kind of refusal, behind a blank.
fn push_kind(out: &mut Vec<u8>, kind: RefusalKind) -> Result<(), AllocError>
    ensures added { OnOk result (out.new.items ≡ out.old.items ++ codes " " ++ refusal_name kind) }
    ensures kept { OnErr result (StartsWith out.new.items out.old.items) }
{
    out.extend_from_slice(b" ")?;
    out.extend_from_slice(refusal_name(kind).as_bytes())
}

/// Appends a refusal with its place, behind a blank.
fn push_refusal(alloc: Global, out: &mut Vec<u8>, refusal: Refusal) -> Result<(), AllocError>
    ensures added { OnOk result (out.new.items ≡ out.old.items ++ refusal_text refusal) }
    ensures kept { OnErr result (StartsWith out.new.items out.old.items) }
{
    push_kind(out, refusal.kind)?;
    push_place(alloc, out, refusal)
}

/// Appends why an operation is refused.
fn push_fault(alloc: Global, out: &mut Vec<u8>, fault: EditFault) -> Result<(), AllocError>
    ensures added { OnOk result (out.new.items ≡ out.old.items ++ edit_fault_text fault) }
    ensures kept { OnErr result (StartsWith out.new.items out.old.items) }
{
    match fault {
        EditFault::NoLayer => out.extend_from_slice(b"NoLayer"),
        EditFault::LayerThere => out.extend_from_slice(b"LayerThere"),
        EditFault::LayerLimit => out.extend_from_slice(b"LayerLimit"),
        EditFault::RootLayer => out.extend_from_slice(b"RootLayer"),
        EditFault::LayerText(refusal) => {
            out.extend_from_slice(b"LayerText")?;
            push_refusal(alloc, out, refusal)
        }
        EditFault::WrongPath => out.extend_from_slice(b"WrongPath"),
        EditFault::NoParent => out.extend_from_slice(b"NoParent"),
        EditFault::NoSpec => out.extend_from_slice(b"NoSpec"),
        EditFault::SpecThere => out.extend_from_slice(b"SpecThere"),
        EditFault::NoSuchType => out.extend_from_slice(b"NoSuchType"),
        EditFault::ValueShape => out.extend_from_slice(b"ValueShape"),
        EditFault::TimeRange => out.extend_from_slice(b"TimeRange"),
        EditFault::OffsetRange => out.extend_from_slice(b"OffsetRange"),
        EditFault::BadArc => out.extend_from_slice(b"BadArc"),
    }
}

/// Appends the reply to a batch that was accepted.
fn push_accepted(alloc: Global, out: &mut Vec<u8>, number: u64) -> Result<(), AllocError>
    ensures added { OnOk result (out.new.items ≡ out.old.items ++ accepted_text number) }
    ensures kept { OnErr result (StartsWith out.new.items out.old.items) }
{
    out.extend_from_slice(b"batch ")?;
    push_number(alloc, out, number)?;
    out.extend_from_slice(b" accepted\n")
}

#[tactic(auto, unfolding(crate::specs::Replies::refused_word))]
fn refused_word() -> &'static str
    ensures { result.now ≡ refused_word }
{
    "batch refused: op "
}

/// Appends that the operation of this number is refused.
fn push_refused_op(alloc: Global, out: &mut Vec<u8>, op: u32) -> Result<(), AllocError>
    ensures added { OnOk result (out.new.items ≡ out.old.items ++ refused_op op) }
    ensures kept { OnErr result (StartsWith out.new.items out.old.items) }
{
    out.extend_from_slice(refused_word().as_bytes())?;
    push_number(alloc, out, u64::from(op))?;
    out.extend_from_slice(b" ")
}

/// Appends the reply to a batch an operation of which was refused.
fn push_refused(
    alloc: Global,
    out: &mut Vec<u8>,
    op: u32,
    fault: EditFault,
) -> Result<(), AllocError>
    ensures added { OnOk result (out.new.items ≡ out.old.items ++ refused_text op fault) }
    ensures kept { OnErr result (StartsWith out.new.items out.old.items) }
{
    push_refused_op(alloc, out, op)?;
    push_fault(alloc, out, fault)?;
    out.extend_from_slice(b"\n")
}

/// Appends the reply to a batch for which the journal has no room.
fn push_full(out: &mut Vec<u8>) -> Result<(), AllocError>
    ensures added { OnOk result (out.new.items ≡ out.old.items ++ full_text) }
    ensures kept { OnErr result (StartsWith out.new.items out.old.items) }
{
    out.extend_from_slice(b"batch refused: journal full\n")
}

/// Appends the reply to a batch.
///
/// # Errors
///
/// Memory ran out; `out` then has what stood there before, and may have a part of the reply behind it.
pub fn push_edit_reply(
    alloc: Global,
    out: &mut Vec<u8>,
    reply: &EditReply<EditFault>,
) -> Result<(), AllocError>
    ensures added { OnOk result (out.new.items ≡ out.old.items ++ edit_text reply.now) }
    ensures kept { OnErr result (StartsWith out.new.items out.old.items) }
{
    match reply {
        EditReply::Accepted { number } => push_accepted(alloc, out, *number),
        EditReply::Refused { op, fault } => push_refused(alloc, out, *op, *fault),
        EditReply::JournalFull => push_full(out),
    }
}

/// Appends the number of a stage and of the batches that it has.
fn push_version(
    alloc: Global,
    out: &mut Vec<u8>,
    version: u64,
    batches: u64,
) -> Result<(), AllocError>
    ensures added { OnOk result (out.new.items ≡ out.old.items ++ codes "published " ++ decimal version ++ codes ": batches " ++ decimal batches) }
    ensures kept { OnErr result (StartsWith out.new.items out.old.items) }
{
    push_behind(alloc, out, b"published ", version)?;
    push_behind(alloc, out, b": batches ", batches)
}

/// Appends the reply to a publish of so many places, the root among them.
///
/// # Errors
///
/// Memory ran out; `out` then has what stood there before, and may have a part of the reply behind it.
pub fn push_publish_reply(
    alloc: Global,
    out: &mut Vec<u8>,
    version: u64,
    batches: u64,
    places: usize,
) -> Result<(), AllocError>
    ensures added { OnOk result (out.new.items ≡ out.old.items ++ published_text version batches places) }
    ensures kept { OnErr result (StartsWith out.new.items out.old.items) }
{
    push_version(alloc, out, version, batches)?;
    push_behind(alloc, out, b", prims ", places.saturating_sub(1) as u64)?;
    out.extend_from_slice(b"\n")
}
