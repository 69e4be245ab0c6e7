//! Values and dictionaries from tokens.
ghost use Rattle.std.specs.Prelude.{◌≡◌};
ghost use Rattle.usda_values.specs.Drafts.{draft_of};
ghost use Rattle.usda_values.specs.Reads.{AnswersRead, AnswersStep, kind_of_fault, place_of_fault};

use crate::draft::ValueDraft;
use crate::fault::{PartFault, ValueFault};
use crate::level::{Place, awaits_value};
use crate::shape::Shape;
use sdf_values::{RefusalKind, Value};
use std::alloc::Global;
use usda_lexer::{LexFault, Tokens};

/// Reads one value, of which nothing is known. After a refusal the tokens stand at the one that was refused, and after want of
/// memory they are of no use.
///
/// A number that is too long is `NumberTooLong` where a value may stand, and `Syntax` elsewhere, as behind a member.
pub fn read_value(alloc: Global, tokens: &mut Tokens<'_>) -> Result<Value, ValueFault>
    ensures answer { AnswersRead result (draft_of Place.Value Shape.Untyped) tokens.old tokens.new }
    ensures source { tokens.new.source ≡ tokens.old.source }
{
    read(ValueDraft::new(alloc, Shape::Untyped), tokens)
}

/// Reads one value of which this is expected. After a refusal the tokens stand at the one that was refused, and after want of
/// memory they are of no use.
pub fn read_shaped(
    alloc: Global,
    shape: Shape,
    tokens: &mut Tokens<'_>,
) -> Result<Value, ValueFault>
    ensures answer { AnswersRead result (draft_of Place.Value shape) tokens.old tokens.new }
    ensures source { tokens.new.source ≡ tokens.old.source }
{
    read(ValueDraft::new(alloc, shape), tokens)
}

/// Reads a dictionary. After a refusal the tokens stand at the one that was refused, and after want of memory they are of no use.
pub fn read_dict(alloc: Global, tokens: &mut Tokens<'_>) -> Result<Value, ValueFault>
    ensures answer { AnswersRead result (draft_of Place.Dictionary Shape.Dictionary) tokens.old tokens.new }
    ensures source { tokens.new.source ≡ tokens.old.source }
{
    read(ValueDraft::dictionary(alloc), tokens)
}

/// The value that the tokens complete.
fn read(draft: ValueDraft, tokens: &mut Tokens<'_>) -> Result<Value, ValueFault>
    ensures answer { AnswersRead result draft tokens.old tokens.new }
    ensures source { tokens.new.source ≡ tokens.old.source }
{
    let mut draft = draft;
    loop {
        match step(&mut draft, tokens) {
            Ok(false) => {}
            Ok(true) => return Ok(draft.into_value()),
            Err(fault) => {
                drop(draft);
                return Err(fault);
            }
        }
    }
}

/// One token more; whether the value is complete.
fn step(draft: &mut ValueDraft, tokens: &mut Tokens<'_>) -> Result<bool, ValueFault>
    ensures answer { AnswersStep result draft.old draft.new tokens.old tokens.new }
    ensures source { tokens.new.source ≡ tokens.old.source }
{
    match tokens.peek() {
        Ok(Some(token)) => match draft.give(token.kind, token.text) {
            Ok(()) => {
                let _taken = tokens.next();
                Ok(draft.is_complete())
            }
            Err(PartFault::Refused(kind)) => Err(ValueFault::Refused {
                kind,
                at: token.start,
            }),
            Err(PartFault::NoMemory) => Err(ValueFault::NoMemory),
        },
        Ok(None) => Err(ValueFault::Refused {
            kind: RefusalKind::Syntax,
            at: tokens.source_len(),
        }),
        Err(fault) => Err(fault_of(fault, draft.place)),
    }
}

/// Why there is no further token, where a draft has reached this place. A number that is too long is `Syntax` where no number
/// may stand.
fn fault_of(fault: LexFault, place: Place) -> ValueFault
    ensures { result ≡ ValueFault.Refused (kind_of_fault fault place) (place_of_fault fault) }
{
    match fault {
        LexFault::NumberTooLong { at } => ValueFault::Refused {
            kind: if awaits_value(place) {
                RefusalKind::NumberTooLong
            } else {
                RefusalKind::Syntax
            },
            at,
        },
        LexFault::NotUtf8 { at } => ValueFault::Refused {
            kind: RefusalKind::NotUtf8,
            at,
        },
        LexFault::Unclosed { at } | LexFault::BadByte { at } => ValueFault::Refused {
            kind: RefusalKind::Syntax,
            at,
        },
    }
}
