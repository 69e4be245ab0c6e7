//! The layer that a text says, or its first refusal.
ghost use Rattle.std.specs.Prelude.{◌≡◌, length, Some, None, Err};
ghost use Rattle.sdf_specs.specs.Layers.{LayerTable};
ghost use Rattle.spec_parts.specs.declared.items.Refusal.{Refusal as SaidRefusal};
ghost use Rattle.usda_drafts.specs.Drafts.{blank};
ghost use Rattle.usda_drafts.specs.Refusals.{Does};
ghost use Rattle.usda_grammar.specs.Table.{layer};
ghost use Rattle.usda_words.specs.Words.{words_of};
ghost use Rattle.usda_reader.specs.Checks.{first_check};
ghost use Rattle.usda_reader.specs.Reading.{run_from, draft_of, layer_in, read, Gives, Reads, IsRead, IsRefused};
ghost use Rattle.usda_drafts.specs.declared.fault.Refused.{Refused};
ghost use Rattle.usda_reader.specs.Texts.{IsText, IsRefusedFirst, refusal_at};

use crate::checks::first_check;
use crate::fault::{LayerFault, placed, refusal_at};
use crate::words::take_words;
use plain_data::Items;
use sdf_specs::Layer;
use std::alloc::Global;
use usda_drafts::{ActFault, Draft};
use usda_grammar::layer;
use usda_machine::push_front;
use usda_words::Words;

/// Takes all words of a text into a draft.
fn read_words(alloc: Global, bytes: &[u8], draft: &mut Draft) -> Result<(), ActFault>
    requires { first_check bytes.now ≡ None }
    ensures { Does result draft.new (run_from (length bytes.now) layer draft.old (words_of bytes.now)) }
{
    let Ok(mut words) = Words::new(bytes) else {
        unreachable!()
    };
    let mut stack = Items::new(alloc);
    push_front(&mut stack, layer())?;
    take_words(&mut words, &mut stack, draft, bytes.len())
}

/// Takes the layer of a text that passes the first checks out of a blank draft.
fn read_into(alloc: Global, bytes: &[u8], draft: &mut Draft) -> Result<Layer, LayerFault>
    requires passed { first_check bytes.now ≡ None }
    requires begun { draft.old ≡ blank }
    ensures { Gives result (layer_in bytes.now (draft_of bytes.now)) }
{
    match read_words(alloc, bytes, draft) {
        Ok(()) => Ok(draft.take_layer(alloc)?),
        Err(fault) => Err(placed(bytes, fault)),
    }
}

/// The layer of a text that passes the first checks.
fn read_passed(alloc: Global, bytes: &[u8]) -> Result<Layer, LayerFault>
    requires { first_check bytes.now ≡ None }
    ensures { Gives result (layer_in bytes.now (draft_of bytes.now)) }
{
    let mut draft = Draft::blank(alloc)?;
    let found = read_into(alloc, bytes, &mut draft);
    drop(draft);
    found
}

/// The layer or the first refusal, as the function of the bytes that they are.
fn read(alloc: Global, bytes: &[u8]) -> Result<Layer, LayerFault>
    ensures answer { Gives result (read bytes.now) }
    ensures checked { (r : Refused) → first_check bytes.now ≡ Some r → result ≡ Err (LayerFault.Refused (refusal_at bytes.now r)) }
{
    match first_check(bytes) {
        Some(refused) => Err(LayerFault::Refused(refusal_at(bytes, refused))),
        None => read_passed(alloc, bytes),
    }
}

/// The layer that a text of the whole format says. `Refused` has the first reason why there is none, with its line and column: the
/// kind and the place are those of the rules, whatever words come later; size, other formats, UTF-8 and the first line are judged
/// over all bytes before the first word.
pub fn read_layer(alloc: Global, bytes: &[u8]) -> Result<Layer, LayerFault>
    // What is read is what the text says, and what is told is the first refusal.
    ensures found { Reads result bytes.now }
    // What a text says is read, unless memory runs out.
    ensures only { (layer : LayerTable) → IsText bytes.now layer → IsRead result layer }
    // The first refusal of a text is told, unless memory runs out.
    ensures exact { (refusal : SaidRefusal) → IsRefusedFirst bytes.now refusal → IsRefused result refusal }
    // What is judged before the first word is told before memory is asked for.
    ensures checked { (r : Refused) → first_check bytes.now ≡ Some r → result ≡ Err (LayerFault.Refused (refusal_at bytes.now r)) }
{
    read(alloc, bytes)
}
