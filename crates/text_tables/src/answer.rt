//! The answer to a call.

use crate::edits::{push_opinion_call, push_opinions_call, push_reordered_call};
use crate::fault::CallFault;
use crate::layers::{
    push_again_call, push_below_call, push_canonical_call, push_fronts_call, push_round_call,
    push_whole_call,
};
use crate::lists::{
    push_edit_call, push_edits_call, push_from_call, push_offset_call, push_paths_call,
    push_references_call, push_sublayers_call, push_texts_call, push_token_call,
};
use crate::names::{push_anchored_call, push_compared_call, push_kind_call, push_name_call};
use crate::paths::{
    push_append_call, push_looks_call, push_move_call, push_ordered_call, push_path_call,
    push_prefix_call, push_sort_call, push_up_call,
};
use crate::table::Row;
use crate::tokens::{
    push_meaning_call, push_numeral_call, push_place_call, push_places_call, push_tokens_call,
};
use crate::values::{
    push_conforms_call, push_mapped_call, push_number_call, push_print_call, push_shaped_call,
    push_steps_call, push_then_call, push_time_call, push_type_call, push_typed_call,
    push_value_call,
};
use crate::words::{first_word, text_of};
use std::alloc::{AllocError, Global};
use usda_values::Shape;

/// A call: its first word, those behind it, and its text.
#[derive(Clone, Copy)]
struct Call<'r> {
    word: &'r str,
    words: &'r str,
    text: &'r str,
}

/// Values that are read with a shape.
fn push_shapes(alloc: Global, out: &mut String, call: Call<'_>) -> Result<(), CallFault> {
    let Call { word, words, text } = call;
    match word {
        "typed" => push_typed_call(alloc, out, words, text),
        "untyped" => push_value_call(alloc, out, Shape::Untyped, text),
        "metadata" => push_value_call(alloc, out, Shape::Metadata, text),
        _ => Err(CallFault::Bad),
    }
}

/// Calls on types and values, and those of `push_shapes`.
fn push_values(alloc: Global, out: &mut String, call: Call<'_>) -> Result<(), CallFault> {
    let Call { word, words, text } = call;
    match word {
        "type" => push_type_call(out, words, text),
        "conforms" => push_conforms_call(alloc, out, words, text),
        "print" => push_print_call(alloc, out, words, text),
        "shaped" => push_shaped_call(alloc, out, words, text),
        "steps" => push_steps_call(alloc, out, words, text),
        _ => push_shapes(alloc, out, call),
    }
}

/// Calls on numbers, times and offsets, and those of `push_values`.
fn push_numbers(alloc: Global, out: &mut String, call: Call<'_>) -> Result<(), CallFault> {
    let Call { word, words, text } = call;
    match word {
        "number" => push_number_call(alloc, out, text),
        "time" => push_time_call(alloc, out, text),
        "then" => push_then_call(out, words),
        "mapped" => push_mapped_call(alloc, out, words, text),
        _ => push_values(alloc, out, call),
    }
}

/// Calls on names, and those of `push_numbers`.
fn push_names(alloc: Global, out: &mut String, call: Call<'_>) -> Result<(), CallFault> {
    let Call { word, words, text } = call;
    match word {
        "name" => push_name_call(alloc, out, text),
        "anchored" => push_anchored_call(alloc, out, words, text),
        "kind" => push_kind_call(alloc, out, text),
        "compared" => push_compared_call(alloc, out, words, text),
        _ => push_numbers(alloc, out, call),
    }
}

/// Calls that make a path of another one, and those of `push_names`.
fn push_made_paths(alloc: Global, out: &mut String, call: Call<'_>) -> Result<(), CallFault> {
    let Call { word, words, text } = call;
    match word {
        "append" => push_append_call(alloc, out, words, text),
        "move" => push_move_call(alloc, out, words, text),
        "ordered" => push_ordered_call(alloc, out, text),
        "prefix" => push_prefix_call(alloc, out, words, text),
        "up" => push_up_call(alloc, out, words, text),
        _ => push_names(alloc, out, call),
    }
}

/// Calls on paths, and those of `push_made_paths`.
fn push_paths(alloc: Global, out: &mut String, call: Call<'_>) -> Result<(), CallFault> {
    let Call { word, words, text } = call;
    match word {
        "path" => push_path_call(alloc, out, text),
        "looks" => push_looks_call(alloc, out, text),
        "sort" => push_sort_call(alloc, out, words, text),
        "from" | "is_path" | "target" => push_from_call(alloc, out, word, words, text),
        "token" => push_token_call(alloc, out, words, text),
        _ => push_made_paths(alloc, out, call),
    }
}

/// Calls on the edits that a layer says, and those of `push_paths`.
fn push_edits(alloc: Global, out: &mut String, call: Call<'_>) -> Result<(), CallFault> {
    let Call { word, words, text } = call;
    match word {
        "edit" => push_edit_call(out, words),
        "edits" => push_edits_call(out, words),
        "opinion" => push_opinion_call(alloc, out, text),
        "opinions" => push_opinions_call(alloc, out, text),
        "reordered" => push_reordered_call(alloc, out, words, text),
        _ => push_paths(alloc, out, call),
    }
}

/// Calls on what stands in lists, and those of `push_edits`.
fn push_lists(alloc: Global, out: &mut String, call: Call<'_>) -> Result<(), CallFault> {
    let Call { word, words, text } = call;
    match word {
        "offset" => push_offset_call(out, words),
        "references" => push_references_call(alloc, out, words, text),
        "texts" => push_texts_call(alloc, out, text),
        "paths" => push_paths_call(alloc, out, text),
        "sublayers" => push_sublayers_call(alloc, out, text),
        _ => push_edits(alloc, out, call),
    }
}

/// Calls on what a token means, and those of `push_lists`.
fn push_meanings(alloc: Global, out: &mut String, call: Call<'_>) -> Result<(), CallFault> {
    let Call { word, words, text } = call;
    match word {
        "meaning" => push_meaning_call(alloc, out, words, text),
        "numeral" => push_numeral_call(alloc, out, text),
        _ => push_lists(alloc, out, call),
    }
}

/// Calls on the tokens of bytes, and those of `push_meanings`, on text.
fn push_tokens(alloc: Global, out: &mut String, row: &Row) -> Result<(), CallFault> {
    let (word, words) = first_word(row.call.as_str());
    let bytes = row.given.as_slice();
    match word {
        "tokens" => push_tokens_call(out, bytes),
        "places" => push_places_call(out, words, bytes),
        "place" => push_place_call(out, words, bytes),
        _ => {
            let text = text_of(row)?;
            push_meanings(alloc, out, Call { word, words, text })
        }
    }
}

/// Calls on the bytes of a layer, and those of `push_tokens`.
fn push_call(alloc: Global, out: &mut String, row: &Row) -> Result<(), CallFault> {
    let (word, _words) = first_word(row.call.as_str());
    let bytes = row.given.as_slice();
    match word {
        "whole" => push_whole_call(alloc, out, bytes),
        "below" => push_below_call(alloc, out, bytes),
        "canonical" => push_canonical_call(alloc, out, bytes),
        "again" => push_again_call(alloc, out, bytes),
        "fronts" => push_fronts_call(alloc, out, bytes),
        "round" => push_round_call(alloc, out, bytes),
        _ => push_tokens(alloc, out, row),
    }
}

/// The lines with which a call is answered, each with its line feed.
pub(crate) fn answer(alloc: Global, row: &Row) -> Result<String, AllocError> {
    let mut out = String::new(alloc);
    match push_call(alloc, &mut out, row) {
        Ok(()) => Ok(out),
        Err(CallFault::Bad) => String::from_str(alloc, "no such call\n"),
        Err(CallFault::NoMemory) => Err(AllocError),
    }
}
