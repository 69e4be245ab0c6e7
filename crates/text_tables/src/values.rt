//! Calls on numbers, times, offsets, types and values.

use crate::fault::CallFault;
use crate::printing::{is_copied, push_word};
use crate::words::{first_word, type_of};
use plain_data::{Items, Text};
use sdf_values::{
    Decimal, LayerOffset, NumberFault, OffsetRange, TimeCode, TimeRange, TypeName, Value, conforms,
    print_value,
};
use std::alloc::Global;
use std::fmt::Write;
use usda_lexer::Tokens;
use usda_lists::{offset_key, set_offset};
use usda_values::{Shape, ValueFault, read_dict, read_shaped, read_value, take_shape};

/// `number`: the decimal that the text is, or why it is none.
pub(crate) fn push_number_call(
    alloc: Global,
    out: &mut String,
    text: &str,
) -> Result<(), CallFault> {
    match Decimal::parse(text) {
        Ok(number) => Ok(push_word(out, number.print(alloc)?.as_str())?),
        Err(NumberFault::BadNumber { at }) => Ok(writeln!(out, "bad at {at}")?),
        Err(NumberFault::NumberTooLong) => Ok(push_word(out, "too long")?),
    }
}

/// The time that a text is, if there is one.
fn time_of(text: &str) -> Result<Option<TimeCode>, CallFault> {
    match Decimal::parse(text) {
        Ok(number) => Ok(TimeCode::of(number).ok()),
        Err(_) => Err(CallFault::Bad),
    }
}

/// `time`: the time that the text is, or `none`.
pub(crate) fn push_time_call(alloc: Global, out: &mut String, text: &str) -> Result<(), CallFault> {
    match time_of(text)? {
        Some(time) => Ok(push_word(out, time.print(alloc)?.as_str())?),
        None => Ok(push_word(out, "none")?),
    }
}

/// The offset that two words are: an offset and a scale.
fn offset_of(offset: &str, scale: &str) -> Result<LayerOffset, CallFault> {
    let moved = set_offset(offset_key("offset")?, offset, LayerOffset::identity())?;
    Ok(set_offset(offset_key("scale")?, scale, moved)?)
}

/// `then OFFSET SCALE OFFSET SCALE`: the first offset and scale and then the second ones, or `out`.
pub(crate) fn push_then_call(out: &mut String, words: &str) -> Result<(), CallFault> {
    let (offset, words) = first_word(words);
    let (scale, words) = first_word(words);
    let (outer_offset, words) = first_word(words);
    let (outer_scale, _words) = first_word(words);
    let inner = offset_of(offset, scale)?;
    let outer = offset_of(outer_offset, outer_scale)?;
    match inner.then(outer) {
        Ok(both) => Ok(writeln!(out, "{} {}", both.offset, both.scale)?),
        Err(OffsetRange) => Ok(push_word(out, "out")?),
    }
}

/// `mapped OFFSET SCALE`: the time that the text is, by an offset and a scale, or `out`; `none` where the text is no time.
pub(crate) fn push_mapped_call(
    alloc: Global,
    out: &mut String,
    words: &str,
    text: &str,
) -> Result<(), CallFault> {
    let (offset, words) = first_word(words);
    let (scale, _words) = first_word(words);
    let by = offset_of(offset, scale)?;
    let Some(time) = time_of(text)? else {
        return Ok(push_word(out, "none")?);
    };
    match by.map(time) {
        Ok(time) => Ok(push_word(out, time.print(alloc)?.as_str())?),
        Err(TimeRange) => Ok(push_word(out, "out")?),
    }
}

/// The tokens of a text.
fn tokens_of(text: &str) -> Result<Tokens<'_>, CallFault> {
    match Tokens::new(text.as_bytes()) {
        Ok(tokens) => Ok(tokens),
        Err(_) => Err(CallFault::Bad),
    }
}

/// The value that the whole of a text is, as one of which nothing is known.
fn read_whole(alloc: Global, text: &str) -> Result<Value, CallFault> {
    let mut tokens = tokens_of(text)?;
    let value = read_value(alloc, &mut tokens)?;
    match tokens.next() {
        Ok(None) => Ok(value),
        _ => Err(CallFault::Bad),
    }
}

/// The whole number that a text is.
fn whole_value(text: &str) -> Result<Value, CallFault> {
    match text.parse::<i128>() {
        Ok(whole) => Ok(Value::Whole(whole)),
        Err(_) => Err(CallFault::Bad),
    }
}

/// The time that a text is.
fn time_value(text: &str) -> Result<Value, CallFault> {
    match time_of(text)? {
        Some(time) => Ok(Value::Time(time)),
        None => Err(CallFault::Bad),
    }
}

/// A value of a kind that holds a text.
fn text_value(kind: &str, text: Text) -> Value {
    match kind {
        "text" => Value::Text(text),
        "asset" => Value::Asset(text),
        "path" => Value::PathText(text),
        _ => Value::Word(text),
    }
}

/// The value that a text says by its first word, or else as one of which nothing is known.
fn one_value(alloc: Global, said: &str) -> Result<Value, CallFault> {
    let (kind, text) = first_word(said);
    match kind {
        "bool" => Ok(Value::Bool(text == "true")),
        "whole" => whole_value(text),
        "time" => time_value(text),
        "text" | "asset" | "path" | "word" => Ok(text_value(kind, Text::of(alloc, text)?)),
        "()" => Ok(Value::Tuple(Items::new(alloc))),
        _ => read_whole(alloc, said),
    }
}

/// The same, or an array of a value and `None`.
fn value_of(alloc: Global, said: &str) -> Result<Value, CallFault> {
    let Some(first) = said.strip_prefix("array ") else {
        return one_value(alloc, said);
    };
    let mut items = Items::new(alloc);
    items.push(one_value(alloc, first)?)?;
    items.push(Value::Block)?;
    Ok(Value::Array(items))
}

/// Appends the canonical text of a value.
fn push_printed(
    alloc: Global,
    out: &mut String,
    value: &Value,
    indent: usize,
) -> Result<(), CallFault> {
    let text = print_value(alloc, value, indent)?;
    Ok(push_word(out, text.as_str())?)
}

/// Appends the canonical text of a value, whether its copy is another one, and whether it is `None`.
fn push_looks(
    alloc: Global,
    out: &mut String,
    value: &Value,
    indent: usize,
) -> Result<(), CallFault> {
    push_printed(alloc, out, value, indent)?;
    if !is_copied(value)? {
        push_word(out, "its copy is another value")?;
    }
    if *value == Value::Block {
        push_word(out, "it is None")?;
    }
    Ok(())
}

/// `print INDENT`: the canonical text of a value; then whether its copy is another value, and whether it is `None`.
pub(crate) fn push_print_call(
    alloc: Global,
    out: &mut String,
    words: &str,
    said: &str,
) -> Result<(), CallFault> {
    let Ok(indent) = words.parse::<usize>() else {
        return Err(CallFault::Bad);
    };
    let value = value_of(alloc, said)?;
    push_looks(alloc, out, &value, indent)
}

/// `conforms TYPE`: whether the type takes each of the values, a line each.
pub(crate) fn push_conforms_call(
    alloc: Global,
    out: &mut String,
    words: &str,
    text: &str,
) -> Result<(), CallFault> {
    let ty = type_of(words)?;
    for line in text.lines() {
        let value = value_of(alloc, line)?;
        push_word(out, if conforms(ty, &value) { "yes" } else { "no" })?;
    }
    Ok(())
}

/// `type one` and `type many`: the type that the text is the name of, or that of arrays of them; or `none`.
pub(crate) fn push_type_call(out: &mut String, words: &str, text: &str) -> Result<(), CallFault> {
    match TypeName::find(text, words == "many") {
        Some(ty) => {
            out.push_str(ty.element.name())?;
            Ok(push_word(out, if ty.array { "[]" } else { "" })?)
        }
        None => Ok(push_word(out, "none")?),
    }
}

/// Appends a value that was read, or the kind and the place of its refusal.
fn push_read(
    alloc: Global,
    out: &mut String,
    read: Result<Value, ValueFault>,
) -> Result<(), CallFault> {
    match read {
        Ok(value) => push_printed(alloc, out, &value, 0),
        Err(ValueFault::Refused { kind, at }) => Ok(writeln!(out, "{kind:?} {at}")?),
        Err(ValueFault::NoMemory) => Err(CallFault::NoMemory),
    }
}

/// `untyped` and `metadata`: the value that the text begins with, or why it is refused.
pub(crate) fn push_value_call(
    alloc: Global,
    out: &mut String,
    shape: Shape,
    text: &str,
) -> Result<(), CallFault> {
    let mut tokens = tokens_of(text)?;
    let read = read_shaped(alloc, shape, &mut tokens);
    push_read(alloc, out, read)
}

/// `typed TYPE`: the same of the value of a type that the text begins with.
pub(crate) fn push_typed_call(
    alloc: Global,
    out: &mut String,
    words: &str,
    text: &str,
) -> Result<(), CallFault> {
    let ty = type_of(words)?;
    push_value_call(alloc, out, Shape::Typed(ty), text)
}

/// `shaped TYPE`: the value that the text begins with, read without a type and then given one.
pub(crate) fn push_shaped_call(
    alloc: Global,
    out: &mut String,
    words: &str,
    text: &str,
) -> Result<(), CallFault> {
    let ty = type_of(words)?;
    let mut tokens = tokens_of(text)?;
    let value = read_value(alloc, &mut tokens)?;
    push_read(alloc, out, take_shape(alloc, ty, value))
}

/// `steps value dict skip ..`: what is read of a text one after the other; a token is skipped without a word.
pub(crate) fn push_steps_call(
    alloc: Global,
    out: &mut String,
    words: &str,
    text: &str,
) -> Result<(), CallFault> {
    let mut tokens = tokens_of(text)?;
    for word in words.split(' ') {
        match word {
            "value" => push_read(alloc, out, read_value(alloc, &mut tokens))?,
            "dict" => push_read(alloc, out, read_dict(alloc, &mut tokens))?,
            _ => {
                let _skipped = tokens.next();
            }
        }
    }
    Ok(())
}
