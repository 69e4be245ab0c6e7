//! The canonical text of values.
ghost use Rattle.std.specs.Prelude.{◌≡◌, ◌++◌, ◌+◌, ◌*◌, ◌<◌, ◌∷◌, OnOk, IfOk, map, string_bytes, []};
ghost use Rattle.sdf_values.specs.Print.{print, print_item, listed, lines, dict_text, blanks, quoted, escaped, escape, asset_text, is_plain_key, key_text, dict_type_text, hex_digit, is_escaped, is_long_asset};
ghost use Rattle.sdf_values.specs.TypeNames.{type_text};
ghost use Rattle.sdf_values.specs.declared.value.DictItem.{out-DictItem};

use crate::numeral::{push_num, push_time, push_whole};
use crate::type_name::TypeName;
use crate::value::{DictItem, DictType, Value};
use std::alloc::{AllocError, Global};
use usd_names::{is_identifier, is_name};

/// The canonical text of a value. The entries of a dictionary stand on lines of their own, `indent` levels of four
/// blanks and one more in.
pub fn print_value(alloc: Global, v: &Value, indent: usize) -> Result<String, AllocError>
    ensures { IfOk result (λ text. string_bytes text ≡ print v.now indent) }
{
    let mut out = String::new(alloc);
    push_value(&mut out, v, indent)?;
    Ok(out)
}

/// Appends the text of `print_value`. After want of memory the text is of no use.
#[cycle(print)]
pub fn push_value(out: &mut String, value: &Value, indent: usize) -> Result<(), AllocError>
    ensures { OnOk result (string_bytes out.new ≡ string_bytes out.old ++ print value.now indent) }
{
    match value {
        Value::Bool(b) => out.push_str(if *b { "true" } else { "false" }),
        Value::Whole(n) => push_whole(out, *n),
        Value::Number(x) => push_num(out, *x),
        Value::Time(t) => push_time(out, *t),
        Value::Text(text) => push_string(out, text.as_str()),
        Value::Asset(text) => push_asset(out, text.as_str()),
        Value::PathText(text) => push_between(out, "<", text.as_str(), ">"),
        Value::Word(text) => out.push_str(text.as_str()),
        Value::Tuple(items) => {
            out.push_str("(")?;
            push_list(out, items.as_slice(), indent)?;
            out.push_str(")")
        }
        Value::Array(items) => {
            out.push_str("[")?;
            push_list(out, items.as_slice(), indent)?;
            out.push_str("]")
        }
        Value::Dict(items) => push_dict(out, items.as_slice(), indent),
        Value::Block => out.push_str("None"),
    }
}

#[cycle(print)]
fn push_list(out: &mut String, values: &[Value], indent: usize) -> Result<(), AllocError>
    ensures { OnOk result (string_bytes out.new ≡ string_bytes out.old ++ listed (map print values.now) indent) }
{
    let mut is_first = true;
    for value in values {
        if !is_first {
            out.push_str(", ")?;
        }
        is_first = false;
        push_value(out, value, indent)?;
    }
    Ok(())
}

#[cycle(print)]
fn push_dict(out: &mut String, items: &[DictItem], indent: usize) -> Result<(), AllocError>
    ensures { OnOk result (string_bytes out.new ≡ string_bytes out.old
        ++ dict_text (map (λ item. print_item (record { key = (out-DictItem item).key; ty = (out-DictItem item).ty; value = print (out-DictItem item).value })) items.now) indent) }
{
    out.push_str("{\n")?;
    push_items(out, items, indent.saturating_add(1))?;
    push_blanks(out, indent)?;
    out.push_str("}")
}

#[cycle(print)]
fn push_items(out: &mut String, items: &[DictItem], indent: usize) -> Result<(), AllocError>
    ensures { OnOk result (string_bytes out.new ≡ string_bytes out.old
        ++ lines (map (λ item. print_item (record { key = (out-DictItem item).key; ty = (out-DictItem item).ty; value = print (out-DictItem item).value })) items.now) indent) }
{
    for item in items {
        push_blanks(out, indent)?;
        push_item(out, item, indent)?;
        out.push_str("\n")?;
    }
    Ok(())
}

#[cycle(print)]
fn push_item(out: &mut String, item: &DictItem, indent: usize) -> Result<(), AllocError>
    ensures { OnOk result (string_bytes out.new ≡ string_bytes out.old
        ++ print_item (record { key = (out-DictItem item.now).key; ty = (out-DictItem item.now).ty; value = print (out-DictItem item.now).value }) indent) }
{
    push_dict_type(out, item.ty)?;
    out.push_str(" ")?;
    push_key(out, item.key.as_str())?;
    out.push_str(" = ")?;
    push_value(out, &item.value, indent)
}

/// Appends four blanks a level. After want of memory the text is of no use.
pub fn push_blanks(out: &mut String, indent: usize) -> Result<(), AllocError>
    ensures { OnOk result (string_bytes out.new ≡ string_bytes out.old ++ blanks indent) }
{
    for _level in 0..indent {
        out.push_str("    ")?;
    }
    Ok(())
}

fn push_between(out: &mut String, front: &str, text: &str, back: &str) -> Result<(), AllocError>
    ensures { OnOk result (string_bytes out.new ≡ string_bytes out.old ++ (front.now ++ text.now ++ back.now)) }
{
    out.push_str(front)?;
    out.push_str(text)?;
    out.push_str(back)
}

fn push_dict_type(out: &mut String, ty: DictType) -> Result<(), AllocError>
    ensures { OnOk result (string_bytes out.new ≡ string_bytes out.old ++ dict_type_text ty) }
{
    match ty {
        DictType::Plain(ty) => push_type(out, ty),
        DictType::Dictionary => out.push_str("dictionary"),
    }
}

/// Appends a type as a layer writes it. After want of memory the text is of no use.
pub fn push_type(out: &mut String, ty: TypeName) -> Result<(), AllocError>
    ensures { OnOk result (string_bytes out.new ≡ string_bytes out.old ++ type_text ty) }
{
    out.push_str(ty.element.name())?;
    if ty.array {
        out.push_str("[]")?;
    }
    Ok(())
}

/// Whether a key of a dictionary stands for itself. Names that are joined by colons do not: other programs do not read them there.
fn is_plain_key(key: &str) -> bool
    ensures { result ≡ is_plain_key key.now }
{
    is_name(key) && is_identifier(key)
}

fn push_key(out: &mut String, key: &str) -> Result<(), AllocError>
    ensures { OnOk result (string_bytes out.new ≡ string_bytes out.old ++ key_text key.now) }
{
    if is_plain_key(key) {
        out.push_str(key)
    } else {
        push_string(out, key)
    }
}

/// Appends an asset's name between `@`, or between `@@@` where it has an `@` or a line feed. After want of memory the text is of no
/// use.
pub fn push_asset(out: &mut String, text: &str) -> Result<(), AllocError>
    ensures { OnOk result (string_bytes out.new ≡ string_bytes out.old ++ asset_text text.now) }
{
    if is_long_asset(text.as_bytes()) {
        push_between(out, "@@@", text, "@@@")
    } else {
        push_between(out, "@", text, "@")
    }
}

fn is_long_asset(text: &[u8]) -> bool
    ensures { result ≡ is_long_asset text.now }
{
    for byte in text {
        if *byte == b'@' || *byte == b'\n' {
            return true;
        }
    }
    false
}

/// Appends a string between quotes, with escapes. After want of memory the text is of no use.
pub fn push_string(out: &mut String, text: &str) -> Result<(), AllocError>
    ensures { OnOk result (string_bytes out.new ≡ string_bytes out.old ++ quoted text.now) }
{
    out.push_str("\"")?;
    push_escaped(out, text)?;
    out.push_str("\"")
}

fn push_escaped(out: &mut String, text: &str) -> Result<(), AllocError>
    ensures { OnOk result (string_bytes out.new ≡ string_bytes out.old ++ escaped text.now) }
{
    let bytes = text.as_bytes();
    let mut start = 0;
    for i in 0..bytes.len() {
        let byte = bytes[i];
        if is_escaped(byte) {
            out.push_str(&text[start..i])?;
            push_escape(out, byte)?;
            start = i + 1;
        }
    }
    out.push_str(&text[start..])
}

fn is_escaped(byte: u8) -> bool
    ensures { result ≡ is_escaped byte }
{
    byte == b'\\' || byte == b'"' || byte < 32 || byte == 127
}

fn push_escape(out: &mut String, byte: u8) -> Result<(), AllocError>
    requires { byte < 128 }
    ensures { OnOk result (string_bytes out.new ≡ string_bytes out.old ++ escape byte) }
{
    match byte {
        b'\\' => out.push_str("\\\\"),
        b'"' => out.push_str("\\\""),
        b'\n' => out.push_str("\\n"),
        b'\r' => out.push_str("\\r"),
        b'\t' => out.push_str("\\t"),
        _ => {
            out.push_str("\\x")?;
            push_hex(out, byte / 16)?;
            push_hex(out, byte % 16)
        }
    }
}

fn push_hex(out: &mut String, digit: u8) -> Result<(), AllocError>
    requires { digit < 16 }
    ensures { OnOk result (string_bytes out.new ≡ string_bytes out.old ++ (hex_digit digit ∷ [])) }
{
    let byte = if digit < 10 {
        b'0' + digit
    } else {
        b'a' + (digit - 10)
    };
    out.push(byte as char)
}
