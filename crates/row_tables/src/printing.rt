//! What answers are made of, in print.

use layer_set::{Held, World};
use path_maps::ArcKind;
use plain_data::{Items, Text};
use prim_view::{PrimFault, Site, StackName, print_fault, refusal_name};
use sdf_paths::Path;
use sdf_values::{LayerOffset, Value, push_asset, push_string, push_time, push_value};
use spec_parts::{Refusal, Specifier};
use spec_properties::{Meta, Samples};
use std::alloc::AllocError;
use std::fmt::Write;

/// Appends a path.
pub(crate) fn push_path(out: &mut String, path: &Path) -> Result<(), AllocError> {
    let text = path.print()?;
    out.push_str(text.as_str())
}

/// Appends a path between `<` and `>`.
pub(crate) fn push_target(out: &mut String, path: &Path) -> Result<(), AllocError> {
    out.push_str("<")?;
    push_path(out, path)?;
    out.push_str(">")
}

/// Appends paths in brackets.
pub(crate) fn push_targets(out: &mut String, paths: &[Path]) -> Result<(), AllocError> {
    out.push_str("[")?;
    let mut is_first = true;
    for path in paths {
        if !is_first {
            out.push_str(", ")?;
        }
        is_first = false;
        push_target(out, path)?;
    }
    out.push_str("]")
}

/// Appends texts in brackets, as strings.
pub(crate) fn push_texts(out: &mut String, texts: &[Text]) -> Result<(), AllocError> {
    out.push_str("[")?;
    let mut is_first = true;
    for text in texts {
        if !is_first {
            out.push_str(", ")?;
        }
        is_first = false;
        push_string(out, text.as_str())?;
    }
    out.push_str("]")
}

/// Appends texts in brackets, or `none`.
pub(crate) fn push_texts_or_none(
    out: &mut String,
    texts: &Option<Items<Text>>,
) -> Result<(), AllocError> {
    match texts {
        Some(texts) => push_texts(out, texts.as_slice()),
        None => out.push_str("none"),
    }
}

/// Appends an offset and a scale.
pub(crate) fn push_offset(out: &mut String, offset: LayerOffset) -> Result<(), AllocError> {
    let start = offset.offset;
    let scale = offset.scale;
    write!(out, "{start} {scale}")
}

/// Appends the kind, the line and the column of a refusal.
pub(crate) fn push_refusal(out: &mut String, refusal: Refusal) -> Result<(), AllocError> {
    let kind = refusal_name(refusal.kind);
    let line = refusal.line;
    let column = refusal.column;
    write!(out, "{kind} {line}:{column}")
}

/// Appends a line for what stands at a name: the root prims of a layer, or what is there in its place.
pub(crate) fn push_held(out: &mut String, held: &Held) -> Result<(), AllocError> {
    match held {
        Held::Present(layer) => push_texts(out, layer.head().root_names.as_slice())?,
        Held::Absent => out.push_str("absent")?,
        Held::Broken(refusal) => {
            out.push_str("refused ")?;
            push_refusal(out, *refusal)?;
        }
    }
    out.push_str("\n")
}

/// Appends the name of a stack.
pub(crate) fn push_stack(out: &mut String, stack: &StackName) -> Result<(), AllocError> {
    match stack {
        StackName::Root => out.push_str("root"),
        StackName::Asset(name) => out.push_str(name.text()),
    }
}

/// The word of a kind of arcs.
pub(crate) fn kind_word(kind: ArcKind) -> &'static str {
    match kind {
        ArcKind::Inherits => "inherits",
        ArcKind::Variant => "variant",
        ArcKind::Reference => "references",
        ArcKind::Payload => "payload",
        ArcKind::Specializes => "specializes",
    }
}

/// The word of a specifier.
pub(crate) fn specifier_word(specifier: Specifier) -> &'static str {
    match specifier {
        Specifier::Def => "def",
        Specifier::Over => "over",
        Specifier::Class => "class",
    }
}

/// Appends a site, as answers show it.
pub(crate) fn push_site(out: &mut String, world: &World, site: &Site) -> Result<(), AllocError> {
    out.push_str("site ")?;
    let layer = match &site.stack {
        StackName::Root => world.root(),
        StackName::Asset(name) => name,
    };
    push_asset(out, layer.text())?;
    out.push_str(" ")?;
    push_path(out, &site.path)
}

/// Appends a line for each site.
pub(crate) fn push_sites(
    out: &mut String,
    world: &World,
    sites: &[Site],
) -> Result<(), AllocError> {
    for site in sites {
        push_site(out, world, site)?;
        out.push_str("\n")?;
    }
    Ok(())
}

/// Appends a line for each variant that is chosen.
pub(crate) fn push_choices(
    out: &mut String,
    word: &str,
    choices: &[(Text, Text)],
) -> Result<(), AllocError> {
    for (set, variant) in choices {
        let set = set.as_str();
        let variant = variant.as_str();
        writeln!(out, "{word} {set} {variant}")?;
    }
    Ok(())
}

/// Appends a line for each fault.
pub(crate) fn push_faults(out: &mut String, faults: &[PrimFault]) -> Result<(), AllocError> {
    for fault in faults {
        let text = print_fault(*out.allocator(), fault)?;
        let text = text.as_str();
        writeln!(out, "fault {text}")?;
    }
    Ok(())
}

/// Appends a value at the end of a line.
fn push_last_value(out: &mut String, value: &Value) -> Result<(), AllocError> {
    out.push_str(" ")?;
    push_value(out, value, 0)?;
    out.push_str("\n")
}

/// Appends a line for each sample.
pub(crate) fn push_samples(
    out: &mut String,
    indent: &str,
    samples: &Samples,
) -> Result<(), AllocError> {
    for (time, value) in samples.iter() {
        out.push_str(indent)?;
        out.push_str("sample ")?;
        push_time(out, *time)?;
        push_last_value(out, value)?;
    }
    Ok(())
}

/// Appends a line for each key.
pub(crate) fn push_meta(out: &mut String, indent: &str, meta: &Meta) -> Result<(), AllocError> {
    for (key, value) in meta.iter() {
        out.push_str(indent)?;
        out.push_str("meta ")?;
        out.push_str(key.as_str())?;
        push_last_value(out, value)?;
    }
    Ok(())
}
