ghost use Rattle.std.specs.Prelude.{IfOk};
ghost use Rattle.path_maps.specs.Prims.{IsOfPrim};

use path_maps::{ArcKind, ArcMap};
use plain_data::{copy, same};
use sdf_paths::{Path, PathFault};
use std::alloc::Global;
use std::test::Fail;

/// Paths, each with what it is translated to: an empty text where it has no translation.
const BY_REFERENCE: [(&str, &str); 8] = [
    ("/Model/geo.x", "/World/char/geo.x"),
    ("/Other", ""),
    ("/Model", "/World/char"),
    ("/Model.x", "/World/char.x"),
    ("/Model{s=x}geo", "/World/char{s=x}geo"),
    ("/Model2", ""),
    ("/", ""),
    ("/World/char", ""),
];

const BY_PAYLOAD_TO_A_VARIANT: [(&str, &str); 4] = [
    ("/M{s=x}geo.p", "/A{t=y}B/geo.p"),
    ("/M{s=x}{u=z}", "/A{t=y}B{u=z}"),
    ("/M/geo", ""),
    ("/A{t=y}B", ""),
];

const BY_INHERITS: [(&str, &str); 10] = [
    ("/Other", "/Other"),
    ("/A/k", ""),
    ("/_c", "/A"),
    ("/_c/k.p", "/A/k.p"),
    ("/A", ""),
    ("/A.p", ""),
    ("/A{s=x}k", ""),
    ("/AB", "/AB"),
    ("/_cd", "/_cd"),
    ("/", "/"),
];

const BY_SPECIALIZES_IN_A_VARIANT: [(&str, &str); 5] = [
    ("/A/B/k", ""),
    ("/A{s=y}B", ""),
    ("/A{s=x}C", "/A{s=x}C"),
    ("/_c/k", "/A{s=x}B/k"),
    ("/A", "/A"),
];

const BY_VARIANT: [(&str, &str); 5] = [
    ("/A{s=x}k.p", "/A/k.p"),
    ("/A{s=x}", "/A"),
    ("/B{t=y}{u=z}C", "/B/C"),
    ("/A/k", "/A/k"),
    ("/", "/"),
];

/// Classes, each with what it is lifted to.
const LIFTED: [(&str, &str); 5] = [
    ("/Model/_c", "/World/char/_c"),
    ("/Model", "/World/char"),
    ("/_g", "/_g"),
    ("/World/char/_c", "/World/char/_c"),
    ("/Model{s=x}_c", "/World/char{s=x}_c"),
];

/// The path of this text, where it is one of a prim.
fn path_of_prim(alloc: Global, text: &str) -> Result<Path, PathFault>
    ensures { IfOk result (λ path. IsOfPrim path) }
{
    let path = Path::parse(alloc, text)?;
    if path.is_root() || path.is_property() {
        drop(path);
        return Err(PathFault::NoMemory);
    }
    Ok(path)
}

/// The arc, where both texts are paths of prims.
fn arc(alloc: Global, kind: ArcKind, target: &str, author: &str) -> Result<ArcMap, PathFault> {
    let target = path_of_prim(alloc, target)?;
    match path_of_prim(alloc, author) {
        Ok(author) => Ok(ArcMap {
            kind,
            target,
            author,
        }),
        Err(fault) => {
            drop(target);
            Err(fault)
        }
    }
}

/// Whether the text of the path is this one.
fn has_text(path: Path, text: &str) -> Result<bool, PathFault> {
    let printed = path.print();
    drop(path);
    let printed = printed?;
    Ok(printed.as_str() == text)
}

/// Whether the path of a text is translated to the one of the other; where that is empty, whether it has no translation.
fn is_translated(alloc: Global, arc: &ArcMap, path: &str, text: &str) -> Result<bool, PathFault> {
    let path = Path::parse(alloc, path)?;
    let there = arc.translate(&path);
    drop(path);
    match there? {
        Some(there) => has_text(there, text),
        None => Ok(text.is_empty()),
    }
}

/// Whether the class of a text is lifted to the one of the other.
fn is_lifted(alloc: Global, arc: &ArcMap, class: &str, text: &str) -> Result<bool, PathFault> {
    let class = Path::parse(alloc, class)?;
    let there = arc.lift_class(&class);
    drop(class);
    has_text(there?, text)
}

/// How many rows hold.
fn translated(alloc: Global, arc: &ArcMap, rows: &[(&str, &str)]) -> Result<u64, PathFault> {
    let mut right: u64 = 0;
    for (path, there) in rows {
        if is_translated(alloc, arc, path, there)? {
            right = right.saturating_add(1);
        }
    }
    Ok(right)
}

/// How many rows hold.
fn lifted(alloc: Global, arc: &ArcMap, rows: &[(&str, &str)]) -> Result<u64, PathFault> {
    let mut right: u64 = 0;
    for (path, there) in rows {
        if is_lifted(alloc, arc, path, there)? {
            right = right.saturating_add(1);
        }
    }
    Ok(right)
}

/// Whether all rows hold for the arc of this kind, target and author.
fn all_hold(
    alloc: Global,
    kind: ArcKind,
    target: &str,
    author: &str,
    rows: &[(&str, &str)],
) -> Result<bool, PathFault> {
    let by = arc(alloc, kind, target, author)?;
    let right = translated(alloc, &by, rows);
    drop(by);
    Ok(right? == rows.len() as u64)
}

#[test]
fn arcs_move_paths(rt: HostRuntime) -> Result<(), Fail> {
    let alloc = rt.alloc();
    assert!(rt;
        all_hold(
            alloc,
            ArcKind::Reference,
            "/Model",
            "/World/char",
            &BY_REFERENCE
        )?
    );
    assert!(rt; all_hold(alloc, ArcKind::Inherits, "/_c", "/A", &BY_INHERITS)?);
    assert!(rt; all_hold(alloc, ArcKind::Variant, "/A{s=x}", "/A", &BY_VARIANT)?);
    Ok(())
}

#[test]
fn arcs_move_paths_into_variants(rt: HostRuntime) -> Result<(), Fail> {
    let alloc = rt.alloc();
    assert!(rt;
        all_hold(
            alloc,
            ArcKind::Payload,
            "/M{s=x}",
            "/A{t=y}B",
            &BY_PAYLOAD_TO_A_VARIANT
        )?
    );
    assert!(rt;
        all_hold(
            alloc,
            ArcKind::Specializes,
            "/_c",
            "/A{s=x}B",
            &BY_SPECIALIZES_IN_A_VARIANT
        )?
    );
    Ok(())
}

#[test]
fn classes_are_lifted_to_the_author(rt: HostRuntime) -> Result<(), Fail> {
    let by = arc(rt.alloc(), ArcKind::Reference, "/Model", "/World/char")?;
    let right = lifted(rt.alloc(), &by, &LIFTED);
    drop(by);
    assert_eq!(rt; right?, 5);
    Ok(())
}

/// Whether an answer is given, and whether it is the refusal for a limit.
fn outcome<T: Drop>(answer: Result<T, PathFault>) -> (bool, bool) {
    match answer {
        Ok(given) => {
            drop(given);
            (true, false)
        }
        Err(PathFault::Bad { at }) => (false, at == 0),
        Err(PathFault::NoMemory) => (false, false),
    }
}

/// Whether a path is both translated and lifted through an arc, and whether both are refused for a limit.
fn fits_through(alloc: Global, by: &ArcMap, path: &str) -> Result<(bool, bool), PathFault> {
    let path = Path::parse(alloc, path)?;
    let translated = outcome(by.translate(&path));
    let lifted = outcome(by.lift_class(&path));
    drop(path);
    Ok((translated.0 && lifted.0, translated.1 && lifted.1))
}

/// The same through an arc from `/T` to this author.
fn fits(alloc: Global, kind: ArcKind, author: &str, path: &str) -> Result<(bool, bool), PathFault> {
    let by = arc(alloc, kind, "/T", author)?;
    let told = fits_through(alloc, &by, path);
    drop(by);
    told
}

#[test]
fn names_past_the_limit_are_refused(rt: HostRuntime) -> Result<(), Fail> {
    let deep = "/a".repeat(rt.alloc(), 63)?;
    let author = deep.as_str();
    assert!(rt;
        fits(rt.alloc(), ArcKind::Reference, author, "/T/b")? == (true, false)
            && fits(rt.alloc(), ArcKind::Reference, author, "/T/b/c")? == (false, true)
            && fits(rt.alloc(), ArcKind::Inherits, author, "/T/b/c")? == (false, true)
    );
    Ok(())
}

#[test]
fn bytes_past_the_limit_are_refused(rt: HostRuntime) -> Result<(), Fail> {
    let mut long = String::from_str(rt.alloc(), "/")?;
    long.push_str("a".repeat(rt.alloc(), 4090)?.as_str())?;
    let author = long.as_str();
    assert!(rt;
        fits(rt.alloc(), ArcKind::Payload, author, "/T/bcde")? == (true, false)
            && fits(rt.alloc(), ArcKind::Payload, author, "/T/bcdef")? == (false, true)
            && fits(rt.alloc(), ArcKind::Specializes, author, "/T/bcdef")? == (false, true)
    );
    Ok(())
}

/// Whether the copy of an arc is the arc.
fn is_copied(by: &ArcMap) -> Result<bool, Fail> {
    let again = copy(by)?;
    let is_same = same(by, &again);
    drop(again);
    Ok(is_same)
}

#[test]
fn a_copy_is_the_arc(rt: HostRuntime) -> Result<(), Fail> {
    let by = arc(rt.alloc(), ArcKind::Reference, "/Model", "/World/char")?;
    let copied = is_copied(&by);
    drop(by);
    assert!(rt; copied?);
    Ok(())
}

/// Whether a reference and a payload of the same paths are one arc.
fn kinds_are_one(alloc: Global) -> Result<bool, PathFault> {
    let by = arc(alloc, ArcKind::Reference, "/Model", "/World/char")?;
    match arc(alloc, ArcKind::Payload, "/Model", "/World/char") {
        Ok(other) => {
            let are_one = same(&by, &other);
            drop(by);
            drop(other);
            Ok(are_one)
        }
        Err(fault) => {
            drop(by);
            Err(fault)
        }
    }
}

#[test]
fn an_arc_of_another_kind_is_another(rt: HostRuntime) -> Result<(), Fail> {
    assert!(rt; !kinds_are_one(rt.alloc())?);
    Ok(())
}
