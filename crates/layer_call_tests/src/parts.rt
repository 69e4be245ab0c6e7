//! Each call with ample memory.
use plain_data::{Items, Text, copy, same};
use sdf_paths::Path;
use sdf_values::LayerOffset;
use spec_parts::{
    ArcPart, BodyPart, Head, RefItem, Refusal, RefusalKind, Spec, Specifier, SubLayer, VariantSet,
};
use std::alloc::Global;
use std::mem;
use std::test::Fail;

fn sublayer(alloc: Global) -> Result<SubLayer, Fail> {
    Ok(SubLayer {
        asset: Text::of(alloc, "low.usda")?,
        offset: LayerOffset {
            offset: 3,
            scale: 2,
        },
    })
}

/// A head with one sublayer.
fn layered_head(alloc: Global) -> Result<Head, Fail> {
    let low = sublayer(alloc)?;
    let mut head = Head::blank(alloc);
    match head.sublayers.push(low) {
        Ok(()) => Ok(head),
        Err(fault) => {
            drop(head);
            Err(fault.into())
        }
    }
}

fn is_copied(head: &Head, blank: &Head) -> Result<bool, Fail> {
    let again = copy(head)?;
    let is_same = same(head, &again);
    drop(again);
    Ok(is_same && !same(head, blank))
}

fn head_is_copied(alloc: Global) -> Result<bool, Fail> {
    let head = layered_head(alloc)?;
    let blank = Head::blank(alloc);
    let answer = is_copied(&head, &blank);
    drop(head);
    drop(blank);
    answer
}

#[test]
fn a_copied_head_is_its_original(rt: HostRuntime) -> Result<(), Fail> {
    assert!(rt; head_is_copied(rt.alloc())?);
    Ok(())
}

/// A reference to the root.
fn references(alloc: Global) -> Result<Items<RefItem>, Fail> {
    let mut references = Items::new(alloc);
    references.push(RefItem {
        asset: None,
        path: Some(Path::root(alloc)),
        offset: LayerOffset {
            offset: 0,
            scale: 1,
        },
    })?;
    Ok(references)
}

/// A variant set of one variant.
fn sizes(alloc: Global) -> Result<VariantSet, Fail> {
    let mut variants = Items::new(alloc);
    variants.push(Text::of(alloc, "big")?)?;
    Ok(VariantSet {
        set: Text::of(alloc, "size")?,
        variants,
    })
}

/// Gives a prim a reference and a variant set.
fn refer(alloc: Global, arcs: &mut ArcPart, body: &mut BodyPart) -> Result<(), Fail> {
    let references = references(alloc)?;
    drop(mem::replace(&mut arcs.references.explicit, Some(references)));
    body.variant_names.push(sizes(alloc)?)?;
    Ok(())
}

/// Whether a prim is its copy, until it has no reference any more.
fn is_until_changed(spec: &mut Spec, copied: &Spec) -> bool {
    let was_same = same(spec, copied);
    drop(mem::replace(&mut spec.arcs.references.explicit, None));
    was_same && !same(spec, copied)
}

fn is_copied_until_changed(alloc: Global, spec: &mut Spec) -> Result<bool, Fail> {
    refer(alloc, &mut spec.arcs, &mut spec.body)?;
    let copied = copy(spec)?;
    let answer = is_until_changed(spec, &copied);
    drop(copied);
    Ok(answer)
}

fn spec_is_copied(alloc: Global) -> Result<bool, Fail> {
    let mut spec = Spec::blank(alloc, Specifier::Def);
    let answer = is_copied_until_changed(alloc, &mut spec);
    drop(spec);
    answer
}

#[test]
fn a_copied_spec_is_its_original(rt: HostRuntime) -> Result<(), Fail> {
    assert!(rt; spec_is_copied(rt.alloc())?);
    Ok(())
}

/// A refusal in the second line.
fn refusal_at(column: u64) -> Refusal {
    Refusal {
        kind: RefusalKind::Syntax,
        line: 2,
        column,
    }
}

#[test]
fn refusals_compare_by_kind_and_place(rt: HostRuntime) -> Result<(), Fail> {
    assert!(rt; refusal_at(7) == refusal_at(7) && refusal_at(7) != refusal_at(8));
    Ok(())
}
