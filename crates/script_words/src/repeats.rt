//! Lists of references of which the first of each is kept.
ghost use Rattle.std.specs.Prelude.{◌≡◌, IfOk};
ghost use Rattle.list_ops.specs.ListEdits.{firsts};
ghost use Rattle.script_words.specs.Repeats.{same_reference};

use edit_batches::{WrittenOffset, WrittenReference};
use list_ops::firsts_ordered;
use plain_data::{ExactClone, ExactEq, ExactOrd, Items, Text};
use sdf_paths::Path;
use sdf_values::Num;
use std::alloc::{AllocError, Global};
use std::marker::Model;

/// A reference in an order.
#[derive(Clone, Drop, PartialEq, Eq, PartialOrd, Ord)]
struct OrderedReference {
    asset: Option<Text>,
    path: Option<Path>,
    offset: Num,
    scale: Num,
}

impl Model for OrderedReference {
    ghost use Rattle.edit_batches.specs.declared.written.WrittenReference.{WrittenReference};

    ghost Value = { WrittenReference };

    ghost view = { λ o. record { asset = o.asset; path = o.path; offset = record { offset = o.offset; scale = o.scale } } };

    ghost inverse = { λ i. record { asset = i.asset; path = i.path; offset = i.offset.offset; scale = i.offset.scale } };
}

impl ExactClone for OrderedReference {
    ghost use Rattle.std.proofs.Common.{rules};

    ghost copy_is_same = { Prim.search rules };
}

impl ExactEq for OrderedReference {
    ghost use Rattle.script_words.specs.Repeats.{reference_equal};

    ghost equal_is_same = { reference_equal };
}

impl ExactOrd for OrderedReference {
    ghost use Rattle.script_words.specs.Repeats.{reference_tie};

    ghost tie_is_same = { reference_tie };
}

fn ordered(
    alloc: Global,
    items: Items<WrittenReference>,
) -> Result<Items<OrderedReference>, AllocError>
    ensures { IfOk result (λ all. all ≡ items) }
{
    let mut all = Items::new(alloc);
    for item in items.into_vec() {
        let WrittenReference {
            asset,
            path,
            offset,
        } = item;
        all.push(OrderedReference {
            asset,
            path,
            offset: offset.offset,
            scale: offset.scale,
        })?;
    }
    Ok(all)
}

fn unordered(
    alloc: Global,
    items: Items<OrderedReference>,
) -> Result<Items<WrittenReference>, AllocError>
    ensures { IfOk result (λ all. all ≡ items) }
{
    let mut all = Items::new(alloc);
    for item in items.into_vec() {
        let OrderedReference {
            asset,
            path,
            offset,
            scale,
        } = item;
        all.push(WrittenReference {
            asset,
            path,
            offset: WrittenOffset { offset, scale },
        })?;
    }
    Ok(all)
}

/// The first of each reference.
pub fn first_references(
    alloc: Global,
    items: Items<WrittenReference>,
) -> Result<Items<WrittenReference>, AllocError>
    ensures { IfOk result (λ kept. kept ≡ firsts same_reference items) }
{
    let all = ordered(alloc, items)?;
    let kept = firsts_ordered(alloc, all.as_slice())?;
    unordered(alloc, kept)
}
