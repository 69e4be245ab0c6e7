//! Items with an order.
ghost use Rattle.std.specs.Prelude.{◌≡◌};
ghost use Rattle.std.specs.Ordering.{int_cmp, on, then_cmp};
ghost use Rattle.arc_expand.specs.ItemOrder.{rank, source_text};

use plain_data::{ExactClone, ExactEq, ExactOrd, copy, same};
use prim_view::{FaultItem, FaultOffset, ItemSource};
use std::alloc::AllocError;
use std::cmp::Ordering;
use std::marker::Model;

/// An item with an order, by which it is looked up. Contracts see the item.
#[derive(Drop)]
pub struct OrderedItem {
    /// The item.
    pub item: FaultItem,
}

impl Model for OrderedItem {
    ghost use Rattle.composition.specs.Arcs.{Item};

    ghost Value = { Item };

    ghost view = { λ o. o.item };

    ghost inverse = { λ i. record { item = i } };
}

impl Clone for OrderedItem {
    ghost use Rattle.std.specs.Prelude.{◌≡◌};

    ghost is_clone = { λ x y. y ≡ x };

    fn clone(&self) -> Result<OrderedItem, AllocError> {
        Ok(OrderedItem {
            item: copy(&self.item)?,
        })
    }
}

impl ExactClone for OrderedItem {
    ghost copy_is_same = { λ x y h. h };
}

impl PartialEq for OrderedItem {
    ghost use Rattle.std.specs.Cmp.{partial_equiv_from_equiv};
    ghost use Rattle.composition.specs.Arcs.{same_item};
    ghost use Rattle.arc_expand.specs.ItemOrder.{item_equiv};

    ghost eq = { same_item };

    ghost laws = { partial_equiv_from_equiv item_equiv };

    fn eq(&self, other: &Self) -> bool {
        same(&self.item, &other.item)
    }
}

impl Eq for OrderedItem {
    ghost use Rattle.arc_expand.specs.ItemOrder.{item_equiv};

    ghost laws = { item_equiv };
}

impl ExactEq for OrderedItem {
    ghost use Rattle.arc_expand.specs.SameItems.{item_same};

    ghost equal_is_same = { item_same };
}

impl PartialOrd for OrderedItem {
    ghost use Rattle.std.specs.Ordering.{as_partial_cmp};
    ghost use Rattle.std.specs.Prelude.{refl};
    ghost use Rattle.std.specs.Cmp.{partial_order_from_agreeing_total};
    ghost use Rattle.arc_expand.specs.ItemOrder.{item_cmp, item_total, item_ties};

    ghost partial_cmp = { as_partial_cmp item_cmp };

    ghost laws = { partial_order_from_agreeing_total item_cmp item_total (λ x y. refl) item_ties };

    fn partial_cmp(&self, other: &Self) -> Option<Ordering> {
        Some(self.cmp(other))
    }
}

impl Ord for OrderedItem {
    ghost use Rattle.std.specs.Prelude.{refl};
    ghost use Rattle.arc_expand.specs.ItemOrder.{item_cmp, item_total, item_ties};

    ghost cmp = { item_cmp };

    ghost total = { item_total };

    ghost matches_partial_cmp = { λ x y. refl };

    ghost matches_eq = { λ x y. item_ties x y };

    fn cmp(&self, other: &Self) -> Ordering {
        let a = &self.item;
        let b = &other.item;
        rank(&a.source).cmp(&rank(&b.source)).then(
            source_text(&a.source)
                .cmp(source_text(&b.source))
                .then(a.path.cmp(&b.path).then(offset_order(a.offset, b.offset))),
        )
    }
}

impl ExactOrd for OrderedItem {
    ghost use Rattle.arc_expand.specs.ItemOrder.{item_tie};

    ghost tie_is_same = { item_tie };
}

/// By the offset and then by the scale.
fn offset_order(a: FaultOffset, b: FaultOffset) -> Ordering
    ensures { result ≡ then_cmp (on (λ o. o.offset) int_cmp) (on (λ o. o.scale) int_cmp) a b }
{
    a.offset.cmp(&b.offset).then(a.scale.cmp(&b.scale))
}

/// Items without a layer come first, and those whose asset cannot be anchored last.
fn rank(source: &ItemSource) -> u8
    ensures { result ≡ rank source.now }
{
    match source {
        ItemSource::Own => 0,
        ItemSource::Named(_) => 1,
        ItemSource::Unanchored(_) => 2,
    }
}

/// The text of the layer or the asset.
fn source_text(source: &ItemSource) -> &str
    ensures { result.now ≡ source_text source.now }
{
    match source {
        ItemSource::Own => "",
        ItemSource::Named(id) => id.text(),
        ItemSource::Unanchored(asset) => asset.as_str(),
    }
}
