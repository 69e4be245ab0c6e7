//! A list that its copies share.
ghost use Rattle.std.specs.Prelude.{◌≡◌, [], IfOk, take};

use plain_data::{ExactClone, Items};
use std::alloc::{AllocError, Global};
use std::cmp::Ordering;
use std::marker::Model;
use std::sync::Arc;

/// The most items of a list that is shared.
const MAX_ITEMS: usize = 0xffff_ffff;

/// The first items of a list.
#[derive(Debug, Drop)]
enum Front<T> {
    /// No item.
    Nothing,
    /// The first items, so many of them, of a list that others may have too.
    First { len: u32, list: Arc<Items<T>> },
}

/// A list whose copies and fronts share the items, so that neither takes memory. The empty list takes none either.
///
/// Contracts see the list of the items.
#[derive(Debug, Drop)]
pub struct SharedItems<T> {
    front: Front<T>,
    alloc: Global,
}

impl<T> Model for SharedItems<T> {
    ghost use Rattle.std.specs.Prelude.{List};
    ghost use Rattle.std.specs.Coded.{coded_list};

    ghost Value = { List T };

    ghost coded = { coded_list T.code };

    ghost use Rattle.sdf_paths.specs.Shared.{front_items, IsWithin};

    ghost view = { λ s. front_items s.front };

    ghost invariant = { λ s. IsWithin s.front };
}

impl<T> SharedItems<T> {
    /// The empty list.
    pub fn new(alloc: Global) -> SharedItems<T>
        ensures { result ≡ [] }
    {
        SharedItems {
            front: Front::Nothing,
            alloc,
        }
    }

    /// The allocator of the list.
    pub fn allocator(&self) -> Global {
        self.alloc
    }

    /// The items in their order.
    pub fn as_slice(&self) -> &[T]
        ensures { result.now ≡ self.now }
    {
        match &self.front {
            Front::Nothing => &[],
            Front::First { len, list } => &list.as_slice()[..*len as usize],
        }
    }
}

impl<T: Drop> SharedItems<T> {
    /// A list that may be shared. It takes memory for the count of those who share it; for 2^32 items or more there is none.
    pub fn of(items: Items<T>) -> Result<SharedItems<T>, AllocError>
        ensures { IfOk result (λ shared. shared ≡ items) }
    {
        let alloc = items.allocator();
        if items.is_empty() {
            return Ok(SharedItems::new(alloc));
        }
        if items.len() > MAX_ITEMS {
            return Err(AllocError);
        }
        let len = items.len() as u32;
        let list = Arc::new(alloc, without_room(items))?;
        Ok(SharedItems {
            front: Front::First { len, list },
            alloc,
        })
    }

    /// The first items, so many of them, which takes no memory. It fails only where too many share the list to be counted.
    pub fn front(&self, len: usize) -> Result<SharedItems<T>, AllocError>
        ensures { IfOk result (λ front. front ≡ take len self.now) }
    {
        if len == 0 {
            return Ok(SharedItems::new(self.alloc));
        }
        match &self.front {
            Front::Nothing => Ok(SharedItems::new(self.alloc)),
            Front::First { len: all, list } => {
                let len = len.min(*all as usize) as u32;
                let list = Arc::try_clone(list)?;
                Ok(SharedItems {
                    front: Front::First { len, list },
                    alloc: self.alloc,
                })
            }
        }
    }
}

/// The list without room for more items.
fn without_room<T: Drop>(items: Items<T>) -> Items<T>
    ensures { result ≡ items }
{
    let mut list = items.into_vec();
    list.shrink_to_fit();
    Items::from_vec(list)
}

impl<T: Drop> Clone for SharedItems<T> {
    ghost use Rattle.std.specs.Prelude.{◌≡◌};

    ghost is_clone = { λ s t. t ≡ s };

    /// The same list once more, which takes no memory. It fails only where too many share it to be counted.
    fn clone(&self) -> Result<SharedItems<T>, AllocError> {
        match &self.front {
            Front::Nothing => Ok(SharedItems::new(self.alloc)),
            Front::First { len, list } => {
                let list = Arc::try_clone(list)?;
                Ok(SharedItems {
                    front: Front::First { len: *len, list },
                    alloc: self.alloc,
                })
            }
        }
    }
}

impl<T: Drop> ExactClone for SharedItems<T> {
    ghost copy_is_same = { λ x y h. h };
}

impl<T: PartialEq> PartialEq for SharedItems<T> {
    ghost use Rattle.std.specs.Cmp.Lexicographic.{pointwise, lists_per};

    ghost eq = { pointwise T.eq };

    ghost laws = { lists_per T.laws };

    fn eq(&self, other: &Self) -> bool {
        self.as_slice() == other.as_slice()
    }
}

impl<T: Eq> Eq for SharedItems<T> {
    ghost use Rattle.std.specs.Cmp.Lexicographic.{lists_equiv};

    ghost laws = { lists_equiv T.Eq.laws };
}

impl<T: PartialOrd> PartialOrd for SharedItems<T> {
    ghost use Rattle.std.specs.Cmp.Lexicographic.{slice_partial_cmp, lists_po};

    ghost partial_cmp = { slice_partial_cmp T.partial_cmp };

    ghost laws = { lists_po T.PartialOrd.laws };

    fn partial_cmp(&self, other: &Self) -> Option<Ordering> {
        self.as_slice().partial_cmp(other.as_slice())
    }
}

impl<T: Ord> Ord for SharedItems<T> {
    ghost use Rattle.std.specs.Cmp.Lexicographic.{slice_cmp, lists_total, lists_agrees, lists_ties};

    ghost cmp = { slice_cmp T.cmp };

    ghost total = { lists_total T.total };

    ghost matches_partial_cmp = { λ x y. lists_agrees T.matches_partial_cmp x y };

    ghost matches_eq = { λ x y. lists_ties T.cmp T.matches_eq x y };

    fn cmp(&self, other: &Self) -> Ordering {
        self.as_slice().cmp(other.as_slice())
    }
}
