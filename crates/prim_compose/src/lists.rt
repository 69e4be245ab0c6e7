//! Copies of lists, and one list after another.
ghost use Rattle.std.specs.Prelude.{◌≡◌, IfOk};

use list_ops::push_all;
use plain_data::{ExactClone, Items};
use std::alloc::{AllocError, Global};

/// A copy of a list.
pub fn copied<T: ExactClone + Drop>(alloc: Global, items: &[T]) -> Result<Items<T>, AllocError>
    ensures { IfOk result (λ copy. copy ≡ items.now) }
{
    let mut copy = Items::new(alloc);
    push_all(&mut copy, items)?;
    Ok(copy)
}
