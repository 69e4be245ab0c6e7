//! Lists in the making, in the opinion that they are part of.
ghost use Rattle.std.specs.Prelude.{◌≡◌, List, OnOk};
ghost use Rattle.usda_lists.specs.Lists.{list_at, with_list, open_list, push_item};

use crate::edit::ListEdit;
use list_ops::ListOp;
use plain_data::Items;
use std::alloc::AllocError;
use std::mem;

/// Takes the list of an edit out of the opinion.
pub fn take_list<T: Drop>(op: &mut ListOp<T>, edit: ListEdit) -> Items<T>
    ensures list { result ≡ list_at edit op.old }
    ensures left { (items : List T) → with_list edit items op.new ≡ with_list edit items op.old }
{
    let empty = Items::new(op.deleted.allocator());
    match edit {
        ListEdit::Explicit => match op.explicit.replace(empty) {
            Some(items) => items,
            None => Items::new(op.deleted.allocator()),
        },
        ListEdit::Delete => mem::replace(&mut op.deleted, empty),
        ListEdit::Add => mem::replace(&mut op.added, empty),
        ListEdit::Prepend => mem::replace(&mut op.prepended, empty),
        ListEdit::Append => mem::replace(&mut op.appended, empty),
        ListEdit::Reorder => mem::replace(&mut op.ordered, empty),
    }
}

/// Puts the list of an edit into the opinion.
pub fn put_list<T: Drop>(op: &mut ListOp<T>, edit: ListEdit, items: Items<T>)
    ensures { op.new ≡ with_list edit items op.old }
{
    match edit {
        ListEdit::Explicit => drop(mem::replace(&mut op.explicit, Some(items))),
        ListEdit::Delete => drop(mem::replace(&mut op.deleted, items)),
        ListEdit::Add => drop(mem::replace(&mut op.added, items)),
        ListEdit::Prepend => drop(mem::replace(&mut op.prepended, items)),
        ListEdit::Append => drop(mem::replace(&mut op.appended, items)),
        ListEdit::Reorder => drop(mem::replace(&mut op.ordered, items)),
    }
}

/// Begins the list of an edit, which has no items yet; takes no memory.
pub fn open_list<T: Drop>(op: &mut ListOp<T>, edit: ListEdit)
    ensures { op.new ≡ open_list edit op.old }
{
    let empty = Items::new(op.deleted.allocator());
    put_list(op, edit, empty);
}

/// Adds an item at the end of the list of an edit. After want of memory the list is of no use.
pub fn push_item<T: Drop>(op: &mut ListOp<T>, edit: ListEdit, item: T) -> Result<(), AllocError>
    ensures { OnOk result (op.new ≡ push_item edit item op.old) }
{
    let mut items = take_list(op, edit);
    match items.push(item) {
        Ok(()) => {
            put_list(op, edit, items);
            Ok(())
        }
        Err(error) => {
            drop(items);
            Err(error)
        }
    }
}
