//! A copy of an edit is the edit, and edits that compare equal are one.
use crate::op::ListOp;
use plain_data::{ExactClone, ExactEq, copy};
use std::alloc::AllocError;

impl<T: ExactClone> Clone for ListOp<T> {
    ghost use Rattle.std.specs.Prelude.{◌≡◌};

    ghost is_clone = { λ x y. y ≡ x };

    fn clone(&self) -> Result<ListOp<T>, AllocError> {
        Ok(ListOp {
            explicit: copy(&self.explicit)?,
            deleted: self.deleted.copy()?,
            added: self.added.copy()?,
            prepended: self.prepended.copy()?,
            appended: self.appended.copy()?,
            ordered: self.ordered.copy()?,
        })
    }
}

impl<T: ExactClone> ExactClone for ListOp<T> {
    ghost copy_is_same = { λ x y h. h };
}

impl<T: ExactEq> ExactEq for ListOp<T> {
    ghost use Rattle.list_ops.specs.SameEdits.{edits_same};

    ghost equal_is_same = { λ x y h. edits_same T.eq T.equal_is_same x y h };
}
