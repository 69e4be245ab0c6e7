ghost use Rattle.std.specs.Prelude.{◌≡◌, IfOk};

use plain_data::{ExactClone, copy};
use std::alloc::{AllocError, Global};
use std::marker::Model;
use std::sync::Arc;

/// A value that its copies share. Contracts see the value.
#[derive(Drop)]
pub struct Shared<T> {
    value: Arc<T>,
}

impl<T> Model for Shared<T> {
    ghost use Rattle.std.specs.Arc.{arc_value};

    ghost Value = { T };

    ghost coded = { T.code };

    ghost view = { λ s. arc_value s.value };
}

impl<T> Shared<T> {
    /// The value.
    pub fn get(&self) -> &T
        ensures { result.now ≡ self.now }
    {
        &self.value
    }
}

impl<T: Drop> Shared<T> {
    /// Room for a value, which its copies will share.
    pub fn new(alloc: Global, value: T) -> Result<Shared<T>, AllocError>
        ensures { IfOk result (λ s. s ≡ value) }
    {
        Ok(Shared {
            value: Arc::new(alloc, value)?,
        })
    }
}

impl<T: ExactClone + Drop> Shared<T> {
    /// The value as one's own: a copy only where something else shares it.
    pub fn into_own(self) -> Result<T, AllocError>
        ensures { IfOk result (λ value. value ≡ self) }
    {
        let Shared { value } = self;
        match Arc::try_unwrap(value) {
            Ok(value) => Ok(value),
            Err(shared) => copy(&*shared),
        }
    }
}

impl<T: Drop> Clone for Shared<T> {
    ghost use Rattle.std.specs.Prelude.{◌≡◌};

    ghost is_clone = { λ x y. y ≡ x };

    fn clone(&self) -> Result<Shared<T>, AllocError> {
        Ok(Shared {
            value: self.value.clone()?,
        })
    }
}

impl<T: Drop> ExactClone for Shared<T> {
    ghost copy_is_same = { λ x y h. h };
}
