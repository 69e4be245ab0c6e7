use plain_data::{ExactClone, copy};
use sdf_specs::{Layer, Refusal};
use std::alloc::AllocError;

/// What stands at a name of a layer.
#[derive(Debug, Drop)]
pub enum Held {
    /// A layer.
    Present(Layer),
    /// Nothing.
    Absent,
    /// A text that is no layer, or a kind of file that is not read.
    Broken(Refusal),
}

impl Held {
    ghost use Rattle.std.specs.Prelude.{◌≡◌};
    ghost use Rattle.layer_set.specs.Worlds.{is_present};

    /// Whether a layer stands there: neither nothing nor what is refused.
    pub fn is_present(&self) -> bool
        ensures { result ≡ is_present self.now }
    {
        match self {
            Held::Present(_) => true,
            Held::Absent => false,
            Held::Broken(_) => false,
        }
    }
}

impl Clone for Held {
    ghost use Rattle.std.specs.Prelude.{◌≡◌};

    ghost is_clone = { λ x y. y ≡ x };

    fn clone(&self) -> Result<Held, AllocError> {
        match self {
            Held::Present(layer) => Ok(Held::Present(copy(layer)?)),
            Held::Absent => Ok(Held::Absent),
            Held::Broken(refusal) => Ok(Held::Broken(*refusal)),
        }
    }
}

impl ExactClone for Held {
    ghost copy_is_same = { λ x y h. h };
}
