//! What the opinions on an attribute decide, the strongest first.
ghost use Rattle.std.specs.Prelude.{◌≡◌};
ghost use Rattle.composition.specs.Arcs.{is_empty};
ghost use Rattle.composition.specs.Fields.{or_else};
ghost use Rattle.value_resolve.specs.Deciding.{gives, is_nothing, decided_next, undecided};

use crate::on_stage::OnStage;
use sdf_values::Value;
use spec_properties::Samples;
use spec_tables::OrderedTable;
use std::alloc::Global;

/// What the opinions so far decide.
#[derive(Drop)]
pub struct Decision {
    /// The first default.
    pub default: Option<Value>,
    /// The samples of the first opinion that has samples or a default.
    pub samples: Samples,
    /// Whether no opinion has samples or a default.
    pub waits: bool,
}

impl Decision {
    /// Nothing is decided. Takes no memory.
    pub fn open(alloc: Global) -> Decision
        ensures { result ≡ undecided }
    {
        Decision {
            default: None,
            samples: OrderedTable::new(alloc),
            waits: true,
        }
    }

    /// With what a weaker opinion gives.
    pub fn and_then(self, given: OnStage) -> Decision
        ensures { result ≡ decided_next self (gives given) }
    {
        let Decision {
            default,
            samples,
            waits,
        } = self;
        let waits_after = waits && is_nothing(&given);
        Decision {
            default: first_of(default, given.default),
            samples: if waits { given.samples } else { samples },
            waits: waits_after,
        }
    }
}

/// The first of two defaults that is there.
fn first_of(stronger: Option<Value>, weaker: Option<Value>) -> Option<Value>
    ensures { result ≡ or_else stronger weaker }
{
    match stronger {
        Some(value) => {
            drop(weaker);
            Some(value)
        }
        None => weaker,
    }
}

/// Whether there is no sample.
fn is_empty(samples: &Samples) -> bool
    ensures { result ≡ is_empty samples.now }
{
    samples.len() == 0
}

/// Whether an opinion has neither samples nor a default.
fn is_nothing(given: &OnStage) -> bool
    ensures { result ≡ is_nothing (gives given.now) }
{
    is_empty(&given.samples) && given.default.is_none()
}
