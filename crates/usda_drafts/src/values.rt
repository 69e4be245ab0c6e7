//! Values: what is expected of one, its tokens, and where it goes when it is complete.
ghost use Rattle.std.specs.Prelude.{◌≡◌};
ghost use Rattle.usda_lexer.specs.Meanings.{number_of};
ghost use Rattle.usda_lists.specs.Acts.{Gives as GivesPart};
ghost use Rattle.usda_drafts.specs.Refusals.{Does};
ghost use Rattle.usda_drafts.specs.Values.{aimed_at_key, aimed_at_default, shape_of, time_of_number, time_act, is_selections, completed, token_act, first_act};
ghost use Rattle.usda_words.specs.Sources.{word_of};

use crate::aim::Goal;
use crate::draft::Draft;
use crate::fault::{ActFault, placed, refuse};
use plain_data::{Text, copy};
use sdf_values::{RefusalKind, TimeCode, TypeName, Value};
use std::mem;
use usda_fields::{KeyRule, rule_shape};
use usda_lexer::number_of;
use usda_statements::OpenValue;
use usda_values::{PartFault, Shape, finite_time};
use usda_words::Word;

#[tactic(auto, unfolding(crate::specs::Values::shape_of))]
fn shape_of(ty: Option<TypeName>) -> Shape
    ensures { result ≡ shape_of ty }
{
    match ty {
        None => Shape::Untyped,
        Some(ty) => Shape::Typed(ty),
    }
}

#[tactic(auto, unfolding(crate::specs::Values::is_selections))]
fn is_selections(goal: Goal) -> bool
    ensures { result ≡ is_selections goal }
{
    match goal {
        Goal::Variants => true,
        _ => false,
    }
}

/// The time that a number token is.
#[tactic(auto, unfolding(crate::specs::Values::time_of_number))]
fn time_of_text(text: &str) -> Result<TimeCode, PartFault>
    ensures { GivesPart result (time_of_number (number_of text.now)) }
{
    let Some(number) = number_of(text) else {
        return Err(PartFault::Refused(RefusalKind::NumberTooLong));
    };
    match finite_time(number) {
        Some(time) => Ok(time),
        None => Err(PartFault::Refused(RefusalKind::TimeRange)),
    }
}

impl Draft {
    /// The next value is for a key of metadata.
    #[tactic(auto, unfolding(crate::specs::Values::aimed_at_key))]
    pub(crate) fn aim_at_key(&mut self, goal: Goal, key: Text, rule: KeyRule)
        ensures { self.new ≡ aimed_at_key goal key rule self.old }
    {
        self.aim.goal = goal;
        self.aim.shape = rule_shape(rule);
        self.aim.key = key;
    }

    /// The next value is the default of the property in hand.
    #[tactic(auto, unfolding(crate::specs::Values::aimed_at_default))]
    pub(crate) fn aim_at_default(&mut self)
        ensures { self.new ≡ aimed_at_default self.old }
    {
        self.aim.goal = Goal::Default;
        self.aim.shape = shape_of(self.property.ty);
    }

    /// The time of a sample: the next value is its.
    #[tactic(auto, unfolding(crate::specs::Values::time_act))]
    pub fn take_time(&mut self, text: &str, at: usize) -> Result<(), ActFault>
        ensures { Does result self.new (time_act text.now at self.old) }
    {
        match time_of_text(text) {
            Ok(time) => {
                self.aim.goal = Goal::Sample;
                self.aim.shape = shape_of(self.property.ty);
                self.aim.time = time;
                Ok(())
            }
            Err(fault) => Err(placed(fault, at)),
        }
    }

    /// The value of a key of the owner's metadata.
    #[tactic(auto, unfolding(crate::specs::Values::completed))]
    fn complete_owner_key(&mut self, value: Value, at: usize) -> Result<(), ActFault>
        ensures { Does result self.new (completed Goal.OwnerKey value at self.old) }
    {
        let alloc = self.outer.allocator();
        match copy(&self.aim.key) {
            Ok(key) => match self.owner.said.put_value(alloc, key, value) {
                Ok(()) => Ok(()),
                Err(fault) => Err(placed(fault, at)),
            },
            Err(_) => {
                drop(value);
                Err(ActFault::NoMemory)
            }
        }
    }

    /// The value of a key of the metadata of the property in hand.
    #[tactic(auto, unfolding(crate::specs::Values::completed))]
    fn complete_property_key(&mut self, value: Value, at: usize) -> Result<(), ActFault>
        ensures { Does result self.new (completed Goal.PropertyKey value at self.old) }
    {
        let alloc = self.outer.allocator();
        match copy(&self.aim.key) {
            Ok(key) => match self.property.put_value(alloc, key, value) {
                Ok(()) => Ok(()),
                Err(fault) => Err(placed(fault, at)),
            },
            Err(_) => {
                drop(value);
                Err(ActFault::NoMemory)
            }
        }
    }

    /// A complete value goes to what it is for.
    #[tactic(auto, unfolding(crate::specs::Values::completed))]
    fn complete(&mut self, value: Value, at: usize) -> Result<(), ActFault>
        ensures { Does result self.new (completed self.old.aim.goal value at self.old) }
    {
        match self.aim.goal {
            Goal::Nothing => {
                drop(value);
                Ok(())
            }
            Goal::OwnerKey => self.complete_owner_key(value, at),
            Goal::Variants => {
                self.owner
                    .said
                    .put_selections(self.outer.allocator(), value)?;
                Ok(())
            }
            Goal::PropertyKey => self.complete_property_key(value, at),
            Goal::Default => {
                self.property.give_default(value);
                Ok(())
            }
            Goal::Sample => {
                self.property.give_sample(self.aim.time, value)?;
                Ok(())
            }
        }
    }

    /// A token of the value that is open.
    #[tactic(auto, unfolding(crate::specs::Values::token_act))]
    pub fn take_token(&mut self, word: &Word<'_>) -> Result<(), ActFault>
        ensures { Does result self.new (token_act (word_of word.now) self.old) }
    {
        let alloc = self.outer.allocator();
        if let Err(fault) = self
            .value
            .give(alloc, &self.owner.said.base, word.token, word.text)
        {
            return Err(placed(fault, word.start));
        }
        if self.value.is_open() {
            return Ok(());
        }
        let value = self.value.take(alloc);
        self.complete(value, word.start)
    }

    /// The first token of a value.
    #[tactic(auto, unfolding(crate::specs::Values::first_act))]
    pub(crate) fn take_first_token(&mut self, word: &Word<'_>) -> Result<(), ActFault>
        ensures { Does result self.new (first_act (word_of word.now) self.old) }
    {
        let alloc = self.outer.allocator();
        let opened = OpenValue::new(alloc, self.aim.shape, is_selections(self.aim.goal));
        drop(mem::replace(&mut self.value, opened));
        self.take_token(word)
    }
}
