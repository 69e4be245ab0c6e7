ghost use Rattle.std.specs.Prelude.{◌≡◌, [], None, IfOk, OnOk, OnErr};
ghost use Rattle.layer_set.specs.Rules.{rule_at, nearest_rule, with_rule};

use plain_data::{ExactClone, Items, copy};
use sdf_paths::{Element, Path};
use shared_tables::SharedTable;
use std::alloc::{AllocError, Global};
use std::marker::Model;

/// Load rules by path. Copies share the rules, so that a change makes anew only what stands on the way to a rule.
///
/// The keys are lists of elements, so that the rule at a path's front is found without a path of its own.
/// Contracts see the list of paths and rules in the order of paths.
#[derive(Drop)]
pub struct Rules {
    rules: SharedTable<Items<Element>, bool>,
    alloc: Global,
}

impl Model for Rules {
    ghost use Rattle.std.specs.Prelude.{List, Bool};
    ghost use Rattle.sdf_paths.specs.declared.element.Element.{Element};

    ghost Value = { List (List Element × Bool) };

    ghost view = { λ r. r.rules };
}

/// A copy of elements.
fn copied_elements(alloc: Global, elements: &[Element]) -> Result<Items<Element>, AllocError>
    ensures { IfOk result (λ copied. copied ≡ elements.now) }
{
    let mut copied = Items::new(alloc);
    for element in elements {
        copied.push(copy(element)?)?;
    }
    Ok(copied)
}

impl Rules {
    /// No rules. Takes no memory.
    pub fn new(alloc: Global) -> Rules
        ensures { result ≡ [] }
    {
        Rules {
            rules: SharedTable::new(alloc),
            alloc,
        }
    }

    /// The rule at a path of these elements.
    pub fn get(&self, elements: &[Element]) -> Option<bool>
        ensures { result ≡ rule_at elements.now self.now }
    {
        self.rules.get_by_items(elements).copied()
    }

    /// The rule at a path of these elements, else at its longest front that has one.
    pub fn nearest(&self, elements: &[Element]) -> Option<bool>
        ensures { result ≡ nearest_rule elements.now self.now }
    {
        for j in 0..elements.len() {
            if let Some(rule) = self.get(&elements[..elements.len() - j]) {
                return Some(rule);
            }
        }
        None
    }

    /// Puts a rule at a path, or takes one away. After want of memory the rules are as before.
    pub fn set(&mut self, path: &Path, rule: Option<bool>) -> Result<(), AllocError>
        ensures ok { OnOk result (self.new ≡ with_rule path.now rule self.old) }
        ensures err { OnErr result (self.new ≡ self.old) }
    {
        let key = copied_elements(self.alloc, path.elements())?;
        match rule {
            Some(rule) => self.rules.insert(key, rule),
            None => self.take(key),
        }
    }

    /// Takes the rule at a path of these elements away. After want of memory the rules are as before.
    fn take(&mut self, key: Items<Element>) -> Result<(), AllocError>
        ensures ok { OnOk result (self.new ≡ with_rule key None self.old) }
        ensures err { OnErr result (self.new ≡ self.old) }
    {
        let taken = self.rules.remove(&key);
        drop(key);
        let _was_there = taken?;
        Ok(())
    }
}

impl Clone for Rules {
    ghost use Rattle.std.specs.Prelude.{◌≡◌};

    ghost is_clone = { λ x y. y ≡ x };

    fn clone(&self) -> Result<Rules, AllocError> {
        Ok(Rules {
            rules: self.rules.clone()?,
            alloc: self.alloc,
        })
    }
}

impl ExactClone for Rules {
    ghost copy_is_same = { λ x y h. h };
}
