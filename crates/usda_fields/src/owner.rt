//! What a prim or a variant says, as far as it is read.
ghost use Rattle.std.specs.Prelude.{◌≡◌, IfOk, OnOk};
ghost use Rattle.usda_lists.specs.Acts.{AsksNoMemory, Does, Gives};
ghost use Rattle.usda_fields.specs.Owners.{no_marks, owner_at, key_act, value_act, comment_act, order_word, order_act, push_ordered, ordered_act};
ghost use Rattle.usda_fields.specs.Variants.{variants_act, selections_act};

use crate::keys::{KeyRule, judge_key, put_comment, put_value};
use crate::names::text_of;
use crate::variants::selections_of;
use plain_data::Text;
use sdf_paths::Path;
use sdf_values::{RefusalKind, Value};
use spec_parts::{Spec, Specifier};
use std::alloc::{AllocError, Global};
use std::mem;
use usda_lists::GivenLists;
use usda_values::PartFault;

/// Which statements of an owner were given that it has once.
#[derive(Clone, Copy, Debug, PartialEq, Eq)]
pub struct OwnerMarks {
    /// The lists of `inherits`.
    pub inherits: GivenLists,
    /// The lists of `specializes`.
    pub specializes: GivenLists,
    /// The lists of `references`.
    pub references: GivenLists,
    /// The lists of `payload`.
    pub payloads: GivenLists,
    /// The lists of `variantSets`.
    pub variant_sets: GivenLists,
    /// The lists of `apiSchemas`.
    pub api_schemas: GivenLists,
    /// The lists of `clipSets`.
    pub clip_sets: GivenLists,
    /// The dictionary of selected variants.
    pub variants: bool,
    /// The order of children.
    pub child_order: bool,
    /// The order of properties.
    pub property_order: bool,
}

/// What an order of names speaks of.
#[derive(Clone, Copy, Debug, PartialEq, Eq)]
pub enum OrderWord {
    /// The children of a prim.
    NameChildren,
    /// The properties of a prim.
    PropertyNames,
}

/// A prim or a variant of which some statements are read. After a fault it is of no use.
#[derive(Debug, Drop)]
pub struct OwnerDraft {
    /// Its path, with selections.
    pub path: Path,
    /// The plain path of its prim, from which relative paths are taken.
    pub base: Path,
    /// What is said so far.
    pub spec: Spec,
    /// Which statements were given.
    pub given: OwnerMarks,
}

impl OwnerMarks {
    /// Nothing was given.
    pub fn none() -> OwnerMarks
        ensures { result ≡ no_marks }
    {
        OwnerMarks {
            inherits: GivenLists::none(),
            specializes: GivenLists::none(),
            references: GivenLists::none(),
            payloads: GivenLists::none(),
            variant_sets: GivenLists::none(),
            api_schemas: GivenLists::none(),
            clip_sets: GivenLists::none(),
            variants: false,
            child_order: false,
            property_order: false,
        }
    }
}

impl OrderWord {
    /// The word `nameChildren`, and for any other word `properties`.
    pub fn of_word(word: &str) -> OrderWord
        ensures { result ≡ order_word word.now }
    {
        if word == "nameChildren" {
            OrderWord::NameChildren
        } else {
            OrderWord::PropertyNames
        }
    }
}

impl OwnerDraft {
    /// An owner of which nothing is read yet.
    pub fn new(alloc: Global, path: Path, specifier: Specifier) -> Result<OwnerDraft, AllocError>
        ensures { IfOk result (λ owner. owner ≡ owner_at path specifier) }
    {
        Ok(OwnerDraft {
            base: path.plain()?,
            path,
            spec: Spec::blank(alloc, specifier),
            given: OwnerMarks::none(),
        })
    }

    /// What a key of metadata expects, before its value is read. `DuplicateSpec` where it is there already, `Relocates` for the key of
    /// that name.
    pub fn judge_key(&self, key: &Text) -> Result<KeyRule, PartFault>
        ensures answer { Gives result (key_act key.now self.now) }
        ensures sure { AsksNoMemory result }
    {
        judge_key(&self.spec.body.meta, key)
    }

    /// Puts the whole value of a key. `ValueShape` where the key does not take it.
    pub fn put_value(&mut self, alloc: Global, key: Text, value: Value) -> Result<(), PartFault>
        ensures { Does result self.new (value_act key value self.old) }
    {
        if let Err(fault) = put_value(alloc, &mut self.spec.body.meta, key, value) {
            return Err(fault);
        }
        Ok(())
    }

    /// Puts a string that stands alone among the metadata. `NotUtf8` where its escapes make bytes that are not UTF-8, `DuplicateSpec`
    /// where there is a comment already.
    pub fn put_comment(&mut self, alloc: Global, token: &str) -> Result<(), PartFault>
        ensures { Does result self.new (comment_act token.now self.old) }
    {
        if let Err(fault) = put_comment(alloc, &mut self.spec.body.meta, token) {
            return Err(fault);
        }
        Ok(())
    }

    /// Takes the word of an order of names. `DuplicateSpec` where there was a statement of this word before.
    pub fn give_order(&mut self, word: OrderWord) -> Result<(), PartFault>
        ensures answer { Does result self.new (order_act word self.old) }
        ensures sure { AsksNoMemory result }
    {
        match word {
            OrderWord::NameChildren => {
                if self.given.child_order {
                    return Err(PartFault::Refused(RefusalKind::DuplicateSpec));
                }
                self.given.child_order = true;
            }
            OrderWord::PropertyNames => {
                if self.given.property_order {
                    return Err(PartFault::Refused(RefusalKind::DuplicateSpec));
                }
                self.given.property_order = true;
            }
        }
        Ok(())
    }

    fn push_name(&mut self, word: OrderWord, name: Text) -> Result<(), AllocError>
        ensures { OnOk result (self.new ≡ push_ordered word name self.old) }
    {
        match word {
            OrderWord::NameChildren => self.spec.body.child_order.push(name),
            OrderWord::PropertyNames => self.spec.body.property_order.push(name),
        }
    }

    /// Adds a name to an order, by its string token: any text, and repeats stay. `NotUtf8` where its escapes make bytes that are not
    /// UTF-8.
    pub fn push_ordered(
        &mut self,
        alloc: Global,
        word: OrderWord,
        token: &str,
    ) -> Result<(), PartFault>
        ensures { Does result self.new (ordered_act word token.now self.old) }
    {
        match text_of(alloc, token) {
            Ok(name) => {
                self.push_name(word, name)?;
                Ok(())
            }
            Err(fault) => Err(fault),
        }
    }

    /// Takes the word `variants`. `DuplicateSpec` where it stood before.
    pub fn give_variants(&mut self) -> Result<(), PartFault>
        ensures answer { Does result self.new (variants_act self.old) }
        ensures sure { AsksNoMemory result }
    {
        if self.given.variants {
            return Err(PartFault::Refused(RefusalKind::DuplicateSpec));
        }
        self.given.variants = true;
        Ok(())
    }

    /// Takes the whole dictionary of `variants`, whose entries are strings: a set and its variant each.
    pub fn put_selections(&mut self, alloc: Global, value: Value) -> Result<(), AllocError>
        ensures { OnOk result (self.new ≡ selections_act value self.old) }
    {
        let selections = selections_of(alloc, value)?;
        drop(mem::replace(&mut self.spec.arcs.selections, selections));
        Ok(())
    }
}
