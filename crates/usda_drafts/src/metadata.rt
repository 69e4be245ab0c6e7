//! Metadata of the layer, of prims and variants, and of properties; and orders of names.
ghost use Rattle.usda_lists.specs.Acts.{Gives as GivesPart};
ghost use Rattle.usda_drafts.specs.Refusals.{Does};
ghost use Rattle.usda_drafts.specs.Metadata.{comment_act, key_act, variants_act, field_act, string_field_act, path_field_act, reference_field_act, edit_act, edited_act, prim_item_act, sublayers_act, head_item_act, root_act, ordered_by, order_act, root_order_act, order_name_act, property_rule, property_key_act, property_item_act};
ghost use Rattle.usda_words.specs.Sources.{word_of};

use crate::aim::Goal;
use crate::draft::{Draft, OpenList};
use crate::fault::{ActFault, placed, refuse};
use plain_data::{Text, copy};
use sdf_values::RefusalKind;
use usda_fields::{KeyRule, ListField, OrderWord, PathField, ReferenceField, TextField};
use usda_grammar::{Keyword, WordKind};
use usda_lists::ListEdit;
use usda_statements::PropertyDraft;
use usda_values::{PartFault, Shape};
use usda_words::Word;

/// What a key of the property's metadata expects.
#[tactic(auto, unfolding(crate::specs::Metadata::property_rule))]
fn property_rule(property: &PropertyDraft, key: &Text) -> Result<KeyRule, PartFault>
    ensures { GivesPart result (property_rule key.now property.now) }
{
    property.judge_key(key)
}

impl Draft {
    /// A string alone.
    #[tactic(auto, unfolding(crate::specs::Metadata::comment_act))]
    fn take_comment(&mut self, word: &Word<'_>) -> Result<(), ActFault>
        ensures { Does result self.new (comment_act (word_of word.now) self.old) }
    {
        match self
            .owner
            .said
            .put_comment(self.outer.allocator(), word.text)
        {
            Ok(()) => Ok(()),
            Err(fault) => Err(placed(fault, word.start)),
        }
    }

    /// A key of metadata, which begins here.
    #[tactic(auto, unfolding(crate::specs::Metadata::key_act))]
    fn take_key(&mut self, key: Text, at: usize) -> Result<(), ActFault>
        ensures { Does result self.new (key_act key at self.old) }
    {
        match self.owner.said.judge_key(&key) {
            Ok(rule) => {
                self.aim_at_key(Goal::OwnerKey, key, rule);
                Ok(())
            }
            Err(fault) => Err(placed(fault, at)),
        }
    }

    fn take_key_word(&mut self, word: &Word<'_>) -> Result<(), ActFault>
        ensures { Does result self.new (key_act word.now.text.now word.now.start self.old) }
    {
        let key = Text::of(self.outer.allocator(), word.text)?;
        self.take_key(key, word.start)
    }

    /// The word `variants`.
    #[tactic(auto, unfolding(crate::specs::Metadata::variants_act))]
    fn take_variants(&mut self, word: &Word<'_>) -> Result<(), ActFault>
        ensures { Does result self.new (variants_act (word_of word.now) self.old) }
    {
        match self.owner.said.give_variants() {
            Ok(()) => {
                self.aim.goal = Goal::Variants;
                self.aim.shape = Shape::Dictionary;
                Ok(())
            }
            Err(fault) => Err(placed(fault, word.start)),
        }
    }

    /// A field whose list is edited.
    #[tactic(auto, unfolding(crate::specs::Metadata::field_act))]
    fn take_field(&mut self, field: ListField, edit: ListEdit, at: usize) -> Result<(), ActFault>
        ensures { Does result self.new (field_act field edit at self.old) }
    {
        match self
            .owner
            .said
            .give_field(self.outer.allocator(), field, edit)
        {
            Ok(()) => {
                self.list = OpenList::Field(field);
                self.edit = edit;
                Ok(())
            }
            Err(fault) => Err(placed(fault, at)),
        }
    }

    #[tactic(auto, unfolding(crate::specs::Metadata::string_field_act))]
    fn take_string_field(&mut self, edit: ListEdit, word: &Word<'_>) -> Result<(), ActFault>
        ensures { Does result self.new (string_field_act edit (word_of word.now) self.old) }
    {
        self.take_field(
            ListField::Texts(TextField::of_word(word.text)),
            edit,
            word.start,
        )
    }

    #[tactic(auto, unfolding(crate::specs::Metadata::path_field_act))]
    fn take_path_field(&mut self, edit: ListEdit, word: &Word<'_>) -> Result<(), ActFault>
        ensures { Does result self.new (path_field_act edit (word_of word.now) self.old) }
    {
        self.take_field(
            ListField::Paths(PathField::of_word(word.text)),
            edit,
            word.start,
        )
    }

    #[tactic(auto, unfolding(crate::specs::Metadata::reference_field_act))]
    fn take_reference_field(&mut self, edit: ListEdit, word: &Word<'_>) -> Result<(), ActFault>
        ensures { Does result self.new (reference_field_act edit (word_of word.now) self.old) }
    {
        self.take_field(
            ListField::References(ReferenceField::of_word(word.text)),
            edit,
            word.start,
        )
    }

    /// An edit word, which may be a key.
    #[tactic(auto, unfolding(crate::specs::Metadata::edit_act))]
    fn take_edit(&mut self, word: &Word<'_>) -> Result<(), ActFault>
        ensures { Does result self.new (edit_act (word_of word.now) self.old) }
    {
        self.word = Text::of(self.outer.allocator(), word.text)?;
        self.edit = ListEdit::of_word(word.text);
        self.word_at = word.start;
        Ok(())
    }

    /// The edit word is a key.
    fn take_edit_key(&mut self) -> Result<(), ActFault>
        ensures { Does result self.new (key_act self.old.word self.old.word_at self.old) }
    {
        let key = copy(&self.word)?;
        self.take_key(key, self.word_at)
    }

    /// What stands behind an edit word: a field, or the `=` of a key of that name.
    #[tactic(auto, unfolding(crate::specs::Metadata::edited_act))]
    pub(crate) fn take_edited(&mut self, kind: WordKind, word: &Word<'_>) -> Result<(), ActFault>
        ensures { Does result self.new (edited_act kind (word_of word.now) self.old) }
    {
        match kind {
            WordKind::Equals => self.take_edit_key(),
            WordKind::Word(Keyword::StringField) => self.take_string_field(self.edit, word),
            WordKind::Word(Keyword::PathField) => self.take_path_field(self.edit, word),
            WordKind::Word(Keyword::ReferenceField) => self.take_reference_field(self.edit, word),
            _ => Ok(()),
        }
    }

    /// Metadata of a prim or a variant.
    #[tactic(auto, unfolding(crate::specs::Metadata::prim_item_act))]
    pub(crate) fn take_prim_item(&mut self, kind: WordKind, word: &Word<'_>) -> Result<(), ActFault>
        ensures { Does result self.new (prim_item_act kind (word_of word.now) self.old) }
    {
        match kind {
            WordKind::Quoted => self.take_comment(word),
            WordKind::Word(Keyword::Edit) | WordKind::Word(Keyword::Reorder) => {
                self.take_edit(word)
            }
            WordKind::Word(Keyword::Variants) => self.take_variants(word),
            WordKind::Word(Keyword::StringField) => {
                self.take_string_field(ListEdit::Explicit, word)
            }
            WordKind::Word(Keyword::PathField) => self.take_path_field(ListEdit::Explicit, word),
            WordKind::Word(Keyword::ReferenceField) => {
                self.take_reference_field(ListEdit::Explicit, word)
            }
            _ => self.take_key_word(word),
        }
    }

    /// The word `subLayers`.
    #[tactic(auto, unfolding(crate::specs::Metadata::sublayers_act))]
    fn take_sublayers(&mut self, at: usize) -> Result<(), ActFault>
        ensures { Does result self.new (sublayers_act at self.old) }
    {
        if self.has_sublayers {
            return refuse(RefusalKind::DuplicateSpec, at);
        }
        self.has_sublayers = true;
        self.list = OpenList::SubLayers;
        Ok(())
    }

    /// Metadata of the layer.
    #[tactic(auto, unfolding(crate::specs::Metadata::head_item_act))]
    pub(crate) fn take_head_item(&mut self, kind: WordKind, word: &Word<'_>) -> Result<(), ActFault>
        ensures { Does result self.new (head_item_act kind (word_of word.now) self.old) }
    {
        match kind {
            WordKind::Quoted => self.take_comment(word),
            WordKind::Word(Keyword::SubLayers) => self.take_sublayers(word.start),
            _ => self.take_key_word(word),
        }
    }

    /// A root prim, or `reorder`.
    #[tactic(auto, unfolding(crate::specs::Metadata::root_act))]
    pub(crate) fn take_root(&mut self, kind: WordKind, word: &Word<'_>) -> Result<(), ActFault>
        ensures { Does result self.new (root_act kind (word_of word.now) self.old) }
    {
        match kind {
            WordKind::Word(Keyword::Specifier) => self.take_specifier(word.text),
            _ => Ok(()),
        }
    }

    /// The word of an order of names.
    #[tactic(auto, unfolding(crate::specs::Metadata::ordered_by))]
    fn order_by(&mut self, order: OrderWord, at: usize) -> Result<(), ActFault>
        ensures { Does result self.new (ordered_by order at self.old) }
    {
        match self.owner.said.give_order(order) {
            Ok(()) => {
                self.order = order;
                Ok(())
            }
            Err(fault) => Err(placed(fault, at)),
        }
    }

    /// `nameChildren` or `properties`.
    #[tactic(auto, unfolding(crate::specs::Metadata::order_act))]
    pub(crate) fn take_order(&mut self, word: &Word<'_>) -> Result<(), ActFault>
        ensures { Does result self.new (order_act (word_of word.now) self.old) }
    {
        self.order_by(OrderWord::of_word(word.text), word.start)
    }

    /// `rootPrims`.
    #[tactic(auto, unfolding(crate::specs::Metadata::root_order_act))]
    pub(crate) fn take_root_order(&mut self, word: &Word<'_>) -> Result<(), ActFault>
        ensures { Does result self.new (root_order_act (word_of word.now) self.old) }
    {
        self.order_by(OrderWord::NameChildren, word.start)
    }

    #[tactic(auto, unfolding(crate::specs::Metadata::order_name_act))]
    fn push_order_name(&mut self, word: &Word<'_>) -> Result<(), ActFault>
        ensures { Does result self.new (order_name_act WordKind.Quoted (word_of word.now) self.old) }
    {
        let alloc = self.outer.allocator();
        match self.owner.said.push_ordered(alloc, self.order, word.text) {
            Ok(()) => Ok(()),
            Err(fault) => Err(placed(fault, word.start)),
        }
    }

    /// A name of an order, or the end of the names.
    #[tactic(auto, unfolding(crate::specs::Metadata::order_name_act))]
    pub(crate) fn take_order_name(
        &mut self,
        kind: WordKind,
        word: &Word<'_>,
    ) -> Result<(), ActFault>
        ensures { Does result self.new (order_name_act kind (word_of word.now) self.old) }
    {
        match kind {
            WordKind::Quoted => self.push_order_name(word),
            _ => Ok(()),
        }
    }

    #[tactic(auto, unfolding(crate::specs::Metadata::property_item_act))]
    fn take_property_comment(&mut self, word: &Word<'_>) -> Result<(), ActFault>
        ensures { Does result self.new (property_item_act WordKind.Quoted (word_of word.now) self.old) }
    {
        match self.property.put_comment(self.outer.allocator(), word.text) {
            Ok(()) => Ok(()),
            Err(fault) => Err(placed(fault, word.start)),
        }
    }

    #[tactic(auto, unfolding(crate::specs::Metadata::property_key_act))]
    fn take_property_key(&mut self, word: &Word<'_>) -> Result<(), ActFault>
        ensures { Does result self.new (property_key_act (word_of word.now) self.old) }
    {
        let key = Text::of(self.outer.allocator(), word.text)?;
        match property_rule(&self.property, &key) {
            Ok(rule) => {
                self.aim_at_key(Goal::PropertyKey, key, rule);
                Ok(())
            }
            Err(fault) => Err(placed(fault, word.start)),
        }
    }

    /// Metadata of a property.
    #[tactic(auto, unfolding(crate::specs::Metadata::property_item_act))]
    pub(crate) fn take_property_item(
        &mut self,
        kind: WordKind,
        word: &Word<'_>,
    ) -> Result<(), ActFault>
        ensures { Does result self.new (property_item_act kind (word_of word.now) self.old) }
    {
        match kind {
            WordKind::Quoted => self.take_property_comment(word),
            _ => self.take_property_key(word),
        }
    }
}
