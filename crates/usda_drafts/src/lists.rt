//! Lists of fields, of connections and targets, and of sublayers; offsets of their items.
ghost use Rattle.usda_drafts.specs.Refusals.{Does};
ghost use Rattle.usda_drafts.specs.Lists.{string_act, list_path_act, asset_act, lone_path_act, item_path_act, end_act, in_list_act, in_references_act, sublayer_act, offset_key_act, number_act};
ghost use Rattle.usda_words.specs.Sources.{word_of};

use crate::draft::{Draft, OpenList};
use crate::fault::{ActFault, placed};
use usda_fields::ListField;
use usda_grammar::WordKind;
use usda_lists::{offset_key, push_sublayer, set_sublayer_offset};
use usda_words::Word;

impl Draft {
    /// A string of a field.
    #[tactic(auto, unfolding(crate::specs::Lists::string_act))]
    fn take_string(&mut self, word: &Word<'_>) -> Result<(), ActFault>
        ensures { Does result self.new (string_act self.old.list (word_of word.now) self.old) }
    {
        let OpenList::Field(ListField::Texts(field)) = self.list else {
            return Ok(());
        };
        let alloc = self.outer.allocator();
        match self
            .owner
            .said
            .push_text(alloc, field, self.edit, word.text)
        {
            Ok(()) => Ok(()),
            Err(fault) => Err(placed(fault, word.start)),
        }
    }

    /// A path of a field, or of connections or targets.
    #[tactic(auto, unfolding(crate::specs::Lists::list_path_act))]
    fn take_list_path(&mut self, word: &Word<'_>) -> Result<(), ActFault>
        ensures { Does result self.new (list_path_act self.old.list (word_of word.now) self.old) }
    {
        let alloc = self.outer.allocator();
        let pushed = match self.list {
            OpenList::Field(ListField::Paths(field)) => {
                self.owner
                    .said
                    .push_path(alloc, field, self.edit, word.text)
            }
            OpenList::Property => self
                .property
                .push_path(alloc, &self.owner.said.base, word.text),
            _ => Ok(()),
        };
        match pushed {
            Ok(()) => Ok(()),
            Err(fault) => Err(placed(fault, word.start)),
        }
    }

    /// An asset of references or payloads.
    #[tactic(auto, unfolding(crate::specs::Lists::asset_act))]
    fn take_asset(&mut self, word: &Word<'_>) -> Result<(), ActFault>
        ensures { Does result self.new (asset_act self.old.list (word_of word.now) self.old) }
    {
        let OpenList::Field(ListField::References(field)) = self.list else {
            return Ok(());
        };
        let alloc = self.outer.allocator();
        self.owner
            .said
            .push_asset(alloc, field, self.edit, word.text)?;
        Ok(())
    }

    /// A path of references or payloads that stands alone.
    #[tactic(auto, unfolding(crate::specs::Lists::lone_path_act))]
    fn take_lone_path(&mut self, word: &Word<'_>) -> Result<(), ActFault>
        ensures { Does result self.new (lone_path_act self.old.list (word_of word.now) self.old) }
    {
        let OpenList::Field(ListField::References(field)) = self.list else {
            return Ok(());
        };
        let alloc = self.outer.allocator();
        match self
            .owner
            .said
            .push_lone_path(alloc, field, self.edit, word.text)
        {
            Ok(()) => Ok(()),
            Err(fault) => Err(placed(fault, word.start)),
        }
    }

    /// The path behind an asset.
    #[tactic(auto, unfolding(crate::specs::Lists::item_path_act))]
    pub(crate) fn take_item_path(&mut self, word: &Word<'_>) -> Result<(), ActFault>
        ensures { Does result self.new (item_path_act self.old.list (word_of word.now) self.old) }
    {
        let OpenList::Field(ListField::References(field)) = self.list else {
            return Ok(());
        };
        let alloc = self.outer.allocator();
        match self
            .owner
            .said
            .set_item_path(alloc, field, self.edit, word.text)
        {
            Ok(()) => Ok(()),
            Err(fault) => Err(placed(fault, word.start)),
        }
    }

    /// The `]` of a list.
    #[tactic(auto, unfolding(crate::specs::Lists::end_act))]
    fn take_end(&mut self) -> Result<(), ActFault>
        ensures { Does result self.new (end_act self.old.list self.old) }
    {
        let alloc = self.outer.allocator();
        match self.list {
            OpenList::Field(field) => self.owner.said.close_field(alloc, field, self.edit)?,
            OpenList::Property => self.property.end_list(alloc)?,
            OpenList::SubLayers => {}
        }
        Ok(())
    }

    /// A token of a list of strings or paths.
    #[tactic(auto, unfolding(crate::specs::Lists::in_list_act))]
    pub(crate) fn take_in_list(&mut self, kind: WordKind, word: &Word<'_>) -> Result<(), ActFault>
        ensures { Does result self.new (in_list_act kind (word_of word.now) self.old) }
    {
        match kind {
            WordKind::Quoted => self.take_string(word),
            WordKind::Path => self.take_list_path(word),
            WordKind::CloseBracket => self.take_end(),
            _ => Ok(()),
        }
    }

    /// A token of a list of references or payloads.
    #[tactic(auto, unfolding(crate::specs::Lists::in_references_act))]
    pub(crate) fn take_in_references(
        &mut self,
        kind: WordKind,
        word: &Word<'_>,
    ) -> Result<(), ActFault>
        ensures { Does result self.new (in_references_act kind (word_of word.now) self.old) }
    {
        match kind {
            WordKind::Asset => self.take_asset(word),
            WordKind::Path => self.take_lone_path(word),
            WordKind::CloseBracket => self.take_end(),
            _ => Ok(()),
        }
    }

    /// A sublayer, or the end of them.
    #[tactic(auto, unfolding(crate::specs::Lists::sublayer_act))]
    pub fn take_sublayer(&mut self, kind: WordKind, word: &Word<'_>) -> Result<(), ActFault>
        ensures { Does result self.new (sublayer_act kind (word_of word.now) self.old) }
    {
        match kind {
            WordKind::Asset => {
                push_sublayer(self.outer.allocator(), &mut self.sublayers, word.text)?;
                Ok(())
            }
            _ => Ok(()),
        }
    }

    /// `offset` or `scale`.
    #[tactic(auto, unfolding(crate::specs::Lists::offset_key_act))]
    pub(crate) fn take_offset_key(&mut self, word: &Word<'_>) -> Result<(), ActFault>
        ensures { Does result self.new (offset_key_act (word_of word.now) self.old) }
    {
        match offset_key(word.text) {
            Ok(key) => {
                self.offset_key = key;
                Ok(())
            }
            Err(fault) => Err(placed(fault, word.start)),
        }
    }

    /// The number of an offset or a scale.
    #[tactic(auto, unfolding(crate::specs::Lists::number_act))]
    pub(crate) fn take_number(&mut self, word: &Word<'_>) -> Result<(), ActFault>
        ensures { Does result self.new (number_act self.old.list (word_of word.now) self.old) }
    {
        let alloc = self.outer.allocator();
        let given = match self.list {
            OpenList::Field(ListField::References(field)) => {
                self.owner
                    .said
                    .set_item_offset(alloc, field, self.edit, self.offset_key, word.text)
            }
            OpenList::SubLayers => {
                set_sublayer_offset(&mut self.sublayers, self.offset_key, word.text)
            }
            _ => Ok(()),
        };
        match given {
            Ok(()) => Ok(()),
            Err(fault) => Err(placed(fault, word.start)),
        }
    }
}
