//! Statements of a prim or a variant on its properties.
ghost use Rattle.usda_drafts.specs.Refusals.{Does};
ghost use Rattle.usda_drafts.specs.Bodies.{type_act, after_variability_act, after_custom_act, after_edit_act, after_reorder_act, statement_act, body_act, brackets_act, name_act, default_begun, samples_begun, list_begun, tail_act, dot_act, sample_act};
ghost use Rattle.usda_words.specs.Sources.{word_of};

use crate::draft::{Draft, OpenList};
use crate::fault::{ActFault, placed, refuse};
use plain_data::Text;
use sdf_values::RefusalKind;
use std::mem;
use usda_grammar::{Keyword, WordKind};
use usda_lists::ListEdit;
use usda_statements::Heading;
use usda_words::Word;

impl Draft {
    /// Takes the word of an attribute's type.
    #[tactic(auto, unfolding(crate::specs::Bodies::type_act))]
    fn take_type(&mut self, word: &Word<'_>) -> Result<(), ActFault>
        ensures { Does result self.new (type_act (word_of word.now) self.old) }
    {
        match self.heading.set_type(word.text) {
            Ok(()) => Ok(()),
            Err(fault) => Err(placed(fault, word.start)),
        }
    }

    /// A word behind `uniform` or `varying`: `rel`, or a type.
    #[tactic(auto, unfolding(crate::specs::Bodies::after_variability_act))]
    pub(crate) fn take_after_variability(
        &mut self,
        kind: WordKind,
        word: &Word<'_>,
    ) -> Result<(), ActFault>
        ensures { Does result self.new (after_variability_act kind (word_of word.now) self.old) }
    {
        match kind {
            WordKind::Word(Keyword::Rel) => {
                self.heading.set_relationship();
                Ok(())
            }
            _ => self.take_type(word),
        }
    }

    /// A word behind `custom`: the same, or `uniform` or `varying`.
    #[tactic(auto, unfolding(crate::specs::Bodies::after_custom_act))]
    pub(crate) fn take_after_custom(
        &mut self,
        kind: WordKind,
        word: &Word<'_>,
    ) -> Result<(), ActFault>
        ensures { Does result self.new (after_custom_act kind (word_of word.now) self.old) }
    {
        match kind {
            WordKind::Word(Keyword::Variability) => {
                self.heading.set_variability(word.text);
                Ok(())
            }
            _ => self.take_after_variability(kind, word),
        }
    }

    /// A word behind an edit word: the same, or `custom`.
    #[tactic(auto, unfolding(crate::specs::Bodies::after_edit_act))]
    pub(crate) fn take_after_edit(
        &mut self,
        kind: WordKind,
        word: &Word<'_>,
    ) -> Result<(), ActFault>
        ensures { Does result self.new (after_edit_act kind (word_of word.now) self.old) }
    {
        match kind {
            WordKind::Word(Keyword::Custom) => {
                self.heading.set_custom();
                Ok(())
            }
            _ => self.take_after_custom(kind, word),
        }
    }

    /// A word behind `reorder`: the same, or a field of names.
    #[tactic(auto, unfolding(crate::specs::Bodies::after_reorder_act))]
    pub(crate) fn take_after_reorder(
        &mut self,
        kind: WordKind,
        word: &Word<'_>,
    ) -> Result<(), ActFault>
        ensures { Does result self.new (after_reorder_act kind (word_of word.now) self.old) }
    {
        match kind {
            WordKind::Word(Keyword::OrderedField) => self.take_order(word),
            _ => self.take_after_edit(kind, word),
        }
    }

    #[tactic(auto, unfolding(crate::specs::Bodies::statement_act))]
    fn take_statement(&mut self, kind: WordKind, word: &Word<'_>) -> Result<(), ActFault>
        ensures { Does result self.new (statement_act kind (word_of word.now) self.old) }
    {
        match kind {
            WordKind::Word(Keyword::Specifier) => self.take_specifier(word.text),
            WordKind::Word(Keyword::VariantSet) => Ok(()),
            WordKind::Word(Keyword::Edit) | WordKind::Word(Keyword::Reorder) => {
                self.heading = Heading::new(ListEdit::of_word(word.text));
                Ok(())
            }
            _ => {
                self.heading = Heading::new(ListEdit::Explicit);
                self.take_after_edit(kind, word)
            }
        }
    }

    /// The first word of a statement: the one before is over.
    #[tactic(auto, unfolding(crate::specs::Bodies::body_act))]
    pub(crate) fn take_body(&mut self, word: &Word<'_>) -> Result<(), ActFault>
        ensures { Does result self.new (body_act (word_of word.now) self.old) }
    {
        self.end_statement()?;
        self.take_statement(word.kind, word)
    }

    /// Brackets behind the type.
    #[tactic(auto, unfolding(crate::specs::Bodies::brackets_act))]
    pub(crate) fn take_brackets(&mut self) -> Result<(), ActFault>
        ensures { Does result self.new (brackets_act self.old) }
    {
        self.heading.set_array();
        Ok(())
    }

    /// The name of a property.
    #[tactic(auto, unfolding(crate::specs::Bodies::name_act))]
    pub(crate) fn take_name(&mut self, word: &Word<'_>) -> Result<(), ActFault>
        ensures { Does result self.new (name_act (word_of word.now) self.old) }
    {
        let alloc = self.outer.allocator();
        let name = Text::of(alloc, word.text)?;
        match self.owner.take_property(alloc, self.heading, name) {
            Ok(property) => {
                drop(mem::replace(&mut self.property, property));
                self.name_at = word.start;
                Ok(())
            }
            Err(fault) => Err(placed(fault, word.start)),
        }
    }

    /// Takes the `=` of a default.
    #[tactic(auto, unfolding(crate::specs::Bodies::default_begun))]
    fn start_default(&mut self) -> Result<(), ActFault>
        ensures { Does result self.new (default_begun self.old) }
    {
        match self.property.start_default() {
            Ok(()) => {
                self.aim_at_default();
                Ok(())
            }
            Err(fault) => Err(placed(fault, self.name_at)),
        }
    }

    /// Takes the word `timeSamples`.
    #[tactic(auto, unfolding(crate::specs::Bodies::samples_begun))]
    fn start_samples(&mut self) -> Result<(), ActFault>
        ensures { Does result self.new (samples_begun self.old) }
    {
        match self.property.start_samples() {
            Ok(()) => Ok(()),
            Err(fault) => Err(placed(fault, self.name_at)),
        }
    }

    /// The word `connect`, or the `=` of a relationship's targets.
    #[tactic(auto, unfolding(crate::specs::Bodies::list_begun))]
    pub fn start_list(&mut self) -> Result<(), ActFault>
        ensures { Does result self.new (list_begun self.old) }
    {
        match self.property.start_list() {
            Ok(()) => {
                self.list = OpenList::Property;
                Ok(())
            }
            Err(fault) => Err(placed(fault, self.name_at)),
        }
    }

    /// What stands directly behind the name of an attribute: the `=` of a default, or a mark that adds nothing.
    #[tactic(auto, unfolding(crate::specs::Bodies::tail_act))]
    pub(crate) fn take_tail(&mut self, kind: WordKind) -> Result<(), ActFault>
        ensures { Does result self.new (tail_act kind self.old) }
    {
        match kind {
            WordKind::Equals => self.start_default(),
            _ => Ok(()),
        }
    }

    /// The word behind the `.` of an attribute.
    #[tactic(auto, unfolding(crate::specs::Bodies::dot_act))]
    pub(crate) fn take_dot(&mut self, kind: WordKind, at: usize) -> Result<(), ActFault>
        ensures { Does result self.new (dot_act kind at self.old) }
    {
        match kind {
            WordKind::Word(Keyword::TimeSamples) => self.start_samples(),
            WordKind::Word(Keyword::Connect) => self.start_list(),
            _ => refuse(RefusalKind::Spline, at),
        }
    }

    /// The time of a sample, or the end of the samples.
    #[tactic(auto, unfolding(crate::specs::Bodies::sample_act))]
    pub(crate) fn take_sample(&mut self, kind: WordKind, word: &Word<'_>) -> Result<(), ActFault>
        ensures { Does result self.new (sample_act kind (word_of word.now) self.old) }
    {
        match kind {
            WordKind::Number => self.take_time(word.text, word.start),
            _ => Ok(()),
        }
    }
}
