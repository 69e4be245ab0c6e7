//! What each token adds to a draft, by the symbol that takes it.
ghost use Rattle.usda_drafts.specs.Refusals.{Does};
ghost use Rattle.usda_drafts.specs.Acts.{layers_act, prims_act, bodies_act, act};
ghost use Rattle.usda_words.specs.Sources.{word_of};

use crate::draft::Draft;
use crate::fault::{ActFault, placed, refuse};
use sdf_values::RefusalKind;
use usda_grammar::Symbol;
use usda_words::Word;

impl Draft {
    /// Takes a word of the statements of the layer, or of offsets.
    #[tactic(auto, unfolding(crate::specs::Acts::layers_act))]
    fn act_in_layer(&mut self, symbol: Symbol, word: &Word<'_>) -> Result<(), ActFault>
        ensures { Does result self.new (layers_act symbol (word_of word.now) self.old) }
    {
        match symbol {
            Symbol::HeadItems => self.take_head_item(word.kind, word),
            Symbol::SubLayersOrEnd => self.take_sublayer(word.kind, word),
            Symbol::OffsetItems => self.take_offset_key(word),
            Symbol::OffsetNumber => self.take_number(word),
            Symbol::RootStatements => self.take_root(word.kind, word),
            Symbol::RootPrims => self.take_root_order(word),
            Symbol::OpenBrace => self.take_open(word.start),
            Symbol::BodyEnd => self.take_body_end(),
            Symbol::PrimName => match self.take_prim_name(word.text) {
                Ok(()) => Ok(()),
                Err(fault) => Err(placed(fault, word.start)),
            },
            Symbol::SetName => match self.take_set_name(word.text) {
                Ok(()) => Ok(()),
                Err(fault) => Err(placed(fault, word.start)),
            },
            _ => Ok(()),
        }
    }

    /// Takes a word of the head of a prim, or of lists.
    #[tactic(auto, unfolding(crate::specs::Acts::prims_act))]
    fn act_in_prim(&mut self, symbol: Symbol, word: &Word<'_>) -> Result<(), ActFault>
        ensures { Does result self.new (prims_act symbol (word_of word.now) self.old) }
    {
        match symbol {
            Symbol::MaybeTypeName => self.take_prim_type(word.text),
            Symbol::MaybePrimMetadata => self.take_open(word.start),
            Symbol::PrimMetadata => self.take_prim_item(word.kind, word),
            Symbol::EditedField => self.take_edited(word.kind, word),
            Symbol::StringList
            | Symbol::StringsOrEnd
            | Symbol::MoreStrings
            | Symbol::PathList
            | Symbol::PathsOrEnd
            | Symbol::MorePaths => self.take_in_list(word.kind, word),
            Symbol::ReferenceList | Symbol::ReferencesOrEnd | Symbol::MoreReferences => {
                self.take_in_references(word.kind, word)
            }
            Symbol::MaybePath => self.take_item_path(word),
            Symbol::VariantList => match self.take_variant_name(word.text) {
                Ok(()) => Ok(()),
                Err(fault) => Err(placed(fault, word.start)),
            },
            _ => self.act_in_layer(symbol, word),
        }
    }

    /// Takes a word of the statements of a prim or a variant.
    #[tactic(auto, unfolding(crate::specs::Acts::bodies_act))]
    fn act_in_body(&mut self, symbol: Symbol, word: &Word<'_>) -> Result<(), ActFault>
        ensures { Does result self.new (bodies_act symbol (word_of word.now) self.old) }
    {
        match symbol {
            Symbol::PrimBody => self.take_body(word),
            Symbol::AfterCustom | Symbol::AfterEditedCustom => {
                self.take_after_custom(word.kind, word)
            }
            Symbol::AfterVariability | Symbol::AfterEditedVariability => {
                self.take_after_variability(word.kind, word)
            }
            Symbol::AfterEdit => self.take_after_edit(word.kind, word),
            Symbol::AfterReorder => self.take_after_reorder(word.kind, word),
            Symbol::MaybeBrackets => self.take_brackets(),
            Symbol::PropertyName => self.take_name(word),
            Symbol::MaybeAttributeTail => self.take_tail(word.kind),
            Symbol::AfterDot | Symbol::ConnectWord => self.take_dot(word.kind, word.start),
            Symbol::SamplesOrEnd => self.take_sample(word.kind, word),
            Symbol::MaybeTargets => self.start_list(),
            Symbol::PropertyMetadata => self.take_property_item(word.kind, word),
            Symbol::Value | Symbol::Dictionary => self.take_first_token(word),
            Symbol::NamesOrEnd => self.take_order_name(word.kind, word),
            _ => self.act_in_prim(symbol, word),
        }
    }

    /// Takes the word that the symbol takes, or tells why it is refused and where. After a refusal, and after want of memory, the draft
    /// is of no use.
    #[tactic(auto, unfolding(crate::specs::Acts::act))]
    pub fn act(&mut self, symbol: Symbol, word: &Word<'_>) -> Result<(), ActFault>
        ensures { Does result self.new (act symbol (word_of word.now) self.old) }
    {
        if word.too_long {
            return refuse(RefusalKind::NumberTooLong, word.start);
        }
        if self.value.is_open() {
            return self.take_token(word);
        }
        self.act_in_body(symbol, word)
    }
}
