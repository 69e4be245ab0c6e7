//! A layer of which a part was read.
ghost use Rattle.std.specs.Prelude.{◌≡◌, IfOk};
ghost use Rattle.usda_drafts.specs.Drafts.{blank, layer_by, layer_of};

use crate::aim::{Aim, Goal};
use crate::head::head_from;
use crate::owner::Owner;
use plain_data::{Items, Text};
use sdf_paths::Path;
use sdf_specs::Layer;
use sdf_values::TimeCode;
use shared_tables::SharedTable;
use spec_parts::{Spec, Specifier, SubLayer};
use std::alloc::{AllocError, Global};
use std::mem;
use usda_fields::{ListField, OrderWord};
use usda_lists::{ListEdit, OffsetKey};
use usda_statements::{Heading, OpenValue, PropertyDraft};
use usda_values::Shape;

/// What stands before the name of a prim.
#[derive(Debug, Drop)]
pub struct Opening {
    /// What `def`, `over` or `class` says.
    pub specifier: Specifier,
    /// The type behind that word, where one stands there.
    pub type_name: Option<Text>,
    /// Whether the prim is inside 64 others, so that its metadata and its body are refused.
    pub is_too_deep: bool,
}

/// Which list is open.
#[derive(Clone, Copy, Debug, PartialEq, Eq)]
pub enum OpenList {
    /// That of a field of the owner.
    Field(ListField),
    /// The connections or targets of the property in hand.
    Property,
    /// The sublayers.
    SubLayers,
}

/// A layer of which a part was read: what is finished, the owners that are open, and the statement in hand.
#[derive(Debug, Drop)]
pub struct Draft {
    /// The specs of the prims and variants that are closed.
    pub specs: SharedTable<Path, Spec>,
    /// The innermost owner that is open; the layer itself is the outermost.
    pub owner: Owner,
    /// The owners round it, the outermost first.
    pub outer: Items<Owner>,
    /// The sublayers that were read, in their order.
    pub sublayers: Items<SubLayer>,
    /// Whether the sublayers were given.
    pub has_sublayers: bool,
    /// The prim that begins.
    pub opening: Opening,
    /// The edit word of the field, as an edit.
    pub edit: ListEdit,
    /// The edit word as it stands: it may be a key of metadata.
    pub word: Text,
    /// Where that word begins.
    pub word_at: usize,
    /// The words before the name of a property.
    pub heading: Heading,
    /// The property in hand.
    pub property: PropertyDraft,
    /// Where its name begins in this statement.
    pub name_at: usize,
    /// The list that is open.
    pub list: OpenList,
    /// What the names in brackets order.
    pub order: OrderWord,
    /// The key of an offset or a scale whose number comes next.
    pub offset_key: OffsetKey,
    /// What the next value is for.
    pub aim: Aim,
    /// The value that is being read, if one is.
    pub value: OpenValue,
}

impl Draft {
    /// The draft of which nothing is read yet.
    #[tactic(auto, unfolding(crate::specs::Drafts::blank))]
    pub fn blank(alloc: Global) -> Result<Draft, AllocError>
        ensures { IfOk result (λ draft. draft ≡ blank) }
    {
        let owner = Owner::new(alloc, Path::root(alloc), Specifier::Over, None)?;
        Ok(Draft {
            specs: SharedTable::new(alloc),
            owner,
            outer: Items::new(alloc),
            sublayers: Items::new(alloc),
            has_sublayers: false,
            opening: Opening {
                specifier: Specifier::Over,
                type_name: None,
                is_too_deep: false,
            },
            edit: ListEdit::Explicit,
            word: Text::new(alloc),
            word_at: 0,
            heading: Heading::new(ListEdit::Explicit),
            property: PropertyDraft::none(alloc),
            name_at: 0,
            list: OpenList::SubLayers,
            order: OrderWord::NameChildren,
            offset_key: OffsetKey::Offset,
            aim: Aim {
                goal: Goal::Nothing,
                shape: Shape::Untyped,
                key: Text::new(alloc),
                time: TimeCode { units: 0 },
            },
            value: OpenValue::none(alloc),
        })
    }

    /// The layer that has been read, where the default prim stands at this key; the draft is left with a blank owner.
    #[tactic(auto, unfolding(crate::specs::Drafts::layer_by))]
    fn take_parts(&mut self, alloc: Global, key: &Text, blank: Owner) -> Layer
        ensures { result ≡ layer_by key.now self.old }
    {
        let owner = mem::replace(&mut self.owner, blank);
        let sublayers = mem::replace(&mut self.sublayers, Items::new(alloc));
        let specs = mem::replace(&mut self.specs, SharedTable::new(alloc));
        Layer::from_parts(alloc, head_from(key, owner, sublayers), specs)
    }

    /// Takes the layer that has been read. The draft is of no use then.
    #[tactic(auto, unfolding(crate::specs::Drafts::layer_of))]
    pub fn take_layer(&mut self, alloc: Global) -> Result<Layer, AllocError>
        ensures { IfOk result (λ layer. layer ≡ layer_of self.old) }
    {
        let key = Text::of(alloc, "defaultPrim")?;
        let blank = Owner::new(alloc, Path::root(alloc), Specifier::Over, None)?;
        Ok(self.take_parts(alloc, &key, blank))
    }
}
