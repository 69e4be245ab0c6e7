//! The walk over the sublayers of a stack, with the layers that are open on a stack of its own.
ghost use Rattle.std.specs.Prelude.{◌≡◌, [], ◌∷◌, MatchOption, IfOk, OnOk};
ghost use Rattle.composition.specs.Stacks.{nothing_listed, sublayers_of};
ghost use Rattle.layer_set.specs.LookUps.{look_ups, heading_of};
ghost use Rattle.layer_stack.specs.Listing.{looked, next_of};
ghost use Rattle.layer_stack.specs.Meant.{with_stack};
ghost use Rattle.layer_stack.specs.Visiting.{is_above, chain_of, Marked, Opens, Visits};

use crate::draft::StackDraft;
use crate::frames::{Frame, Frames};
use crate::look::followed;
use asset_names::AssetId;
use layer_set::{Held, World, anchored};
use plain_data::{Text, copy};
use prim_view::SublayerReason;
use sdf_specs::SubLayer;
use sdf_values::LayerOffset;
use spec_tables::OrderedTable;
use std::alloc::{AllocError, Global};

/// Layers by name: true for those whose sublayers are being visited, false for others that are listed.
pub type Marks = OrderedTable<AssetId, bool>;

/// Whether a name stands on the chain.
fn is_above(marks: &Marks, name: &AssetId) -> bool
    ensures { result ≡ is_above marks.now name.now }
{
    match marks.get(name) {
        Some(open) => *open,
        None => false,
    }
}

/// Looks at a sublayer that a layer lists: notes what is asked, and the fault where it is not followed. Answers the layer that may be
/// listed next, with its offset towards the stack.
fn look(
    alloc: Global,
    world: &World,
    draft: &mut StackDraft,
    marks: &Marks,
    layer: &AssetId,
    outer: LayerOffset,
    sub: &SubLayer,
) -> Result<Option<(AssetId, LayerOffset)>, AllocError>
    ensures draft { OnOk result (draft.new ≡ looked (look_ups world.now) (is_above marks.now) layer.now outer draft.old sub.now) }
    ensures next { IfOk result (λ next. next ≡ next_of (look_ups world.now) (is_above marks.now) layer.now outer sub.now) }
{
    let Some(name) = anchored(alloc, layer, sub.asset.as_str())? else {
        draft.add_fault(SublayerReason::Missing, layer, copy(&sub.asset)?)?;
        return Ok(None);
    };
    draft.add_asked(&name)?;
    match followed(is_above(marks, &name), world.held(&name), sub.offset, outer) {
        Ok(offset) => Ok(Some((name, offset))),
        Err(reason) => {
            draft.add_fault(reason, layer, Text::of(alloc, name.text())?)?;
            Ok(None)
        }
    }
}

/// The sublayers of what stands at a name.
fn sublayers(held: &Held) -> &[SubLayer]
    ensures { result.now ≡ sublayers_of (heading_of held.now) }
{
    match held {
        Held::Present(layer) => layer.head().sublayers.as_slice(),
        Held::Absent => &[],
        Held::Broken(_) => &[],
    }
}

/// The first item and the others.
fn first_and_more<T>(items: &[T]) -> Option<(&T, &[T])>
    ensures { MatchOption result (items.now ≡ []) (λ p. items.now ≡ p.0.now ∷ p.1.now) }
{
    items.split_first()
}

/// A walk over the sublayers of a stack: the stack so far, its names, and the layers on the chain.
#[derive(Drop)]
pub struct Walk<'w> {
    draft: StackDraft,
    marks: Marks,
    frames: Frames<'w>,
    alloc: Global,
}

impl<'w> Walk<'w> {
    /// Nothing yet. Takes no memory.
    pub fn new(alloc: Global) -> Walk<'w>
        ensures draft { result.draft ≡ nothing_listed }
        ensures frames { result.frames ≡ [] }
        ensures marked { Marked result.marks [] [] }
    {
        Walk {
            draft: StackDraft::new(alloc),
            marks: OrderedTable::new(alloc),
            frames: Frames::new(alloc),
            alloc,
        }
    }

    /// Lists a layer, unless it is listed or as many layers as may be stand on the chain.
    fn open(
        &mut self,
        world: &'w World,
        most: usize,
        name: AssetId,
        offset: LayerOffset,
    ) -> Result<(), AllocError>
        requires { Marked self.old.marks (chain_of self.old.frames) self.old.draft.layers }
        ensures marked { OnOk result (Marked self.new.marks (chain_of self.new.frames) self.new.draft.layers) }
        ensures opened { OnOk result (Opens (look_ups world.now) most self.old.frames name offset self.old.draft self.new.frames self.new.draft) }
    {
        if self.frames.len() >= most || self.marks.has(&name) {
            return Ok(());
        }
        let rest = sublayers(world.held(&name));
        self.draft.add_layer(copy(&name)?, offset)?;
        self.marks.insert(copy(&name)?, true)?;
        self.frames.push(Frame {
            layer: name,
            offset,
            rest,
        })?;
        Ok(())
    }

    /// Visits the next sublayer of the innermost layer, which was taken out; without one it is done.
    fn visit(&mut self, world: &'w World, most: usize, frame: Frame<'w>) -> Result<(), AllocError>
        requires { Marked self.old.marks (chain_of (frame ∷ self.old.frames)) self.old.draft.layers }
        ensures marked { OnOk result (Marked self.new.marks (chain_of self.new.frames) self.new.draft.layers) }
        ensures visited { OnOk result (Visits (look_ups world.now) most (frame.entry ∷ self.old.frames) self.old.draft self.new.frames self.new.draft) }
    {
        let Frame {
            layer,
            offset,
            rest,
        } = frame;
        let Some((sub, more)) = first_and_more(rest) else {
            self.marks.insert(layer, false)?;
            return Ok(());
        };
        let next = look(
            self.alloc,
            world,
            &mut self.draft,
            &self.marks,
            &layer,
            offset,
            sub,
        )?;
        self.frames.push(Frame {
            layer,
            offset,
            rest: more,
        })?;
        if let Some((name, offset)) = next {
            self.open(world, most, name, offset)?;
        }
        Ok(())
    }

    /// Adds a layer and what stands below it.
    pub fn list_from(
        &mut self,
        world: &'w World,
        most: usize,
        name: &AssetId,
    ) -> Result<(), AllocError>
        requires marked { Marked self.old.marks [] self.old.draft.layers }
        requires frames { self.old.frames ≡ [] }
        ensures draft { OnOk result (self.new.draft ≡ with_stack most (look_ups world.now) name.now self.old.draft) }
        ensures marked { OnOk result (Marked self.new.marks [] self.new.draft.layers) }
        ensures frames { OnOk result (self.new.frames ≡ []) }
    {
        self.draft.add_asked(name)?;
        if !world.held(name).is_present() {
            return Ok(());
        }
        self.open(world, most, copy(name)?, LayerOffset::identity())?;
        while let Some(frame) = self.frames.pop() {
            self.visit(world, most, frame)?;
        }
        Ok(())
    }

    /// The stack so far.
    pub fn into_draft(self) -> StackDraft
        ensures { result ≡ self.entry.draft }
    {
        let Walk {
            draft,
            marks: _,
            frames: _,
            alloc: _,
        } = self;
        draft
    }
}
