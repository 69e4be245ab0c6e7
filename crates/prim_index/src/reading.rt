//! What the layers of a node's stack say at it.
ghost use Rattle.std.specs.Prelude.{◌≡◌, ◌++◌, ◌∷◌, [], IfOk, OnOk, map, not};
ghost use Rattle.std.specs.Option.{option_copied};
ghost use Rattle.composition.specs.Paths.{limits};
ghost use Rattle.composition.specs.Arcs.{is_empty, selections_of};
ghost use Rattle.composition.specs.Nodes.{fault_of, frame_at};
ghost use Rattle.layer_set.specs.LookUps.{look_ups};
ghost use Rattle.arc_expand.specs.Authoring.{IsStackOf, opinions as opinions_there, sets_in};
ghost use Rattle.site_order.specs.ChoiceTables.{noted_for};
ghost use Rattle.prim_index.specs.Reading.{said, said_levels, sublayers_said, sublayer_faults, looked_at, tried_of, tried_level, tried_kind, tried_all, chosen_if_fits, variant_at, chosen_for, chosen_by, chosen_of, chosen_level, chosen_all, parts};

use arc_expand::{LayerOpinion, authored_in, opinions, selections_in, variant_sets_in};
use class_arcs::path_above;
use layer_set::World;
use layer_stack::{LayerStack, stack};
use node_branches::{child_path, levels, refusal};
use path_maps::ArcKind;
use plain_data::{Items, Text, copy};
use prim_nodes::{Authored, Chosen, Frame, Here, Node, Outcome, Tried};
use prim_view::{ArcReason, PrimFault, SublayerFault};
use sdf_paths::{Path, PathFault};
use site_order::{ChoiceTable, choice_table, find_choice};
use std::alloc::{AllocError, Global};

/// The faults of sublayers among these.
fn sublayer_faults(alloc: Global, faults: &[PrimFault]) -> Result<Items<SublayerFault>, AllocError>
    ensures { IfOk result (λ all. all ≡ sublayer_faults faults.now) }
{
    let mut all = Items::new(alloc);
    for fault in faults {
        if let PrimFault::Sublayer(fault) = fault {
            all.push(copy(fault)?)?;
        }
    }
    Ok(all)
}

/// The faults of the stack to which an arc leads.
#[tactic(auto, using(crate::proofs::Saying::sublayers_lead, crate::proofs::Saying::sublayers_none))]
fn sublayers(
    alloc: Global,
    world: &World,
    outcome: &Outcome,
) -> Result<Items<SublayerFault>, AllocError>
    ensures { IfOk result (λ all. all ≡ sublayers_said (look_ups world.now) outcome.now) }
{
    match outcome {
        Outcome::Leads(lead) => {
            let there = stack(alloc, world, &lead.stack)?;
            let faults = sublayer_faults(alloc, there.faults.as_slice());
            drop(there);
            faults
        }
        Outcome::GivesNoArc(_) => Ok(Items::new(alloc)),
    }
}

/// Why an item of a level has no child.
fn fault(node: &Node, level: usize, outcome: &Outcome) -> Result<Option<ArcReason>, AllocError>
    ensures { IfOk result (λ reason. reason ≡ fault_of limits node.now level outcome.now) }
{
    match outcome {
        Outcome::Leads(lead) => refusal(node, level, lead),
        Outcome::GivesNoArc(reason) => Ok(Some(*reason)),
    }
}

/// What becomes of an item of a level.
fn tried_item(
    alloc: Global,
    world: &World,
    node: &Node,
    kind: ArcKind,
    level: usize,
    item: &Authored,
) -> Result<Tried, AllocError>
    ensures { IfOk result (λ tried. tried ≡ tried_of (look_ups world.now) node.now kind level item.now) }
{
    let fault = fault(node, level, &item.outcome)?;
    let sublayers = sublayers(alloc, world, &item.outcome)?;
    match copy(item) {
        Ok(authored) => Ok(Tried {
            kind,
            level,
            authored,
            fault,
            sublayers,
        }),
        Err(error) => {
            drop(sublayers);
            Err(error)
        }
    }
}

/// Whether payloads are followed at a level; also where the node has no frame for it.
fn is_loaded(node: &Node, level: usize) -> bool
    ensures { result ≡ (frame_at node.now level).loaded }
{
    match node.frames.get(level) {
        Some(frame) => frame.loaded,
        None => true,
    }
}

/// Whether the items of a kind are looked at.
fn is_looked_at(kind: ArcKind, node: &Node, level: usize) -> bool
    ensures { result ≡ looked_at kind (frame_at node.now level) }
{
    match kind {
        ArcKind::Payload => is_loaded(node, level),
        _ => true,
    }
}

/// Appends what becomes of the items of a kind that opinions of a level make. The stack is the node's.
#[tactic(auto, using(crate::proofs::Saying::tried_unseen, crate::proofs::Saying::tried_seen))]
pub fn push_level(
    out: &mut Items<Tried>,
    world: &World,
    stack: &LayerStack,
    node: &Node,
    kind: ArcKind,
    level: usize,
    said: &[LayerOpinion<'_>],
) -> Result<(), AllocError>
    requires stack { IsStackOf (look_ups world.now) stack.now }
    requires name { stack.now.name ≡ node.now.stack }
    ensures { OnOk result (out.new ≡ out.old ++ tried_level (look_ups world.now) node.now kind (level, said.now)) }
{
    if !is_looked_at(kind, node, level) {
        return Ok(());
    }
    let items = authored_in(out.allocator(), world, stack, said, kind)?;
    push_items(out, world, node, kind, level, items.as_slice())
}

/// Appends what becomes of items.
fn push_items(
    out: &mut Items<Tried>,
    world: &World,
    node: &Node,
    kind: ArcKind,
    level: usize,
    items: &[Authored],
) -> Result<(), AllocError>
    ensures { OnOk result (out.new ≡ out.old ++ map (tried_of (look_ups world.now) node.now kind level) items.now) }
{
    for item in items {
        out.push(tried_item(out.allocator(), world, node, kind, level, item)?)?;
    }
    Ok(())
}

/// Appends what becomes of the items of a kind, level by level.
#[tactic(auto, unfolding(crate::specs::Reading::tried_kind))]
fn push_kind(
    out: &mut Items<Tried>,
    world: &World,
    stack: &LayerStack,
    node: &Node,
    levels: &[(usize, Items<LayerOpinion<'_>>)],
    kind: ArcKind,
) -> Result<(), AllocError>
    requires stack { IsStackOf (look_ups world.now) stack.now }
    requires name { stack.now.name ≡ node.now.stack }
    ensures { OnOk result (out.new ≡ out.old ++ tried_kind (look_ups world.now) node.now levels.now kind) }
{
    for (level, said) in levels {
        push_level(out, world, stack, node, kind, *level, said.as_slice())?;
    }
    Ok(())
}

/// A chosen variant, where the path to which it leads is within the limits.
fn if_fitting(node: &Node, level: usize, target: Path) -> Result<Option<Chosen>, AllocError>
    ensures { IfOk result (λ chosen. chosen ≡ chosen_if_fits node.now level target) }
{
    let there = child_path(node, level, &target)?;
    if there.is_some() {
        return Ok(Some(Chosen { level, target }));
    }
    Ok(None)
}

/// The variant that a level decides for a set, where there may be one of that name and its path is within the limits.
fn variant(
    node: &Node,
    level: usize,
    set: &Text,
    variant: &Text,
) -> Result<Option<Chosen>, AllocError>
    ensures { IfOk result (λ chosen. chosen ≡ variant_at node.now level set.now variant.now) }
{
    let author = path_above(&node.path, level)?;
    if author.is_root() || author.is_property() {
        return Err(AllocError);
    }
    // By the contract of `elements` this is a path by the rules, within the limits.
    let _author = author.elements();
    match author.select(set.as_str(), variant.as_str()) {
        Ok(target) => {
            // So is what comes out.
            let _target = target.elements();
            let chosen = if_fitting(node, level, target)?;
            Ok(chosen)
        }
        Err(PathFault::Bad { at: _ }) => Ok(None),
        Err(PathFault::NoMemory) => Err(AllocError),
    }
}

/// Appends the variants that a level decides, of which the opinions are given.
#[tactic(auto, using(crate::proofs::Saying::chosen_unseen, crate::proofs::Saying::chosen_seen, crate::proofs::Saying::frame_some, crate::proofs::Saying::frame_none))]
pub fn push_chosen(
    out: &mut Items<Chosen>,
    node: &Node,
    level: usize,
    said: &[LayerOpinion<'_>],
) -> Result<(), AllocError>
    ensures { OnOk result (out.new ≡ out.old ++ chosen_level node.now (level, said.now)) }
{
    match node.frames.get(level) {
        Some(frame) => {
            let sets = variant_sets_in(out.allocator(), said)?;
            push_variants(out, node, level, frame, sets.as_slice())
        }
        None => Ok(()),
    }
}

/// Where the variant that is decided for a set leads, if one is decided and may be followed.
fn chosen_for(
    node: &Node,
    level: usize,
    set: &Text,
    decided: Option<&Text>,
) -> Result<Option<Chosen>, AllocError>
    ensures { IfOk result (λ chosen. chosen ≡ chosen_for node.now level set.now (option_copied decided.entry)) }
{
    match decided {
        Some(name) => variant(node, level, set, name),
        None => Ok(None),
    }
}

/// Appends the variants that a frame decides for sets: of one set by a scan of its choices, of several by a table of them, made once.
#[tactic(auto, using(crate::proofs::Saying::chosen_by_table), unfolding(crate::specs::Reading::chosen_of))]
fn push_variants(
    out: &mut Items<Chosen>,
    node: &Node,
    level: usize,
    frame: &Frame,
    sets: &[Text],
) -> Result<(), AllocError>
    ensures { OnOk result (out.new ≡ out.old ++ chosen_of node.now level frame.now.choices sets.now) }
{
    match sets {
        [] => Ok(()),
        [set] => push_variant(out, node, level, frame, set),
        _ => {
            let table = choice_table(out.allocator(), frame.choices.as_slice())?;
            push_noted_variants(out, node, level, &table, sets)?;
            Ok(())
        }
    }
}

/// Appends the variant that a frame decides for a set, if it decides one.
#[tactic(auto, unfolding(crate::specs::Reading::chosen_of))]
fn push_variant(
    out: &mut Items<Chosen>,
    node: &Node,
    level: usize,
    frame: &Frame,
    set: &Text,
) -> Result<(), AllocError>
    ensures { OnOk result (out.new ≡ out.old ++ chosen_of node.now level frame.now.choices (set.now ∷ [])) }
{
    let decided = find_choice(frame.choices.as_slice(), set);
    if let Some(chosen) = chosen_for(node, level, set, decided)? {
        out.push(chosen)?;
    }
    Ok(())
}

/// Appends the variants that a table of choices decides for sets.
#[tactic(auto, unfolding(crate::specs::Reading::chosen_by))]
fn push_noted_variants(
    out: &mut Items<Chosen>,
    node: &Node,
    level: usize,
    table: &ChoiceTable,
    sets: &[Text],
) -> Result<(), AllocError>
    ensures { OnOk result (out.new ≡ out.old ++ chosen_by node.now level (noted_for table.now) sets.now) }
{
    for set in sets {
        if let Some(chosen) = chosen_for(node, level, set, table.get(set))? {
            out.push(chosen)?;
        }
    }
    Ok(())
}

/// The variants that the levels decide.
#[tactic(auto, unfolding(crate::specs::Reading::chosen_all))]
fn variants(
    alloc: Global,
    node: &Node,
    levels: &[(usize, Items<LayerOpinion<'_>>)],
) -> Result<Items<Chosen>, AllocError>
    ensures { IfOk result (λ all. all ≡ chosen_all node.now levels.now) }
{
    let mut all = Items::new(alloc);
    for (level, said) in levels {
        push_chosen(&mut all, node, *level, said.as_slice())?;
    }
    Ok(all)
}

/// The items of all kinds.
fn arcs(
    alloc: Global,
    world: &World,
    stack: &LayerStack,
    node: &Node,
    levels: &[(usize, Items<LayerOpinion<'_>>)],
) -> Result<Items<Tried>, AllocError>
    requires stack { IsStackOf (look_ups world.now) stack.now }
    requires name { stack.now.name ≡ node.now.stack }
    ensures { IfOk result (λ all. all ≡ tried_all (look_ups world.now) node.now levels.now) }
{
    let mut all = Items::new(alloc);
    push_kind(&mut all, world, stack, node, levels, ArcKind::Inherits)?;
    push_kind(&mut all, world, stack, node, levels, ArcKind::Reference)?;
    push_kind(&mut all, world, stack, node, levels, ArcKind::Payload)?;
    push_kind(&mut all, world, stack, node, levels, ArcKind::Specializes)?;
    Ok(all)
}

/// The stack of a node, by the name that the node has for it.
pub fn stack_of(alloc: Global, world: &World, node: &Node) -> Result<LayerStack, AllocError>
    ensures stack { IfOk result (λ s. IsStackOf (look_ups world.now) s) }
    ensures name { IfOk result (λ s. s.name ≡ node.now.stack) }
{
    let mut found = stack(alloc, world, &node.stack)?;
    match copy(&node.stack) {
        Ok(name) => {
            found.name = name;
            Ok(found)
        }
        Err(error) => {
            drop(found);
            Err(error)
        }
    }
}

/// What the layers of a stack say at a path, the strongest first.
#[tactic(auto, using(crate::proofs::Saying::opinions_are))]
pub fn said_at<'w>(
    alloc: Global,
    world: &'w World,
    stack: &'w LayerStack,
    at: &Path,
) -> Result<Items<LayerOpinion<'w>>, AllocError>
    requires { IsStackOf (look_ups world.now) stack.now }
    ensures { IfOk result (λ all. all ≡ opinions_there (look_ups world.now) stack.now.name at.now) }
{
    let said = opinions(alloc, world, stack, at)?;
    Ok(said)
}

/// Appends what the layers of a stack say at the path of a level.
fn push_said<'w>(
    out: &mut Items<(usize, Items<LayerOpinion<'w>>)>,
    world: &'w World,
    stack: &'w LayerStack,
    level: usize,
    author: &Path,
) -> Result<(), AllocError>
    requires { IsStackOf (look_ups world.now) stack.now }
    ensures { OnOk result (out.new ≡ out.old ++ (level, opinions_there (look_ups world.now) stack.now.name author.now) ∷ []) }
{
    let said = said_at(out.allocator(), world, stack, author)?;
    out.push((level, said))?;
    Ok(())
}

/// What the layers of a stack say at the levels of a path, each with its number: each level is looked up once.
#[tactic(auto, using(crate::proofs::Saying::said_more, crate::proofs::Saying::above_more), unfolding(crate::specs::Reading::said_levels))]
fn said_at_levels<'w>(
    alloc: Global,
    world: &'w World,
    stack: &'w LayerStack,
    path: &Path,
) -> Result<Items<(usize, Items<LayerOpinion<'w>>)>, AllocError>
    requires { IsStackOf (look_ups world.now) stack.now }
    ensures { IfOk result (λ all. all ≡ said_levels (look_ups world.now) stack.now.name path.now) }
{
    let mut all = Items::new(alloc);
    let mut author = copy(path)?;
    for level in 0..levels(path.elements()) {
        push_said(&mut all, world, stack, level, &author)?;
        author = path_above(&author, 1)?;
    }
    Ok(all)
}

/// Whether there are opinions.
#[tactic(auto, using(crate::proofs::Saying::empty_told))]
pub fn is_said(opinions: &Items<LayerOpinion<'_>>) -> bool
    ensures { result ≡ not (is_empty opinions.now) }
{
    !opinions.is_empty()
}

/// What becomes of the items of all kinds, and the variants that the levels decide.
fn said_arcs(
    alloc: Global,
    world: &World,
    stack: &LayerStack,
    node: &Node,
    levels: &[(usize, Items<LayerOpinion<'_>>)],
) -> Result<(Items<Tried>, Items<Chosen>), AllocError>
    requires stack { IsStackOf (look_ups world.now) stack.now }
    requires name { stack.now.name ≡ node.now.stack }
    ensures { IfOk result (λ both. both ≡ (tried_all (look_ups world.now) node.now levels.now, chosen_all node.now levels.now)) }
{
    let arcs = arcs(alloc, world, stack, node, levels)?;
    match variants(alloc, node, levels) {
        Ok(variants) => Ok((arcs, variants)),
        Err(error) => {
            drop(arcs);
            Err(error)
        }
    }
}

/// The variant sets and the selections that opinions make.
pub fn said_choices(
    alloc: Global,
    own: &[LayerOpinion<'_>],
) -> Result<(Items<Text>, Items<(Text, Text)>), AllocError>
    ensures { IfOk result (λ both. both ≡ (sets_in own.now, selections_of own.now)) }
{
    let sets = variant_sets_in(alloc, own)?;
    match selections_in(alloc, own) {
        Ok(selections) => Ok((sets, selections)),
        Err(error) => {
            drop(sets);
            Err(error)
        }
    }
}

/// What is said at a node where these opinions stand at its levels and at its own path.
fn here_of(
    alloc: Global,
    world: &World,
    stack: &LayerStack,
    node: &Node,
    levels: &[(usize, Items<LayerOpinion<'_>>)],
    own: &Items<LayerOpinion<'_>>,
) -> Result<Here, AllocError>
    requires stack { IsStackOf (look_ups world.now) stack.now }
    requires name { stack.now.name ≡ node.now.stack }
    ensures { IfOk result (λ here. here ≡ parts (look_ups world.now) node.now levels.now own.now) }
{
    let choices = said_choices(alloc, own.as_slice())?;
    match said_arcs(alloc, world, stack, node, levels) {
        Ok((arcs, variants)) => {
            let (sets, selections) = choices;
            Ok(Here {
                arcs,
                variants,
                sets,
                selections,
                has_spec: is_said(own),
            })
        }
        Err(error) => {
            drop(choices);
            Err(error)
        }
    }
}

/// What the layers of a stack say at a node of it.
#[tactic(auto, using(crate::proofs::Saying::said_is))]
fn here_in(
    alloc: Global,
    world: &World,
    stack: &LayerStack,
    node: &Node,
) -> Result<Here, AllocError>
    requires stack { IsStackOf (look_ups world.now) stack.now }
    requires name { stack.now.name ≡ node.now.stack }
    ensures { IfOk result (λ here. here ≡ said limits (look_ups world.now) node.now) }
{
    let levels = said_at_levels(alloc, world, stack, &node.path)?;
    match said_at(alloc, world, stack, &node.path) {
        Ok(own) => {
            let here = here_of(alloc, world, stack, node, levels.as_slice(), &own);
            drop((levels, own));
            here
        }
        Err(error) => {
            drop(levels);
            Err(error)
        }
    }
}

/// What the layers of a node's stack say at it.
pub fn here_at(alloc: Global, world: &World, node: &Node) -> Result<Here, AllocError>
    ensures { IfOk result (λ here. here ≡ said limits (look_ups world.now) node.now) }
{
    let stack = stack_of(alloc, world, node)?;
    let here = here_in(alloc, world, &stack, node);
    drop(stack);
    here
}
