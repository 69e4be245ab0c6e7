//! What a round of variant choices decides, from the tree that was made with the choices so far.
ghost use Rattle.std.specs.Prelude.{◌≡◌, [], ◌∷◌, ◌++◌, IfOk, OnOk, map, filter, flat_map, not};
ghost use Rattle.std.specs.List.{filter_map};
ghost use Rattle.std.specs.Option.{is_some, option_copied, option_map};
ghost use Rattle.composition.specs.Texts.{same_text, find_at, first_of};
ghost use Rattle.composition.specs.Paths.{limits};
ghost use Rattle.composition.specs.Compose.{sets_met, first_selection, decided};
ghost use Rattle.list_ops.specs.ListEdits.{firsts, without};
ghost use Rattle.prim_trees.specs.Meant.{meant};
ghost use Rattle.site_order.specs.ChoiceTables.{noted_for};
ghost use Rattle.site_order.specs.Places.{trees_shown};
ghost use Rattle.site_order.specs.Said.{sets_of, selected_at};

use crate::keeping::places;
use crate::order::listing;
use crate::sizes::is_overgrown;
use crate::tables::{ChoiceTable, choice_table, opinion_table};
use list_ops::{once_ordered, push_all};
use plain_data::{Items, Text, copy, same};
use prim_trees::Tree;
use prim_view::Choices;
use std::alloc::{AllocError, Global};

/// What a round decides beside the choices so far: for each variant set that is met in the tree and has no choice yet, in the order
/// in which they are met, the first opinion of its sites.
///
/// A tree that is overgrown decides nothing.
pub fn decided(alloc: Global, tree: &Tree, choices: &Choices) -> Result<Choices, AllocError>
    ensures { IfOk result (λ more. more ≡ decided limits (meant tree.now) choices.now) }
{
    if is_overgrown(tree) {
        return Ok(Items::new(alloc));
    }
    let sets = undecided_sets(alloc, tree, choices)?;
    if sets.is_empty() {
        return Ok(Items::new(alloc));
    }
    let kept = places(alloc, tree)?;
    let more = selections(alloc, kept.as_slice(), sets.as_slice())?;
    Ok(more)
}

/// The variant sets that are met in the tree and have no choice.
fn undecided_sets(alloc: Global, tree: &Tree, choices: &Choices) -> Result<Items<Text>, AllocError>
    ensures { IfOk result (λ sets. sets ≡ without same_text (sets_met limits (meant tree.now)) (map (λ c. c.0) choices.now)) }
{
    let met = sets_met(alloc, tree)?;
    without_choices(alloc, met.as_slice(), choices.as_slice())
}

/// The variant sets that the nodes of the tree have, each once, in the order of the nodes.
fn sets_met(alloc: Global, tree: &Tree) -> Result<Items<Text>, AllocError>
    ensures { IfOk result (λ sets. sets ≡ sets_met limits (meant tree.now)) }
{
    let nodes = listing(alloc, tree)?;
    let all = all_sets(alloc, nodes.as_slice())?;
    first_of_each(alloc, all)
}

fn all_sets(alloc: Global, nodes: &[&Tree]) -> Result<Items<Text>, AllocError>
    ensures { IfOk result (λ all. all ≡ flat_map sets_of (trees_shown nodes.now)) }
{
    let mut all = Items::new(alloc);
    for node in nodes {
        push_sets(&mut all, node)?;
    }
    Ok(all)
}

#[tactic(auto, using(crate::proofs::Choosing::sets_are))]
fn push_sets(out: &mut Items<Text>, node: &Tree) -> Result<(), AllocError>
    ensures { OnOk result (out.new ≡ out.old ++ sets_of (meant node.now)) }
{
    push_all(out, node.here.sets.as_slice())?;
    Ok(())
}

/// The first of each text.
#[tactic(auto, using(crate::proofs::Choosing::firsts_are))]
fn first_of_each(alloc: Global, all: Items<Text>) -> Result<Items<Text>, AllocError>
    ensures { IfOk result (λ kept. kept ≡ firsts same_text all) }
{
    once_ordered(alloc, all)
}

/// The sets that have no choice. Choices are looked up in a table, made once.
fn without_choices(
    alloc: Global,
    sets: &[Text],
    choices: &[(Text, Text)],
) -> Result<Items<Text>, AllocError>
    ensures { IfOk result (λ left. left ≡ without same_text sets.now (map (λ c. c.0) choices.now)) }
{
    let table = choice_table(alloc, choices)?;
    let left = not_noted(alloc, &table, sets)?;
    Ok(left)
}

/// The sets of which a table says nothing.
fn not_noted(alloc: Global, table: &ChoiceTable, sets: &[Text]) -> Result<Items<Text>, AllocError>
    ensures { IfOk result (λ left. left ≡ filter (λ set. not (is_some (noted_for table.now set))) sets.now) }
{
    let mut left = Items::new(alloc);
    for set in sets {
        if !table.contains_key(set) {
            left.push(copy(set)?)?;
        }
    }
    Ok(left)
}

fn same_text(a: &Text, b: &Text) -> bool
    ensures { result ≡ same_text a.now b.now }
{
    same(a, b)
}

/// The first selection of each set, where there is one: of one set by a scan of the sites, of several by a table, made once.
#[tactic(auto, using(crate::proofs::Noting::selected_are))]
fn selections(alloc: Global, sites: &[&Tree], sets: &[Text]) -> Result<Choices, AllocError>
    ensures { IfOk result (λ more. more ≡ filter_map (first_selection limits (trees_shown sites.now)) sets.now) }
{
    match sets {
        [] => Ok(Items::new(alloc)),
        [set] => one_selection(alloc, sites, set),
        _ => {
            let table = opinion_table(alloc, sites)?;
            let more = noted_selections(alloc, &table, sets)?;
            Ok(more)
        }
    }
}

/// The first selection of a set, where there is one.
fn one_selection(alloc: Global, sites: &[&Tree], set: &Text) -> Result<Choices, AllocError>
    ensures { IfOk result (λ more. more ≡ filter_map (first_selection limits (trees_shown sites.now)) (set.now ∷ [])) }
{
    let mut more = Items::new(alloc);
    if let Some(choice) = selection(set, first_opinion(sites, set))? {
        more.push(choice)?;
    }
    Ok(more)
}

/// What a table says of each set, where it says something.
fn noted_selections(
    alloc: Global,
    table: &ChoiceTable,
    sets: &[Text],
) -> Result<Choices, AllocError>
    ensures { IfOk result (λ more. more ≡ filter_map (λ set. option_map (λ v. (set, v)) (noted_for table.now set)) sets.now) }
{
    let mut more = Items::new(alloc);
    for set in sets {
        if let Some(choice) = selection(set, table.get(set))? {
            more.push(choice)?;
        }
    }
    Ok(more)
}

/// A set with the variant that is selected for it, where one is.
fn selection(set: &Text, variant: Option<&Text>) -> Result<Option<(Text, Text)>, AllocError>
    ensures { IfOk result (λ choice. choice ≡ option_map (λ v. (set.now, v)) (option_copied variant.entry)) }
{
    match variant {
        Some(variant) => Ok(Some((copy(set)?, copy(variant)?))),
        None => Ok(None),
    }
}

/// The variant that the first of the sites that selects one selects for the set.
fn first_opinion<'t>(sites: &[&'t Tree], set: &Text) -> Option<&'t Text>
    ensures { option_copied result ≡ first_of (selected_at set.now) (trees_shown sites.now) }
{
    for site in sites {
        let opinion = opinion_at(site, set);
        if opinion.is_some() {
            return opinion;
        }
    }
    None
}

#[tactic(auto, using(crate::proofs::Choosing::selected_is))]
fn opinion_at<'t>(site: &'t Tree, set: &Text) -> Option<&'t Text>
    ensures { option_copied result ≡ selected_at set.now (meant site.now) }
{
    find_choice(site.here.selections.as_slice(), set)
}

/// What is chosen or selected for a set.
pub fn find_choice<'t>(selections: &'t [(Text, Text)], set: &Text) -> Option<&'t Text>
    ensures { option_copied result ≡ find_at same_text set.now selections.now }
{
    for selection in selections {
        if same_text(set, &selection.0) {
            return Some(&selection.1);
        }
    }
    None
}
