//! One round of choices.
ghost use Rattle.std.specs.Prelude.{◌≡◌, ◌||◌, ℕ, List, ◌++◌, IfOk};
ghost use Rattle.std.specs.Option.{option_or, option_map};
ghost use Rattle.std.specs.Ordering.{nat_cmp};
ghost use Rattle.std.specs.Cmp.Lexicographic.{slice_cmp};
ghost use Rattle.std.specs.BTreeMap.{get};
ghost use Rattle.std.specs.BTreeSet.{contains};
ghost use Rattle.std.specs.List.{filter_map};
ghost use Rattle.variant_select.specs.Rounds.{same_name, is_decided, if_new, opinion_on, first_opinion, decided};

use crate::met::{Choices, Met};
use plain_data::{Text, copy};
use std::alloc::{AllocError, Global};
use std::collections::{BTreeMap, BTreeSet};

/// Notes what a site selects, where no site before it selected a variant of that set.
fn note_opinion(firsts: &mut BTreeMap<Text, Text>, met: &Met) -> Result<(), AllocError>
    ensures { IfOk result (λ _. (s : List ℕ) → get (slice_cmp nat_cmp) firsts.new s ≡ option_or (get (slice_cmp nat_cmp) firsts.old s) (opinion_on s met.now)) }
{
    if let Some(variant) = &met.opinion {
        if !firsts.contains_key(&met.set) {
            firsts.insert(copy(&met.set)?, copy(variant)?)?;
        }
    }
    Ok(())
}

/// The first opinion on each set.
fn first_opinions(alloc: Global, found: &[Met]) -> Result<BTreeMap<Text, Text>, AllocError>
    ensures { IfOk result (λ firsts. (s : List ℕ) → get (slice_cmp nat_cmp) firsts s ≡ first_opinion found.now s) }
{
    let mut firsts = BTreeMap::new(alloc);
    for met in found {
        note_opinion(&mut firsts, met)?;
    }
    Ok(firsts)
}

/// The sets that have a choice.
fn decided_sets(alloc: Global, chosen: &[(Text, Text)]) -> Result<BTreeSet<Text>, AllocError>
    ensures { IfOk result (λ sets. (s : List ℕ) → contains (slice_cmp nat_cmp) sets s ≡ is_decided chosen.now s) }
{
    let mut sets = BTreeSet::new(alloc);
    for (set, _variant) in chosen {
        sets.insert(copy(set)?)?;
    }
    Ok(sets)
}

/// Chooses for one set, where it is not known, and knows it from then on.
fn choose(
    chosen: &mut Choices,
    known: &mut BTreeSet<Text>,
    firsts: &BTreeMap<Text, Text>,
    set: &Text,
) -> Result<(), AllocError>
    ensures chosen { IfOk result (λ _. chosen.new ≡ chosen.old ++ filter_map (λ s. option_map (λ variant. (s, variant)) (get (slice_cmp nat_cmp) firsts.now s)) (if_new (contains (slice_cmp nat_cmp) known.old) set.now)) }
    ensures known { IfOk result (λ _. (s : List ℕ) → contains (slice_cmp nat_cmp) known.new s ≡ (same_name set.now s || contains (slice_cmp nat_cmp) known.old s)) }
{
    if known.insert(copy(set)?)? {
        if let Some(variant) = firsts.get(set) {
            chosen.push((copy(set)?, copy(variant)?))?;
        }
    }
    Ok(())
}

/// Each set that was met and has no choice takes the first opinion on it, if there is one.
pub fn choose_all(alloc: Global, chosen: &mut Choices, found: &[Met]) -> Result<(), AllocError>
    ensures { IfOk result (λ _. chosen.new ≡ chosen.old ++ decided chosen.old found.now) }
{
    let firsts = first_opinions(alloc, found)?;
    let mut known = decided_sets(alloc, chosen.as_slice())?;
    for met in found {
        choose(chosen, &mut known, &firsts, &met.set)?;
    }
    Ok(())
}
