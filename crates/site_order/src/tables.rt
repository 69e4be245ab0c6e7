//! What is chosen or selected for variant sets, in a table by set.
ghost use Rattle.std.specs.Prelude.{IfOk, OnOk};
ghost use Rattle.std.specs.Option.{option_or};
ghost use Rattle.composition.specs.Texts.{same_text, find_at, first_of};
ghost use Rattle.site_order.specs.ChoiceTables.{Tells, noted_for, said_by};
ghost use Rattle.site_order.specs.Places.{trees_shown};
ghost use Rattle.site_order.specs.Said.{selected_at};

use plain_data::{Text, copy};
use prim_trees::Tree;
use std::alloc::{AllocError, Global};
use std::collections::BTreeMap;

/// What is chosen or selected for sets, by set.
pub type ChoiceTable = BTreeMap<Text, Text>;

/// Notes what is chosen or selected for a set, if nothing has been noted for it.
fn note_choice(table: &mut ChoiceTable, set: &Text, variant: &Text) -> Result<(), AllocError>
    ensures { OnOk result (Tells table.new (λ q. option_or (noted_for table.old q) (said_by (set.now, variant.now) q))) }
{
    if table.contains_key(set) {
        return Ok(());
    }
    table.insert(copy(set)?, copy(variant)?)?;
    Ok(())
}

/// Notes what is chosen or selected for each set for which nothing has been noted: the first of its entries.
fn note_choices(table: &mut ChoiceTable, entries: &[(Text, Text)]) -> Result<(), AllocError>
    ensures { OnOk result (Tells table.new (λ q. option_or (noted_for table.old q) (find_at same_text q entries.now))) }
{
    for (set, variant) in entries {
        note_choice(table, set, variant)?;
    }
    Ok(())
}

/// The table of choices or selections: of several for one set it has the first. With `n` of them it makes `n log n` comparisons.
pub fn choice_table(alloc: Global, choices: &[(Text, Text)]) -> Result<ChoiceTable, AllocError>
    ensures { IfOk result (λ table. Tells table (λ q. find_at same_text q choices.now)) }
{
    let mut table = BTreeMap::new(alloc);
    note_choices(&mut table, choices)?;
    Ok(table)
}

/// The table of opinions on sets: for each set the first in the order of the sites.
pub fn opinion_table(alloc: Global, sites: &[&Tree]) -> Result<ChoiceTable, AllocError>
    ensures { IfOk result (λ table. Tells table (λ q. first_of (selected_at q) (trees_shown sites.now))) }
{
    let mut table = BTreeMap::new(alloc);
    for site in sites {
        note_choices(&mut table, site.here.selections.as_slice())?;
    }
    Ok(table)
}
