//! Lists of strings as their opinions make them.
ghost use Rattle.std.specs.Prelude.{◌≡◌, map, filter, reverse, IfOk};
ghost use Rattle.std.specs.Str.{bytes_eq};
ghost use Rattle.list_ops.specs.ListEdits.{folded, firsts};
ghost use Rattle.list_ops.specs.Opinions.{is_opinion};
ghost use Rattle.field_resolve.specs.Folding.{folded_texts, texts_once, if_any, schemas_on, clips_on};

use list_ops::{ListOp, fold_ordered, once_ordered};
use plain_data::{Items, Text, copy};
use prim_opinions::SaidAt;
use std::alloc::{AllocError, Global};

/// What opinions make of the empty list, the strongest given first.
fn strongest_folded(alloc: Global, edits: Vec<ListOp<Text>>) -> Result<Items<Text>, AllocError>
    ensures { IfOk result (λ list. list ≡ folded bytes_eq (reverse edits.items)) }
{
    let mut edits = edits;
    edits.reverse();
    Ok(Items::from_vec(fold_ordered(alloc, edits.as_slice())?))
}

/// What edits, given from the strongest to the weakest, make of the empty list.
pub fn folded_texts(alloc: Global, edits: Vec<ListOp<Text>>) -> Result<Items<Text>, AllocError>
    ensures { IfOk result (λ list. list ≡ folded_texts edits.items) }
{
    strongest_folded(alloc, edits)
}

/// The first of each text.
fn firsts(alloc: Global, texts: Items<Text>) -> Result<Items<Text>, AllocError>
    ensures { IfOk result (λ once. once ≡ firsts bytes_eq texts) }
{
    once_ordered(alloc, texts)
}

/// Each text once.
pub fn texts_once(alloc: Global, texts: Items<Text>) -> Result<Items<Text>, AllocError>
    ensures { IfOk result (λ once. once ≡ texts_once texts) }
{
    firsts(alloc, texts)
}

/// The opinions on the applied schemas.
fn schema_opinions(alloc: Global, said: &[SaidAt]) -> Result<Vec<ListOp<Text>>, AllocError>
    ensures { IfOk result (λ ops. ops.items ≡ filter is_opinion (map (λ s. s.spec.body.api_schemas) said.now)) }
{
    let mut opinions = Vec::new(alloc);
    for opinion in said {
        let op = &opinion.spec().body.api_schemas;
        if op.is_opinion() {
            opinions.push(copy(op)?)?;
        }
    }
    Ok(opinions)
}

/// The opinions on the sets of value clips.
fn clip_opinions(alloc: Global, said: &[SaidAt]) -> Result<Vec<ListOp<Text>>, AllocError>
    ensures { IfOk result (λ ops. ops.items ≡ filter is_opinion (map (λ s. s.spec.body.clip_sets) said.now)) }
{
    let mut opinions = Vec::new(alloc);
    for opinion in said {
        let op = &opinion.spec().body.clip_sets;
        if op.is_opinion() {
            opinions.push(copy(op)?)?;
        }
    }
    Ok(opinions)
}

/// What opinions make together; none where there is no opinion.
fn if_any(alloc: Global, opinions: Vec<ListOp<Text>>) -> Result<Option<Items<Text>>, AllocError>
    ensures { IfOk result (λ list. list ≡ if_any opinions.items) }
{
    if opinions.is_empty() {
        return Ok(None);
    }
    Ok(Some(folded_texts(alloc, opinions)?))
}

/// The applied schemas; none where there is no opinion on them.
pub fn applied_schemas(alloc: Global, said: &[SaidAt]) -> Result<Option<Items<Text>>, AllocError>
    ensures { IfOk result (λ list. list ≡ schemas_on said.now) }
{
    let opinions = schema_opinions(alloc, said)?;
    if_any(alloc, opinions)
}

/// The sets of value clips; none where there is no opinion on them.
pub fn clip_sets(alloc: Global, said: &[SaidAt]) -> Result<Option<Items<Text>>, AllocError>
    ensures { IfOk result (λ list. list ≡ clips_on said.now) }
{
    let opinions = clip_opinions(alloc, said)?;
    if_any(alloc, opinions)
}
