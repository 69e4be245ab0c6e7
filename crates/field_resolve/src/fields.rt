//! Specifier, type and metadata of a prim.
ghost use Rattle.std.specs.Prelude.{◌≡◌, not, filter, IfOk};
ghost use Rattle.std.specs.Option.{option_copied};
ghost use Rattle.composition.specs.Fields.{if_defining, defining};
ghost use Rattle.layer_set.specs.LookUps.{look_ups};
ghost use Rattle.prim_opinions.specs.Gathering.{said_on};
ghost use Rattle.field_resolve.specs.Folding.{specifier_on, type_on, schemas_on, clips_on, meta_on};

use crate::merging::merge_into;
use crate::strings::{applied_schemas, clip_sets};
use layer_set::World;
use plain_data::{Items, Text, copy};
use prim_opinions::{SaidAt, opinions_on};
use prim_view::Site;
use spec_parts::Specifier;
use spec_properties::Meta;
use spec_tables::OrderedTable;
use std::alloc::{AllocError, Global};

/// What the opinions on a prim make of its fields.
#[derive(Debug, Drop)]
pub struct PrimFields {
    /// Whether the prim is defined, a class, or only spoken of.
    pub specifier: Specifier,
    /// The type, where one is given.
    pub type_name: Option<Text>,
    /// The other metadata: of each key the strongest value, and dictionaries merged entry by entry.
    pub meta: Meta,
    /// The applied schemas; none where there is no opinion on them.
    pub api_schemas: Option<Items<Text>>,
    /// The sets of value clips; none where there is no opinion on them.
    pub clip_sets: Option<Items<Text>>,
}

/// A specifier that says that the prim is there.
fn if_defining(specifier: Specifier) -> Option<Specifier>
    ensures { result ≡ if_defining specifier }
{
    match specifier {
        Specifier::Def => Some(Specifier::Def),
        Specifier::Over => None,
        Specifier::Class => Some(Specifier::Class),
    }
}

/// The strongest `def` or `class` among the sites to which no class arc leads.
fn defining_in_place(said: &[SaidAt]) -> Option<Specifier>
    ensures { result ≡ defining (filter (λ s. not s.site.by_class) said.now) }
{
    for opinion in said {
        if !opinion.site().by_class {
            if let Some(specifier) = if_defining(opinion.spec().body.specifier) {
                return Some(specifier);
            }
        }
    }
    None
}

/// The strongest `def` or `class` among the sites to which a class arc leads.
fn defining_by_class(said: &[SaidAt]) -> Option<Specifier>
    ensures { result ≡ defining (filter (λ s. s.site.by_class) said.now) }
{
    for opinion in said {
        if opinion.site().by_class {
            if let Some(specifier) = if_defining(opinion.spec().body.specifier) {
                return Some(specifier);
            }
        }
    }
    None
}

/// The strongest `def` or `class` among the sites to which no class arc leads, else among the others, else `over`.
#[tactic(auto, unfolding(crate::specs::Folding::specifier_on))]
pub fn specifier_of(said: &[SaidAt]) -> Specifier
    ensures { result ≡ specifier_on said.now }
{
    match defining_in_place(said) {
        Some(specifier) => specifier,
        None => match defining_by_class(said) {
            Some(specifier) => specifier,
            None => Specifier::Over,
        },
    }
}

/// The strongest type that is given.
#[tactic(auto, unfolding(crate::specs::Folding::type_on))]
pub fn type_of<'w>(said: &[SaidAt<'w, '_>]) -> Option<&'w Text>
    ensures { option_copied result ≡ type_on said.now }
{
    for opinion in said {
        if let Some(name) = &opinion.spec().body.type_name {
            return Some(name);
        }
    }
    None
}

/// The metadata of all opinions as one.
#[tactic(auto, unfolding(crate::specs::Folding::meta_on))]
pub fn meta_of(alloc: Global, said: &[SaidAt]) -> Result<Meta, AllocError>
    ensures { IfOk result (λ meta. meta ≡ meta_on said.now) }
{
    let mut meta = OrderedTable::new(alloc);
    for opinion in said {
        merge_into(alloc, &mut meta, &opinion.spec().body.meta)?;
    }
    Ok(meta)
}

/// A copy of the strongest type that is given, and the metadata of all opinions.
fn typed_meta(alloc: Global, said: &[SaidAt]) -> Result<(Option<Text>, Meta), AllocError>
    ensures { IfOk result (λ both. both ≡ (type_on said.now, meta_on said.now)) }
{
    let type_name = match type_of(said) {
        Some(name) => Some(copy(name)?),
        None => None,
    };
    match meta_of(alloc, said) {
        Ok(meta) => Ok((type_name, meta)),
        Err(error) => {
            drop(type_name);
            Err(error)
        }
    }
}

/// The applied schemas, and the sets of value clips.
fn lists_of(
    alloc: Global,
    said: &[SaidAt],
) -> Result<(Option<Items<Text>>, Option<Items<Text>>), AllocError>
    ensures { IfOk result (λ both. both ≡ (schemas_on said.now, clips_on said.now)) }
{
    let api_schemas = applied_schemas(alloc, said)?;
    match clip_sets(alloc, said) {
        Ok(clip_sets) => Ok((api_schemas, clip_sets)),
        Err(error) => {
            drop(api_schemas);
            Err(error)
        }
    }
}

/// What opinions make of the fields of their prim.
pub fn fields_of(alloc: Global, said: &[SaidAt]) -> Result<PrimFields, AllocError>
    ensures specifier { IfOk result (λ f. f.specifier ≡ specifier_on said.now) }
    ensures type_name { IfOk result (λ f. f.type_name ≡ type_on said.now) }
    ensures meta { IfOk result (λ f. f.meta ≡ meta_on said.now) }
    ensures api_schemas { IfOk result (λ f. f.api_schemas ≡ schemas_on said.now) }
    ensures clip_sets { IfOk result (λ f. f.clip_sets ≡ clips_on said.now) }
{
    let typed = typed_meta(alloc, said)?;
    match lists_of(alloc, said) {
        Ok((api_schemas, clip_sets)) => {
            let (type_name, meta) = typed;
            Ok(PrimFields {
                specifier: specifier_of(said),
                type_name,
                meta,
                api_schemas,
                clip_sets,
            })
        }
        Err(error) => {
            drop(typed);
            Err(error)
        }
    }
}

/// The fields of a prim of these sites, the strongest first.
///
/// # Errors
///
/// Memory ran out.
pub fn prim_fields(alloc: Global, world: &World, sites: &[Site]) -> Result<PrimFields, AllocError>
    ensures specifier { IfOk result (λ f. f.specifier ≡ specifier_on (said_on (look_ups world.now) sites.now)) }
    ensures type_name { IfOk result (λ f. f.type_name ≡ type_on (said_on (look_ups world.now) sites.now)) }
    ensures meta { IfOk result (λ f. f.meta ≡ meta_on (said_on (look_ups world.now) sites.now)) }
    ensures api_schemas { IfOk result (λ f. f.api_schemas ≡ schemas_on (said_on (look_ups world.now) sites.now)) }
    ensures clip_sets { IfOk result (λ f. f.clip_sets ≡ clips_on (said_on (look_ups world.now) sites.now)) }
{
    let said = opinions_on(alloc, world, sites)?;
    fields_of(alloc, said.as_slice())
}
