ghost use Rattle.std.specs.Prelude.{◌≡◌, ◌++◌, IfOk, OnOk};
ghost use Rattle.layer_set.specs.LookUps.{look_ups};
ghost use Rattle.prim_opinions.specs.Counting.{counted};
ghost use Rattle.prim_opinions.specs.Gathering.{said_on};
ghost use Rattle.composition.specs.Values.{given};
ghost use Rattle.value_resolve.specs.Deciding.{decided_next};
ghost use Rattle.value_resolve.specs.Resolving.{fault_if, default_by, samples_by, faults_by};

use crate::decision::Decision;
use crate::on_stage::given;
use layer_set::World;
use plain_data::{Items, Text, copy};
use prim_opinions::{PropertyAt, SaidAt, opinions_on, specs_of};
use prim_view::{PrimFault, Site, TimeFault};
use sdf_values::Value;
use spec_properties::Samples;
use std::alloc::{AllocError, Global};
use std::mem;

/// The values of an attribute on the stage.
#[derive(Debug, Drop)]
pub struct AttrValue {
    /// The default that decides; a block is one.
    pub default: Option<Value>,
    /// The samples that decide, in the times of the stage.
    pub samples: Samples,
    /// `TimeOutside`, for each opinion of which something leaves the range of times.
    pub faults: Items<PrimFault>,
}

/// Appends the fault of an opinion, if something of it is left out.
fn push_fault(
    faults: &mut Items<PrimFault>,
    name: &Text,
    said: &SaidAt<'_, '_>,
    left_out: bool,
) -> Result<(), AllocError>
    ensures { OnOk result (faults.new ≡ faults.old ++ fault_if name.now said.now left_out) }
{
    if left_out {
        faults.push(PrimFault::TimeOutside(TimeFault {
            layer: copy(said.layer())?,
            site: copy(&said.site().path)?,
            name: copy(name)?,
        }))?;
    }
    Ok(())
}

/// Lets an opinion decide what is open, and appends its fault.
fn take_opinion(
    alloc: Global,
    name: &Text,
    opinion: &PropertyAt<'_, '_, '_>,
    decision: &mut Decision,
    faults: &mut Items<PrimFault>,
) -> Result<(), AllocError>
    ensures decision { OnOk result (decision.new ≡ decided_next decision.old (given opinion.now)) }
    ensures faults { OnOk result (faults.new ≡ faults.old ++ fault_if name.now opinion.now.said (given opinion.now).left_out) }
{
    let given = given(alloc, opinion)?;
    match push_fault(faults, name, opinion.said(), given.left_out) {
        Ok(()) => {
            let before = mem::replace(decision, Decision::open(alloc));
            drop(mem::replace(decision, before.and_then(given)));
            Ok(())
        }
        Err(error) => {
            drop(given);
            Err(error)
        }
    }
}

/// The values of an attribute of this name by the specs that count. Specs that are relationships give nothing.
///
/// # Errors
///
/// Memory ran out.
pub fn resolve_attr_by(
    alloc: Global,
    name: &Text,
    specs: &[PropertyAt<'_, '_, '_>],
) -> Result<AttrValue, AllocError>
    ensures default { IfOk result (λ value. value.default ≡ default_by specs.now) }
    ensures samples { IfOk result (λ value. value.samples ≡ samples_by specs.now) }
    ensures faults { IfOk result (λ value. value.faults ≡ faults_by name.now specs.now) }
{
    let mut decision = Decision::open(alloc);
    let mut faults = Items::new(alloc);
    for opinion in specs {
        take_opinion(alloc, name, opinion, &mut decision, &mut faults)?;
    }
    let Decision {
        default,
        samples,
        waits: _,
    } = decision;
    Ok(AttrValue {
        default,
        samples,
        faults,
    })
}

/// The values of an attribute by the opinions on its prim.
///
/// # Errors
///
/// Memory ran out.
pub fn resolve_attr_of(
    alloc: Global,
    said: &[SaidAt<'_, '_>],
    name: &Text,
) -> Result<AttrValue, AllocError>
    ensures default { IfOk result (λ value. value.default ≡ default_by (counted name.now said.now)) }
    ensures samples { IfOk result (λ value. value.samples ≡ samples_by (counted name.now said.now)) }
    ensures faults { IfOk result (λ value. value.faults ≡ faults_by name.now (counted name.now said.now)) }
{
    let specs = specs_of(alloc, name, said)?;
    resolve_attr_by(alloc, name, specs.as_slice())
}

/// The values of an attribute of a prim with these sites, from strong to weak.
///
/// # Errors
///
/// Memory ran out.
pub fn resolve_attr(
    alloc: Global,
    world: &World,
    sites: &[Site],
    name: &Text,
) -> Result<AttrValue, AllocError>
    ensures default { IfOk result (λ value. value.default ≡ default_by (counted name.now (said_on (look_ups world.now) sites.now))) }
    ensures samples { IfOk result (λ value. value.samples ≡ samples_by (counted name.now (said_on (look_ups world.now) sites.now))) }
    ensures faults { IfOk result (λ value. value.faults ≡ faults_by name.now (counted name.now (said_on (look_ups world.now) sites.now))) }
{
    let said = opinions_on(alloc, world, sites)?;
    resolve_attr_of(alloc, said.as_slice(), name)
}
