//! Lists of what a stage has, as answers show them.
ghost use Rattle.std.specs.Prelude.{◌≡◌, ◌++◌, length, IfOk, OnOk, string_bytes};
ghost use Rattle.std.specs.List.{flat_map};
ghost use Rattle.prim_view.specs.Printing.{fault_text};
ghost use Rattle.sdf_values.specs.Print.{quoted};
ghost use Rattle.sdf_paths.specs.Paths.{path_text};
ghost use Rattle.usda_writer.specs.Texts.{listed};
ghost use Rattle.stage_questions.specs.Texts.{sample_text, samples_text, paths_text, names_text, line_start, line_below, first_layer, site_text, faults_text, sites_with_spec, sites_text};

use asset_names::AssetId;
use plain_data::Text;
use prim_view::{PrimFault, PrimView, Site, StackName, print_fault};
use sdf_paths::{Path, push_path, push_path_text};
use sdf_values::{TimeCode, Value, push_asset, push_string, push_time, push_value};
use spec_properties::Samples;
use std::alloc::{AllocError, Global};

fn push_sample(out: &mut String, time: TimeCode, value: &Value) -> Result<(), AllocError>
    ensures { OnOk result (string_bytes out.new ≡ string_bytes out.old ++ sample_text (time, value.now)) }
{
    push_time(out, time)?;
    out.push_str(": ")?;
    push_value(out, value, 0)
}

/// Appends samples with a comma and a blank between them.
fn push_samples(out: &mut String, samples: &Samples) -> Result<(), AllocError>
    ensures { OnOk result (string_bytes out.new ≡ string_bytes out.old ++ listed sample_text samples.now) }
{
    let mut is_first = true;
    for (time, value) in samples.iter() {
        if !is_first {
            out.push_str(", ")?;
        }
        is_first = false;
        push_sample(out, *time, value)?;
    }
    Ok(())
}

/// Samples in the order of time.
pub fn print_samples(alloc: Global, samples: &Samples) -> Result<String, AllocError>
    ensures { IfOk result (λ text. string_bytes text ≡ samples_text samples.now) }
{
    let mut out = String::from_str(alloc, "{")?;
    push_samples(&mut out, samples)?;
    out.push_str("}")?;
    Ok(out)
}

/// Appends targets with a comma and a blank between them.
fn push_targets(out: &mut String, paths: &[Path]) -> Result<(), AllocError>
    ensures { OnOk result (string_bytes out.new ≡ string_bytes out.old ++ listed path_text paths.now) }
{
    let mut is_first = true;
    for path in paths {
        if !is_first {
            out.push_str(", ")?;
        }
        is_first = false;
        push_path_text(out, path)?;
    }
    Ok(())
}

/// Targets in their order.
pub fn print_targets(alloc: Global, paths: &[Path]) -> Result<String, AllocError>
    ensures { IfOk result (λ text. string_bytes text ≡ paths_text paths.now) }
{
    let mut out = String::from_str(alloc, "[")?;
    push_targets(&mut out, paths)?;
    out.push_str("]")?;
    Ok(out)
}

/// Appends names with a comma and a blank between them.
fn push_names(out: &mut String, names: &[Text]) -> Result<(), AllocError>
    ensures { OnOk result (string_bytes out.new ≡ string_bytes out.old ++ listed quoted names.now) }
{
    let mut is_first = true;
    for name in names {
        if !is_first {
            out.push_str(", ")?;
        }
        is_first = false;
        push_string(out, name.as_str())?;
    }
    Ok(())
}

/// Names in their order, as strings.
pub fn print_names(alloc: Global, names: &[Text]) -> Result<String, AllocError>
    ensures { IfOk result (λ text. string_bytes text ≡ names_text names.now) }
{
    let mut out = String::from_str(alloc, "[")?;
    push_names(&mut out, names)?;
    out.push_str("]")?;
    Ok(out)
}

/// Begins a line, further in.
fn push_line_start(out: &mut String) -> Result<(), AllocError>
    ensures { OnOk result (string_bytes out.new ≡ string_bytes out.old ++ line_start) }
{
    out.push_str("\n  ")
}

/// Appends a line with a fault.
fn push_fault(alloc: Global, out: &mut String, fault: &PrimFault) -> Result<(), AllocError>
    ensures { OnOk result (string_bytes out.new ≡ string_bytes out.old ++ line_below (fault_text fault.now)) }
{
    let text = print_fault(alloc, fault)?;
    push_line_start(out)?;
    out.push_str(text.as_str())
}

/// Appends a line for each fault.
fn push_faults(alloc: Global, out: &mut String, faults: &[PrimFault]) -> Result<(), AllocError>
    ensures { OnOk result (string_bytes out.new ≡ string_bytes out.old ++ flat_map (λ f. line_below (fault_text f)) faults.now) }
{
    for fault in faults {
        push_fault(alloc, out, fault)?;
    }
    Ok(())
}

/// How many faults a prim has, and each on a line of its own.
pub fn print_faults(alloc: Global, prim: &PrimView) -> Result<String, AllocError>
    ensures { IfOk result (λ text. string_bytes text ≡ faults_text prim.now) }
{
    let faults = prim.faults.as_slice();
    let mut out = faults.len().to_string(alloc)?;
    push_faults(alloc, &mut out, faults)?;
    Ok(out)
}

/// The first layer of a stack; of that of the root layer, before which the session layer may stand, the root layer.
fn first_layer<'a>(root: &'a AssetId, stack: &'a StackName) -> &'a AssetId
    ensures { result.now ≡ first_layer root.now stack.now }
{
    match stack {
        StackName::Root => root,
        StackName::Asset(name) => name,
    }
}

/// Appends a line with a site.
fn push_site(out: &mut String, root: &AssetId, site: &Site) -> Result<(), AllocError>
    ensures { OnOk result (string_bytes out.new ≡ string_bytes out.old ++ line_below (site_text root.now site.now)) }
{
    push_line_start(out)?;
    push_asset(out, first_layer(root, &site.stack).text())?;
    out.push_str(" ")?;
    push_path(out, &site.path)
}

/// How many sites have a spec.
fn spec_count(sites: &[Site]) -> usize
    ensures { result ≡ length (sites_with_spec sites.now) }
{
    let mut count: usize = 0;
    for site in sites {
        count += usize::from(site.has_spec);
    }
    count
}

/// Appends a line for each site that has a spec.
fn push_sites(out: &mut String, root: &AssetId, sites: &[Site]) -> Result<(), AllocError>
    ensures { OnOk result (string_bytes out.new ≡ string_bytes out.old ++ flat_map (λ s. line_below (site_text root.now s)) (sites_with_spec sites.now)) }
{
    for site in sites {
        if site.has_spec {
            push_site(out, root, site)?;
        }
    }
    Ok(())
}

/// How many sites of a prim have a spec, and each of these on a line of its own.
pub fn print_sites(alloc: Global, root: &AssetId, prim: &PrimView) -> Result<String, AllocError>
    ensures { IfOk result (λ text. string_bytes text ≡ sites_text root.now prim.now) }
{
    let sites = prim.sites.as_slice();
    let mut out = spec_count(sites).to_string(alloc)?;
    push_sites(&mut out, root, sites)?;
    Ok(out)
}
