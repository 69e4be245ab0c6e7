//! The texts of faults.
ghost use Rattle.std.specs.Prelude.{◌≡◌, ◌++◌, IfOk, OnOk, string_bytes};
ghost use Rattle.std.specs.Fmt.{decimal};
ghost use Rattle.prim_view.specs.Printing.{item_name, item_text, field_name, reason_name, refusal_name, refusal_text, refusal_of, arc_front, arc_back, arc_text, sublayer_reason_name, sublayer_text, place_text, property_text, property_place, target_word, time_word, child_word, time_text, target_front, target_text, child_text, fault_text};
ghost use Rattle.sdf_values.specs.Print.{asset_text};

use crate::fault::{
    ArcFault, ArcReason, FaultItem, ItemSource, PrimFault, SublayerFault, SublayerReason,
    TargetFault, TimeFault,
};
use asset_names::AssetId;
use path_maps::ArcKind;
use plain_data::Text;
use sdf_paths::{Path, push_path, push_path_text};
use sdf_values::{RefusalKind, push_asset, push_offset, push_string};
use spec_parts::Refusal;
use std::alloc::{AllocError, Global};

/// The word of a refusal.
pub fn refusal_name(kind: RefusalKind) -> &'static str
    ensures { result.now ≡ refusal_name kind }
{
    match kind {
        RefusalKind::TooLong => "TooLong",
        RefusalKind::Crate => "Crate",
        RefusalKind::Package => "Package",
        RefusalKind::NotUtf8 => "NotUtf8",
        RefusalKind::BadHeader => "BadHeader",
        RefusalKind::Syntax => "Syntax",
        RefusalKind::NumberTooLong => "NumberTooLong",
        RefusalKind::UnknownType => "UnknownType",
        RefusalKind::ValueShape => "ValueShape",
        RefusalKind::TimeRange => "TimeRange",
        RefusalKind::OffsetRange => "OffsetRange",
        RefusalKind::DuplicateSpec => "DuplicateSpec",
        RefusalKind::Relocates => "Relocates",
        RefusalKind::Spline => "Spline",
        RefusalKind::ReferenceData => "ReferenceData",
        RefusalKind::TooDeep => "TooDeep",
    }
}

fn reason_name(reason: ArcReason) -> &'static str
    ensures { result.now ≡ reason_name reason }
{
    match reason {
        ArcReason::MissingLayer => "MissingLayer",
        ArcReason::BrokenLayer(_) => "BrokenLayer",
        ArcReason::NoDefaultPrim => "NoDefaultPrim",
        ArcReason::BadTarget => "BadTarget",
        ArcReason::OffsetRange => "OffsetRange",
        ArcReason::ArcCycle => "ArcCycle",
        ArcReason::TooDeep => "TooDeep",
        ArcReason::PathTooLong => "PathTooLong",
        ArcReason::UnresolvedPrim => "UnresolvedPrim",
    }
}

fn field_name(kind: ArcKind) -> &'static str
    ensures { result.now ≡ field_name kind }
{
    match kind {
        ArcKind::Inherits => "inherits",
        ArcKind::Variant => "variantSets",
        ArcKind::Reference => "references",
        ArcKind::Payload => "payload",
        ArcKind::Specializes => "specializes",
    }
}

fn sublayer_reason_name(reason: SublayerReason) -> &'static str
    ensures { result.now ≡ sublayer_reason_name reason }
{
    match reason {
        SublayerReason::Cycle => "SublayerCycle",
        SublayerReason::Missing => "SublayerMissing",
        SublayerReason::Broken => "SublayerBroken",
        SublayerReason::Offset => "SublayerOffset",
    }
}

fn push_name(out: &mut String, name: &AssetId) -> Result<(), AllocError>
    ensures { OnOk result (string_bytes out.new ≡ string_bytes out.old ++ asset_text name.now) }
{
    push_asset(out, name.text())
}

/// Appends the number of a line or a column.
fn push_count(out: &mut String, n: u64) -> Result<(), AllocError>
    ensures { OnOk result (string_bytes out.new ≡ string_bytes out.old ++ decimal n) }
{
    let text = n.to_string(*out.allocator())?;
    out.push_str(text.as_str())
}

fn push_item_name(
    out: &mut String,
    source: &ItemSource,
    path: &Option<Path>,
) -> Result<(), AllocError>
    ensures { OnOk result (string_bytes out.new ≡ string_bytes out.old ++ item_name source.now path.now) }
{
    match source {
        ItemSource::Own => match path {
            None => out.push_str("<>"),
            Some(path) => push_path_text(out, path),
        },
        ItemSource::Named(name) => match path {
            None => push_name(out, name),
            Some(path) => {
                push_name(out, name)?;
                push_path_text(out, path)
            }
        },
        ItemSource::Unanchored(asset) => match path {
            None => push_asset(out, asset.as_str()),
            Some(path) => {
                push_asset(out, asset.as_str())?;
                push_path_text(out, path)
            }
        },
    }
}

fn push_item(out: &mut String, item: &FaultItem) -> Result<(), AllocError>
    ensures { OnOk result (string_bytes out.new ≡ string_bytes out.old ++ item_text item.now) }
{
    push_item_name(out, &item.source, &item.path)?;
    push_offset(out, item.offset.offset, item.offset.scale)
}

fn push_refusal(out: &mut String, refusal: Refusal) -> Result<(), AllocError>
    ensures { OnOk result (string_bytes out.new ≡ string_bytes out.old ++ refusal_text refusal) }
{
    out.push_str(" ")?;
    out.push_str(refusal_name(refusal.kind))?;
    out.push_str(" ")?;
    push_count(out, refusal.line)?;
    out.push_str(":")?;
    push_count(out, refusal.column)
}

fn push_refusal_of(out: &mut String, reason: ArcReason) -> Result<(), AllocError>
    ensures { OnOk result (string_bytes out.new ≡ string_bytes out.old ++ refusal_of reason) }
{
    match reason {
        ArcReason::BrokenLayer(refusal) => push_refusal(out, refusal),
        _ => Ok(()),
    }
}

fn push_place(out: &mut String, layer: &AssetId, path: &Path) -> Result<(), AllocError>
    ensures { OnOk result (string_bytes out.new ≡ string_bytes out.old ++ place_text layer.now path.now) }
{
    push_name(out, layer)?;
    push_path_text(out, path)
}

fn push_property(out: &mut String, site: &Path, name: &Text) -> Result<(), AllocError>
    ensures { OnOk result (string_bytes out.new ≡ string_bytes out.old ++ property_text site.now name.now) }
{
    out.push_str("<")?;
    push_path(out, site)?;
    out.push_str(".")?;
    out.push_str(name.as_str())?;
    out.push_str(">")
}

fn push_property_place(
    out: &mut String,
    layer: &AssetId,
    site: &Path,
    name: &Text,
) -> Result<(), AllocError>
    ensures { OnOk result (string_bytes out.new ≡ string_bytes out.old ++ property_place layer.now site.now name.now) }
{
    push_name(out, layer)?;
    push_property(out, site, name)
}

fn push_arc_front(out: &mut String, fault: &ArcFault) -> Result<(), AllocError>
    ensures { OnOk result (string_bytes out.new ≡ string_bytes out.old ++ arc_front fault.now) }
{
    out.push_str(reason_name(fault.reason))?;
    out.push_str(" ")?;
    push_place(out, &fault.layer, &fault.site)
}

fn push_arc_back(out: &mut String, fault: &ArcFault) -> Result<(), AllocError>
    ensures { OnOk result (string_bytes out.new ≡ string_bytes out.old ++ arc_back fault.now) }
{
    out.push_str(field_name(fault.kind))?;
    out.push_str(" ")?;
    push_item(out, &fault.item)?;
    push_refusal_of(out, fault.reason)
}

fn push_arc(out: &mut String, fault: &ArcFault) -> Result<(), AllocError>
    ensures { OnOk result (string_bytes out.new ≡ string_bytes out.old ++ arc_text fault.now) }
{
    push_arc_front(out, fault)?;
    out.push_str(" ")?;
    push_arc_back(out, fault)
}

fn push_sublayer(out: &mut String, fault: &SublayerFault) -> Result<(), AllocError>
    ensures { OnOk result (string_bytes out.new ≡ string_bytes out.old ++ sublayer_text fault.now) }
{
    out.push_str(sublayer_reason_name(fault.reason))?;
    out.push_str(" ")?;
    push_name(out, &fault.layer)?;
    out.push_str(" ")?;
    push_asset(out, fault.asset.as_str())
}

#[tactic(auto, unfolding(crate::specs::Printing::target_word))]
fn target_word() -> &'static str
    ensures { result.now ≡ target_word }
{
    "TargetOutside "
}

#[tactic(auto, unfolding(crate::specs::Printing::time_word))]
fn time_word() -> &'static str
    ensures { result.now ≡ time_word }
{
    "TimeOutside "
}

#[tactic(auto, unfolding(crate::specs::Printing::child_word))]
fn child_word() -> &'static str
    ensures { result.now ≡ child_word }
{
    "PathTooLong "
}

fn push_time(out: &mut String, fault: &TimeFault) -> Result<(), AllocError>
    ensures { OnOk result (string_bytes out.new ≡ string_bytes out.old ++ time_text fault.now) }
{
    out.push_str(time_word())?;
    push_property_place(out, &fault.layer, &fault.site, &fault.name)
}

fn push_target_front(out: &mut String, fault: &TargetFault) -> Result<(), AllocError>
    ensures { OnOk result (string_bytes out.new ≡ string_bytes out.old ++ target_front fault.now) }
{
    out.push_str(target_word())?;
    push_property_place(out, &fault.layer, &fault.site, &fault.name)
}

fn push_target(out: &mut String, fault: &TargetFault) -> Result<(), AllocError>
    ensures { OnOk result (string_bytes out.new ≡ string_bytes out.old ++ target_text fault.now) }
{
    push_target_front(out, fault)?;
    out.push_str(" ")?;
    push_path_text(out, &fault.target)
}

fn push_child(out: &mut String, name: &Text) -> Result<(), AllocError>
    ensures { OnOk result (string_bytes out.new ≡ string_bytes out.old ++ child_text name.now) }
{
    out.push_str(child_word())?;
    push_string(out, name.as_str())
}

fn push_fault(out: &mut String, fault: &PrimFault) -> Result<(), AllocError>
    ensures { OnOk result (string_bytes out.new ≡ string_bytes out.old ++ fault_text fault.now) }
{
    match fault {
        PrimFault::Sublayer(fault) => push_sublayer(out, fault),
        PrimFault::Arc(fault) => push_arc(out, fault),
        PrimFault::TimeOutside(fault) => push_time(out, fault),
        PrimFault::TargetOutside(fault) => push_target(out, fault),
        PrimFault::ChildTooLong(name) => push_child(out, name),
        PrimFault::Overgrown => out.push_str("Overgrown"),
    }
}

/// The text of a fault, as it stands on a line of its own.
pub fn print_fault(alloc: Global, fault: &PrimFault) -> Result<String, AllocError>
    ensures { IfOk result (λ text. string_bytes text ≡ fault_text fault.now) }
{
    let mut out = String::new(alloc);
    push_fault(&mut out, fault)?;
    Ok(out)
}
