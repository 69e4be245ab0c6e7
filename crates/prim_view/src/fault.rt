use asset_names::AssetId;
use path_maps::ArcKind;
use plain_data::Text;
use sdf_paths::Path;
use spec_parts::Refusal;
use std::marker::Model;

/// Why a sublayer is not part of a layer stack.
#[derive(Clone, Copy, Debug, PartialEq, Eq)]
pub enum SublayerReason {
    /// It stands on its own chain of sublayers.
    Cycle,
    /// There is no such layer, or its name cannot be anchored.
    Missing,
    /// The layer was refused.
    Broken,
    /// Its offset, composed with those of the layers above it, is out of range.
    Offset,
}

/// A sublayer that is not part of a layer stack.
#[derive(Clone, Debug, Drop, PartialEq, Eq)]
pub struct SublayerFault {
    /// Why it is not part of the stack.
    pub reason: SublayerReason,
    /// The layer that lists it.
    pub layer: AssetId,
    /// Its name, or the asset as it is written where that cannot be anchored.
    pub asset: Text,
}

/// Why an item of an arc gives no arc, or why an arc is not followed.
#[derive(Clone, Copy, Debug, PartialEq, Eq)]
pub enum ArcReason {
    /// There is no such layer.
    MissingLayer,
    /// The layer was refused.
    BrokenLayer(Refusal),
    /// The item names no prim, and the layer has no default prim.
    NoDefaultPrim,
    /// The target is `/` or a property or has variant selections, or the asset cannot be anchored.
    BadTarget,
    /// An offset is out of range: of the item, with a layer of the target's stack, or composed towards the stage.
    OffsetRange,
    /// The target is an author on the way to the prim, or stands above or below one.
    ArcCycle,
    /// More than 64 arcs on one chain.
    TooDeep,
    /// The path that is reached passes a limit of paths.
    PathTooLong,
    /// No layer has a spec where the arc leads, nor where arcs lead from there.
    UnresolvedPrim,
}

/// The layer that an item of an arc names.
#[derive(Clone, Debug, Drop, PartialEq, Eq)]
pub enum ItemSource {
    /// None: the layer stack of the item itself.
    Own,
    /// A layer.
    Named(AssetId),
    /// An asset that cannot be anchored, as it is written.
    Unanchored(Text),
}

/// The offset of an item, composed with that of its layer. It may be out of the range of offsets.
#[derive(Clone, Copy, Debug, PartialEq, Eq)]
pub struct FaultOffset {
    /// What is added to a time that was multiplied, in whole units of time.
    pub offset: i64,
    /// By what a time is multiplied.
    pub scale: i64,
}

impl Model for FaultOffset {
    ghost use Rattle.sdf_values.specs.Scales.{Offset};

    ghost Value = { Offset };

    ghost view = { λ o. record { offset = o.offset; scale = o.scale } };

    ghost inverse = { λ o. record { offset = o.offset; scale = o.scale } };
}

/// An item of references, payloads or classes, as it stands among those of all layers.
#[derive(Clone, Debug, Drop)]
pub struct FaultItem {
    /// The layer that it names.
    pub source: ItemSource,
    /// The target; none stands for the default prim.
    pub path: Option<Path>,
    /// How times of the target become those of the stack that has the item.
    pub offset: FaultOffset,
}

/// An arc that was not followed, or an item that gives none.
#[derive(Clone, Debug, Drop)]
pub struct ArcFault {
    /// Why there is no arc, or why it was not followed.
    pub reason: ArcReason,
    /// The strongest layer whose opinion gave the item.
    pub layer: AssetId,
    /// The path at which the layer says it.
    pub site: Path,
    /// The kind of the arc.
    pub kind: ArcKind,
    /// The item.
    pub item: FaultItem,
}

/// An attribute some of whose times leave the range of times.
#[derive(Clone, Debug, Drop)]
pub struct TimeFault {
    /// The layer that says it.
    pub layer: AssetId,
    /// The path at which the layer says it.
    pub site: Path,
    /// The attribute's name. Together with `site` it may be longer than a path may be.
    pub name: Text,
}

/// A target or a connection that has no meaning on the stage.
#[derive(Clone, Debug, Drop)]
pub struct TargetFault {
    /// The layer that says it.
    pub layer: AssetId,
    /// The path at which the layer says it.
    pub site: Path,
    /// The property's name. Together with `site` it may be longer than a path may be.
    pub name: Text,
    /// The target as the layer has it.
    pub target: Path,
}

/// What composition finds wrong at a prim. None of it stops composition.
#[derive(Clone, Debug, Drop)]
pub enum PrimFault {
    /// `SublayerCycle`, `SublayerMissing`, `SublayerBroken`, `SublayerOffset`.
    Sublayer(SublayerFault),
    /// A fault of an arc, by its reason.
    Arc(ArcFault),
    /// An attribute some of whose times leave the range of times; they are left out.
    TimeOutside(TimeFault),
    /// A target or a connection that has no meaning on the stage; it is left out.
    TargetOutside(TargetFault),
    /// `PathTooLong` of a child of this name.
    ChildTooLong(Text),
    /// A listing of more than 4,096 nodes was met on the way.
    Overgrown,
}
