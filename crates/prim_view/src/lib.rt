//! The composed prim: what a prim is on the stage, the sites from which it has opinions, and the faults that composition finds, with
//! their texts.
#![tactic(auto)]

mod exact;
mod exact_view;
mod fault;
mod look;
mod print;
mod site;
mod stack_name;
mod view;

pub use fault::{
    ArcFault, ArcReason, FaultItem, FaultOffset, ItemSource, PrimFault, SublayerFault,
    SublayerReason, TargetFault, TimeFault,
};
pub use print::{print_fault, refusal_name};
pub use site::Site;
pub use stack_name::StackName;
pub use variant_select::Choices;
pub use view::{PrimView, PropertyView};
