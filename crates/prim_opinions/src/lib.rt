//! What the layers say of a prim: its opinions, by site and then by layer, the strongest first; and the opinions on one property.
#![tactic(auto)]

mod counting;
mod gather;
mod offset;
mod property;
mod said;
mod stacks;

pub use counting::specs_of;
pub use gather::opinions_on;
pub use offset::StageOffset;
pub use property::PropertyAt;
pub use said::SaidAt;
