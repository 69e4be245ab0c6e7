//! Names of layers: normalised, and anchored at the layer that names them.
#![tactic(auto)]

mod examples;
mod kind;
mod laws;
mod name;
mod path;

pub use examples::{
    absolute_names_are_told, anchored_names_are_told, kinds_are_told, relative_names_are_told,
};
pub use laws::{
    assets_take_the_place_of_their_layer, names_are_normalised, names_leave_out_what_says_nothing,
    normalised_names_stay, segments_are_the_parts_between_slashes,
};
pub use name::{AssetFault, AssetId, NameKind};
