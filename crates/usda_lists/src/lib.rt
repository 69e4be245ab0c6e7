//! Pieces of the metadata of prims: paths as they are written in a layer, list edits, and the items of lists.
#![tactic(auto)]

mod edit;
mod lists;
mod offset;
mod paths;
mod references;
mod repeats;

pub use edit::{GivenLists, ListEdit};
pub use lists::{open_list, push_item};
pub use offset::{OffsetKey, offset_key, set_offset, whole_number};
pub use paths::{absolute_from, path_from, target_from};
pub use references::{
    asset_item, path_item, push_sublayer, set_last_offset, set_last_path, set_sublayer_offset,
};
pub use repeats::{close_items, close_paths, close_texts, first_paths, first_texts};
