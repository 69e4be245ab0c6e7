//! Class lists: which classes a node of a prim has, its own and those that what it leads to hands up.
#![tactic(auto)]

mod class;
mod laws;
mod lift;
mod lists;

pub use class::{Class, is_class_of, same_kind, same_path, same_stack};
pub use laws::classes_are_lifted_by_arcs;
pub use lift::path_above;
pub use lists::{class_list, class_list_from};
