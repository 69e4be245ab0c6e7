//! Opens worlds of layers from files: the root and the session layer, and then layer by layer what these name.
#![tactic(auto)]

mod assets;
mod fault;
mod laws;
mod load;
mod names;
mod one;
mod opening;
mod walk;

pub use fault::LoadFault;
pub use laws::files_have_one_reading;
pub use load::{Loaded, load_world};
pub use one::{MAX_FETCHED, load_one};
