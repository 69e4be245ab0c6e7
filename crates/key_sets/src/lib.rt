//! Keys of a world in their order, each once.
//!
//! It knows keys and the order of keys. It must never know what a world has at a key, nor why a key is asked.
#![tactic(auto)]

mod laws;
mod ordering;

pub use laws::keys_in_order_are_a_set;
pub use ordering::in_order;
