//! A composer of one small world, and a core that runs over it.
#![tactic(auto)]

#[cfg(test)]
mod tests;
mod toy;

pub use toy::Toy;
