//! Calls on stages, each once with ample memory and with answers from the rules; no part of the program.
#![tactic(auto)]

#[cfg(test)]
mod fault_texts;
#[cfg(test)]
mod questions;
