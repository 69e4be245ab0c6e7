//! Calls of properties, specs and layers, each once with ample memory and with answers from the rules; no part of the program.
#![tactic(auto)]

#[cfg(test)]
mod fault_texts;
#[cfg(test)]
mod layers;
#[cfg(test)]
mod parts;
#[cfg(test)]
mod properties;
