//! Calls of tables, maps, grammars, texts of values and files, each once with ample memory and with answers from the rules; no part of the program.
#![tactic(auto)]

#[cfg(test)]
mod arcs;
#[cfg(test)]
mod dependencies;
#[cfg(test)]
mod edges;
#[cfg(test)]
mod editions;
#[cfg(test)]
mod fault_texts;
#[cfg(test)]
mod grammar;
#[cfg(test)]
mod lists;
#[cfg(test)]
mod machine;
#[cfg(test)]
mod names;
#[cfg(test)]
mod ordered_tables;
#[cfg(test)]
mod shared_copies;
#[cfg(test)]
mod values_back;
#[cfg(test)]
mod variants;
