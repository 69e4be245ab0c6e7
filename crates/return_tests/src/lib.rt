//! Layers that are written and read again, each with ample memory and with answers from the rules; no part of the program.
#![tactic(auto)]

#[cfg(test)]
mod returns;
