//! Calls of words and of values taken as a type, each once with ample memory and with answers from the rules; no part of the program.
#![tactic(auto)]

#[cfg(test)]
mod shapes;
#[cfg(test)]
mod words;
