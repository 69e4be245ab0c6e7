//! Threads that take turns, on real ones; no part of the program.
#![tactic(auto)]

#[cfg(test)]
mod books;
#[cfg(test)]
mod desks;
