//! What composition makes of a world of layers: definitions alone.
#![tactic(auto)]
