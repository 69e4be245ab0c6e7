//! The lines of a session's script, each read for itself.
#![tactic(auto)]

/// What is read. Where it is not there, what was read before it is let go by one call, and the function returns: a `?` would go
/// over each field of it.
macro_rules! read_or_drop {
    ($read:expr, $before:expr) => {
        match $read {
            Ok(read) => read,
            Err(fault) => {
                drop($before);
                return Err(fault);
            }
        }
    };
    ($read:expr, $before:expr, $fault:expr) => {
        match $read {
            Ok(read) => read,
            Err(_) => {
                drop($before);
                return Err($fault);
            }
        }
    };
}

mod field_lines;
mod grammar;
mod line;
mod meta_lines;
mod places;
mod question_lines;
mod spec_lines;
mod value_lines;

pub use grammar::read_line;
pub use line::Line;
