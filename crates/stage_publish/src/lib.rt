//! Published versions of a stage, and views that look into one.
#![tactic(auto)]

mod edition;
mod places;
mod view;

pub use edition::Edition;
pub use view::View;
