//! The words of a line of a script: its tokens with what stands behind them, paths, values and lists.
//!
//! A call that reads a word answers it with the bytes behind it.
#![tactic(auto)]

mod fault;
mod items;
mod laws;
mod list;
mod place;
mod repeats;
mod value;
mod words;

pub use fault::LineFault;
pub use items::ListItems;
pub use laws::line_values_are_read;
pub use list::{ListDraft, list_in};
pub use place::{ItemForm, ListPlace};
pub use repeats::first_references;
pub use value::value_in;
pub use words::{
    behind_word, ended, flag_at, is_end, layer_at, layer_named, name_at, number_at, path_at,
    text_at, tokens_of,
};
