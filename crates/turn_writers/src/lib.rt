//! Threads that write into one book, each in turns of its own and with a seat of its own. Whatever the order of the turns, the book
//! then has what each of them wrote, in order, and nothing else.
#![tactic(auto)]

mod book;
mod entry;
mod many;
mod pair;
mod turns;

pub use book::Book;
pub use entry::Entry;
pub use many::write_by_many;
pub use pair::write_by_two;
