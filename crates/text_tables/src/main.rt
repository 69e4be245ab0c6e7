//! Makes the calls of the tables of texts that stand in the working folder, and prints each row whose answer is not the one that it wants; no part
//! of the program.
#![tactic(auto)]

mod answer;
mod edits;
mod fault;
mod layers;
mod lists;
mod names;
mod paths;
mod printing;
mod run;
mod table;
mod tokens;
mod values;
mod words;

use io_edges::{Fetched, FolderFiles, LayerFiles};
use run::{Count, run_table};
use std::alloc::{AllocError, Global};
use std::io;

/// The tables, by the names of their files.
static TABLES: [&str; 10] = [
    "refusals.rows",
    "canonical.rows",
    "chance.rows",
    "values.rows",
    "numbers.rows",
    "paths.rows",
    "tokens.rows",
    "lists.rows",
    "edits.rows",
    "names.rows",
];

/// The text of bytes that were fetched.
fn text_from(alloc: Global, fetched: Fetched, bytes: &[u8]) -> Result<String, AllocError> {
    match fetched {
        Fetched::Found => String::from_utf8_lossy(alloc, bytes),
        Fetched::Absent | Fetched::Failed => {
            String::from_str(alloc, "this table could not be read")
        }
        Fetched::NoMemory => Err(AllocError),
    }
}

/// The text of a file.
fn text_of(rt: &HostRuntime, name: &str) -> Result<String, AllocError> {
    let alloc = rt.alloc();
    let mut files = FolderFiles::new(rt.clone()?);
    let mut bytes = Vec::new(alloc);
    let fetched = files.fetch(name, &mut bytes);
    drop(files);
    let text = text_from(alloc, fetched, bytes.as_slice());
    drop(bytes);
    text
}

/// Makes the calls of a table, and prints what comes of them.
fn one(rt: &HostRuntime, name: &str) -> io::Result<Count> {
    let alloc = rt.alloc();
    let text = text_of(rt, name)?;
    let mut told = String::new(alloc);
    let count = run_table(alloc, name, text.as_str(), &mut told)?;
    rt.print(told.as_str())?;
    let Count { rows, differ } = count;
    println!(rt; "{name}: {rows} rows, {differ} differ")?;
    Ok(count)
}

fn main(rt: HostRuntime) -> io::Result<()> {
    let mut all = Count { rows: 0, differ: 0 };
    for name in &TABLES {
        all = all.and(one(&rt, name)?);
    }
    let Count { rows, differ } = all;
    println!(rt; "{rows} rows, {differ} differ")
}
