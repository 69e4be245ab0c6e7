//! Makes the calls of the tables of rows that stand in the working folder, and prints each row whose answer is not the one that it wants; no part
//! of the program.
#![tactic(auto)]

mod answer;
mod edits;
mod fault;
mod fields;
mod files;
mod indexes;
mod layers;
mod opening;
mod printing;
mod run;
mod stacks;
mod stages;
mod table;
mod values;
mod views;
mod words;

use io_edges::{Fetched, FolderFiles, LayerFiles};
use run::{Count, run_table};
use std::alloc::{AllocError, Global};
use std::io;
use table::read_table;

/// The tables, by the names of their files. One without a file is passed over.
static TABLES: [&str; 13] = [
    "arcs.rows",
    "index.rows",
    "values.rows",
    "targets.rows",
    "fields.rows",
    "views.rows",
    "questions.rows",
    "flattened.rows",
    "edits.rows",
    "batches.rows",
    "worlds.rows",
    "layers.rows",
    "opening.rows",
];

/// The text of bytes that were fetched, if there were some.
fn text_from(alloc: Global, fetched: Fetched, bytes: &[u8]) -> Result<Option<String>, AllocError> {
    match fetched {
        Fetched::Found => Ok(Some(String::from_utf8_lossy(alloc, bytes)?)),
        Fetched::Absent => Ok(None),
        Fetched::Failed => Ok(Some(String::from_str(alloc, "this table could not be read")?)),
        Fetched::NoMemory => Err(AllocError),
    }
}

/// The text of a file, if there is one.
fn text_of(rt: &HostRuntime, name: &str) -> Result<Option<String>, AllocError> {
    let alloc = rt.alloc();
    let mut files = FolderFiles::new(rt.clone()?);
    let mut bytes = Vec::new(alloc);
    let fetched = files.fetch(name, &mut bytes);
    drop(files);
    let text = text_from(alloc, fetched, bytes.as_slice());
    drop(bytes);
    text
}

/// Makes the calls of a table, and prints what comes of them.
fn one(rt: &HostRuntime, name: &str, text: &str) -> io::Result<Count> {
    let alloc = rt.alloc();
    let table = read_table(alloc, text)?;
    let mut told = String::new(alloc);
    let count = run_table(alloc, name, table, &mut told)?;
    rt.print(told.as_str())?;
    let Count { rows, differ } = count;
    println!(rt; "{name}: {rows} rows, {differ} differ")?;
    Ok(count)
}

fn main(rt: HostRuntime) -> io::Result<()> {
    let mut all = Count { rows: 0, differ: 0 };
    for name in &TABLES {
        if let Some(text) = text_of(&rt, name)? {
            all = all.and(one(&rt, name, text.as_str())?);
        }
    }
    let Count { rows, differ } = all;
    println!(rt; "{rows} rows, {differ} differ")
}
