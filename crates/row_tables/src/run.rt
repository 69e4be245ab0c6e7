//! The rows of a table, each compared with what it wants.

use crate::answer::answer;
use crate::files::AskedFiles;
use crate::opening::Trial;
use crate::table::{Case, Row, Table};
use std::alloc::{AllocError, Global};
use std::fmt::Write;

/// How many rows there are, and how many of them differ from what they want.
#[derive(Clone, Copy)]
pub(crate) struct Count {
    pub rows: u64,
    pub differ: u64,
}

impl Count {
    /// These and others.
    pub(crate) fn and(self, other: Count) -> Count {
        Count {
            rows: self.rows.saturating_add(other.rows),
            differ: self.differ.saturating_add(other.differ),
        }
    }

    /// One row.
    fn one(differs: bool) -> Count {
        Count {
            rows: 1,
            differ: u64::from(differs),
        }
    }
}

/// Appends lines, each behind a mark.
fn push_marked(out: &mut String, mark: &str, lines: &str) -> Result<(), AllocError> {
    for line in lines.lines() {
        out.push_str(mark)?;
        out.push_str(line)?;
        out.push_str("\n")?;
    }
    Ok(())
}

/// Appends a row that differs, with what was answered and what is wanted.
fn push_row(out: &mut String, name: &str, row: &Row, got: &str) -> Result<(), AllocError> {
    let line = row.line;
    let call = row.call.as_str();
    writeln!(out, "{name} {line}: ? {call}")?;
    push_marked(out, "+", got)?;
    push_marked(out, "=", row.wanted.as_str())
}

/// Makes the call of a row.
fn run_row(
    alloc: Global,
    name: &str,
    trial: &mut Trial,
    row: &Row,
    out: &mut String,
) -> Result<Count, AllocError> {
    let got = answer(alloc, trial, row)?;
    let differs = got.as_str() != row.wanted.as_str();
    if differs {
        push_row(out, name, row, got.as_str())?;
    }
    Ok(Count::one(differs))
}

/// Makes the calls of rows.
fn run_rows(
    alloc: Global,
    name: &str,
    trial: &mut Trial,
    rows: &[Row],
    out: &mut String,
) -> Result<Count, AllocError> {
    let mut all = Count { rows: 0, differ: 0 };
    for row in rows {
        all = all.and(run_row(alloc, name, trial, row, out)?);
    }
    Ok(all)
}

/// Makes the calls on a world.
fn run_case(alloc: Global, name: &str, case: Case, out: &mut String) -> Result<Count, AllocError> {
    let Case {
        session,
        fails,
        files,
        rows,
    } = case;
    let mut trial = Trial {
        files: AskedFiles::new(alloc, files, fails.as_str())?,
        session,
        opened: None,
    };
    let count = run_rows(alloc, name, &mut trial, rows.as_slice(), out);
    drop(trial);
    count
}

/// Appends the lines that no table has at their place; each counts as a row that differs.
fn run_strange(name: &str, strange: &[usize], out: &mut String) -> Result<Count, AllocError> {
    let mut all = Count { rows: 0, differ: 0 };
    for line in strange {
        writeln!(out, "{name} {line}: no line of a table")?;
        all = all.and(Count::one(true));
    }
    Ok(all)
}

/// Makes the calls of a table, and appends the rows that differ. A line that no table has at its place counts as one.
pub(crate) fn run_table(
    alloc: Global,
    name: &str,
    table: Table,
    out: &mut String,
) -> Result<Count, AllocError> {
    let Table { cases, strange } = table;
    let mut all = run_strange(name, strange.as_slice(), out)?;
    for case in cases {
        all = all.and(run_case(alloc, name, case, out)?);
    }
    Ok(all)
}
