//! The rows of a table, each compared with what it wants.

use crate::answer::answer;
use crate::table::{Row, TableLine, line_of};
use std::alloc::{AllocError, Global};
use std::fmt::Write;

/// How many rows there are, and how many of them differ from what they want.
#[derive(Clone, Copy)]
pub(crate) struct Count {
    pub rows: u64,
    pub differ: u64,
}

impl Count {
    /// These and others.
    pub(crate) fn and(self, other: Count) -> Count {
        Count {
            rows: self.rows.saturating_add(other.rows),
            differ: self.differ.saturating_add(other.differ),
        }
    }
}

/// Appends lines, each behind a mark.
fn push_marked(out: &mut String, mark: &str, lines: &str) -> Result<(), AllocError> {
    for line in lines.lines() {
        out.push_str(mark)?;
        out.push_str(line)?;
        out.push_str("\n")?;
    }
    Ok(())
}

/// Appends a row that differs, with what was answered and what is wanted.
fn push_row(
    alloc: Global,
    name: &str,
    row: &Row,
    got: &str,
    out: &mut String,
) -> Result<(), AllocError> {
    let line = row.line;
    let call = row.call.as_str();
    let wanted = String::from_utf8_lossy(alloc, row.wanted.as_slice())?;
    writeln!(out, "{name} {line}: ? {call}")?;
    push_marked(out, "+", got)?;
    push_marked(out, "=", wanted.as_str())
}

/// The rows of a table up to some line, with the last one, which may have further lines.
#[derive(Drop)]
struct Run<'n> {
    alloc: Global,
    name: &'n str,
    count: Count,
    last: Option<Row>,
}

impl<'n> Run<'n> {
    /// Makes the call of a row.
    fn make(&mut self, row: &Row, out: &mut String) -> Result<(), AllocError> {
        let got = answer(self.alloc, row)?;
        let differs = got.as_bytes() != row.wanted.as_slice();
        if differs {
            push_row(self.alloc, self.name, row, got.as_str(), out)?;
        }
        self.count = self.count.and(Count {
            rows: 1,
            differ: u64::from(differs),
        });
        Ok(())
    }

    /// Makes the call of the last row, and gives that row.
    fn end(&mut self, out: &mut String) -> Result<Option<Row>, AllocError> {
        let last = self.last.take();
        if let Some(row) = &last {
            self.make(row, out)?;
        }
        Ok(last)
    }

    /// Begins a row with the text of the one above.
    fn again(
        &mut self,
        line: usize,
        call: &str,
        out: &mut String,
    ) -> Result<Option<()>, AllocError> {
        let Some(above) = self.end(out)? else {
            return Ok(None);
        };
        let mut row = Row::begun(self.alloc, line, call)?;
        row.given = above.given;
        self.last = Some(row);
        Ok(Some(()))
    }

    /// Takes a line; nothing where it may not stand there.
    fn take(
        &mut self,
        number: usize,
        line: &str,
        out: &mut String,
    ) -> Result<Option<()>, AllocError> {
        match line_of(line) {
            TableLine::Nothing => Ok(Some(())),
            TableLine::Call(call) => {
                self.end(out)?;
                self.last = Some(Row::begun(self.alloc, number, call)?);
                Ok(Some(()))
            }
            TableLine::Again(call) => self.again(number, call, out),
            TableLine::Text(line) => match &mut self.last {
                Some(row) => row.take(self.alloc, line),
                None => Ok(None),
            },
        }
    }

    /// Takes the lines of a table.
    fn take_all(&mut self, text: &str, out: &mut String) -> Result<(), AllocError> {
        let mut number: usize = 0;
        for line in text.split('\n') {
            number = number.saturating_add(1);
            if self.take(number, line, out)?.is_none() {
                writeln!(out, "{} {number}: no line of a table", self.name)?;
                self.count = self.count.and(Count { rows: 1, differ: 1 });
            }
        }
        self.end(out)?;
        Ok(())
    }
}

/// Makes the calls of a table, and appends the rows that differ. A line that no table has at its place counts as a row that differs.
pub(crate) fn run_table(
    alloc: Global,
    name: &str,
    text: &str,
    out: &mut String,
) -> Result<Count, AllocError> {
    let mut run = Run {
        alloc,
        name,
        count: Count { rows: 0, differ: 0 },
        last: None,
    };
    run.take_all(text, out)?;
    Ok(run.count)
}
