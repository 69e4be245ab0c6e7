//! Tables: worlds by their files, each with the rows on it.
//!
//! A table is lines of text. What a line is shows at its front.
//!
//! ```text
//! # a comment; blank lines count for nothing
//! world               a new world, without files, whose root layer is root.usda
//! session s.usda      the name of its session layer
//! fails 2 5           which fetches of its files fail, counted from 1; `fails memory`: each, for want of memory
//! layer m.usda        the name of a file; its lines follow, each behind a mark
//! |#usda 1.0          a line of a file
//! !def "M" {}         a line without its line feed
//! size 67108864       so many bytes make the file; what is missing are `-`
//! ? names             a call on the world that is opened from the files
//! >unload /A          a line that belongs to the call
//! >layer n.usda       of a batch: the file that its operation `open` finds; its lines follow, as >|#usda 1.0
//! =root.usda          a line that is wanted of the answer
//! ```

use std::alloc::{AllocError, Global};
use std::mem;

/// A long file is made in pieces of so many bytes.
const PIECE: usize = 65_536;

/// A call, with the lines that belong to it and those that are wanted of it.
#[derive(Drop)]
pub(crate) struct Row {
    /// The line of the table, counted from 1.
    pub line: usize,
    pub call: String,
    /// The lines that belong to the call, each with its line feed.
    pub given: String,
    /// The lines that are wanted, each with its line feed.
    pub wanted: String,
}

/// A name with the bytes of its file.
pub(crate) type File = (String, Vec<u8>);

/// The files of a world, and the rows on it.
#[derive(Drop)]
pub(crate) struct Case {
    /// The word of the session layer, empty for none.
    pub session: String,
    pub fails: String,
    pub files: Vec<File>,
    pub rows: Vec<Row>,
}

/// What a table has.
#[derive(Drop)]
pub(crate) struct Table {
    pub cases: Vec<Case>,
    /// The lines that no table has at their place, counted from 1.
    pub strange: Vec<usize>,
}

/// The files and rows of a world of which nothing was read yet.
fn empty_case(alloc: Global) -> Case {
    Case {
        session: String::new(alloc),
        fails: String::new(alloc),
        files: Vec::new(alloc),
        rows: Vec::new(alloc),
    }
}

/// Appends a line with its line feed.
fn push_line(text: &mut String, line: &str) -> Result<(), AllocError> {
    text.push_str(line)?;
    text.push_str("\n")
}

/// Makes bytes so many by further `-`, or leaves out the last ones.
fn fill(alloc: Global, bytes: &mut Vec<u8>, size: usize) -> Result<(), AllocError> {
    let mut piece = Vec::new(alloc);
    piece.resize(PIECE, b'-')?;
    for _piece in 0..size.saturating_sub(bytes.len()) / PIECE {
        bytes.extend_from_slice(piece.as_slice())?;
    }
    bytes.resize(size, b'-')
}

/// A table that is being read, with what its last lines began.
#[derive(Drop)]
struct Draft {
    alloc: Global,
    table: Table,
    case: Case,
    file: Option<File>,
    row: Option<Row>,
}

impl Draft {
    /// Ends the file or the row that was begun.
    fn end(&mut self) -> Result<(), AllocError> {
        if let Some(file) = self.file.take() {
            self.case.files.push(file)?;
        }
        if let Some(row) = self.row.take() {
            self.case.rows.push(row)?;
        }
        Ok(())
    }

    /// Ends the world that was begun.
    fn end_case(&mut self) -> Result<(), AllocError> {
        self.end()?;
        let case = mem::replace(&mut self.case, empty_case(self.alloc));
        self.table.cases.push(case)?;
        Ok(())
    }

    fn begin_row(&mut self, line: usize, call: &str) -> Result<(), AllocError> {
        self.end()?;
        self.row = Some(Row {
            line,
            call: String::from_str(self.alloc, call)?,
            given: String::new(self.alloc),
            wanted: String::new(self.alloc),
        });
        Ok(())
    }

    /// A line of a file with its end; false where none was begun.
    fn push_text(&mut self, text: &str, end: &str) -> Result<bool, AllocError> {
        match &mut self.file {
            Some((_name, bytes)) => {
                bytes.extend_from_slice(text.as_bytes())?;
                bytes.extend_from_slice(end.as_bytes())?;
                Ok(true)
            }
            None => Ok(false),
        }
    }

    /// The size of a file; false where none was begun.
    fn set_size(&mut self, size: &str) -> Result<bool, AllocError> {
        match (self.file.take(), size.parse::<usize>()) {
            (Some((name, mut bytes)), Ok(size)) => {
                fill(self.alloc, &mut bytes, size)?;
                self.file = Some((name, bytes));
                Ok(true)
            }
            _ => Ok(false),
        }
    }

    /// A line that belongs to a call, or is wanted of it; false where no call was begun.
    fn push_row_line(&mut self, text: &str, is_wanted: bool) -> Result<bool, AllocError> {
        match &mut self.row {
            Some(row) => {
                if is_wanted {
                    push_line(&mut row.wanted, text)?;
                } else {
                    push_line(&mut row.given, text)?;
                }
                Ok(true)
            }
            None => Ok(false),
        }
    }

    /// Takes all lines of a text.
    fn take_all(&mut self, text: &str) -> Result<(), AllocError> {
        let mut number: usize = 0;
        for line in text.split('\n') {
            number = number.saturating_add(1);
            if !self.take(number, line)? {
                self.table.strange.push(number)?;
            }
        }
        self.end_case()
    }

    /// Begins a file without bytes.
    fn begin_file(&mut self, name: &str) -> Result<(), AllocError> {
        let name = String::from_str(self.alloc, name)?;
        self.file = Some((name, Vec::new(self.alloc)));
        Ok(())
    }

    /// Takes a line that tells of the session layer or of fetches that fail; false where it does not.
    fn take_told(&mut self, line: &str) -> Result<bool, AllocError> {
        if let Some(name) = line.strip_prefix("session ") {
            self.case.session = String::from_str(self.alloc, name)?;
            return Ok(true);
        }
        match line.strip_prefix("fails ") {
            Some(words) => {
                self.case.fails = String::from_str(self.alloc, words)?;
                Ok(true)
            }
            None => Ok(false),
        }
    }

    /// Takes a line that begins with a word; false where no table has it there.
    fn take_word(&mut self, line: &str) -> Result<bool, AllocError> {
        if let Some(size) = line.strip_prefix("size ") {
            return self.set_size(size);
        }
        self.end()?;
        if line == "world" {
            self.end_case()?;
            return Ok(true);
        }
        match line.strip_prefix("layer ") {
            Some(name) => {
                self.begin_file(name)?;
                Ok(true)
            }
            None => self.take_told(line),
        }
    }

    /// Takes a line of a row; false where no table has it there.
    fn take_row(&mut self, number: usize, line: &str) -> Result<bool, AllocError> {
        if let Some(call) = line.strip_prefix("? ") {
            self.begin_row(number, call)?;
            return Ok(true);
        }
        if let Some(text) = line.strip_prefix(">") {
            return self.push_row_line(text, false);
        }
        match line.strip_prefix("=") {
            Some(text) => self.push_row_line(text, true),
            None => self.take_word(line),
        }
    }

    /// Takes a line; false where no table has it there.
    fn take(&mut self, number: usize, line: &str) -> Result<bool, AllocError> {
        if line.is_empty() || line.starts_with("#") {
            return Ok(true);
        }
        if let Some(text) = line.strip_prefix("|") {
            return self.push_text(text, "\n");
        }
        match line.strip_prefix("!") {
            Some(text) => self.push_text(text, ""),
            None => self.take_row(number, line),
        }
    }
}

/// A table without a line.
fn empty_table(alloc: Global) -> Table {
    Table {
        cases: Vec::new(alloc),
        strange: Vec::new(alloc),
    }
}

/// The table of a text.
pub(crate) fn read_table(alloc: Global, text: &str) -> Result<Table, AllocError> {
    let mut draft = Draft {
        alloc,
        table: empty_table(alloc),
        case: empty_case(alloc),
        file: None,
        row: None,
    };
    let taken = draft.take_all(text);
    let table = mem::replace(&mut draft.table, empty_table(alloc));
    drop(draft);
    match taken {
        Ok(()) => Ok(table),
        Err(fault) => {
            drop(table);
            Err(fault)
        }
    }
}
