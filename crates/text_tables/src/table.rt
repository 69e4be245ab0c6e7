//! Rows of a table: calls, each with the text that belongs to it and the answer that it wants.
//!
//! A table is lines of text. What a line is shows at its front.
//!
//! ```text
//! # a comment; blank lines count for nothing
//! ? number            a call
//! >0.0100             a line of its text, with its line feed
//! ~a\tb\xff           a piece of its text, without a line feed
//! *64 [               a piece of its text, so many times
//! =0.01               a line that is wanted of the answer, with its line feed
//! ^a\x07              a piece that is wanted, without a line feed
//! %64 [               a piece that is wanted, so many times
//! & time              a call on the text of the row above
//! ```
//!
//! In a piece `\n`, `\r`, `\t` and `\\` are a line feed, a carriage return, a tab and a backslash, and `\xff` is the byte of two hexadecimal digits.

use std::alloc::{AllocError, Global};

/// A call, with the text that belongs to it and the answer that is wanted of it.
#[derive(Drop)]
pub(crate) struct Row {
    /// The line of the table, counted from 1.
    pub line: usize,
    pub call: String,
    pub given: Vec<u8>,
    pub wanted: Vec<u8>,
}

/// What a line of a table says.
#[derive(Drop)]
pub(crate) enum TableLine<'t> {
    Nothing,
    Call(&'t str),
    Again(&'t str),
    /// A line, a piece or a piece so many times, of the text or of the answer.
    Text(&'t str),
}

/// What a line says.
pub(crate) fn line_of(line: &str) -> TableLine<'_> {
    if line.is_empty() || line.starts_with("#") {
        return TableLine::Nothing;
    }
    if let Some(call) = line.strip_prefix("? ") {
        return TableLine::Call(call);
    }
    match line.strip_prefix("& ") {
        Some(call) => TableLine::Again(call),
        None => TableLine::Text(line),
    }
}

/// What was read of a piece: the next byte stands for itself, or a backslash, `\x` or a first digit stands before it.
#[derive(Clone, Copy)]
enum Reading {
    Plain,
    Escape,
    Byte,
    Digit(u8),
    Bad,
}

/// The digit that a byte is.
fn digit_of(byte: u8) -> Option<u8> {
    match byte {
        b'0'..=b'9' => Some(byte.saturating_sub(b'0')),
        b'a'..=b'f' => Some(byte.saturating_sub(b'a').saturating_add(10)),
        _ => None,
    }
}

/// The byte that a letter behind a backslash stands for.
fn escaped(byte: u8) -> Option<u8> {
    match byte {
        b'n' => Some(b'\n'),
        b'r' => Some(b'\r'),
        b't' => Some(b'\t'),
        b'\\' => Some(b'\\'),
        _ => None,
    }
}

/// Appends the byte that is there, if there is one.
fn push_some(out: &mut Vec<u8>, byte: Option<u8>) -> Result<Reading, AllocError> {
    match byte {
        Some(byte) => {
            out.push(byte)?;
            Ok(Reading::Plain)
        }
        None => Ok(Reading::Bad),
    }
}

/// Takes a byte behind `\x`, or behind that and a first digit.
fn take_digit(out: &mut Vec<u8>, high: Option<u8>, byte: u8) -> Result<Reading, AllocError> {
    match (high, digit_of(byte)) {
        (Some(high), Some(low)) => push_some(
            out,
            Some(high.saturating_mul(16).saturating_add(low)),
        ),
        (None, Some(high)) => Ok(Reading::Digit(high)),
        (_, None) => Ok(Reading::Bad),
    }
}

/// Takes a byte of a piece.
fn take_byte(out: &mut Vec<u8>, reading: Reading, byte: u8) -> Result<Reading, AllocError> {
    match reading {
        Reading::Plain if byte == b'\\' => Ok(Reading::Escape),
        Reading::Plain => push_some(out, Some(byte)),
        Reading::Escape if byte == b'x' => Ok(Reading::Byte),
        Reading::Escape => push_some(out, escaped(byte)),
        Reading::Byte => take_digit(out, None, byte),
        Reading::Digit(high) => take_digit(out, Some(high), byte),
        Reading::Bad => Ok(Reading::Bad),
    }
}

/// Appends what a piece stands for; nothing where it is none.
fn push_piece(out: &mut Vec<u8>, piece: &str) -> Result<Option<()>, AllocError> {
    let mut reading = Reading::Plain;
    for byte in piece.as_bytes() {
        reading = take_byte(out, reading, *byte)?;
    }
    match reading {
        Reading::Plain => Ok(Some(())),
        _ => Ok(None),
    }
}

/// Doubles bytes.
fn double(bytes: &mut Vec<u8>, alloc: Global) -> Result<(), AllocError> {
    let half = Vec::from_slice(alloc, bytes.as_slice())?;
    bytes.extend_from_slice(half.as_slice())
}

/// Appends bytes so many times. Twice the bytes are as many again, so that many of them take few steps.
fn push_copies(
    out: &mut Vec<u8>,
    once: Vec<u8>,
    count: usize,
    alloc: Global,
) -> Result<(), AllocError> {
    let mut once = once;
    let mut left = count;
    for _bit in 0..usize::BITS {
        if left % 2 == 1 {
            out.extend_from_slice(once.as_slice())?;
        }
        left /= 2;
        if left == 0 {
            break;
        }
        double(&mut once, alloc)?;
    }
    Ok(())
}

/// Appends a piece so many times; nothing where the words are not a number and a piece.
fn push_times(out: &mut Vec<u8>, words: &str, alloc: Global) -> Result<Option<()>, AllocError> {
    let Some((count, piece)) = words.split_once(' ') else {
        return Ok(None);
    };
    let Ok(count) = count.parse::<usize>() else {
        return Ok(None);
    };
    let mut once = Vec::new(alloc);
    if push_piece(&mut once, piece)?.is_none() {
        return Ok(None);
    }
    push_copies(out, once, count, alloc)?;
    Ok(Some(()))
}

/// Appends a line with its line feed.
fn push_line(out: &mut Vec<u8>, line: &str) -> Result<Option<()>, AllocError> {
    out.extend_from_slice(line.as_bytes())?;
    out.push(b'\n')?;
    Ok(Some(()))
}

impl Row {
    /// A call without text of which nothing is wanted yet.
    pub(crate) fn begun(alloc: Global, line: usize, call: &str) -> Result<Row, AllocError> {
        Ok(Row {
            line,
            call: String::from_str(alloc, call)?,
            given: Vec::new(alloc),
            wanted: Vec::new(alloc),
        })
    }

    /// Takes a line of the answer; nothing where it is none.
    fn take_wanted(&mut self, alloc: Global, line: &str) -> Result<Option<()>, AllocError> {
        if let Some(text) = line.strip_prefix("=") {
            return push_line(&mut self.wanted, text);
        }
        if let Some(piece) = line.strip_prefix("^") {
            return push_piece(&mut self.wanted, piece);
        }
        match line.strip_prefix("%") {
            Some(words) => push_times(&mut self.wanted, words, alloc),
            None => Ok(None),
        }
    }

    /// Takes a line of the text or of the answer; nothing where it is neither.
    pub(crate) fn take(&mut self, alloc: Global, line: &str) -> Result<Option<()>, AllocError> {
        if let Some(text) = line.strip_prefix(">") {
            return push_line(&mut self.given, text);
        }
        if let Some(piece) = line.strip_prefix("~") {
            return push_piece(&mut self.given, piece);
        }
        match line.strip_prefix("*") {
            Some(words) => push_times(&mut self.given, words, alloc),
            None => self.take_wanted(alloc, line),
        }
    }
}
