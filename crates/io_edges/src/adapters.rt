//! The files of the working folder, standard input and standard output.
//!
//! What a folder holds is not told: that is the trusted edge of the program. A source and a sink tell what the reader
//! and the writer below them tell.

ghost use Rattle.std.specs.Prelude.{◌≡◌, ◌≢◌, ◌↔◌, None};
ghost use Rattle.std.specs.IoError.{error_kind};
ghost use Rattle.io_edges.specs.Edges.{FetchLeaves, GivesAll};

use crate::{Fetched, Got, LayerFiles, MAX_FETCH, Put, Sink, Source};
use std::fs;
use std::io::{self, ErrorKind, Read, Write};
use std::marker::Model;
use std::rt::Files;

/// How many bytes of a file are read at once.
const PIECE: usize = 65_536;

/// The files of the machine, a relative name being taken from the working folder. Contracts see the count of faults.
#[derive(Drop)]
pub struct FolderFiles<R: Files + Drop> {
    rt: R,
    faults: u64,
}

impl<R: Files + Drop> Model for FolderFiles<R> {
    ghost use Rattle.std.specs.Prelude.{ℕ};

    ghost Value = { ℕ };

    ghost view = { λ s. s.faults };
}

impl<R: Files + Drop> FolderFiles<R> {
    /// The files that this runtime reaches.
    pub fn new(rt: R) -> FolderFiles<R>
        ensures { result ≡ 0 }
    {
        FolderFiles { rt, faults: 0 }
    }
}

/// What a file that could not be opened is: a missing one is no fault.
fn fault_of(e: &io::Error) -> Fetched
    ensures fault { result ≢ Fetched.Found }
    ensures absent { result ≡ Fetched.Absent ↔ error_kind e.now ≡ ErrorKind.NotFound }
    ensures memory { result ≡ Fetched.NoMemory ↔ error_kind e.now ≡ ErrorKind.OutOfMemory }
{
    match e.kind() {
        ErrorKind::NotFound => Fetched::Absent,
        ErrorKind::OutOfMemory => Fetched::NoMemory,
        _ => Fetched::Failed,
    }
}

/// Adds what a reader gives, at most `MAX_FETCH`.
fn append_all<T: Read>(reader: &mut T, into: &mut Vec<u8>) -> Fetched
    ensures leaves { FetchLeaves result into.old.items into.new.items }
    ensures present { result ≢ Fetched.Absent }
    ensures gives { GivesAll result into.old.items into.new.items (T.remaining reader.old) (T.remaining reader.new) }
{
    let mut piece = [0u8; PIECE];
    let mut left = MAX_FETCH;
    for _ in 0..u64::MAX {
        let room = left.min(PIECE);
        if room == 0 {
            return Fetched::Found;
        }
        match reader.read(&mut piece[..room]) {
            Ok(0) => return Fetched::Found,
            Ok(n) => {
                if into.extend_from_slice(&piece[..n]).is_err() {
                    return Fetched::NoMemory;
                }
                left = left - n;
            }
            Err(e) => match e.kind() {
                ErrorKind::Interrupted => {}
                ErrorKind::OutOfMemory => return Fetched::NoMemory,
                _ => return Fetched::Failed,
            },
        }
    }
    Fetched::Failed
}

impl<R: Files + Drop> LayerFiles for FolderFiles<R> {
    ghost files = { λ _. None };

    ghost asked = { λ _. None };

    ghost faults = { λ count. count };

    fn fetch(&mut self, name: &str, into: &mut Vec<u8>) -> Fetched {
        let fetched = match fs::open(&self.rt, name) {
            Ok(mut file) => append_all(&mut file, into),
            Err(e) => fault_of(&e),
        };
        if fetched == Fetched::Failed {
            self.faults = self.faults.saturating_add(1);
        }
        fetched
    }
}

/// A source over a reader, as standard input. What the reader tells of the bytes that it has left, the source tells.
#[derive(Drop)]
pub struct StdSource<T: Read + Drop> {
    inner: T,
    faults: u64,
}

impl<T: Read + Drop> Model for StdSource<T> {
    ghost use Rattle.io_edges.specs.Stores.{Counted};

    ghost Value = { Counted T };

    ghost view = { λ s. record { inner = s.inner; faults = s.faults } };
}

impl<T: Read + Drop> StdSource<T> {
    /// A source of what this reader gives.
    pub fn new(inner: T) -> StdSource<T>
        ensures { result ≡ record { inner = inner; faults = 0 } }
    {
        StdSource { inner, faults: 0 }
    }
}

impl<T: Read + Drop> Source for StdSource<T> {
    ghost left = { λ s. T.remaining s.inner };

    ghost faults = { λ s. s.faults };

    fn read(&mut self, into: &mut [u8]) -> Got {
        for _ in 0..u64::MAX {
            match self.inner.read(into) {
                Ok(0) => return Got::End,
                Ok(n) => return Got::Bytes(n),
                Err(e) => {
                    if e.kind() != ErrorKind::Interrupted {
                        break;
                    }
                }
            }
        }
        self.faults = self.faults.saturating_add(1);
        Got::Failed
    }
}

/// A sink over a writer, as standard output. What the writer tells of the bytes that it has taken, the sink tells.
#[derive(Drop)]
pub struct StdSink<W: Write + Drop> {
    inner: W,
    faults: u64,
}

impl<W: Write + Drop> Model for StdSink<W> {
    ghost use Rattle.io_edges.specs.Stores.{Counted};

    ghost Value = { Counted W };

    ghost view = { λ s. record { inner = s.inner; faults = s.faults } };
}

impl<W: Write + Drop> StdSink<W> {
    /// A sink that hands on to this writer.
    pub fn new(inner: W) -> StdSink<W>
        ensures { result ≡ record { inner = inner; faults = 0 } }
    {
        StdSink { inner, faults: 0 }
    }
}

impl<W: Write + Drop> Sink for StdSink<W> {
    ghost taken = { λ s. W.contents s.inner };

    ghost faults = { λ s. s.faults };

    fn write(&mut self, piece: &[u8]) -> Put {
        for _ in 0..u64::MAX {
            match self.inner.write(piece) {
                Ok(0) => break,
                Ok(n) => return Put::Took(n),
                Err(e) => match e.kind() {
                    ErrorKind::Interrupted => {}
                    ErrorKind::OutOfMemory => return Put::NoMemory,
                    _ => break,
                },
            }
        }
        self.faults = self.faults.saturating_add(1);
        Put::Failed
    }
}
