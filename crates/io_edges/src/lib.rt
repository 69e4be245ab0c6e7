//! The outside of the program: files, a source, a sink and a gate.
//!
//! Each of the first three tells what it stands for, where that is known, and counts its faults, so that a caller who
//! hands a fault on can show that it happened. In memory they are exact; over the machine's files and streams they tell
//! nothing of content.
#![tactic(auto)]

mod adapters;
mod faults;
mod memory;

ghost use Rattle.std.specs.Prelude.{◌≡◌, ◌<◌, ℕ, List, Option, length, IfSome};
ghost use Rattle.io_edges.specs.Causes.{IsCounted};
ghost use Rattle.io_edges.specs.Edges.{FetchAsks, FetchLeaves, FetchTells, ReadTakes, WriteTakes};

pub use adapters::{FolderFiles, StdSink, StdSource};
pub use memory::{
    FreeGate, MemoryFiles, MemorySink, MemorySource, SureFiles, SureSink, SureSource,
};

/// As many bytes of a file as one fetch takes: one more than a layer may have, so that a file that is too long shows.
pub const MAX_FETCH: usize = 67_108_865;

/// What a fetch answers.
#[derive(Clone, Copy, Debug, PartialEq, Eq)]
pub enum Fetched {
    /// The file's bytes, at most the first `MAX_FETCH`, were added to the buffer.
    Found,
    /// There is no file of this name, and the buffer is as before.
    Absent,
    /// Reading failed, and the buffer begins with what it held.
    Failed,
    /// Memory ran out, and the buffer begins with what it held.
    NoMemory,
}

/// What a read answers.
#[derive(Clone, Copy, Debug, PartialEq, Eq)]
pub enum Got {
    /// So many bytes, at least one, were taken and put at the front of the buffer.
    Bytes(usize),
    /// No bytes are left.
    End,
    /// Reading failed, and nothing was taken.
    Failed,
}

/// What a write answers.
#[derive(Clone, Copy, Debug, PartialEq, Eq)]
pub enum Put {
    /// So many of the first bytes, at least one, were taken.
    Took(usize),
    /// Writing failed, and nothing was taken.
    Failed,
    /// Memory ran out, and nothing was taken.
    NoMemory,
}

/// Where a thread passes a gate.
#[derive(Clone, Copy, Debug, PartialEq, Eq)]
pub enum GatePoint {
    /// A flight has taken its place and is about to compose it.
    Taken,
    /// A flight has composed its place.
    Composed,
    /// An edit call has ended.
    Edited,
    /// A publish has ended, and no reader was joined yet.
    Published,
    /// A reader is about to look.
    Looking,
}

/// Layers by their names.
///
/// Which bytes each name has is a map that no call changes. It is told by objects in memory and not by folders. Which
/// names were asked for is told by `MemoryFiles` alone: what is proved over any files holds over these too.
pub trait LayerFiles {
    /// The bytes of each name, where they are told.
    ghost files: { Self → Option (List ℕ → Option (List ℕ)) };

    /// The names that were asked for, the first one first, where they are told.
    ghost asked: { Self → Option (List (List ℕ)) };

    /// How often a fetch has failed. The count never falls, and stands still at 2^64 - 1.
    ghost faults: { Self → ℕ };

    /// Adds the bytes of this name to the buffer, at most the first `MAX_FETCH`.
    fn fetch(&mut self, name: &str, into: &mut Vec<u8>) -> Fetched
        ensures same { files self.new ≡ files self.old }
        ensures tells { IfSome (files self.old) (λ f. FetchTells result (f name.now) into.old.items into.new.items) }
        ensures leaves { FetchLeaves result into.old.items into.new.items }
        ensures asks { FetchAsks result (asked self.old) (asked self.new) name.now }
        ensures counted { IsCounted (result ≡ Fetched.Failed) (faults self.old) (faults self.new) };
}

/// A stream that is read.
pub trait Source {
    /// The bytes that are left, where they are told.
    ghost left: { Self → Option (List ℕ) };

    /// How often a read has failed. The count never falls, and stands still at 2^64 - 1.
    ghost faults: { Self → ℕ };

    /// Takes the first bytes that are left, at least one where any are, and puts them at the front of the buffer.
    fn read(&mut self, into: &mut [u8]) -> Got
        requires { 0 < length into.old }
        ensures takes { ReadTakes result (left self.old) (left self.new) into.new }
        ensures counted { IsCounted (result ≡ Got.Failed) (faults self.old) (faults self.new) };
}

/// A stream that is written.
pub trait Sink {
    /// The bytes taken so far, where they are told.
    ghost taken: { Self → Option (List ℕ) };

    /// How often a write has failed. The count never falls, and stands still at 2^64 - 1.
    ghost faults: { Self → ℕ };

    /// Takes the first bytes of the piece, at least one of them.
    fn write(&mut self, piece: &[u8]) -> Put
        requires { 0 < length piece.now }
        ensures takes { WriteTakes result (taken self.old) (taken self.new) piece.now }
        ensures counted { IsCounted (result ≡ Put.Failed) (faults self.old) (faults self.new) };
}

/// Where tests hold a thread. A gate tells nothing and changes nothing.
pub trait Gate {
    /// Comes back once this thread may go on. The ticket is the number of the flight, of the edit call, of the version
    /// or of the reader.
    fn pass(&self, point: GatePoint, ticket: u64);
}
