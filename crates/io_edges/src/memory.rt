//! Files, sources and sinks in memory: the ones that never fail, and the same with faults at calls of given numbers.

ghost use Rattle.std.specs.Prelude.{◌≡◌, ◌+◌, ◌++◌, ◌∷◌, ◌<◌, ◌≤◌, [], None, Some, length, take, drop, min, map, OnOk, OnErr, IfSome, string_bytes};
ghost use Rattle.std.specs.Option.{option_copied};
ghost use Rattle.io_edges.specs.Causes.{IsCounted};
ghost use Rattle.io_edges.specs.Edges.{most, FetchAsks, FetchTells, FetchLeaves, ReadTakes, ReadsStep, WriteTakes, WritesStep};
ghost use Rattle.io_edges.specs.Plans.{IsCalled};
ghost use Rattle.io_edges.specs.Stores.{entry_of, file_named};

use crate::faults::FaultPlan;
use crate::{Fetched, Gate, GatePoint, Got, LayerFiles, MAX_FETCH, Put, Sink, Source};
use std::alloc::{AllocError, Global};
use std::marker::Model;

/// Adds a file's first bytes.
fn append_file(file: &[u8], into: &mut Vec<u8>) -> Result<(), AllocError>
    ensures ok { OnOk result (into.new.items ≡ into.old.items ++ take most file.now) }
    ensures err { OnErr result (into.new.items ≡ into.old.items) }
{
    let len = file.len().min(MAX_FETCH);
    into.extend_from_slice(&file[..len])
}

/// The first file of this name.
fn find_file<'f>(files: &'f [(String, Vec<u8>)], name: &str) -> Option<&'f [u8]>
    ensures { option_copied result ≡ file_named (map entry_of files.now) name.now }
{
    for (key, bytes) in files {
        if key.as_str() == name {
            return Some(bytes.as_slice());
        }
    }
    None
}

fn fetch_from(files: &[(String, Vec<u8>)], name: &str, into: &mut Vec<u8>) -> Fetched
    ensures tells { FetchTells result (file_named (map entry_of files.now) name.now) into.old.items into.new.items }
    ensures leaves { FetchLeaves result into.old.items into.new.items }
    ensures sure { result ≡ Fetched.Failed → ⊥ }
{
    match find_file(files, name) {
        None => Fetched::Absent,
        Some(file) => match append_file(file, into) {
            Ok(()) => Fetched::Found,
            Err(_) => Fetched::NoMemory,
        },
    }
}

/// Files that are always there. Of a name that is given twice, the first counts.
#[derive(Drop)]
pub struct SureFiles {
    files: Vec<(String, Vec<u8>)>,
}

impl Model for SureFiles {
    ghost use Rattle.std.specs.Prelude.{List, map};
    ghost use Rattle.io_edges.specs.Stores.{Entry, entry_of};

    ghost Value = { List Entry };

    ghost view = { λ s. map entry_of s.files.items };
}

impl SureFiles {
    /// These files, each a name and its bytes.
    pub fn new(files: Vec<(String, Vec<u8>)>) -> SureFiles
        ensures { result ≡ map entry_of files.items }
    {
        SureFiles { files }
    }
}

impl LayerFiles for SureFiles {
    ghost files = { λ s. Some (file_named s) };

    ghost asked = { λ _. None };

    ghost faults = { λ _. 0 };

    fn fetch(&mut self, name: &str, into: &mut Vec<u8>) -> Fetched {
        fetch_from(&self.files, name, into)
    }
}

/// Adds a name to those that were asked for.
fn note(asked: &mut Vec<String>, name: &str) -> Result<(), AllocError>
    ensures ok { OnOk result (map string_bytes asked.new.items ≡ map string_bytes asked.old.items ++ name.now ∷ []) }
    ensures err { OnErr result (asked.new.items ≡ asked.old.items) }
{
    let name = String::from_str(*asked.allocator(), name)?;
    asked.push(name)?;
    Ok(())
}

/// Files of which some fetches fail, and which keep the names that were asked for.
#[derive(Drop)]
pub struct MemoryFiles {
    files: SureFiles,
    asked: Vec<String>,
    plan: FaultPlan,
}

impl Model for MemoryFiles {
    ghost use Rattle.std.specs.Prelude.{map, string_bytes};
    ghost use Rattle.io_edges.specs.Stores.{FailingFiles};

    ghost Value = { FailingFiles };

    ghost view = { λ s. record { files = s.files; asked = map string_bytes s.asked.items; plan = s.plan } };
}

impl MemoryFiles {
    /// These files, of which the fetches of these numbers fail, counted from 1.
    pub fn new(files: Vec<(String, Vec<u8>)>, failing: Vec<u64>) -> MemoryFiles
        ensures files { result.files ≡ map entry_of files.items }
        ensures asked { result.asked ≡ [] }
        ensures plan { result.plan ≡ record { failing = failing.items; calls = 0; faults = 0 } }
    {
        let asked = Vec::new(*files.allocator());
        MemoryFiles {
            files: SureFiles::new(files),
            asked,
            plan: FaultPlan::new(failing),
        }
    }

    /// The names that were asked for, the first one first.
    pub fn asked(&self) -> &[String]
        ensures { map string_bytes result.now ≡ self.now.asked }
    {
        self.asked.as_slice()
    }
}

impl LayerFiles for MemoryFiles {
    ghost files = { λ s. Some (file_named s.files) };

    ghost asked = { λ s. Some s.asked };

    ghost faults = { λ s. s.plan.faults };

    fn fetch(&mut self, name: &str, into: &mut Vec<u8>) -> Fetched
        ensures same { Some (file_named self.new.files) ≡ Some (file_named self.old.files) }
        ensures tells { IfSome (Some (file_named self.old.files)) (λ f. FetchTells result (f name.now) into.old.items into.new.items) }
        ensures leaves { FetchLeaves result into.old.items into.new.items }
        ensures asks { FetchAsks result (Some self.old.asked) (Some self.new.asked) name.now }
        ensures counted { IsCounted (result ≡ Fetched.Failed) self.old.plan.faults self.new.plan.faults }
        ensures planned { IsCalled self.old.plan self.new.plan (result ≡ Fetched.Failed) }
    {
        let noted = note(&mut self.asked, name);
        if self.plan.fails_now() {
            return Fetched::Failed;
        }
        match noted {
            Ok(()) => self.files.fetch(name, into),
            Err(_) => Fetched::NoMemory,
        }
    }
}

/// A source of bytes that never fails.
#[derive(Drop)]
pub struct SureSource {
    bytes: Vec<u8>,
    step: usize,
    at: usize,
}

impl Model for SureSource {
    ghost use Rattle.std.specs.Prelude.{◌<◌, ◌≤◌, drop, length};
    ghost use Rattle.io_edges.specs.Stores.{Stream};

    ghost Value = { Stream };

    ghost view = { λ s. record { left = drop s.at s.bytes.items; step = s.step } };

    ghost invariant = { λ s. (s.at ≤ length s.bytes.items) × (0 < s.step) };
}

impl SureSource {
    /// A source of these bytes, which moves at most `step` of them a read.
    pub fn new(bytes: Vec<u8>, step: usize) -> SureSource
        requires { 0 < step }
        ensures { result ≡ record { left = bytes.items; step = step } }
    {
        SureSource { bytes, step, at: 0 }
    }
}

/// The bytes from a place on.
fn rest_of(bytes: &[u8], at: usize) -> &[u8]
    requires { at ≤ length bytes.now }
    ensures { result.now ≡ drop at bytes.now }
{
    &bytes[at..]
}

/// Puts the first bytes of a text at the front of the buffer, and says how many.
fn give(text: &[u8], step: usize, into: &mut [u8]) -> usize
    ensures within { result ≤ length text.now }
    ensures room { result ≤ length into.new }
    ensures count { result ≡ min (min (length text.now) step) (length into.old) }
    ensures front { take result into.new ≡ take result text.now }
    ensures some { 0 < step → 0 < length text.now → 0 < length into.old → 0 < result }
{
    let len = text.len().min(step).min(into.len());
    into[..len].copy_from_slice(&text[..len]);
    len
}

impl Source for SureSource {
    ghost left = { λ s. Some s.left };

    ghost faults = { λ _. 0 };

    fn read(&mut self, into: &mut [u8]) -> Got
        requires { 0 < length into.old }
        ensures takes { ReadTakes result (Some self.old.left) (Some self.new.left) into.new }
        ensures all { ReadsStep self.old.step self.old.left (length into.old) result }
        ensures step { self.new.step ≡ self.old.step }
        ensures counted { IsCounted (result ≡ Got.Failed) 0 0 }
        ensures sure { result ≡ Got.Failed → ⊥ }
    {
        let text = rest_of(&self.bytes, self.at);
        if text.is_empty() {
            return Got::End;
        }
        let len = give(text, self.step, into);
        self.at = self.at + len;
        Got::Bytes(len)
    }
}

/// A source of bytes, of which some reads fail.
#[derive(Drop)]
pub struct MemorySource {
    source: SureSource,
    plan: FaultPlan,
}

impl Model for MemorySource {
    ghost use Rattle.io_edges.specs.Stores.{FailingStream};

    ghost Value = { FailingStream };

    ghost view = { λ s. record { stream = s.source; plan = s.plan } };
}

impl MemorySource {
    /// A source of these bytes, which moves at most `step` of them a read. The reads of these numbers fail, counted
    /// from 1.
    pub fn new(bytes: Vec<u8>, step: usize, failing: Vec<u64>) -> MemorySource
        requires { 0 < step }
        ensures stream { result.stream ≡ record { left = bytes.items; step = step } }
        ensures plan { result.plan ≡ record { failing = failing.items; calls = 0; faults = 0 } }
    {
        MemorySource {
            source: SureSource::new(bytes, step),
            plan: FaultPlan::new(failing),
        }
    }
}

impl Source for MemorySource {
    ghost left = { λ s. Some s.stream.left };

    ghost faults = { λ s. s.plan.faults };

    fn read(&mut self, into: &mut [u8]) -> Got
        requires { 0 < length into.old }
        ensures takes { ReadTakes result (Some self.old.stream.left) (Some self.new.stream.left) into.new }
        ensures all { ReadsStep self.old.stream.step self.old.stream.left (length into.old) result }
        ensures step { self.new.stream.step ≡ self.old.stream.step }
        ensures counted { IsCounted (result ≡ Got.Failed) self.old.plan.faults self.new.plan.faults }
        ensures planned { IsCalled self.old.plan self.new.plan (result ≡ Got.Failed) }
    {
        if self.plan.fails_now() {
            return Got::Failed;
        }
        self.source.read(into)
    }
}

/// A sink that keeps what it takes and never fails.
#[derive(Drop)]
pub struct SureSink {
    bytes: Vec<u8>,
    step: usize,
}

impl Model for SureSink {
    ghost use Rattle.std.specs.Prelude.{◌<◌};
    ghost use Rattle.io_edges.specs.Stores.{Store};

    ghost Value = { Store };

    ghost view = { λ s. record { taken = s.bytes.items; step = s.step } };

    ghost invariant = { λ s. 0 < s.step };
}

impl SureSink {
    /// A sink that has taken nothing, and takes at most `step` bytes a write.
    pub fn new(alloc: Global, step: usize) -> SureSink
        requires { 0 < step }
        ensures { result ≡ record { taken = []; step = step } }
    {
        SureSink {
            bytes: Vec::new(alloc),
            step,
        }
    }

    /// The bytes taken so far.
    pub fn taken(&self) -> &[u8]
        ensures { result.now ≡ self.now.taken }
    {
        self.bytes.as_slice()
    }
}

/// Keeps the first bytes of a piece.
fn keep(bytes: &mut Vec<u8>, step: usize, piece: &[u8]) -> Put
    requires some { 0 < length piece.now }
    requires moves { 0 < step }
    ensures takes { WriteTakes result (Some bytes.old.items) (Some bytes.new.items) piece.now }
    ensures sure { result ≡ Put.Failed → ⊥ }
    ensures all { WritesStep step piece.now result }
{
    let len = piece.len().min(step);
    match bytes.extend_from_slice(&piece[..len]) {
        Ok(()) => Put::Took(len),
        Err(_) => Put::NoMemory,
    }
}

impl Sink for SureSink {
    ghost taken = { λ s. Some s.taken };

    ghost faults = { λ _. 0 };

    fn write(&mut self, piece: &[u8]) -> Put
        requires { 0 < length piece.now }
        ensures takes { WriteTakes result (Some self.old.taken) (Some self.new.taken) piece.now }
        ensures all { WritesStep self.old.step piece.now result }
        ensures step { self.new.step ≡ self.old.step }
        ensures counted { IsCounted (result ≡ Put.Failed) 0 0 }
        ensures sure { result ≡ Put.Failed → ⊥ }
    {
        keep(&mut self.bytes, self.step, piece)
    }
}

/// A sink that keeps what it takes, at which some writes fail.
#[derive(Drop)]
pub struct MemorySink {
    sink: SureSink,
    plan: FaultPlan,
}

impl Model for MemorySink {
    ghost use Rattle.io_edges.specs.Stores.{FailingStore};

    ghost Value = { FailingStore };

    ghost view = { λ s. record { store = s.sink; plan = s.plan } };
}

impl MemorySink {
    /// A sink that has taken nothing, and takes at most `step` bytes a write. The writes of these numbers fail, counted
    /// from 1.
    pub fn new(alloc: Global, step: usize, failing: Vec<u64>) -> MemorySink
        requires { 0 < step }
        ensures store { result.store ≡ record { taken = []; step = step } }
        ensures plan { result.plan ≡ record { failing = failing.items; calls = 0; faults = 0 } }
    {
        MemorySink {
            sink: SureSink::new(alloc, step),
            plan: FaultPlan::new(failing),
        }
    }

    /// The bytes taken so far.
    pub fn taken(&self) -> &[u8]
        ensures { result.now ≡ self.now.store.taken }
    {
        self.sink.taken()
    }
}

impl Sink for MemorySink {
    ghost taken = { λ s. Some s.store.taken };

    ghost faults = { λ s. s.plan.faults };

    fn write(&mut self, piece: &[u8]) -> Put
        requires { 0 < length piece.now }
        ensures takes { WriteTakes result (Some self.old.store.taken) (Some self.new.store.taken) piece.now }
        ensures all { WritesStep self.old.store.step piece.now result }
        ensures step { self.new.store.step ≡ self.old.store.step }
        ensures counted { IsCounted (result ≡ Put.Failed) self.old.plan.faults self.new.plan.faults }
        ensures planned { IsCalled self.old.plan self.new.plan (result ≡ Put.Failed) }
    {
        if self.plan.fails_now() {
            return Put::Failed;
        }
        self.sink.write(piece)
    }
}

/// A gate that holds nobody.
#[derive(Clone, Copy, Debug)]
pub struct FreeGate;

impl Gate for FreeGate {
    fn pass(&self, _point: GatePoint, _ticket: u64) {}
}
