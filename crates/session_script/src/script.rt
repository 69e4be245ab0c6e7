//! The script, step by step.

ghost use Rattle.std.specs.Prelude.{◌≡◌, ◌+◌, ◌<◌, ◌≤◌, [], length, drop, take, true, false, Ok, Err, None, Some, IfErr, IfOk, IsSome};
ghost use Rattle.io_edges.specs.Causes.{IsCounted};
ghost use Rattle.session_script.specs.Fronts.{IsReadError};

use crate::faults::{ScriptFault, ScriptKind};
use crate::front::{Front, read_front};
use crate::moves::{Moved, take_line};
use crate::steps::Step;
use edit_batches::Op;
use io_edges::Source;
use plain_data::Items;
use script_lines::read_line;
use std::alloc::Global;
use std::marker::Model;

/// A script that is read from a source, line by line. It keeps the bytes that it has read, and that the source told its end.
#[derive(Drop)]
pub struct Script {
    alloc: Global,
    bytes: Vec<u8>,
    start: usize,
    scanned: usize,
    ended: bool,
    lines: u64,
    batch: Option<Items<Op>>,
    line: u64,
    stopped: Option<(u64, ScriptKind)>,
}

impl Model for Script {
    ghost use Rattle.std.specs.Prelude.{drop};
    ghost use Rattle.std.specs.Coded.{codes};
    ghost use Rattle.edit_batches.specs.contracts.op.Op as of_op;
    ghost use Rattle.session_script.specs.States.{State, IsKept};

    ghost Value = { State };

    ghost coded = { Prim.hlevel (codes, of_op.the_row.coded) };

    ghost view = { λ s. record { taken = s.start; held = drop s.start s.bytes.items; ended = s.ended; lines = s.lines; batch = s.batch; line = s.line; stopped = s.stopped } };

    ghost invariant = { λ s. IsKept s.start s.scanned s.lines s.bytes.items };
}

/// So many bytes from a place on.
fn part_of(bytes: &[u8], start: usize, len: usize) -> &[u8]
    requires { start + len ≤ length bytes.now }
    ensures { result.now ≡ take len (drop start bytes.now) }
{
    &bytes[start..start + len]
}

impl Script {
    ghost use Rattle.session_script.specs.Told.{BothTold, coming, Heeds};
    ghost use Rattle.session_script.specs.States.{AnswersNext, Counts, EndsScript, Feeds, FrontIs, Passes, TakesLine, has_feed, stopped_at, steps_left};
    ghost use Rattle.session_script.specs.Reading.{move};
    ghost use Rattle.script_lines.specs.Lines.{line_of};

    /// A script of which nothing was read.
    pub fn new(alloc: Global) -> Script
        ensures { result ≡ record { taken = 0; held = []; ended = false; lines = 0; batch = None; line = 0; stopped = None } }
    {
        Script {
            alloc,
            bytes: Vec::new(alloc),
            start: 0,
            scanned: 0,
            ended: false,
            lines: 0,
            batch: None,
            line: 0,
            stopped: None,
        }
    }

    /// The number of the line that ended the step answered last, counted from 1; 0 before.
    pub fn line(&self) -> u64
        ensures { result ≡ self.now.line }
    {
        self.line
    }

    /// The line in front, read from the source where none is held.
    fn next_front<S: Source>(&mut self, source: &mut S) -> Result<Front, ScriptFault>
        ensures feeds { Feeds self.old self.new (coming self.old.ended (S.left source.old)) (coming self.new.ended (S.left source.new)) }
        ensures front { IfOk result (λ f. FrontIs f self.new (coming self.old.ended (S.left source.old)) (coming self.new.ended (S.left source.new))) }
        ensures heeds { Heeds self.old.ended self.new.ended (S.left source.old) (S.left source.new) }
        ensures quiet { self.old.ended ≡ true → source.new ≡ source.old }
        ensures short { self.new.taken ≤ 16777216 }
        ensures counted { IsCounted (result ≡ Err ScriptFault.ReadFault) (S.faults source.old) (S.faults source.new) }
        ensures faults { IsReadError result }
        ensures held { has_feed self.old.held ≡ true → source.new ≡ source.old }
        ensures none { IfErr result (λ _. (has_feed self.new.held ≡ false) × (self.new.ended ≡ false) × (self.new.taken + length self.new.held ≤ 16777216)) }
    {
        read_front(
            &mut self.bytes,
            self.start,
            &mut self.scanned,
            &mut self.ended,
            source,
        )
    }

    /// Refuses the line behind those that were taken.
    fn stop(&mut self, kind: ScriptKind) -> ScriptFault
        ensures fault { result ≡ ScriptFault.Refused (self.old.lines + 1) kind }
        ensures after { self.new ≡ stopped_at self.old kind }
    {
        let line = self.lines + 1;
        self.stopped = Some((line, kind));
        ScriptFault::Refused { line, kind }
    }

    /// Takes the line in front, of so many bytes. After want of memory all is as before.
    fn take_front(&mut self, len: usize) -> Result<Option<Step>, ScriptFault>
        requires some { 0 < len }
        requires within { len ≤ length self.old.held }
        requires short { self.old.taken + len ≤ 16777216 }
        ensures { TakesLine result len self.old self.new (move self.old.batch (line_of (take len self.old.held))) }
    {
        let Some(line) = read_line(self.alloc, part_of(&self.bytes, self.start, len))? else {
            return Err(self.stop(ScriptKind::BadLine));
        };
        match take_line(self.alloc, &mut self.batch, line)? {
            Moved::Refuses => Err(self.stop(ScriptKind::BadLine)),
            Moved::GoesOn => {
                self.start = self.start + len;
                self.scanned = self.start;
                self.lines = self.lines + 1;
                Ok(None)
            }
            Moved::Asks(step) => {
                self.start = self.start + len;
                self.scanned = self.start;
                self.lines = self.lines + 1;
                self.line = self.lines;
                Ok(Some(step))
            }
        }
    }

    /// What comes of the end of the script.
    fn end(&mut self) -> Result<Option<Step>, ScriptFault>
        ensures { EndsScript result self.old self.new }
    {
        if self.batch.is_some() {
            Err(self.stop(ScriptKind::Unfinished))
        } else {
            Ok(None)
        }
    }

    /// The next step; nothing at the end of the script. It reads from the source only where no whole line is held, and not
    /// again once the source told its end.
    /// After a refusal every call answers it again. After a fault or want of memory the next call goes on from there.
    pub fn next<S: Source>(&mut self, source: &mut S) -> Result<Option<Step>, ScriptFault>
        // The answer is the first of the steps that were left, and the others are left after it: however the source cuts the bytes, they are the steps of all its bytes.
        ensures answer { BothTold (coming self.old.ended (S.left source.old)) (coming self.new.ended (S.left source.new)) (λ a b. AnswersNext result self.new.line (steps_left self.old a) (steps_left self.new b)) }
        // The lines that it took for a step, or up to a fault of the source or want of memory, whatever follows them.
        ensures lines { Passes result self.old self.new (coming self.old.ended (S.left source.old)) (coming self.new.ended (S.left source.new)) }
        // A script ends only where its source told its end. Then nothing is left of the source, and it is not read again.
        ensures end { result ≡ Ok None → self.new.ended ≡ true }
        ensures heeds { Heeds self.old.ended self.new.ended (S.left source.old) (S.left source.new) }
        ensures quiet { self.old.ended ≡ true → source.new ≡ source.old }
        ensures counts { Counts result self.old self.new }
        ensures again { IsSome self.old.stopped → (self.new ≡ self.old) × (source.new ≡ source.old) }
        // A fault is told where a read failed, and only there: no read is tried again.
        ensures counted { IsCounted (result ≡ Err ScriptFault.ReadFault) (S.faults source.old) (S.faults source.new) }
    {
        if let Some((line, kind)) = self.stopped {
            return Err(ScriptFault::Refused { line, kind });
        }
        loop {
            match self.next_front(source)? {
                Front::End => return self.end(),
                Front::TooLong => return Err(self.stop(ScriptKind::TooLong)),
                Front::Line(len) => {
                    if let Some(step) = self.take_front(len)? {
                        return Ok(Some(step));
                    }
                }
            }
        }
    }
}
