//! A script that is fed in pieces.
ghost use Rattle.std.specs.Prelude.{◌≡◌, ◌+◌, ◌≤◌, [], length, OnOk, None};
ghost use Rattle.script_io.specs.Opens.{HasNoNewline};
ghost use Rattle.script_exec.specs.State.{State};
ghost use Rattle.script_exec.specs.Carrying.{MatchesState};

use crate::line::{MOST_BYTES, MOST_LINES, answer_line, wrong};
use crate::split::split_line;
use crate::stop::Stop;
use script_exec::{Bench, Why};
use std::alloc::Global;
use std::mem::replace;

/// The state of a script: the number of its open line, the bench, a buffer for a payload, the bytes of the open line, and the
/// whole answers that are not yet written.
#[derive(Drop)]
pub struct Script {
    pub number: u64,
    pub bench: Option<Bench>,
    pub payload: Vec<u8>,
    pub line: Vec<u8>,
    pub out: Vec<u8>,
}

impl Script {
    ghost use Rattle.script_io.specs.Feeding.{Answered, Closes, Faults, Feeds, IsScript, most_left};

    /// A script of which nothing was read. The buffer is for payloads.
    pub fn new(alloc: Global, payload: Vec<u8>) -> Script
        requires { 65536 ≤ length payload.items }
        ensures good { IsScript result }
        ensures number { result.number ≡ 1 }
        ensures bench { result.bench ≡ None }
        ensures line { result.line.items ≡ [] }
        ensures out { result.out.items ≡ [] }
    {
        Script {
            number: 1,
            bench: None,
            payload,
            line: Vec::new(alloc),
            out: Vec::new(alloc),
        }
    }

    /// Takes the next bytes, and answers the lines that end in them. A line that lies in `chunk` as a whole is answered
    /// without a copy.
    pub fn feed(&mut self, alloc: Global, chunk: &[u8]) -> Result<(), Stop>
        requires { IsScript self.old }
        ensures keeps { OnOk result (IsScript self.new) }
        ensures fewer { OnOk result (most_left self.new + length chunk.now ≤ most_left self.old) }
        ensures fed { (state : State) → MatchesState self.old.bench state → Feeds result self.old state self.new chunk.now }
    {
        let mut rest = chunk;
        while let Some((part, following)) = split_line(rest) {
            if !self.line.is_empty() {
                self.take_in(part)?;
                self.answer_open(alloc)?;
            } else {
                self.answer(alloc, part)?;
            }
            rest = following;
        }
        self.take_in(rest)
    }

    // Appends bytes to the open line, or reports that it is too long or one too many. Both are reported before the line ends:
    // more bytes can't change them, and `line` stays within its limit.
    fn take_in(&mut self, part: &[u8]) -> Result<(), Stop>
        requires good { IsScript self.old }
        requires part { HasNoNewline part.now }
        ensures keeps { OnOk result (IsScript self.new) }
        ensures fewer { OnOk result (most_left self.new + length part.now ≤ most_left self.old) }
        ensures fed { (state : State) → MatchesState self.old.bench state → Feeds result self.old state self.new part.now }
    {
        // Without bytes no line begins, so that 1,000,000 lines that all end with LF have no fault.
        if part.is_empty() {
            return Ok(());
        }
        if self.number > MOST_LINES {
            return self.report_fault(Why::Many);
        }
        // After `Many`: that kind comes first.
        if part.len() > MOST_BYTES - self.line.len() {
            return self.report_fault(Why::Long);
        }
        Ok(self.line.extend_from_slice(part)?)
    }

    // Reports a fault of the open line. If out of memory, no part of the report is kept.
    fn report_fault(&mut self, why: Why) -> Result<(), Stop>
        ensures { Faults result why self.old self.new }
    {
        let before = self.out.len();
        match wrong(&mut self.out, self.number, why) {
            Err(Stop::Memory) => {
                self.out.truncate(before);
                Err(Stop::Memory)
            }
            reported => reported,
        }
    }

    /// Answers the open line, which ends here, and keeps its memory for the next one.
    pub(crate) fn answer_open(&mut self, alloc: Global) -> Result<(), Stop>
        requires { IsScript self.old }
        ensures keeps { OnOk result (IsScript self.new) }
        ensures fewer { OnOk result (most_left self.new + 1 ≤ most_left self.old) }
        ensures reported { (state : State) → MatchesState self.old.bench state →
            Answered result self.old state self.old.line.items self.new }
    {
        // Out of the script, because `answer` changes the rest of it. An empty `Vec` allocates nothing.
        let line = replace(&mut self.line, Vec::new(alloc));
        self.answer(alloc, &line)?;
        self.line = line;
        self.line.clear();
        Ok(())
    }

    // Appends a line's answer to the whole answers. If out of memory, no part of the answer is kept.
    fn answer(&mut self, alloc: Global, line: &[u8]) -> Result<(), Stop>
        requires good { IsScript self.old }
        requires none { self.old.line.items ≡ [] }
        ensures keeps { OnOk result (IsScript self.new) }
        ensures none { self.new.line.items ≡ [] }
        ensures fewer { OnOk result (most_left self.new + (length line.now + 1) ≤ most_left self.old) }
        ensures reported { (state : State) → MatchesState self.old.bench state →
            Answered result self.old state line.now self.new }
    {
        let whole = self.out.len();
        let reported = answer_line(
            alloc,
            self.number,
            &mut self.bench,
            &mut self.payload,
            line,
            &mut self.out,
        );
        match reported {
            Ok(()) => {
                self.number += 1;
                Ok(())
            }
            Err(Stop::Fault) => Err(Stop::Fault),
            Err(Stop::Memory) => {
                // Only whole answers may be written.
                self.out.truncate(whole);
                Err(Stop::Memory)
            }
        }
    }
}
