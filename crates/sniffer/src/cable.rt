// What passes on a cable is heard, and reported.
ghost use Rattle.std.specs.Prelude.{◌≡◌, ℕ, List, [], ◌∷◌, ◌++◌, is_ok, if◌then◌else◌, Ok, OnOk};
ghost use Rattle.recording.specs.Reading.{left, said};
ghost use Rattle.sniffer.specs.Adding.{Adds, AddsEach, ByResult};
ghost use Rattle.sniffer.specs.Reporting.{unreported, with_line, total_line_lem};
ghost use Rattle.sniffer.specs.Sniffing.{Took, Sniffs, Prints};

use crate::passing::judge;
use crate::reports::Report;
use recording::{BadLine, Line, Listener, Pairs, no_memory};
use std::alloc::AllocError;
use std::io;
use wire::{LONGEST_BODY, Receiver};

// A receiver with the memory in which it gathers bodies, and what it reports of them.
#[derive(Drop)]
pub struct Sniffer<'a> {
    rt: &'a HostRuntime,
    receiver: Receiver,
    memory: [u8; LONGEST_BODY],
    report: Report,
}

impl<'a> Sniffer<'a> {
    // No byte is taken yet.
    pub fn new(rt: &'a HostRuntime) -> Sniffer<'a>
        ensures empty { Took [] result }
        ensures report { result.report ≡ unreported }
    {
        Sniffer {
            rt,
            receiver: Receiver::new(),
            memory: [0; LONGEST_BODY],
            report: Report::new(rt.alloc()),
        }
    }

    // Takes one byte of the cable.
    #[tactic(auto, using(crate::proofs::Adding::adds_nothing))]
    fn take(&mut self, byte: u8) -> Result<(), AllocError>
        ensures { (stretch : List ℕ) → Took stretch self.old → Took (stretch ++ byte ∷ []) self.new × ByResult result (Adds (stretch ++ byte ∷ []) self.old.report self.new.report) (self.new.report ≡ self.old.report) }
    {
        let Some(count) = self.receiver.advance(byte, &mut self.memory) else {
            return Ok(());
        };
        let body = &self.memory[..count];
        self.report.body(judge(body), body)
    }

    // Takes one byte after another. The bench has this loop over its own call: a generic one would be a trait for two lines.
    fn take_all(&mut self, bytes: Pairs<'_>) -> Result<(), AllocError>
        ensures { (stretch : List ℕ) → Took stretch self.old → OnOk result (Took (stretch ++ left bytes.entry) self.new × AddsEach stretch (left bytes.entry) self.old.report self.new.report) }
    {
        for byte in bytes {
            self.take(byte)?;
        }
        Ok(())
    }

    // Takes what a good line of the recording says. Out of line, so that the loop over lines holds only its small result.
    #[inline(never)]
    fn hear(&mut self, line: Line<'_>) -> Result<(), AllocError>
        ensures { (number : ℕ) → OnOk result (Sniffs self.old number (said (Ok line.entry)) self.new) }
    {
        match line {
            Line::Bytes(bytes) => self.take_all(bytes)?,
            Line::Silence => self.receiver.silence(),
            Line::Nothing => {}
        }
        Ok(())
    }

    // The recording ends here: adds the line of the counts.
    pub fn end(&mut self, lines: u64) -> Result<(), AllocError>
        ensures { self.new.report ≡ (if is_ok result then with_line (total_line_lem self.old.report.tally lines) self.old.report.tally self.old.report else self.old.report) }
    {
        self.report.total(lines)
    }
}

impl Listener for Sniffer<'_> {
    ghost hears = { Sniffs };

    ghost pauses = { Prints };

    // In line, so that the large error is made only where one is told.
    #[inline(always)]
    fn line(&mut self, number: u64, line: Result<Line<'_>, BadLine>) -> io::Result<()> {
        let heard = match line {
            Ok(line) => self.hear(line),
            Err(BadLine) => self.report.bad_line(number),
        };
        heard.map_err(|error| no_memory(error))
    }

    fn pause(&mut self) -> io::Result<()> {
        self.report.print(self.rt)
    }
}
