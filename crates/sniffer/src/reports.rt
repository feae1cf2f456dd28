// The lines that are printed, and what is counted.
ghost use Rattle.std.specs.Prelude.{◌≡◌, [], ◌++◌, is_ok, IfOk, if◌then◌else◌, string_bytes};
ghost use Rattle.sniffer.specs.Reporting.{unreported, with_line, counted, bad_counted, passed_line_lem, bad_line_lem, total_line_lem};

use crate::passing::Passed;
use recording::Digits;
use std::alloc::{AllocError, Global};
use std::io;
use std::marker::Model;

// How many bodies and bad lines there were; each count stops at the greatest number.
#[derive(Clone, Copy, Default)]
pub struct Tally {
    heard: u64,
    damaged: u64,
    bad: u64,
}

impl Tally {
    // One more of what passed.
    fn count(self, passed: Passed) -> Tally
        ensures { result ≡ counted passed self }
    {
        match passed {
            Passed::Heard => Tally {
                heard: self.heard.saturating_add(1),
                ..self
            },
            Passed::Damaged => Tally {
                damaged: self.damaged.saturating_add(1),
                ..self
            },
        }
    }

    // One more bad line.
    fn count_bad(self) -> Tally
        ensures { result ≡ bad_counted self }
    {
        Tally {
            bad: self.bad.saturating_add(1),
            ..self
        }
    }
}

// The text that is still to be printed, and the counts so far. A call that finds no memory changes neither.
#[derive(Drop)]
pub struct Report {
    heap: Global,
    text: String,
    tally: Tally,
}

// Contracts see the text and the counts.
impl Model for Report {
    ghost use Rattle.std.specs.Prelude.{string_bytes};
    ghost use Rattle.sniffer.specs.Reporting.{Reported};

    ghost Value = { Reported };

    ghost view = { λ r. record { text = string_bytes r.text; tally = r.tally } };
}

impl Report {
    pub fn new(heap: Global) -> Report
        ensures { result ≡ unreported }
    {
        Report {
            heap,
            text: String::new(heap),
            tally: Tally::default(),
        }
    }

    // Adds a line for a body that passed.
    pub fn body(&mut self, passed: Passed, body: &[u8]) -> Result<(), AllocError>
        ensures { self.new ≡ (if is_ok result then with_line (passed_line_lem passed body.now) (counted passed self.old.tally) self.old else self.old) }
    {
        let line = body_line(self.heap, passed, body)?;
        self.add(line.as_str(), self.tally.count(passed))
    }

    // Adds a line for a bad line of the recording.
    pub fn bad_line(&mut self, number: u64) -> Result<(), AllocError>
        ensures { self.new ≡ (if is_ok result then with_line (bad_line_lem number) (bad_counted self.old.tally) self.old else self.old) }
    {
        let line = format!(in self.heap; "?{number}\n")?;
        self.add(line.as_str(), self.tally.count_bad())
    }

    // Adds the last line: what was counted.
    pub fn total(&mut self, lines: u64) -> Result<(), AllocError>
        ensures { self.new ≡ (if is_ok result then with_line (total_line_lem self.old.tally lines) self.old.tally self.old else self.old) }
    {
        let line = total_line(self.heap, self.tally, lines)?;
        self.text.push_str(line.as_str())
    }

    // Prints the text, which is then empty.
    pub fn print(&mut self, rt: &impl Print) -> io::Result<()>
        ensures { self.new ≡ (if is_ok result then record { text = []; tally = self.old.tally } else self.old) }
    {
        rt.print(self.text.as_str())?;
        self.text.clear();
        Ok(())
    }

    // Adds a line, and takes over the counts with it.
    fn add(&mut self, line: &str, tally: Tally) -> Result<(), AllocError>
        ensures { self.new ≡ (if is_ok result then with_line line.now tally self.old else self.old) }
    {
        self.text.push_str(line)?;
        self.tally = tally;
        Ok(())
    }
}

// The line of a body: how it passed, its OpCode, its Len, and its data up to the checksum.
#[tactic(auto, using(crate::proofs::Appending::body_printed, recording::proofs::Spelled::shown))]
fn body_line(heap: Global, passed: Passed, body: &[u8]) -> Result<String, AllocError>
    ensures { IfOk result (λ line. string_bytes line ≡ passed_line_lem passed body.now) }
{
    let [opcode, words, data @ .., _, _] = body else {
        return Ok(String::new(heap));
    };
    let data = Digits(data);
    format!(in heap; "{passed} opcode={opcode:02X} len={words:02X} data={data}\n")
}

// The line of the counts.
fn total_line(heap: Global, tally: Tally, lines: u64) -> Result<String, AllocError>
    ensures { IfOk result (λ line. string_bytes line ≡ total_line_lem tally lines) }
{
    let Tally {
        heard,
        damaged,
        bad,
    } = tally;
    format!(in heap; "total heard={heard} damaged={damaged} lines={lines} bad={bad}\n")
}
