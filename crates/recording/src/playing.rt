// A recording is read from its start to its end, and each of its lines is told to a listener.
ghost use Rattle.std.specs.Prelude.{◌≡◌, ℕ, true, OnOk, IfOk};
ghost use Rattle.std.specs.IoError.{error_kind};
ghost use Rattle.std.specs.declared.io.ErrorKind.TheVariants.{OutOfMemory};
ghost use Rattle.recording.specs.Meaning.{Meaning};
ghost use Rattle.recording.specs.Reading.{said};
ghost use Rattle.recording.specs.Playing.{told_last, all_taken, ending_lines, Hears, Played};

use crate::gathering::Lines;
use crate::reading::{BadLine, Line};
use std::alloc::AllocError;
use std::io;
use std::io::Read;

// How much of the input is read at a time.
const CHUNK: usize = 65536;

// Who is told the lines of a recording.
pub trait Listener {
    // What a line of this number that says this does to it.
    ghost hears: { Self → ℕ → Meaning → Self → Type 0 };

    // What a pause does to it.
    ghost pauses: { Self → Self → Type 0 };

    // Takes a line that ended.
    fn line(&mut self, number: u64, line: Result<Line<'_>, BadLine>) -> io::Result<()>
        ensures { OnOk result (hears self.old number (said line.entry) self.new) };

    // Is told that the next line may come late.
    fn pause(&mut self) -> io::Result<()>
        ensures { OnOk result (pauses self.old self.new) };
}

// Want of memory, as a listener tells it: in the words of an `AllocError`, which an error that `?` makes of one doesn't have.
pub fn no_memory(_error: AllocError) -> io::Error
    ensures { error_kind result ≡ OutOfMemory }
{
    io::Error::new(io::ErrorKind::OutOfMemory, "memory allocation failed")
}

impl Lines {
    // Tells the line that ended last.
    #[inline(always)]
    fn tell<L: Listener>(&self, number: u64, listener: &mut L) -> io::Result<()>
        requires { number ≡ self.now.number }
        ensures { OnOk result (Hears L.hears L.pauses (told_last true self.now) listener.old listener.new) }
    {
        listener.line(number, self.line())
    }

    // Takes a part of the input, and tells the lines that end in it.
    fn take_all<L: Listener>(&mut self, chunk: &[u8], listener: &mut L) -> io::Result<()>
        ensures { OnOk result ((self.new ≡ all_taken chunk.now self.old) × Hears L.hears L.pauses (ending_lines chunk.now self.old) listener.old listener.new) }
    {
        for b in chunk {
            // What a listener answers is large, so most bytes, which end no line, pass it by.
            if let Some(number) = self.take(*b) {
                self.tell(number, listener)?;
            }
        }
        Ok(())
    }

    // The input ends here: tells the line that this ends, if one does; how many lines there were.
    fn end<L: Listener>(&mut self, listener: &mut L) -> io::Result<u64>
        ensures { IfOk result (λ count. (count ≡ self.old.number) × Hears L.hears L.pauses (told_last self.old.begun self.old) listener.old listener.new) }
    {
        if let Some(number) = self.finish() {
            self.tell(number, listener)?;
        }
        Ok(self.number())
    }
}

// Reads an input to its end, and tells each of its lines; how many there were.
pub fn play<R: Read, L: Listener>(input: &mut R, listener: &mut L) -> io::Result<u64>
    ensures { IfOk result (λ count. Played L.hears L.pauses (R.remaining input.old) count listener.old listener.new) }
{
    let mut chunk = [0; CHUNK];
    let mut lines = Lines::new();
    // Bounded, since a reader of unknown bytes may never end.
    for _reads in 0..u64::MAX {
        let count = input.read(&mut chunk)?;
        if count == 0 {
            return lines.end(listener);
        }
        lines.take_all(&chunk[..count], listener)?;
        listener.pause()?;
    }
    lines.end(listener)
}
