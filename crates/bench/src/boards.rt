// A port over a dictionary, which listens to a recording.
ghost use Rattle.std.specs.Prelude.{◌≡◌, ℕ, [], string_bytes, Ok, OnOk};
ghost use Rattle.recording.specs.Reading.{left, said};
ghost use Rattle.bench.specs.Boards.{state, Serves, Prints};
ghost use Rattle.bench.specs.Serving.{taken, all_taken};

use dictionary::Dictionary;
use port::{LONGEST_ANSWER, LONGEST_BODY, LONGEST_VALUE, Port};
use recording::{BadLine, Digits, Line, Listener, Pairs, no_memory};
use std::alloc::AllocError;
use std::io;

// The port with its dictionary, the memories of its calls, and the text of its answers.
#[derive(Drop)]
pub struct Board<'a, D> {
    rt: &'a HostRuntime,
    port: Port,
    dict: D,
    frame: [u8; LONGEST_BODY],
    staging: [u8; LONGEST_VALUE],
    answer: [u8; LONGEST_ANSWER],
    text: String,
}

impl<'a, D: Dictionary> Board<'a, D> {
    // No byte is taken yet.
    pub fn new(rt: &'a HostRuntime, port: Port, dict: D) -> Board<'a, D>
        ensures port { result.port ≡ port }
        ensures dict { result.dict ≡ dict }
        ensures text { string_bytes result.text ≡ [] }
    {
        Board {
            rt,
            port,
            dict,
            frame: [0; LONGEST_BODY],
            staging: [0; LONGEST_VALUE],
            answer: [0; LONGEST_ANSWER],
            text: String::new(rt.alloc()),
        }
    }

    // Gives a byte to the port, and appends the line of what it answers.
    fn take(&mut self, byte: u8) -> Result<(), AllocError>
        ensures { OnOk result (state D.Dictionary.meaning self.new ≡ taken (state D.Dictionary.meaning self.old) byte) }
    {
        let called = self.port.byte(
            &mut self.dict,
            byte,
            &mut self.frame,
            &mut self.staging,
            &mut self.answer,
        );
        match called {
            Ok(Some(reply)) => {
                let length = reply.length.min(LONGEST_ANSWER);
                writeln!(self.text, "{}", Digits(&self.answer[..length]))
            }
            // No call is refused: the memories have the lengths that are asked for.
            _ => Ok(()),
        }
    }

    // Gives one byte after another. The sniffer has this loop over its own call: a generic one would be a trait for two lines.
    fn take_all(&mut self, bytes: Pairs<'_>) -> Result<(), AllocError>
        ensures { OnOk result (state D.Dictionary.meaning self.new ≡ all_taken (state D.Dictionary.meaning self.old) (left bytes.entry)) }
    {
        for byte in bytes {
            self.take(byte)?;
        }
        Ok(())
    }

    // Does what a good line of a recording says. Out of line, so that the loop over lines holds only its small result.
    #[inline(never)]
    fn serve(&mut self, line: Line<'_>) -> Result<(), AllocError>
        ensures { (number : ℕ) → OnOk result (Serves D.Dictionary.meaning self.old number (said (Ok line.entry)) self.new) }
    {
        match line {
            Line::Bytes(bytes) => self.take_all(bytes)?,
            Line::Silence => self.port.silence(),
            Line::Nothing => {}
        }
        Ok(())
    }
}

impl<D: Dictionary> Listener for Board<'_, D> {
    ghost hears = { Serves D.Dictionary.meaning };

    ghost pauses = { Prints D.Dictionary.meaning };

    // In line, so that the large error is made only where one is told.
    #[inline(always)]
    fn line(&mut self, number: u64, line: Result<Line<'_>, BadLine>) -> io::Result<()> {
        // A bad line is printed by its number and gives no byte.
        let served = match line {
            Ok(line) => self.serve(line),
            Err(BadLine) => writeln!(self.text, "?{number}"),
        };
        served.map_err(|error| no_memory(error))
    }

    fn pause(&mut self) -> io::Result<()> {
        self.rt.print(self.text.as_str())?;
        self.text.clear();
        Ok(())
    }
}
