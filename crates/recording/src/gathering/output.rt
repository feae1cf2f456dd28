// The calls that tell of the last line: the one that was just ended, where a call said that one was.
ghost use Rattle.std.specs.Prelude.{◌≡◌};
ghost use Rattle.recording.specs.Meaning.{meaning};
ghost use Rattle.recording.specs.Reading.{said, Within};

use crate::gathering::Lines;
use crate::reading::{BadLine, Line, read_line};

impl Lines {
    // Its number, counted from 1.
    pub fn number(&self) -> u64
        ensures { result ≡ self.now.number }
    {
        self.number
    }

    // Reads it, as `read_line` does.
    pub fn line(&self) -> Result<Line<'_>, BadLine>
        ensures told { said result ≡ meaning self.now.text }
        ensures within { Within (said result) }
    {
        read_line(&self.text[..self.count])
    }
}
