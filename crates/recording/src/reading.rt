// What one line of a recording says.
ghost use Rattle.std.specs.Prelude.{◌≡◌, Some, codes};
ghost use Rattle.recording.specs.Meaning.{spelling, meaning};
ghost use Rattle.recording.specs.Reading.{said, Within};

use crate::pairs::Pairs;
use std::error::Error;
use std::fmt;

// A line without its line feed.
#[derive(Clone, Copy, Debug, PartialEq, Eq)]
pub enum Line<'a> {
    // Digit pairs: their bytes.
    Bytes(Pairs<'a>),
    // The letter S alone.
    Silence,
    // The empty line.
    Nothing,
}

// A line of no other kind.
#[derive(Clone, Copy, Debug, PartialEq, Eq)]
pub struct BadLine;

impl fmt::Display for BadLine {
    ghost output = { λ _. Some (codes "neither digit pairs, nor S alone, nor empty") };

    fn fmt<W: fmt::Write>(&self, f: &mut fmt::Formatter<W>) -> fmt::Result {
        write!(f, "neither digit pairs, nor S alone, nor empty")
    }
}

impl Error for BadLine {}

// Reads a line that is neither empty nor S alone.
fn read_pairs(text: &[u8]) -> Result<Line<'_>, BadLine>
    ensures { said result ≡ spelling text.now }
{
    Pairs::new(text).map(Line::Bytes).ok_or(BadLine)
}

// Reads a line, without its line feed.
#[tactic(auto, using(crate::proofs::Couples::within))]
pub fn read_line(line: &[u8]) -> Result<Line<'_>, BadLine>
    ensures told { said result ≡ meaning line.now }
    ensures within { Within (said result) }
{
    match line {
        [] => Ok(Line::Nothing),
        [b'S'] => Ok(Line::Silence),
        text => read_pairs(text),
    }
}
