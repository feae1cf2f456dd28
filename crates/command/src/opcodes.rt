// The OpCodes of the six commands.
ghost use Rattle.std.specs.Prelude.{◌≡◌};
ghost use Rattle.command.specs.Frames.{verb_of, len_fits, of_chain};
ghost use Rattle.command.specs.OpCodes.{opcode_of, named};

use crate::faults::CommandFault;

#[derive(Clone, Copy, Debug, PartialEq, Eq)]
pub enum OpCode {
    ReadObject,
    InitiateSegmentedRead,
    WriteObject,
    InitiateSegmentedWrite,
    SegmentRead,
    SegmentWrite,
}

// The most words of a SegmentWrite.
const LONGEST_SEGMENT: usize = 129;

impl OpCode {
    // Whether its frames may have so many words of data.
    pub(crate) fn fits(self, words: usize) -> bool
        ensures { result ≡ len_fits (named self) words }
    {
        match self {
            OpCode::ReadObject | OpCode::InitiateSegmentedRead => words == 2,
            OpCode::WriteObject | OpCode::InitiateSegmentedWrite => words == 4,
            OpCode::SegmentRead => words == 1,
            OpCode::SegmentWrite => (1..=LONGEST_SEGMENT).contains(&words),
        }
    }

    // Whether its frames begin, continue or end a chain.
    pub fn of_chain(self) -> bool
        ensures { result ≡ of_chain (named self) }
    {
        !matches!(self, OpCode::ReadObject | OpCode::WriteObject)
    }
}

// Any other byte names no command.
impl TryFrom<u8> for OpCode {
    type Error = CommandFault;

    ghost try_from_gives = { λ byte r. r ≡ opcode_of (verb_of byte) };

    fn try_from(byte: u8) -> Result<OpCode, CommandFault> {
        match byte {
            0x60 => Ok(OpCode::ReadObject),
            0x81 => Ok(OpCode::InitiateSegmentedRead),
            0x68 => Ok(OpCode::WriteObject),
            0x69 => Ok(OpCode::InitiateSegmentedWrite),
            0x62 => Ok(OpCode::SegmentRead),
            0x6a => Ok(OpCode::SegmentWrite),
            _ => Err(CommandFault::OpCode),
        }
    }
}
