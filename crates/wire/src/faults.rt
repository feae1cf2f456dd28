// Why a call is refused, and what may be wrong with a body.
ghost use Rattle.std.specs.Prelude.{◌≡◌};
ghost use Rattle.wire.specs.Numbers.{refusal_number, fault_code};

// A call that is refused changes nothing.
#[derive(Clone, Copy, Debug, PartialEq, Eq)]
pub enum Refusal {
    // The frame memory is shorter than the longest body.
    FrameMemory = 2,
    // The memory to write to is too short.
    WriteMemory = 4,
    // The data are no whole words, or too many.
    DataLength = 6,
}

impl Refusal {
    // Its number. No trait over the refusals: each impl would be this line again.
    pub fn number(self) -> u8
        ensures { result ≡ refusal_number self }
    {
        self as u8
    }
}

#[derive(Clone, Copy, Debug, PartialEq, Eq)]
pub enum Fault {
    // The checksum does not fit the body.
    Checksum = 0x0504_0004,
}

impl Fault {
    // The abort code of CiA 301 that an answer carries. No trait over the faults: each impl would be this line again.
    pub fn code(self) -> u32
        ensures { result ≡ fault_code self }
    {
        self as u32
    }
}
