// Object dictionaries: addresses, access, shapes and values, and the three calls on them.
#![tactic(auto)]

ghost use Rattle.std.specs.Prelude.{◌≡◌};
ghost use Rattle.dictionary.specs.Calls.{answer, look_answer, read_answer, memory_after_read, write_answer, after_write};
ghost use Rattle.dictionary.specs.Checks.{access_read_fault, access_write_fault, length_fault};
ghost use Rattle.dictionary.specs.Faults.{abort_code};
ghost use Rattle.dictionary.specs.Laws.{CallsInWords};
ghost use Rattle.dictionary.specs.Objects.{Objects, Sound};

// Where an object stands.
#[derive(Clone, Copy, PartialEq, Eq, Debug)]
pub struct Address {
    pub index: u16,
    pub subindex: u8,
}

// Read only, write only, or both.
#[derive(Clone, Copy, PartialEq, Eq, Debug)]
pub enum Access {
    Ro,
    Wo,
    Rw,
}

impl Access {
    pub fn readable(self) -> Result<(), Fault>
        ensures { result ≡ answer (access_read_fault self) tt }
    {
        match self {
            Access::Ro | Access::Rw => Ok(()),
            Access::Wo => Err(Fault::WriteOnly),
        }
    }

    pub fn writable(self) -> Result<(), Fault>
        ensures { result ≡ answer (access_write_fault self) tt }
    {
        match self {
            Access::Wo | Access::Rw => Ok(()),
            Access::Ro => Err(Fault::ReadOnly),
        }
    }
}

// What values an object takes.
#[derive(Clone, Copy, PartialEq, Eq, Debug)]
pub enum Shape {
    // A number of `width` bytes, low byte first, from `low` to `high`.
    Number {
        width: u8,
        signed: bool,
        low: i64,
        high: i64,
    },
    // A run of at most `capacity` bytes.
    Run {
        capacity: u32,
    },
}

impl Shape {
    // A number takes exactly its width, a run at most its capacity.
    pub fn takes_length(self, length: usize) -> Result<(), Fault>
        ensures { result ≡ answer (length_fault self length) tt }
    {
        match self {
            Shape::Number { width, .. } if length > width as usize => Err(Fault::TooLong),
            Shape::Number { width, .. } if length < width as usize => Err(Fault::TooShort),
            Shape::Run { capacity } if length > capacity as usize => Err(Fault::TooLong),
            _ => Ok(()),
        }
    }
}

// What a dictionary tells of an object without reading it.
#[derive(Clone, Copy, PartialEq, Eq, Debug)]
pub struct Look {
    pub access: Access,
    pub shape: Shape,
    // How many bytes its value has.
    pub length: usize,
}

// Why a call on an object is refused, with its abort code of CiA 301.
#[derive(Clone, Copy, PartialEq, Eq, Debug)]
pub enum Fault {
    NoIndex = 0x0602_0000,
    NoSubindex = 0x0609_0011,
    // A read of an object that can only be written.
    WriteOnly = 0x0601_0001,
    // A write of an object that can only be read.
    ReadOnly = 0x0601_0002,
    // A command for numbers, on a run of bytes.
    NotNumber = 0x0607_0010,
    TooLong = 0x0607_0012,
    TooShort = 0x0607_0013,
    OverHigh = 0x0609_0031,
    UnderLow = 0x0609_0032,
    // The memory of a read is shorter than the value.
    ShortMemory = 0x0504_0005,
}

impl Fault {
    // The abort code of CiA 301. No trait over the faults: each impl would be this line again.
    pub fn code(self) -> u32
        ensures { result ≡ abort_code self }
    {
        self as u32
    }
}

// Whatever holds objects. Each call's answer, and what it leaves, follow from what the dictionary means.
pub trait Dictionary {
    ghost meaning: { Self → Objects };

    // Shapes are allowed, values have a length that their shape allows, and a known index has an address.
    ghost sound: { (d : Self) → Sound (meaning d) };

    // Tells access, shape and value length.
    fn look(&self, at: Address) -> Result<Look, Fault>
        ensures { result ≡ look_answer (meaning self.now) at };

    // Copies the value to the front of the memory and tells its length.
    fn read(&self, at: Address, memory: &mut [u8]) -> Result<usize, Fault>
        ensures answer { result ≡ read_answer (meaning self.now) at memory.old }
        ensures memory { memory.new ≡ memory_after_read (meaning self.now) at memory.old };

    // Makes the value these bytes, at this address only.
    fn write(&mut self, at: Address, bytes: &[u8]) -> Result<(), Fault>
        ensures answer { result ≡ write_answer (meaning self.old) at bytes.now }
        ensures after { meaning self.new ≡ after_write (meaning self.old) at bytes.now };
}

// The three calls do what their words say: what is accepted, what a write leaves, what a refusal leaves.
#[tactic(auto, using(crate::proofs::Laws::calls_in_words_lem))]
pub fn calls_in_words()
    ensures { CallsInWords }
{}
