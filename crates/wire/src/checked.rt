// A body as it was gathered, and the frame that it is if its checksum fits.
ghost use Rattle.std.specs.Prelude.{◌≡◌, ℕ, ◌≤◌, List, length, MatchOption};
ghost use Rattle.wire.specs.Checking.{Checks, OfNoFrame, Split};
ghost use Rattle.wire.specs.Frames.{Bytes, Heard};
ghost use Rattle.wire.specs.Framing.{Rewrites, writing};

use crate::crc::checksum;
use crate::faults::{Fault, Refusal};
use crate::framing::write;

// A body whose checksum is not tested: nothing can be read from it.
#[derive(Drop)]
pub struct Body<'a> {
    bytes: &'a [u8],
}

// A frame whose checksum fits. Only `Body::check` makes one, and it is neither `Copy` nor `Clone`.
#[derive(Debug, Drop, PartialEq, Eq)]
pub struct Frame<'a> {
    opcode: u8,
    data: &'a [u8],
}

impl<'a> Body<'a> {
    // The bytes of a body, as a receiver gathered them.
    pub fn new(bytes: &'a [u8]) -> Body<'a>
        ensures { result.bytes.now ≡ bytes.now }
    {
        Body { bytes }
    }

    // The frame that the body is; bytes of the wrong length fit no checksum either.
    pub fn check(self) -> Result<Frame<'a>, Fault>
        ensures { Checks self.entry.bytes.now result }
    {
        let Some(parts) = split(self.bytes) else {
            return Err(Fault::Checksum);
        };
        if checksum(parts.summed) != parts.sum {
            return Err(Fault::Checksum);
        }
        Ok(Frame {
            opcode: parts.opcode,
            data: parts.data,
        })
    }
}

// What stands in the bytes of a body: those that its checksum is taken of, and the checksum.
#[derive(Drop)]
struct Parts<'a> {
    opcode: u8,
    data: &'a [u8],
    summed: &'a [u8],
    sum: u16,
}

// The parts of a body that has as many data as its second byte asks for.
fn split(bytes: &[u8]) -> Option<Parts<'_>>
    ensures { MatchOption result (OfNoFrame bytes.now) (λ p. Split bytes.now p.opcode p.«data».now p.summed.now p.sum) }
{
    let (summed, sum) = bytes.split_last_chunk::<2>()?;
    let ([opcode, words], data) = summed.split_first_chunk::<2>()?;
    if data.len() != 2 * *words as usize {
        return None;
    }
    Some(Parts {
        opcode: *opcode,
        data,
        summed,
        sum: u16::from_le_bytes(*sum),
    })
}

impl<'a> Frame<'a> {
    pub fn opcode(&self) -> u8
        ensures { result ≡ self.now.opcode }
    {
        self.opcode
    }

    pub fn data(&self) -> &'a [u8]
        ensures { result.now ≡ self.now.«data».now }
    {
        self.data
    }

    // Writes the frame: of one that was heard, the very bytes that carried it.
    pub fn write(&self, memory: &mut [u8]) -> Result<usize, Refusal>
        ensures result { result ≡ (writing self.now.opcode self.now.«data».now memory.old).result }
        ensures memory { memory.new ≡ (writing self.now.opcode self.now.«data».now memory.old).memory }
        ensures carried { (stretch : List ℕ) → Bytes stretch → Heard stretch self.now.opcode self.now.«data».now → 1030 ≤ length memory.old → Rewrites stretch result memory.new }
    {
        write(self.opcode, self.data, memory)
    }
}
