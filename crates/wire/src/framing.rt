// How a frame is written: DLE, STX, and the body with every DLE doubled.
ghost use Rattle.std.specs.Prelude.{◌≡◌, ℕ, ◌+◌, ◌≤◌, Bool, not, List, [], ◌∷◌, ◌++◌, length, take, Ok, true, false, MatchOption};
ghost use Rattle.wire.specs.Frames.{Bytes, Heard};
ghost use Rattle.wire.specs.Framing.{Rewrites, laid, misfit, body_of, laying, writing};
ghost use Rattle.wire.specs.Line.{Open, framed, stuff};

use crate::crc::frame_checksum;
use crate::faults::Refusal;

pub(crate) const DLE: u8 = 0x90;

pub(crate) const STX: u8 = 0x02;

const LONGEST_DATA: usize = 510;

const LONGEST_FRAME: usize = 1030;

// Whether a body can hold the data: whole words, and at most 255 of them.
fn fits_body(data: &[u8]) -> bool
    ensures { result ≡ not (misfit «data».now) }
{
    data.len() % 2 == 0 && data.len() <= LONGEST_DATA
}

// How many bytes these are on the cable.
#[tactic(auto, using(crate::proofs::Laying::stuffed_count))]
fn stuffed_len(bytes: &[u8]) -> usize
    requires { length bytes.now ≤ 510 }
    ensures { result ≡ length (stuff bytes.now) }
{
    bytes.len() + bytes.iter().filter(|b| **b == DLE).count()
}

// Writes a byte at a place of the memory, a DLE twice; the place after it. Of a struct of memory and place each call would have to say that
// it is still the same borrow.
#[tactic(auto, using(crate::proofs::Laying::put_one, crate::proofs::Laying::put_two))]
fn put(byte: u8, at: usize, memory: &mut [u8]) -> usize
    requires { at + length (stuff (byte ∷ [])) ≤ length memory.old }
    ensures after { result ≡ at + length (stuff (byte ∷ [])) }
    ensures laid { memory.new ≡ laid (take at memory.old ++ stuff (byte ∷ [])) memory.old }
{
    memory[at] = byte;
    if byte != DLE {
        return at + 1;
    }
    memory[at + 1] = DLE;
    at + 2
}

// The same for each of the bytes.
#[tactic(auto, using(crate::proofs::Laying::same_front))]
fn put_all(bytes: &[u8], start: usize, memory: &mut [u8]) -> usize
    requires { start + length (stuff bytes.now) ≤ length memory.old }
    ensures after { result ≡ start + length (stuff bytes.now) }
    ensures laid { memory.new ≡ laid (take start memory.old ++ stuff bytes.now) memory.old }
{
    // The place is no index that is counted: each byte tells where the next one goes.
    let mut at = start;
    for b in bytes {
        at = put(*b, at, memory);
    }
    at
}

// A body to be laid: OpCode and Len, the data, and the checksum.
#[derive(Drop)]
struct Layout<'a> {
    head: [u8; 2],
    data: &'a [u8],
    tail: [u8; 2],
    ghost few: { length «data».now ≤ 510 },
}

impl<'a> Layout<'a> {
    // There is one where a body can hold the data.
    fn new(opcode: u8, data: &'a [u8]) -> Option<Layout<'a>>
        ensures { MatchOption result (misfit «data».now ≡ true) (λ l. (misfit «data».now ≡ false) × ((l.head ++ l.«data».now) ++ l.tail ≡ body_of opcode «data».now)) }
    {
        if !fits_body(data) {
            return None;
        }
        let words = (data.len() / 2) as u8;
        Some(Layout {
            head: [opcode, words],
            data,
            tail: frame_checksum(opcode, words, data).to_le_bytes(),
        })
    }

    // How many bytes its frame has.
    #[tactic(auto, using(crate::proofs::Laying::stuff_length, crate::proofs::Parts::parts_length))]
    fn framed_len(&self) -> usize
        ensures { result ≡ length (framed ((self.now.head ++ self.now.«data».now) ++ self.now.tail)) }
    {
        2 + stuffed_len(&self.head) + stuffed_len(self.data) + stuffed_len(&self.tail)
    }

    // Writes its frame to the front of the memory; how many bytes they are.
    #[tactic(auto, using(crate::proofs::Parts::parts_length, crate::proofs::Parts::frame_laid, crate::proofs::Parts::frame_length))]
    fn put(&self, memory: &mut [u8]) -> usize
        requires { length (framed ((self.now.head ++ self.now.«data».now) ++ self.now.tail)) ≤ length memory.old }
        ensures length { result ≡ length (framed ((self.now.head ++ self.now.«data».now) ++ self.now.tail)) }
        ensures laid { memory.new ≡ laid (framed ((self.now.head ++ self.now.«data».now) ++ self.now.tail)) memory.old }
    {
        memory[0] = DLE;
        memory[1] = STX;
        let at = put_all(&self.head, 2, memory);
        let at = put_all(self.data, at, memory);
        put_all(&self.tail, at, memory)
    }
}

// Writes a frame to the front of a memory in which it fits; its length.
pub fn lay(opcode: u8, data: &[u8], memory: &mut [u8]) -> Result<usize, Refusal>
    ensures result { result ≡ (laying opcode «data».now memory.old).result }
    ensures memory { memory.new ≡ (laying opcode «data».now memory.old).memory }
{
    let layout = Layout::new(opcode, data).ok_or(Refusal::DataLength)?;
    if memory.len() < layout.framed_len() {
        return Err(Refusal::WriteMemory);
    }
    Ok(layout.put(memory))
}

// Writes a frame to the front of a memory that has room for the longest; its length.
pub fn write(opcode: u8, data: &[u8], memory: &mut [u8]) -> Result<usize, Refusal>
    ensures result { result ≡ (writing opcode «data».now memory.old).result }
    ensures memory { memory.new ≡ (writing opcode «data».now memory.old).memory }
    ensures carried { (stretch : List ℕ) → Bytes stretch → Heard stretch opcode «data».now → 1030 ≤ length memory.old → Rewrites stretch result memory.new }
    ensures reads_back { (stretch : List ℕ) (n : ℕ) → (Open stretch → ⊥) → result ≡ Ok n → Heard (stretch ++ take n memory.new) opcode «data».now }
{
    if fits_body(data) && memory.len() < LONGEST_FRAME {
        return Err(Refusal::WriteMemory);
    }
    lay(opcode, data, memory)
}
