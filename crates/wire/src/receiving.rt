// The receiver: it finds marks and gathers the text after them, byte by byte.
ghost use Rattle.std.specs.Prelude.{◌≡◌, ℕ, ◌+◌, ◌*◌, ◌<◌, ◌≤◌, List, [], ◌∷◌, ◌++◌, length, take, slice_index, Ok};
ghost use Rattle.wire.specs.Holding.{Holds, Tells};
ghost use Rattle.wire.specs.Receiving.{step, gathering, Took, outcome, received};

use crate::faults::Refusal;
use crate::framing::{DLE, STX};

// The bytes of a body with 255 words of data.
pub const LONGEST_BODY: usize = 514;

#[derive(Clone, Copy, Debug, PartialEq, Eq)]
pub enum Phase {
    // No text is gathered.
    Hunting,
    // The bytes are text.
    PastMark,
    // The stretch ends in an odd run of DLEs, inside a text or not.
    OpenDle { in_text: bool },
}

// Its text stands at the front of a memory that each call brings, since the device has no heap.
#[derive(Debug, Drop, PartialEq, Eq)]
pub struct Receiver {
    phase: Phase,
    gathered: usize,
    ghost few: { gathered < 514 },
}

impl Receiver {
    pub fn new() -> Receiver
        ensures phase { result.phase ≡ Phase.Hunting }
        ensures gathered { result.gathered ≡ 0 }
    {
        Receiver {
            phase: Phase::Hunting,
            gathered: 0,
        }
    }

    // The stretch ends here.
    pub fn silence(&mut self)
        ensures phase { self.new.phase ≡ Phase.Hunting }
        ensures gathered { self.new.gathered ≡ 0 }
    {
        self.phase = Phase::Hunting;
        self.gathered = 0;
    }

    // Takes one byte of the cable; the length of the body where the byte completes one, which then
    // stands at the front of the memory.
    pub fn take(&mut self, byte: u8, memory: &mut [u8]) -> Result<Option<usize>, Refusal>
        ensures outcome { outcome result self.new.phase self.new.gathered memory.new ≡ received self.old.phase self.old.gathered memory.old byte }
        ensures heard { (stretch : List ℕ) → 514 ≤ length memory.old → Holds stretch self.old.phase (take self.old.gathered memory.old) → Holds (stretch ++ byte ∷ []) self.new.phase (take self.new.gathered memory.new) × Tells (stretch ++ byte ∷ []) result memory.new }
    {
        let Some(memory) = memory.first_chunk_mut::<LONGEST_BODY>() else {
            return Err(Refusal::FrameMemory);
        };
        Ok(self.advance(byte, memory))
    }

    // The same in a memory of the longest body's length, where no byte is refused.
    pub fn advance(&mut self, byte: u8, memory: &mut [u8; LONGEST_BODY]) -> Option<usize>
        ensures took { Took (step self.old.phase (take self.old.gathered memory.old) byte) result self.new.phase self.new.gathered memory.old memory.new }
        ensures heard { (stretch : List ℕ) → Holds stretch self.old.phase (take self.old.gathered memory.old) → Holds (stretch ++ byte ∷ []) self.new.phase (take self.new.gathered memory.new) × Tells (stretch ++ byte ∷ []) (Ok result) memory.new }
    {
        self.step(byte, memory)
    }

    // What a byte means, by the phase.
    #[tactic(auto, using(crate::proofs::Laying::same_front))]
    fn step(&mut self, byte: u8, memory: &mut [u8; LONGEST_BODY]) -> Option<usize>
        ensures { Took (step self.old.phase (take self.old.gathered memory.old) byte) result self.new.phase self.new.gathered memory.old memory.new }
    {
        match (self.phase, byte) {
            (Phase::Hunting, DLE) => self.phase = Phase::OpenDle { in_text: false },
            (Phase::Hunting, _) => {}
            (Phase::PastMark, DLE) => self.phase = Phase::OpenDle { in_text: true },
            (Phase::PastMark, _) => return self.gather(byte, memory),
            // A guard, since a `true` in a variant's pattern gets no proof.
            (Phase::OpenDle { in_text }, DLE) if in_text => return self.gather(byte, memory),
            (Phase::OpenDle { .. }, STX) => {
                self.phase = Phase::PastMark;
                self.gathered = 0;
            }
            (Phase::OpenDle { .. }, _) => self.silence(),
        }
        None
    }

    // One byte more of the text; the length of the body where it completes one.
    fn gather(&mut self, byte: u8, memory: &mut [u8; LONGEST_BODY]) -> Option<usize>
        ensures { Took (gathering (take self.old.gathered memory.old ++ byte ∷ [])) result self.new.phase self.new.gathered memory.old memory.new }
    {
        memory[self.gathered] = byte;
        let gathered = self.gathered + 1;
        if gathered < body_len(memory) {
            self.phase = Phase::PastMark;
            self.gathered = gathered;
            return None;
        }
        self.silence();
        Some(gathered)
    }
}

// How many bytes the body has that stands in the memory: 4, and two for each word that its second byte counts.
fn body_len(memory: &[u8; LONGEST_BODY]) -> usize
    ensures { result ≡ 4 + 2 * slice_index memory.now 1 }
{
    4 + 2 * memory[1] as usize
}
