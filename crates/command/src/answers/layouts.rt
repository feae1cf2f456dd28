// How answers are laid out: the code first, then what the command brings back, padded to whole words.
ghost use Rattle.std.specs.Prelude.{◌≡◌, ◌+◌, ◌%◌, ◌≤◌, min, [], ◌++◌, length, take, drop, Ok};
ghost use Rattle.command.specs.Answers.{value_answer, bit, refused_data, accepted_data, first_segment_back, segment_back, taken_back, most};
ghost use Rattle.dictionary.specs.Calls.{read_answer, memory_after_read};
ghost use Rattle.wire.specs.Framing.{body_of, laid, laying};
ghost use Rattle.wire.specs.Line.{framed};

use crate::answers::{Answer, LONGEST_ANSWER, LONGEST_PART, MOST_DATA};
use crate::faults::Fault;
use dictionary::{Address, Dictionary};
use wire::Refusal;

// An answer's OpCode.
const ANSWER: u8 = 0x00;

impl Answer {
    // A frame was turned away.
    #[tactic(auto, unfolding(crate::specs::Answers::four))]
    pub fn refusal(fault: Fault) -> Answer
        ensures { result ≡ refused_data fault }
    {
        let mut bytes = [0; MOST_DATA];
        bytes[..4].copy_from_slice(&fault.code().to_le_bytes());
        Answer { bytes, len: 4 }
    }

    // A command was carried out that brings nothing back.
    pub fn accepted() -> Answer
        ensures { result ≡ accepted_data [] }
    {
        bringing(&[], &[])
    }

    // A segment of a write chain was taken.
    #[tactic(auto, unfolding(crate::specs::Answers::four))]
    pub fn segment_taken(n: u8, toggle: bool) -> Answer
        ensures { result ≡ accepted_data (taken_back n (bit toggle)) }
    {
        bringing(&[n, u8::from(toggle)], &[])
    }

    // The segment of a read chain that begins where `sent` bytes of the value were sent. Bit 1 of control marks the last one.
    #[tactic(auto, using(crate::proofs::Padding::segment_bytes))]
    pub fn segment(value: &[u8], sent: usize, toggle: bool) -> Answer
        ensures { result ≡ accepted_data (segment_back value.now sent (bit toggle)) }
    {
        let rest = left(value, sent);
        let (n, part) = first_part(rest);
        let last = rest.len() <= LONGEST_PART;
        let control = u8::from(toggle) + 2 * u8::from(last);
        bringing(&[n, control], part)
    }

    // A read chain begins: the value's length and its first bytes.
    #[tactic(auto, unfolding(crate::specs::Answers::four))]
    pub fn first_segment(value: &[u8]) -> Answer
        ensures { result ≡ accepted_data (first_segment_back value.now) }
    {
        let (n, part) = first_part(value);
        let [a, b, c, d, ..] = value.len().to_le_bytes();
        bringing(&[a, b, c, d, n], part)
    }

    // The value of an object of at most four bytes, in its own place behind the code.
    #[tactic(auto, using(crate::proofs::Fitting::value_in_place))]
    pub fn value<D: Dictionary>(dict: &D, at: Address) -> Result<Answer, dictionary::Fault>
        ensures { result ≡ value_answer (D.Dictionary.meaning dict.now) at }
    {
        let mut bytes = [0; MOST_DATA];
        fill(dict, at, &mut bytes)?;
        Ok(Answer { bytes, len: 8 })
    }

    // Whole words, at most 132 of them.
    pub fn data(&self) -> &[u8]
        ensures bytes { result.now ≡ self.now }
        ensures words { length result.now % 2 ≡ 0 }
        ensures few { length result.now ≤ 264 }
    {
        &self.bytes[..self.len]
    }

    // Lays the answer over the front of a memory, the rest of which stays.
    pub fn lay(&self, memory: &mut [u8]) -> Result<usize, Refusal>
        ensures result { result ≡ (laying 0 self.now memory.old).result }
        ensures memory { memory.new ≡ (laying 0 self.now memory.old).memory }
        ensures words { length self.now % 2 ≡ 0 }
        ensures few { length self.now ≤ 264 }
        ensures longest { LONGEST_ANSWER ≡ 538 }
        ensures suffices { 538 ≤ length memory.old → (result ≡ Ok (length (framed (body_of 0 self.now)))) × (memory.new ≡ laid (framed (body_of 0 self.now)) memory.old) }
    {
        lay_answer(self.data(), memory)
    }
}

// Lends the four bytes behind the code to the dictionary, which fills the value's own place; the bytes around it stay.
fn fill<D: Dictionary>(
    dict: &D,
    at: Address,
    bytes: &mut [u8; MOST_DATA],
) -> Result<usize, dictionary::Fault>
    ensures answer { result ≡ read_answer (D.Dictionary.meaning dict.now) at (take 4 (drop 4 bytes.old)) }
    ensures bytes { bytes.new ≡ take 4 bytes.old ++ (memory_after_read (D.Dictionary.meaning dict.now) at (take 4 (drop 4 bytes.old)) ++ drop 8 bytes.old) }
{
    dict.read(at, &mut bytes[4..8])
}

// Writes the frame of an answer with these data. It stands alone so that a wrong OpCode is refused here.
fn lay_answer(data: &[u8], memory: &mut [u8]) -> Result<usize, Refusal>
    ensures result { result ≡ (laying 0 «data».now memory.old).result }
    ensures memory { memory.new ≡ (laying 0 «data».now memory.old).memory }
{
    wire::lay(ANSWER, data, memory)
}

// The answer of an accepted command that brings a header and part of a value back.
#[tactic(auto, using(crate::proofs::Padding::brought))]
fn bringing(header: &[u8], part: &[u8]) -> Answer
    requires { length header.now + length part.now ≤ 260 }
    ensures { result ≡ accepted_data (header.now ++ part.now) }
{
    let start = 4 + header.len();
    let end = start + part.len();
    let mut bytes = [0; MOST_DATA];
    bytes[4..start].copy_from_slice(header);
    bytes[start..end].copy_from_slice(part);
    Answer {
        bytes,
        len: end.next_multiple_of(2),
    }
}

// What is left of a value of which so many bytes were sent.
fn left(value: &[u8], sent: usize) -> &[u8]
    ensures { result.now ≡ drop sent value.now }
{
    &value[sent.min(value.len())..]
}

// What one answer brings of the bytes that are left of a value, and how many they are, as the one byte of the answer that tells it.
#[tactic(auto, using(std::proofs::lemmas::List::take_min))]
fn first_part(rest: &[u8]) -> (u8, &[u8])
    ensures n { result.0 ≡ min most (length rest.now) }
    ensures part { result.1.now ≡ take most rest.now }
    ensures few { length result.1.now ≤ most }
{
    let n = LONGEST_PART.min(rest.len());
    (n as u8, &rest[..n])
}
