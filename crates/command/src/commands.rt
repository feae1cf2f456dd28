// The six commands that a checked frame may be.
ghost use Rattle.std.specs.Prelude.{◌≡◌, ℕ, ◌+◌, ◌*◌, ◌/◌, ◌%◌, ◌≤◌, true, length, take, if◌then◌else◌, Some, None, ◌==◌, nat_eq};
ghost use Rattle.command.specs.Answers.{four};
ghost use Rattle.command.specs.Checks.{Node, concerns};
ghost use Rattle.command.specs.Decoding.{Decodes, Is, Opens, Reads, frame_of, part_values};
ghost use Rattle.command.specs.Frames.{segment_write, verb, len, room, len_fits};
ghost use Rattle.dictionary.specs.Objects.{unsigned_value};
ghost use Rattle.wire.specs.Checking.{checked_frame};

use crate::faults::{CommandFault, Fault};
use crate::opcodes::OpCode;
use dictionary::Address;
use wire::{Body, Frame};

// The n bytes of a segment, as a part of the frame memory, with their place there.
#[derive(Clone, Copy, Debug, PartialEq, Eq)]
pub struct Part<'a> {
    pub place: usize,
    pub bytes: &'a [u8],
}

#[derive(Drop, Debug, PartialEq, Eq)]
pub enum Command<'a> {
    ReadObject {
        at: Address,
    },
    InitiateSegmentedRead {
        at: Address,
    },
    // The four data bytes are one number, low byte first.
    WriteObject {
        at: Address,
        number: u32,
    },
    InitiateSegmentedWrite {
        at: Address,
        declared: u32,
    },
    SegmentRead {
        toggle: bool,
    },
    // `part` is None where `length` does not fit Len, which is judged after chain and toggle; the answer repeats `length` as it came.
    SegmentWrite {
        length: u8,
        toggle: bool,
        last: bool,
        part: Option<Part<'a>>,
    },
}

// The place of a segment's bytes in the body: behind OpCode, Len, n and control.
const SEGMENT_PLACE: usize = 4;

// The command that a frame is, or the first of the checks of OpCode, Len and node that turns it away. It spends the frame.
#[tactic(auto, unfolding(crate::specs::Frames::verb, crate::specs::Frames::len, crate::specs::Frames::read_toggle, crate::specs::Frames::number, crate::specs::Frames::declared, crate::specs::Frames::payload), using(crate::proofs::Names::names, crate::proofs::Names::names_none))]
pub fn decode<'a>(frame: Frame<'a>, node: u8) -> Result<Command<'a>, CommandFault>
    ensures { Decodes node (frame_of frame.entry) result }
{
    let opcode = OpCode::try_from(frame.opcode())?;
    let data = frame.data();
    if !opcode.fits(data.len() / 2) {
        return Err(CommandFault::Len);
    }
    match opcode {
        OpCode::ReadObject => {
            let (at, _) = addressed::<0>(&frame, node)?;
            Ok(Command::ReadObject { at })
        }
        OpCode::InitiateSegmentedRead => {
            let (at, _) = addressed::<0>(&frame, node)?;
            Ok(Command::InitiateSegmentedRead { at })
        }
        OpCode::WriteObject => {
            let (at, rest) = addressed(&frame, node)?;
            Ok(Command::WriteObject {
                at,
                number: number(rest),
            })
        }
        OpCode::InitiateSegmentedWrite => {
            let (at, rest) = addressed(&frame, node)?;
            Ok(Command::InitiateSegmentedWrite {
                at,
                declared: number(rest),
            })
        }
        OpCode::SegmentRead => Ok(Command::SegmentRead {
            toggle: toggle_in(data[0]),
        }),
        OpCode::SegmentWrite => Ok(segment_write(&frame)),
    }
}

// The command in a body. Its checksum is tested first: only a checked frame can be decoded, and decoding spends it.
#[tactic(auto, using(crate::proofs::Reading::read_of))]
pub fn read_command<'a>(body: &'a [u8], node: u8) -> Result<Command<'a>, Fault>
    ensures { Reads node (checked_frame body.now) result }
{
    let frame = Body::new(body).check()?;
    Ok(decode(frame, node)?)
}

// The address in front of the data of a command for this node, and the N data bytes behind it.
#[tactic(auto, unfolding(crate::specs::Frames::node_of, crate::specs::Frames::address))]
fn addressed<'a, const N: usize>(
    frame: &Frame<'a>,
    node: u8,
) -> Result<(Address, &'a [u8; N]), CommandFault>
    requires verb { concerns Node (verb (frame_of frame.now)) ≡ true }
    requires len { len_fits (verb (frame_of frame.now)) (len (frame_of frame.now)) ≡ true }
    requires room { 4 + N ≤ length frame.now.«data».now }
    ensures { Opens N node (frame_of frame.now) result }
{
    let [to, lo, hi, sub, rest @ ..] = frame.data() else {
        unreachable!()
    };
    if *to != node {
        return Err(CommandFault::Node);
    }
    Ok((address(*lo, *hi, *sub), rest.first_chunk().unwrap()))
}

fn address(lo: u8, hi: u8, sub: u8) -> Address
    ensures index { result.index ≡ lo + hi * 256 }
    ensures subindex { result.subindex ≡ sub }
{
    Address {
        index: u16::from_le_bytes([lo, hi]),
        subindex: sub,
    }
}

// Four bytes as one number, low byte first.
#[tactic(auto, using(std::proofs::lemmas::Nat::le_bytes_4), unfolding(crate::specs::Answers::four))]
fn number(bytes: &[u8; 4]) -> u32
    ensures value { result ≡ unsigned_value bytes.now }
    ensures bytes { four result ≡ bytes.now }
{
    u32::from_le_bytes(*bytes)
}

// Bit 0 of control. One expression, as bit 1 below: a function of both bits would be no plainer.
fn toggle_in(control: u8) -> bool
    ensures { result ≡ (control % 2 == 1) }
{
    control % 2 == 1
}

// Bit 1 of control.
fn last_in(control: u8) -> bool
    ensures { result ≡ (control / 2 % 2 == 1) }
{
    control / 2 % 2 == 1
}

// A SegmentWrite, by its data.
#[tactic(auto, unfolding(crate::specs::Frames::size, crate::specs::Frames::write_toggle, crate::specs::Frames::marked, crate::specs::Frames::part, crate::specs::Frames::len))]
fn segment_write<'a>(frame: &Frame<'a>) -> Command<'a>
    requires verb { verb (frame_of frame.now) ≡ segment_write }
    requires room { 2 ≤ length frame.now.«data».now }
    ensures { Is (frame_of frame.now) result }
{
    let data = frame.data();
    let (length, control) = (data[0], data[1]);
    Command::SegmentWrite {
        length,
        toggle: toggle_in(control),
        last: last_in(control),
        part: segment_part(&data[2..], length, data.len() / 2),
    }
}

// The n bytes of a segment, where its words are those that n bytes need.
fn segment_part(rest: &[u8], n: u8, words: usize) -> Option<Part<'_>>
    requires { words ≤ 1 + length rest.now / 2 }
    ensures { part_values result ≡ (if nat_eq words (room n) then Some (4, take n rest.now) else None) }
{
    let n = usize::from(n);
    if words != 1 + n.div_ceil(2) {
        return None;
    }
    Some(Part {
        place: SEGMENT_PLACE,
        bytes: &rest[..n],
    })
}
