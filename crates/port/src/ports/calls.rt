// The calls of a port.
ghost use Rattle.std.specs.Prelude.{◌≡◌, take, Some, Ok, Err};
ghost use Rattle.wire.specs.declared.receiving.Phase.TheVariants.{Hunting};
ghost use Rattle.wire.specs.Receiving.{step};
ghost use Rattle.port.specs.Ports.{opening_number, refusal_number, opening_text, refusal_text, board, call_result, taken_call, byte_of, own_node, shown_port, opened_port};
ghost use Rattle.port.specs.Runs.{OpeningKeepsLaw, SilenceKeepsLaw, ByteKeepsLaw};

use crate::chains::LONGEST_VALUE;
use crate::ports::{OpeningRefusal, Port, Refusal, Reply};
use crate::replies::reply;
use command::LONGEST_ANSWER;
use dictionary::Dictionary;
use std::error::Error;
use std::fmt;
use wire::{LONGEST_BODY, Receiver};

const FIRST_NODE: u8 = 1;

const LAST_NODE: u8 = 127;

impl OpeningRefusal {
    // Its number. No trait over the refusals: each impl would be this line again.
    pub fn number(self) -> u8
        ensures { result ≡ opening_number self }
    {
        self as u8
    }
}

impl Refusal {
    // Its number. No trait over the refusals: each impl would be this line again.
    pub fn number(self) -> u8
        ensures { result ≡ refusal_number self }
    {
        self as u8
    }
}

impl fmt::Display for OpeningRefusal {
    ghost output = { λ refusal. Some (opening_text refusal) };

    fn fmt<W: fmt::Write>(&self, f: &mut fmt::Formatter<W>) -> fmt::Result {
        match self {
            OpeningRefusal::Node => write!(f, "the node is not from 1 to 127"),
        }
    }
}

impl Error for OpeningRefusal {}

impl fmt::Display for Refusal {
    ghost output = { λ refusal. Some (refusal_text refusal) };

    fn fmt<W: fmt::Write>(&self, f: &mut fmt::Formatter<W>) -> fmt::Result {
        match self {
            Refusal::FrameMemory => write!(f, "the frame memory is shorter than 514 bytes"),
            Refusal::StagingMemory => write!(f, "the staging memory is shorter than 4096 bytes"),
            Refusal::AnswerMemory => write!(f, "the answer memory is shorter than 538 bytes"),
        }
    }
}

impl Error for Refusal {}

impl Port {
    // A port of its own node with no chain open.
    #[tactic(auto, using(crate::proofs::Keeping::opened))]
    pub fn open(node: u8) -> Result<Port, OpeningRefusal>
        ensures port { shown_port result ≡ opened_port node }
        ensures lawful { OpeningKeepsLaw result }
    {
        if !is_own(node) {
            return Err(OpeningRefusal::Node);
        }
        Ok(Port {
            node,
            receiver: Receiver::new(),
            chain: None,
        })
    }

    // The cable was silent: the stretch ends, and a chain stays open.
    pub fn silence(&mut self)
        ensures node { self.new.node ≡ self.old.node }
        ensures phase { self.new.receiver.phase ≡ Hunting }
        ensures gathered { self.new.receiver.gathered ≡ 0 }
        ensures chain { self.new.chain ≡ self.old.chain }
        ensures lawful { SilenceKeepsLaw self.old self.new }
    {
        self.receiver.silence();
    }

    // One byte of the cable. A body that it completes is answered at the front of the answer memory.
    pub fn byte<D: Dictionary>(
        &mut self,
        dict: &mut D,
        byte: u8,
        frame: &mut [u8],
        staging: &mut [u8],
        answer: &mut [u8],
    ) -> Result<Option<Reply>, Refusal>
        ensures steps { call_result result (board self.new (D.Dictionary.meaning dict.new) frame.new staging.new answer.new) ≡ byte_of self.old.node (board self.old (D.Dictionary.meaning dict.old) frame.old staging.old answer.old) byte }
        ensures node { self.new.node ≡ self.old.node }
        ensures still { (e : Refusal) → result ≡ Err e → self.new ≡ self.old }
        ensures lawful { ByteKeepsLaw self.old self.new (D.Dictionary.meaning dict.old) (D.Dictionary.meaning dict.new) frame.old staging.old answer.old frame.new staging.new answer.new byte result }
    {
        let Some(frame) = frame.first_chunk_mut::<LONGEST_BODY>() else {
            return Err(Refusal::FrameMemory);
        };
        let Some(staging) = staging.first_chunk_mut::<LONGEST_VALUE>() else {
            return Err(Refusal::StagingMemory);
        };
        let Some(answer) = answer.first_chunk_mut::<LONGEST_ANSWER>() else {
            return Err(Refusal::AnswerMemory);
        };
        Ok(self.take(dict, byte, frame, staging, answer))
    }

    // The same in memories of just the lengths that suffice: no byte is refused.
    // They stay parameters of their own: of each in a struct, every call would have to say that it is still the same borrow.
    fn take<D: Dictionary>(
        &mut self,
        dict: &mut D,
        byte: u8,
        frame: &mut [u8; LONGEST_BODY],
        staging: &mut [u8; LONGEST_VALUE],
        answer: &mut [u8; LONGEST_ANSWER],
    ) -> Option<Reply>
        ensures steps { call_result (Ok result) (board self.new (D.Dictionary.meaning dict.new) frame.new staging.new answer.new) ≡ taken_call self.old.node (board self.old (D.Dictionary.meaning dict.old) frame.old staging.old answer.old) (step self.old.receiver.phase (take self.old.receiver.gathered frame.old) byte) }
        ensures node { self.new.node ≡ self.old.node }
    {
        let count = self.receiver.advance(byte, frame)?;
        Some(reply(
            &mut self.chain,
            dict,
            self.node,
            &frame[0..count],
            staging,
            answer,
        ))
    }
}

// Whether a node may be a port's own.
fn is_own(node: u8) -> bool
    ensures { result ≡ own_node node }
{
    (FIRST_NODE..=LAST_NODE).contains(&node)
}
