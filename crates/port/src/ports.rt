// A port: its own node, the receiver, and the chain that may be open.
ghost use Rattle.std.specs.Prelude.{◌≤◌};

use crate::chains::Chain;
use command::Fault;
use wire::Receiver;

mod calls;

#[derive(Drop)]
pub struct Port {
    node: u8,
    receiver: Receiver,
    chain: Option<Chain>,
    ghost first: { 1 ≤ node },
    ghost last: { node ≤ 127 },
}

// Why nothing was opened.
#[derive(Clone, Copy, Debug, PartialEq, Eq)]
pub enum OpeningRefusal {
    // The own node is not from 1 to 127.
    Node = 1,
}

// Why a byte call was not taken: a memory that it was lent is too short.
#[derive(Clone, Copy, Debug, PartialEq, Eq)]
pub enum Refusal {
    FrameMemory = 2,
    StagingMemory = 3,
    AnswerMemory = 4,
}

// An answer that stands at the front of the answer memory, which is the caller's.
#[derive(Clone, Copy, Debug, PartialEq, Eq)]
pub struct Reply {
    pub length: usize,
    // Whether the frame was carried out, or the fault that turned it away.
    pub outcome: Result<(), Fault>,
}
