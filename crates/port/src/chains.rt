// The chain record: which way its bytes go, how many, and whose turn it is. An open chain never holds more bytes than it declared.
ghost use Rattle.std.specs.Prelude.{◌≤◌};

use command::{Answer, ChainFault};
use dictionary::Address;

// The most bytes of a value: the staging memory has room for any.
pub const LONGEST_VALUE: usize = 4096;

// A read chain brings the value that was staged; a write chain gathers one for its object.
#[derive(Clone, Copy)]
pub enum Direction {
    Read,
    Write { at: Address },
}

// An open chain; its bytes lie in the staging memory.
#[derive(Clone, Copy)]
pub struct Chain {
    pub direction: Direction,
    pub declared: usize,
    // How many bytes were sent or joined.
    pub count: usize,
    // The toggle of the next segment.
    pub toggle: bool,
    ghost within: { count ≤ declared },
    ghost small: { declared ≤ 4096 },
}

impl Chain {
    ghost use Rattle.std.specs.Prelude.{◌≡◌, ◌≤◌, not};
    ghost use Rattle.port.specs.Chains.{in_turn_lem};

    // Whether it is this toggle's turn: a repeated segment has the toggle of the one before it.
    pub(crate) fn in_turn(&self, toggle: bool) -> Result<(), ChainFault>
        ensures { result ≡ in_turn_lem self.now.toggle toggle }
    {
        if self.toggle != toggle {
            return Err(ChainFault::Toggle);
        }
        Ok(())
    }

    // The chain after a segment with which it holds so many bytes.
    pub(crate) fn after_segment(&self, count: usize) -> Chain
        requires { count ≤ self.now.declared }
        ensures direction { result.direction ≡ self.now.direction }
        ensures declared { result.declared ≡ self.now.declared }
        ensures count { result.count ≡ count }
        ensures toggle { result.toggle ≡ not self.now.toggle }
    {
        Chain {
            direction: self.direction,
            declared: self.declared,
            count,
            toggle: !self.toggle,
        }
    }
}

// What a command of a chain brings where it is taken: its answer, and the chain that it leaves open.
#[derive(Drop)]
pub struct Taken {
    pub answer: Answer,
    pub next: Option<Chain>,
}
