// A segment that the open write chain takes.
ghost use Rattle.std.specs.Prelude.{◌≡◌, ◌+◌, ◌≤◌, ◌++◌, length, take};
ghost use Rattle.wire.specs.Framing.{laid};

use crate::chains::{Chain, LONGEST_VALUE};
use command::Part;
use dictionary::Address;

// The object, the chain before the segment, and the segment's bytes, which fit what was declared.
#[derive(Clone, Copy)]
pub struct Joining<'a> {
    pub at: Address,
    pub chain: Chain,
    pub part: Part<'a>,
    ghost fits: { chain.count + length part.bytes.now ≤ chain.declared },
}

impl Joining<'_> {
    // Lays the bytes behind those joined before, and tells how many are then joined.
    pub(crate) fn join(&self, staging: &mut [u8; LONGEST_VALUE]) -> usize
        ensures sum { result ≡ self.now.chain.count + length self.now.part.bytes.now }
        ensures staging { staging.new ≡ laid (take self.now.chain.count staging.old ++ self.now.part.bytes.now) staging.old }
    {
        let start = self.chain.count;
        let sum = start + self.part.bytes.len();
        staging[start..sum].copy_from_slice(self.part.bytes);
        sum
    }
}
