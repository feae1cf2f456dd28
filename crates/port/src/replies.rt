// The answer to a complete body, written to the front of the answer memory.
ghost use Rattle.std.specs.Prelude.{◌≡◌, length};
ghost use Rattle.wire.specs.Checking.{checked_frame};
ghost use Rattle.wire.specs.Framing.{laid};
ghost use Rattle.law.specs.Calls.{answer_frame};
ghost use Rattle.port.specs.Chains.{chain_of};
ghost use Rattle.port.specs.Ports.{Replies};
ghost use Rattle.port.specs.Serving.{body_done};

use crate::chains::{Chain, LONGEST_VALUE};
use crate::ports::Reply;
use crate::serving::serve;
use command::{Answer, LONGEST_ANSWER};
use dictionary::Dictionary;

// Writes an answer; its length.
fn deliver(answer: &Answer, memory: &mut [u8; LONGEST_ANSWER]) -> usize
    ensures length { result ≡ length (answer_frame answer.now) }
    ensures memory { memory.new ≡ laid (answer_frame answer.now) memory.old }
{
    answer.lay(memory).unwrap()
}

// Carries out a body and answers it. The memories are parameters of their own, as at `Port::take`.
pub(crate) fn reply<D: Dictionary>(
    chain: &mut Option<Chain>,
    dict: &mut D,
    node: u8,
    body: &[u8],
    staging: &mut [u8; LONGEST_VALUE],
    memory: &mut [u8; LONGEST_ANSWER],
) -> Reply
    ensures { Replies (body_done node (D.Dictionary.meaning dict.old) (chain_of chain.old staging.old) staging.old (checked_frame body.now)) result memory.old (chain_of chain.new staging.new) (D.Dictionary.meaning dict.new) staging.new memory.new }
{
    match serve(chain, dict, node, body, staging) {
        Ok(answer) => Reply {
            length: deliver(&answer, memory),
            outcome: Ok(()),
        },
        Err(fault) => Reply {
            length: deliver(&Answer::refusal(fault), memory),
            outcome: Err(fault),
        },
    }
}
