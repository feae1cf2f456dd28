// A body carried out: its frame is checked, its command read, and the command carried out while it borrows from the frame.
ghost use Rattle.std.specs.Prelude.{◌≡◌, not};
ghost use Rattle.command.specs.Frames.{verb_of, of_chain};
ghost use Rattle.port.specs.Chains.{chain_of};
ghost use Rattle.port.specs.Serving.{Carried, Leaves, body_done, leaves_chain, left};
ghost use Rattle.wire.specs.Checking.{checked_frame};

use crate::chains::{Chain, LONGEST_VALUE};
use crate::guards::Guard;
use crate::objects::{read_object, write_object};
use crate::segments::{initiate_read, initiate_write, segment_read, segment_write};
use command::{Answer, Command, Fault, OpCode, decode};
use dictionary::Dictionary;
use wire::Body;

// Carries out a command that was read from a frame. Dictionary and memory are parameters of their own, as at `Port::take`.
#[tactic(auto, using(crate::proofs::ServedBodies::on_objects))]
pub(crate) fn carry_out<D: Dictionary>(
    guard: &mut Guard<'_>,
    dict: &mut D,
    command: Command<'_>,
    staging: &mut [u8; LONGEST_VALUE],
) -> Result<Answer, Fault>
    requires { guard.old.kept ≡ leaves_chain command }
    ensures leaves { Carried command.entry (D.Dictionary.meaning dict.old) (chain_of guard.old.chain.now staging.old) staging.old result (left guard.new.kept guard.new.chain.now staging.new) (D.Dictionary.meaning dict.new) staging.new }
    ensures same { guard.new.chain.ghost_name ≡ guard.old.chain.ghost_name }
{
    let chain = *guard.chain;
    match command {
        Command::ReadObject { at } => read_object(dict, at),
        Command::WriteObject { at, number } => write_object(dict, at, number),
        Command::InitiateSegmentedRead { at } => guard.leave(initiate_read(dict, at, staging)),
        Command::InitiateSegmentedWrite { at, declared } => guard.leave(initiate_write(
            dict, at, declared,
        )),
        Command::SegmentRead { toggle } => guard.leave(segment_read(chain, toggle, staging)),
        Command::SegmentWrite {
            length,
            toggle,
            last,
            part,
        } => guard.leave(segment_write(chain, dict, length, toggle, last, part, staging)),
    }
}

// Whether frames of an OpCode leave the open chain: those of a chain's commands end it unless they are taken.
#[tactic(auto, using(command::proofs::Names::names, command::proofs::Names::names_none))]
fn keeps(opcode: u8) -> bool
    ensures { result ≡ not (of_chain (verb_of opcode)) }
{
    match OpCode::try_from(opcode) {
        Ok(opcode) => !opcode.of_chain(),
        Err(_) => true,
    }
}

// One complete body. The guard is made before the command is read, so that a segment of a wrong Len ends its chain too.
// Dictionary and memory are parameters of their own, as at `Port::take`.
pub(crate) fn serve<D: Dictionary>(
    chain: &mut Option<Chain>,
    dict: &mut D,
    node: u8,
    body: &[u8],
    staging: &mut [u8; LONGEST_VALUE],
) -> Result<Answer, Fault>
    ensures { Leaves (body_done node (D.Dictionary.meaning dict.old) (chain_of chain.old staging.old) staging.old (checked_frame body.now)) result (chain_of chain.new staging.new) (D.Dictionary.meaning dict.new) staging.new }
{
    let frame = Body::new(body).check()?;
    let mut guard = Guard {
        chain,
        kept: keeps(frame.opcode()),
    };
    let command = decode(frame, node)?;
    carry_out(&mut guard, dict, command, staging)
}
