// The commands on a chain: its record, the staging memory and the dictionary.
ghost use Rattle.std.specs.Prelude.{◌≡◌, take, IfOk};
ghost use Rattle.command.specs.declared.commands.Command.TheVariants.{InitiateSegmentedRead, InitiateSegmentedWrite, SegmentRead, SegmentWrite};
ghost use Rattle.command.specs.Answers.{bit, accepted_data, segment_back};
ghost use Rattle.command.specs.Checks.{OpenChain};
ghost use Rattle.dictionary.specs.Objects.{Bytes, Objects};
ghost use Rattle.port.specs.Chains.{chain_of};
ghost use Rattle.port.specs.Segments.{Judges, Joins};
ghost use Rattle.port.specs.Serving.{Carried, shown_taken, next_of};

use crate::chains::{Chain, Direction, LONGEST_VALUE, Taken};
use crate::joinings::Joining;
use crate::objects::{stage, takes_length};
use command::{Answer, ChainFault, Fault, LONGEST_PART, Part};
use dictionary::{Address, Dictionary};

// The whole value is copied into the staging memory, and the chain is open while bytes remain.
#[tactic(auto, using(crate::proofs::SegmentInitiates::begins_read))]
pub(crate) fn initiate_read<D: Dictionary>(
    dict: &D,
    at: Address,
    staging: &mut [u8; LONGEST_VALUE],
) -> Result<Taken, Fault>
    ensures { (c : OpenChain) → Carried (InitiateSegmentedRead at) (D.Dictionary.meaning dict.now) c staging.old (shown_taken result) (chain_of (next_of result) staging.new) (D.Dictionary.meaning dict.now) staging.new }
{
    let len = stage(dict, at, staging)?;
    let answer = Answer::first_segment(&staging[0..len]);
    if len <= LONGEST_PART {
        return Ok(Taken { answer, next: None });
    }
    let next = Chain {
        direction: Direction::Read,
        declared: len,
        count: LONGEST_PART,
        toggle: false,
    };
    Ok(Taken {
        answer,
        next: Some(next),
    })
}

// A write chain begins if the object takes a value of the declared length.
#[tactic(auto, using(crate::proofs::SegmentInitiates::begins_write))]
pub(crate) fn initiate_write<D: Dictionary>(
    dict: &D,
    at: Address,
    declared: u32,
) -> Result<Taken, Fault>
    ensures { (c : OpenChain) (m : Bytes) → Carried (InitiateSegmentedWrite at declared) (D.Dictionary.meaning dict.now) c m (shown_taken result) (chain_of (next_of result) m) (D.Dictionary.meaning dict.now) m }
{
    takes_length(dict, at, declared)?;
    let next = Chain {
        direction: Direction::Write { at },
        declared: declared as usize,
        count: 0,
        toggle: false,
    };
    Ok(Taken {
        answer: Answer::accepted(),
        next: Some(next),
    })
}

// The next bytes of a read chain's value.
fn next_segment(chain: &Chain, staging: &[u8; LONGEST_VALUE]) -> Answer
    ensures { result ≡ accepted_data (segment_back (take chain.now.declared staging.now) chain.now.count (bit chain.now.toggle)) }
{
    Answer::segment(&staging[0..chain.declared], chain.count, chain.toggle)
}

// A segment of a read chain: its bytes come from the value that was staged when the chain began.
#[tactic(auto, using(crate::proofs::SegmentReads::reads_on))]
pub(crate) fn segment_read(
    chain: Option<Chain>,
    toggle: bool,
    staging: &[u8; LONGEST_VALUE],
) -> Result<Taken, Fault>
    ensures { (d : Objects) → Carried (SegmentRead toggle) d (chain_of chain staging.now) staging.now (shown_taken result) (chain_of (next_of result) staging.now) d staging.now }
{
    let chain = chain.ok_or(ChainFault::NoChain)?;
    let Direction::Read = chain.direction else {
        return Err(Fault::Chain(ChainFault::NoChain));
    };
    chain.in_turn(toggle)?;
    let answer = next_segment(&chain, staging);
    let sent = chain.count + LONGEST_PART;
    if chain.declared <= sent {
        return Ok(Taken { answer, next: None });
    }
    Ok(Taken {
        answer,
        next: Some(chain.after_segment(sent)),
    })
}

// The checks of a write segment, in their order. The command's fields are parameters, as at `segment_write`.
#[tactic(auto, using(crate::proofs::SegmentWrites::judged))]
fn admitted<'a>(
    chain: Option<Chain>,
    toggle: bool,
    last: bool,
    part: Option<Part<'a>>,
) -> Result<Joining<'a>, ChainFault>
    ensures judges { Judges chain toggle last part.entry result }
    ensures joins { IfOk result (λ j. Joins chain toggle part.entry j) }
{
    let chain = chain.ok_or(ChainFault::NoChain)?;
    let Direction::Write { at } = chain.direction else {
        return Err(ChainFault::NoChain);
    };
    chain.in_turn(toggle)?;
    let part = part.ok_or(ChainFault::Misfit)?;
    let room = chain.declared - chain.count;
    if part.bytes.len() > room {
        return Err(ChainFault::SumOver);
    }
    if last && part.bytes.len() < room {
        return Err(ChainFault::LastShort);
    }
    Ok(Joining { at, chain, part })
}

// One segment of a write chain: its bytes are staged, and the last one brings the staged bytes to the dictionary.
// The command's fields are parameters: a struct of them would be one more type between it and the command.
#[tactic(auto, using(crate::proofs::SegmentJoins::joined))]
pub(crate) fn segment_write<D: Dictionary>(
    chain: Option<Chain>,
    dict: &mut D,
    n: u8,
    toggle: bool,
    last: bool,
    part: Option<Part<'_>>,
    staging: &mut [u8; LONGEST_VALUE],
) -> Result<Taken, Fault>
    ensures { Carried (SegmentWrite n toggle last part.entry) (D.Dictionary.meaning dict.old) (chain_of chain staging.old) staging.old (shown_taken result) (chain_of (next_of result) staging.new) (D.Dictionary.meaning dict.new) staging.new }
{
    let joining = admitted(chain, toggle, last, part)?;
    let sum = joining.join(staging);
    let answer = Answer::segment_taken(n, toggle);
    if last {
        dict.write(joining.at, &staging[0..sum])?;
        return Ok(Taken { answer, next: None });
    }
    Ok(Taken {
        answer,
        next: Some(joining.chain.after_segment(sum)),
    })
}
