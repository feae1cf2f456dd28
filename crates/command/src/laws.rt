// Laws of the table of checks, each the contract of a function, so that the check asks for its proof.
ghost use Rattle.command.specs.Accepted.{Accepted};
ghost use Rattle.command.specs.Neighbours.{Neighbours};
ghost use Rattle.command.specs.Worked.{Worked};

// No check turns a frame away exactly where the words for its command hold.
#[tactic(auto, using(crate::proofs::Accepted::accepted))]
pub fn acceptance()
    ensures { Accepted }
{}

// The worked cases come out as the rules say.
#[tactic(auto, unfolding(crate::specs::Frames::verb, crate::specs::Frames::len, crate::specs::Frames::node_of, crate::specs::Frames::address, crate::specs::Frames::payload, crate::specs::Frames::number, crate::specs::Frames::declared, crate::specs::Frames::read_toggle, crate::specs::Frames::write_toggle, crate::specs::Frames::size, crate::specs::Frames::marked, crate::specs::Frames::part, crate::specs::Checks::first, crate::specs::Checks::fault, crate::specs::Answers::four, crate::specs::Answers::answer_control, crate::specs::Commands::answer, crate::specs::Commands::next_chain, crate::specs::Commands::write_of, crate::specs::Commands::carry, crate::specs::Worked::after))]
pub fn worked_cases()
    ensures { Worked }
{}

// Of the neighbours in the table whose order no worked case tells, never both apply.
#[tactic(auto, using(crate::proofs::Neighbours::neighbours))]
pub fn neighbours_apart()
    ensures { Neighbours }
{}
