// Laws of the cable, each the contract of a function, so that the check asks for its proof.
ghost use Rattle.wire.specs.Checking.{Computed};
ghost use Rattle.wire.specs.Frames.{FrameLaws};
ghost use Rattle.wire.specs.Holding.{StartsEmpty};
ghost use Rattle.wire.specs.Worked.{Worked};

// What a stretch hears: one frame at most, and whole frames that come next.
#[tactic(auto, using(crate::proofs::Frames::frame_laws_lem))]
pub fn frame_laws()
    ensures { FrameLaws }
{}

// A new receiver holds the empty stretch, and the check of a body can be computed.
#[tactic(auto, using(crate::proofs::Apart::computed))]
pub fn receiver_laws()
    ensures starts { StartsEmpty }
    ensures computed { Computed }
{}

// The worked examples.
#[tactic(auto, using(crate::proofs::Examples::worked))]
pub fn worked_facts()
    ensures { Worked }
{}
