// The law over runs of calls on one opened port, and its proof.
#![tactic(auto)]

ghost use Rattle.law.specs.Lawful.{Satisfiable, Determined, OneMeaning};
ghost use Rattle.law.specs.Ports.{LawOverRuns};
ghost use Rattle.law.specs.Unlawful.{WrongPorts};
ghost use Rattle.law.specs.Worked.{Worked};

// Opening, refused bytes, silences and taken bytes keep the law, whatever the node and the objects at opening.
#[tactic(auto, using(crate::proofs::Ports::law_over_runs))]
pub fn law_stands()
    ensures { LawOverRuns }
{}

// The law allows one behaviour, neither none nor two, and each of its words has one meaning.
#[tactic(auto, using(crate::proofs::Model::satisfiable, crate::proofs::Meaning::one_meaning))]
pub fn law_determines()
    ensures satisfiable { Satisfiable }
    ensures determined { Determined }
    ensures meaning { OneMeaning }
{}

// The worked facts follow from the law.
#[tactic(auto, using(crate::proofs::Worked::worked))]
pub fn worked_facts()
    ensures { Worked }
{}

// The law turns wrong ports down.
#[tactic(auto, using(crate::proofs::Unlawful::wrong_ports_lem))]
pub fn wrong_ports()
    ensures { WrongPorts }
{}
