// How a body passes on the cable.
ghost use Rattle.std.specs.Prelude.{◌≡◌, ℕ, List, Some};
ghost use Rattle.wire.specs.Line.{Completes};
ghost use Rattle.sniffer.specs.Passing.{judged, Passes};
ghost use Rattle.sniffer.specs.Reporting.{word_of};

use std::fmt;
use wire::Body;

// How a body passed.
#[derive(Clone, Copy, Debug, PartialEq, Eq)]
pub enum Passed {
    // Its checksum fits.
    Heard,
    // Its checksum does not fit.
    Damaged,
}

impl fmt::Display for Passed {
    ghost output = { λ p. Some (word_of p) };

    fn fmt<W: fmt::Write>(&self, f: &mut fmt::Formatter<W>) -> fmt::Result {
        f.write_str(match self {
            Passed::Heard => "heard",
            Passed::Damaged => "damaged",
        })
    }
}

// Whether the checksum of a body fits.
#[tactic(auto, using(crate::proofs::Judging::heard, crate::proofs::Judging::damaged))]
fn verdict(body: &[u8]) -> Passed
    ensures { result ≡ judged body.now }
{
    match Body::new(body).check() {
        Ok(_) => Passed::Heard,
        Err(_) => Passed::Damaged,
    }
}

// How a body passes, in any stretch that completes it.
#[tactic(auto, using(crate::proofs::Judging::passes_as))]
pub fn judge(body: &[u8]) -> Passed
    ensures judged { result ≡ judged body.now }
    ensures passes { (stretch : List ℕ) → Completes stretch body.now → Passes stretch result body.now }
{
    verdict(body)
}
