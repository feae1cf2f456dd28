// Whole runs of calls on one port. The memories are parameters of their own, as at `Port::take`.
ghost use Rattle.std.specs.Prelude.{length};
ghost use Rattle.port.specs.Runs.{CallKeepsLaw, StepKeepsLaw, Ran};

use crate::ports::{OpeningRefusal, Port, Refusal, Reply};
use crate::requests::{Request, Step};
use dictionary::Dictionary;

impl Request {
    // The call on a port, on the front of each memory as far as it is granted.
    fn make<D: Dictionary>(
        self,
        port: &mut Port,
        dict: &mut D,
        frame: &mut [u8],
        staging: &mut [u8],
        answer: &mut [u8],
    ) -> Result<Option<Reply>, Refusal>
        ensures { CallKeepsLaw port.old port.new (D.Dictionary.meaning dict.old) (D.Dictionary.meaning dict.new) frame.old frame.new staging.old staging.new answer.new self result }
    {
        match self {
            Request::Byte {
                byte,
                frame: granted_frame,
                staging: granted_staging,
                answer: granted_answer,
            } => {
                let f = granted_frame.min(frame.len());
                let m = granted_staging.min(staging.len());
                let a = granted_answer.min(answer.len());
                port.byte(
                    dict,
                    byte,
                    &mut frame[0..f],
                    &mut staging[0..m],
                    &mut answer[0..a],
                )
            }
            Request::Silence => {
                port.silence();
                Ok(None)
            }
        }
    }
}

impl Step {
    // The call is made, and what it told is noted.
    fn make<D: Dictionary>(
        &mut self,
        port: &mut Port,
        dict: &mut D,
        frame: &mut [u8],
        staging: &mut [u8],
    )
        ensures { StepKeepsLaw port.old port.new (D.Dictionary.meaning dict.old) (D.Dictionary.meaning dict.new) frame.old frame.new staging.old staging.new self.old self.new }
    {
        self.told = self
            .request
            .make(port, dict, frame, staging, &mut self.answer);
    }
}

// Opens a port and makes these calls on it, one after the other; what each brought stands in its step.
pub fn run<D: Dictionary>(
    node: u8,
    dict: &mut D,
    steps: &mut [Step],
    frame: &mut [u8],
    staging: &mut [u8],
) -> Result<(), OpeningRefusal>
    ensures { Ran result node (D.Dictionary.meaning dict.old) (D.Dictionary.meaning dict.new) (length frame.old) (length staging.old) steps.old steps.new }
{
    let mut port = Port::open(node)?;
    for step in steps.iter_mut() {
        step.make(&mut port, dict, frame, staging);
    }
    Ok(())
}
