// Tests of the crates that know the cable: frames written and heard, and lines of a recording.
#![tactic(auto)]

ghost use Rattle.std.specs.Prelude.{◌≡◌};
ghost use Rattle.cable_tests.specs.Opcodes.{first_byte};
ghost use Rattle.wire.specs.Checking.{checked_frame};

use wire::Body;

#[cfg(test)]
mod frames;
#[cfg(test)]
mod lines;

// The OpCode of a body. Its checksum is tested first: nothing can be read from an untested body.
#[tactic(auto, using(wire::proofs::Apart::computed))]
pub fn opcode_of(bytes: &[u8]) -> Option<u8>
    ensures { result ≡ first_byte (checked_frame bytes.now) }
{
    match Body::new(bytes).check() {
        Ok(frame) => Some(frame.opcode()),
        Err(_) => None,
    }
}
