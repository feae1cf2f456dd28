// The bytes of a serial cable: marks, byte stuffing, checksums, bodies and frames.
#![tactic(auto)]

mod checked;
mod crc;
mod faults;
mod framing;
mod laws;
mod receiving;

pub use checked::{Body, Frame};
pub use crc::checksum;
pub use faults::{Fault, Refusal};
pub use framing::{lay, write};
pub use laws::{frame_laws, receiver_laws, worked_facts};
pub use receiving::{LONGEST_BODY, Phase, Receiver};
