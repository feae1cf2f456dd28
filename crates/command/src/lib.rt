// The six commands of a checked frame, the checks that it must pass, and how answers are laid out.
#![tactic(auto)]

mod answers;
mod commands;
mod faults;
mod laws;
mod opcodes;

pub use answers::{Answer, LONGEST_ANSWER, LONGEST_PART};
pub use commands::{Command, Part, decode, read_command};
pub use faults::{ChainFault, CommandFault, Fault};
pub use laws::{acceptance, neighbours_apart, worked_cases};
pub use opcodes::OpCode;
