// The port above an object dictionary: chains of segments, the calls open, byte and silence, and the law over runs of them.
#![tactic(auto)]

mod chains;
mod guards;
mod joinings;
mod objects;
mod ports;
mod replies;
mod requests;
mod runs;
mod segments;
mod serving;

pub use chains::LONGEST_VALUE;
pub use command::LONGEST_ANSWER;
pub use ports::{OpeningRefusal, Port, Refusal, Reply};
pub use requests::{Request, Step};
pub use runs::run;
pub use wire::LONGEST_BODY;
