// Dictionaries over lent tables: numbers, and runs of bytes in one pool.
#![tactic(auto)]

mod numbers;
mod runs;
mod search;
mod table;
mod values;

pub use numbers::{NumberRecord, Numbers};
pub use runs::{RunRecord, Runs};
pub use search::{Addressed, Found, find};
