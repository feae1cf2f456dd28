// A recording of a cable as text: its lines, and what each line says.
#![tactic(auto)]

mod digits;
mod gathering;
mod pairs;
mod playing;
mod reading;
mod spelling;

pub use digits::Digits;
pub use gathering::Lines;
pub use pairs::{MOST_BYTES, Pairs};
pub use playing::{Listener, no_memory, play};
pub use reading::{BadLine, Line, read_line};
pub use spelling::{push_pairs, spell};
