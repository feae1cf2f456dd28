// Calls as values, with room for what each brings.
use crate::ports::{Refusal, Reply};
use command::LONGEST_ANSWER;

// A call: a byte with how much of each memory is granted to it, or a silence.
#[derive(Clone, Copy, Debug, PartialEq, Eq)]
pub enum Request {
    Byte {
        byte: u8,
        frame: usize,
        staging: usize,
        answer: usize,
    },
    Silence,
}

// A call of a run, what it told, and its answer memory: an array, since there is no heap.
#[derive(Clone, Copy, Debug, PartialEq, Eq)]
pub struct Step {
    pub request: Request,
    pub told: Result<Option<Reply>, Refusal>,
    pub answer: [u8; LONGEST_ANSWER],
}
