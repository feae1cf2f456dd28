// The data of an answer.
ghost use Rattle.std.specs.Prelude.{◌≡◌, ℕ, ◌%◌, ◌≤◌, List, take};

mod layouts;

use std::marker::Model;

// The most bytes of a value that one answer brings.
pub const LONGEST_PART: usize = 255;

// The bytes of the longest answer on the cable.
pub const LONGEST_ANSWER: usize = 538;

// The most data bytes of an answer.
const MOST_DATA: usize = 264;

// The data of an answer before they are framed: with OpCode, Len and checksum at most 268 bytes.
// The device has no heap: the memory is fixed, and `len` says how much of it is taken.
#[derive(Drop)]
pub struct Answer {
    bytes: [u8; MOST_DATA],
    len: usize,
}

// Contracts see the data alone: whole words, at most 132 of them.
impl Model for Answer {
    ghost Value = { List ℕ };

    ghost view = { λ a. take a.len a.bytes };

    ghost invariant = { λ a. (a.len ≤ 264) × (a.len % 2 ≡ 0) };
}
