// The line of an input that is being gathered, in a memory of fixed size.
mod input;
mod output;

use std::marker::Model;

// One character more than a line may have, so that a longer line is seen to be too long.
const MOST_KEPT: usize = 4097;

// Finds the lines of an input that comes byte by byte.
#[derive(Drop)]
pub struct Lines {
    // The characters of the line, at the front of an array: with a `Vec`, taking a byte could fail.
    text: [u8; MOST_KEPT],
    // How many they are.
    count: usize,
    // A line is begun and not ended. No Option around the text: that of an ended line stays to be told.
    begun: bool,
    // The number of the line, counted from 1.
    number: u64,
}

// Contracts see what is kept of the last line, whether it is still to be ended, and its number.
impl Model for Lines {
    ghost use Rattle.std.specs.Prelude.{◌≤◌, take};
    ghost use Rattle.recording.specs.Gathering.{Held};

    ghost Value = { Held };

    ghost view = { λ s. record { text = take s.count s.text; begun = s.begun; number = s.number } };

    ghost invariant = { λ s. s.count ≤ 4097 };
}
