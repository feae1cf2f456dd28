// The calls that take an input.
ghost use Rattle.std.specs.Prelude.{◌≡◌, ℕ, List, [], ◌∷◌, ◌++◌, ◌==◌, is_some};
ghost use Rattle.recording.specs.Gathering.{fresh, beginning, ending, adding, taking, one, number_of, Told, Gathers};

use crate::gathering::{Lines, MOST_KEPT};

const LINE_FEED: u8 = 0x0A;

impl Lines {
    // No byte is taken yet.
    pub fn new() -> Lines
        ensures empty { result ≡ fresh }
        ensures gathers { Gathers [] [] result }
    {
        Lines {
            text: [0; MOST_KEPT],
            count: 0,
            begun: false,
            number: 0,
        }
    }

    // The line that the next byte belongs to is begun.
    fn begin(&mut self)
        ensures { self.new ≡ beginning self.old }
    {
        if !self.begun {
            self.begun = true;
            self.count = 0;
            self.number = self.number.saturating_add(1);
        }
    }

    // One character more of the line.
    fn add(&mut self, character: u8)
        ensures { self.new ≡ adding character self.old }
    {
        // An index and no `get_mut`: of an array that lent an element, the proof doesn't learn what it holds then.
        if self.count < MOST_KEPT {
            self.text[self.count] = character;
            self.count += 1;
        }
    }

    // One byte more of the input; whether it is a line feed, which ends a line.
    fn advance(&mut self, byte: u8) -> bool
        ensures ends { result ≡ (byte == 0x0A) }
        ensures taken { self.new ≡ taking byte self.old }
    {
        self.begin();
        if byte == LINE_FEED {
            self.begun = false;
            return true;
        }
        self.add(byte);
        false
    }

    // Takes the next byte of the input; the number of the line that it ends, which a line feed does.
    pub fn take(&mut self, byte: u8) -> Option<u64>
        ensures ends { result ≡ number_of (byte == 0x0A) self.new }
        ensures taken { self.new ≡ taking byte self.old }
        ensures gathers { (input : List ℕ) (texts : List (List ℕ)) → Gathers input texts self.old → Gathers (input ++ byte ∷ []) (texts ++ one (is_some result) self.new) self.new }
    {
        self.advance(byte).then_some(self.number)
    }

    // The input ends here; the number of the line that this ends, which then has no line feed.
    pub fn finish(&mut self) -> Option<u64>
        ensures ends { result ≡ number_of self.old.begun self.new }
        ensures finished { self.new ≡ ending self.old }
        ensures gathers { (input : List ℕ) (texts : List (List ℕ)) → Gathers input texts self.old → Told input (texts ++ one (is_some result) self.new) }
    {
        let ends = self.begun;
        self.begun = false;
        ends.then_some(self.number)
    }
}
