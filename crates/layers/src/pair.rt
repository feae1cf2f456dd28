// Two dictionaries as one.
ghost use Rattle.std.specs.Prelude.{◌≡◌};
ghost use Rattle.dictionary.specs.Calls.{write_answer, after_write};
ghost use Rattle.layers.specs.Layers.{paired, second_after};
ghost use Rattle.layers.specs.Soundness.{paired_sound};

use dictionary::{Address, Dictionary, Fault, Look};

// The first has every index that it knows, the second the rest.
#[derive(Drop)]
pub struct Pair<D, E> {
    pub first: D,
    pub second: E,
}

// Three times a `match` of two lines: an `or_else` would have to match on the fault too, and give any other back.
impl<D: Dictionary, E: Dictionary> Dictionary for Pair<D, E> {
    ghost meaning = { λ p. paired (D.Dictionary.meaning p.first) (E.Dictionary.meaning p.second) };

    ghost sound = { λ p. paired_sound (D.Dictionary.meaning p.first) (E.Dictionary.meaning p.second) (D.Dictionary.sound p.first) (E.Dictionary.sound p.second) };

    fn look(&self, at: Address) -> Result<Look, Fault> {
        match self.first.look(at) {
            Err(Fault::NoIndex) => self.second.look(at),
            answer => answer,
        }
    }

    fn read(&self, at: Address, memory: &mut [u8]) -> Result<usize, Fault> {
        match self.first.read(at, memory) {
            Err(Fault::NoIndex) => self.second.read(at, memory),
            answer => answer,
        }
    }

    fn write(&mut self, at: Address, bytes: &[u8]) -> Result<(), Fault>
        ensures answer { result ≡ write_answer (paired (D.Dictionary.meaning self.old.first) (E.Dictionary.meaning self.old.second)) at bytes.now }
        ensures after { paired (D.Dictionary.meaning self.new.first) (E.Dictionary.meaning self.new.second) ≡ after_write (paired (D.Dictionary.meaning self.old.first) (E.Dictionary.meaning self.old.second)) at bytes.now }
        ensures first { D.Dictionary.meaning self.new.first ≡ after_write (D.Dictionary.meaning self.old.first) at bytes.now }
        ensures second { E.Dictionary.meaning self.new.second ≡ second_after (D.Dictionary.meaning self.old.first) (E.Dictionary.meaning self.old.second) at bytes.now }
    {
        match self.first.write(at, bytes) {
            Err(Fault::NoIndex) => self.second.write(at, bytes),
            answer => answer,
        }
    }
}
