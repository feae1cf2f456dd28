// The indices of the first axis, shown as those of another.
ghost use Rattle.std.specs.Prelude.{◌≡◌};
ghost use Rattle.dictionary.specs.Calls.{write_answer, after_write};
ghost use Rattle.layers.specs.Axes.{axis_number};
ghost use Rattle.layers.specs.Layers.{shifted, unshifted, found_below, below_after};
ghost use Rattle.layers.specs.Soundness.{shifted_sound};

use crate::axis::Axis;
use dictionary::{Address, Dictionary, Fault, Look};

// Shows the index 6000 + k below at 6000 + 800 × axis + k, for k from 0 to 7FF, and no others.
#[derive(Drop)]
pub struct Shift<D> {
    axis: Axis,
    below: D,
}

impl<D> Shift<D> {
    pub fn new(axis: Axis, below: D) -> Shift<D>
        ensures axis { result.axis ≡ axis }
        ensures below { result.below ≡ below }
    {
        Shift { axis, below }
    }

    // Where an address is found below.
    fn unshift(&self, at: Address) -> Result<Address, Fault>
        ensures { result ≡ found_below (unshifted (axis_number self.now.axis) at) }
    {
        let offset = 0x800 * u16::from(self.axis.number());
        match at.index.checked_sub(offset) {
            Some(index @ 0x6000..=0x67ff) => Ok(Address { index, ..at }),
            _ => Err(Fault::NoIndex),
        }
    }
}

impl<D: Dictionary> Dictionary for Shift<D> {
    ghost meaning = { λ s. shifted (axis_number s.axis) (D.Dictionary.meaning s.below) };

    ghost sound = { λ s. shifted_sound (axis_number s.axis) (D.Dictionary.meaning s.below) (D.Dictionary.sound s.below) };

    fn look(&self, at: Address) -> Result<Look, Fault> {
        self.below.look(self.unshift(at)?)
    }

    fn read(&self, at: Address, memory: &mut [u8]) -> Result<usize, Fault> {
        self.below.read(self.unshift(at)?, memory)
    }

    fn write(&mut self, at: Address, bytes: &[u8]) -> Result<(), Fault>
        ensures answer { result ≡ write_answer (shifted (axis_number self.old.axis) (D.Dictionary.meaning self.old.below)) at bytes.now }
        ensures after { shifted (axis_number self.new.axis) (D.Dictionary.meaning self.new.below) ≡ after_write (shifted (axis_number self.old.axis) (D.Dictionary.meaning self.old.below)) at bytes.now }
        ensures axis { self.new.axis ≡ self.old.axis }
        ensures below { D.Dictionary.meaning self.new.below ≡ below_after (axis_number self.old.axis) (D.Dictionary.meaning self.old.below) at bytes.now }
    {
        let at = self.unshift(at)?; // Where it is refused, what lies below is left alone.
        self.below.write(at, bytes)
    }
}
