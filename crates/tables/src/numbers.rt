// A dictionary of numbers: a table of records that is changed in place.
ghost use Rattle.std.specs.Prelude.{◌≡◌};
ghost use Rattle.dictionary.specs.Calls.{write_answer, after_write};
ghost use Rattle.tables.specs.NumberTables.{is_width_lem, in_limits_lem, number_key, number_look, number_object, number_objects, number_stored, NumberWritten};
ghost use Rattle.tables.specs.Soundness.{number_sound};
ghost use Rattle.tables.specs.Storing.{number_tells, number_stores};

use crate::search::Addressed;
use crate::table::{Record, look, read, write};
use crate::values::{copy_out, unsigned};
use dictionary::{Access, Address, Dictionary, Fault, Look, Shape};

const LOWEST: i64 = -0x8000_0000;

const HIGHEST: i64 = 0xffff_ffff;

// It counts if its width is 1, 2 or 4 and low and high lie from −2^31 to 2^32 − 1.
#[derive(Clone, Copy, PartialEq, Eq, Debug)]
pub struct NumberRecord {
    pub address: Address,
    pub width: u8,
    pub signed: bool,
    pub access: Access,
    pub low: i64,
    pub high: i64,
    // The low bytes up to the width count.
    pub value: u32,
}

impl Addressed for NumberRecord {
    ghost key = { number_key };

    fn address(&self) -> Address {
        self.address
    }

    fn extent(&self) -> u32 {
        0
    }

    fn counts(&self, place: usize, pool: usize) -> bool {
        is_width(self.width) && in_limits(self.low) && in_limits(self.high)
    }
}

fn is_width(width: u8) -> bool
    ensures { result ≡ is_width_lem width }
{
    matches!(width, 1 | 2 | 4)
}

fn in_limits(bound: i64) -> bool
    ensures { result ≡ in_limits_lem bound }
{
    (LOWEST..=HIGHEST).contains(&bound)
}

impl Record for NumberRecord {
    ghost object = { λ pool r place. number_object r };

    ghost told = { number_look };

    ghost stored = { number_stored };

    ghost filled = { λ pool place v. pool };

    ghost tells = { λ pool r place. number_tells r };

    ghost stores = { number_stores };

    fn look(&self) -> Look {
        Look {
            access: self.access,
            shape: Shape::Number {
                width: self.width,
                signed: self.signed,
                low: self.low,
                high: self.high,
            },
            length: self.width as usize,
        }
    }

    fn read(&self, place: usize, pool: &[u8], memory: &mut [u8]) -> Result<usize, Fault> {
        let bytes = self.value.to_le_bytes();
        let width = self.width as usize;
        copy_out(self.look(), &bytes[..width], memory)
    }

    // The bytes of the value past the width are cleared.
    fn store(&mut self, place: usize, pool: &mut [u8], bytes: &[u8]) {
        self.value = unsigned(bytes);
    }
}

// The dictionary of the first 256 records that count. No one struct with `Runs`: numbers have no pool, and the trait of both would be public.
#[derive(Drop)]
pub struct Numbers<'a> {
    records: &'a mut [NumberRecord],
}

impl<'a> Numbers<'a> {
    pub fn new(records: &'a mut [NumberRecord]) -> Numbers<'a>
        ensures { result.records.now ≡ records.old }
    {
        Numbers { records }
    }
}

impl Dictionary for Numbers<'_> {
    ghost meaning = { λ n. number_objects n.records.now };

    ghost sound = { λ n. number_sound n.records.now };

    fn look(&self, at: Address) -> Result<Look, Fault> {
        look(self.records, &[], at)
    }

    fn read(&self, at: Address, memory: &mut [u8]) -> Result<usize, Fault> {
        read(self.records, &[], at, memory)
    }

    fn write(&mut self, at: Address, bytes: &[u8]) -> Result<(), Fault>
        ensures answer { result ≡ write_answer (number_objects self.old.records.now) at bytes.now }
        ensures after { number_objects self.new.records.now ≡ after_write (number_objects self.old.records.now) at bytes.now }
        ensures records { NumberWritten self.old.records.now self.new.records.now at bytes.now }
    {
        write(self.records, &mut [], at, bytes)
    }
}
