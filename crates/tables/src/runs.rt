// A dictionary of runs of bytes: a table of records over one pool, both changed in place.
ghost use Rattle.std.specs.Prelude.{◌≡◌, length};
ghost use Rattle.dictionary.specs.Calls.{write_answer, after_write};
ghost use Rattle.tables.specs.RunTables.{run_key, run_look, run_object, run_objects, with_length, laid, RunWritten};
ghost use Rattle.tables.specs.Soundness.{run_sound};
ghost use Rattle.tables.specs.Storing.{run_tells, run_stores};

use crate::search::Addressed;
use crate::table::{Record, look, read, write};
use crate::values::copy_out;
use dictionary::{Access, Address, Dictionary, Fault, Look, Shape};

// The largest capacity of a run that counts.
const LARGEST: u32 = 4096;

// It counts if its capacity is at most 4,096, its length no more than the capacity, and its end inside the pool.
#[derive(Clone, Copy, PartialEq, Eq, Debug)]
pub struct RunRecord {
    pub address: Address,
    pub access: Access,
    pub capacity: u32,
    pub length: u32,
}

impl Addressed for RunRecord {
    ghost key = { run_key };

    fn address(&self) -> Address {
        self.address
    }

    fn extent(&self) -> u32 {
        self.capacity
    }

    fn counts(&self, place: usize, pool: usize) -> bool {
        self.capacity <= LARGEST
            && self.length <= self.capacity
            && place <= pool
            && self.capacity as usize <= pool - place
    }
}

impl Record for RunRecord {
    ghost object = { run_object };

    ghost told = { run_look };

    ghost stored = { λ v r. with_length (length v) r };

    ghost filled = { laid };

    ghost tells = { run_tells };

    ghost stores = { run_stores };

    fn look(&self) -> Look {
        Look {
            access: self.access,
            shape: Shape::Run {
                capacity: self.capacity,
            },
            length: self.length as usize,
        }
    }

    fn read(&self, place: usize, pool: &[u8], memory: &mut [u8]) -> Result<usize, Fault> {
        let end = place + self.length as usize;
        copy_out(self.look(), &pool[place..end], memory)
    }

    fn store(&mut self, place: usize, pool: &mut [u8], bytes: &[u8]) {
        let end = place + bytes.len();
        pool[place..end].copy_from_slice(bytes);
        self.length = bytes.len() as u32;
    }
}

// The dictionary of the first 256 records that count, with their bytes in one pool.
#[derive(Drop)]
pub struct Runs<'a> {
    records: &'a mut [RunRecord],
    pool: &'a mut [u8],
}

impl<'a> Runs<'a> {
    pub fn new(records: &'a mut [RunRecord], pool: &'a mut [u8]) -> Runs<'a>
        ensures { (result.records.now ≡ records.old) × (result.pool.now ≡ pool.old) }
    {
        Runs { records, pool }
    }
}

impl Dictionary for Runs<'_> {
    ghost meaning = { λ s. run_objects s.records.now s.pool.now };

    ghost sound = { λ s. run_sound s.records.now s.pool.now };

    fn look(&self, at: Address) -> Result<Look, Fault> {
        look(self.records, self.pool, at)
    }

    fn read(&self, at: Address, memory: &mut [u8]) -> Result<usize, Fault> {
        read(self.records, self.pool, at, memory)
    }

    fn write(&mut self, at: Address, bytes: &[u8]) -> Result<(), Fault>
        ensures answer { result ≡ write_answer (run_objects self.old.records.now self.old.pool.now) at bytes.now }
        ensures after { run_objects self.new.records.now self.new.pool.now ≡ after_write (run_objects self.old.records.now self.old.pool.now) at bytes.now }
        ensures table { RunWritten self.old.records.now self.new.records.now self.old.pool.now self.new.pool.now at bytes.now }
    {
        write(self.records, self.pool, at, bytes)
    }
}
