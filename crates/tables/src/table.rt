// Tables of records over a pool, and the calls that every table answers alike. Records and pool are parameters of their own,
// since a write lends both for writing, and a look and a read lend neither so.
ghost use Rattle.std.specs.Prelude.{◌≡◌, ℕ, ◌<◌, true, length, Some, slice_index};
ghost use Rattle.dictionary.specs.declared.Look.{Look};
ghost use Rattle.dictionary.specs.Calls.{read_of, memory_of, look_answer, read_answer, memory_after_read, write_answer, after_write};
ghost use Rattle.dictionary.specs.Objects.{Bytes, Object, LengthAllowed, entry_of};
ghost use Rattle.tables.specs.Tables.{objects_of, TellsOf, Stores, Written};

use crate::search::{Addressed, find};
use crate::values::admit;
use dictionary::{Address, Fault, Look};

// A record of a table: where it counts, it stands for an object.
pub(crate) trait Record: Addressed {
    // The object, by the bytes of the pool and the record's place there.
    ghost object: { Bytes → Self → ℕ → Object };

    // What is told of the object.
    ghost told: { Self → Look };

    // The record, and the bytes of the pool, with these bytes as the value.
    ghost stored: { Bytes → Self → Self };

    ghost filled: { Bytes → ℕ → Bytes → Bytes };

    fn look(&self) -> Look
        ensures { result ≡ told self.now };

    // Copies the value to the front of the memory.
    fn read(&self, place: usize, pool: &[u8], memory: &mut [u8]) -> Result<usize, Fault>
        requires { (Self.key self.now).counts place (length pool.now) ≡ true }
        ensures answer { result ≡ read_of (entry_of (Some (object pool.now self.now place))) (object pool.now self.now place).value memory.old }
        ensures memory { memory.new ≡ memory_of (entry_of (Some (object pool.now self.now place))) (object pool.now self.now place).value memory.old };

    // Makes the value these bytes.
    fn store(&mut self, place: usize, pool: &mut [u8], bytes: &[u8])
        requires counts { (Self.key self.old).counts place (length pool.old) ≡ true }
        requires length { LengthAllowed (told self.old).shape (length bytes.now) }
        ensures record { self.new ≡ stored bytes.now self.old }
        ensures pool { pool.new ≡ filled pool.old place bytes.now };

    // What is told is so, and the shape is one that a dictionary may have.
    ghost tells: { (pool : Bytes) (r : Self) (place : ℕ) → (Self.key r).counts place (length pool) ≡ true → TellsOf (object pool r place) (told r) };

    // What is stored is held, and nothing else changes.
    ghost stores: { (pool : Bytes) (r : Self) (place : ℕ) (v : Bytes) → (Self.key r).counts place (length pool) ≡ true → LengthAllowed (told r).shape (length v) → ((i : ℕ) → slice_index v i < 256) → Stores Self.key object pool r place v (stored v r) (filled pool place v) };
}

pub(crate) fn look<R: Record>(records: &[R], pool: &[u8], at: Address) -> Result<Look, Fault>
    ensures { result ≡ look_answer (objects_of R.key R.object records.now pool.now) at }
{
    let found = find(records, at, pool.len())?;
    Ok(records[found.position].look())
}

pub(crate) fn read<R: Record>(
    records: &[R],
    pool: &[u8],
    at: Address,
    memory: &mut [u8],
) -> Result<usize, Fault>
    ensures answer { result ≡ read_answer (objects_of R.key R.object records.now pool.now) at memory.old }
    ensures memory { memory.new ≡ memory_after_read (objects_of R.key R.object records.now pool.now) at memory.old }
{
    let found = find(records, at, pool.len())?;
    records[found.position].read(found.place, pool, memory)
}

// The value of the record at an address, written in place.
pub(crate) fn write<R: Record>(
    records: &mut [R],
    pool: &mut [u8],
    at: Address,
    bytes: &[u8],
) -> Result<(), Fault>
    ensures answer { result ≡ write_answer (objects_of R.key R.object records.old pool.old) at bytes.now }
    ensures after { objects_of R.key R.object records.new pool.new ≡ after_write (objects_of R.key R.object records.old pool.old) at bytes.now }
    ensures written { Written R.key R.object R.stored R.filled records.old records.new pool.old pool.new at bytes.now }
{
    let found = find(records, at, pool.len())?;
    admit(records[found.position].look(), bytes)?;
    records[found.position].store(found.place, pool, bytes);
    Ok(())
}
