// The search by address, for any record that carries one.
ghost use Rattle.std.specs.Prelude.{◌≡◌, ◌<◌, ◌≤◌, length, IfOk, MatchResult};
ghost use Rattle.tables.specs.Tables.{Key, front, Located, Absent};

use dictionary::{Address, Fault};

// How many records of a table are looked at.
const LIMIT: usize = 256;

// The position of a record in its table, and its place in the pool.
#[derive(Clone, Copy, PartialEq, Eq, Debug)]
pub struct Found {
    pub position: usize,
    pub place: usize,
}

pub trait Addressed {
    ghost key: { Self → Key };

    fn address(&self) -> Address
        ensures { result ≡ (key self.now).address };

    // How many bytes of the pool the record takes up.
    fn extent(&self) -> u32
        ensures { result ≡ (key self.now).extent };

    // Whether it counts, at this place of a pool so long.
    fn counts(&self, place: usize, pool: usize) -> bool
        ensures { result ≡ (key self.now).counts place pool };
}

// The records that are looked at.
#[tactic(auto, using(std::proofs::lemmas::List::take_min))]
fn first<R>(records: &[R]) -> &[R]
    ensures front { result.now ≡ front records.now }
    ensures few { length result.now ≤ 256 }
    ensures inside { length result.now ≤ length records.now }
{
    &records[..LIMIT.min(records.len())]
}

// Of the first 256 records, the first that counts and has the address.
pub fn find<R: Addressed>(records: &[R], at: Address, pool: usize) -> Result<Found, Fault>
    ensures meant { MatchResult result (Located R.Addressed.key pool (front records.now) at) (Absent R.Addressed.key pool (front records.now) at) }
    ensures inside { IfOk result (λ f. f.position < length records.now) }
{
    let front = first(records);
    let mut place = 0;
    let mut absent = Fault::NoIndex;
    // The project names this form: a loop over the records with their index, to the first that counts and has the address.
    for (position, record) in front.iter().enumerate() {
        let here = record.address();
        if record.counts(place, pool) && here.index == at.index {
            if here.subindex == at.subindex {
                return Ok(Found { position, place });
            }
            absent = Fault::NoSubindex;
        }
        place += record.extent() as usize;
    }
    Err(absent)
}
