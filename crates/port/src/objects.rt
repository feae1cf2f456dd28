// The commands on one object, and what a chain asks of its object when it begins.
ghost use Rattle.std.specs.Prelude.{◌≤◌, length, IfOk, OnOk};
ghost use Rattle.command.specs.declared.commands.Command.TheVariants.{ReadObject, InitiateSegmentedRead, WriteObject, InitiateSegmentedWrite};
ghost use Rattle.dictionary.specs.Objects.{value};
ghost use Rattle.port.specs.Objects.{Tells, Answers, Writes, Stages};

use crate::chains::LONGEST_VALUE;
use command::{Answer, Fault};
use dictionary::{Address, Dictionary, Shape};

// The value of a number, which the dictionary lays into its place in the answer.
#[tactic(auto, unfolding(crate::specs::Objects::Tells, crate::specs::Objects::Answers))]
pub(crate) fn read_object<D: Dictionary>(dict: &D, at: Address) -> Result<Answer, Fault>
    ensures { Answers (ReadObject at) (D.Dictionary.meaning dict.now) result }
{
    readable_number(dict, at)?;
    Ok(Answer::value(dict, at)?)
}

// Whether the object at an address is a number that may be read.
#[tactic(auto, using(crate::proofs::ObjectCalls::reads_number))]
fn readable_number<D: Dictionary>(dict: &D, at: Address) -> Result<(), dictionary::Fault>
    ensures { Tells (ReadObject at) (D.Dictionary.meaning dict.now) result tt }
{
    let found = dict.look(at)?;
    found.access.readable()?;
    match found.shape {
        Shape::Number { .. } => Ok(()),
        Shape::Run { .. } => Err(dictionary::Fault::NotNumber),
    }
}

// Writes the number that the command brings, and brings nothing back.
#[tactic(auto, unfolding(crate::specs::Objects::Tells, crate::specs::Objects::Answers))]
pub(crate) fn write_object<D: Dictionary>(
    dict: &mut D,
    at: Address,
    number: u32,
) -> Result<Answer, Fault>
    ensures answer { Answers (WriteObject at number) (D.Dictionary.meaning dict.old) result }
    ensures after { Writes (WriteObject at number) (D.Dictionary.meaning dict.old) (D.Dictionary.meaning dict.new) }
{
    write_number(dict, at, number)?;
    Ok(Answer::accepted())
}

// The low bytes up to the width are written, and the others ignored.
#[tactic(auto, using(crate::proofs::ObjectCalls::writes_number))]
fn write_number<D: Dictionary>(
    dict: &mut D,
    at: Address,
    number: u32,
) -> Result<(), dictionary::Fault>
    ensures answer { Tells (WriteObject at number) (D.Dictionary.meaning dict.old) result tt }
    ensures after { Writes (WriteObject at number) (D.Dictionary.meaning dict.old) (D.Dictionary.meaning dict.new) }
{
    let found = dict.look(at)?;
    found.access.writable()?;
    let Shape::Number { width, .. } = found.shape else {
        return Err(dictionary::Fault::NotNumber);
    };
    dict.write(at, &number.to_le_bytes()[0..usize::from(width)])
}

// Whether the object at an address takes a value of so many bytes.
#[tactic(auto, using(crate::proofs::ObjectCalls::takes_value))]
pub(crate) fn takes_length<D: Dictionary>(
    dict: &D,
    at: Address,
    declared: u32,
) -> Result<(), dictionary::Fault>
    ensures answer { Tells (InitiateSegmentedWrite at declared) (D.Dictionary.meaning dict.now) result tt }
    ensures small { OnOk result (declared ≤ 4096) }
{
    let found = dict.look(at)?;
    found.access.writable()?;
    found.shape.takes_length(declared as usize)
}

// Copies the whole value at an address into the staging memory, which has room for any.
pub(crate) fn stage<D: Dictionary>(
    dict: &D,
    at: Address,
    staging: &mut [u8; LONGEST_VALUE],
) -> Result<usize, dictionary::Fault>
    ensures answer { Tells (InitiateSegmentedRead at) (D.Dictionary.meaning dict.now) result (length (value (D.Dictionary.meaning dict.now) at)) }
    ensures staging { Stages (InitiateSegmentedRead at) (D.Dictionary.meaning dict.now) at staging.old staging.new }
    ensures small { IfOk result (λ n. n ≤ 4096) }
{
    dict.read(at, staging)
}
