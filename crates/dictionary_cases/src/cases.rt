// What the cases share.
ghost use Rattle.std.specs.Prelude.{◌≡◌, pos, false};
ghost use Rattle.std.specs.Result.{result_map_both};
ghost use Rattle.dictionary.specs.Calls.{look_answer};

use dictionary::{Access, Address, Dictionary, Fault};
use tables::{NumberRecord, RunRecord};

pub fn at(index: u16, subindex: u8) -> Address
    ensures { result ≡ record { index = index; subindex = subindex } }
{
    Address { index, subindex }
}

// The value length that a look tells.
pub fn length<D: Dictionary>(d: &D, at: Address) -> Result<usize, Fault>
    ensures { result ≡ result_map_both (λ told. told.length) (λ e. e) (look_answer (D.meaning d.now) at) }
{
    Ok(d.look(at)?.length)
}

// Each refusal has the code of CiA 301.
#[test]
fn codes(rt: HostRuntime) {
    assert_eq!(rt; Fault::NoIndex.code(), 0x0602_0000);
    assert_eq!(rt; Fault::NoSubindex.code(), 0x0609_0011);
    assert_eq!(rt; Fault::WriteOnly.code(), 0x0601_0001);
    assert_eq!(rt; Fault::ReadOnly.code(), 0x0601_0002);
    assert_eq!(rt; Fault::NotNumber.code(), 0x0607_0010);
    assert_eq!(rt; Fault::TooLong.code(), 0x0607_0012);
    assert_eq!(rt; Fault::TooShort.code(), 0x0607_0013);
    assert_eq!(rt; Fault::OverHigh.code(), 0x0609_0031);
    assert_eq!(rt; Fault::UnderLow.code(), 0x0609_0032);
    assert_eq!(rt; Fault::ShortMemory.code(), 0x0504_0005);
}

// A number without sign that takes every value of its width.
pub fn number(index: u16, subindex: u8, width: u8, value: u32) -> NumberRecord
    ensures { result ≡ record { address = record { index = index; subindex = subindex }; width = width; signed = false; access = Access.Rw; low = pos 0; high = pos 0xffff_ffff; value = value } }
{
    ranged(at(index, subindex), width, false, 0, 0xffff_ffff, value)
}

// A record by its fields: a struct of them would be the record itself.
pub fn ranged(
    address: Address,
    width: u8,
    signed: bool,
    low: i64,
    high: i64,
    value: u32,
) -> NumberRecord
    ensures { result ≡ record { address = address; width = width; signed = signed; access = Access.Rw; low = low; high = high; value = value } }
{
    NumberRecord {
        address,
        width,
        signed,
        access: Access::Rw,
        low,
        high,
        value,
    }
}

pub fn run(index: u16, subindex: u8, access: Access, capacity: u32, length: u32) -> RunRecord
    ensures { result ≡ record { address = record { index = index; subindex = subindex }; access = access; capacity = capacity; length = length } }
{
    RunRecord {
        address: at(index, subindex),
        access,
        capacity,
        length,
    }
}
