// Numbers: widths, signs, ranges, access, records that do not count, equal addresses, the 257th record.
use crate::cases::{at, length, number, ranged};
use dictionary::{Access, Dictionary, Fault};
use tables::{NumberRecord, Numbers};

// The low bytes up to the width are read, low byte first, and the memory past them stays.
#[test]
fn widths(rt: HostRuntime) {
    let mut records = [
        number(0x2000, 1, 1, 0x1234_56AB),
        number(0x2000, 2, 2, 0x1234_56AB),
        number(0x2000, 4, 4, 0x1234_56AB),
    ];
    let numbers = Numbers::new(&mut records);
    let mut memory = [7u8; 6];
    assert_eq!(rt; numbers.read(at(0x2000, 1), &mut memory), Ok(1));
    assert!(rt; memory == [0xAB, 7, 7, 7, 7, 7]);
    assert_eq!(rt; numbers.read(at(0x2000, 2), &mut memory), Ok(2));
    assert!(rt; memory == [0xAB, 0x56, 7, 7, 7, 7]);
    assert_eq!(rt; numbers.read(at(0x2000, 4), &mut memory), Ok(4));
    assert!(rt; memory == [0xAB, 0x56, 0x34, 0x12, 7, 7]);
    assert_eq!(rt; length(&numbers, at(0x2000, 4)), Ok(4));
    assert_eq!(rt;
        numbers.read(at(0x2001, 1), &mut memory),
        Err(Fault::NoIndex)
    );
    assert_eq!(rt;
        numbers.read(at(0x2000, 3), &mut memory),
        Err(Fault::NoSubindex)
    );
}

// A value of 2 bytes needs 2 bytes of memory; too little memory stays as it was.
#[test]
fn memory(rt: HostRuntime) {
    let mut records = [
        number(0x2000, 1, 2, 0x0201),
        NumberRecord {
            access: Access::Wo,
            ..number(0x2000, 2, 2, 0)
        },
    ];
    let numbers = Numbers::new(&mut records);
    let mut two = [7u8; 2];
    assert_eq!(rt; numbers.read(at(0x2000, 1), &mut two), Ok(2));
    assert!(rt; two == [1, 2]);
    let mut one = [7u8; 1];
    assert_eq!(rt;
        numbers.read(at(0x2000, 1), &mut one),
        Err(Fault::ShortMemory)
    );
    assert!(rt; one == [7]);
    assert_eq!(rt;
        numbers.read(at(0x2000, 2), &mut one),
        Err(Fault::WriteOnly)
    );
    assert_eq!(rt; length(&numbers, at(0x2000, 2)), Ok(2));
}

// From 0 to 5,000: both ends are taken, 5,001 is not; lengths come before values; a write clears the bytes past the width.
#[test]
fn range(rt: HostRuntime) {
    let mut records = [ranged(at(0x3200, 1), 2, false, 0, 5000, 0xFFFF_03E8)];
    let mut numbers = Numbers::new(&mut records);
    assert_eq!(rt;
        numbers.write(at(0x3200, 1), &[0x89, 0x13]),
        Err(Fault::OverHigh)
    );
    assert_eq!(rt;
        numbers.write(at(0x3200, 1), &[0xFF, 0xFF, 0]),
        Err(Fault::TooLong)
    );
    assert_eq!(rt; numbers.write(at(0x3200, 1), &[0xFF]), Err(Fault::TooShort));
    assert_eq!(rt; numbers.write(at(0x3200, 1), &[]), Err(Fault::TooShort));
    let mut memory = [0u8; 2];
    assert_eq!(rt; numbers.read(at(0x3200, 1), &mut memory), Ok(2));
    assert!(rt; memory == [0xE8, 0x03]);
    assert_eq!(rt; numbers.write(at(0x3200, 1), &[0x88, 0x13]), Ok(()));
    drop(numbers);
    assert_eq!(rt; records[0].value, 0x1388);
}

// Two's complement at each width, at both ends of the range.
#[test]
fn signs(rt: HostRuntime) {
    let mut records = [
        ranged(at(0x2000, 1), 1, true, -5, 5, 0),
        ranged(at(0x2000, 2), 2, true, -32768, 32767, 0),
        ranged(at(0x2000, 4), 4, true, -0x8000_0000, 0x7fff_ffff, 0),
    ];
    let mut numbers = Numbers::new(&mut records);
    assert_eq!(rt; numbers.write(at(0x2000, 1), &[0xFB]), Ok(()));
    assert_eq!(rt; numbers.write(at(0x2000, 1), &[0xFA]), Err(Fault::UnderLow));
    assert_eq!(rt; numbers.write(at(0x2000, 1), &[0x06]), Err(Fault::OverHigh));
    assert_eq!(rt; numbers.write(at(0x2000, 2), &[0x00, 0x80]), Ok(()));
    assert_eq!(rt; numbers.write(at(0x2000, 2), &[0xFF, 0x7F]), Ok(()));
    assert_eq!(rt; numbers.write(at(0x2000, 4), &[0, 0, 0, 0x80]), Ok(()));
    drop(numbers);
    assert_eq!(rt; records[0].value, 0xFB);
    assert_eq!(rt; records[1].value, 0x7FFF);
    assert_eq!(rt; records[2].value, 0x8000_0000);
}

// Read only comes before the length; with low above high, over high is looked at before under low.
#[test]
fn order(rt: HostRuntime) {
    let mut records = [
        NumberRecord {
            access: Access::Ro,
            ..number(0x2000, 1, 1, 3)
        },
        ranged(at(0x2000, 2), 1, false, 10, 5, 0),
    ];
    let mut numbers = Numbers::new(&mut records);
    assert_eq!(rt; numbers.write(at(0x2000, 1), &[1, 2]), Err(Fault::ReadOnly));
    assert_eq!(rt; numbers.write(at(0x2000, 2), &[7]), Err(Fault::OverHigh));
    assert_eq!(rt; numbers.write(at(0x2000, 2), &[3]), Err(Fault::UnderLow));
    assert_eq!(rt; numbers.write(at(0x2000, 9), &[]), Err(Fault::NoSubindex));
    assert_eq!(rt; numbers.write(at(0x2009, 1), &[]), Err(Fault::NoIndex));
}

// A record of width 3, or with low or high out of bounds, does not count; of equal addresses the first that counts is meant.
#[test]
fn counting(rt: HostRuntime) {
    let mut records = [
        number(0x2002, 1, 3, 0),
        number(0x2003, 1, 2, 1),
        number(0x2003, 1, 1, 9),
        ranged(at(0x2004, 1), 1, true, -0x8000_0001, 5, 0),
        number(0x2004, 1, 1, 5),
        ranged(at(0x2005, 1), 4, false, 0, 0x1_0000_0000, 0),
        ranged(at(0x2006, 1), 4, false, -0x8000_0000, 0xffff_ffff, 8),
    ];
    let mut numbers = Numbers::new(&mut records);
    assert_eq!(rt; numbers.look(at(0x2002, 1)), Err(Fault::NoIndex));
    assert_eq!(rt; length(&numbers, at(0x2003, 1)), Ok(2));
    assert_eq!(rt; numbers.write(at(0x2003, 1), &[5, 0]), Ok(()));
    let mut memory = [0u8; 1];
    assert_eq!(rt; numbers.read(at(0x2004, 1), &mut memory), Ok(1));
    assert!(rt; memory == [5]);
    assert_eq!(rt; numbers.look(at(0x2005, 1)), Err(Fault::NoIndex));
    assert_eq!(rt; length(&numbers, at(0x2006, 1)), Ok(4));
    drop(numbers);
    assert_eq!(rt; records[1].value, 5);
    assert_eq!(rt; records[2].value, 9);
}

// The 256th record is looked at, the 257th is not.
#[test]
fn limit(rt: HostRuntime) {
    let mut records = [number(0x2100, 1, 1, 0); 257];
    records[255] = number(0x2101, 1, 1, 0);
    records[256] = number(0x2102, 1, 1, 0);
    let numbers = Numbers::new(&mut records);
    assert!(rt; numbers.look(at(0x2101, 1)).is_ok());
    assert_eq!(rt; numbers.look(at(0x2102, 1)), Err(Fault::NoIndex));
}
