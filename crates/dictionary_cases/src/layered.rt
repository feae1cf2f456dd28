// Shift and Pair, one inside the other.
use crate::cases::{at, length, number};
use dictionary::{Dictionary, Fault};
use layers::{Axis, AxisRefusal, Pair, Shift};
use std::test::Fail;
use tables::Numbers;

// Axis 7 is the last; 8 is refused by number 5.
#[test]
fn axes(rt: HostRuntime) -> Result<(), Fail> {
    assert_eq!(rt; Axis::try_from(7)?.number(), 7);
    assert_eq!(rt; Axis::try_from(7), Ok(Axis::A7));
    assert_eq!(rt; Axis::try_from(8), Err(AxisRefusal::Over7));
    assert_eq!(rt; AxisRefusal::Over7.number(), 5);
    Ok(())
}

// Axis 1 shows 6000 to 67FF at 6800 to 6FFF, and nothing else.
#[test]
fn shifted(rt: HostRuntime) -> Result<(), Fail> {
    let mut records = [
        number(0x6040, 0, 2, 15),
        number(0x67FF, 1, 1, 3),
        number(0x5FFF, 1, 1, 3),
        number(0x6800, 1, 1, 3),
    ];
    let mut shift = Shift::new(Axis::try_from(1)?, Numbers::new(&mut records));
    assert_eq!(rt; length(&shift, at(0x6840, 0)), Ok(2));
    assert_eq!(rt; shift.look(at(0x6840, 1)), Err(Fault::NoSubindex));
    assert!(rt; shift.look(at(0x6FFF, 1)).is_ok());
    assert_eq!(rt; shift.look(at(0x7000, 1)), Err(Fault::NoIndex));
    assert_eq!(rt; shift.look(at(0x67FF, 1)), Err(Fault::NoIndex));
    assert_eq!(rt; shift.write(at(0x6040, 0), &[1, 0]), Err(Fault::NoIndex));
    assert_eq!(rt; shift.write(at(0x6840, 0), &[2, 1]), Ok(()));
    drop(shift);
    assert_eq!(rt; records[0].value, 0x0102);
    Ok(())
}

// The first has every index that it knows: a subindex that it lacks is absent, even if the second has it.
#[test]
fn paired(rt: HostRuntime) -> Result<(), Fail> {
    let mut own = [number(0x6840, 5, 1, 1)];
    let mut records = [number(0x6040, 0, 2, 15), number(0x6041, 0, 2, 16)];
    let shift = Shift::new(Axis::try_from(1)?, Numbers::new(&mut records));
    let mut pair = Pair {
        first: Numbers::new(&mut own),
        second: shift,
    };
    assert_eq!(rt; length(&pair, at(0x6840, 5)), Ok(1));
    assert_eq!(rt; pair.look(at(0x6840, 0)), Err(Fault::NoSubindex));
    assert_eq!(rt; pair.write(at(0x6840, 0), &[9, 9]), Err(Fault::NoSubindex));
    assert_eq!(rt; pair.write(at(0x6841, 0), &[9, 0]), Ok(()));
    let mut memory = [0u8; 2];
    assert_eq!(rt; pair.read(at(0x6841, 0), &mut memory), Ok(2));
    assert!(rt; memory == [9, 0]);
    assert_eq!(rt; pair.look(at(0x6842, 0)), Err(Fault::NoIndex));
    drop(pair);
    assert_eq!(rt; records[0].value, 15);
    assert_eq!(rt; records[1].value, 9);
    Ok(())
}
