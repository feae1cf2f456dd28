// Runs: places in the pool, capacities, empty values, what a write leaves.
use crate::cases::{at, length, run};
use dictionary::{Access, Dictionary, Fault};
use tables::{RunRecord, Runs};

// Five runs over a pool of 8 bytes: the last one ends past the pool.
fn five() -> [RunRecord; 5] {
    [
        run(0x3000, 1, Access::Rw, 4, 2),
        run(0x3000, 2, Access::Rw, 0, 0),
        run(0x3000, 3, Access::Ro, 4, 4),
        run(0x3000, 4, Access::Wo, 0, 0),
        run(0x3000, 5, Access::Rw, 1, 0),
    ]
}

#[test]
fn reads(rt: HostRuntime) {
    let mut records = five();
    let mut pool = [1, 2, 3, 4, 5, 6, 7, 8];
    let runs = Runs::new(&mut records, &mut pool);
    let mut memory = [9u8; 4];
    assert_eq!(rt; runs.read(at(0x3000, 1), &mut memory), Ok(2));
    assert!(rt; memory == [1, 2, 9, 9]);
    assert_eq!(rt; runs.read(at(0x3000, 3), &mut memory), Ok(4));
    assert!(rt; memory == [5, 6, 7, 8]);
    assert_eq!(rt;
        runs.read(at(0x3000, 3), &mut memory[0..3]),
        Err(Fault::ShortMemory)
    );
    assert_eq!(rt; runs.read(at(0x3000, 2), &mut []), Ok(0));
    assert_eq!(rt; runs.read(at(0x3000, 4), &mut []), Err(Fault::WriteOnly));
    assert_eq!(rt; length(&runs, at(0x3000, 4)), Ok(0));
    assert_eq!(rt; runs.look(at(0x3000, 5)), Err(Fault::NoSubindex));
    assert_eq!(rt; runs.look(at(0x3001, 1)), Err(Fault::NoIndex));
}

// Only the value's bytes and the length change; a shorter value leaves the bytes past it.
#[test]
fn writes(rt: HostRuntime) {
    let mut records = five();
    let mut pool = [1, 2, 3, 4, 5, 6, 7, 8];
    let mut runs = Runs::new(&mut records, &mut pool);
    assert_eq!(rt; runs.write(at(0x3000, 1), &[10, 11, 12]), Ok(()));
    assert_eq!(rt; runs.write(at(0x3000, 1), &[13]), Ok(()));
    assert_eq!(rt;
        runs.write(at(0x3000, 1), &[1, 2, 3, 4, 5]),
        Err(Fault::TooLong)
    );
    assert_eq!(rt; runs.write(at(0x3000, 2), &[]), Ok(()));
    assert_eq!(rt; runs.write(at(0x3000, 2), &[1]), Err(Fault::TooLong));
    assert_eq!(rt;
        runs.write(at(0x3000, 3), &[1, 2, 3, 4, 5]),
        Err(Fault::ReadOnly)
    );
    assert_eq!(rt; length(&runs, at(0x3000, 1)), Ok(1));
    drop(runs);
    assert!(rt; pool == [13, 11, 12, 4, 5, 6, 7, 8]);
}

// A run that does not count takes up its place all the same, and the sum of capacities never wraps.
#[test]
fn places(rt: HostRuntime) {
    let mut records = [
        run(0x3100, 1, Access::Rw, 2, 3),
        run(0x3100, 2, Access::Rw, 2, 2),
        run(0x3101, 1, Access::Rw, 0xffff_ffff, 0),
        run(0x3101, 2, Access::Rw, 0xffff_ffff, 0),
        run(0x3101, 3, Access::Rw, 0, 0),
    ];
    let mut pool = [1, 2, 3, 4];
    let runs = Runs::new(&mut records, &mut pool);
    let mut memory = [0u8; 2];
    assert_eq!(rt; runs.read(at(0x3100, 2), &mut memory), Ok(2));
    assert!(rt; memory == [3, 4]);
    assert_eq!(rt; runs.look(at(0x3100, 1)), Err(Fault::NoSubindex));
    assert_eq!(rt; runs.look(at(0x3101, 3)), Err(Fault::NoIndex));
}

// A run of capacity 4,096 counts, one of 4,097 does not, even where the pool has room for it.
#[test]
fn capacities(rt: HostRuntime) {
    let mut pool = [7; 4097];
    let mut largest = [run(0x3200, 1, Access::Rw, 4096, 1)];
    let runs = Runs::new(&mut largest, &mut pool);
    assert_eq!(rt; length(&runs, at(0x3200, 1)), Ok(1));
    drop(runs);
    let mut over = [run(0x3200, 1, Access::Rw, 4097, 1)];
    let runs = Runs::new(&mut over, &mut pool);
    assert_eq!(rt; runs.look(at(0x3200, 1)), Err(Fault::NoIndex));
}
