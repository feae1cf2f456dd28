// Frames written and heard.
use crate::opcode_of;
use std::process::Abort;
use std::test::Fail;
use wire::{Body, Receiver, Refusal, checksum, lay, write};

const UNUSED: u8 = 0x55;

// ReadObject of 30B0:00 at node 1, as the EPOS4 Communication Guide prints it.
const REQUEST: [u8; 10] = [0x90, 0x02, 0x60, 0x02, 0x01, 0xB0, 0x30, 0x00, 0x2E, 0x62];

// Takes the bytes and compares how many bodies they complete, and the OpCode of the last that is heard.
fn hears(
    rt: &(impl Abort + Alloc),
    bytes: &[u8],
    bodies: usize,
    opcode: Option<u8>,
) -> Result<(), Fail> {
    let mut memory = [UNUSED; 514];
    let mut receiver = Receiver::new();
    let mut heard = Vec::new(rt.alloc());
    for b in bytes {
        if let Some(n) = receiver.take(*b, &mut memory)? {
            heard.push(memory.get(0..n).and_then(opcode_of))?;
        }
    }
    assert_eq!(rt; heard.len(), bodies);
    assert_eq!(rt; heard.last().copied().flatten(), opcode);
    Ok(())
}

#[test]
fn published_frame(rt: HostRuntime) -> Result<(), Fail> {
    let mut memory = [UNUSED; 1030];
    assert_eq!(rt; write(0x60, &[0x01, 0xB0, 0x30, 0x00], &mut memory)?, 10);
    assert!(rt; memory.starts_with(&REQUEST));
    assert_eq!(rt; memory.get(10).copied(), Some(UNUSED));
    assert_eq!(rt; checksum(&[0x60, 0x02, 0x01, 0xB0, 0x30, 0x00]), 0x622E);
    hears(&rt, &REQUEST, 1, Some(0x60))
}

#[test]
fn longest_frame(rt: HostRuntime) -> Result<(), Fail> {
    let data = [0x90; 510];
    let mut memory = [UNUSED; 1030];
    assert_eq!(rt; write(0x90, &data, &mut memory)?, 1027);
    assert_eq!(rt; memory.get(1027).copied(), Some(UNUSED));
    assert_eq!(rt;
        lay(0x90, &data, &mut [UNUSED; 1026]),
        Err(Refusal::WriteMemory)
    );
    hears(&rt, &memory[0..1027], 1, Some(0x90))
}

#[test]
fn refusals(rt: HostRuntime) {
    let mut memory = [UNUSED; 1030];
    assert_eq!(rt; write(0, &[0; 3], &mut memory), Err(Refusal::DataLength));
    assert_eq!(rt;
        write(0, &[0; 512], &mut [UNUSED; 4]),
        Err(Refusal::DataLength)
    );
    assert_eq!(rt;
        write(0, &[], &mut [UNUSED; 1029]),
        Err(Refusal::WriteMemory)
    );
    assert_eq!(rt; memory.get(0).copied(), Some(UNUSED));
    let mut receiver = Receiver::new();
    assert_eq!(rt;
        receiver.take(0x90, &mut [UNUSED; 513]),
        Err(Refusal::FrameMemory)
    );
    assert_eq!(rt; Refusal::FrameMemory.number(), 2);
    assert_eq!(rt; Refusal::WriteMemory.number(), 4);
    assert_eq!(rt; Refusal::DataLength.number(), 6);
}

#[test]
fn heard_and_damaged(rt: HostRuntime) -> Result<(), Fail> {
    let damaged = [0x90, 0x02, 0x60, 0x02, 0x01, 0xB0, 0x30, 0x00, 0x2F, 0x62];
    hears(&rt, &damaged, 1, None)?;
    let late = [
        0x90, 0x90, 0x02, 0x60, 0x02, 0x01, 0xB0, 0x30, 0x00, 0x2E, 0x62,
    ];
    hears(&rt, &late, 0, None)?;
    assert_eq!(rt; opcode_of(&[0x00, 0x00, 0x00, 0x00]), Some(0x00));
    assert_eq!(rt; opcode_of(&[0x00, 0x01, 0x00, 0x00]), None);
    assert_eq!(rt; opcode_of(&[0x00]), None);
    Ok(())
}

#[test]
fn rewritten(rt: HostRuntime) -> Result<(), Fail> {
    let mut memory = [UNUSED; 1030];
    let frame = Body::new(&REQUEST[2..10]).check()?;
    assert_eq!(rt; frame.write(&mut memory)?, 10);
    assert!(rt; memory.starts_with(&REQUEST));
    Ok(())
}
