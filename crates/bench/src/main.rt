// One board on standard input: a port of node 1 over a number and a run. Each answer is printed as a line.
#![tactic(auto)]

use dictionary::{Access, Address, Dictionary};
use layers::Pair;
use port::Port;
use recording::{Listener, play};
use tables::{NumberRecord, Numbers, RunRecord, Runs};

mod boards;

use boards::Board;

const OWN_NODE: u8 = 1;

// The capacity of the run.
const CAPACITY: usize = 1024;

// Serves the objects until the input ends; what was answered is printed after each part that was read, and at the end.
fn run<D: Dictionary + Drop>(rt: &HostRuntime, dict: D) -> anyhow::Result<()> {
    let port = Port::open(OWN_NODE)?;
    let mut board = Board::new(rt, port, dict);
    play(&mut rt.stdin(), &mut board)?;
    board.pause()?;
    Ok(())
}

fn main(rt: HostRuntime) -> anyhow::Result<()> {
    let mut numbers = [NumberRecord {
        address: Address {
            index: 0x3200,
            subindex: 1,
        },
        width: 2,
        signed: false,
        access: Access::Rw,
        low: 0,
        high: 5000,
        value: 1000,
    }];
    let mut runs = [RunRecord {
        address: Address {
            index: 0x3201,
            subindex: 1,
        },
        access: Access::Rw,
        capacity: 1024,
        length: 0,
    }];
    let mut pool = [0; CAPACITY];
    let objects = Pair {
        first: Numbers::new(&mut numbers),
        second: Runs::new(&mut runs, &mut pool),
    };
    run(&rt, objects)
}
