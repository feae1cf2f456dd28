// Reads a recording of a cable from standard input, and prints each body that passed on it.
#![tactic(auto)]

use recording::{Listener, play};

mod cable;
mod passing;
mod reports;

use cable::Sniffer;

fn run(rt: &HostRuntime) -> anyhow::Result<()> {
    let mut sniffer = Sniffer::new(rt);
    let lines = play(&mut rt.stdin(), &mut sniffer)?;
    sniffer.end(lines)?;
    sniffer.pause()?;
    Ok(())
}

fn main(rt: HostRuntime) -> anyhow::Result<()> {
    run(&rt)
}
