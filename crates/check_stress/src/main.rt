//! Makes random calls of several threads through one layer, round after round, and checks their
//! results.
//!
//! The arguments are the number of rounds, and a seed. The seed determines what the threads do,
//! except for their order at the lock. The first round with another result ends the
//! run, with its number.
#![tactic(auto)]

ghost use Rattle.std.specs.Prelude.{◌≡◌, ◌<◌, ◌≤◌};

mod caller;
mod receiver;
mod round;

use round::{Plan, Tally, shared_round, streaming_round};
use std::marker::Brand;
use std::rt::Env;
use std::sync::Wait;
use std::sync::ledger::Blank;
use std::thread::Threads;

// What is run without arguments.
const ROUNDS: u64 = 20;

const SEED: u64 = 20_261_124;

fn main(rt: HostRuntime) -> anyhow::Result<()> {
    let (rounds, seed) = asked(&rt)?;
    let mut all = Tally::default();
    for round in 0..rounds {
        match both_rounds(&rt, Plan::drawn(rt.alloc(), seed, round)) {
            Ok(tally) => all.add(tally),
            Err(fault) => {
                println!(rt; "round {round} from seed {seed}: {fault}")?;
                return Err(fault);
            }
        }
    }
    let Tally {
        threads,
        calls,
        refused,
        unmade,
    } = all;
    println!(rt; "{rounds} rounds from seed {seed}: {threads} threads made {calls} calls")?;
    println!(rt; "each call accepted has its place, and a layer of one thread draws the same")?;
    eprintln!(rt; "{refused} calls were refused, and {unmade} not made for want of memory")?;
    Ok(())
}

// Returns how many rounds, and the seed.
fn asked(rt: &(impl AllocGlobal + Env)) -> anyhow::Result<(u64, u64)> {
    let mut args = std::env::args(rt)?.skip(1);
    let rounds = match args.next() {
        Some(word) => word.as_str().parse::<u64>()?,
        None => ROUNDS,
    };
    let seed = match args.next() {
        Some(word) => word.as_str().parse::<u64>()?,
        None => SEED,
    };
    Ok((rounds, seed))
}

// Runs a round of each layer. The number of refused calls depends on the order in which the threads
// get the lock.
fn both_rounds<R: Threads + Wait + Sync>(rt: &R, mut plan: Plan) -> anyhow::Result<Tally> {
    let threads = plan.threads();
    let blank = Blank::new((threads + 1) as u64);
    let mut tally = shared_round::<Brand, R>(rt, blank, &mut plan, threads)?;
    tally.add(streaming_round(rt, &mut plan)?);
    Ok(tally)
}
