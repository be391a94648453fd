//! Calls on a layer. Each is made again if an allocation failed.

ghost use Rattle.std.specs.Prelude.{◌≡◌};

use crate::board::{Board, Seen};
use crate::script::{Answer, Script};
use std::alloc::{AllocError, Global};
use tracing_tree::Layered;
use tracing_tree::call::Call;
use tracing_tree::format::{Output, Refusal, Tape};

/// A call with a copy of it, and what it is answered. The calls are boxed, since each step of what
/// moves them is proved over all that they hold.
#[derive(Drop)]
pub struct Trial {
    pub call: Box<Call>,
    pub again: Box<Call>,
    pub answer: Answer,
}

/// Returns the calls of a script.
pub fn trials(alloc: Global, script: Script) -> Result<Vec<Trial>, AllocError> {
    let mut trials = Vec::new(alloc);
    for (step, answer) in script.steps() {
        trials.push(Trial {
            call: Box::new(alloc, step.call(alloc)?)?,
            again: Box::new(alloc, step.call(alloc)?)?,
            answer: *answer,
        })?;
    }
    Ok(trials)
}

/// Returns the calls of a script, twice.
pub fn both(alloc: Global, script: Script) -> Result<(Vec<Call>, Vec<Call>), AllocError> {
    let mut first = Vec::new(alloc);
    let mut second = Vec::new(alloc);
    for (step, _) in script.steps() {
        first.push(step.call(alloc)?)?;
        second.push(step.call(alloc)?)?;
    }
    Ok((first, second))
}

/// A layer over an output that never allocates, and the calls to make. It is boxed, since each step
/// of its users is proved over everything that their values contain.
#[derive(Drop)]
pub struct Prepared {
    script: Script,
    layered: Box<Layered<Board, ()>>,
    trials: Vec<Trial>,
}

impl Prepared {
    pub fn new(alloc: Global, script: Script) -> Result<Prepared, AllocError> {
        let layer = script.layer(alloc, Board::new(alloc)?);
        Ok(Prepared {
            script,
            layered: Box::new(alloc, Layered::new(alloc, layer))?,
            trials: trials(alloc, script)?,
        })
    }

    /// Makes the calls one by one. Returns how many allocations failed.
    pub fn make(self) -> anyhow::Result<u32> {
        let Prepared {
            script,
            mut layered,
            trials,
        } = self;
        let mut refused = 0u32;
        for trial in trials {
            if emitted_twice(&mut layered, trial)? {
                refused = refused.saturating_add(1);
            }
        }
        anyhow::ensure!(
            layered.writer().bytes() == script.text().as_bytes(),
            "another text is drawn"
        );
        Ok(refused)
    }

    /// Makes all calls as one run, and the whole run again if its answers could not be allocated.
    /// Returns how many allocations failed.
    pub fn run(self, alloc: Global, first: Vec<Call>, second: Vec<Call>) -> anyhow::Result<u32> {
        let Prepared {
            script: _,
            mut layered,
            trials,
        } = self;
        let before = Seen::of(&layered);
        let Ok(answers) = run(&mut layered, alloc, first) else {
            anyhow::ensure!(
                Seen::of(&layered) == before && layered.writer().bytes().is_empty(),
                "a run that was refused has changed something"
            );
            let answers = run(&mut layered, alloc, second)?;
            anyhow::ensure!(
                refused_in(answers.as_slice(), trials.as_slice())? == 0,
                "memory is refused again"
            );
            return Ok(1);
        };
        refused_in(answers.as_slice(), trials.as_slice())
    }
}

// Returns how many of the answers are `Memory`. Those before the first must be as with ample
// memory.
fn refused_in(answers: &[Answer], trials: &[Trial]) -> anyhow::Result<u32> {
    anyhow::ensure!(answers.len() == trials.len(), "an answer is missing");
    let mut refused = 0u32;
    for (answer, trial) in answers.iter().zip(trials) {
        if *answer == Err(Refusal::Memory) {
            refused = refused.saturating_add(1);
        } else {
            anyhow::ensure!(
                *answer == trial.answer || refused > 0,
                "a call is answered otherwise in a run"
            );
        }
    }
    Ok(refused)
}

// Makes a call, and again if an allocation failed. Returns whether one did.
fn emitted_twice(layered: &mut Layered<Board, ()>, trial: Trial) -> anyhow::Result<bool> {
    let Trial {
        call,
        again,
        answer,
    } = trial;
    let before = Seen::of(layered);
    let length = layered.writer().bytes().len();
    let mut given = emitted(layered, call);
    let refused = given == Err(Refusal::Memory);
    if refused {
        anyhow::ensure!(
            Seen::of(layered) == before && layered.writer().bytes().len() == length,
            "a call to which memory was refused has changed something"
        );
        given = emitted(layered, again);
    }
    anyhow::ensure!(given == answer, "a call is answered otherwise");
    Ok(refused)
}

// What a call is answered. The contract says nothing, since only the answer is looked at here.
fn emitted<W: Output>(layered: &mut Layered<W, ()>, call: Box<Call>) -> Answer {
    layered.call(Box::into_inner(call))
}

// Makes a run, like `emitted_twice`.
fn run(
    layered: &mut Layered<Board, ()>,
    alloc: Global,
    calls: Vec<Call>,
) -> Result<Vec<Answer>, AllocError> {
    layered.run(alloc, calls)
}

/// A layer over an output in memory, and the calls to make.
#[derive(Drop)]
pub struct OnTape {
    script: Script,
    layered: Box<Layered<Tape, ()>>,
    trials: Vec<Trial>,
}

impl OnTape {
    pub fn new(alloc: Global, script: Script) -> Result<OnTape, AllocError> {
        let layer = script.layer(alloc, Tape::new(alloc));
        Ok(OnTape {
            script,
            layered: Box::new(alloc, Layered::new(alloc, layer))?,
            trials: trials(alloc, script)?,
        })
    }

    /// Makes the calls one by one. If an allocation of the output fails, its fault ends the layer,
    /// with what was written before that call. Returns how many allocations failed.
    pub fn make(self) -> anyhow::Result<u32> {
        let OnTape {
            script,
            mut layered,
            trials,
        } = self;
        let mut refused = 0u32;
        for trial in trials {
            if emitted_on_tape(&mut layered, trial)? {
                refused = refused.saturating_add(1);
            }
        }
        let written = layered.writer().bytes();
        let whole = script.text().as_bytes();
        anyhow::ensure!(
            whole.starts_with(written)
                && (layered.layer().failed() || written.len() == whole.len()),
            "another text is drawn"
        );
        Ok(refused)
    }
}

// Makes a call, and again if an allocation failed. Returns whether one did, of the call or of the
// output.
fn emitted_on_tape(layered: &mut Layered<Tape, ()>, trial: Trial) -> anyhow::Result<bool> {
    let Trial {
        call,
        again,
        answer,
    } = trial;
    let had_failed = layered.layer().failed();
    let length = layered.writer().bytes().len();
    let given = emitted(layered, call);
    let stays = layered.writer().bytes().len() == length;
    if given == Err(Refusal::Memory) && stays {
        anyhow::ensure!(
            emitted(layered, again) == answer,
            "a call is answered otherwise after a refusal"
        );
        return Ok(true);
    }
    drop(again);
    judged(given, answer, stays, had_failed)
}

// Returns whether the output was refused memory, by the answer to a call. A layer that had failed
// before answers `Failed`.
fn judged(given: Answer, wanted: Answer, stays: bool, had_failed: bool) -> anyhow::Result<bool> {
    match given {
        Err(Refusal::Writer) => {
            anyhow::ensure!(stays && !had_failed, "a refused text was written");
            Ok(true)
        }
        Err(Refusal::Failed) => {
            anyhow::ensure!(had_failed, "a call fails without a cause");
            Ok(false)
        }
        given => {
            anyhow::ensure!(given == wanted, "a call is answered otherwise");
            Ok(false)
        }
    }
}
