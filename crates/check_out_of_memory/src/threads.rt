//! Drafts of calls, passed to a layer for several threads by one of them.

ghost use Rattle.std.specs.Prelude.{◌≡◌};

use crate::calls::Trial;
use crate::script::{Answer, Script};
use std::alloc::Global;
use std::sync::Wait;
use std::sync::ledger::{Blank, Ledger};
use tracing_tree::Layered;
use tracing_tree::call::Call;
use tracing_tree::format::{Refusal, Tape};
use tracing_tree_shared::{Draft, Finished, Pass, Refused, SharedLayer};

// The calls on the layer are in separate functions, whose contracts say only what their callers
// need: only what they return is tested.

// Returns a layer with one pass.
fn opened<L: Ledger>(alloc: Global, blank: Blank) -> Option<(SharedLayer<(), L>, Vec<Pass<L>>)>
    requires name { blank.name ≡ L.name }
    requires parts { blank.parts ≡ L.parts }
    requires two { L.parts ≡ 2 }
{
    let layered = Layered::new(alloc, Script::Concurrent.layer(alloc, Tape::new(alloc)));
    SharedLayer::<(), L>::open(alloc, blank, layered, 1).ok()
}

fn draft<L: Ledger>(
    alloc: Global,
    layer: &SharedLayer<(), L>,
    call: Box<Call>,
) -> Result<Draft, Refusal> {
    layer.draft(alloc, Box::into_inner(call))
}

// Returns the answer to a draft, and the draft if it was refused.
fn submit<L: Ledger, R: Wait>(
    rt: &R,
    layer: &SharedLayer<(), L>,
    pass: &mut Pass<L>,
    draft: Draft,
) -> (Answer, Option<Draft>) {
    match layer.submit(rt, pass, draft) {
        Ok(reply) => (Ok(reply), None),
        Err(Refused { draft, cause }) => (Err(cause), Some(draft)),
    }
}

fn finished<L: Ledger>(layer: SharedLayer<(), L>, passes: Vec<Pass<L>>) -> Option<Finished> {
    layer.finish(passes).ok()
}

/// Makes the calls, each again if an allocation failed, and takes the pass back. Returns how many
/// allocations failed.
pub fn hand_in<L: Ledger, R: Wait>(
    rt: &R,
    alloc: Global,
    blank: Blank,
    trials: Vec<Trial>,
) -> anyhow::Result<u32>
    requires name { blank.name ≡ L.name }
    requires parts { blank.parts ≡ L.parts }
    requires two { L.parts ≡ 2 }
{
    let Some((layer, mut passes)) = opened::<L>(alloc, blank) else {
        return Ok(1);
    };
    let Some(pass) = passes.first_mut() else {
        anyhow::bail!("there is no pass");
    };
    let refused = hand_in_all(rt, alloc, &layer, pass, trials)?;
    let Some(finished) = finished(layer, passes) else {
        anyhow::bail!("there is not one history");
    };
    anyhow::ensure!(
        is_drawn(finished.output.bytes(), refused > 0),
        "another text is drawn"
    );
    Ok(refused)
}

// Returns whether this is the text of all calls, or a prefix of it if one may have been refused.
fn is_drawn(written: &[u8], may_lack: bool) -> bool {
    let whole = Script::Concurrent.text().as_bytes();
    whole.starts_with(written) && (may_lack || written.len() == whole.len())
}

fn hand_in_all<L: Ledger, R: Wait>(
    rt: &R,
    alloc: Global,
    layer: &SharedLayer<(), L>,
    pass: &mut Pass<L>,
    trials: Vec<Trial>,
) -> anyhow::Result<u32> {
    let mut refused = 0u32;
    for trial in trials {
        let Trial {
            call,
            again,
            answer,
        } = trial;
        let (drafted, undrafted) = draft_twice(alloc, layer, call, again);
        let Some(drafted) = drafted else {
            anyhow::bail!("a draft is refused again");
        };
        let unaccepted = submit_twice(rt, layer, pass, drafted, answer)?;
        refused = refused.saturating_add(undrafted).saturating_add(unaccepted);
    }
    Ok(refused)
}

// Returns a draft of the call, or of its copy if an allocation failed, and how many failed.
fn draft_twice<L: Ledger>(
    alloc: Global,
    layer: &SharedLayer<(), L>,
    call: Box<Call>,
    again: Box<Call>,
) -> (Option<Draft>, u32) {
    match draft(alloc, layer, call) {
        Ok(drafted) => {
            drop(again);
            (Some(drafted), 0)
        }
        Err(_) => (draft(alloc, layer, again).ok(), 1),
    }
}

// Submits a draft, and again if an allocation failed. Returns how many did. The refused draft is
// unchanged. After a fault of the output, all further answers are `Failed`.
fn submit_twice<L: Ledger, R: Wait>(
    rt: &R,
    layer: &SharedLayer<(), L>,
    pass: &mut Pass<L>,
    drafted: Draft,
    wanted: Answer,
) -> anyhow::Result<u32> {
    let before = pass.receipts().len();
    let tail = tail_length(&drafted);
    let (first, back) = submit(rt, layer, pass, drafted);
    let stays = pass.receipts().len() == before;
    match back {
        Some(drafted) if first == Err(Refusal::Memory) && stays => {
            anyhow::ensure!(
                tail_length(&drafted) == tail,
                "a draft comes back otherwise"
            );
            let (second, _) = submit(rt, layer, pass, drafted);
            judged(second, wanted, 1)
        }
        back => {
            drop(back);
            judged(first, wanted, 0)
        }
    }
}

fn tail_length(draft: &Draft) -> Option<usize> {
    draft.tail().map(|tail| tail.len())
}

fn judged(given: Answer, wanted: Answer, refused: u32) -> anyhow::Result<u32> {
    match given {
        Err(Refusal::Writer | Refusal::Failed) => Ok(1),
        given => {
            anyhow::ensure!(given == wanted, "a draft is answered otherwise");
            Ok(refused)
        }
    }
}
