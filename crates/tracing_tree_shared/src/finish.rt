//! Takes all passes back, and checks that their receipts are the history, each call once.

ghost use Rattle.std.specs.Prelude.{◌≡◌, ◌≤◌, None, All, IfSome, IfNone, length, min, count_by, flat_map, [], ◌∷◌, if◌then◌else◌, ◌==◌, nat_lt};
ghost use Rattle.std.specs.Option.{option_map_or};
ghost use Rattle.tracing_tree_shared.specs.History.{slips_at, IsFirstStrange, IsOneHistory};
ghost use Rattle.tracing_tree_shared.specs.Finish.{keeps_slip, is_late, is_misplaced, greater, lesser, misplaced, smallest, RisesUpTo, IsReplay};

use crate::book::{Book, Receipt};
use crate::pass::Pass;
use std::sync::ledger::Ledger;
use tracing_tree_drawing::format::Config;
use tracing_tree_layer::call::{Call, Reply};
use tracing_tree_output::Tape;
use tracing_tree_time::FormatTime;

/// The history of all threads' calls, what was written, and the settings.
#[derive(Drop)]
pub struct Finished {
    /// The settings that the calls were drawn with.
    pub config: Config,

    /// The accepted calls in order, with their replies.
    pub history: Vec<(Call, Reply)>,

    /// What was written.
    pub output: Tape,

    /// How many calls were accepted.
    pub accepted: usize,
}

/// Why there isn't a common history.
#[derive(Drop)]
pub enum FinishFault<FT: FormatTime> {
    /// There are fewer passes than were opened.
    MissingPass,

    /// The receipts aren't this book's history. Has the first wrong place, and the book. Public
    /// calls can't cause this, since each receipt of a pass comes from the book behind the same
    /// lock. The types don't prove that, so `finish` checks it.
    Stranger(usize, Book<FT>),
}

// Returns the settings and the history of a book, and what was written.
pub(crate) fn finish_book<FT: FormatTime + Drop>(book: Book<FT>) -> Finished
    ensures history { result.history.items ≡ book.history }
    ensures accepted { result.accepted ≡ length book.history }
    ensures replay { IsReplay FT.FormatTime result.config book.history result.output.bytes }
    ensures settings { result.config ≡ book.layered.layer.settings }
{
    let (config, history, output) = book.into_parts();
    let accepted = history.len();
    Finished {
        config,
        history,
        output,
        accepted,
    }
}

// Returns the first wrong place. This is the place of a receipt that isn't in the history or is out
// of order, or an earlier place that doesn't have exactly one receipt. Never allocates.
pub(crate) fn first_strange<L: Ledger>(
    history: &[(Call, Reply)],
    passes: &[Pass<L>],
) -> Option<usize>
    ensures some { IfSome result (λ place. IsFirstStrange history.now passes.now place) }
    ensures none { IfNone result (IsOneHistory history.now passes.now) }
{
    let misplaced = first_misplaced(history, passes);
    let end = up_to(misplaced, history.len());
    for place in 0..end {
        if count_at(passes, place) != 1 {
            return Some(place);
        }
    }
    misplaced
}

// Returns the lesser of a place, if there is one, and a count.
fn up_to(place: Option<usize>, count: usize) -> usize
    ensures { result ≡ option_map_or (λ p. min p count) place count }
{
    match place {
        Some(place) => place.min(count),
        None => count,
    }
}

// Returns the least place of a receipt that isn't in the history, or is in the wrong order in its
// pass.
fn first_misplaced<L: Ledger>(history: &[(Call, Reply)], passes: &[Pass<L>]) -> Option<usize>
    ensures { result ≡ smallest None (flat_map (misplaced history.now None) passes.now) }
{
    let mut first = None;
    for pass in passes {
        first = first_in_pass(history, pass.receipts(), first);
    }
    first
}

// Like `first_misplaced` for one pass, given the place that was found before.
fn first_in_pass(
    history: &[(Call, Reply)],
    receipts: &[Receipt],
    found: Option<usize>,
) -> Option<usize>
    ensures { result ≡ smallest found (misplaced history.now None receipts.now) }
{
    let mut first = found;
    let mut greatest = None;
    for receipt in receipts {
        first = first_with(first, history, greatest, receipt);
        greatest = greater(greatest, receipt.place());
    }
    first
}

// Like `first_in_pass` for one receipt, given the greatest place before it in its pass.
fn first_with(
    found: Option<usize>,
    history: &[(Call, Reply)],
    greatest: Option<usize>,
    receipt: &Receipt,
) -> Option<usize>
    ensures { result ≡ smallest found
        (if is_misplaced history.now greatest receipt.now then receipt.now.place ∷ [] else []) }
{
    if is_late(greatest, receipt.place()) || !keeps(history, receipt) {
        lesser(found, receipt.place())
    } else {
        found
    }
}

fn is_late(greatest: Option<usize>, place: usize) -> bool
    ensures { result ≡ is_late greatest place }
{
    match greatest {
        Some(greatest) => place <= greatest,
        None => false,
    }
}

fn greater(greatest: Option<usize>, place: usize) -> Option<usize>
    ensures { result ≡ greater greatest place }
{
    match greatest {
        Some(greatest) => Some(greatest.max(place)),
        None => Some(place),
    }
}

fn lesser(smallest: Option<usize>, place: usize) -> Option<usize>
    ensures { result ≡ lesser smallest place }
{
    match smallest {
        Some(smallest) => Some(smallest.min(place)),
        None => Some(place),
    }
}

// Returns whether the history has the receipt's call and reply at its place.
fn keeps(history: &[(Call, Reply)], receipt: &Receipt) -> bool
    ensures { result ≡ keeps_slip history.now receipt.now }
{
    match history.get(receipt.place()) {
        Some(entry) => entry.0 == *receipt.call() && entry.1 == receipt.reply(),
        None => false,
    }
}

// Returns how many receipts are for this place. The receipts of each pass must rise up to it.
fn count_at<L: Ledger>(passes: &[Pass<L>], place: usize) -> usize
    requires { All (RisesUpTo place) passes.now }
    ensures { result ≡ slips_at passes.now place }
{
    let mut count = 0;
    for pass in passes {
        count += count_in_pass(pass.receipts(), place);
    }
    count
}

// Returns how many receipts of a pass are for this place. They must rise up to it.
fn count_in_pass(receipts: &[Receipt], place: usize) -> usize
    requires { RisesUpTo place receipts.now }
    ensures count { result ≡ count_by (λ slip. slip.place == place) receipts.now }
    ensures one { result ≤ 1 }
{
    let at = receipts.partition_point(
        |receipt: &Receipt| -> bool
            ensures { result ≡ nat_lt receipt.now.place place }
        { receipt.place() < place },
    );
    match receipts.get(at) {
        Some(receipt) if receipt.place() == place => 1,
        _ => 0,
    }
}
