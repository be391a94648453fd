//! Passes, and the layer behind a lock that they belong to.

ghost use Rattle.std.specs.Prelude.{◌≡◌, ◌⊎◌, Err, ◌+◌, ◌*◌, ◌<◌, ◌≤◌, ℕ, [], ◌∷◌, ◌++◌, false, None, All, length, IfOk, OnOk, OnErr, IfErr, vec_len, sum_by};
ghost use Rattle.tracing_tree_shared.specs.Drafts.{tail_under};
ghost use Rattle.tracing_tree_shared.specs.Books.{IsApplied, IsAnsweredOnSome, answer_given};
ghost use Rattle.tracing_tree_shared.specs.Finish.{IsFinishAnswer};
ghost use Rattle.tracing_tree_shared.specs.Amounts.{full_amount, settings_code};

use crate::book::{Book, Receipt};
use crate::draft::{Draft, Refused};
use crate::finish::{FinishFault, Finished, finish_book, first_strange};
use std::alloc::{AllocError, Global};
use std::marker::Model;
use std::sync::ledger::{Blank, Ledger, Share, Total};
use std::sync::{Mutex, Wait};
use tracing_tree_base::Refusal;
use tracing_tree_drawing::format::Config;
use tracing_tree_layer::Layered;
use tracing_tree_layer::call::{Call, Reply};
use tracing_tree_output::Tape;
use tracing_tree_time::FormatTime;

// The amount that a pass's share gains with each receipt.
const EACH: u64 = 4;

/// A thread's pass, which contracts see as its receipts. Its share of the ledger counts them.
#[derive(Drop)]
pub struct Pass<L: Ledger> {
    share: Share<L>,
    receipts: Vec<Receipt>,
}

impl<L: Ledger> Model for Pass<L> {
    ghost use Rattle.std.specs.Prelude.{◌≡◌, ◌*◌, List, length};
    ghost use Rattle.tracing_tree_shared.specs.History.{Slip};

    ghost Value = { List Slip };

    ghost view = { λ p. p.receipts.items };

    ghost invariant = { λ p. (p.share.parts ≡ 1) × (p.share.amount ≡ 4 * length p.receipts.items) };
}

impl<L: Ledger> Pass<L> {
    fn fresh(alloc: Global, share: Share<L>) -> Pass<L>
        requires { (share.parts ≡ 1) × (share.amount ≡ 0) }
        ensures { result ≡ [] }
    {
        Pass {
            share,
            receipts: Vec::new(alloc),
        }
    }

    fn into_parts(self) -> (Share<L>, Vec<Receipt>)
        ensures parts { result.0.parts ≡ 1 }
        ensures amount { result.0.amount ≡ 4 * length self }
        ensures receipts { result.1.items ≡ self }
    {
        let Pass { share, receipts } = self;
        (share, receipts)
    }

    /// Returns the receipts, in the order of the calls.
    pub fn receipts(&self) -> &[Receipt]
        ensures { result.now ≡ self.now }
    {
        self.receipts.as_slice()
    }
}

// The value in the lock. The share starts with the ledger's total, and each accepted call moves
// `EACH` of it to a pass. The total modulo `EACH` encodes ansi and targets of the layer. So
// `finish` knows these settings, and how many receipts there are.
#[derive(Drop)]
struct Locked<FT: FormatTime, L: Ledger> {
    book: Book<FT>,
    kept: Share<L>,
    ghost one_part: { kept.parts ≡ 1 },
    ghost counted: { kept.amount + 4 * length book.history
        ≡ full_amount book.layered.layer.settings.ansi book.layered.layer.settings.targets },
}

impl<FT: FormatTime, L: Ledger> Locked<FT, L> {
    fn new(book: Book<FT>, kept: Share<L>) -> Locked<FT, L>
        requires part { kept.parts ≡ 1 }
        requires counted { kept.amount + 4 * length book.history
            ≡ full_amount book.layered.layer.settings.ansi book.layered.layer.settings.targets }
    {
        Locked { book, kept }
    }

    fn apply(&mut self, share: &mut Share<L>, draft: Draft) -> Result<Receipt, Refused>
        requires { 0 < share.old.parts }
        ensures applied { IsApplied FT.FormatTime draft.call result self.old.book self.new.book }
        ensures call { IfOk result (λ r. r.entry.0 ≡ draft.call) }
        ensures amount { OnOk result (share.new.amount ≡ share.old.amount + 4) }
        ensures parts { share.new.parts ≡ share.old.parts }
        ensures err { OnErr result (share.new.amount ≡ share.old.amount) }
        ensures draft { IfErr result (λ e. e.draft ≡ draft) }
    {
        let receipt = self.book.apply(draft)?;
        // A place is below 2^64, so the share still has `EACH`.
        let _place = receipt.place();
        self.kept.transfer(share, EACH);
        Ok(receipt)
    }

    fn into_parts(self) -> (Book<FT>, Share<L>)
        ensures part { result.1.parts ≡ 1 }
        ensures counted { result.1.amount + 4 * length result.0.history
            ≡ full_amount result.0.layered.layer.settings.ansi
            result.0.layered.layer.settings.targets }
    {
        let Locked { book, kept } = self;
        (book, kept)
    }
}

/// A layer for several threads. Contracts see the number of its passes, and the two settings that
/// events are drafted with.
#[derive(Drop)]
pub struct SharedLayer<FT: FormatTime, L: Ledger> {
    lock: Mutex<Locked<FT, L>>,
    // The ledger's parts and amount. They determine the number of passes and the two settings.
    total: Total<L>,
    passes: usize,
    // A draft needs only ansi and targets, which are the layer's.
    config: Config,
}

impl<FT: FormatTime, L: Ledger> Model for SharedLayer<FT, L> {
    ghost use Rattle.std.specs.Prelude.{◌≡◌, ◌+◌};
    ghost use Rattle.tracing_tree_shared.specs.Drafts.{SharedView};
    ghost use Rattle.tracing_tree_shared.specs.Amounts.{full_amount};

    ghost Value = { SharedView };

    ghost view = { λ s. record {
      passes = s.passes;
      ansi = s.config.ansi;
      targets = s.config.targets;
    } };

    ghost invariant = { λ s. (s.total.parts ≡ s.passes + 1)
        × (s.total.amount ≡ full_amount s.config.ansi s.config.targets) };
}

impl<FT: FormatTime + Drop, L: Ledger> SharedLayer<FT, L> {
    /// Opens a layer with `passes` passes, which have no receipts. The caller must ensure that no
    /// span is live, that the layer is fresh, and that the tape is empty. The ledger must have one
    /// part more than there are passes.
    ///
    /// # Errors
    ///
    /// `AllocError` if an allocation fails.
    pub fn open(
        alloc: Global,
        blank: Blank,
        layered: Layered<Tape, FT>,
        passes: usize,
    ) -> Result<(SharedLayer<FT, L>, Vec<Pass<L>>), AllocError>
        requires name { blank.name ≡ L.name }
        requires parts { blank.parts ≡ L.parts }
        requires count { L.parts ≡ passes + 1 }
        requires spans { layered.forest.spans ≡ [] }
        requires last { layered.layer.last ≡ None }
        requires sound { layered.layer.failed ≡ false }
        requires tape { layered.layer.writer.bytes ≡ [] }
        ensures layer { IfOk result (λ r. r.0 ≡ record {
          passes = passes;
          ansi = layered.layer.settings.ansi;
          targets = layered.layer.settings.targets;
        }) }
        ensures passes { IfOk result (λ r. vec_len r.1 ≡ passes) }
        ensures fresh { IfOk result (λ r. All (λ p. p ≡ []) r.1.items) }
    {
        let settings = layered.layer().config();
        let config = Config::new(2, settings.ansi()).with_targets(settings.targets());
        let (total, mut share) = fill::<L>(blank, &config);
        let all = fresh_passes(alloc, &mut share, passes)?;
        let book = Book::new(alloc, layered);
        let layer = SharedLayer {
            lock: Mutex::new(Locked::new(book, share)),
            total,
            passes,
            config,
        };
        Ok((layer, all))
    }

    /// Returns a draft of this call. Doesn't take the lock: an event's level, target and fields are
    /// drawn here, and the call is copied for the history.
    ///
    /// # Errors
    ///
    /// `Memory` if an allocation fails.
    pub fn draft(&self, alloc: Global, call: Call) -> Result<Draft, Refusal>
        ensures call { IfOk result (λ draft. draft.call ≡ call) }
        ensures tail { IfOk result (λ draft. draft.tail
            ≡ tail_under self.now.ansi self.now.targets call) }
        ensures memory { IfErr result (λ refusal. refusal ≡ Refusal.Memory) }
    {
        match Draft::new(alloc, &self.config, call) {
            Ok(draft) => draft.with_copy(alloc).map_err(|_| Refusal::Memory),
            Err(_) => Err(Refusal::Memory),
        }
    }

    /// Makes a call under the lock, which it may have to wait for. The pass gains the call's
    /// receipt.
    ///
    /// # Errors
    ///
    /// `Refused` returns the draft and the cause. The pass is unchanged then.
    pub fn submit<R: Wait>(
        &self,
        rt: &R,
        pass: &mut Pass<L>,
        draft: Draft,
    ) -> Result<Reply, Refused>
        ensures ok { IfOk result (λ reply. (place : ℕ) × (pass.new
            ≡ pass.old ++ record { place = place; entry = (draft.call, reply) } ∷ [])) }
        ensures err { OnErr result (pass.new ≡ pass.old) }
        ensures answered { (answer_given result ≡ Err Refusal.Memory)
            ⊎ IsAnsweredOnSome FT.FormatTime draft.call (answer_given result) }
        ensures draft { IfErr result (λ e. e.draft ≡ draft) }
    {
        if pass.receipts.reserve(1).is_err() {
            return Err(Refused {
                draft,
                cause: Refusal::Memory,
            });
        }
        let mut locked = self.lock.lock(rt);
        let receipt = locked.apply(&mut pass.share, draft)?;
        let reply = receipt.reply();
        pass.receipts.push_reserved(receipt);
        Ok(reply)
    }

    /// Takes all passes back. Returns the history, what was written, and the settings that it was
    /// drawn with: ansi and targets are those of the layer that was opened. Never allocates.
    ///
    /// # Errors
    ///
    /// `MissingPass` if there are fewer passes than were opened. The layer is dropped then.
    /// `Stranger` if the receipts aren't one history, with the first wrong place and the layer's
    /// book. Public calls can't cause it.
    pub fn finish(self, passes: Vec<Pass<L>>) -> Result<Finished, FinishFault<FT>>
        ensures { IsFinishAnswer FT.FormatTime self passes.items result }
    {
        if passes.len() < self.passes {
            return Err(FinishFault::MissingPass);
        }
        let SharedLayer {
            lock,
            total,
            passes: _,
            config: _,
        } = self;
        let (book, kept) = lock.into_inner().into_parts();
        let strange = first_strange(book.history(), passes.as_slice());
        gather(&total, kept, passes);
        match strange {
            Some(place) => Err(FinishFault::Stranger(place, book)),
            None => Ok(finish_book(book)),
        }
    }
}

// Closes the ledger at its full amount. Returns its total, and the share that has all of it.
fn fill<L: Ledger>(blank: Blank, config: &Config) -> (Total<L>, Share<L>)
    requires name { blank.name ≡ L.name }
    requires parts { blank.parts ≡ L.parts }
    requires some { 0 < L.parts }
    ensures parts { result.0.parts ≡ L.parts }
    ensures all { result.1.parts ≡ L.parts }
    ensures amount { result.0.amount ≡ full_amount config.now.ansi config.now.targets }
    ensures share { result.1.amount ≡ full_amount config.now.ansi config.now.targets }
{
    let (mut book, mut share) = blank.open::<L>();
    for _ in 0..EACH {
        book.add(&mut share, u64::MAX);
    }
    book.add(&mut share, EACH + code(config));
    (book.close(), share)
}

// Returns the two settings as a number less than `EACH`.
fn code(config: &Config) -> u64
    ensures { result ≡ settings_code config.now.ansi config.now.targets }
{
    match (config.ansi(), config.targets()) {
        (false, false) => 0,
        (true, false) => 1,
        (false, true) => 2,
        (true, true) => 3,
    }
}

fn fresh_passes<L: Ledger>(
    alloc: Global,
    share: &mut Share<L>,
    count: usize,
) -> Result<Vec<Pass<L>>, AllocError>
    requires parts { share.old.parts ≡ count + 1 }
    ensures len { IfOk result (λ all. vec_len all ≡ count) }
    ensures fresh { IfOk result (λ all. All (λ p. p ≡ []) all.items) }
    ensures parts { OnOk result (share.new.parts ≡ 1) }
    ensures amount { OnOk result (share.new.amount ≡ share.old.amount) }
{
    let mut all = Vec::with_capacity(alloc, count)?;
    for _pass in 0..count {
        all.push(Pass::fresh(alloc, share.split_off(1, 0)))?;
    }
    Ok(all)
}

// Adds the shares of all passes to this one, which then has the total.
fn gather<L: Ledger>(total: &Total<L>, share: Share<L>, passes: Vec<Pass<L>>)
    requires part { share.parts ≡ 1 }
    requires some { 0 < total.now.parts }
    requires all { total.now.parts ≤ vec_len passes + 1 }
    ensures { share.amount + 4 * sum_by length passes.items ≡ total.now.amount }
{
    let mut share = share;
    total.audit(&mut share);
    for pass in passes {
        let (part, _) = pass.into_parts();
        share.merge(part);
        total.audit(&mut share);
    }
}
