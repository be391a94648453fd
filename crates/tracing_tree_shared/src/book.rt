//! A layer with the history of its calls, which is the value behind the lock.

ghost use Rattle.std.specs.Prelude.{◌≡◌, ◌++◌, ◌∷◌, [], None, false, length, IfErr};
ghost use Rattle.tracing_tree_shared.specs.Books.{KeepsReplay, seen_on_tape, IsApplied};

use crate::draft::{Draft, Refused};
use std::alloc::Global;
use std::boxed::Box;
use std::marker::Model;
use tracing_tree_base::{Id, Refusal};
use tracing_tree_drawing::format::Config;
use tracing_tree_layer::Layered;
use tracing_tree_layer::call::{Call, Reply};
use tracing_tree_output::Tape;
use tracing_tree_time::FormatTime;

/// A call's place in the history, with its reply. Only `Book::apply` makes one.
#[derive(Debug, Drop)]
pub struct Receipt {
    place: usize,
    call: Box<Call, Global>,
    reply: Reply,
}

impl Model for Receipt {
    ghost use Rattle.tracing_tree_shared.specs.History.{Slip};

    ghost Value = { Slip };

    ghost view = { λ r. record { place = r.place; entry = (r.call.value, r.reply) } };
}

impl Receipt {
    /// Returns the call's place in the history, from 0.
    pub fn place(&self) -> usize
        ensures { result ≡ self.now.place }
    {
        self.place
    }

    /// Returns the call.
    pub fn call(&self) -> &Call
        ensures { result.now ≡ self.now.entry.0 }
    {
        self.call.as_ref()
    }

    /// Returns the call's reply.
    pub fn reply(&self) -> Reply
        ensures { result ≡ self.now.entry.1 }
    {
        self.reply
    }
}

/// A registry with a layer over a tape, and the history of the accepted calls. It matches the
/// replay of that history: it has the same spans, last span and replies. The tape is the drawing of
/// the replay's rows.
#[derive(Drop)]
pub struct Book<FT: FormatTime> {
    layered: Layered<Tape, FT>,
    first: Option<Id>,
    history: Vec<(Call, Reply)>,
}

impl<FT: FormatTime> Model for Book<FT> {
    ghost use Rattle.tracing_tree_output.specs.Outputs.{TapeView};
    ghost use Rattle.tracing_tree_shared.specs.Books.{BookView, KeepsReplay, seen_on_tape};

    ghost Value = { BookView TapeView FT };

    ghost view = { λ b. record {
      layered = b.layered;
      first = b.first;
      history = b.history.items;
    } };

    ghost invariant = { λ b. KeepsReplay b.first b.history.items
        (seen_on_tape FT.FormatTime b.layered) };
}

impl<FT: FormatTime> Book<FT> {
    /// Returns a book without calls. The caller must ensure that no span is live, that the layer is
    /// fresh, and that the tape is empty.
    pub fn new(alloc: Global, layered: Layered<Tape, FT>) -> Book<FT>
        requires spans { layered.forest.spans ≡ [] }
        requires last { layered.layer.last ≡ None }
        requires sound { layered.layer.failed ≡ false }
        requires tape { layered.layer.writer.bytes ≡ [] }
        ensures { result ≡ record { layered = layered; first = layered.forest.next; history = [] } }
    {
        let first = layered.registry().next_id();
        Book {
            layered,
            first,
            history: Vec::new(alloc),
        }
    }

    /// Returns the accepted calls in order, with their replies.
    pub fn history(&self) -> &[(Call, Reply)]
        ensures history { result.now ≡ self.now.history }
        ensures kept { KeepsReplay self.now.first self.now.history
            (seen_on_tape FT.FormatTime self.now.layered) }
    {
        self.history.as_slice()
    }

    /// Returns what was written.
    pub fn output(&self) -> &Tape
        ensures { result.now ≡ self.now.layered.layer.writer }
    {
        self.layered.writer()
    }

    /// Makes the draft's call, like `Layered::call`. The receipt has the call, its reply and their
    /// place. Memory for the history is allocated first, and for its copy of the call if the draft
    /// has no copy.
    ///
    /// # Errors
    ///
    /// `Refused` returns the draft, and the cause: `Failed` if the layer has failed, `Memory` if an
    /// allocation fails, or the layer's refusal. The history is unchanged then.
    pub fn apply(&mut self, mut draft: Draft) -> Result<Receipt, Refused>
        ensures applied { IsApplied FT.FormatTime draft.call result self.old self.new }
        ensures draft { IfErr result (λ e. e.draft ≡ draft) }
    {
        if self.layered.layer().failed() {
            return Err(Refused {
                draft,
                cause: Refusal::Failed,
            });
        }
        if self.history.reserve(1).is_err() {
            return Err(Refused {
                draft,
                cause: Refusal::Memory,
            });
        }
        let Ok(kept) = draft.take_copy() else {
            return Err(Refused {
                draft,
                cause: Refusal::Memory,
            });
        };
        let place = self.history.len();
        match draft.emit(&mut self.layered) {
            Ok(reply) => {
                self.history.push_reserved((kept, reply));
                Ok(Receipt {
                    place,
                    call: draft.into_call(),
                    reply,
                })
            }
            Err(cause) => {
                // Dropped as one value, so that the proof needn't follow each of its parts.
                drop(kept);
                Err(Refused { draft, cause })
            }
        }
    }

    /// Splits this value into the settings, the history and what was written.
    pub fn into_parts(self) -> (Config, Vec<(Call, Reply)>, Tape)
    where
        FT: Drop,
        ensures settings { result.0 ≡ self.layered.layer.settings }
        ensures history { result.1.items ≡ self.history }
        ensures output { result.2 ≡ self.layered.layer.writer }
        ensures kept { KeepsReplay self.first self.history
            (seen_on_tape FT.FormatTime self.layered) }
    {
        let Book {
            layered,
            first: _,
            history,
        } = self;
        let (registry, layer) = layered.into_parts();
        drop(registry);
        let (config, output) = layer.into_parts();
        (config, history, output)
    }
}
