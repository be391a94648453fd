//! A layer for several threads, without a history.

ghost use Rattle.std.specs.Prelude.{◌≡◌, IfOk, IfErr};
ghost use Rattle.tracing_tree_output.specs.Writers.{IsShown};
ghost use Rattle.tracing_tree_layer.specs.Layer.Layers.{seen, Changes, Flushes};
ghost use Rattle.tracing_tree_shared.specs.Drafts.{tail_under};
ghost use Rattle.tracing_tree_shared.specs.Streamed.{IsStreamed, IsStreamedOnSome};

use crate::draft::{Draft, Refused};
use std::alloc::Global;
use std::marker::Model;
use std::mem;
use std::sync::{Mutex, Wait};
use tracing_tree_base::Refusal;
use tracing_tree_drawing::format::Config;
use tracing_tree_layer::Layered;
use tracing_tree_layer::call::{Call, Reply};
use tracing_tree_output::Output;
use tracing_tree_time::FormatTime;

/// The answer to an accepted call: how many were accepted before it, and its reply.
#[derive(Clone, Copy, Debug, PartialEq, Eq)]
pub struct Numbered {
    pub number: u64,
    pub reply: Reply,
}

/// A registry with a layer, and the number of calls that it accepted. It doesn't store the calls.
#[derive(Drop)]
pub struct Counted<W: Output, FT: FormatTime> {
    layered: Layered<W, FT>,
    accepted: u64,
}

impl<W: Output, FT: FormatTime> Model for Counted<W, FT> {
    ghost use Rattle.tracing_tree_shared.specs.Streamed.{CountedView};

    ghost Value = { CountedView W FT };

    ghost view = { λ c. record { layered = c.layered; accepted = c.accepted } };
}

impl<W: Output, FT: FormatTime> Counted<W, FT> {
    /// Returns a layer with a count of 0. The layer may already have spans.
    pub fn new(layered: Layered<W, FT>) -> Counted<W, FT>
        ensures { result ≡ record { layered = layered; accepted = 0 } }
    {
        Counted {
            layered,
            accepted: 0,
        }
    }

    /// Returns how many calls were accepted. The count stops at `u64::MAX`.
    pub fn accepted(&self) -> u64
        ensures { result ≡ self.now.accepted }
    {
        self.accepted
    }

    /// Makes the draft's call, like `Layered::call`. An accepted call gets the next number. Calls
    /// other than events are copied first.
    ///
    /// # Errors
    ///
    /// `Refused` returns the draft, and the cause: `Failed` if the layer has failed, `Memory` if an
    /// allocation fails, or the layer's refusal.
    pub fn apply(&mut self, draft: Draft) -> Result<Numbered, Refused>
        ensures applied { IsStreamed FT.FormatTime W.Output draft.call result self.old self.new }
        ensures draft { IfErr result (λ e. e.draft ≡ draft) }
    {
        if self.layered.layer().failed() {
            return Err(Refused {
                draft,
                cause: Refusal::Failed,
            });
        }
        match draft.emit(&mut self.layered) {
            Ok(reply) => {
                // Dropped as one value, so that the proof needn't follow each of its parts.
                drop(draft);
                let next = self.accepted.saturating_add(1);
                let number = mem::replace(&mut self.accepted, next);
                Ok(Numbered { number, reply })
            }
            Err(cause) => Err(Refused { draft, cause }),
        }
    }

    /// Flushes the writer (`Output::flush`). Changes nothing else.
    pub fn flush(&mut self)
        ensures layered { Changes
            (seen FT.FormatTime W.Output) Flushes self.old.layered self.new.layered }
        ensures shown { IsShown W.Output self.new.layered.layer.writer }
        ensures accepted { self.new.accepted ≡ self.old.accepted }
    {
        self.layered.flush();
    }

    /// Returns the registry with its layer.
    pub fn into_layered(self) -> Layered<W, FT>
        ensures { result ≡ self.layered }
    {
        let Counted {
            layered,
            accepted: _,
        } = self;
        layered
    }
}

/// A layer for several threads over any writer, for services that run for months. It has no history
/// and no passes, and its memory is only that of the live spans. Contracts see the two settings
/// that events are drafted with.
///
/// Under its lock each call is `Counted::apply`, so its output is the drawing of the accepted calls
/// in the order of their numbers. The contract of `submit` can't say so, since a contract can't
/// refer to the value inside a mutex. It says that some layer returns this answer.
#[derive(Drop)]
pub struct StreamingLayer<W: Output, FT: FormatTime> {
    lock: Mutex<Counted<W, FT>>,
    // A draft needs only ansi and targets, which are the layer's.
    config: Config,
}

impl<W: Output, FT: FormatTime> Model for StreamingLayer<W, FT> {
    ghost use Rattle.tracing_tree_shared.specs.Streamed.{StreamingView};

    ghost Value = { StreamingView };

    ghost view = { λ s. record { ansi = s.config.ansi; targets = s.config.targets } };
}

impl<W: Output, FT: FormatTime> StreamingLayer<W, FT> {
    /// Shares this layer. Never allocates.
    pub fn new(layered: Layered<W, FT>) -> StreamingLayer<W, FT>
        ensures { result ≡ record {
          ansi = layered.layer.settings.ansi;
          targets = layered.layer.settings.targets;
        } }
    {
        let settings = layered.layer().config();
        let config = Config::new(2, settings.ansi()).with_targets(settings.targets());
        StreamingLayer {
            lock: Mutex::new(Counted::new(layered)),
            config,
        }
    }

    /// Returns a draft of this call. Doesn't take the lock: an event's level, target and fields are
    /// drawn here.
    ///
    /// # Errors
    ///
    /// `Memory` if an allocation fails.
    pub fn draft(&self, alloc: Global, call: Call) -> Result<Draft, Refusal>
        ensures call { IfOk result (λ draft. draft.call ≡ call) }
        ensures tail { IfOk result (λ draft. draft.tail
            ≡ tail_under self.now.ansi self.now.targets call) }
        ensures memory { IfErr result (λ refusal. refusal ≡ Refusal.Memory) }
    {
        Draft::new(alloc, &self.config, call).map_err(|_| Refusal::Memory)
    }

    /// Makes a call under the lock, which it may have to wait for.
    ///
    /// # Errors
    ///
    /// `Refused` returns the draft and the cause.
    pub fn submit<R: Wait>(&self, rt: &R, draft: Draft) -> Result<Numbered, Refused>
        ensures applied { IsStreamedOnSome FT.FormatTime W.Output draft.call result }
        ensures draft { IfErr result (λ e. e.draft ≡ draft) }
    {
        self.lock.lock(rt).apply(draft)
    }

    /// Flushes the writer. May wait for the lock.
    pub fn flush<R: Wait>(&self, rt: &R) {
        self.lock.lock(rt).flush();
    }

    /// Returns the registry with its layer, and the number of accepted calls.
    pub fn into_counted(self) -> Counted<W, FT> {
        self.lock.into_inner()
    }
}
