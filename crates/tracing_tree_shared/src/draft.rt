//! Calls that aren't made yet, drawn as far as possible before the lock is taken.

ghost use Rattle.std.specs.Prelude.{◌≡◌, IfOk, IfSome, false, option_map};
ghost use Rattle.tracing_tree_layer.specs.Layer.Layers.{seen, Changes};
ghost use Rattle.tracing_tree_shared.specs.Drafts.{IsTailOf, tail_under, tail_text};
ghost use Rattle.tracing_tree_shared.specs.Books.{IsAnsweredOrLacks};

use std::alloc::{AllocError, Global};
use std::boxed::Box;
use std::marker::Model;
use tracing_tree_base::Refusal;
use tracing_tree_drawing::format::Config;
use tracing_tree_layer::Layered;
use tracing_tree_layer::call::{Call, Reply};
use tracing_tree_layer::layer::push_event_tail;
use tracing_tree_output::Output;
use tracing_tree_time::FormatTime;

// The level, target and fields of an event as drawn, and the two settings that they were drawn
// with.
#[derive(Debug, Drop)]
struct Tail {
    ansi: bool,
    targets: bool,
    text: String,
}

impl Model for Tail {
    ghost use Rattle.std.specs.Prelude.{string_bytes};
    ghost use Rattle.tracing_tree_shared.specs.Drafts.{TailView};

    ghost Value = { TailView };

    ghost view = { λ t. record { ansi = t.ansi; targets = t.targets; text = string_bytes t.text } };
}

/// A call that isn't made yet. For an event, the level, target and fields are already drawn: its
/// tail.
#[derive(Debug, Drop)]
pub struct Draft {
    // In a box, like the copy: drafts and receipts are moved under the lock.
    call: Box<Call, Global>,
    tail: Option<Tail>,
    // The copy for a history, if it was made before the lock was taken.
    copy: Option<Box<Call, Global>>,
}

impl Model for Draft {
    ghost use Rattle.std.specs.Prelude.{option_map};
    ghost use Rattle.tracing_tree_shared.specs.Drafts.{DraftView, KeepsTail, IsCopyOf};

    ghost Value = { DraftView };

    ghost view = { λ d. record { call = d.call.value; tail = d.tail } };

    ghost invariant = { λ d. KeepsTail d.call.value d.tail
        × IsCopyOf d.call.value (option_map (λ copy. copy.value) d.copy) };
}

impl Draft {
    /// Returns a draft of this call. An event's tail is drawn with these settings.
    ///
    /// # Errors
    ///
    /// `AllocError` if an allocation fails.
    pub fn new(alloc: Global, config: &Config, call: Call) -> Result<Draft, AllocError>
        ensures call { IfOk result (λ draft. draft.call ≡ call) }
        ensures tail { IfOk result (λ draft. draft.tail
            ≡ tail_under config.now.ansi config.now.targets call) }
    {
        let tail = drawn_tail(alloc, config, &call)?;
        Ok(Draft {
            call: Box::new(alloc, call)?,
            tail,
            copy: None,
        })
    }

    // Returns the draft with a copy of its call, so that `take_copy` never allocates.
    pub(crate) fn with_copy(self, alloc: Global) -> Result<Draft, AllocError>
        ensures { IfOk result (λ draft. draft ≡ self) }
    {
        let copy = Some(Box::new(alloc, self.call.copied()?)?);
        let Draft {
            call,
            tail,
            copy: _,
        } = self;
        Ok(Draft { call, tail, copy })
    }

    // Returns a copy of the call: the one that was made before, if there is one.
    pub(crate) fn take_copy(&mut self) -> Result<Call, AllocError>
        ensures copy { IfOk result (λ copy. copy ≡ self.old.call) }
        ensures same { self.new ≡ self.old }
    {
        match self.copy.take() {
            Some(copy) => Ok(Box::into_inner(copy)),
            None => self.call.copied(),
        }
    }

    /// Returns the call.
    pub fn call(&self) -> &Call
        ensures { result.now ≡ self.now.call }
    {
        self.call.as_ref()
    }

    /// Returns the tail of an event, or `None` for another call.
    pub fn tail(&self) -> Option<&str>
        ensures { option_map (λ text. text.now) result ≡ tail_text self.now.tail }
    {
        match &self.tail {
            Some(tail) => Some(tail.text.as_str()),
            None => None,
        }
    }

    // Returns the tail, if it was drawn with the same ansi and targets as in these settings.
    pub(crate) fn tail_under(&self, config: &Config) -> Option<&str>
        ensures { IfSome result (λ text. IsTailOf config.now self.now.call text.now) }
    {
        match &self.tail {
            Some(tail) if tail.ansi == config.ansi() && tail.targets == config.targets() => {
                Some(tail.text.as_str())
            }
            _ => None,
        }
    }

    // Makes the call. The draft keeps it.
    pub(crate) fn emit<W: Output, FT: FormatTime>(
        &self,
        layered: &mut Layered<W, FT>,
    ) -> Result<Reply, Refusal>
        requires { layered.old.layer.failed ≡ false }
        ensures { Changes (seen FT.FormatTime W.Output) (IsAnsweredOrLacks self.now.call result)
            layered.old layered.new }
    {
        let tail = self.tail_under(layered.layer().config());
        match self.call.as_ref() {
            Call::Event(event, context) => layered.call_event(event, context, tail),
            call => {
                let Ok(emitted) = call.copied() else {
                    return Err(Refusal::Memory);
                };
                layered.call(emitted)
            }
        }
    }

    // Returns the call.
    pub(crate) fn into_call(self) -> Box<Call, Global>
        ensures { result.value ≡ self.call }
    {
        self.call
    }
}

// Returns the tail of an event.
fn drawn_tail(alloc: Global, config: &Config, call: &Call) -> Result<Option<Tail>, AllocError>
    ensures { IfOk result (λ tail. tail ≡ tail_under config.now.ansi config.now.targets call.now) }
{
    let Call::Event(event, _) = call else {
        return Ok(None);
    };
    let mut text = String::new(alloc);
    push_event_tail(&mut text, config, event)?;
    Ok(Some(Tail {
        ansi: config.ansi(),
        targets: config.targets(),
        text,
    }))
}

/// A refused draft, with the cause.
#[derive(Debug, Drop)]
pub struct Refused {
    pub draft: Draft,
    pub cause: Refusal,
}
