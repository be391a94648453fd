//! The calls that weren't returned yet.

ghost use Rattle.std.specs.Prelude.{◌≡◌, ◌++◌, [], false, length, OnOk};
ghost use Rattle.ttree_tap.specs.Queue.{base_of, call_added, claimed, claimed_line, claimed_lines, closing_added_to, empty_queue, end_added, failed_added, failure_added, good_added, has_part, held_too, is_held, is_named, let_go, line_added, message_of, opening_added, readied, value_in};

use std::alloc::{AllocError, Global};
use std::collections::VecDeque;
use std::marker::Model;
use std::mem;
use tracing_tree_base::field::Field;
use tracing_tree_layer::call::Call;

// What a call says of the tests.
#[derive(Clone, Copy)]
pub(crate) enum Role {
    // A result that didn't fail.
    Good,
    // A span's result that didn't fail.
    End,
    // A failure.
    Failure,
    // A line that a test printed, or one of a block.
    Output,
    // A comment.
    Comment,
    // A span opens.
    Opening,
    // A span closes.
    Closing,
}

// A line before the next test.
#[derive(Drop)]
pub(crate) struct Line {
    call: Call,
    is_comment: bool,
}

// The calls that weren't returned yet. If only what failed is returned, calls are held until
// something fails.
#[derive(Drop)]
pub(crate) struct Queue {
    alloc: Global,
    is_failed_only: bool,
    ready: Vec<Call>,
    held: Vec<Call>,
    // For each open span that is held, how many calls are held up to its own. The innermost is
    // first.
    opens: VecDeque<usize>,
    // The lines since the last result, or since a span opened.
    lines: Vec<Line>,
    is_after_failure: bool,
}

impl Model for Queue {
    ghost use Rattle.ttree_tap.specs.Queue.{QueueState};

    ghost Value = { QueueState };

    ghost view = { λ q. record {
      is_failed_only = q.is_failed_only;
      ready = q.ready.items;
      held = q.held.items;
      opens = q.opens.items;
      lines = q.lines.items;
      is_after_failure = q.is_after_failure;
    } };
}

impl Queue {
    pub(crate) fn new(alloc: Global, is_failed_only: bool) -> Queue
        ensures { result ≡ empty_queue is_failed_only }
    {
        Queue {
            alloc,
            is_failed_only,
            ready: Vec::new(alloc),
            held: Vec::new(alloc),
            opens: VecDeque::new(alloc),
            lines: Vec::new(alloc),
            is_after_failure: false,
        }
    }

    // Returns the calls that are ready.
    pub(crate) fn take(&mut self) -> Vec<Call>
        ensures ready { result.items ≡ self.old.ready }
        ensures rest { self.new ≡ record self.old { ready = [] } }
    {
        mem::replace(&mut self.ready, Vec::new(self.alloc))
    }

    // Returns whether the innermost span is held, so that its close leaves it out.
    pub(crate) fn is_held(&self) -> bool
        ensures { result ≡ is_held self.now }
    {
        self.is_failed_only && !self.opens.is_empty()
    }

    // Adds a call.
    #[tactic(auto, unfolding(crate::specs::Queue::call_added))]
    pub(crate) fn add(&mut self, role: Role, call: Call) -> Result<(), AllocError>
        ensures { OnOk result (self.new ≡ call_added role call self.old) }
    {
        if self.is_failed_only {
            self.add_failed(role, call)
        } else {
            self.ready(call)
        }
    }

    // Adds a call if only what failed is returned.
    fn add_failed(&mut self, role: Role, call: Call) -> Result<(), AllocError>
        ensures { OnOk result (self.new ≡ failed_added role call self.old) }
    {
        match role {
            Role::Good => {
                self.add_good();
                Ok(())
            }
            Role::End => self.add_end(call),
            Role::Failure => self.add_failure(call),
            Role::Output => self.add_line(false, call),
            Role::Comment => self.add_line(true, call),
            Role::Opening => self.add_opening(call),
            Role::Closing => self.add_closing(call),
        }
    }

    fn ready(&mut self, call: Call) -> Result<(), AllocError>
        ensures { OnOk result (self.new ≡ readied call self.old) }
    {
        Ok(self.ready.push(call)?)
    }

    fn hold(&mut self, call: Call) -> Result<(), AllocError>
        ensures { OnOk result (self.new ≡ held_too call self.old) }
    {
        Ok(self.held.push(call)?)
    }

    // Leaves out what is held since the innermost span opened, and the lines since then.
    fn let_go(&mut self)
        ensures { self.new ≡ let_go self.old }
    {
        let base = self.base();
        self.held.truncate(base);
        self.lines.clear();
    }

    // Holds the lines that belong to the test of this name. The others belong to what came before
    // them, and are left out.
    #[tactic(auto, unfolding(crate::specs::Queue::claimed))]
    pub(crate) fn claim(&mut self, name: &str) -> Result<(), AllocError>
        ensures { OnOk result (self.new ≡ claimed name.now self.old) }
    {
        let lines = mem::replace(&mut self.lines, Vec::new(self.alloc));
        push_claimed(&mut self.held, name, lines)
    }

    fn base(&self) -> usize
        ensures { result ≡ base_of self.now.opens }
    {
        match self.opens.front() {
            Some(base) => *base,
            None => 0,
        }
    }

    // Leaves out a result that didn't fail, and the lines before it.
    fn add_good(&mut self)
        ensures { self.new ≡ good_added self.old }
    {
        self.let_go();
        self.is_after_failure = false;
    }

    // Adds the result of a span, unless the span is held.
    fn add_end(&mut self, call: Call) -> Result<(), AllocError>
        ensures { OnOk result (self.new ≡ end_added call self.old) }
    {
        self.add_good();
        if self.opens.is_empty() {
            return self.ready(call);
        }
        Ok(())
    }

    // Adds a failure, after what is held.
    fn add_failure(&mut self, call: Call) -> Result<(), AllocError>
        ensures { OnOk result (self.new ≡ failure_added call self.old) }
    {
        self.claim("")?;
        self.ready.append(&mut self.held)?;
        self.ready.push(call)?;
        self.opens.clear();
        self.is_after_failure = true;
        Ok(())
    }

    fn add_line(&mut self, is_comment: bool, call: Call) -> Result<(), AllocError>
        ensures { OnOk result (self.new ≡ line_added is_comment call self.old) }
    {
        if self.is_after_failure {
            self.ready(call)
        } else {
            Ok(self.lines.push(Line { call, is_comment })?)
        }
    }

    fn add_opening(&mut self, call: Call) -> Result<(), AllocError>
        ensures { OnOk result (self.new ≡ opening_added call self.old) }
    {
        self.claim("")?;
        self.hold(call)?;
        self.opens.push_front(self.held.len())?;
        self.is_after_failure = false;
        Ok(())
    }

    // Leaves out a span that is held, or adds its close.
    fn add_closing(&mut self, call: Call) -> Result<(), AllocError>
        ensures { OnOk result (self.new ≡ closing_added_to self.old.opens call self.old) }
    {
        let is_held = self.opens.pop_front().is_some();
        self.let_go();
        if is_held { Ok(()) } else { self.ready(call) }
    }
}

// Appends the lines that belong to the test of this name.
fn push_claimed(out: &mut Vec<Call>, name: &str, lines: Vec<Line>) -> Result<(), AllocError>
    ensures { OnOk result (out.new.items ≡ out.old.items ++ claimed_lines false name.now
        lines.items) }
{
    let mut was_named = false;
    for line in lines {
        was_named = was_named || is_named(name, &line);
        push_line(out, was_named, line)?;
    }
    Ok(())
}

// Appends a line that is output, or comes after a comment with the test's name.
fn push_line(out: &mut Vec<Call>, was_named: bool, line: Line) -> Result<(), AllocError>
    ensures { OnOk result (out.new.items ≡ out.old.items ++ claimed_line was_named line) }
{
    let Line { call, is_comment } = line;
    if was_named || !is_comment {
        out.push(call)?;
    }
    Ok(())
}

// Returns whether a line is a comment with this name.
fn is_named(name: &str, line: &Line) -> bool
    ensures { result ≡ is_named name.now line.now }
{
    line.is_comment && !name.is_empty() && has_part(name, message_of(&line.call))
}

// Returns what an event says.
fn message_of(call: &Call) -> &str
    ensures { result.now ≡ message_of call.now }
{
    match call {
        Call::Event(event, _) => value_in(event.fields.as_slice()),
        Call::New(_, _) | Call::Clone(_) | Call::Record(_, _) | Call::Close(_, _) => "",
    }
}

fn value_in(fields: &[Field]) -> &str
    ensures { result.now ≡ value_in fields.now }
{
    match fields {
        [field, ..] => field.value.as_str(),
        [] => "",
    }
}

fn has_part(part: &str, text: &str) -> bool
    ensures { result ≡ has_part part.now text.now }
{
    let mut rest = text.as_bytes();
    while let [_, others @ ..] = rest {
        if rest.starts_with(part.as_bytes()) {
            return true;
        }
        rest = others;
    }
    part.is_empty()
}
