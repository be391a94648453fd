//! What prove prints around TAP.

ghost use Rattle.std.specs.Prelude.{◌≡◌, IfOk, OnOk, None};
ghost use Rattle.ttree_tap.specs.Tap.{file_come, file_opened, file_taken, good_emitted, is_in_file, judged, part_after, part_before, part_in_file, part_of, summary_begun, summary_over, summary_taken, tail_taken, verdict_taken, verdict_emitted};
ghost use Rattle.ttree_tap.specs.Texts.{good_text, time_fields};

use super::results::length_if;
use super::subtests::Subtest;
use super::waiting::push_field;
use super::{Mode, Tap};
use crate::line::{
    begins_summary, ends_summary, is_failed_summary, is_file, is_stamp, name_of_file, tail_of_file,
    verdict_level, verdict_time,
};
use crate::queue::Role;
use crate::strings::without_end;
use std::alloc::{AllocError, Global};
use tracing_tree_base::field::Field;
use tracing_tree_base::style::Level;
use tracing_tree_base::text::Text;

// What a line is in prove's output.
#[derive(Clone, Copy)]
pub(crate) enum Part {
    // The name of a file.
    File,
    // How a file ended.
    Verdict(Level),
    // A time of day.
    Stamp,
    // The first line of the summary.
    Summary,
    // A line of a script.
    Line,
}

// Returns what a line is in this mode.
pub(super) fn part_of(mode: Mode, text: &str) -> Part
    ensures { result ≡ part_of mode text.now }
{
    match mode {
        Mode::Start | Mode::Over => part_before(text),
        Mode::File => part_in_file(text),
        Mode::Judged => part_after(text),
        Mode::Script | Mode::Summary | Mode::Bailed => Part::Line,
    }
}

// Returns what a line is before the first line of TAP.
fn part_before(text: &str) -> Part
    ensures { result ≡ part_before text.now }
{
    if is_file(text) {
        Part::File
    } else if begins_summary(text) {
        Part::Summary
    } else {
        Part::Line
    }
}

// Returns what a line is after a verdict.
fn part_after(text: &str) -> Part
    ensures { result ≡ part_after text.now }
{
    if is_file(text) {
        return Part::File;
    }
    part_in_file(text)
}

// Returns what a line is in a file without a verdict.
fn part_in_file(text: &str) -> Part
    ensures { result ≡ part_in_file text.now }
{
    if begins_summary(text) {
        return Part::Summary;
    }
    if is_stamp(text) {
        return Part::Stamp;
    }
    match verdict_level(without_end(" ", text)) {
        Some(level) => Part::Verdict(level),
        None => Part::Line,
    }
}

impl Tap {
    // Takes the line that names a file, perhaps with a verdict.
    #[tactic(auto, unfolding(crate::specs::Tap::file_taken))]
    pub(super) fn take_file(&mut self, text: &str) -> Result<(), AllocError>
        ensures { OnOk result (self.new ≡ file_taken text.now self.old) }
    {
        self.heading = None;
        self.leave_deeper(0)?;
        self.come_to_file(name_of_file(text))?;
        self.take_tail(without_end(" ", tail_of_file(text)))
    }

    // Opens a file, unless it is open.
    #[tactic(auto, unfolding(crate::specs::Tap::file_come))]
    fn come_to_file(&mut self, name: &str) -> Result<(), AllocError>
        ensures { OnOk result (self.new ≡ file_come name.now self.old) }
    {
        if self.is_in_file(name) {
            return Ok(());
        }
        self.close_script()?;
        self.open_file(name)
    }

    fn is_in_file(&self, name: &str) -> bool
        ensures { result ≡ is_in_file name.now self.now }
    {
        self.subtest.name.as_str() == name
    }

    fn open_file(&mut self, name: &str) -> Result<(), AllocError>
        ensures { OnOk result (self.new ≡ file_opened name.now self.old) }
    {
        let span = self.open(name, None)?;
        let name = Text::from_str(self.alloc, name)?;
        self.subtest = Subtest::new(0, span, name);
        self.mode = Mode::File;
        Ok(())
    }

    // Takes what follows the name of a file.
    fn take_tail(&mut self, tail: &str) -> Result<(), AllocError>
        ensures { OnOk result (self.new ≡ tail_taken tail.now self.old) }
    {
        match verdict_level(tail) {
            Some(level) => self.push_verdict(level, tail),
            None => Ok(()),
        }
    }

    #[tactic(auto, unfolding(crate::specs::Tap::verdict_taken))]
    pub(super) fn take_verdict(&mut self, level: Level, text: &str) -> Result<(), AllocError>
        ensures { OnOk result (self.new ≡ verdict_taken level text.now self.old) }
    {
        self.heading = None;
        self.leave_deeper(0)?;
        self.push_verdict(level, without_end(" ", text))
    }

    fn push_verdict(&mut self, level: Level, text: &str) -> Result<(), AllocError>
        ensures { OnOk result (self.new ≡ verdict_emitted level text.now self.old) }
    {
        match level {
            Level::Error => self.push_error(text, self.subtest.span)?,
            _ => self.push_good(level, text)?,
        }
        self.judge();
        Ok(())
    }

    // Records a verdict without a failure. How long the file took is its time.
    fn push_good(&mut self, level: Level, text: &str) -> Result<(), AllocError>
        ensures { OnOk result (self.new ≡ good_emitted level text.now self.old) }
    {
        let time = verdict_time(text);
        let fields = time_fields(self.alloc, time)?;
        let span = self.subtest.span;
        self.push_row(Role::End, level, good_text(time, text), fields, span)
    }

    // A file with a verdict needs no plan.
    fn judge(&mut self)
        ensures { self.new ≡ judged self.old }
    {
        self.mode = Mode::Judged;
        self.subtest.planned = None;
    }

    #[tactic(auto, unfolding(crate::specs::Tap::summary_begun))]
    pub(super) fn begin_summary(&mut self) -> Result<(), AllocError>
        ensures { OnOk result (self.new ≡ summary_begun self.old) }
    {
        self.heading = None;
        self.leave_deeper(0)?;
        self.close_script()?;
        self.mode = Mode::Summary;
        Ok(())
    }

    // Takes a line of the summary.
    #[tactic(auto, unfolding(crate::specs::Tap::summary_taken))]
    pub(super) fn take_summary(&mut self, text: &str) -> Result<(), AllocError>
        ensures { OnOk result (self.new ≡ summary_taken text.now self.old) }
    {
        if ends_summary(text) {
            return self.end_summary(text);
        }
        Ok(())
    }

    // Ends the summary. A failure in it is an error, unless something is one already.
    fn end_summary(&mut self, text: &str) -> Result<(), AllocError>
        ensures { OnOk result (self.new ≡ summary_over text.now self.old) }
    {
        self.mode = Mode::Over;
        if is_failed_summary(text) && !self.has_failed() {
            return self.push_error(text, None);
        }
        Ok(())
    }
}

// Returns the fields of a verdict.
fn time_fields(alloc: Global, time: Option<u64>) -> Result<Vec<Field>, AllocError>
    ensures { IfOk result (λ fields. fields.items ≡ time_fields time) }
{
    let elapsed = length_if(alloc, time)?;
    let mut fields = Vec::new(alloc);
    push_field(alloc, &mut fields, "time", elapsed.as_str())?;
    Ok(fields)
}

// Returns what is shown of a verdict.
fn good_text(time: Option<u64>, text: &str) -> &str
    ensures { result.now ≡ good_text time text.now }
{
    match time {
        Some(_) => "ok",
        None => text,
    }
}
