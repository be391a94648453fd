//! The output of builds, which is reported once it is known whether the build fails.

ghost use Rattle.std.specs.Prelude.{◌≡◌, ◌++◌, ◌∷◌, [], IfOk, OnOk};
ghost use Rattle.ttree_go_test.specs.Names.{named};
ghost use Rattle.ttree_go_test.specs.GoTest.{new_running, build_last, build_of, build_printed, build_said, build_emitted, builds_said, builds_emitted, holds, level_of_build, more_built, only_closed, texts_emitted, emitted_of_build, with_build, without_build, without_heading};

use super::GoTest;
use super::running::Running;
use super::text::{is_progress, without_line_end};
use crate::names::Named;
use std::alloc::{AllocError, Global};
use std::marker::Model;
use tracing_tree_base::style::Level;
use tracing_tree_base::text::Text;
use tracing_tree_lines::lines::is_skipped;

// Strings in their order.
#[derive(Drop)]
pub(super) struct Texts {
    texts: Vec<Text>,
}

impl Model for Texts {
    ghost use Rattle.std.specs.Prelude.{List, ℕ};

    ghost Value = { List (List ℕ) };

    ghost view = { λ t. t.texts.items };
}

impl Texts {
    fn new(alloc: Global) -> Texts
        ensures { result ≡ [] }
    {
        Texts {
            texts: Vec::new(alloc),
        }
    }

    fn push(&mut self, text: Text) -> Result<(), AllocError>
        ensures { OnOk result (self.new ≡ self.old ++ text ∷ []) }
    {
        Ok(self.texts.push(text)?)
    }

    fn as_slice(&self) -> &[Text]
        ensures { result.now ≡ self.now }
    {
        self.texts.as_slice()
    }
}

// The output of a package's build that hasn't been reported yet.
#[derive(Drop)]
pub(super) struct Build {
    path: Text,
    texts: Texts,
}

impl Build {
    fn new(alloc: Global, path: &str) -> Result<Build, AllocError>
        ensures { IfOk result (λ build. build ≡ record { path = path.now; texts = [] }) }
    {
        Ok(Build {
            path: Text::from_str(alloc, path)?,
            texts: Texts::new(alloc),
        })
    }

    // Adds a string.
    fn push(&mut self, alloc: Global, text: &str) -> Result<(), AllocError>
        ensures { OnOk result (self.new ≡ more_built text.now self.old) }
    {
        self.texts.push(Text::from_str(alloc, text)?)
    }
}

impl GoTest {
    // Adds output of a build.
    pub(super) fn print_build(&mut self, path: &str, text: &str) -> Result<(), AllocError>
        ensures { OnOk result (self.new ≡ build_printed path.now text.now self.old) }
    {
        let mut build = self.take_build(path)?;
        build.push(self.alloc, text)?;
        self.put_build(path, build)
    }

    // Takes out the output of a build.
    fn take_build(&mut self, path: &str) -> Result<Build, AllocError>
        ensures build { IfOk result (λ build. build ≡ build_of path.now self.old) }
        ensures rest { OnOk result (self.new ≡ without_build path.now self.old) }
    {
        match self.builds.take(path.as_bytes())? {
            Some(build) => Ok(build),
            None => Build::new(self.alloc, path),
        }
    }

    // Puts back the output of a build.
    fn put_build(&mut self, path: &str, build: Build) -> Result<(), AllocError>
        ensures { OnOk result (self.new ≡ with_build path.now build self.old) }
    {
        self.builds.put(self.alloc, path.as_bytes(), build)
    }

    // Reports the output of a package's build, in its package.
    pub(super) fn emit_build(&mut self, level: Level, path: &str) -> Result<(), AllocError>
        ensures { OnOk result (self.new ≡ build_emitted level path.now self.old) }
    {
        match self.take_known_build(path)? {
            Some(build) => self.emit_texts(level, &build),
            None => Ok(()),
        }
    }

    // Takes out the output of a build, if there is any.
    fn take_known_build(&mut self, path: &str) -> Result<Option<Build>, AllocError>
        ensures build { IfOk result (λ build. build ≡ named path.now self.old.builds) }
        ensures rest { OnOk result (self.new ≡ without_build path.now self.old) }
    {
        self.builds.take(path.as_bytes())
    }

    // Reports the output of each of these builds, when no package is running.
    pub(super) fn emit_builds(&mut self, builds: Named<Build>) -> Result<(), AllocError>
        ensures { OnOk result (self.new ≡ builds_emitted builds self.old) }
    {
        let mut builds = builds;
        while let Some((_, build)) = builds.take_first()? {
            self.emit_last(&build)?;
        }
        Ok(())
    }

    // Reports the output of a build in a span that closes after it.
    fn emit_last(&mut self, build: &Build) -> Result<(), AllocError>
        ensures { OnOk result (self.new ≡ build_last build.now self.old) }
    {
        let mut owner = Running::begun(self.alloc, build.path.as_str(), "")?;
        self.say_texts(Level::Warn, &mut owner, build.texts.as_slice())?;
        self.close_only(owner)
    }

    // Closes a span without an end, if there is one.
    pub(super) fn close_only(&mut self, one: Running) -> Result<(), AllocError>
        ensures { OnOk result (self.new ≡ only_closed one.span (holds one self.old)) }
    {
        match one.span {
            Some(id) => self.push_close(id, one.parent),
            None => Ok(()),
        }
    }

    // Reports the output of a build in its package.
    fn emit_texts(&mut self, level: Level, build: &Build) -> Result<(), AllocError>
        ensures { OnOk result (self.new ≡ texts_emitted level build.now self.old) }
    {
        let mut owner = self.take_owner(build.path.as_str(), "")?;
        self.say_texts(level, &mut owner, build.texts.as_slice())?;
        self.keep(owner)
    }

    fn say_texts(
        &mut self,
        level: Level,
        owner: &mut Running,
        texts: &[Text],
    ) -> Result<(), AllocError>
        ensures { OnOk result (holds owner.new self.new
            ≡ builds_said level texts.now (holds owner.old self.old)) }
    {
        let mut rest = texts;
        while let [text, later @ ..] = rest {
            self.say_text(level, owner, text.as_str())?;
            rest = later;
        }
        Ok(())
    }

    // Reports a string of a build, unless it is blank without its heading.
    fn say_text(&mut self, level: Level, owner: &mut Running, text: &str) -> Result<(), AllocError>
        ensures { OnOk result (holds owner.new self.new
            ≡ build_said level text.now (holds owner.old self.old)) }
    {
        let line = without_line_end(without_heading(text));
        if is_skipped(line.as_bytes()) {
            return Ok(());
        }
        self.open(owner)?;
        self.push_event(level_of_build(level, line), line, owner.span)
    }
}

// Returns the level of a line: what `go` says about what it fetches is no part of a failure.
fn level_of_build(level: Level, line: &str) -> Level
    ensures { result ≡ level_of_build level line.now }
{
    if is_progress(line.as_bytes()) {
        Level::Info
    } else {
        level
    }
}

// Removes the first line of a string, if it names the package.
fn without_heading(text: &str) -> &str
    ensures { result.now ≡ without_heading text.now }
{
    if !text.as_bytes().starts_with("# ".as_bytes()) {
        return text;
    }
    match text.split_once('\n') {
        Some((_, rest)) => rest,
        None => "",
    }
}
