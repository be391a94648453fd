//! Styles and levels.

mod surface;

ghost use Rattle.std.specs.Prelude.{◌≡◌, ◌≤◌, ◌++◌, ◌∷◌, [], IfOk, OnOk, OnErr, length, string_bytes};
ghost use Rattle.tracing_tree_base.specs.Style.{style_code, styled, level_text, color_level_text, shown_level};

use std::alloc::{AllocError, Global};
use std::fmt;
use std::str::FromStr;
pub use surface::ColorLevel;
use thiserror::Error;

/// A style of a string on a terminal.
#[derive(Clone, Copy, Debug, PartialEq, Eq)]
pub enum Style {
    /// Unchanged.
    Plain,
    Dimmed,
    BoldGreen,
    BoldPurple,
    BoldBlue,
    /// Bold, in the yellow of a warning.
    BoldWarn,
    BoldRed,
}

impl Style {
    // Returns the escape sequence that starts the style.
    fn start(self) -> &'static str
        ensures text { result.now ≡ 27 ∷ 91 ∷ style_code self ++ 109 ∷ [] }
        ensures short { length result.now ≤ 23 }
    {
        match self {
            Style::Plain => "\x1b[0m",
            Style::Dimmed => "\x1b[2m",
            Style::BoldGreen => "\x1b[1;32m",
            Style::BoldPurple => "\x1b[1;35m",
            Style::BoldBlue => "\x1b[1;34m",
            Style::BoldWarn => "\x1b[1;38;2;252;234;160m",
            Style::BoldRed => "\x1b[1;31m",
        }
    }
}

/// Returns the string in a style, between the escape sequences that start and end it. If `ansi` is
/// off, or the style is `Plain`, it is unchanged. (docs/reference/formats.md, "Styles",
/// defines the styles.)
///
/// # Errors
///
/// `AllocError` if an allocation fails.
pub fn styled(alloc: Global, ansi: bool, style: Style, text: &str) -> Result<String, AllocError>
    ensures { IfOk result (λ made. string_bytes made ≡ styled ansi style text.now) }
{
    let mut painted = String::new(alloc);
    push_styled(&mut painted, ansi, style, text)?;
    Ok(painted)
}

/// Appends the string in a style, like [`styled`].
///
/// # Errors
///
/// `AllocError` if an allocation fails. `out` is unchanged then.
#[inline(always)]
pub fn push_styled(out: &mut String, ansi: bool, style: Style, text: &str) -> Result<(), AllocError>
    ensures ok { OnOk result (string_bytes out.new
        ≡ string_bytes out.old ++ styled ansi style text.now) }
    ensures err { OnErr result (string_bytes out.new ≡ string_bytes out.old) }
{
    if !ansi || style == Style::Plain {
        return out.push_str(text);
    }
    let start = style.start();
    out.reserve(start.len() + text.len() + 4)?;
    out.push_str(start)?;
    out.push_str(text)?;
    out.push_str("\x1b[0m")
}

/// The severity of an event. As in `tracing`, a more verbose level is greater: `Error` is the least
/// level, and `Trace` the greatest.
#[derive(Clone, Copy, Debug, PartialEq, Eq, PartialOrd, Ord, Hash)]
pub enum Level {
    Error,
    Warn,
    Info,
    Debug,
    Trace,
}

impl Level {
    /// Returns the level's name in capitals, as `tracing` shows it.
    pub fn as_str(&self) -> &'static str
        ensures { result.now ≡ level_text self.now }
    {
        match self {
            Level::Trace => "TRACE",
            Level::Debug => "DEBUG",
            Level::Info => "INFO",
            Level::Warn => "WARN",
            Level::Error => "ERROR",
        }
    }
}

/// Displays a level's name, padded as the format says.
impl fmt::Display for Level {
    ghost use Rattle.std.specs.Prelude.{Some};
    ghost use Rattle.std.specs.Fmt.{padded};
    ghost use Rattle.tracing_tree_base.specs.Style.{level_text};

    ghost output = { λ level. Some (level_text level) };

    ghost styled_output = { λ level spec. Some (padded spec (level_text level)) };

    fn fmt<W: fmt::Write>(&self, f: &mut fmt::Formatter<W>) -> fmt::Result {
        f.pad(self.as_str())
    }
}

/// The string isn't a level's name.
#[derive(Clone, Copy, Debug, PartialEq, Eq, Error)]
#[error("expected TRACE, DEBUG, INFO, WARN or ERROR")]
pub struct ParseLevelError;

/// Parses a level's name, as `as_str` returns it.
///
/// # Errors
///
/// `ParseLevelError` for any other string, including a name in lowercase.
impl FromStr for Level {
    ghost use Rattle.tracing_tree_base.specs.Style.{ReadsLevel};

    type Err = ParseLevelError;

    ghost from_str_gives = { ReadsLevel };

    fn from_str(text: &str) -> Result<Level, ParseLevelError> {
        match text {
            "TRACE" => Ok(Level::Trace),
            "DEBUG" => Ok(Level::Debug),
            "INFO" => Ok(Level::Info),
            "WARN" => Ok(Level::Warn),
            "ERROR" => Ok(Level::Error),
            _ => Err(ParseLevelError),
        }
    }
}

// Returns the level in its colour, right-aligned in five columns.
pub(crate) fn painted(level: &Level) -> &'static str
    ensures { result.now ≡ color_level_text level.now }
{
    match level {
        Level::Trace => "\x1b[1;35mTRACE\x1b[0m",
        Level::Debug => "\x1b[1;34mDEBUG\x1b[0m",
        Level::Info => "\x1b[1;32m INFO\x1b[0m",
        Level::Warn => "\x1b[1;38;2;252;234;160m WARN\x1b[0m",
        Level::Error => "\x1b[1;31mERROR\x1b[0m",
    }
}

/// Appends a level as an event shows it. If `ansi` is on, it is in colour and right-aligned in five
/// columns. Otherwise it is the name.
///
/// # Errors
///
/// `AllocError` if an allocation fails. `out` is unchanged then.
pub fn push_level(out: &mut String, ansi: bool, level: Level) -> Result<(), AllocError>
    ensures ok { OnOk result (string_bytes out.new
        ≡ string_bytes out.old ++ shown_level ansi level) }
    ensures err { OnErr result (string_bytes out.new ≡ string_bytes out.old) }
{
    if ansi {
        return out.push_str(painted(&level));
    }
    // Each name is a separate constant, so no copy has an unknown length.
    match level {
        Level::Trace => out.push_str("TRACE"),
        Level::Debug => out.push_str("DEBUG"),
        Level::Info => out.push_str("INFO"),
        Level::Warn => out.push_str("WARN"),
        Level::Error => out.push_str("ERROR"),
    }
}
