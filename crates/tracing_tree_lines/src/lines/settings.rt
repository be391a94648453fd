//! The settings of the first line.

mod timer;

ghost use Rattle.std.specs.Prelude.{◌≡◌, ◌<◌, IfOk, IfSome, option_map};
ghost use Rattle.serde_json.specs.View.{view};
ghost use Rattle.tracing_tree_time.specs.Clock.{clock_timer};
ghost use Rattle.tracing_tree_lines.specs.Lines.Values.{asked_of, asked_timer, ReadsFirst};
ghost use Rattle.tracing_tree_lines.specs.Lines.Spelled.{is_settings, object_settings, positive_value, unnamed_settings, with_member, with_setting};

use super::LineCause;
use super::value::unless_null;
use serde_json::Value;
use std::alloc::{AllocError, Global};
use std::marker::Model;
use timer::{Timer, timer_value};
use tracing_tree_drawing::format::Config;
use tracing_tree_time::Clock;

/// The settings and the timer that the first line names.
#[derive(Drop)]
pub struct Setup {
    config: Config,
    timer: Timer,
}

impl Model for Setup {
    ghost use Rattle.tracing_tree_drawing.specs.Format.Settings.{Settings};
    ghost use Rattle.tracing_tree_lines.specs.declared.lines.settings.timer.Timer.{Timer};

    ghost Value = { Settings × Timer };

    ghost view = { λ s. (s.config, s.timer) };
}

impl Setup {
    // Returns the setup of an object without settings.
    fn unnamed() -> Setup
        ensures { asked_of result ≡ unnamed_settings }
    {
        Setup {
            config: Config::new(2, false),
            timer: Timer::None,
        }
    }

    // Returns the setup with one more setting. `None` if the key is unknown or its value is
    // invalid.
    fn with(self, key: &str, value: &Value) -> Option<Setup>
        ensures { option_map asked_of result
            ≡ with_setting key.now (view value.now) (asked_of self) }
    {
        let Setup { config, timer } = self;
        let config = match key {
            "timer" => {
                let timer = timer_value(value)?;
                return Some(Setup { config, timer });
            }
            "indent_amount" => config.with_indent_amount(value.as_u64()? as usize),
            "wraparound" => config.with_wraparound(positive_value(value)?),
            "ansi" => config.with_ansi(value.as_bool()?),
            "indent_lines" => config.with_indent_lines(value.as_bool()?),
            "targets" => config.with_targets(value.as_bool()?),
            "thread_ids" => config.with_thread_ids(value.as_bool()?),
            "thread_names" => config.with_thread_names(value.as_bool()?),
            "verbose_entry" => config.with_verbose_entry(value.as_bool()?),
            "verbose_exit" => config.with_verbose_exit(value.as_bool()?),
            "span_retrace" => config.with_span_retrace(value.as_bool()?),
            "deferred_spans" => config.with_deferred_spans(value.as_bool()?),
            "close_retrace" => config.with_close_retrace(value.as_bool()?),
            "span_modes" => config.with_span_modes(value.as_bool()?),
            "bracketed_fields" => config.with_bracketed_fields(value.as_bool()?),
            _ => return None,
        };
        Some(Setup { config, timer })
    }

    // Returns the setup with a member of the object. A null changes nothing.
    fn with_member(self, key: &str, value: &Value) -> Option<Setup>
        ensures { option_map asked_of result
            ≡ with_member key.now (view value.now) (asked_of self) }
    {
        match unless_null(value) {
            Some(value) => self.with(key, value),
            None => Some(self),
        }
    }

    /// Returns the settings, and the timer that they name.
    pub fn into_parts(self) -> (Config, Clock<'static>)
        ensures settings { result.0 ≡ self.0 }
        ensures timer { clock_timer result.1 ≡ asked_timer self.1 }
    {
        let Setup { config, timer } = self;
        (config, timer.clock())
    }
}

/// Reads the settings of a line.
///
/// # Errors
///
/// `Settings` if the line isn't valid settings. `Memory` if an allocation fails.
pub fn settings_of_line(alloc: Global, line: &[u8]) -> Result<Setup, LineCause>
    ensures { ReadsFirst line.now result }
{
    match Value::from_slice(alloc, line) {
        Ok(value) => settings_of(&value).ok_or(LineCause::Settings),
        Err(error) if error.is_memory() => Err(LineCause::Memory),
        Err(_) => Err(LineCause::Settings),
    }
}

/// Returns whether a line is valid settings.
///
/// # Errors
///
/// `AllocError` if an allocation fails.
#[tactic(auto, using(crate::proofs::SpelledLines::no_settings))]
pub fn is_settings(alloc: Global, line: &str) -> Result<bool, AllocError>
    ensures { IfOk result (λ found. found ≡ is_settings line.now) }
{
    match settings_of_line(alloc, line.as_bytes()) {
        Ok(_) => Ok(true),
        Err(LineCause::Settings) => Ok(false),
        Err(_) => Err(AllocError),
    }
}

// Reads the setup of an object.
fn settings_of(value: &Value) -> Option<Setup>
    ensures { option_map asked_of result ≡ object_settings (view value.now) }
{
    let mut setup = Setup::unnamed();
    for (key, member) in value.as_object()?.iter() {
        setup = setup.with_member(key.as_str(), member)?;
    }
    Some(setup)
}

// Reads a whole number that isn't 0.
fn positive_value(value: &Value) -> Option<usize>
    ensures value { result ≡ positive_value (view value.now) }
    ensures positive { IfSome result (λ number. 0 < number) }
{
    match value.as_u64()? {
        0 => None,
        number => Some(number as usize),
    }
}
