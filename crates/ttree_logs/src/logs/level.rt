//! The names of levels.

ghost use Rattle.std.specs.Prelude.{◌≡◌, map};
ghost use Rattle.ttree_logs.specs.LogLine.{bare_level, is_one_of, level_of_name, level_of_word, low_level_of_name, same_word};

use tracing_tree_base::style::Level;

const TRACE_NAMES: [&str; 3] = ["trace", "debug-4", "10"];

const DEBUG_NAMES: [&str; 3] = ["debug", "20", "7"];

const INFO_NAMES: [&str; 8] = [
    "info",
    "information",
    "informational",
    "notice",
    "default",
    "30",
    "6",
    "5",
];

const WARN_NAMES: [&str; 4] = ["warn", "warning", "40", "4"];

const ERROR_NAMES: [&str; 17] = [
    "error",
    "err",
    "fatal",
    "panic",
    "dpanic",
    "critical",
    "crit",
    "alert",
    "emerg",
    "emergency",
    "severe",
    "50",
    "60",
    "3",
    "2",
    "1",
    "0",
];

// Returns the level that a word names.
pub(super) fn level_named(word: &str) -> Option<Level>
    ensures { result ≡ level_of_word word.now }
{
    level_of_name(bare_level(word))
}

// Returns a level without what Go's slog adds to it.
fn bare_level(word: &str) -> &str
    ensures { result.now ≡ bare_level word.now }
{
    match word.split_once('+') {
        Some((bare, _)) => bare,
        None => word,
    }
}

fn level_of_name(name: &str) -> Option<Level>
    ensures { result ≡ level_of_name name.now }
{
    if is_one_of(name, &INFO_NAMES) {
        Some(Level::Info)
    } else if is_one_of(name, &ERROR_NAMES) {
        Some(Level::Error)
    } else if is_one_of(name, &WARN_NAMES) {
        Some(Level::Warn)
    } else {
        low_level_of_name(name)
    }
}

fn low_level_of_name(name: &str) -> Option<Level>
    ensures { result ≡ low_level_of_name name.now }
{
    if is_one_of(name, &DEBUG_NAMES) {
        Some(Level::Debug)
    } else if is_one_of(name, &TRACE_NAMES) {
        Some(Level::Trace)
    } else {
        None
    }
}

// Returns whether a word is one of these, in any case.
fn is_one_of(word: &str, names: &[&str]) -> bool
    ensures { result ≡ is_one_of (map (λ n. n.now) names.now) word.now }
{
    for name in names {
        if same_word(word, name) {
            return true;
        }
    }
    false
}

fn same_word(word: &str, other: &str) -> bool
    ensures { result ≡ same_word word.now other.now }
{
    word.eq_ignore_ascii_case(other)
}
