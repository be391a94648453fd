//! The keys of a line that aren't fields.

ghost use Rattle.std.specs.Prelude.{◌≡◌, bytes_eq, map, option_map};
ghost use Rattle.std.specs.List.{list_any};
ghost use Rattle.ttree_logs.specs.LogFields.{is_added, is_used};
ghost use Rattle.ttree_logs.specs.LogLine.{listed};

use std::marker::Model;
use ttree_source::marks::after_mark;

// What journald adds to each line, beside the keys that begin with `_`.
const JOURNAL_KEYS: [&str; 4] = [
    "SYSLOG_FACILITY",
    "SYSLOG_PID",
    "SYSLOG_RAW",
    "SYSLOG_TIMESTAMP",
];

// The keys of the level, the time, the message and the group, as far as a line has them.
#[derive(Drop)]
pub(super) struct UsedKeys<'v> {
    pub(super) level: Option<&'static str>,
    pub(super) time: Option<&'static str>,
    pub(super) message: Option<&'static str>,
    pub(super) group: Option<&'v str>,

    // Whether journald wrote the line.
    pub(super) is_of_journal: bool,
}

impl<'v> Model for UsedKeys<'v> {
    ghost use Rattle.std.specs.Prelude.{◌++◌, option_map};
    ghost use Rattle.ttree_logs.specs.LogFields.{Used};
    ghost use Rattle.ttree_logs.specs.LogLine.{listed};

    ghost Value = { Used };

    ghost view = { λ u. record {
      keys = listed (option_map (λ k. k.now) u.level) ++ listed (option_map (λ k. k.now) u.time)
          ++ listed (option_map (λ k. k.now) u.message) ++ listed (option_map (λ k. k.now) u.group);
      is_of_journal = u.is_of_journal;
    } };
}

impl UsedKeys<'_> {
    // Returns whether a member with this key isn't a field.
    pub(super) fn has(&self, key: &str) -> bool
        ensures { result ≡ is_used self.now key.now }
    {
        self.is_one(key) || (self.is_of_journal && is_added(key))
    }

    // Returns whether a key is one of them.
    fn is_one(&self, key: &str) -> bool
        ensures { result ≡ list_any (bytes_eq key.now) self.now.keys }
    {
        is_key(self.level, key)
            || is_key(self.time, key)
            || is_key(self.message, key)
            || is_key(self.group, key)
    }
}

// Returns whether journald adds a member with this key.
fn is_added(key: &str) -> bool
    ensures { result ≡ is_added key.now }
{
    after_mark(key, "_").is_some() || is_among(key, &JOURNAL_KEYS)
}

fn is_key(one: Option<&str>, key: &str) -> bool
    ensures { result ≡ list_any (bytes_eq key.now) (listed (option_map (λ k. k.now) one.entry)) }
{
    match one {
        Some(one) => key == one,
        None => false,
    }
}

// Returns whether a key is one of these.
pub(super) fn is_among(key: &str, keys: &[&str]) -> bool
    ensures { result ≡ list_any (bytes_eq key.now) (map (λ k. k.now) keys.now) }
{
    for one in keys {
        if key == *one {
            return true;
        }
    }
    false
}
