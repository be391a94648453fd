//! The moments of lines.

ghost use Rattle.std.specs.Prelude.{◌≡◌, option_map};
ghost use Rattle.ttree_source.specs.Moments.{moment_after, moment_of, since_1970};

use jiff::Timestamp;
use tracing_tree_time::Moment;

/// Returns a line's moment from its time in RFC 3339. If the time is missing or invalid, this is
/// the moment of the line before.
pub fn moment_after(text: Option<&str>, before: &Moment) -> Moment
    ensures { result ≡ moment_after (option_map (λ t. t.now) text.entry) before.now }
{
    let Some(text) = text else {
        return *before;
    };
    match moment_of(text) {
        Some(moment) => moment,
        None => *before,
    }
}

// Returns the moment of a time in RFC 3339.
fn moment_of(text: &str) -> Option<Moment>
    ensures { result ≡ moment_of text.now }
{
    match text.parse::<Timestamp>() {
        Ok(wall) => Some(Moment {
            mono: since_1970(&wall),
            wall,
        }),
        Err(_) => None,
    }
}

// Returns the nanoseconds since 1970, clamped to 0 and `u64::MAX`.
fn since_1970(wall: &Timestamp) -> u64
    ensures { result ≡ since_1970 wall.now.nanosecond }
{
    let nanosecond = wall.as_nanosecond();
    if nanosecond < 0 {
        0
    } else if nanosecond > u64::MAX as i128 {
        u64::MAX
    } else {
        nanosecond as u64
    }
}
