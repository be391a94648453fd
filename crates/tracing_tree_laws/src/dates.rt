//! Dates and times, as clocks show them.

ghost use Rattle.std.specs.Prelude.{ℕ, ℤ, ◌≡◌};
ghost use Rattle.jiff_core.specs.Date.{epoch_day};
ghost use Rattle.jiff_core.specs.DateTime.{civil_nanos};
ghost use Rattle.jiff_core.specs.declared.civil.datetime.DateTime.{DateTime};
ghost use Rattle.tracing_tree_time.specs.Clock.{Civil, IsCivilOn, civil_at, nanos_of_day};

/// `civil_at`, which a clock shows of a moment, is the calendar's date of the moment's day, and the
/// time of that day. A day and a time of day have one date and one time.
pub fn dates_are_the_calendars()
    ensures shown { (moment : DateTime) → IsCivilOn (epoch_day moment.date)
        (nanos_of_day (civil_nanos moment)) (civil_at (civil_nanos moment)) }
    ensures only { (day : ℤ) (nanos : ℕ) (a b : Civil) → IsCivilOn day nanos a
        → IsCivilOn day nanos b → a ≡ b }
{}
