//! Prefixes of a line.

ghost use Rattle.std.specs.Prelude.{◌≡◌, option_map};
ghost use Rattle.ttree_source.specs.Marks.{after_mark};

/// Returns what follows this prefix of a line, or `None` if the line doesn't start with it.
pub fn after_mark<'a>(line: &'a str, mark: &str) -> Option<&'a str>
    ensures { option_map (λ s. s.now) result ≡ after_mark mark.now line.now }
{
    line.strip_prefix(mark)
}
