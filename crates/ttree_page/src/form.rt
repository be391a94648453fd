//! Forms and kinds of lines.

ghost use Rattle.std.specs.Prelude.{◌≡◌};
ghost use Rattle.ttree_page.specs.Lines.{level_text, start_text, step_end};

use tracing_tree_base::style::Level;

/// The form of the lines. Each line is one JSON value.
#[derive(Clone, Copy, Debug, PartialEq, Eq)]
pub enum LineForm {
    /// An array whose parts are known by their position: the form in a page.
    Arrays,

    /// An object with keys.
    Objects,
}

/// What a line says.
#[derive(Clone, Copy, Debug)]
pub(crate) enum Kind {
    About,
    New,
    Record,
    Event,
    Close,
    End,
}

// Returns the start of a line of this kind.
pub(crate) fn start_text(form: LineForm, kind: Kind) -> &'static str
    ensures { result.now ≡ start_text form kind }
{
    match (form, kind) {
        (LineForm::Arrays, Kind::About) => "[0,2",
        (LineForm::Arrays, Kind::New) => "[1",
        (LineForm::Arrays, Kind::Record) => "[2",
        (LineForm::Arrays, Kind::Event) => "[3",
        (LineForm::Arrays, Kind::Close) => "[4",
        (LineForm::Arrays, Kind::End) => "[5",
        (LineForm::Objects, Kind::About) => "{\"step\":\"about\",\"version\":2",
        (LineForm::Objects, Kind::New) => "{\"step\":\"new\"",
        (LineForm::Objects, Kind::Record) => "{\"step\":\"record\"",
        (LineForm::Objects, Kind::Event) => "{\"step\":\"event\"",
        (LineForm::Objects, Kind::Close) => "{\"step\":\"close\"",
        (LineForm::Objects, Kind::End) => "{\"step\":\"end\"",
    }
}

// Returns the end of a line.
pub(crate) fn line_end(form: LineForm) -> &'static str
    ensures { result.now ≡ step_end form }
{
    match form {
        LineForm::Arrays => "]\n",
        LineForm::Objects => "}\n",
    }
}

// Returns a level as a line has it: its number from 0 to 4, or its name in quotes.
pub(crate) fn level_text(form: LineForm, level: Level) -> &'static str
    ensures { result.now ≡ level_text form level }
{
    match (form, level) {
        (LineForm::Arrays, Level::Trace) => "0",
        (LineForm::Arrays, Level::Debug) => "1",
        (LineForm::Arrays, Level::Info) => "2",
        (LineForm::Arrays, Level::Warn) => "3",
        (LineForm::Arrays, Level::Error) => "4",
        (LineForm::Objects, Level::Trace) => "\"trace\"",
        (LineForm::Objects, Level::Debug) => "\"debug\"",
        (LineForm::Objects, Level::Info) => "\"info\"",
        (LineForm::Objects, Level::Warn) => "\"warn\"",
        (LineForm::Objects, Level::Error) => "\"error\"",
    }
}
