//! The command line.

use clap::error::ErrorKind;
use clap::parser::ValueSource;
use clap::{Arg, ArgAction, ArgMatches, Command, Error, value_parser};
use jiff::SignedDuration;
use std::alloc::{AllocError, Global};
use tracing_tree::format::Config;
use tracing_tree::style::Level;
use tracing_tree::text::Text;
use ttree_adapters::{FailureLines, LineFields, Member, Precision, ThreadColumns};
use ttree_otlp::Selection;
use ttree_page::LineForm;
use ttree_source::{Cut, Format};
use ttree_terminal::Shaping;

// What `--help` says of the first line.
const DETECTION: &str =
    "Without --from, the first line that determines a format decides, and the lines before it are drawn as plain events: a JSON object with a string at \"Action\" is of go-test; a line with TAP's version, a plan such as 1..5, or a result such as \"ok 1\", is of tap; a line that begins with <testsuite is of junit; an object with an array at \"resourceSpans\", \"resourceLogs\" or \"resourceMetrics\" is of otlp; a line that begins with [, or with { and isn't a whole JSON value (unless its first key is one of logs), or an object with an array at \"traceEvents\", is of chrome; an object with only settings, or with a call at \"call\", is of lines; an object with TRACE, DEBUG, INFO, WARN or ERROR at \"level\" and anything at \"fields\" or \"target\" is of tracing; an object with a level at \"level\", \"severity\", \"lvl\", \"log.level\" or \"PRIORITY\", and a message at \"msg\", \"message\", \"event\" or \"MESSAGE\", is of logs. If no line of the first 1,000 or of the first 1 MiB does, the input is printed unchanged, and the status is 2.";

// The options and arguments of the command line.
#[derive(Drop)]
pub struct Options<'a> {
    pub style: Style,

    // Events below it aren't shown. Without it, each is.
    min_level: Option<Level>,

    // Whether only what failed is shown.
    pub is_failed: bool,

    // The key that groups the events of logs. Without it, their traces and requests do.
    pub group: Option<&'a str>,

    // The service of OTLP that is shown. Without it, each is.
    service: Option<&'a str>,

    // The first part of the ids of the traces that are shown. Without it, each is.
    trace: Option<&'a str>,

    // Which spans of a trace aren't drawn.
    pub cut: Cut,

    // How exactly rows show when they happened. Without it, they don't.
    pub times: Option<Precision>,

    // Whether long arrays and objects are shown whole.
    pub is_full: bool,

    // The members of tracing's lines that events show too.
    fields: Option<Vec<&'a str>>,

    // Whether counts, the slowest spans and the first errors follow the drawing.
    pub has_summary: bool,

    // Without it, a tree is drawn.
    pub form: Option<LineForm>,

    // The title of a page. Without it, the name of the file.
    pub title: Option<&'a str>,

    // Without it, the first line decides.
    pub from: Option<Format>,

    pub is_strict: bool,

    // Rows are cut at this many columns, unless it is 0. Without it, no row is cut.
    pub width: Option<usize>,

    // The inputs, one drawn after another; - is standard input.
    pub files: Vec<&'a str>,

    // The given options, of those that only some formats have.
    given: Vec<&'a str>,
}

// How a tree is drawn.
#[derive(Clone, Copy)]
pub struct Style {
    is_coloured: bool,
    amount: usize,
    has_lines: bool,
    has_threads: bool,
    is_retraced: bool,
}

// The options that not every format, or not every output, has.
const OPTIONS: [&str; 18] = [
    "amount",
    "color",
    "depth",
    "failed",
    "fields",
    "full",
    "group",
    "level",
    "min",
    "no-lines",
    "no-retrace",
    "service",
    "summary",
    "threads",
    "times",
    "title",
    "trace",
    "width",
];

// The options that select what is shown of OTLP.
const SELECTING: [&str; 4] = ["failed", "level", "service", "trace"];

impl<'a> Options<'a> {
    // Returns the settings of the drawing.
    pub fn config(&self) -> Config {
        let style = self.style;
        Config::default()
            .with_ansi(style.is_coloured)
            .with_indent_lines(style.has_lines)
            .with_indent_amount(style.amount)
            .with_bracketed_fields(false)
            .with_thread_names(style.has_threads || self.times.is_some())
            .with_span_retrace(style.is_retraced)
            .with_close_retrace(style.is_retraced)
            .with_deferred_spans(self.is_deferred())
    }

    // Returns what is done to each line of the drawing. Without colours, no control character is
    // written.
    pub fn shaping(&self) -> Shaping {
        Shaping {
            width: self.width,
            is_escaped: !self.style.is_coloured,
        }
    }

    // Returns whether a span is drawn only once an event happens in it.
    pub fn is_deferred(&self) -> bool {
        self.min_level.is_some()
    }

    // Returns whether rows begin with their threads.
    pub fn has_threads(&self) -> bool {
        self.style.has_threads
    }

    // Returns the columns that rows begin with under --threads.
    pub fn thread_columns(&self) -> Option<ThreadColumns> {
        self.style
            .has_threads
            .then(|| -> ThreadColumns { ThreadColumns })
    }

    // Events below this level aren't shown.
    pub fn min_level(&self) -> Level {
        self.min_level.unwrap_or(Level::Trace)
    }

    // Returns whether only what failed is shown of TAP and JUnit XML, with the lines that say why.
    pub fn is_only_failed(&self) -> bool {
        self.is_failed || matches!(self.min_level, Some(Level::Error))
    }

    // Returns what --level shows of tests: events of this level and above, and the lines of a
    // failed test. None if it shows all.
    pub fn failure_lines(&self, alloc: Global) -> Option<FailureLines> {
        let min_level = self.min_level?;
        Some(FailureLines::new(alloc, min_level))
    }

    // Returns what --fields shows of tracing's lines.
    pub fn line_fields(&self, alloc: Global) -> Result<Option<LineFields>, AllocError> {
        let Some(fields) = &self.fields else {
            return Ok(None);
        };
        let mut members = Vec::new(alloc);
        for field in fields.iter().copied() {
            members.push(Member {
                key: Text::from_str(alloc, key_of(field))?,
                name: Text::from_str(alloc, field)?,
            })?;
        }
        Ok(Some(LineFields::new(alloc, members)))
    }

    // Returns what is shown of OTLP.
    pub fn selection(&self, alloc: Global) -> Result<Selection, AllocError> {
        let service = match self.service {
            Some(service) => Some(Text::from_str(alloc, service)?),
            None => None,
        };
        let trace = self.trace.unwrap_or("").to_ascii_lowercase(alloc)?;
        Ok(Selection {
            service,
            trace: Text::from(trace),
            min_level: self.min_level,
            is_failed: self.is_failed,
            cut: self.cut,
        })
    }

    // Returns the given options that select what is shown of OTLP, or an empty string without any.
    pub fn selecting(&self, alloc: Global) -> Result<String, AllocError> {
        let mut options = String::new(alloc);
        for option in SELECTING {
            if self.given.iter().any(|given| *given == option) {
                let mark = if options.is_empty() { "--" } else { ", --" };
                options.push_str(mark)?;
                options.push_str(option)?;
            }
        }
        Ok(options)
    }

    // Returns an option that is given and has no meaning without a drawing.
    pub fn without_drawing(&self) -> Option<&'a str> {
        self.given
            .iter()
            .copied()
            .find(|option| is_option_of_drawing(option))
    }

    // Returns an option that is given and has no meaning for this format.
    pub fn without_meaning(&self, format: Format) -> Option<&'a str> {
        self.given
            .iter()
            .copied()
            .find(|option| !is_option_of(format, option))
    }
}

// Returns whether a format has this option.
fn is_option_of(format: Format, option: &str) -> bool {
    match option {
        "failed" => matches!(
            format,
            Format::GoTest | Format::Junit | Format::Otlp | Format::Tap
        ),
        "group" => format == Format::Logs,
        "service" | "trace" => format == Format::Otlp,
        "min" | "depth" => matches!(format, Format::Chrome | Format::Otlp),
        "fields" => format == Format::Tracing,
        "level" => matches!(
            format,
            Format::GoTest
                | Format::Tracing
                | Format::Logs
                | Format::Otlp
                | Format::Junit
                | Format::Tap
        ),
        "threads" => format == Format::Tracing,
        "times" => !matches!(format, Format::Lines | Format::Junit | Format::Tap),
        "title" | "width" => true,
        _ => format != Format::Lines,
    }
}

// Returns whether only a drawing has this option.
fn is_option_of_drawing(option: &str) -> bool {
    matches!(
        option,
        "amount"
            | "color"
            | "full"
            | "no-lines"
            | "no-retrace"
            | "summary"
            | "threads"
            | "times"
            | "width"
    )
}

// What standard output is, for the options that aren't given.
#[derive(Clone, Copy)]
pub struct Terminal {
    pub is_coloured: bool,
    pub width: Option<usize>,
}

// Reads the command line, the program's name first.
pub fn parse<'a>(
    alloc: Global,
    args: &'a [String],
    terminal: Terminal,
) -> Result<Options<'a>, Error> {
    let matches = command(alloc)?.try_get_matches_from(args)?;
    let files = files(alloc, &matches)?;
    Ok(Options {
        style: style_of(&matches, terminal.is_coloured),
        min_level: matches.get_str("level").map(level_of),
        is_failed: matches.get_flag("failed"),
        group: matches.get_str("group"),
        service: matches.get_str("service"),
        trace: matches.get_str("trace"),
        cut: Cut {
            min_time: shortest(alloc, matches.get_str("min"))?,
            depth: matches.get_one::<usize>("depth"),
        },
        times: matches.get_str("times").map(precision_of),
        is_full: matches.get_flag("full"),
        fields: values(alloc, &matches, "fields")?,
        has_summary: matches.get_flag("summary"),
        form: form(alloc, &matches, files.len())?,
        title: matches.get_str("title"),
        from: format(matches.get_str("from")),
        is_strict: matches.get_flag("strict"),
        width: matches.get_one::<usize>("width").or(terminal.width),
        files,
        given: given(alloc, &matches)?,
    })
}

fn style_of(matches: &ArgMatches<'_>, is_coloured: bool) -> Style {
    let is_coloured = match matches.get_str("color") {
        Some("always") => true,
        Some("never") => false,
        _ => is_coloured,
    };
    Style {
        is_coloured,
        amount: matches.get_one::<usize>("amount").unwrap_or(2),
        has_lines: !matches.get_flag("no-lines"),
        has_threads: matches.get_flag("threads"),
        is_retraced: !matches.get_flag("no-retrace"),
    }
}

// Returns the files, or standard input without any.
fn files<'a>(alloc: Global, matches: &ArgMatches<'a>) -> Result<Vec<&'a str>, AllocError> {
    let mut files = Vec::new(alloc);
    match matches.get_strs("file") {
        Some(names) => {
            for name in names {
                files.push(*name)?;
            }
        }
        None => files.push("-")?,
    }
    Ok(files)
}

// Returns the values of an option, if it is given.
fn values<'a>(
    alloc: Global,
    matches: &ArgMatches<'a>,
    option: &str,
) -> Result<Option<Vec<&'a str>>, AllocError> {
    let Some(given) = matches.get_strs(option) else {
        return Ok(None);
    };
    let mut values = Vec::new(alloc);
    for value in given {
        values.push(*value)?;
    }
    Ok(Some(values))
}

// Returns the given options, of those that only some formats have.
fn given<'a>(alloc: Global, matches: &ArgMatches<'a>) -> Result<Vec<&'a str>, AllocError> {
    let mut given = Vec::new(alloc);
    for option in OPTIONS {
        if matches.value_source(option) == Some(ValueSource::CommandLine) {
            given.push(option)?;
        }
    }
    Ok(given)
}

fn command<'a>(alloc: Global) -> Result<Command<'a>, AllocError> {
    let command = Command::new(alloc, "ttree")
        .version("0.1.0")
        .about("Draws another tool's output as a tree")
        .after_help(DETECTION)
        .arg(from_option(alloc))?
        .arg(color_option(alloc))?
        .arg(amount_option(alloc))?;
    let command = with_selection(alloc, command)?;
    let command = with_forms(alloc, command)?;
    with_rows(alloc, command)?
        .arg(flag(alloc, "strict", "Ends at the first line that can't be read"))?
        .arg(width_option(alloc))?
        .arg(
            Arg::new(alloc, "file")
                .value_name("FILE")
                .num_args(0..)
                .help("The inputs, one drawn after another; standard input without any, and for -"),
        )
}

// Adds the options that select what is shown.
fn with_selection<'a>(alloc: Global, command: Command<'a>) -> Result<Command<'a>, AllocError> {
    command
        .arg(level_option(alloc))?
        .arg(failed_option(alloc))?
        .arg(group_option(alloc))?
        .arg(service_option(alloc))?
        .arg(trace_option(alloc))?
        .arg(min_option(alloc))?
        .arg(depth_option(alloc))
}

// Adds the options for what is written in place of the drawing.
fn with_forms<'a>(alloc: Global, command: Command<'a>) -> Result<Command<'a>, AllocError> {
    command
        .arg(flag(
            alloc,
            "html",
            "Writes a page of HTML that shows the tree in a browser, in place of the drawing",
        ))?
        .arg(title_option(alloc))?
        .arg(flag(
            alloc,
            "json",
            "Writes a line of JSON for each new span, event and close, in place of the drawing",
        ))
}

// Adds the options for what a row shows, and for the summary.
fn with_rows<'a>(alloc: Global, command: Command<'a>) -> Result<Command<'a>, AllocError> {
    command
        .arg(flag(alloc, "no-lines", "Indents without lines"))?
        .arg(flag(
            alloc,
            "no-retrace",
            "Shows no path again when the drawing comes back from another branch",
        ))?
        .arg(flag(alloc, "threads", "Shows the thread of each row, of tracing"))?
        .arg(times_option(alloc))?
        .arg(flag(
            alloc,
            "full",
            "Shows arrays and objects whole, also beyond 200 columns",
        ))?
        .arg(fields_option(alloc))?
        .arg(flag(
            alloc,
            "summary",
            "Counts spans, events and errors after the drawing, and lists the slowest spans and the first errors",
        ))
}

fn from_option<'a>(alloc: Global) -> Arg<'a> {
    Arg::new(alloc, "from")
        .long("from")
        .value_name("TOOL")
        .help(
            "The format of the input: go-test of `go test -json`, tap of the Test Anything Protocol, junit of JUnit XML, tracing of the JSON format of Rust's tracing-subscriber, logs of services' JSON logs, otlp of OpenTelemetry's JSON, chrome of Chrome's trace event format, lines of settings and calls",
        )
        .value_parser(
            &[
                "go-test", "tap", "junit", "tracing", "logs", "otlp", "chrome", "lines",
            ][..],
        )
}

fn color_option<'a>(alloc: Global) -> Arg<'a> {
    Arg::new(alloc, "color")
        .long("color")
        .value_name("WHEN")
        .help(
            "Whether the tree is coloured; auto colours it on a terminal, unless NO_COLOR is set or TERM is dumb",
        )
        .value_parser(&["auto", "always", "never"][..])
        .default_value("auto")
}

fn amount_option<'a>(alloc: Global) -> Arg<'a> {
    Arg::new(alloc, "amount")
        .long("amount")
        .value_name("N")
        .help("The columns a level of the drawing")
        .value_parser(value_parser!(usize))
        .default_value("2")
}

fn level_option<'a>(alloc: Global) -> Arg<'a> {
    Arg::new(alloc, "level")
        .long("level")
        .value_name("LEVEL")
        .help(
            "Draws only events of this level and above, and the spans that they occur in; of go-test also the lines that a failed test printed; of tap and junit, error draws what --failed draws",
        )
        .value_parser(&["trace", "debug", "info", "warn", "error"][..])
}

fn failed_option<'a>(alloc: Global) -> Arg<'a> {
    flag(
        alloc,
        "failed",
        "Leaves out the tests that passed or were skipped, and packages, files, suites and subtests without a failure; of otlp, the spans without an error in them; go-test, junit, tap and otlp",
    )
}

fn service_option<'a>(alloc: Global) -> Arg<'a> {
    Arg::new(alloc, "service")
        .long("service")
        .value_name("NAME")
        .help(
            "Draws only the spans and logs of this service, and the spans that they are in; only of otlp",
        )
}

fn trace_option<'a>(alloc: Global) -> Arg<'a> {
    Arg::new(alloc, "trace").long("trace").value_name("ID").help(
        "Draws only the traces whose id begins with this; only of otlp",
    )
}

fn group_option<'a>(alloc: Global) -> Arg<'a> {
    Arg::new(alloc, "group")
        .long("group")
        .value_name("KEY")
        .help(
            "Groups the events of logs by their value at KEY, in place of their traces and requests",
        )
}

fn min_option<'a>(alloc: Global) -> Arg<'a> {
    Arg::new(alloc, "min").long("min").value_name("TIME").help(
        "Leaves out the spans that took less than this, such as 5ms or 1.5s; chrome and otlp",
    )
}

fn depth_option<'a>(alloc: Global) -> Arg<'a> {
    Arg::new(alloc, "depth")
        .long("depth")
        .value_name("N")
        .help("Leaves out the spans below N levels; chrome and otlp")
        .value_parser(value_parser!(usize))
}

fn times_option<'a>(alloc: Global) -> Arg<'a> {
    Arg::new(alloc, "times")
        .long("times")
        .value_name("UNIT")
        .num_args(0..=1)
        .require_equals(true)
        .default_missing_value("us")
        .help(
            "Begins each row with its time, in ms, us or ns, and how long after the first known time of its span it is",
        )
        .value_parser(&["ms", "us", "ns"][..])
}

fn fields_option<'a>(alloc: Global) -> Arg<'a> {
    Arg::new(alloc, "fields")
        .long("fields")
        .value_name("KEYS")
        .value_delimiter(',')
        .help("Shows these members of each line too, such as target,file,line; only of tracing")
}

fn width_option<'a>(alloc: Global) -> Arg<'a> {
    Arg::new(alloc, "width")
        .long("width")
        .value_name("N")
        .help(
            "Cuts rows at N columns; 0 cuts no row; without it, rows are cut at COLUMNS on a terminal, if it is set",
        )
        .value_parser(value_parser!(usize))
}

fn title_option<'a>(alloc: Global) -> Arg<'a> {
    Arg::new(alloc, "title")
        .long("title")
        .value_name("TITLE")
        .help("The title of the page; without it, the name of the file")
}

// Returns what is written in place of a drawing, if anything is.
fn form(alloc: Global, matches: &ArgMatches<'_>, files: usize) -> Result<Option<LineForm>, Error> {
    match (matches.get_flag("html"), matches.get_flag("json")) {
        (true, true) => Err(conflict(alloc, "the argument '--html' cannot be used with '--json'")?),
        (true, false) if files > 1 => Err(conflict(
            alloc,
            "the argument '--html' cannot be used with several files",
        )?),
        (true, false) => Ok(Some(LineForm::Arrays)),
        (false, true) => Ok(Some(LineForm::Objects)),
        (false, false) => Ok(None),
    }
}

fn conflict(alloc: Global, message: &str) -> Result<Error, AllocError> {
    command(alloc)?.error(ErrorKind::ArgumentConflict, message)
}

// Returns a duration in nanoseconds, or 0 without a word.
fn shortest(alloc: Global, word: Option<&str>) -> Result<u64, Error> {
    let Some(word) = word else {
        return Ok(0);
    };
    match nanoseconds(word) {
        Some(nanoseconds) => Ok(nanoseconds),
        None => Err(no_time(alloc)?),
    }
}

fn nanoseconds(word: &str) -> Option<u64> {
    let length: SignedDuration = word.parse().ok()?;
    u64::try_from(length.as_nanos()).ok()
}

fn no_time(alloc: Global) -> Result<Error, AllocError> {
    command(alloc)?.error(
        ErrorKind::ValueValidation,
        "invalid value for '--min <TIME>': expected a length of time, such as 5ms or 1.5s",
    )
}

// Returns the name of a format, as --from takes it.
pub fn name_of(format: Format) -> &'static str {
    match format {
        Format::Lines => "lines",
        Format::GoTest => "go-test",
        Format::Tracing => "tracing",
        Format::Chrome => "chrome",
        Format::Logs => "logs",
        Format::Otlp => "otlp",
        Format::Junit => "junit",
        Format::Tap => "tap",
    }
}

// Returns the format of this name.
fn format(name: Option<&str>) -> Option<Format> {
    match name? {
        "lines" => Some(Format::Lines),
        "chrome" => Some(Format::Chrome),
        "logs" => Some(Format::Logs),
        "otlp" => Some(Format::Otlp),
        "junit" => Some(Format::Junit),
        "tap" => Some(Format::Tap),
        "tracing" => Some(Format::Tracing),
        _ => Some(Format::GoTest),
    }
}

// Returns how exactly times are shown, by its unit.
fn precision_of(unit: &str) -> Precision {
    match unit {
        "ms" => Precision::Milliseconds,
        "ns" => Precision::Nanoseconds,
        _ => Precision::Microseconds,
    }
}

// Returns the key that a word of --fields names in a line of tracing.
fn key_of(word: &str) -> &str {
    match word {
        "file" => "filename",
        "line" => "line_number",
        _ => word,
    }
}

// Returns the level of this name.
fn level_of(name: &str) -> Level {
    match name {
        "error" => Level::Error,
        "warn" => Level::Warn,
        "info" => Level::Info,
        "debug" => Level::Debug,
        _ => Level::Trace,
    }
}

fn flag<'a>(alloc: Global, name: &'a str, help: &'a str) -> Arg<'a> {
    Arg::new(alloc, name)
        .long(name)
        .help(help)
        .action(ArgAction::SetTrue)
}
