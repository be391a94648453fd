//! Finds the ancestors of events in a drawing.

ghost use Rattle.std.specs.List.{range_with_len};
ghost use Rattle.std.specs.Prelude.{◌≡◌, ℕ, ◌+◌, ◌++◌, ◌∷◌, ◌<◌, ◌≤◌, ◌==◌, ◌^◌, List, [], Some, map, IfOk, IfErr, OnOk, OnErr, if◌then◌else◌};
ghost use Rattle.tracing_tree_drawing.specs.Rows.Paths.{AreEventPaths, ArePathsOf, TakesRow, place_at};
ghost use Rattle.tracing_tree_drawing.specs.Rows.Texts.{ReportsFault};
ghost use Rattle.tracing_tree_drawing.specs.Rows.Readable.{ReadsNoDrawing};
ghost use Rattle.tracing_tree_drawing.specs.Rows.RowText.{TextRow, is_event, is_opening};

use super::read::{ReadFault, Taken, TextReader};
use super::row::{Row, Shape};
use std::alloc::{AllocError, Global};
use std::marker::Model;

/// Indices in a list of rows, from 0. Each may be missing. Contracts see them as a list.
#[derive(Drop)]
pub struct Places {
    inner: Vec<Option<usize>>,
}

impl Model for Places {
    ghost use Rattle.std.specs.Prelude.{List, Option, ℕ};

    ghost Value = { List (Option ℕ) };

    ghost view = { λ p. p.inner.items };
}

impl Places {
    /// Returns the places, in order.
    pub fn as_slice(&self) -> &[Option<usize>]
        ensures { result.now ≡ self.now }
    {
        self.inner.as_slice()
    }
}

/// Never allocates.
impl From<Vec<Option<usize>>> for Places {
    ghost use Rattle.std.specs.Prelude.{◌≡◌};

    ghost from_gives = { λ list places. places ≡ list.items };

    fn from(inner: Vec<Option<usize>>) -> Places {
        Places { inner }
    }
}

/// Never allocates.
impl From<Places> for Vec<Option<usize>> {
    ghost use Rattle.std.specs.Prelude.{◌≡◌};

    ghost from_gives = { λ places list. list.items ≡ places };

    fn from(places: Places) -> Vec<Option<usize>> {
        let Places { inner } = places;
        inner
    }
}

/// An event and its ancestors, as indices in the list of rows.
#[derive(Drop)]
pub struct EventPath {
    /// The event's index in the list of rows.
    pub event: usize,

    /// For each level below the event's: the index of the last row before the event that opens this
    /// level, if there is one.
    pub ancestors: Places,
}

/// The last row that opens each level. An event's path is found in it, row by row.
#[derive(Drop)]
pub struct Ancestry {
    opened: Vec<Option<usize>>,
}

impl Model for Ancestry {
    ghost use Rattle.std.specs.Prelude.{List, Option, ℕ};

    ghost Value = { List (Option ℕ) };

    ghost view = { λ a. a.opened.items };
}

impl Ancestry {
    /// Returns the state before the first row. Never allocates.
    pub fn new(alloc: Global) -> Ancestry
        ensures { result ≡ [] }
    {
        Ancestry {
            opened: Vec::new(alloc),
        }
    }

    /// Adds the next row, whose index is `place`, and returns its path if it is an event's.
    ///
    /// # Errors
    ///
    /// `AllocError` if an allocation fails. The row isn't added then.
    pub fn take(
        &mut self,
        alloc: Global,
        place: usize,
        row: &Row,
    ) -> Result<Option<EventPath>, AllocError>
        ensures { TakesRow self.old place row.now result self.new }
    {
        if opens(row.shape()) {
            self.open(place, row.level())?;
            return Ok(None);
        }
        if !is_event(row.shape()) {
            return Ok(None);
        }
        let ancestors = self.ancestors(alloc, row.level())?;
        Ok(Some(EventPath {
            event: place,
            ancestors,
        }))
    }

    // Records that the row at this place opens this level.
    fn open(&mut self, place: usize, level: usize) -> Result<(), AllocError>
        ensures ok { OnOk result ((k : ℕ) →
            place_at self.new k ≡ (if level == k then Some place else place_at self.old k)) }
        ensures err { OnErr result ((k : ℕ) → place_at self.new k ≡ place_at self.old k) }
    {
        while self.opened.len() <= level {
            self.opened.push(None)?;
        }
        self.opened[level] = Some(place);
        Ok(())
    }

    // Returns the places of the levels below this one.
    fn ancestors(&self, alloc: Global, level: usize) -> Result<Places, AllocError>
        ensures { IfOk result (λ places.
            places ≡ map (place_at self.now) (range_with_len 0 level)) }
    {
        let kept = level.min(self.opened.len());
        let mut places = Vec::with_capacity(alloc, level)?;
        places.extend_from_slice(&self.opened[..kept])?;
        for _absent in kept..level {
            places.push(None)?;
        }
        Ok(Places::from(places))
    }
}

// Returns whether rows of this shape open a span.
fn opens(shape: Shape) -> bool
    ensures { result ≡ is_opening shape }
{
    matches!(shape, Shape::OpenRoot | Shape::Open(_))
}

// Returns whether rows of this shape are events.
fn is_event(shape: Shape) -> bool
    ensures { result ≡ is_event shape }
{
    matches!(shape, Shape::Event)
}

// The paths of the events so far.
#[derive(Drop)]
struct Paths {
    ancestry: Ancestry,
    rows: usize,
    paths: Vec<EventPath>,
}

impl Paths {
    // Adds the next row.
    fn take(&mut self, alloc: Global, row: &Row) -> Result<(), AllocError>
        requires { self.old.rows + 1 < 2 ^ 64 }
        ensures counted { OnOk result (self.new.rows ≡ self.old.rows + 1) }
        ensures paths { OnOk result ((rows : List TextRow) →
            ArePathsOf rows self.old.ancestry self.old.rows self.old.paths.items →
            ArePathsOf (rows ++ row.now ∷ [])
            self.new.ancestry self.new.rows self.new.paths.items) }
    {
        if let Some(path) = self.ancestry.take(alloc, self.rows, row)? {
            self.paths.push(path)?;
        }
        self.rows += 1;
        Ok(())
    }
}

/// Returns the events of a drawing in order. Each has the indices of its ancestors in the rows that
/// `read_rows` returns, one entry for each level below the event's. An entry is the last row before
/// the event that opens this level, if there is one. The caller must ensure that `amount` is 2 or
/// more.
///
/// # Errors
///
/// `Line` and `Memory`, as for `read_rows`.
pub fn read_event_paths(
    alloc: Global,
    text: &str,
    amount: usize,
) -> Result<Vec<EventPath>, ReadFault>
    requires { 2 ≤ amount }
    ensures paths { IfOk result (λ paths. AreEventPaths amount text.now paths.items) }
    ensures fault { IfErr result (λ fault. ReportsFault amount text.now fault) }
    ensures drawn_fault { IfErr result (λ fault. ReadsNoDrawing amount text.now fault) }
{
    let mut lines = TextReader::new(text, amount);
    let mut so_far = Paths {
        ancestry: Ancestry::new(alloc),
        rows: 0,
        paths: Vec::new(alloc),
    };
    while let Some(taken) = lines.take_line(alloc)? {
        if let Taken::First(Some(row)) = taken {
            so_far.take(alloc, &row)?;
        }
    }
    if let Some(row) = lines.finish() {
        so_far.take(alloc, &row)?;
    }
    Ok(so_far.paths)
}
