//! Sources whose calls are mapped.

ghost use Rattle.std.specs.Prelude.{◌≡◌, IfOk, List, Option, false, option_map};
ghost use Rattle.json.specs.Json.{Json};
ghost use Rattle.json.specs.Value.{value_view};
ghost use Rattle.tracing_tree_layer.specs.declared.call.Call.{Call};
ghost use Rattle.ttree_adapters.specs.Mapping.{Made, MapsAnyValue};

use json::Value;
use std::alloc::{AllocError, Global};
use std::marker::Model;
use tracing_tree_layer::call::Call;
use ttree_source::notes::Problem;
use ttree_source::source::Source;

/// What the calls of lines become, one line after another.
pub trait Mapping {
    /// What the calls of a line become, given the line's JSON value if it is one, and the mapping
    /// afterwards.
    ghost makes: { Self → Option Json → List Call → Made Self };

    /// Returns whether the calls of a line become others by its JSON value. If they don't, the line
    /// needs no parsing: `map` may be passed `None`.
    fn reads_values(&self) -> bool
        ensures { result ≡ false → MapsAnyValue makes self.now }
    {
        true
    }

    /// Maps the calls of a line, or of an input's end.
    ///
    /// # Errors
    ///
    /// `AllocError` if an allocation fails. The state of the mapping is then unspecified.
    fn map(
        &mut self,
        alloc: Global,
        value: Option<&Value<'_>>,
        calls: Vec<Call>,
    ) -> Result<Vec<Call>, AllocError>
        ensures { IfOk result (λ made.
            makes self.old (option_map (λ v. value_view v.now) value.entry) calls.items
            ≡ record { calls = made.items; mapping = self.new }) };
}

/// Without a mapping, calls are unchanged.
impl<M: Mapping> Mapping for Option<M> {
    ghost use Rattle.ttree_adapters.specs.Mapping.{made_if};

    ghost makes = { made_if M.makes };

    fn reads_values(&self) -> bool {
        match self {
            Some(mapping) => mapping.reads_values(),
            None => false,
        }
    }

    fn map(
        &mut self,
        alloc: Global,
        value: Option<&Value<'_>>,
        calls: Vec<Call>,
    ) -> Result<Vec<Call>, AllocError> {
        match self {
            Some(mapping) => mapping.map(alloc, value, calls),
            None => Ok(calls),
        }
    }
}

/// Two mappings, one after the other.
#[derive(Drop)]
pub struct Then<A, B> {
    first: A,
    second: B,
}

impl<A, B> Model for Then<A, B> {
    ghost use Rattle.ttree_adapters.specs.Mapping.{Both};

    ghost Value = { Both A B };

    ghost view = { λ t. record { first = t.first; second = t.second } };
}

impl<A, B> Then<A, B> {
    /// Returns a mapping that is first the one, and then the other.
    pub fn new(first: A, second: B) -> Then<A, B>
        ensures { result ≡ record { first = first; second = second } }
    {
        Then { first, second }
    }

    /// Returns the two mappings.
    pub fn into_parts(self) -> (A, B)
        ensures { result ≡ (self.first, self.second) }
    {
        let Then { first, second } = self;
        (first, second)
    }
}

/// The second mapping gets what the first one makes.
impl<A: Mapping, B: Mapping> Mapping for Then<A, B> {
    ghost use Rattle.ttree_adapters.specs.Mapping.{makes_both};

    ghost makes = { makes_both A.makes B.makes };

    fn reads_values(&self) -> bool {
        self.first.reads_values() || self.second.reads_values()
    }

    fn map(
        &mut self,
        alloc: Global,
        value: Option<&Value<'_>>,
        calls: Vec<Call>,
    ) -> Result<Vec<Call>, AllocError> {
        let calls = self.first.map(alloc, value, calls)?;
        self.second.map(alloc, value, calls)
    }
}

/// A source whose calls go through a mapping.
#[derive(Drop)]
pub struct Mapped<S, M> {
    source: S,
    mapping: M,
}

impl<S, M> Model for Mapped<S, M> {
    ghost use Rattle.ttree_adapters.specs.Mapping.{MappedState};

    ghost Value = { MappedState S M };

    ghost view = { λ m. record { source = m.source; mapping = m.mapping } };
}

impl<S, M> Mapped<S, M> {
    /// Returns a source with the calls of this one, mapped.
    pub fn new(source: S, mapping: M) -> Mapped<S, M>
        ensures { result ≡ record { source = source; mapping = mapping } }
    {
        Mapped { source, mapping }
    }
}

impl<S, M> Mapped<S, M> {
    /// Returns the source and the mapping.
    pub fn into_parts(self) -> (S, M)
        ensures { result ≡ (self.source, self.mapping) }
    {
        let Mapped { source, mapping } = self;
        (source, mapping)
    }
}

impl<S: Source, M: Mapping> Source for Mapped<S, M> {
    ghost use Rattle.ttree_adapters.specs.Mapping.{mapped_ended, mapped_ends, mapped_takes};

    ghost takes = { mapped_takes S.takes M.makes };

    ghost ends = { mapped_ends S.ends M.makes };

    ghost ended = { mapped_ended S.ended S.ends M.makes };

    ghost value_problem = { S.value_problem };

    fn reads_values(&self) -> bool {
        self.source.reads_values() || self.mapping.reads_values()
    }

    fn take(
        &mut self,
        alloc: Global,
        line: &str,
        value: Option<&Value<'_>>,
    ) -> Result<Option<Vec<Call>>, AllocError> {
        match self.source.take(alloc, line, value)? {
            Some(calls) => Ok(Some(self.mapping.map(alloc, value, calls)?)),
            None => Ok(None),
        }
    }

    fn problem(value: Option<&Value<'_>>) -> Problem {
        S::problem(value)
    }

    fn end(&mut self, alloc: Global) -> Result<Vec<Call>, AllocError> {
        let calls = self.source.end(alloc)?;
        self.mapping.map(alloc, None, calls)
    }
}
