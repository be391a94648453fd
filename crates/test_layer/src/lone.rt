//! A custom registry with a single root.

use std::alloc::{AllocError, Global};
use std::process::Abort;
use std::test::*;
use test_support::recorded;
use tracing_tree::field::Fields;
use tracing_tree::format::Id;
use tracing_tree::registry::{Data, LookupSpan, SpanRef};
use tracing_tree::text::Text;

/// One root, with the id 1.
#[derive(Drop)]
pub struct Lone {
    name: Text,
    target: Text,
    data: Data,
}

impl Lone {
    /// Returns a root of this name, without fields.
    pub fn new(alloc: Global, name: &str) -> Result<Lone, AllocError> {
        Ok(Lone {
            name: Text::from_str(alloc, name)?,
            target: Text::from_str(alloc, "")?,
            data: Data {
                start: 0,
                fields: Fields::new(alloc),
                written: false,
            },
        })
    }
}

impl LookupSpan for Lone {
    ghost use Rattle.std.specs.Prelude.{[], ◌∷◌, None};
    ghost use Rattle.tracing_tree_spans.specs.Registry.Ids.{id_of};

    ghost forest = { λ lone. record {
      spans =
          record {
            id = id_of 1;
            parent = None;
            name = lone.name;
            target = lone.target;
            kept = lone.«data»;
            handles = 1;
          } ∷ [];
      next = None;
    } };

    fn span(&self, id: Id) -> Option<SpanRef<'_>> {
        if id.0 != 1 {
            return None;
        }
        Some(SpanRef::new(id, None, &self.name, &self.target, &self.data))
    }

    fn parent(&self, _id: Id) -> Option<Id> {
        None
    }

    fn path(&self, alloc: Global, id: Id) -> Result<Vec<Id>, AllocError> {
        let mut path = Vec::new(alloc);
        if id.0 == 1 {
            path.push(id)?;
        }
        Ok(path)
    }

    fn kept_path(&self, _id: Id) -> Option<&[Id]> {
        None
    }

    fn data(&self, id: Id) -> Option<&Data> {
        if id.0 != 1 {
            return None;
        }
        Some(&self.data)
    }

    fn record(&mut self, id: Id, fields: Fields) -> Result<(), AllocError> {
        if id.0 != 1 {
            return Ok(());
        }
        self.data.fields.append(fields)
    }

    fn set_written(&mut self, id: Id) {
        if id.0 == 1 {
            self.data.written = true;
        }
    }
}

#[test]
fn marks_and_records(rt: HostRuntime) -> Result<(), Fail> {
    let alloc = rt.alloc();
    let mut lone = Lone::new(alloc, "a")?;
    lone.set_written(Id(1));
    for (id, value) in [(Id(1), "1"), (Id(2), "2")] {
        lone.record(id, recorded(alloc, "k", value)?)?;
    }
    let data = lone.data(Id(1)).ok_or("no data")?;
    assert_eq!(rt; data.written, true);
    assert_eq!(rt; data.fields.as_slice().len(), 1);
    Ok(())
}

// It shows its root, and no other span.
fn shows_one(rt: &impl Abort, alloc: Global, lone: &Lone) -> Result<(), Fail> {
    assert_eq!(rt; lone.path(alloc, Id(1))?.as_slice(), [Id(1)].as_slice());
    assert_eq!(rt; lone.path(alloc, Id(2))?.len(), 0);
    assert_eq!(rt; lone.parent(Id(1)), None);
    assert_eq!(rt; lone.span(Id(1)).ok_or("no span")?.name(), "a");
    Ok(())
}

#[test]
fn shows_its_root(rt: HostRuntime) -> Result<(), Fail> {
    let lone = Lone::new(rt.alloc(), "a")?;
    shows_one(&rt, rt.alloc(), &lone)
}
