//! A custom registry that lists a child before its root.

use std::alloc::{AllocError, Global};
use std::process::Abort;
use std::test::*;
use test_support::at;
use tracing_tree::field::Fields;
use tracing_tree::format::{Id, Refusal, Tape};
use tracing_tree::layer::HierarchicalLayer;
use tracing_tree::registry::{Data, LookupSpan, SpanRef};
use tracing_tree::text::Text;

/// A child with the id 3, and then its root with the id 7. The next id is 1, below both.
#[derive(Drop)]
pub struct Turned {
    name: Text,
    target: Text,
    child: Data,
    root: Data,
}

// Data of a new span.
fn fresh(alloc: Global) -> Data {
    Data {
        start: 0,
        fields: Fields::new(alloc),
        written: false,
    }
}

impl Turned {
    /// Two spans of this name, without fields.
    pub fn new(alloc: Global, name: &str) -> Result<Turned, AllocError> {
        Ok(Turned {
            name: Text::from_str(alloc, name)?,
            target: Text::from_str(alloc, "")?,
            child: fresh(alloc),
            root: fresh(alloc),
        })
    }
}

impl LookupSpan for Turned {
    ghost use Rattle.std.specs.Prelude.{[], ◌∷◌, None, Some};
    ghost use Rattle.tracing_tree_spans.specs.Registry.Ids.{id_of};

    ghost forest = { λ turned. record {
      spans =
          record {
            id = id_of 3;
            parent = Some (id_of 7);
            name = turned.name;
            target = turned.target;
            kept = turned.child;
            handles = 1;
          } ∷ record {
            id = id_of 7;
            parent = None;
            name = turned.name;
            target = turned.target;
            kept = turned.root;
            handles = 1;
          } ∷ [];
      next = Some (id_of 1);
    } };

    fn span(&self, id: Id) -> Option<SpanRef<'_>> {
        match id.0 {
            3 => Some(SpanRef::new(id, Some(Id(7)), &self.name, &self.target, &self.child)),
            7 => Some(SpanRef::new(id, None, &self.name, &self.target, &self.root)),
            _ => None,
        }
    }

    fn parent(&self, id: Id) -> Option<Id> {
        if id.0 == 3 { Some(Id(7)) } else { None }
    }

    fn path(&self, alloc: Global, id: Id) -> Result<Vec<Id>, AllocError> {
        let mut path = Vec::new(alloc);
        if id.0 == 3 {
            path.push(Id(7))?;
            path.push(id)?;
        } else if id.0 == 7 {
            path.push(id)?;
        }
        Ok(path)
    }

    fn kept_path(&self, _id: Id) -> Option<&[Id]> {
        None
    }

    fn data(&self, id: Id) -> Option<&Data> {
        match id.0 {
            3 => Some(&self.child),
            7 => Some(&self.root),
            _ => None,
        }
    }

    fn record(&mut self, id: Id, fields: Fields) -> Result<(), AllocError> {
        match id.0 {
            3 => self.child.fields.append(fields),
            7 => self.root.fields.append(fields),
            _ => Ok(()),
        }
    }

    fn set_written(&mut self, id: Id) {
        match id.0 {
            3 => self.child.written = true,
            7 => self.root.written = true,
            _ => {}
        }
    }
}

// It shows a child below its root, and no other span.
fn shows_both(rt: &impl Abort, alloc: Global, turned: &Turned) -> Result<(), Fail> {
    assert_eq!(rt;
        turned.path(alloc, Id(3))?.as_slice(),
        [Id(7), Id(3)].as_slice()
    );
    assert_eq!(rt; turned.path(alloc, Id(7))?.as_slice(), [Id(7)].as_slice());
    assert_eq!(rt; turned.path(alloc, Id(1))?.len(), 0);
    assert_eq!(rt; turned.parent(Id(3)), Some(Id(7)));
    Ok(())
}

#[test]
fn shows_a_child_before_its_root(rt: HostRuntime) -> Result<(), Fail> {
    let turned = Turned::new(rt.alloc(), "a")?;
    shows_both(&rt, rt.alloc(), &turned)
}

// A retrace draws the way down to the child.
fn draw(layer: &mut HierarchicalLayer<Tape, ()>, turned: &mut Turned) -> Result<(), Refusal> {
    layer.on_new_span(Id(3), turned, &at(None))?;
    layer.on_close(Id(3), turned, &at(None))?;
    layer.on_close(Id(7), turned, &at(None))
}

#[test]
fn draws_a_child_before_its_root(rt: HostRuntime) -> Result<(), Fail> {
    let alloc = rt.alloc();
    let mut turned = Turned::new(alloc, "a")?;
    let mut layer = HierarchicalLayer::new(alloc, 2, false, Tape::new(alloc))
        .with_indent_lines(true)
        .with_span_retrace(true);
    assert_eq!(rt; draw(&mut layer, &mut turned), Ok(()));
    assert_eq!(rt; layer.writer().bytes(), "┐a \n└─┐a \n┌─┘\n┘\n".as_bytes());
    Ok(())
}
