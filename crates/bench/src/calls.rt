//! Lists of calls, made before they are timed.

use jiff::Timestamp;
use std::alloc::{AllocError, Global};
use std::mem;
use tracing_tree::call::Call;
use tracing_tree::field::{Field, Fields};
use tracing_tree::format::{Context, Id};
use tracing_tree::registry::{Attributes, Event, Parent, Record};
use tracing_tree::style::Level;
use tracing_tree::text::Text;
use tracing_tree::time::Moment;

// Makes calls, one after another, and knows the ids that their spans will have.
#[derive(Drop)]
pub struct Calls {
    alloc: Global,
    list: Vec<Call>,
    next: u64,
    wall: Timestamp,
}

impl Calls {
    // No calls yet, and 1 for the next span.
    pub fn new(alloc: Global) -> Calls {
        Calls {
            alloc,
            list: Vec::new(alloc),
            next: 1,
            wall: Timestamp::new(951_827_696, 123_456_789).unwrap_or(Timestamp::UNIX_EPOCH),
        }
    }

    pub fn allocator(&self) -> Global {
        self.alloc
    }

    // Returns the id that the next span will have.
    pub fn next(&self) -> u64 {
        self.next
    }

    // The calls so far, which the list then lacks.
    pub fn take(&mut self) -> Vec<Call> {
        mem::replace(&mut self.list, Vec::new(self.alloc))
    }

    // A new span below the span `current`.
    pub fn open(&mut self, current: Option<u64>) -> Result<u64, AllocError> {
        let id = self.next;
        let attributes = Attributes {
            name: Text::from_str(self.alloc, "span")?,
            target: Text::from_str(self.alloc, "bench")?,
            parent: Parent::Current,
            fields: Fields::from(vec![in self.alloc; Field::rendered(self.alloc, "key", "1")?]?),
        };
        let context = self.context(current)?;
        self.list.push(Call::New(attributes, context))?;
        self.next = id.wrapping_add(1);
        Ok(id)
    }

    // An event with a message and a field.
    pub fn emit(&mut self, message: &str, current: Option<u64>) -> Result<(), AllocError> {
        let event = Event {
            level: Level::Info,
            target: Text::from_str(self.alloc, "bench")?,
            parent: Parent::Current,
            fields: Fields::from(vec![in self.alloc;
                Field::rendered(self.alloc, "message", message)?,
                Field::rendered(self.alloc, "n", "12")?,
            ]?),
        };
        let context = self.context(current)?;
        self.list.push(Call::Event(event, context))?;
        Ok(())
    }

    pub fn close(&mut self, id: u64) -> Result<(), AllocError> {
        let context = self.context(None)?;
        self.list.push(Call::Close(Id(id), context))?;
        Ok(())
    }

    pub fn clone_span(&mut self, id: u64) -> Result<(), AllocError> {
        self.list.push(Call::Clone(Id(id)))?;
        Ok(())
    }

    pub fn record(&mut self, id: u64) -> Result<(), AllocError> {
        let fields = Fields::from(vec![in self.alloc; Field::rendered(self.alloc, "k", "v")?]?);
        self.list.push(Call::Record(Id(id), Record { fields }))?;
        Ok(())
    }

    fn context(&self, current: Option<u64>) -> Result<Context, AllocError> {
        Ok(Context {
            current: current.map(Id),
            thread_id: 1,
            thread_name: Some(Text::from_str(self.alloc, "main")?),
            moment: Moment {
                mono: 5_000_000_000,
                wall: self.wall,
            },
        })
    }
}
