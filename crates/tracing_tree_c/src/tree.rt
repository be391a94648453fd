//! The tree that C holds.

ghost use Rattle.std.specs.Prelude.{◌≡◌, ◌<◌, [], Some, None, option_map};
ghost use Rattle.std.specs.Option.{is_some};
ghost use Rattle.tracing_tree_time.specs.Clock.{clock_timer};
ghost use Rattle.tracing_tree_c.specs.Exports.{Opens};
ghost use Rattle.tracing_tree_c.specs.Owned.{Contents, contents_coded, owned};
ghost use Rattle.tracing_tree_c.specs.Settings.{new_tree_seen};
ghost use Rattle.tracing_tree_c.specs.Trees.{Performs, seen_tree};

use crate::act::Act;
use crate::drawing::Drawing;
use crate::entered::Entered;
use crate::foreign::Unreadable;
use crate::lent::Lent;
use crate::outcome::{Opening, Outcome};
use crate::raw::RawBox;
use crate::settings::{SIZE, SettingsRef};
use crate::timer::TreeTimer;
use std::alloc::Global;
use std::marker::Model;
use std::{mem, ptr};
use tracing_tree_layer::layer::HierarchicalLayer;
use tracing_tree_layer::layered::Layered;
use tracing_tree_time::Clock;

/// A tree as C holds it, or no tree. `there` is false if there isn't one, as in zeroed memory.
#[repr(C)]
#[derive(Drop)]
pub struct Tree {
    inside: *mut u8,
    there: bool,
    ghost kept: { Contents } by { contents_coded },
    ghost tied: { there ≡ is_some kept },
}

impl Model for Tree {
    ghost also_owns = { λ t. owned t.inside t.kept };
}

// No other thread has the pointer, and any thread may free it.
unsafe impl Send for Tree {}

// The functions from here to `into_raw` reach the pointer.
impl Tree {
    fn empty() -> Tree
        ensures { result.kept ≡ None }
    {
        Tree {
            inside: ptr::null_mut(),
            there: false,
        }
    }

    fn of(raw: RawBox<Drawing, Global>) -> Tree
        ensures { result.kept ≡ Some raw.value }
    {
        let RawBox { at, alloc: _ } = raw;
        Tree {
            inside: at as *mut u8,
            there: true,
        }
    }

    fn into_raw(self, alloc: Global) -> Option<RawBox<Drawing, Global>>
        ensures { option_map (λ raw. raw.value) result ≡ self.kept }
    {
        let Tree { inside, there } = self;
        if there {
            let at = inside as *mut Drawing;
            Some(RawBox { at, alloc })
        } else {
            None
        }
    }
}

// Returns a tree without spans.
fn fresh(alloc: Global, settings: &SettingsRef, clock: Clock<'static>) -> Drawing
    requires { 0 < settings.now.wraparound }
    ensures seen { seen_tree result ≡ new_tree_seen settings.now (clock_timer clock.entry) }
    ensures entered { result.entered ≡ [] }
{
    let layer = HierarchicalLayer::with_config(alloc, settings.config(), Lent::new(alloc));
    Drawing {
        layered: Layered::new(alloc, layer.with_timer(TreeTimer::Library(clock))),
        entered: Entered::new(alloc),
    }
}

// Checks that a value is `Send`, since C may pass a tree from one thread to another.
fn sent<T: Send>(value: T) -> T
    ensures { result ≡ value }
{
    value
}

impl Tree {
    // Takes the tree out.
    #[inline(always)]
    pub(crate) fn take(&mut self, alloc: Global) -> Option<Box<Drawing>>
        ensures taken { option_map (λ box. box.value) result ≡ self.old.kept }
        ensures gone { self.new.kept ≡ None }
    {
        let raw = mem::replace(self, Tree::empty()).into_raw(alloc)?;
        Some(raw.into_box())
    }

    // Puts a tree in.
    #[inline(always)]
    pub(crate) fn put(&mut self, drawing: Box<Drawing>)
        ensures { self.new.kept ≡ Some drawing.value }
    {
        *self = sent(Tree::of(RawBox::of(drawing)));
    }

    // Makes a tree, unless there is one already.
    pub(crate) fn open(&mut self, alloc: Global, settings: &SettingsRef) -> Opening
        ensures { Opens settings.now result self.old.kept self.new.kept }
    {
        if let Some(drawing) = self.take(alloc) {
            self.put(drawing);
            return Opening::There;
        }
        if settings.size != SIZE {
            return Opening::OtherSize;
        }
        if settings.wraparound == 0 {
            return Opening::Unknown;
        }
        let Some(clock) = settings.clock() else {
            return Opening::Unknown;
        };
        match Box::new(alloc, fresh(alloc, settings, clock)) {
            Ok(drawing) => {
                self.put(drawing);
                Opening::Opened
            }
            Err(_) => Opening::Starved,
        }
    }

    // Does what was read. If it could not be read, clears the text of the last call.
    #[inline(always)]
    pub(crate) fn perform<T: Act + Drop>(
        &mut self,
        alloc: Global,
        read: Result<T, Unreadable>,
    ) -> Outcome
        ensures { Performs T.does read result self.old.kept self.new.kept }
    {
        let Some(mut drawing) = self.take(alloc) else {
            return Outcome::Missing;
        };
        let outcome = match read {
            Ok(act) => Outcome::Answered(act.act(alloc, &mut drawing)),
            Err(fault) => {
                drawing.clear(alloc);
                Outcome::NotRead(fault)
            }
        };
        self.put(drawing);
        outcome
    }
}
