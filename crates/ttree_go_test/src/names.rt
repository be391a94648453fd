//! Values with names: tests by their names, and packages by their paths.

ghost use Rattle.std.specs.Prelude.{◌≡◌, ◌++◌, ◌∷◌, ℕ, List, [], None, IfNone, IfOk, IfSome, OnOk, is_some, option_map};
ghost use Rattle.ttree_go_test.specs.Names.{by_bytes, emptied, filled, is_recent, named, put, unboxed, value_of, with_recent, without};

use std::alloc::{AllocError, Global};
use std::collections::BTreeMap;
use std::marker::Model;

// The name that was used last, with its value unless that was taken out.
#[derive(Drop)]
struct Recent<X> {
    name: Vec<u8>,
    one: Option<X>,
}

// Values by their names, in the order of the names' bytes. The value that was used last is beside
// the others, so it is found, taken out and stored without a search. It is boxed, since the names
// of a package are moved for each line.
#[derive(Drop)]
pub(crate) struct Named<X> {
    entries: BTreeMap<Vec<u8>, X>,
    // Its name isn't among the entries.
    recent: Option<Box<Recent<X>>>,
}

impl<X> Model for Named<X> {
    ghost use Rattle.std.specs.Prelude.{◌≡◌, ℕ, List, true};
    ghost use Rattle.ttree_go_test.specs.Names.{by_bytes, is_apart, unboxed, with_recent};

    ghost Value = { List (List ℕ × X) };

    ghost view = { λ n. with_recent (unboxed n.recent) (by_bytes n.entries.entries) };

    ghost invariant = { λ n. is_apart (unboxed n.recent) (by_bytes n.entries.entries) ≡ true };
}

impl<X: Drop> Named<X> {
    pub(crate) fn new(alloc: Global) -> Named<X>
        ensures { result ≡ [] }
    {
        Named {
            entries: BTreeMap::new(alloc),
            recent: None,
        }
    }

    // Returns whether there is a value with this name.
    pub(crate) fn has(&self, name: &[u8]) -> bool
        ensures { result ≡ is_some (named name.now self.now) }
    {
        self.get(name).is_some()
    }

    // Returns the value with this name.
    pub(crate) fn get(&self, name: &[u8]) -> Option<&X>
        ensures { option_map (λ one. one.now) result ≡ named name.now self.now }
    {
        if is_recent(&self.recent, name) {
            return value_of(&self.recent);
        }
        self.entries.get(name)
    }

    // Takes out the value with this name.
    pub(crate) fn take(&mut self, name: &[u8]) -> Result<Option<X>, AllocError>
        ensures one { IfOk result (λ one. one ≡ named name.now self.old) }
        ensures rest { OnOk result (self.new ≡ without name.now self.old) }
    {
        if is_recent(&self.recent, name) {
            return Ok(take_value(&mut self.recent));
        }
        settle(&mut self.entries, &mut self.recent)?;
        Ok(self.entries.remove(name))
    }

    // Takes out the value with the last name.
    pub(crate) fn take_last(&mut self) -> Result<Option<X>, AllocError>
        ensures none { IfOk result (λ last. IfNone last (self.old ≡ [])) }
        ensures one { IfOk result (λ last. IfSome last (λ one.
            (name : List ℕ) × (self.old ≡ self.new ++ (name, one) ∷ []))) }
    {
        settle(&mut self.entries, &mut self.recent)?;
        match self.entries.pop_last() {
            Some((_, one)) => Ok(Some(one)),
            None => Ok(None),
        }
    }

    // Takes out the value with the first name, and the name.
    pub(crate) fn take_first(&mut self) -> Result<Option<(Vec<u8>, X)>, AllocError>
        ensures none { IfOk result (λ first. IfNone first (self.old ≡ [])) }
        ensures one { IfOk result (λ first. IfSome first (λ first.
            self.old ≡ (first.0.items, first.1) ∷ self.new)) }
    {
        settle(&mut self.entries, &mut self.recent)?;
        Ok(self.entries.pop_first())
    }

    // Stores a value under this name.
    pub(crate) fn put(&mut self, alloc: Global, name: &[u8], one: X) -> Result<(), AllocError>
        ensures { OnOk result (self.new ≡ put name.now one self.old) }
    {
        if is_recent(&self.recent, name) {
            set_value(&mut self.recent, one);
            return Ok(());
        }
        settle(&mut self.entries, &mut self.recent)?;
        let name = Vec::from_slice(alloc, name)?;
        if self.entries.contains_key(name.as_slice()) {
            self.entries.insert(name, one)?;
            return Ok(());
        }
        let one = Some(one);
        self.recent = Some(Box::new(alloc, Recent { name, one })?);
        Ok(())
    }
}

// Returns whether this name was used last.
fn is_recent<X>(recent: &Option<Box<Recent<X>>>, name: &[u8]) -> bool
    ensures { result ≡ is_recent name.now (unboxed recent.now) }
{
    match recent {
        Some(recent) => recent.name.as_slice() == name,
        None => false,
    }
}

fn value_of<X>(recent: &Option<Box<Recent<X>>>) -> Option<&X>
    ensures { option_map (λ one. one.now) result ≡ value_of (unboxed recent.now) }
{
    match recent {
        Some(recent) => recent.one.as_ref(),
        None => None,
    }
}

fn take_value<X>(recent: &mut Option<Box<Recent<X>>>) -> Option<X>
    ensures one { result ≡ value_of (unboxed recent.old) }
    ensures rest { unboxed recent.new ≡ emptied (unboxed recent.old) }
{
    match recent {
        Some(recent) => recent.one.take(),
        None => None,
    }
}

fn set_value<X: Drop>(recent: &mut Option<Box<Recent<X>>>, one: X)
    ensures { unboxed recent.new ≡ filled one (unboxed recent.old) }
{
    if let Some(recent) = recent {
        recent.one = Some(one);
    }
}

// Stores the value that was used last among the entries.
fn settle<X: Drop>(
    entries: &mut BTreeMap<Vec<u8>, X>,
    recent: &mut Option<Box<Recent<X>>>,
) -> Result<(), AllocError>
    ensures entries { OnOk result (by_bytes entries.new.entries
        ≡ with_recent (unboxed recent.old) (by_bytes entries.old.entries)) }
    ensures recent { recent.new ≡ None }
{
    let Some(last) = recent.take() else {
        return Ok(());
    };
    let Recent { name, one } = Box::into_inner(last);
    match one {
        Some(one) => {
            entries.insert(name, one)?;
            Ok(())
        }
        None => Ok(()),
    }
}
