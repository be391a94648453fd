//! The fields of a line, which contracts see as a list.

ghost use Rattle.std.specs.Prelude.{◌≡◌, ◌++◌, ◌∷◌, [], OnErr, OnOk};

use std::alloc::{AllocError, Global};
use std::marker::Model;
use std::slice;
use tracing_tree_layer::parts::FieldTexts;

// The first capacity of a list of several fields.
const ROOM: usize = 4;

// The fields of a line, in order. Most lines have one. It is stored inline and never allocates.
#[derive(Drop)]
pub(super) struct FieldList<'a> {
    kept: Storage<'a>,
}

// How fields are stored.
#[derive(Drop)]
enum Storage<'a> {
    None,
    One(FieldTexts<'a>),
    Many(Vec<FieldTexts<'a>>),
}

impl<'a> Model for FieldList<'a> {
    ghost use Rattle.std.specs.Prelude.{List};
    ghost use Rattle.tracing_tree_lines.specs.Lines.FieldList.{kept_fields};
    ghost use Rattle.tracing_tree_base.specs.declared.field.Field.{Field};

    ghost Value = { List Field };

    ghost view = { λ f. kept_fields f.kept };
}

impl<'a> FieldList<'a> {
    // Returns an empty list.
    #[inline(always)]
    pub(super) fn new() -> FieldList<'a>
        ensures { result ≡ [] }
    {
        FieldList {
            kept: Storage::None,
        }
    }

    // Appends a field. The first one never allocates. `AllocError` if an allocation fails. The list
    // is unchanged then.
    #[inline(always)]
    pub(super) fn push(&mut self, alloc: Global, field: FieldTexts<'a>) -> Result<(), AllocError>
        ensures ok { OnOk result (self.new ≡ self.old ++ field.entry ∷ []) }
        ensures err { OnErr result (self.new ≡ self.old) }
    {
        match &mut self.kept {
            Storage::None => self.kept = Storage::One(field),
            Storage::One(first) => {
                let mut list = Vec::with_capacity(alloc, ROOM)?;
                // `first` is borrowed, so a new field is made from its strings.
                list.push_reserved(FieldTexts {
                    name: first.name,
                    value: first.value,
                });
                list.push_reserved(field);
                self.kept = Storage::Many(list);
            }
            Storage::Many(list) => list.push(field)?,
        }
        Ok(())
    }

    // Returns the fields.
    #[inline(always)]
    pub(super) fn as_slice(&self) -> &[FieldTexts<'a>]
        ensures { result.now ≡ self.now }
    {
        match &self.kept {
            Storage::None => &[],
            Storage::One(field) => slice::from_ref(field),
            Storage::Many(list) => list.as_slice(),
        }
    }
}
