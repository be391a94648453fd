//! Fields, and lists of fields, which contracts see as lists.

ghost use Rattle.std.specs.Prelude.{◌≡◌, ◌++◌, ◌<◌, ◌∷◌, [], false, IfOk, OnOk, OnErr, IsAscii, codes, string_bytes};
ghost use Rattle.std.specs.Fmt.{digits};
ghost use Rattle.tracing_tree_base.specs.Field.{rendered_field, whole_field, truth_field, text_field, quoted, escaped};

use crate::text::Text;
use std::alloc::{AllocError, Global};
use std::marker::Model;
use std::{mem, slice};

/// A field: its name, and its value as a string.
#[derive(Clone, Debug, Drop, PartialEq, Eq)]
pub struct Field {
    pub name: Text,
    pub value: Text,
}

impl Field {
    /// Returns a field with this value, unchanged.
    ///
    /// # Errors
    ///
    /// `AllocError` if an allocation fails.
    pub fn rendered(alloc: Global, name: &str, value: &str) -> Result<Field, AllocError>
        ensures { IfOk result (λ field. field ≡ rendered_field name.now value.now) }
    {
        Ok(Field {
            name: Text::from_str(alloc, name)?,
            value: Text::from_str(alloc, value)?,
        })
    }

    /// Returns a field whose value is a whole number, in decimal digits.
    ///
    /// # Errors
    ///
    /// `AllocError` if an allocation fails.
    pub fn whole(alloc: Global, name: &str, value: i128) -> Result<Field, AllocError>
        ensures { IfOk result (λ field. field ≡ whole_field name.now value) }
    {
        Ok(Field {
            name: Text::from_str(alloc, name)?,
            value: Text::from(value.to_string(alloc)?),
        })
    }

    /// Returns a field whose value is `true` or `false`.
    ///
    /// # Errors
    ///
    /// `AllocError` if an allocation fails.
    pub fn truth(alloc: Global, name: &str, value: bool) -> Result<Field, AllocError>
        ensures { IfOk result (λ field. field ≡ truth_field name.now value) }
    {
        Field::rendered(alloc, name, if value { "true" } else { "false" })
    }

    /// Returns a field whose value is a string in Rust's debug form, in quotes and with escapes.
    /// The caller must ensure that the string is ASCII.
    ///
    /// # Errors
    ///
    /// `AllocError` if an allocation fails.
    pub fn text(alloc: Global, name: &str, value: &str) -> Result<Field, AllocError>
        requires { IsAscii value.now }
        ensures { IfOk result (λ field. field ≡ text_field name.now value.now) }
    {
        Ok(Field {
            name: Text::from_str(alloc, name)?,
            value: Text::from(quoted(alloc, value)?),
        })
    }
}

// Returns an ASCII string in Rust's debug form.
fn quoted(alloc: Global, text: &str) -> Result<String, AllocError>
    requires { IsAscii text.now }
    ensures { IfOk result (λ made. string_bytes made ≡ quoted text.now) }
{
    let mut out = String::new(alloc);
    out.push_str("\"")?;
    for byte in text.as_bytes() {
        push_escaped(&mut out, *byte)?;
    }
    out.push_str("\"")?;
    Ok(out)
}

// Appends an ASCII character as in the debug form of a string.
fn push_escaped(out: &mut String, byte: u8) -> Result<(), AllocError>
    requires { byte < 128 }
    ensures { OnOk result (string_bytes out.new ≡ string_bytes out.old ++ escaped byte) }
{
    match byte {
        b'"' => out.push_str("\\\""),
        b'\\' => out.push_str("\\\\"),
        b'\t' => out.push_str("\\t"),
        b'\n' => out.push_str("\\n"),
        b'\r' => out.push_str("\\r"),
        0 => out.push_str("\\0"),
        1..=31 | 127 => push_code(out, byte),
        _ => out.push(char::from(byte)),
    }
}

// Appends the escape of a character: its code in lowercase hexadecimal digits.
fn push_code(out: &mut String, byte: u8) -> Result<(), AllocError>
    ensures { OnOk result
        (string_bytes out.new ≡ string_bytes out.old ++ codes "\\u{" ++ digits 16 false byte
        ++ codes "}") }
{
    out.push_str("\\u{")?;
    write!(out, "{byte:x}")?;
    out.push_str("}")
}

// The first capacity of a list of several fields.
const ROOM: usize = 4;

/// A list of fields in order, which contracts see as that list. Fields with the same name are all
/// kept.
///
/// A single field is stored inline, and so in the record of its span. Contracts don't distinguish
/// the two forms.
#[derive(Debug, Drop)]
pub struct Fields {
    alloc: Global,
    kept: Storage,
}

// How fields are stored.
#[derive(Debug, Drop)]
enum Storage {
    One(Field),
    Many(Vec<Field>),
}

impl Model for Fields {
    ghost use Rattle.std.specs.Prelude.{List};
    ghost use Rattle.tracing_tree_base.specs.Field.{kept_fields};
    ghost use Rattle.tracing_tree_base.specs.declared.field.Field.{Field};

    ghost Value = { List Field };

    ghost view = { λ f. kept_fields f.kept };
}

impl Fields {
    /// Returns an empty list. Never allocates.
    pub fn new(alloc: Global) -> Fields
        ensures { result ≡ [] }
    {
        Fields {
            alloc,
            kept: Storage::Many(Vec::new(alloc)),
        }
    }

    /// Returns a list of one field. Never allocates.
    pub fn one(alloc: Global, field: Field) -> Fields
        ensures { result ≡ field ∷ [] }
    {
        Fields {
            alloc,
            kept: Storage::One(field),
        }
    }

    /// Returns the fields.
    pub fn as_slice(&self) -> &[Field]
        ensures { result.now ≡ self.now }
    {
        match &self.kept {
            Storage::One(field) => slice::from_ref(field),
            Storage::Many(items) => items.as_slice(),
        }
    }

    /// Appends the fields.
    ///
    /// # Errors
    ///
    /// `AllocError` if an allocation fails. The list is unchanged then, and the fields to append
    /// are dropped.
    pub fn append(&mut self, fields: Fields) -> Result<(), AllocError>
        ensures ok { OnOk result (self.new ≡ self.old ++ fields) }
        ensures err { OnErr result (self.new ≡ self.old) }
    {
        if fields.as_slice().is_empty() {
            return Ok(());
        }
        let mut items = self.take_list()?;
        let appended = fields.move_to(&mut items);
        self.kept = Storage::Many(items);
        appended
    }

    // Takes the fields out, as a separate list. If an allocation fails, nothing has changed.
    fn take_list(&mut self) -> Result<Vec<Field>, AllocError>
        ensures ok { IfOk result (λ list. list.items ≡ self.old) }
        ensures err { OnErr result (self.new ≡ self.old) }
    {
        if let Storage::Many(items) = &mut self.kept {
            return Ok(mem::replace(items, Vec::new(self.alloc)));
        }
        let mut list = Vec::with_capacity(self.alloc, ROOM)?;
        if let Storage::One(field) = mem::replace(
            &mut self.kept,
            Storage::Many(Vec::new(self.alloc)),
        ) {
            list.push_reserved(field);
        }
        Ok(list)
    }

    // Appends the fields to the list. If an allocation fails, the list is unchanged.
    fn move_to(self, list: &mut Vec<Field>) -> Result<(), AllocError>
        ensures ok { OnOk result (list.new.items ≡ list.old.items ++ self) }
        ensures err { OnErr result (list.new.items ≡ list.old.items) }
    {
        let Fields { alloc: _, kept } = self;
        match kept {
            Storage::One(field) => Ok(list.push(field)?),
            Storage::Many(mut items) => list.append(&mut items),
        }
    }
}

/// Never allocates.
impl From<Vec<Field>> for Fields {
    ghost use Rattle.std.specs.Prelude.{◌≡◌};

    ghost from_gives = { λ items fields. fields ≡ items.items };

    fn from(mut items: Vec<Field>) -> Fields {
        let alloc = *items.allocator();
        let lone = if items.len() == 1 { items.pop() } else { None };
        let kept = match lone {
            Some(field) => Storage::One(field),
            None => Storage::Many(items),
        };
        Fields { alloc, kept }
    }
}

impl Clone for Fields {
    ghost is_clone = { λ source copy. copy ≡ source };

    fn clone(&self) -> Result<Fields, AllocError> {
        let kept = match &self.kept {
            Storage::One(field) => Storage::One(field.clone()?),
            Storage::Many(items) => Storage::Many(items.clone()?),
        };
        Ok(Fields {
            alloc: self.alloc,
            kept,
        })
    }
}

impl PartialEq for Fields {
    ghost use Rattle.tracing_tree_base.specs.Equal.{fields_eq, fields_eq_partial};

    ghost eq = { fields_eq };

    ghost laws = { fields_eq_partial };

    fn eq(&self, other: &Fields) -> bool {
        self.as_slice() == other.as_slice()
    }
}

impl Eq for Fields {
    ghost use Rattle.tracing_tree_base.specs.Equal.{fields_eq_equivalence};

    ghost laws = { fields_eq_equivalence };
}
