//! The value at a key of a line's object.

ghost use Rattle.std.specs.Prelude.{◌≡◌, [], Some, option_map};
ghost use Rattle.std.specs.Option.{option_map_or};
ghost use Rattle.serde_json.specs.Find.{as_str};
ghost use Rattle.tracing_tree_lines.specs.Lines.Parts.{listed_data, part_data};
ghost use Rattle.tracing_tree_lines.specs.Lines.Spelled.{fields_value, signed_value, unless_null, whole_value};

use super::field_list::FieldList;
use tracing_tree_layer::parts::FieldTexts;

// A value that a call is read from, except for its fields.
#[derive(Clone, Copy, Drop)]
pub(super) enum Part<'a> {
    // Missing, or a null.
    Absent,
    Text(&'a str),
    // A whole number of 64 bits.
    Whole(u64),
    // A negative whole number of 64 bits.
    Negative(i64),
    // Another value. Every part of a call rejects it.
    Other,
}

impl<'a> Part<'a> {
    // Returns the part itself, or `None` if it is absent.
    pub(super) fn unless_null(&self) -> Option<&Part<'a>>
        ensures { option_map (λ part. part_data part.now) result ≡ unless_null (part_data self.now) }
    {
        match self {
            Part::Absent => None,
            _ => Some(self),
        }
    }

    // Returns the string, or `None` if it isn't one.
    pub(super) fn as_str(&self) -> Option<&'a str>
        ensures { option_map (λ text. text.now) result ≡ as_str (part_data self.now) }
    {
        match self {
            Part::Text(text) => Some(text),
            _ => None,
        }
    }

    // Returns the unsigned number, or `None` if it isn't one.
    pub(super) fn as_whole(&self) -> Option<u64>
        ensures { result ≡ whole_value (part_data self.now) }
    {
        match self {
            Part::Whole(number) => Some(*number),
            _ => None,
        }
    }

    // Returns the number if it fits `i64`, otherwise `None`.
    pub(super) fn as_signed(&self) -> Option<i64>
        ensures { result ≡ signed_value (part_data self.now) }
    {
        match self {
            Part::Whole(number) => i64::try_from(*number).ok(),
            Part::Negative(number) => Some(*number),
            _ => None,
        }
    }
}

// The value that the fields of a call are read from.
#[derive(Drop)]
pub(super) enum FieldsPart<'a> {
    // Missing, or a null.
    Absent,
    // An array of pairs of strings.
    Fields(FieldList<'a>),
    // Another value, which isn't a list of fields.
    Other,
}

impl<'a> FieldsPart<'a> {
    // Returns the fields. The list is empty if they are missing. `None` if they are invalid.
    #[tactic(auto, using(crate::proofs::LineParts::fields_read))]
    pub(super) fn as_fields(&'a self) -> Option<&'a [FieldTexts<'a>]>
        ensures { option_map (λ fields. fields.now) result
            ≡ option_map_or fields_value (unless_null (listed_data self.now)) (Some []) }
    {
        match self {
            FieldsPart::Absent => Some(&[]),
            FieldsPart::Fields(fields) => Some(fields.as_slice()),
            FieldsPart::Other => None,
        }
    }
}
