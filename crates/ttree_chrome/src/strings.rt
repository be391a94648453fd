//! The strings that identify processes and threads.

ghost use Rattle.std.specs.Prelude.{◌≡◌, IfOk, OnOk};
ghost use Rattle.ttree_chrome.specs.Strings.{ident_taken, label_field, label_of, no_strings, string_number, string_taken};

use crate::element::Ident;
use crate::keys::Keys;
use std::alloc::{AllocError, Global};
use std::marker::Model;
use tracing_tree_base::field::Field;
use tracing_tree_base::text::Text;
use ttree_source::calls::shown;

// What identifies a process or a thread: a number, or a string by its number.
#[derive(Clone, Copy, PartialEq, Eq, PartialOrd, Ord)]
pub(crate) enum Label {
    Number(i128),
    Name(u64),
}

// The strings that identify processes and threads, in order of appearance.
#[derive(Drop)]
pub(crate) struct Strings {
    // The number of each string.
    keys: Keys,
    // The strings by their numbers.
    texts: Vec<Text>,
}

impl Model for Strings {
    ghost use Rattle.ttree_chrome.specs.Strings.{StringsState};

    ghost Value = { StringsState };

    ghost view = { λ s. record { keys = s.keys; texts = s.texts.items } };
}

impl Strings {
    pub(crate) fn new(alloc: Global) -> Strings
        ensures { result ≡ no_strings }
    {
        Strings {
            keys: Keys::new(alloc),
            texts: Vec::new(alloc),
        }
    }

    // Returns what identifies a process or a thread. A new string gets a new number.
    pub(crate) fn take(&mut self, ident: Option<Ident>) -> Result<Option<Label>, AllocError>
        ensures label { IfOk result (λ label. label ≡ label_of ident self.old) }
        ensures strings { OnOk result (self.new ≡ ident_taken ident self.old) }
    {
        match ident {
            Some(Ident::Number(number)) => Ok(Some(Label::Number(number))),
            Some(Ident::Name(text)) => Ok(Some(Label::Name(self.take_string(text)?))),
            None => Ok(None),
        }
    }

    // Returns the number of a string. A new one gets a new number.
    fn take_string(&mut self, text: Text) -> Result<u64, AllocError>
        ensures number { IfOk result (λ number. number ≡ string_number text self.old) }
        ensures strings { OnOk result (self.new ≡ string_taken text self.old) }
    {
        if let Some(number) = self.keys.found(text.as_str().as_bytes()) {
            return Ok(number);
        }
        let number = self.keys.take(text.as_str())?;
        self.texts.push(text)?;
        Ok(number)
    }

    // Returns the strings by their numbers.
    pub(crate) fn into_texts(self) -> Vec<Text>
        ensures { result.items ≡ self.texts }
    {
        self.texts
    }
}

// Returns what identifies a process or a thread as a field, given the strings by their numbers.
pub(crate) fn label_field(
    alloc: Global,
    name: &str,
    label: Label,
    texts: &[Text],
) -> Result<Field, AllocError>
    ensures { IfOk result (λ field. field ≡ label_field name.now label texts.now) }
{
    match label {
        Label::Number(number) => Field::whole(alloc, name, number),
        Label::Name(number) => {
            let text = match texts.get(number as usize) {
                Some(text) => text.as_str(),
                None => "",
            };
            Ok(Field {
                name: Text::from_str(alloc, name)?,
                value: shown(alloc, text)?,
            })
        }
    }
}
