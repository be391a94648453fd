//! The start tag that is read, and a part of a case or of a suite.

ghost use Rattle.std.specs.Prelude.{◌≡◌, ◌++◌, [], IfOk, OnOk};
ghost use Rattle.xml.specs.Decoded.{cdata_decoded, text_decoded};
ghost use Rattle.ttree_junit.specs.Element.{attribute_in};
ghost use Rattle.ttree_junit.specs.States.{with_attribute};

use crate::element::attribute_in;
use std::alloc::{AllocError, Global};
use std::marker::Model;
use tracing_tree_base::field::Field;
use tracing_tree_base::text::Text;
use xml::{push_attribute, push_cdata, push_text};

// The start tag that is read: its name and its attributes.
#[derive(Drop)]
pub(crate) struct Tag {
    name: Text,
    attributes: Vec<Field>,
}

impl Model for Tag {
    ghost use Rattle.ttree_junit.specs.States.{TagState};

    ghost Value = { TagState };

    ghost view = { λ t. record { name = t.name; attributes = t.attributes.items } };
}

impl Tag {
    pub(crate) fn new(alloc: Global, name: &str) -> Result<Tag, AllocError>
        ensures { IfOk result (λ tag. tag ≡ record { name = name.now; attributes = [] }) }
    {
        Ok(Tag {
            name: Text::from_str(alloc, name)?,
            attributes: Vec::new(alloc),
        })
    }

    pub(crate) fn name(&self) -> &str
        ensures { result.now ≡ self.now.name }
    {
        self.name.as_str()
    }

    // Returns the value of an attribute. It is empty if there isn't one.
    pub(crate) fn value(&self, name: &str) -> &str
        ensures { result.now ≡ attribute_in name.now self.now.attributes }
    {
        attribute_in(name, self.attributes.as_slice())
    }

    pub(crate) fn add(&mut self, alloc: Global, name: &str, value: &str) -> Result<(), AllocError>
        ensures { OnOk result (self.new ≡ with_attribute name.now value.now self.old) }
    {
        let mut decoded = String::new(alloc);
        push_attribute(&mut decoded, value)?;
        let attribute = Field {
            name: Text::from_str(alloc, name)?,
            value: Text::from(decoded),
        };
        Ok(self.attributes.push(attribute)?)
    }
}

// A part of a case or of a suite: its element's name, its message and its content.
#[derive(Drop)]
pub(crate) struct Part {
    name: Text,
    message: Text,
    body: String,
}

impl Model for Part {
    ghost use Rattle.std.specs.Prelude.{string_bytes};
    ghost use Rattle.ttree_junit.specs.States.{PartState};

    ghost Value = { PartState };

    ghost view = { λ p. record { name = p.name; message = p.message; body = string_bytes p.body } };
}

impl Part {
    pub(crate) fn new(alloc: Global, name: &str, message: &str) -> Result<Part, AllocError>
        ensures { IfOk result (λ part.
            part ≡ record { name = name.now; message = message.now; body = [] }) }
    {
        Ok(Part {
            name: Text::from_str(alloc, name)?,
            message: Text::from_str(alloc, message)?,
            body: String::new(alloc),
        })
    }

    pub(crate) fn name(&self) -> &str
        ensures { result.now ≡ self.now.name }
    {
        self.name.as_str()
    }

    pub(crate) fn message(&self) -> &str
        ensures { result.now ≡ self.now.message }
    {
        self.message.as_str()
    }

    pub(crate) fn body(&self) -> &str
        ensures { result.now ≡ self.now.body }
    {
        self.body.as_str()
    }

    pub(crate) fn add_text(&mut self, run: &str) -> Result<(), AllocError>
        ensures { OnOk result (self.new
            ≡ record self.old { body = self.old.body ++ text_decoded run.now }) }
    {
        push_text(&mut self.body, run)
    }

    pub(crate) fn add_cdata(&mut self, part: &str) -> Result<(), AllocError>
        ensures { OnOk result (self.new
            ≡ record self.old { body = self.old.body ++ cdata_decoded part.now }) }
    {
        push_cdata(&mut self.body, part)
    }
}
