//! A document read token by token.

ghost use Rattle.std.specs.Prelude.{◌≡◌};
ghost use Rattle.xml.specs.Token.{token_view};
ghost use Rattle.xml.specs.Xml.{Reads, at_start, attribute_step, cdata_step, comment_step, content_step, declaration_step, doctype_step, end_tag_end_step, end_tag_step, greater_step, instruction_step, is_at_end, literal_end_step, literal_step, markup_step, next_plain_step, next_step, plain_step, plain_step_in, quoted_step, start_tag_step, step_in, subset_step, tag_step, text_step, value_step};

use crate::cut::{Until, after_blanks, after_mark, cut, without_end};
use std::marker::Model;
use thiserror::Error;

/// A token of a document. Its strings are not decoded: `push_text`, `push_attribute` and
/// `push_cdata` of this crate decode them.
#[derive(Clone, Copy, Debug)]
pub enum Token<'a> {
    /// A start tag begins, with this name. Its attributes come next, and then its end.
    StartTag(&'a str),

    /// An attribute of the tag: its name and its value.
    Attribute(&'a str, &'a str),

    /// The start tag ends, and the element's content comes next.
    TagEnd,

    /// The start tag ends, and so does its element, which is empty.
    EmptyTagEnd,

    /// The end tag of an element, with this name.
    EndTag(&'a str),

    /// Text, up to the next markup.
    Text(&'a str),

    /// A part of a CDATA section.
    Cdata(&'a str),

    /// A part of a comment, of a processing instruction or of a document type declaration, or the
    /// mark that starts one.
    Skipped,
}

/// What a document ends in the middle of.
#[derive(Clone, Copy, Debug, PartialEq, Eq, Error)]
pub enum Unfinished {
    #[error("the document ends in a tag")]
    Tag,

    #[error("the document ends in a comment")]
    Comment,

    #[error("the document ends in a CDATA section")]
    Cdata,

    #[error("the document ends in a processing instruction")]
    Instruction,

    #[error("the document ends in a document type declaration")]
    Doctype,
}

// What the rest of a document begins in.
#[derive(Clone, Copy, Debug, PartialEq, Eq)]
enum Place {
    Content,

    // In a start tag, after its name.
    Tag,

    // In an end tag, after its name.
    EndTag,
    Comment,
    Cdata,

    // At the `>` in a CDATA section.
    CdataGreater,
    Instruction,
    Doctype,

    // The internal subset of a document type declaration.
    Subset,
    SubsetComment,
}

/// A reader of a document, token by token.
///
/// After an error it is unchanged, so that it returns the error again.
#[derive(Debug, Drop)]
pub struct Reader<'a> {
    place: Place,
    rest: &'a str,
}

impl<'a> Model for Reader<'a> {
    ghost use Rattle.xml.specs.Reading.{Reading};

    ghost Value = { Reading };

    ghost view = { λ r. record { place = r.place; rest = r.rest.now } };
}

// A token, and what comes after it.
#[derive(Debug, Drop)]
struct Step<'a> {
    token: Token<'a>,
    after: Reader<'a>,
}

impl<'a> Model for Step<'a> {
    ghost use Rattle.xml.specs.Reading.{Reading};
    ghost use Rattle.xml.specs.Token.{ReadStep, token_view};

    ghost Value = { ReadStep };

    ghost view = { λ s. record { token = token_view s.token; after = s.after } };
}

impl<'a> Reader<'a> {
    /// Returns a reader of this document.
    pub fn new(document: &'a str) -> Reader<'a>
        ensures { result ≡ at_start document.now }
    {
        Reader {
            place: Place::Content,
            rest: document,
        }
    }

    /// Returns the next token, or None at the end of the document.
    ///
    /// # Errors
    ///
    /// `Unfinished` if the document ends in the middle of what comes next.
    pub fn next(&mut self) -> Result<Option<Token<'a>>, Unfinished>
        ensures { Reads (next_step self.old) self.old result self.new }
    {
        match self.step()? {
            Some(step) => {
                let Step { token, after } = step;
                *self = after;
                Ok(Some(token))
            }
            None => Ok(None),
        }
    }

    /// Returns the next token as [`Reader::next`] does, but a `<` in content is a character. So
    /// what surrounds a document can be read without taking it for markup.
    ///
    /// # Errors
    ///
    /// `Unfinished` if the document ends in the middle of what comes next.
    pub fn next_plain(&mut self) -> Result<Option<Token<'a>>, Unfinished>
        ensures { Reads (next_plain_step self.old) self.old result self.new }
    {
        match self.plain_step()? {
            Some(step) => {
                let Step { token, after } = step;
                *self = after;
                Ok(Some(token))
            }
            None => Ok(None),
        }
    }

    /// Returns the part of the document that hasn't been read.
    pub fn rest(&self) -> &'a str
        ensures { result.now ≡ self.now.rest }
    {
        self.rest
    }

    fn plain_step(&self) -> Result<Option<Step<'a>>, Unfinished>
        ensures { result ≡ next_plain_step self.now }
    {
        if self.is_at_end() {
            return Ok(None);
        }
        match plain_step_in(self.place, self.rest) {
            Ok(step) => Ok(Some(step)),
            Err(unfinished) => Err(unfinished),
        }
    }

    fn step(&self) -> Result<Option<Step<'a>>, Unfinished>
        ensures { result ≡ next_step self.now }
    {
        if self.is_at_end() {
            return Ok(None);
        }
        match step_in(self.place, self.rest) {
            Ok(step) => Ok(Some(step)),
            Err(unfinished) => Err(unfinished),
        }
    }

    fn is_at_end(&self) -> bool
        ensures { result ≡ is_at_end self.now }
    {
        match self.place {
            Place::Content => self.rest.is_empty(),
            _ => false,
        }
    }
}

// Returns the step at a place.
fn step_in(place: Place, rest: &str) -> Result<Step<'_>, Unfinished>
    ensures { result ≡ step_in place rest.now }
{
    match place {
        Place::Content => Ok(content_step(rest)),
        Place::Tag => tag_step(after_blanks(rest)),
        Place::EndTag => end_tag_end_step(rest),
        Place::Comment => comment_step(Place::Comment, Place::Content, rest),
        Place::Cdata => cdata_step(rest),
        Place::CdataGreater => greater_step(rest),
        Place::Instruction => instruction_step(rest),
        Place::Doctype => doctype_step(rest),
        Place::Subset => subset_step(rest),
        Place::SubsetComment => comment_step(Place::SubsetComment, Place::Subset, rest),
    }
}

// Returns the step at a place, if content is plain text.
fn plain_step_in(place: Place, rest: &str) -> Result<Step<'_>, Unfinished>
    ensures { result ≡ plain_step_in place rest.now }
{
    match place {
        Place::Content => Ok(plain_step(rest)),
        _ => step_in(place, rest),
    }
}

// Returns a `<`, or the text up to the next one.
fn plain_step(text: &str) -> Step<'_>
    ensures { result ≡ plain_step text.now }
{
    match after_mark(text, "<") {
        Some(rest) => step_to(Token::Text("<"), Place::Content, rest),
        None => text_step(text),
    }
}

fn step_to<'a>(token: Token<'a>, place: Place, rest: &'a str) -> Step<'a>
    ensures { result ≡ record {
      token = token_view token.entry;
      after = record {
        place = place;
        rest = rest.now;
      };
    } }
{
    Step {
        token,
        after: Reader { place, rest },
    }
}

// ---- content

fn content_step(text: &str) -> Step<'_>
    ensures { result ≡ content_step text.now }
{
    match after_mark(text, "<") {
        Some(markup) => markup_step(markup),
        None => text_step(text),
    }
}

fn text_step(text: &str) -> Step<'_>
    ensures { result ≡ text_step text.now }
{
    let (run, rest) = cut(text, Until::Markup);
    step_to(Token::Text(run), Place::Content, rest)
}

// Returns what comes after a `<`.
fn markup_step(text: &str) -> Step<'_>
    ensures { result ≡ markup_step text.now }
{
    if let Some(rest) = after_mark(text, "/") {
        end_tag_step(rest)
    } else if let Some(rest) = after_mark(text, "?") {
        step_to(Token::Skipped, Place::Instruction, rest)
    } else if let Some(rest) = after_mark(text, "!") {
        declaration_step(rest)
    } else {
        start_tag_step(text)
    }
}

// Returns what comes after a `<!`.
fn declaration_step(text: &str) -> Step<'_>
    ensures { result ≡ declaration_step text.now }
{
    if let Some(rest) = after_mark(text, "--") {
        step_to(Token::Skipped, Place::Comment, rest)
    } else if let Some(rest) = after_mark(text, "[CDATA[") {
        step_to(Token::Skipped, Place::Cdata, rest)
    } else {
        step_to(Token::Skipped, Place::Doctype, text)
    }
}

fn start_tag_step(text: &str) -> Step<'_>
    ensures { result ≡ start_tag_step text.now }
{
    let (name, rest) = cut(text, Until::Name);
    step_to(Token::StartTag(name), Place::Tag, rest)
}

fn end_tag_step(text: &str) -> Step<'_>
    ensures { result ≡ end_tag_step text.now }
{
    let (name, rest) = cut(text, Until::Name);
    step_to(Token::EndTag(name), Place::EndTag, rest)
}

// ---- tags

// Reads the next token in a tag, after its blanks.
fn tag_step(text: &str) -> Result<Step<'_>, Unfinished>
    ensures { result ≡ tag_step text.now }
{
    if text.is_empty() {
        Err(Unfinished::Tag)
    } else if let Some(rest) = after_mark(text, ">") {
        Ok(step_to(Token::TagEnd, Place::Content, rest))
    } else if let Some(rest) = after_mark(text, "/>") {
        Ok(step_to(Token::EmptyTagEnd, Place::Content, rest))
    } else {
        attribute_step(text)
    }
}

fn attribute_step(text: &str) -> Result<Step<'_>, Unfinished>
    ensures { result ≡ attribute_step text.now }
{
    let (name, rest) = cut(text, Until::AttributeName);
    match after_mark(after_blanks(rest), "=") {
        Some(value) => value_step(name, after_blanks(value)),
        None => Ok(step_to(Token::Attribute(name, ""), Place::Tag, rest)),
    }
}

fn value_step<'a>(name: &'a str, text: &'a str) -> Result<Step<'a>, Unfinished>
    ensures { result ≡ value_step name.now text.now }
{
    if let Some(value) = after_mark(text, "\"") {
        quoted_step(name, value, Until::DoubleQuote, "\"")
    } else if let Some(value) = after_mark(text, "'") {
        quoted_step(name, value, Until::SingleQuote, "'")
    } else {
        Ok(step_to(Token::Attribute(name, ""), Place::Tag, text))
    }
}

fn quoted_step<'a>(
    name: &'a str,
    text: &'a str,
    until: Until,
    quote: &str,
) -> Result<Step<'a>, Unfinished>
    ensures { result ≡ quoted_step name.now text.now until quote.now }
{
    let (value, rest) = cut(text, until);
    match after_mark(rest, quote) {
        Some(rest) => Ok(step_to(Token::Attribute(name, value), Place::Tag, rest)),
        None => Err(Unfinished::Tag),
    }
}

// Returns the end of an end tag.
fn end_tag_end_step(text: &str) -> Result<Step<'_>, Unfinished>
    ensures { result ≡ end_tag_end_step text.now }
{
    let (_, rest) = cut(text, Until::Greater);
    match after_mark(rest, ">") {
        Some(rest) => Ok(step_to(Token::Skipped, Place::Content, rest)),
        None => Err(Unfinished::Tag),
    }
}

// ---- what is skipped

// Returns a part of a comment, up to its next `>`.
fn comment_step(inside: Place, outside: Place, text: &str) -> Result<Step<'_>, Unfinished>
    ensures { result ≡ comment_step inside outside text.now }
{
    let (part, rest) = cut(text, Until::Greater);
    let Some(rest) = after_mark(rest, ">") else {
        return Err(Unfinished::Comment);
    };
    match without_end(part, "--") {
        Some(_) => Ok(step_to(Token::Skipped, outside, rest)),
        None => Ok(step_to(Token::Skipped, inside, rest)),
    }
}

fn instruction_step(text: &str) -> Result<Step<'_>, Unfinished>
    ensures { result ≡ instruction_step text.now }
{
    let (part, rest) = cut(text, Until::Greater);
    let Some(rest) = after_mark(rest, ">") else {
        return Err(Unfinished::Instruction);
    };
    match without_end(part, "?") {
        Some(_) => Ok(step_to(Token::Skipped, Place::Content, rest)),
        None => Ok(step_to(Token::Skipped, Place::Instruction, rest)),
    }
}

fn doctype_step(text: &str) -> Result<Step<'_>, Unfinished>
    ensures { result ≡ doctype_step text.now }
{
    let (_, rest) = cut(text, Until::Doctype);
    if let Some(rest) = after_mark(rest, ">") {
        Ok(step_to(Token::Skipped, Place::Content, rest))
    } else if let Some(rest) = after_mark(rest, "[") {
        Ok(step_to(Token::Skipped, Place::Subset, rest))
    } else {
        literal_step(Place::Doctype, rest)
    }
}

// Returns a part of the internal subset, up to what comes next of a literal, a comment and the end.
fn subset_step(text: &str) -> Result<Step<'_>, Unfinished>
    ensures { result ≡ subset_step text.now }
{
    let (_, rest) = cut(text, Until::Subset);
    if let Some(rest) = after_mark(rest, "]") {
        Ok(step_to(Token::Skipped, Place::Doctype, rest))
    } else if let Some(rest) = after_mark(rest, "<!--") {
        Ok(step_to(Token::Skipped, Place::SubsetComment, rest))
    } else if let Some(rest) = after_mark(rest, "<") {
        Ok(step_to(Token::Skipped, Place::Subset, rest))
    } else {
        literal_step(Place::Subset, rest)
    }
}

// Returns a literal between quotes in a document type declaration.
fn literal_step(place: Place, text: &str) -> Result<Step<'_>, Unfinished>
    ensures { result ≡ literal_step place text.now }
{
    if let Some(rest) = after_mark(text, "\"") {
        literal_end_step(place, rest, Until::DoubleQuote, "\"")
    } else if let Some(rest) = after_mark(text, "'") {
        literal_end_step(place, rest, Until::SingleQuote, "'")
    } else {
        Err(Unfinished::Doctype)
    }
}

fn literal_end_step<'a>(
    place: Place,
    text: &'a str,
    until: Until,
    quote: &str,
) -> Result<Step<'a>, Unfinished>
    ensures { result ≡ literal_end_step place text.now until quote.now }
{
    let (_, rest) = cut(text, until);
    match after_mark(rest, quote) {
        Some(rest) => Ok(step_to(Token::Skipped, place, rest)),
        None => Err(Unfinished::Doctype),
    }
}

// ---- CDATA

// Returns a part of a CDATA section, up to its next `>`.
fn cdata_step(text: &str) -> Result<Step<'_>, Unfinished>
    ensures { result ≡ cdata_step text.now }
{
    let (part, rest) = cut(text, Until::Greater);
    let Some(after) = after_mark(rest, ">") else {
        return Err(Unfinished::Cdata);
    };
    match without_end(part, "]]") {
        Some(whole) => Ok(step_to(Token::Cdata(whole), Place::Content, after)),
        None => Ok(step_to(Token::Cdata(part), Place::CdataGreater, rest)),
    }
}

// Returns a `>` in a CDATA section.
fn greater_step(text: &str) -> Result<Step<'_>, Unfinished>
    ensures { result ≡ greater_step text.now }
{
    match after_mark(text, ">") {
        Some(rest) => Ok(step_to(Token::Cdata(">"), Place::Cdata, rest)),
        None => Err(Unfinished::Cdata),
    }
}
